//! Rules, editions and packets of tests, written down in short.
//!
//! A [`Draft`] is an entry, a [`Given`] a rule to be listed, and a [`Sample`] an example rule.
//! [`edition_of`] makes an edition of such rules; what can't be made has a [`DraftFault`].
#![tactic(auto)]

mod coap;
mod draft;
mod fault;
mod given;
mod packets;
mod samples;

pub use coap::{Coap, path, path_sent};
pub use draft::{Draft, by_first_bits, dropped, entry_of, known, mapped, open, remade};
pub use fault::DraftFault;
pub use given::{Given, admitted, edition_of, finding_in, listed, next_edition, rule_of};
pub use packets::{
    BARE, LONG_PATH, NO_MESSAGE, NO_MESSAGE_WHOLE, OTHER_FLOW, OTHER_ID, OTHER_PREFIX, SENSOR,
    SENSOR_WHOLE, TEMPERATURE, WITH_TOKEN, WRONG_CHECKSUM, WRONG_CHECKSUM_WHOLE, bits_of_hex,
    bits_of_text, bytes_of_hex,
};
pub use samples::{Sample, sample_drafts};
