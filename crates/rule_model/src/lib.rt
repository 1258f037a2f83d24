//! Compression rules (RFC 8724 section 7.1) as plain types, and what can be wrong with them.
//!
//! A [`Rule`] is a RuleID with its [`Entries`]; each [`Entry`] says how one field is compared, by
//! its [`Operator`] with its [`Targets`], and what is sent of it, by its [`Action`]. A
//! [`RawEdition`] lists rules as they are handed in; a [`Finding`] says what is wrong with one, and
//! [`Admitted`] is a rule without any. The fields of a packet are [`Fields`], each a
//! [`FieldValue`].
#![tactic(auto)]

mod admitted;
mod cover;
mod finding;
mod lookup;
mod parts;
mod presence;
mod raw;
mod rule;
mod value;

pub use admitted::Admitted;
pub use cover::{
    computes_checksum, dropped_fields, has_layer, is_compute, is_lossy, serves, stack_of,
};
pub use finding::{Finding, FindingKind};
pub use lookup::{index_width, msb_bits, same_bits, value_of};
pub use parts::{JoinFault, Split, SplitFault};
pub use presence::{at_name, bits_of, is_at, presence_fault, value_in};
pub use raw::{DeviceLine, RawEdition, RawRule};
pub use rule::{Action, Entries, Entry, Length, Operator, Rule, Targets};
pub use value::{Computed, FieldValue, Fields};

#[cfg(test)]
mod tests;
