//! The compression residue of a packet's fields (RFC 8724, sections 7.2 and 7.4), written.
//!
//! [`residue`] puts the residue under an [`Admitted`](rule_model::Admitted) rule behind other bits,
//! and [`residue_len`] says how long it is.
#![tactic(auto)]

mod length;
mod write;

pub use length::residue_len;
pub use write::residue;
