//! The compression residue of a packet's fields (RFC 8724, section 7.4), read back.
//!
//! [`restore`] reads a residue under an [`Admitted`](rule_model::Admitted) rule, and gives the
//! fields and where the residue ended, as [`Restored`].
#![tactic(auto)]

mod entry;
mod fields;
pub mod laws;
mod number;
mod value;

pub use fields::{Restored, restore};
