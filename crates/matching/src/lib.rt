//! Whether a rule matches the fields of a packet (RFC 8724 sections 7.2 and 7.3).
//!
//! [`matches`] says so of an admitted rule, given the [`Computed`] values of the packet, and
//! [`operator_holds`] of one matching operator and one value.
#![tactic(auto)]

mod agreement;
mod comparison;

pub use agreement::operator_holds;
pub use comparison::matches;
pub use rule_model::Computed;
