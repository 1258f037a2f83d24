//! CoAP messages (RFC 7252) as fields and back.
//!
//! [`split`] gives the fields of a message and where its payload begins, as a [`Split`]; [`join`]
//! makes the message again. What is no message has a [`SplitFault`], and what makes none a
//! [`JoinFault`].
#![tactic(auto)]

mod join_conditions;
mod joining;
pub mod laws;
mod options;
mod splitting;
#[cfg(test)]
mod tests;
mod writing;

pub use join_conditions::message_fault;
pub use joining::join;
pub use rule_model::{JoinFault, Split, SplitFault};
pub use splitting::{split, split_onto};
