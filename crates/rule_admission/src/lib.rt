//! The admission check: a rule is admitted exactly where none of the findings holds.
//!
//! [`admit`] makes an [`Admitted`](rule_model::Admitted) of a rule, or answers an [`AdmitFault`]
//! with the first finding.
#![tactic(auto)]

mod admission;
mod entries;
mod places;
mod shapes;
mod targets;
#[cfg(test)]
mod tests;

pub use admission::{AdmitFault, admit};
