//! Editions of rules as they are handed in, and the editions of a chain that are made of them.
//!
//! [`publish`] admits each rule of a [`RawEdition`](rule_model::RawEdition) and gives the
//! [`Edition`](editions::Edition) that follows the one before, or answers a [`PublishFault`].
#![tactic(auto)]

mod publication;
#[cfg(test)]
mod tests;

pub use publication::{PublishFault, publish};
