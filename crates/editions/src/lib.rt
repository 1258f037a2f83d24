//! Editions of the rules, in each of which a RuleID keeps the meaning that it once had.
//!
//! An [`Edition`] has a number and its rules, each [`Listed`] under its RuleID. [`follow`] makes
//! the next one, or answers a [`FollowFault`]. That no RuleID gets a second meaning in a chain of
//! editions stands in [`laws`].
#![tactic(auto)]

mod edition;
mod findings;
mod keys;
pub mod laws;
mod limits;
mod listed;
mod losses;
mod tables;

pub use edition::{Edition, FollowFault, follow};
pub use listed::Listed;
