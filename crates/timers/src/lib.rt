//! Timers that are named by small numbers, their keys.
//!
//! A [`TimerSet`] has at most one timer for each key: it is armed with a number of ticks, and due
//! once so many have passed. They are filed in a wheel, so that a tick needn't look at each.
#![tactic(auto)]

mod key_lists;
mod key_set;
pub mod laws;
#[cfg(test)]
mod tests;
mod timer_set;

pub use timer_set::TimerSet;
