//! The numbers of a run, and the line that is printed of them.
//!
//! [`Totals`] are what the lines of a run count, summed by many threads, and [`totals_text`] is
//! their line.
#![tactic(auto)]

#[cfg(test)]
mod tests;
mod text;
mod totals;

pub use text::totals_text;
pub use totals::{Totals, totals_of};
