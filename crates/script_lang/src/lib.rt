//! Scripts, read from text and written as text.
//!
//! A [`Script`] has devices, and each [`ScriptEvent`] is what happens to a device's two ends or to
//! the rules of all. [`parse`] reads one, or answers a [`ScriptFault`]; [`write`] spells it.
//! [`number`] reads a number as the words of a script spell it.
#![tactic(auto)]

mod devices;
mod happenings;
pub mod laws;
mod lines;
mod parsing;
mod scripts;
#[cfg(test)]
mod tests;
mod text;
mod writing;

pub use parsing::{Counted, ScriptFault, parse};
pub use scripts::{Script, ScriptEvent};
pub use text::number;
pub use writing::write;
