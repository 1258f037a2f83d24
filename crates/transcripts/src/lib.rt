//! The lines that are printed for events and their outcomes.
//!
//! [`line_text`] is the text of a [`Line`](event_data::Line), with the event that it came of.
#![tactic(auto)]

mod ended;
mod events;
mod lines;
mod outcomes;
mod words;

pub use lines::{line_text, with_line};
