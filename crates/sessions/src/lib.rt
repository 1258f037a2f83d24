//! The sessions of an end: what it sends and receives in fragments (RFC 8724 section 8, RFC 9011
//! section 5).
//!
//! [`Sessions`] have at most one [`Sender`] and, for each port by which fragments come, a
//! [`Receiver`], each of whatever mode, and their timers, the [`Clocks`]. What they give to be sent
//! is a [`SessionOut`]. By their calls sessions begin, give frames, take frames, let time pass and
//! are given up.
//!
//! The definitions have them by key, which is the port: the senders and the receivers, each with
//! the ticks that are left of its timer, and the number of the next session; and the step of each
//! call.
#![tactic(auto)]

mod clocks;
pub mod laws;
mod moves;
mod out;
mod receivers;
mod senders;
mod table;
#[cfg(test)]
mod tests;

pub use clocks::{Clock, Clocks, Due};
pub use moves::Running;
pub use out::{SessionOut, answer_out, heard_note, heard_report, sent_report};
pub use receivers::Receiver;
pub use senders::Sender;
pub use table::Sessions;
