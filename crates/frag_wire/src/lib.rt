//! The messages between a sender and a receiver of fragments (RFC 8724 section 8.3).
//!
//! A [`Message`] is what a frame says; [`read`] has it from the bytes, and [`write`] gives the
//! bytes of one with its payload.
#![tactic(auto)]

mod ack_always;
mod ack_on_error;
mod answers;
mod bitmap;
mod fields;
pub mod laws;
mod message;
mod no_ack;
mod reading;
#[cfg(test)]
mod tests;
mod writing;

pub use bitmap::scissors;
pub use message::Message;
pub use reading::read;
pub use writing::write;
