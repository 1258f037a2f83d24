//! One end of the link: it takes one event at a time and says its outcome (RFC 8724, RFC 9011).
//!
//! An [`End`] takes a packet that is handed down, gives the frame that is due at a slot, takes a frame,
//! lets a tick pass, and learns the editions of rules that it is offered and allowed to write with.
//! What it hands up stands in [`laws`].
//!
//! ```text
//! let mut device = End::new(alloc, Role::Device, params)?;
//! let mut gateway = End::new(alloc, Role::Gateway, params)?;
//! device.down(packet)?;
//! while let Some(emitted) = device.slot()? {
//!     let taken = gateway.take(&emitted.frame)?; // taken.up is the packet once it is whole
//! }
//! ```
#![tactic(auto)]

mod end;
mod forms;
pub mod laws;
#[cfg(test)]
mod tests;

pub use end::End;
pub use event_data::{Accepted, DownFault, Offered};
