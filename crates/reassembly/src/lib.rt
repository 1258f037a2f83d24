//! What a receiver of fragments keeps of the packet that comes in parts (RFC 8724 section 8.4).
//!
//! A [`Reassembly`] has the parts one behind the other, in a buffer that is made once, makes the
//! check over them and joins them.
#![tactic(auto)]

mod buffer;
mod pieces;
#[cfg(test)]
mod tests;

pub use buffer::Reassembly;
