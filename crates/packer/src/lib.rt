//! Whole packets to SCHC packets and back (RFC 8724, section 7).
//!
//! [`pack`] writes an IPv6 packet under the rule of an edition that gives the fewest bits, and answers
//! [`Packed`]: the edition's number, the RuleID, the bits. [`unpack`] reads such bits with an edition,
//! and answers [`Unpacked`]: the RuleID, the packet. What is known of the two stands in [`laws`].
//!
//! ```text
//! let written = pack(alloc, &edition, iids, Direction::Up, packet)?;
//! let read = unpack(alloc, &edition, iids, Direction::Up, &written.bits)?;
//! let same_rule = read.rule_id == written.rule_id;
//! let same_packet = read.packet.as_slice() == packet; // but for what the rule drops
//! ```
#![tactic(auto)]

mod choosing;
pub mod laws;
mod ordering;
mod packing;
mod rebuilding;
mod splits;
mod unpacking;

pub use packing::{Packed, pack};
pub use unpacking::{Unpacked, unpack};
