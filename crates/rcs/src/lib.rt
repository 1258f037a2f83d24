//! The reassembly check sequence of SCHC fragmentation (RFC 8724, section 8.2.3): the CRC-32 of
//! IEEE 802.3 over the bits of a packet, padded to whole bytes.
//!
//! A [`Register`] takes the bits in pieces and has their check at any time; [`rcs`] is that of a
//! list of bits.
#![tactic(auto)]

mod register;
#[cfg(test)]
mod tests;
mod words;

pub use register::{Register, rcs};
pub use words::table_is_right;
