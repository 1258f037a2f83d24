//! The sender of the ACK-on-Error mode of SCHC fragmentation (RFC 8724 section 8.4.3).
//!
//! An [`AoeSender`] sends the tiles of one SCHC packet, asks for an answer with its last fragment,
//! and sends again the tiles that the receiver lacks.
#![tactic(auto)]

pub mod laws;
mod sender;
#[cfg(test)]
mod tests;
mod to_send;

pub use sender::AoeSender;
