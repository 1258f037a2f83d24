//! The No-ACK mode of SCHC fragmentation (RFC 8724 section 8.4.1), in which nothing is answered.
//!
//! A [`NoAckSender`] sends one SCHC packet, tile after tile, and says where it stands by a
//! [`NoAckSenderState`]. A [`NoAckReceiver`] receives packets, one after the other.
#![tactic(auto)]

pub mod laws;
mod receiver;
mod sender;
mod states;
#[cfg(test)]
mod tests;

pub use receiver::NoAckReceiver;
pub use sender::NoAckSender;
pub use states::NoAckSenderState;
