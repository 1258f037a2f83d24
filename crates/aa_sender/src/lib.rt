//! The sender of the ACK-Always mode of SCHC fragmentation (RFC 8724 section 8.4.2).
//!
//! An [`AaSender`] sends one SCHC packet, a tile at a time, and waits for the answer to each. Where
//! it stands is an [`AaSenderState`].
#![tactic(auto)]

pub mod laws;
mod sender;
mod states;
#[cfg(test)]
mod tests;

pub use sender::AaSender;
pub use states::AaSenderState;
