//! The receiver of the ACK-Always mode of SCHC fragmentation (RFC 8724 section 8.4.2).
//!
//! An [`AaReceiver`] receives SCHC packets, one after the other, and answers each tile. Where it
//! stands is a [`State`], and the answer that is due on a tile a [`TileAnswer`].
#![tactic(auto)]

pub mod laws;
mod receiver;
mod states;
mod steps;
#[cfg(test)]
mod tests;

pub use receiver::AaReceiver;
pub use states::{State, TileAnswer};
