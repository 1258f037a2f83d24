//! What the ports of LoRaWAN mean to an end (RFC 9011 sections 5.1 and 5.2).
//!
//! A [`PortMeaning`] is what a frame carries that comes by a port, as [`meaning`] says; [`sending`]
//! gives the port by which an end sends fragments, and their parameters.
#![tactic(auto)]

mod ports;
#[cfg(test)]
mod tests;

pub use ports::{PortMeaning, meaning, sending};
