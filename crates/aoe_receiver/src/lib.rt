//! The receiver of the ACK-on-Error mode of SCHC fragmentation (RFC 8724 section 8.4.3.2, RFC 9011
//! section 5.6.2).
//!
//! An [`AoeReceiver`] keeps the tiles that came in one buffer, makes the check when an All-1 comes,
//! and answers.
#![tactic(auto)]

pub mod laws;
mod receiver;
mod store;
#[cfg(test)]
mod tests;

pub use receiver::AoeReceiver;
