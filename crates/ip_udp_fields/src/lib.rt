//! The fields of IPv6 and UDP headers (RFC 8200, RFC 768): packets to fields and back, and the UDP
//! checksum.
//!
//! [`split`] gives the fields of a packet and where its payload begins, as a [`Split`]; [`join`]
//! makes the packet again. What is no packet has a [`SplitFault`], and what makes none a
//! [`JoinFault`].
#![tactic(auto)]

mod joining;
pub mod laws;
mod layout;
mod splitting;
mod sums;
#[cfg(test)]
mod tests;

pub use joining::{content_fault, has_number, join, join_by_name};
pub use rule_model::{JoinFault, Split, SplitFault};
pub use splitting::{extend_to_udp, has_ipv6_header, split};
pub use sums::checksum;
