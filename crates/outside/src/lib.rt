//! Where the product meets the outside: what it reads from and what it writes to.
//!
//! A [`Source`] gives bytes and a [`Sink`] takes them. Each has a count of faults that never falls, and
//! a call fails only where the count rose in it: where the count stays, nothing failed. A count that
//! has reached 2^64 - 1 stays there and then counts as risen. What a source has left, and what a sink
//! holds, is told by the implementations in memory ([`MemSource`], [`MemSink`]) and not by the real
//! ones ([`StdSource`], [`StdSink`]), which are trusted.
//!
//! [`read_all`] and [`write_all`] are the loops over them.
#![tactic(auto)]

mod loops;
mod memory;
mod sinks;
mod sources;
mod standard;
#[cfg(test)]
mod tests;

pub use loops::{ReadAllFault, WriteFault, read_all, write_all};
pub use memory::{MemSink, MemSource};
pub use sinks::{Sink, Wrote};
pub use sources::{Read, Source};
pub use standard::{StdSink, StdSource};
