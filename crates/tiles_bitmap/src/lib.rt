//! How an SCHC packet is cut in tiles (RFC 8724 section 8.2.2.1), and the numbers of the tiles.
//!
//! [`Cuts`] are the bits at which the tiles of a packet end, as [`cut`] finds them, and a
//! [`TileNumber`] names a tile in a fragment.
#![tactic(auto)]

mod cutting;
pub mod laws;
mod numbers;
#[cfg(test)]
mod tests;

pub use cutting::{Cuts, cut, end_of, start_of};
pub use numbers::{TileNumber, tile_number};
