//! The lists that every list of this repository is made of, and a reader of bits.
//!
//! An [`ItemList`] is the one generic list type; [`Octets`] are one of bytes. [`Bits`] are a list
//! of bits, a [`Part`] is a part of one, borrowed, and a [`BitReader`] reads bits from the front
//! on. Items that can be copied are [`CopyItem`], those that can be compared are [`Same`].
#![tactic(auto)]

mod bits;
mod list;
mod octet;
mod part;
mod reader;
#[cfg(test)]
mod tests;
mod words;

pub use bits::Bits;
pub use list::{CopyItem, ItemList, Octets, Same, same_items};
pub use octet::bits_within;
pub use part::Part;
pub use reader::BitReader;
