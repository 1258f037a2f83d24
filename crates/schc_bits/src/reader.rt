//! Reading bits in their order.

ghost use Rattle.std.specs.Prelude.{ℕ, ◌≡◌, ◌^◌, ◌<◌, ◌≤◌, ◌↔◌, List, length, drop, Some, None, IsNone, IfSome, IfNone, IfOk, OnErr};
ghost use Rattle.schc_bits.specs.Bits.{bits_at, number_at};

use crate::bits::Bits;
use crate::part::Part;
use std::alloc::{AllocError, Global};
use std::marker::Model;

/// Reads bits in their order, the first first. Contracts see the list of the bits that are left.
#[derive(Drop)]
pub struct BitReader<'a> {
    rest: Part<'a>,
}

impl<'a> Model for BitReader<'a> {
    ghost use Rattle.std.specs.Prelude.{Bool, List};

    ghost Value = { List Bool };

    ghost view = { λ r. r.rest };
}

impl<'a> BitReader<'a> {
    /// A reader of all the bits.
    pub fn new(bits: &'a Bits) -> Self
        ensures { result ≡ bits.now }
    {
        BitReader {
            rest: bits.as_part(),
        }
    }

    /// A reader of the bits from the index `place` on.
    pub fn at(bits: &'a Bits, place: usize) -> Self
        requires { place ≤ length bits.now }
        ensures { result ≡ drop place bits.now }
    {
        BitReader {
            rest: bits.as_part().after(place),
        }
    }

    /// How many bits are left. The index of the next one among all bits is their number less this.
    pub fn left(&self) -> usize
        ensures { result ≡ length self.now }
    {
        self.rest.len()
    }

    /// The bits that are left.
    pub fn rest_part(&self) -> Part<'a>
        ensures { result ≡ self.now }
    {
        self.rest.after(0)
    }

    /// Takes the next `count` bits. None where fewer are left; then nothing is taken.
    pub fn take_part(&mut self, count: usize) -> Option<Part<'a>>
        ensures some { IfSome result (λ taken. bits_at count self.old ≡ Some (taken, self.new)) }
        ensures none { IfNone result (bits_at count self.old ≡ None) }
        ensures kept { IfNone result (self.new ≡ self.old) }
        ensures short { IsNone result ↔ (length self.old < count) }
    {
        if self.rest.len() < count {
            return None;
        }
        let taken = self.rest.front(count);
        self.rest = self.rest.after(count);
        Some(taken)
    }

    /// Takes the number that the next `count` bits write, the most significant first. None where
    /// fewer bits are left; then nothing is taken.
    pub fn read(&mut self, count: u32) -> Option<u64>
        requires { count ≤ 64 }
        ensures some { IfSome result (λ number. number_at count self.old ≡ Some (number, self.new)) }
        ensures below { IfSome result (λ number. number < 2 ^ count) }
        ensures none { IfNone result (number_at count self.old ≡ None) }
        ensures kept { IfNone result (self.new ≡ self.old) }
        ensures short { IsNone result ↔ (length self.old < count) }
    {
        if self.rest.len() < count as usize {
            return None;
        }
        let number = self.rest.read_at(0, count as usize);
        self.rest = self.rest.after(count as usize);
        Some(number)
    }

    /// Takes the next `count` bits into a list of their own. None where fewer are left; then
    /// nothing is taken.
    ///
    /// # Errors
    /// Want of memory; nothing is taken then.
    pub fn take_bits(&mut self, alloc: Global, count: usize) -> Result<Option<Bits>, AllocError>
        ensures some { IfOk result (λ found. IfSome found (λ taken. bits_at count self.old ≡ Some (taken, self.new))) }
        ensures none { IfOk result (λ found. IfNone found (bits_at count self.old ≡ None)) }
        ensures kept { IfOk result (λ found. IfNone found (self.new ≡ self.old)) }
        ensures short { IfOk result (λ found. IsNone found ↔ (length self.old < count)) }
        ensures err { OnErr result (self.new ≡ self.old) }
    {
        if self.rest.len() < count {
            return Ok(None);
        }
        let taken = self.rest.front(count).to_bits(alloc)?;
        self.rest = self.rest.after(count);
        Ok(Some(taken))
    }
}
