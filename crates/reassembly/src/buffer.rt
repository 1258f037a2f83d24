//! The buffer of the bits that are kept.

ghost use Rattle.std.specs.Prelude.{ℕ, ◌≡◌, ◌+◌, ◌-◌, ◌*◌, ◌%◌, ◌^◌, ◌<◌, ◌≤◌, true, [], ◌++◌, length, drop, IfOk};
ghost use Rattle.schc_bits.specs.Bits.{number_bits, octets};
ghost use Rattle.reassembly.specs.Joining.{reassembly_bits, has_room, passes};

use crate::pieces::with_bits;
use rcs::Register;
use schc_bits::{Bits, bits_within};
use schc_ids::limits::REASSEMBLY_BYTES;
use std::alloc::{AllocError, Global};
use std::marker::Model;

/// The bits that are kept of a packet, one part behind the other, in a buffer of 2,530 bytes. Contracts
/// see a list of truth values. A part is the bits of some bytes from an index on to their end.
#[derive(Drop)]
pub struct Reassembly {
    buffer: Vec<u8>,
    count: usize,
}

impl Model for Reassembly {
    ghost use Rattle.std.specs.Prelude.{ℕ, ◌≡◌, ◌≤◌, Bool, List, length, take};
    ghost use Rattle.schc_bits.specs.Bits.{octets};
    ghost use Rattle.reassembly.specs.Joining.{reassembly_bits};

    ghost Value = { List Bool };

    ghost view = { λ r. take r.count (octets r.buffer.items) };

    ghost invariant = { λ r. (length r.buffer.items ≡ 2530) × (r.count ≤ reassembly_bits) };
}

impl Reassembly {
    /// Nothing is kept. This alone takes memory for what is kept.
    ///
    /// # Errors
    /// Want of memory.
    pub fn new(alloc: Global) -> Result<Reassembly, AllocError>
        ensures { IfOk result (λ kept. kept ≡ []) }
    {
        Ok(Reassembly {
            buffer: vec![in alloc; 0; REASSEMBLY_BYTES]?,
            count: 0,
        })
    }

    /// The number of bits that are kept.
    pub fn len(&self) -> usize
        ensures count { result ≡ length self.now }
        ensures most { result ≤ reassembly_bits }
    {
        self.count
    }

    /// Nothing is kept any more. It takes no memory.
    pub fn clear(&mut self)
        ensures { self.new ≡ [] }
    {
        self.count = 0;
    }

    /// True exactly where the bits of the bytes from the index `from` on can be kept too. It takes no
    /// memory.
    pub fn has_room(&self, bytes: &[u8], from: usize) -> bool
        requires within { from ≤ 8 * length bytes.now }
        ensures { result ≡ has_room self.now (drop from (octets bytes.now)) }
    {
        let whole = bytes.len() - from / 8;
        if whole > REASSEMBLY_BYTES + 1 {
            return false;
        }
        self.count + (8 * whole - from % 8) <= 8 * REASSEMBLY_BYTES
    }

    /// Keeps the bits of the bytes from the index `from` on, behind those that are kept. It takes no
    /// memory.
    pub fn append(&mut self, bytes: &[u8], from: usize)
        requires within { from ≤ 8 * length bytes.now }
        requires room { has_room self.old (drop from (octets bytes.now)) ≡ true }
        ensures kept { self.new ≡ self.old ++ drop from (octets bytes.now) }
        ensures most { length self.new ≤ reassembly_bits }
    {
        let mut first = (from % 8) as u32;
        let (_, mut rest) = bytes.split_at(from / 8);
        while let Some((byte, later)) = rest.split_first() {
            self.put_byte(*byte, first);
            first = 0;
            rest = later;
        }
    }

    /// True exactly where the reassembly check sequence (RFC 8724, section 8.2.3) of the bits that are
    /// kept and those of the bytes from the index `from` on is this one. It takes no memory.
    pub fn passes(&self, bytes: &[u8], from: usize, rcs: u32) -> bool
        requires within { from ≤ 8 * length bytes.now }
        requires room { has_room self.now (drop from (octets bytes.now)) ≡ true }
        ensures { result ≡ passes self.now (drop from (octets bytes.now)) rcs }
    {
        let mut register = Register::new();
        register.add(self.buffer.as_slice(), 0, self.count);
        let (_, rest) = bytes.split_at(from / 8);
        register.add(rest, from % 8, 8 * rest.len());
        register.value() == rcs
    }

    /// The bits that are kept, and behind them those of the bytes from the index `from` on.
    ///
    /// # Errors
    /// Want of memory.
    pub fn joined(&self, alloc: Global, bytes: &[u8], from: usize) -> Result<Bits, AllocError>
        requires within { from ≤ 8 * length bytes.now }
        ensures { IfOk result (λ bits. bits ≡ self.now ++ drop from (octets bytes.now)) }
    {
        let (front, _) = self.buffer.split_at(self.count.div_ceil(8));
        let mut bits = Bits::from_bytes(alloc, front)?;
        bits.truncate(self.count);
        let part = Bits::from_bytes(alloc, bytes)?;
        bits.extend_from_part(&part.as_part().after(from))?;
        Ok(bits)
    }

    /// Keeps the bits of the byte from the index `first` on.
    fn put_byte(&mut self, byte: u8, first: u32)
        requires first { first < 8 }
        requires room { length self.old + (8 - first) ≤ reassembly_bits }
        ensures { self.new ≡ self.old ++ drop first (number_bits 8 byte) }
    {
        let used = (self.count % 8) as u32;
        let width = (8 - first).min(8 - used);
        self.put(bits_within(byte, first, width), width);
        let rest = 8 - first - width;
        if rest > 0 {
            self.put(bits_within(byte, first + width, rest), rest);
        }
    }

    /// Keeps the number in `width` bits, which stand in one byte.
    fn put(&mut self, value: u32, width: u32)
        requires some { 1 ≤ width }
        requires one_byte { length self.old % 8 + width ≤ 8 }
        requires fits { value < 2 ^ width }
        requires room { length self.old + width ≤ reassembly_bits }
        ensures { self.new ≡ self.old ++ number_bits width value }
    {
        let at = self.count / 8;
        let used = (self.count % 8) as u32;
        self.buffer[at] = with_bits(self.buffer[at], used, value, width);
        self.count += width as usize;
    }
}
