//! Lists of bits.

ghost use Rattle.std.specs.Prelude.{ℕ, ◌≡◌, ◌+◌, ◌-◌, ◌^◌, ◌<◌, ◌≤◌, ◌↔◌, Bool, false, [], ◌∷◌, ◌++◌, length, take, drop, IsTrue, OnOk, OnErr, IfOk, slice_index_or};
ghost use Rattle.schc_bits.specs.Bits.{number_bits, octets, padded, bytes_of};

use crate::list::{CopyItem, Octets, Same};
use crate::part::Part;
use crate::words::{cut, put_bits};
use std::alloc::{AllocError, Global};
use std::marker::Model;

/// A list of bits, in the order in which they are sent (RFC 8724, section 8): the most
/// significant first. Contracts see a list of truth values.
#[derive(Drop)]
pub struct Bits {
    alloc: Global,
    words: Vec<u64>,
    count: usize,
}

impl Model for Bits {
    ghost use Rattle.std.specs.Prelude.{Bool, List, take};
    ghost use Rattle.schc_bits.specs.Words.{words_bits, IsFilled};

    ghost Value = { List Bool };

    ghost view = { λ b. take b.count (words_bits b.words.items) };

    ghost invariant = { λ b. IsFilled b.words.items b.count };
}

impl Bits {
    /// The empty list. It takes no memory.
    pub fn new(alloc: Global) -> Self
        ensures { result ≡ [] }
    {
        Bits {
            alloc,
            words: Vec::new(alloc),
            count: 0,
        }
    }

    /// Eight bits for each byte, the highest first.
    ///
    /// # Errors
    /// Want of memory.
    pub fn from_bytes(alloc: Global, bytes: &[u8]) -> Result<Self, AllocError>
        ensures { IfOk result (λ bits. bits ≡ octets bytes.now) }
    {
        let mut bits = Bits::new(alloc);
        bits.reserve(bytes.len().saturating_mul(8))?;
        bits.push_bytes(bytes)?;
        Ok(bits)
    }

    /// The number in `count` bits, the most significant first.
    ///
    /// # Errors
    /// Want of memory.
    pub fn from_number(alloc: Global, value: u64, count: u32) -> Result<Self, AllocError>
        requires width { count ≤ 64 }
        requires fits { value < 2 ^ count }
        ensures { IfOk result (λ bits. bits ≡ number_bits count value) }
    {
        let mut bits = Bits::new(alloc);
        bits.push_bits(value, count)?;
        Ok(bits)
    }

    /// The number of bits.
    pub fn len(&self) -> usize
        ensures { result ≡ length self.now }
    {
        self.count
    }

    /// True exactly where there is no bit.
    pub fn is_empty(&self) -> bool
        ensures { IsTrue result ↔ (self.now ≡ []) }
    {
        self.len() == 0
    }

    /// The bit at the index `i`, from 0.
    pub fn bit(&self, i: usize) -> bool
        requires { i < length self.now }
        ensures { (default : Bool) → result ≡ slice_index_or self.now i default }
    {
        self.as_part().bit(i)
    }

    /// The bits, looked at where they stand.
    pub fn as_part(&self) -> Part<'_>
        ensures { result ≡ self.now }
    {
        Part::of_words(self.words.as_slice(), self.count)
    }

    /// Puts all bits of `more` last.
    ///
    /// # Errors
    /// Want of memory; the bits are then as before.
    pub fn extend_from_part(&mut self, more: &Part<'_>) -> Result<(), AllocError>
        ensures ok { OnOk result (self.new ≡ self.old ++ more.now) }
        ensures err { OnErr result (self.new ≡ self.old) }
    {
        let before = self.len();
        match self.put_part(more) {
            Ok(()) => Ok(()),
            Err(error) => {
                self.truncate(before);
                Err(error)
            }
        }
    }

    /// Puts one bit last.
    ///
    /// # Errors
    /// Want of memory; the bits are then as before.
    pub fn push(&mut self, bit: bool) -> Result<(), AllocError>
        ensures ok { OnOk result (self.new ≡ self.old ++ bit ∷ []) }
        ensures err { OnErr result (self.new ≡ self.old) }
    {
        self.push_bits(u64::from(bit), 1)
    }

    /// Puts the number last in `count` bits, the highest first.
    ///
    /// # Errors
    /// Want of memory; the bits are then as before.
    pub fn push_bits(&mut self, value: u64, count: u32) -> Result<(), AllocError>
        requires width { count ≤ 64 }
        requires fits { value < 2 ^ count }
        ensures ok { OnOk result (self.new ≡ self.old ++ number_bits count value) }
        ensures err { OnErr result (self.new ≡ self.old) }
    {
        let Some(after) = self.count.checked_add(count as usize) else {
            return Err(AllocError);
        };
        put_bits(&mut self.words, self.count, value, count)?;
        self.count = after;
        Ok(())
    }

    /// Puts all bits of `other` last.
    ///
    /// # Errors
    /// Want of memory; the bits are then as before.
    pub fn extend(&mut self, other: &Bits) -> Result<(), AllocError>
        ensures ok { OnOk result (self.new ≡ self.old ++ other.now) }
        ensures err { OnErr result (self.new ≡ self.old) }
    {
        self.extend_from_part(&other.as_part())
    }

    /// Puts eight bits for each byte last, the highest first.
    ///
    /// # Errors
    /// Want of memory; the bits are then as before.
    pub fn push_bytes(&mut self, bytes: &[u8]) -> Result<(), AllocError>
        ensures ok { OnOk result (self.new ≡ self.old ++ octets bytes.now) }
        ensures err { OnErr result (self.new ≡ self.old) }
    {
        let before = self.len();
        match self.put_octets(bytes) {
            Ok(()) => Ok(()),
            Err(error) => {
                self.truncate(before);
                Err(error)
            }
        }
    }

    /// An equal list.
    ///
    /// # Errors
    /// Want of memory.
    pub fn copy(&self) -> Result<Self, AllocError>
        ensures { IfOk result (λ copy. copy ≡ self.now) }
    {
        self.copy_item(self.alloc)
    }

    /// The bits from the index `from` on, up to the index `to`, which is left out.
    ///
    /// # Errors
    /// Want of memory.
    pub fn slice(&self, from: usize, to: usize) -> Result<Self, AllocError>
        requires order { from ≤ to }
        requires within { to ≤ length self.now }
        ensures { IfOk result (λ bits. bits ≡ take (to - from) (drop from self.now)) }
    {
        self.as_part()
            .after(from)
            .front(to - from)
            .to_bits(self.alloc)
    }

    /// Leaves the first `count` bits, or all where there are fewer. It takes no memory.
    pub fn truncate(&mut self, count: usize)
        ensures { self.new ≡ take count self.old }
    {
        if count < self.count {
            cut(&mut self.words, count);
            self.count = count;
        }
    }

    /// The bits as bytes, with the fewest zero bits after them that make whole bytes (RFC 8724,
    /// section 9).
    ///
    /// # Errors
    /// Want of memory.
    pub fn to_padded_bytes(&self) -> Result<Octets, AllocError>
        ensures { IfOk result (λ bytes. bytes.items ≡ bytes_of (padded self.now)) }
    {
        self.as_part().to_padded_bytes(self.alloc)
    }

    /// True exactly where the two have the same bits in the same order.
    pub fn same(&self, other: &Bits) -> bool
        ensures { IsTrue result ↔ (self.now ≡ other.now) }
    {
        self.as_part().same(&other.as_part())
    }
}

impl Bits {
    /// Makes room for `count` bits more, and leaves the bits as they are.
    ///
    /// # Errors
    /// Want of memory.
    pub(crate) fn reserve(&mut self, count: usize) -> Result<(), AllocError>
        ensures { self.new ≡ self.old }
    {
        self.words.reserve(count.div_ceil(64))
    }

    /// Puts all bits of `more` last, 64 at a time. Where memory wants, some of them are there.
    fn put_part(&mut self, more: &Part<'_>) -> Result<(), AllocError>
        ensures ok { OnOk result (self.new ≡ self.old ++ more.now) }
        ensures err { OnErr result (take (length self.old) self.new ≡ self.old) }
    {
        let mut at = 0;
        while at < more.len() {
            let step = more.step_at(at);
            self.push_bits(more.read_at(at, step), step as u32)?;
            at += step;
        }
        Ok(())
    }

    /// Puts eight bits for each byte last. Where memory wants, some of them are there.
    fn put_octets(&mut self, bytes: &[u8]) -> Result<(), AllocError>
        ensures ok { OnOk result (self.new ≡ self.old ++ octets bytes.now) }
        ensures err { OnErr result (take (length self.old) self.new ≡ self.old) }
    {
        let rest = self.put_eights(bytes)?;
        self.put_single(rest)
    }

    /// Puts the bits of eight bytes at a time, and gives the bytes that are left.
    fn put_eights<'b>(&mut self, bytes: &'b [u8]) -> Result<&'b [u8], AllocError>
        ensures ok { IfOk result (λ rest. self.new ++ octets rest.now ≡ self.old ++ octets bytes.now) }
        ensures front { take (length self.old) self.new ≡ self.old }
    {
        let mut rest = bytes;
        while let Some((first, later)) = rest.split_first_chunk::<8>() {
            self.push_bits(u64::from_be_bytes(*first), 64)?;
            rest = later;
        }
        Ok(rest)
    }

    /// Puts the bits of one byte at a time.
    fn put_single(&mut self, bytes: &[u8]) -> Result<(), AllocError>
        ensures ok { OnOk result (self.new ≡ self.old ++ octets bytes.now) }
        ensures err { OnErr result (take (length self.old) self.new ≡ self.old) }
    {
        for byte in bytes {
            self.push_bits(u64::from(*byte), 8)?;
        }
        Ok(())
    }
}

impl CopyItem for Bits {
    fn copy_item(&self, alloc: Global) -> Result<Bits, AllocError> {
        self.as_part().to_bits(alloc)
    }
}

impl Same for Bits {
    fn same(&self, other: &Bits) -> bool {
        Bits::same(self, other)
    }
}

impl CopyItem for bool {
    fn copy_item(&self, _alloc: Global) -> Result<bool, AllocError> {
        Ok(*self)
    }
}

impl Same for bool {
    fn same(&self, other: &bool) -> bool {
        *self == *other
    }
}
