//! A part of a list of bits, looked at where it stands.

ghost use Rattle.std.specs.Prelude.{ℕ, ◌≡◌, ◌+◌, ◌-◌, ◌*◌, ◌^◌, ◌<◌, ◌≤◌, ◌↔◌, Bool, false, [], ◌++◌, length, take, drop, replicate, IsTrue, OnOk, OnErr, IfOk, slice_index_or};
ghost use Rattle.schc_bits.specs.Bits.{bits_value, padded, bytes_of};
ghost use Rattle.schc_bits.specs.Words.{words_bits};

use crate::bits::Bits;
use crate::list::Octets;
use crate::words::bits_from;
use std::alloc::{AllocError, Global};
use std::marker::Model;

/// A part of a list of bits, borrowed. Contracts see the list of these bits.
#[derive(Drop)]
pub struct Part<'a> {
    words: &'a [u64],
    from: usize,
    count: usize,
}

impl<'a> Model for Part<'a> {
    ghost use Rattle.std.specs.Prelude.{◌+◌, ◌*◌, ◌^◌, ◌<◌, ◌≤◌, Bool, List, length, take, drop};
    ghost use Rattle.schc_bits.specs.Words.{words_bits};

    ghost Value = { List Bool };

    ghost view = { λ p. take p.count (drop p.from (words_bits p.words.now)) };

    ghost invariant = { λ p. (p.from + p.count ≤ 64 * length p.words.now) × (p.from + p.count < 2 ^ 64) };
}

impl<'a> Part<'a> {
    /// No bits.
    pub fn none() -> Part<'a>
        ensures { result ≡ [] }
    {
        Part {
            words: &[],
            from: 0,
            count: 0,
        }
    }

    /// All bits of the list.
    pub fn of(bits: &'a Bits) -> Part<'a>
        ensures { result ≡ bits.now }
    {
        bits.as_part()
    }

    /// The first `count` bits of the words.
    pub(crate) fn of_words(words: &'a [u64], count: usize) -> Part<'a>
        requires { count ≤ 64 * length words.now }
        ensures { result ≡ take count (words_bits words.now) }
    {
        Part {
            words,
            from: 0,
            count,
        }
    }

    /// The number of bits.
    #[inline(always)]
    pub fn len(&self) -> usize
        ensures { result ≡ length self.now }
    {
        self.count
    }

    /// True exactly where there is no bit.
    pub fn is_empty(&self) -> bool
        ensures { IsTrue result ↔ (self.now ≡ []) }
    {
        self.len() == 0
    }

    /// The bit at the index `i`, from 0.
    pub fn bit(&self, i: usize) -> bool
        requires { i < length self.now }
        ensures { (default : Bool) → result ≡ slice_index_or self.now i default }
    {
        self.read_at(i, 1) == 1
    }

    /// The first `count` bits.
    pub fn front(&self, count: usize) -> Part<'a>
        requires { count ≤ length self.now }
        ensures { result ≡ take count self.now }
    {
        Part {
            words: self.words,
            from: self.from,
            count,
        }
    }

    /// The bits after the first `count`.
    pub fn after(&self, count: usize) -> Part<'a>
        requires { count ≤ length self.now }
        ensures { result ≡ drop count self.now }
    {
        Part {
            words: self.words,
            from: self.from + count,
            count: self.count - count,
        }
    }

    /// The number that at most 64 bits write, the most significant first.
    pub fn number(&self) -> u64
        requires { length self.now ≤ 64 }
        ensures value { result ≡ bits_value self.now }
    {
        self.read_at(0, self.len())
    }

    /// The number that the `count` bits from the index `at` on write.
    #[inline(always)]
    pub(crate) fn read_at(&self, at: usize, count: usize) -> u64
        requires width { count ≤ 64 }
        requires within { at + count ≤ length self.now }
        ensures value { result ≡ bits_value (take count (drop at self.now)) }
        ensures below { result < 2 ^ count }
    {
        bits_from(self.words, self.from + at, count as u32)
    }

    /// How many bits of those from the index `at` on are looked at at once: all, or 64.
    #[inline(always)]
    pub(crate) fn step_at(&self, at: usize) -> usize
        requires { at < length self.now }
        ensures some { 1 ≤ result }
        ensures width { result ≤ 64 }
        ensures within { at + result ≤ length self.now }
    {
        (self.len() - at).min(64)
    }

    /// True exactly where the two have the same bits in the same order.
    pub fn same(&self, other: &Part<'_>) -> bool
        ensures { IsTrue result ↔ (self.now ≡ other.now) }
    {
        self.len() == other.len() && self.begins_with(other)
    }

    /// True exactly where the bits of `front` come first.
    pub fn begins_with(&self, front: &Part<'_>) -> bool
        ensures { IsTrue result ↔ (take (length front.now) self.now ≡ front.now) }
    {
        if self.len() < front.len() {
            return false;
        }
        let mut at = 0;
        while at < front.len() {
            let step = front.step_at(at);
            if self.read_at(at, step) != front.read_at(at, step) {
                return false;
            }
            at += step;
        }
        true
    }

    /// True exactly where no bit is set.
    pub fn is_zero(&self) -> bool
        ensures { IsTrue result ↔ (self.now ≡ replicate (length self.now) false) }
    {
        let mut at = 0;
        while at < self.len() {
            let step = self.step_at(at);
            if self.read_at(at, step) != 0 {
                return false;
            }
            at += step;
        }
        true
    }

    /// A list of these bits.
    ///
    /// # Errors
    /// Want of memory.
    pub fn to_bits(&self, alloc: Global) -> Result<Bits, AllocError>
        ensures { IfOk result (λ list. list ≡ self.now) }
    {
        let mut bits = Bits::new(alloc);
        bits.reserve(self.len())?;
        bits.extend_from_part(self)?;
        Ok(bits)
    }

    /// The whole bytes of the bits. Up to seven bits behind the last whole byte are left out.
    ///
    /// # Errors
    /// Want of memory.
    pub fn to_whole_bytes(&self, alloc: Global) -> Result<Octets, AllocError>
        ensures { IfOk result (λ bytes. bytes.items ≡ bytes_of self.now) }
    {
        self.front(self.len() - self.len() % 8)
            .to_padded_bytes(alloc)
    }

    /// The bits as bytes, with the fewest zero bits after them that make whole bytes (RFC 8724,
    /// section 9).
    ///
    /// # Errors
    /// Want of memory.
    pub fn to_padded_bytes(&self, alloc: Global) -> Result<Octets, AllocError>
        ensures { IfOk result (λ bytes. bytes.items ≡ bytes_of (padded self.now)) }
    {
        let mut bytes = Octets::new(alloc);
        bytes.reserve(self.len().div_ceil(8))?;
        let at = self.put_words(&mut bytes)?;
        self.put_bytes(at, &mut bytes)?;
        Ok(bytes)
    }

    /// Puts the bytes of all whole words of the bits last, and gives the number of their bits.
    fn put_words(&self, bytes: &mut Octets) -> Result<usize, AllocError>
        ensures within { IfOk result (λ at. at ≤ length self.now) }
        ensures ok { IfOk result (λ at. bytes.new.items ++ bytes_of (padded (drop at self.now)) ≡ bytes.old.items ++ bytes_of (padded self.now)) }
    {
        let mut at = 0;
        while self.len() - at >= 64 {
            bytes.extend_from(&self.read_at(at, 64).to_be_bytes())?;
            at += 64;
        }
        Ok(at)
    }

    /// Puts the bytes of the bits from the index `at` on last, with the zero bits behind them.
    fn put_bytes(&self, at: usize, bytes: &mut Octets) -> Result<(), AllocError>
        requires { at ≤ length self.now }
        ensures { OnOk result (bytes.new.items ≡ bytes.old.items ++ bytes_of (padded (drop at self.now))) }
    {
        let mut place = at;
        while place < self.len() {
            let step = (self.len() - place).min(8);
            bytes.push(self.byte_at(place, step))?;
            place += step;
        }
        Ok(())
    }

    /// The byte that begins with the `count` bits from the index `at` on, and goes on with zero
    /// bits.
    fn byte_at(&self, at: usize, count: usize) -> u8
        requires width { count ≤ 8 }
        requires within { at + count ≤ length self.now }
        ensures { result ≡ bits_value (take count (drop at self.now)) * 2 ^ (8 - count) }
    {
        (self.read_at(at, count) << (8 - count)) as u8
    }
}
