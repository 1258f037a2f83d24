//! A register to which bits are added in pieces.

ghost use Rattle.std.specs.Prelude.{ℕ, ◌≡◌, ◌+◌, ◌-◌, ◌*◌, ◌%◌, ◌^◌, ◌<◌, ◌≤◌, Bool, List, [], ◌++◌, length, take, drop};
ghost use Rattle.schc_bits.specs.Bits.{number_bits, octets};
ghost use Rattle.rcs.specs.Division.{rcs_of};
ghost use Rattle.rcs.specs.Words.{empty_sum, sum_of, added, Sums, check_of_sum};

use crate::words::next_word;
use schc_bits::{BitReader, Bits, bits_within};
use std::marker::Model;

/// The reassembly check sequence (RFC 8724, section 8.2.3) of the bits. It takes no memory.
pub fn rcs(bits: &Bits) -> u32
    ensures { result ≡ rcs_of bits.now }
{
    let mut register = Register::empty();
    let mut reader = BitReader::new(bits);
    register.put_bytes(&mut reader);
    register.put_rest(&mut reader);
    register.check()
}

/// The check of bits that are added in pieces, at any bit of a byte. Contracts see the word after
/// all whole bytes, and the bits of the byte that is begun.
#[derive(Drop)]
pub struct Register {
    word: u32,
    part: u32,
    count: u32,
}

impl Model for Register {
    ghost use Rattle.std.specs.Prelude.{◌^◌, ◌<◌};
    ghost use Rattle.schc_bits.specs.Bits.{number_bits};
    ghost use Rattle.rcs.specs.Words.{Sum};

    ghost Value = { Sum };

    ghost view = { λ r. record { word = r.word; begun = number_bits r.count r.part } };

    ghost invariant = { λ r. (r.count < 8) × (r.part < 2 ^ r.count) };
}

impl Register {
    /// A register to which no bit is added. It takes no memory.
    pub fn new() -> Register
        ensures { Sums result [] }
    {
        Register::empty()
    }

    /// Adds the bits of the bytes from the index `from` up to the index `to`, the highest bit of a
    /// byte first. It takes no memory.
    pub fn add(&mut self, bytes: &[u8], from: usize, to: usize)
        requires order { from ≤ to }
        requires within { to ≤ 8 * length bytes.now }
        ensures { (bits : List Bool) → Sums self.old bits → Sums self.new (bits ++ take (to - from) (drop from (octets bytes.now))) }
    {
        let mut at = from;
        while at < to {
            at = self.add_piece(bytes, at, to);
        }
    }

    /// The reassembly check sequence (RFC 8724, section 8.2.3) of all bits that were added, in
    /// their order. It takes no memory.
    pub fn value(&self) -> u32
        ensures { (bits : List Bool) → Sums self.now bits → result ≡ rcs_of bits }
    {
        self.check()
    }

    fn empty() -> Register
        ensures { result ≡ empty_sum }
    {
        Register {
            word: u32::MAX,
            part: 0,
            count: 0,
        }
    }

    /// The check of what the register holds: the byte that is begun goes on with zero bits.
    fn check(&self) -> u32
        ensures { result ≡ check_of_sum self.now }
    {
        if self.count == 0 {
            return !self.word;
        }
        !next_word(self.word, (self.part << (8 - self.count)) as u8)
    }

    /// Adds the number in `width` bits, the highest first.
    fn put(&mut self, value: u32, width: u32)
        requires width { width ≤ 8 }
        requires fits { value < 2 ^ width }
        ensures { self.new ≡ added self.old (number_bits width value) }
    {
        let window = joined(self.part, self.count, value, width);
        let total = self.count + width;
        if total < 8 {
            self.part = window;
            self.count = total;
            return;
        }
        let over = total - 8;
        self.word = next_word(self.word, (window >> over) as u8);
        self.part = window % (1 << over);
        self.count = over;
    }

    /// Adds the bits from the index `at` on: those of all bytes that are whole before the index
    /// `to`, or else those that are left of one byte. It gives the index behind them.
    fn add_piece(&mut self, bytes: &[u8], at: usize, to: usize) -> usize
        requires order { at < to }
        requires within { to ≤ 8 * length bytes.now }
        ensures further { at < result }
        ensures within { result ≤ to }
        ensures added { self.new ≡ added self.old (take (result - at) (drop at (octets bytes.now))) }
    {
        let whole = whole_bytes(at, to);
        if 0 < whole {
            let first = at / 8;
            self.put_all(&bytes[first..first + whole]);
            return at + 8 * whole;
        }
        let first = (at % 8) as u32;
        let width = (8 - at % 8).min(to - at) as u32;
        self.put(bits_within(bytes[at / 8], first, width), width);
        at + width as usize
    }

    /// Adds the bytes.
    fn put_all(&mut self, bytes: &[u8])
        ensures { self.new ≡ added self.old (octets bytes.now) }
    {
        let (word, part) = after_bytes(self.word, self.part, self.count, bytes);
        self.word = word;
        self.part = part;
    }

    /// Adds all whole bytes that are left.
    fn put_bytes(&mut self, reader: &mut BitReader<'_>)
        ensures short { length reader.new < 8 }
        ensures same { added self.new reader.new ≡ added self.old reader.old }
    {
        while let Some(byte) = reader.read(8) {
            self.put(byte as u32, 8);
        }
    }

    /// Adds the bits that are left, fewer than a byte has.
    fn put_rest(&mut self, reader: &mut BitReader<'_>)
        requires { length reader.old < 8 }
        ensures { self.new ≡ added self.old reader.old }
    {
        let count = reader.left() as u32;
        if let Some(last) = reader.read(count) {
            self.put(last as u32, count);
        }
    }
}

/// The bytes that begin at the index `at` and are whole before the index `to`.
fn whole_bytes(at: usize, to: usize) -> usize
    requires { at ≤ to }
    ensures within { 8 * result ≤ to - at }
    ensures begins { 0 < result → at % 8 ≡ 0 }
{
    if at % 8 == 0 { (to - at) / 8 } else { 0 }
}

/// The word of a register and the bits of the byte that is begun, after the bytes.
fn after_bytes(mut word: u32, mut part: u32, count: u32, bytes: &[u8]) -> (u32, u32)
    requires count { count < 8 }
    requires part { part < 2 ^ count }
    ensures below { result.1 < 2 ^ count }
    ensures added { sum_of result.0 count result.1 ≡ added (sum_of word count part) (octets bytes.now) }
{
    for byte in bytes {
        let window = with_byte(part, count, *byte);
        word = next_word(word, (window >> count) as u8);
        part = window % (1 << count);
    }
    (word, part)
}

/// The number that the `count` bits of `part` and those of the byte behind them write.
fn with_byte(part: u32, count: u32, byte: u8) -> u32
    requires count { count < 8 }
    requires part { part < 2 ^ count }
    ensures byte { byte < 256 }
    ensures sum { result ≡ part * 2 ^ 8 + byte }
    ensures below { result < 2 ^ (count + 8) }
{
    joined(part, count, u32::from(byte), 8)
}

/// The number that the `count` bits of `part` and the `width` bits of `value` behind them write.
fn joined(part: u32, count: u32, value: u32, width: u32) -> u32
    requires count { count < 8 }
    requires width { width ≤ 8 }
    requires part { part < 2 ^ count }
    requires fits { value < 2 ^ width }
    ensures sum { result ≡ part * 2 ^ width + value }
    ensures below { result < 2 ^ (count + width) }
{
    (part << width) + value
}
