//! Some bits of one byte.

ghost use Rattle.std.specs.Prelude.{ℕ, ◌≡◌, ◌+◌, ◌^◌, ◌<◌, ◌≤◌, take, drop};
ghost use Rattle.schc_bits.specs.Bits.{number_bits};

/// The number that the `width` bits of the byte from the index `first` on write.
pub fn bits_within(byte: u8, first: u32, width: u32) -> u32
    requires within { first + width ≤ 8 }
    ensures bits { number_bits width result ≡ take width (drop first (number_bits 8 byte)) }
    ensures below { result < 2 ^ width }
{
    (u32::from(byte) >> (8 - first - width)) % (1 << width)
}
