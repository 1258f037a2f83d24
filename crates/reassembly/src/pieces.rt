//! Some bits of a byte, put in.

ghost use Rattle.std.specs.Prelude.{ℕ, ◌≡◌, ◌+◌, ◌^◌, ◌<◌, ◌≤◌, ◌++◌, take};
ghost use Rattle.schc_bits.specs.Bits.{number_bits};

/// The byte that begins with the first `used` bits of this one and goes on with the number in `width`
/// bits.
pub(crate) fn with_bits(byte: u8, used: u32, value: u32, width: u32) -> u8
    requires within { used + width ≤ 8 }
    requires fits { value < 2 ^ width }
    ensures { take (used + width) (number_bits 8 result) ≡ take used (number_bits 8 byte) ++ number_bits width value }
{
    let front = u32::from(byte) >> (8 - used);
    let joined = (front << width) + value;
    (joined << (8 - used - width)) as u8
}
