//! Numbers in the bits of some bytes.

ghost use Rattle.std.specs.Prelude.{ℕ, ◌≡◌, ◌+◌, ◌*◌, ◌^◌, ◌<◌, ◌≤◌, false, length, get_or};
ghost use Rattle.schc_bits.specs.Bits.{octets};
ghost use Rattle.frag_wire.specs.Fields.{number_in};

/// The bit at the index `i`, the highest of the first byte being 0.
fn bit_at(bytes: &[u8], i: usize) -> bool
    requires { i < 8 * length bytes.now }
    ensures { result ≡ get_or (octets bytes.now) i false }
{
    let byte = bytes[i / 8];
    (byte >> (7 - i % 8)) % 2 == 1
}

/// The number in the `count` bits from the bit `from` on, the most significant first.
pub(crate) fn number_in(bytes: &[u8], from: u32, count: u32) -> u64
    requires narrow { from + count ≤ 72 }
    requires width { count ≤ 64 }
    requires within { from + count ≤ 8 * length bytes.now }
    ensures value { result ≡ number_in from count bytes.now }
    ensures below { result < 2 ^ count }
{
    let mut number: u64 = 0;
    let mut passed: u32 = 0;
    while passed < count {
        let bit = bit_at(bytes, (from + passed) as usize);
        number = number * 2 + u64::from(bit);
        passed += 1;
    }
    number
}
