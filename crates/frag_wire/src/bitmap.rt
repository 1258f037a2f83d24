//! How much of a bitmap is sent.

ghost use Rattle.std.specs.Prelude.{ℕ, ◌≡◌, ◌+◌, ◌*◌, ◌/◌, ◌^◌, ◌<◌, ◌≤◌, min};
ghost use Rattle.schc_bits.specs.Bits.{number_bits};
ghost use Rattle.frag_wire.specs.Answers.{after_last_zero, kept_length};

/// How many bits of an answer with `header` bits before its bitmap of `window` bits are sent (RFC
/// 8724 section 8.3.2.1): the scissors begin after the bitmap, move left over bits that are 1, and
/// then right up to a boundary of a byte or to the bitmap's end.
pub fn scissors(header: u32, window: u32, bitmap: u64) -> u32
    requires width { window ≤ 64 }
    requires fits { bitmap < 2 ^ window }
    requires sum { header + window < 2 ^ 32 }
    ensures kept { result ≡ kept_length header (number_bits window bitmap) }
    ensures least { header ≤ result }
    ensures most { result ≤ header + window }
{
    let place = last_zero(window, bitmap);
    boundary(header + place, header + window)
}

/// The place after the last 0 bit of the bitmap; 0 where there is none.
fn last_zero(window: u32, bitmap: u64) -> u32
    requires width { window ≤ 64 }
    requires fits { bitmap < 2 ^ window }
    ensures place { result ≡ after_last_zero (number_bits window bitmap) }
    ensures within { result ≤ window }
{
    let mut place = window;
    let mut left = bitmap;
    while place > 0 && left % 2 == 1 {
        place -= 1;
        left /= 2;
    }
    place
}

/// The next boundary of a byte from `from` on, or the end where there is none before it.
fn boundary(from: u32, end: u32) -> u32
    requires { from ≤ end }
    ensures next { result ≡ min (8 * ((from + 7) / 8)) end }
    ensures least { from ≤ result }
    ensures most { result ≤ end }
{
    let mut at = from;
    while at < end && at % 8 != 0 {
        at += 1;
    }
    at
}
