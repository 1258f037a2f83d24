//! Bits in words of 64 bits, the first bit highest in its word: what touches a word stands here.

ghost use Rattle.std.specs.Prelude.{ℕ, ◌≡◌, ◌+◌, ◌*◌, ◌/◌, ◌%◌, ◌^◌, ◌<◌, ◌≤◌, Bool, ◌++◌, length, get_or, set, take, drop, bit_or, OnOk, OnErr};
ghost use Rattle.schc_bits.specs.Bits.{number_bits, bits_value};
ghost use Rattle.schc_bits.specs.Words.{words_bits, IsFilled};

use std::alloc::AllocError;

/// Puts the number behind the first `filled` bits, in `count` bits. It touches at most two words.
///
/// # Errors
/// Want of memory; the words are then as before.
pub(crate) fn put_bits(
    words: &mut Vec<u64>,
    filled: usize,
    value: u64,
    count: u32,
) -> Result<(), AllocError>
    requires filled { IsFilled words.old.items filled }
    requires width { count ≤ 64 }
    requires fits { value < 2 ^ count }
    ensures filled { OnOk result (IsFilled words.new.items (filled + count)) }
    ensures ok { OnOk result (take (filled + count) (words_bits words.new.items) ≡ take filled (words_bits words.old.items) ++ number_bits count value) }
    ensures err { OnErr result (words.new.items ≡ words.old.items) }
{
    let used = (filled % 64) as u32;
    if count == 0 {
        return Ok(());
    }
    if used == 0 {
        words.push(value << (64 - count))?;
        return Ok(());
    }
    let room = 64 - used;
    if count <= room {
        join(words, filled / 64, value << (room - count));
        return Ok(());
    }
    let over = count - room;
    words.push(value << (64 - over))?;
    join(words, filled / 64, value >> over);
    Ok(())
}

/// Sets the bits of `more` in the word at the index `i`.
fn join(words: &mut Vec<u64>, i: usize, more: u64)
    requires { i < length words.old.items }
    ensures { words.new.items ≡ set words.old.items i (bit_or (get_or words.old.items i 0) more) }
{
    words[i] |= more;
}

/// The number that the `count` bits from the index `from` on write.
pub(crate) fn bits_from(words: &[u64], from: usize, count: u32) -> u64
    requires width { count ≤ 64 }
    requires within { from + count ≤ 64 * length words.now }
    ensures { result ≡ bits_value (take count (drop from (words_bits words.now))) }
{
    if count == 0 {
        return 0;
    }
    top_from(words, from, count) >> (64 - count)
}

/// A word that begins with the `count` bits from the index `from` on.
fn top_from(words: &[u64], from: usize, count: u32) -> u64
    requires some { 1 ≤ count }
    requires width { count ≤ 64 }
    requires within { from + count ≤ 64 * length words.now }
    ensures { take count (number_bits 64 result) ≡ take count (drop from (words_bits words.now)) }
{
    let used = (from % 64) as u32;
    let first = words[from / 64] << used;
    if used + count <= 64 {
        return first;
    }
    first | (words[from / 64 + 1] >> (64 - used))
}

/// Leaves the first `count` bits.
pub(crate) fn cut(words: &mut Vec<u64>, count: usize)
    requires { count ≤ 64 * length words.old.items }
    ensures filled { IsFilled words.new.items count }
    ensures bits { take count (words_bits words.new.items) ≡ take count (words_bits words.old.items) }
{
    words.truncate(count.div_ceil(64));
    let used = (count % 64) as u32;
    if used > 0 {
        clear(words, count / 64, 64 - used);
    }
}

/// Makes the lowest `room` bits of the word at the index `i` zero.
fn clear(words: &mut Vec<u64>, i: usize, room: u32)
    requires place { i < length words.old.items }
    requires width { room < 64 }
    ensures { words.new.items ≡ set words.old.items i (get_or words.old.items i 0 / 2 ^ room * 2 ^ room % 2 ^ 64) }
{
    words[i] = words[i] >> room << room;
}
