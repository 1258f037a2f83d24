//! Lines and words of a script, and the numbers and bytes that are spelled in them.

ghost use Rattle.std.specs.Prelude.{◌≡◌, ◌<◌, ◌≤◌, ◌^◌, ◌∷◌, length, map, IfOk, IfSome};
ghost use Rattle.std.specs.List.{list_all, position};
ghost use Rattle.std.specs.Char.{is_ascii_digit};
ghost use Rattle.std.specs.Option.{option_map};
ghost use Rattle.schc_bits.specs.Bits.{AreBytes};
ghost use Rattle.script_lang.specs.Text.{
  is_line_feed,
  lines_of,
  words_of,
  is_numeral,
  number_of,
  packet_in,
  iid_of,
};

use hex::{FromHex, FromHexError};
use std::alloc::{AllocError, Global};

/// Where the first line feed of a text stands.
fn line_end(text: &[u8]) -> Option<usize>
    ensures place { result ≡ position is_line_feed text.now }
    ensures within { IfSome result (λ end. end < length text.now) }
{
    text.iter().position(|byte| *byte == b'\n')
}

/// The first line of a text that isn't empty, and what follows the line.
pub(crate) fn first_line(text: &[u8]) -> (&[u8], &[u8])
    requires { 0 < length text.now }
    ensures line { lines_of text.now ≡ result.0.now ∷ lines_of result.1.now }
    ensures shorter { length result.1.now < length text.now }
{
    match line_end(text) {
        Some(end) => {
            let (line, _) = text.split_at(end);
            let (_, rest) = text.split_at(end + 1);
            (line, rest)
        }
        None => text.split_at(text.len()),
    }
}

/// The words of a line, between which one space stands.
///
/// # Errors
/// Want of memory.
pub(crate) fn words(alloc: Global, line: &[u8]) -> Result<Vec<&[u8]>, AllocError>
    ensures { IfOk result (λ words. map (λ word. word.now) words.items ≡ words_of line.now) }
{
    line.split(|byte| *byte == b' ').collect(alloc)
}

fn is_numeral(word: &[u8]) -> bool
    ensures { result ≡ is_numeral word.now }
{
    match word {
        [] => false,
        [digit] => digit.is_ascii_digit(),
        [digit, ..] => *digit != b'0' && all_digits(word),
    }
}

fn all_digits(word: &[u8]) -> bool
    ensures { result ≡ list_all is_ascii_digit word.now }
{
    word.iter().all(|digit| digit.is_ascii_digit())
}

/// The number below 2^64 that a word spells: decimal, without a sign and without a leading zero.
#[tactic(auto, unfolding(crate::specs::Text::number_of))]
pub fn number(word: &[u8]) -> Option<u64>
    ensures { result ≡ number_of (2 ^ 64) word.now }
{
    if !is_numeral(word) {
        return None;
    }
    match str::from_utf8(word) {
        Ok(text) => text.parse::<u64>().ok(),
        Err(_) => None,
    }
}

/// The number below 2^16 that a word spells.
#[tactic(auto, unfolding(crate::specs::Text::number_of))]
pub(crate) fn small_number(word: &[u8]) -> Option<u16>
    ensures { result ≡ number_of (2 ^ 16) word.now }
{
    u16::try_from(number(word)?).ok()
}

/// The number below 2^32 that a word spells.
#[tactic(auto, unfolding(crate::specs::Text::number_of))]
pub(crate) fn edition_number(word: &[u8]) -> Option<u32>
    ensures { result ≡ number_of (2 ^ 32) word.now }
{
    u32::try_from(number(word)?).ok()
}

/// The bytes that a word spells: two hex digits for each, in either case, and at least one byte.
///
/// # Errors
/// Want of memory.
#[tactic(auto, unfolding(crate::specs::Text::packet_in))]
pub(crate) fn packet(alloc: Global, word: &[u8]) -> Result<Option<Vec<u8>>, AllocError>
    ensures packet { IfOk result (λ bytes. option_map (λ b. b.items) bytes ≡ packet_in word.now) }
    ensures in_range { IfOk result (λ bytes. IfSome bytes (λ b. AreBytes b.items)) }
    ensures some { IfOk result (λ bytes. IfSome bytes (λ b. 0 < length b.items)) }
{
    match hex::decode(alloc, word) {
        Ok(bytes) => {
            if bytes.is_empty() {
                Ok(None)
            } else {
                Ok(Some(bytes))
            }
        }
        Err(FromHexError::OutOfMemory) => Err(AllocError),
        Err(_) => Ok(None),
    }
}

/// The interface identifier that a word spells: 16 hex digits in either case.
#[tactic(auto, unfolding(crate::specs::Text::iid_of))]
pub(crate) fn iid(word: &[u8]) -> Option<u64>
    ensures { result ≡ iid_of word.now }
{
    let bytes = <[u8; 8] as FromHex>::from_hex(word).ok()?;
    Some(u64::from_be_bytes(bytes))
}
