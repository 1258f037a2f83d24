//! Hex digits of targets, identifiers and packets.

ghost use Rattle.std.specs.Prelude.{◌≡◌, ◌/◌, ◌^◌, ◌<◌, false, [], ◌∷◌, ◌++◌, length, replicate, slice_index, IfOk, OnOk, IfSome, string_bytes};
ghost use Rattle.hex.specs.Hex.{hex_digit_value, lower_digits};
ghost use Rattle.schc_bits.specs.Bits.{bits_value};
ghost use Rattle.serde_json.specs.View.{view};
ghost use Rattle.rule_json.specs.Answers.{Gives};
ghost use Rattle.rule_json.specs.Values.{member_in};
ghost use Rattle.rule_json.specs.Layout.{text_in};
ghost use Rattle.rule_json.specs.Digits.{
  digit_bits,
  fitting,
  fixed_target,
  bytes_target,
  target_of,
  first_digits,
  target_text,
  iid_of,
  packet_of,
};

use crate::fault::JsonFault;
use crate::work::Packet;
use hex::{FromHex, FromHexError};
use rule_model::Length;
use schc_bits::{Bits, ItemList, Part};
use serde_json::Value;
use std::alloc::{AllocError, Global};

/// The value of a hex digit, in either case.
fn digit_value(digit: u8) -> Option<u8>
    ensures value { result ≡ hex_digit_value digit }
    ensures below { IfSome result (λ value. value < 16) }
{
    match digit {
        b'A'..=b'F' => Some(digit - 55),
        b'a'..=b'f' => Some(digit - 87),
        b'0'..=b'9' => Some(digit - 48),
        _ => None,
    }
}

/// Four bits for each hex digit.
///
/// # Errors
/// A character is no hex digit; or want of memory.
#[tactic(auto, unfolding(crate::specs::Digits::digit_bits))]
fn digit_bits(alloc: Global, text: &[u8]) -> Result<Bits, JsonFault>
    ensures { Gives (λ bits. bits) result (digit_bits text.now) }
{
    let mut bits = Bits::new(alloc);
    for digit in text {
        let Some(value) = digit_value(*digit) else {
            return Err(JsonFault::NotLayout);
        };
        bits.push_bits(u64::from(value), 4)?;
    }
    Ok(bits)
}

/// This many zero bits.
///
/// # Errors
/// Want of memory.
fn zeros(alloc: Global, count: usize) -> Result<Bits, AllocError>
    ensures { IfOk result (λ bits. bits ≡ replicate count false) }
{
    let mut bits = Bits::new(alloc);
    for _ in 0..count {
        bits.push(false)?;
    }
    Ok(bits)
}

/// The number that the bits write, in `width` bits.
///
/// # Errors
/// The number isn't below 2^width; or want of memory.
fn fitting(alloc: Global, width: usize, bits: &Part<'_>) -> Result<Bits, JsonFault>
    ensures { Gives (λ fitted. fitted) result (fitting width (bits_value bits.now)) }
{
    if bits.len() <= width {
        let mut wide = zeros(alloc, width - bits.len())?;
        wide.extend_from_part(bits)?;
        return Ok(wide);
    }
    let over = bits.len() - width;
    if !bits.front(over).is_zero() {
        return Err(JsonFault::NotLayout);
    }
    Ok(bits.after(over).to_bits(alloc)?)
}

/// The target of a field of `width` bits.
///
/// # Errors
/// The text has more digits than the width has, its number isn't below 2^width, or a character is
/// no hex digit; or want of memory.
#[tactic(auto, unfolding(crate::specs::Digits::fixed_target))]
fn fixed_target(alloc: Global, width: usize, text: &[u8]) -> Result<Bits, JsonFault>
    requires { width < 2 ^ 16 }
    ensures { Gives (λ bits. bits) result (fixed_target width text.now) }
{
    if text.len() > (width + 3) / 4 {
        return Err(JsonFault::NotLayout);
    }
    let bits = digit_bits(alloc, text)?;
    fitting(alloc, width, &bits.as_part())
}

/// A target of whole bytes.
///
/// # Errors
/// The text isn't an even number of hex digits; or want of memory.
#[tactic(auto, unfolding(crate::specs::Digits::bytes_target))]
fn bytes_target(alloc: Global, text: &[u8]) -> Result<Bits, JsonFault>
    ensures { Gives (λ bits. bits) result (bytes_target text.now) }
{
    if text.len() % 2 != 0 {
        return Err(JsonFault::NotLayout);
    }
    digit_bits(alloc, text)
}

/// The target that the text writes, of a field of this length.
///
/// # Errors
/// The text is no such target; or want of memory.
pub(crate) fn target_of(alloc: Global, length: Length, text: &str) -> Result<Bits, JsonFault>
    ensures { Gives (λ bits. bits) result (target_of length text.now) }
{
    match length {
        Length::Fixed(width) => fixed_target(alloc, usize::from(width), text.as_bytes()),
        Length::Variable => bytes_target(alloc, text.as_bytes()),
        Length::TokenLength => bytes_target(alloc, text.as_bytes()),
    }
}

/// The hex digits, in lower case.
const LOWER_DIGITS: [u8; 16] = *b"0123456789abcdef";

/// Puts the digit of the value last.
///
/// # Errors
/// Want of memory.
fn push_digit(text: &mut String, value: u64) -> Result<(), AllocError>
    requires { value < 16 }
    ensures { OnOk result (string_bytes text.new
        ≡ string_bytes text.old ++ slice_index lower_digits value ∷ []) }
{
    text.push(char::from(LOWER_DIGITS[value as usize]))
}

/// The hex digits of the bits, one for four bits.
///
/// # Errors
/// Want of memory.
fn digits(alloc: Global, bits: &Part<'_>) -> Result<String, AllocError>
    ensures { IfOk result (λ text. string_bytes text ≡ first_digits (length bits.now / 4) bits.now) }
{
    let mut text = String::new(alloc);
    let mut rest = bits.after(0);
    while rest.len() >= 4 {
        push_digit(&mut text, rest.front(4).number())?;
        rest = rest.after(4);
    }
    Ok(text)
}

/// The text of a target: its number in all its digits.
///
/// # Errors
/// Want of memory.
#[tactic(auto, unfolding(crate::specs::Digits::target_text))]
pub(crate) fn target_text(alloc: Global, bits: &Bits) -> Result<String, AllocError>
    ensures { IfOk result (λ text. string_bytes text ≡ target_text bits.now) }
{
    let mut filled = zeros(alloc, (4 - bits.len() % 4) % 4)?;
    filled.extend(bits)?;
    digits(alloc, &filled.as_part())
}

/// The interface identifier that 16 hex digits write.
#[tactic(auto, unfolding(crate::specs::Digits::iid_of))]
fn iid_of(text: &str) -> Option<u64>
    ensures { result ≡ iid_of text.now }
{
    let bytes = <[u8; 8] as FromHex>::from_hex(text).ok()?;
    Some(u64::from_be_bytes(bytes))
}

/// The interface identifier that a member of an object writes.
pub(crate) fn identifier_in(object: &Value, name: &str) -> Option<u64>
    ensures { result ≡ member_in name.now (text_in iid_of) (view object.now) }
{
    iid_of(object.get(name)?.as_str()?)
}

/// The packet whose bytes the text writes.
///
/// # Errors
/// The text isn't an even number of hex digits; or want of memory.
#[tactic(auto, unfolding(crate::specs::Digits::packet_of))]
pub(crate) fn packet_of(alloc: Global, text: &str) -> Result<Packet, JsonFault>
    ensures { Gives (λ packet. packet) result (packet_of text.now) }
{
    match hex::decode(alloc, text) {
        Ok(decoded) => {
            let mut bytes = ItemList::new(alloc);
            bytes.extend_from(decoded.as_slice())?;
            Ok(Packet { bytes })
        }
        Err(FromHexError::OutOfMemory) => Err(JsonFault::Memory),
        Err(_) => Err(JsonFault::NotLayout),
    }
}
