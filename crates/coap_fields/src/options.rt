//! The options of a message, read one by one (RFC 7252 section 3.1).

ghost use Rattle.std.specs.Prelude.{ℕ, ◌≡◌, ◌+◌, ◌-◌, ◌*◌, ◌≤◌, ◌<◌, ◌++◌, [], ◌∷◌, List, length, take, Ok, Err, IfOk, IfErr, IfSome, OnOk, OnErr, Result};
ghost use Rattle.std.specs.Option.{option_map};
ghost use Rattle.coap_fields.specs.Message.{OptionData, next_place};
ghost use Rattle.coap_fields.specs.Fields.{option_field};
ghost use Rattle.coap_fields.specs.Reading.{
  one_more,
  two_more,
  extended,
  value_at,
  is_number_wrong,
  numbered_at,
  option_at,
  payload_at,
  options_at,
  IsRefusal,
};
ghost use Rattle.coap_fields.specs.Placed.{placed};

use rule_model::{FieldValue, Fields, SplitFault};
use schc_bits::Bits;
use schc_ids::{FieldAt, FieldName};
use std::alloc::{AllocError, Global};

/// The byte between the options and the payload.
pub const MARKER: u8 = 0xFF;

/// The option before the next one: its number, and which one it is among those of its number.
#[derive(Clone, Copy)]
pub struct Last {
    pub number: u16,
    pub place: u16,
}

/// An option, and the bytes after it.
#[derive(Clone, Copy)]
pub struct OptionRead<'a> {
    number: u16,
    place: u16,
    value: &'a [u8],
    rest: &'a [u8],
}

fn one_more(bytes: &[u8]) -> Option<(usize, &[u8])>
    ensures value { option_map (λ r. (r.0, r.1.now)) result ≡ one_more bytes.now }
    ensures bound { IfSome result (λ r. r.0 ≤ 65804) }
{
    match bytes {
        [byte, rest @ ..] => Some((13 + usize::from(*byte), rest)),
        _ => None,
    }
}

fn two_more(bytes: &[u8]) -> Option<(usize, &[u8])>
    ensures value { option_map (λ r. (r.0, r.1.now)) result ≡ two_more bytes.now }
    ensures bound { IfSome result (λ r. r.0 ≤ 65804) }
{
    match bytes {
        [high, low, rest @ ..] => Some((269 + 256 * usize::from(*high) + usize::from(*low), rest)),
        _ => None,
    }
}

/// The number that four bits and the bytes after them stand for, and the bytes that are left.
#[tactic(auto, unfolding(crate::specs::Reading::extended))]
fn extended(bits: u8, bytes: &[u8]) -> Option<(usize, &[u8])>
    ensures value { option_map (λ r. (r.0, r.1.now)) result ≡ extended bits bytes.now }
    ensures bound { IfSome result (λ r. r.0 ≤ 65804 + bits) }
{
    if bits < 13 {
        Some((usize::from(bits), bytes))
    } else if bits == 13 {
        one_more(bytes)
    } else {
        two_more(bytes)
    }
}

/// Which one an option of this number is among those of its number.
pub fn next_place(last: Last, number: usize) -> usize
    ensures { result ≡ next_place last.number last.place number }
{
    if number == usize::from(last.number) {
        usize::from(last.place) + 1
    } else {
        1
    }
}

fn is_number_wrong(last: Last, number: usize) -> bool
    ensures { result ≡ is_number_wrong last.number last.place number }
{
    number > 65_535 || next_place(last, number) > 65_535
}

fn value_at(
    size: usize,
    number: usize,
    place: usize,
    count: usize,
    bytes: &[u8],
) -> Result<OptionRead<'_>, usize>
    requires number { number ≤ 65535 }
    requires place { place ≤ 65535 }
    ensures ok { IfOk result (λ r. value_at size number count bytes.now
        ≡ Ok (record { number = r.number; value = r.value.now }, r.rest.now)) }
    ensures place { IfOk result (λ r. (r.number ≡ number) × (r.place ≡ place)) }
    ensures err { IfErr result (λ stop. value_at size number count bytes.now ≡ Err stop) }
{
    if bytes.len() < count {
        return Err(size);
    }
    let (value, rest) = bytes.split_at(count);
    Ok(OptionRead {
        number: number as u16,
        place: place as u16,
        value,
        rest,
    })
}

fn numbered_at(
    size: usize,
    here: usize,
    last: Last,
    bits: u8,
    delta: usize,
    bytes: &[u8],
) -> Result<OptionRead<'_>, usize>
    requires { delta ≤ 66000 }
    ensures ok { IfOk result (λ r. numbered_at size here last.number last.place bits delta bytes.now
        ≡ Ok (record { number = r.number; value = r.value.now }, r.rest.now)) }
    ensures place { IfOk result (λ r. r.place ≡ next_place last.number last.place r.number) }
    ensures err { IfErr result (λ stop. numbered_at size here last.number last.place bits delta bytes.now ≡ Err stop) }
{
    let number = usize::from(last.number) + delta;
    if is_number_wrong(last, number) {
        return Err(here);
    }
    match extended(bits, bytes) {
        None => Err(size),
        Some((count, rest)) => value_at(size, number, next_place(last, number), count, rest),
    }
}

/// The option that begins with the byte `first`, which stands at the byte `here` of a message of
/// `size` bytes; or the byte at which no reading goes on.
#[tactic(auto, unfolding(crate::specs::Reading::option_at))]
fn option_at(
    size: usize,
    here: usize,
    last: Last,
    first: u8,
    bytes: &[u8],
) -> Result<OptionRead<'_>, usize>
    ensures ok { IfOk result (λ r. option_at size here last.number last.place first bytes.now
        ≡ Ok (record { number = r.number; value = r.value.now }, r.rest.now)) }
    ensures place { IfOk result (λ r. r.place ≡ next_place last.number last.place r.number) }
    ensures err { IfErr result (λ stop. option_at size here last.number last.place first bytes.now ≡ Err stop) }
{
    if first / 16 == 15 || first % 16 == 15 {
        return Err(here);
    }
    match extended(first / 16, bytes) {
        None => Err(size),
        Some((delta, rest)) => numbered_at(size, here, last, first % 16, delta, rest),
    }
}

fn push_option(
    alloc: Global,
    fields: &mut Fields,
    number: u16,
    position: u16,
    value: &[u8],
) -> Result<(), AllocError>
    ensures err { OnErr result (fields.new.items ≡ fields.old.items) }
    ensures ok { OnOk result (fields.new.items ≡ fields.old.items ++ option_field number position value.now ∷ []) }
{
    let value = Bits::from_bytes(alloc, value)?;
    fields.push(FieldValue {
        at: FieldAt {
            name: FieldName::CoapOption(number),
            position,
        },
        value,
    })
}

/// The byte at which the payload begins, after the marker.
fn payload_from(size: usize, bytes: &[u8]) -> Result<usize, SplitFault>
    requires { length bytes.now ≤ size }
    ensures ok { IfOk result (λ from. (from ≡ size - length bytes.now) × (payload_at size bytes.now ≡ Ok ([], bytes.now))) }
    ensures err { IfErr result (λ fault. (fault ≡ SplitFault.NotCoap size) × (payload_at size bytes.now ≡ Err size)) }
{
    if bytes.is_empty() {
        Err(SplitFault::NotCoap(size))
    } else {
        Ok(size - bytes.len())
    }
}

/// Puts the fields of the options last that the bytes after the token of a message of `size` bytes
/// spell, and gives the byte at which the payload begins. After a refusal some of them may stand there.
pub fn push_options(
    alloc: Global,
    size: usize,
    bytes: &[u8],
    fields: &mut Fields,
) -> Result<usize, SplitFault>
    requires { length bytes.now ≤ size }
    ensures ok { IfOk result (λ from. placed fields.old.items 0 0 size (options_at size 0 0 bytes.now)
        ≡ Ok (record { fields = fields.new.items; payload_from = from })) }
    ensures refused { IfErr result (λ fault. IsRefusal fault (placed fields.old.items 0 0 size (options_at size 0 0 bytes.now))) }
    ensures err { OnErr result (take (length fields.old.items) fields.new.items ≡ fields.old.items) }
{
    let mut last = Last {
        number: 0,
        place: 0,
    };
    let mut rest = bytes;
    while let [first, later @ ..] = rest {
        if *first == MARKER {
            return payload_from(size, later);
        }
        match option_at(size, size - rest.len(), last, *first, later) {
            Err(stop) => return Err(SplitFault::NotCoap(stop)),
            Ok(read) => {
                match push_option(alloc, fields, read.number, read.place, read.value) {
                    Err(_) => return Err(SplitFault::Memory),
                    Ok(()) => {
                        last = Last {
                            number: read.number,
                            place: read.place,
                        };
                        rest = read.rest;
                    }
                }
            }
        }
    }
    Ok(size)
}
