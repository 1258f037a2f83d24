//! A message's fields.

ghost use Rattle.std.specs.Prelude.{ℕ, ◌≡◌, ◌+◌, ◌-◌, ◌*◌, ◌/◌, ◌%◌, ◌^◌, ◌≤◌, ◌<◌, ◌++◌, [], ◌∷◌, length, take, Ok, Err, IfOk, IfErr, OnOk, OnErr};
ghost use Rattle.schc_bits.specs.Bits.{number_bits, octets};
ghost use Rattle.coap_fields.specs.Fields.{MessageOf, field, token_fields, header_fields};
ghost use Rattle.coap_fields.specs.Reading.{is_first_wrong, token_at, first_at, split_of, read_message, message_in, behind, IsRefusal};
ghost use Rattle.coap_fields.specs.Stops.{IsStop};

use crate::options::push_options;
use rule_model::{FieldValue, Fields, Split, SplitFault, at_name};
use schc_bits::{Bits, ItemList};
use schc_ids::FieldName;
use std::alloc::{AllocError, Global};

/// Splits a CoAP message (RFC 7252 section 3) into the fields of its header, its token where it has
/// one, and its options, each with its position among those of its number.
///
/// # Errors
/// `NotCoap` with the first byte at which no reading goes on: 0 for another version than 1 or a
/// token of more than 8 bytes; an option's first byte where four of its bits are 15, its number is
/// above 65,535 or stands there for the 65,536th time; the message's length where bytes lack or
/// nothing follows the marker. Or want of memory.
pub fn split(alloc: Global, message: &[u8]) -> Result<Split, SplitFault>
    ensures ok { IfOk result (λ split. MessageOf message.now split.fields split.payload_from) }
    ensures read { IfOk result (λ split. message_in message.now ≡ Ok split) }
    ensures err { IfErr result (λ fault. IsRefusal fault (message_in message.now)) }
    ensures stops { IfErr result (λ fault. IsStop fault message.now) }
{
    let mut fields = ItemList::new(alloc);
    match split_onto(alloc, message, &mut fields) {
        Err(fault) => Err(fault),
        Ok(payload_from) => Ok(Split {
            fields,
            payload_from,
        }),
    }
}

/// Puts the fields of a CoAP message behind other fields, as `split` gives them, and gives the byte
/// of the message at which its payload begins. After a refusal the fields are unchanged.
///
/// # Errors
/// As `split`.
pub fn split_onto(alloc: Global, message: &[u8], fields: &mut Fields) -> Result<usize, SplitFault>
    ensures ok { IfOk result (λ from. behind fields.old.items (message_in message.now)
        ≡ Ok (record { fields = fields.new.items; payload_from = from })) }
    ensures refused { IfErr result (λ fault. IsRefusal fault (message_in message.now)) }
    ensures stops { IfErr result (λ fault. IsStop fault message.now) }
    ensures err { OnErr result (fields.new.items ≡ fields.old.items) }
{
    let before = fields.len();
    match push_message(alloc, message, fields) {
        Ok(payload_from) => Ok(payload_from),
        Err(fault) => {
            fields.truncate(before);
            Err(fault)
        }
    }
}

/// Puts the fields of a message last. After a refusal some of them may stand there.
fn push_message(alloc: Global, message: &[u8], fields: &mut Fields) -> Result<usize, SplitFault>
    ensures ok { IfOk result (λ from. behind fields.old.items (message_in message.now)
        ≡ Ok (record { fields = fields.new.items; payload_from = from })) }
    ensures refused { IfErr result (λ fault. IsRefusal fault (message_in message.now)) }
    ensures err { OnErr result (take (length fields.old.items) fields.new.items ≡ fields.old.items) }
{
    match message {
        [] => Err(SplitFault::NotCoap(0)),
        [first, later @ ..] => push_from(alloc, message.len(), *first, later, fields),
    }
}

/// Puts the fields of a message last that begins with the byte `first`.
fn push_from(
    alloc: Global,
    size: usize,
    first: u8,
    bytes: &[u8],
    fields: &mut Fields,
) -> Result<usize, SplitFault>
    requires { length bytes.now ≤ size }
    ensures ok { IfOk result (λ from. behind fields.old.items (split_of size (first_at size first bytes.now))
        ≡ Ok (record { fields = fields.new.items; payload_from = from })) }
    ensures refused { IfErr result (λ fault. IsRefusal fault (split_of size (first_at size first bytes.now))) }
    ensures err { OnErr result (take (length fields.old.items) fields.new.items ≡ fields.old.items) }
{
    if is_first_wrong(first) {
        return Err(SplitFault::NotCoap(0));
    }
    match bytes {
        [code, high, low, rest @ ..] => {
            let id = u16::from(*high) * 256 + u16::from(*low);
            push_after(alloc, size, first, *code, id, rest, fields)
        }
        _ => Err(SplitFault::NotCoap(size)),
    }
}

fn is_first_wrong(first: u8) -> bool
    ensures { result ≡ is_first_wrong first }
{
    first / 64 != 1 || first % 16 > 8
}

/// Puts the fields of a message last that has this header, and these bytes after it.
fn push_after(
    alloc: Global,
    size: usize,
    first: u8,
    code: u8,
    id: u16,
    bytes: &[u8],
    fields: &mut Fields,
) -> Result<usize, SplitFault>
    requires { length bytes.now ≤ size }
    ensures ok { IfOk result (λ from.
        behind fields.old.items (split_of size (token_at size (first / 16 % 4) (first % 16) code id bytes.now))
        ≡ Ok (record { fields = fields.new.items; payload_from = from })) }
    ensures refused { IfErr result (λ fault. IsRefusal fault (split_of size (token_at size (first / 16 % 4) (first % 16) code id bytes.now))) }
    ensures err { OnErr result (take (length fields.old.items) fields.new.items ≡ fields.old.items) }
{
    let tkl = usize::from(first % 16);
    if bytes.len() < tkl {
        return Err(SplitFault::NotCoap(size));
    }
    let (token, rest) = bytes.split_at(tkl);
    match put_front_fields(alloc, first, code, id, token, fields) {
        Err(_) => Err(SplitFault::Memory),
        Ok(()) => push_options(alloc, size, rest, fields),
    }
}

/// Puts the fields of the header and the token last.
fn put_front_fields(
    alloc: Global,
    first: u8,
    code: u8,
    id: u16,
    token: &[u8],
    fields: &mut Fields,
) -> Result<(), AllocError>
    ensures ok { OnOk result (fields.new.items ≡ fields.old.items
        ++ (header_fields (first / 16 % 4) (first % 16) code id ++ token_fields token.now)) }
    ensures err { OnErr result (fields.new.items ≡ fields.old.items) }
{
    let version = number_field(alloc, FieldName::CoapVersion, 1, 2)?;
    let kind = number_field(alloc, FieldName::CoapType, u64::from(first / 16 % 4), 2)?;
    let tkl = number_field(alloc, FieldName::CoapTkl, u64::from(first % 16), 4)?;
    let code = number_field(alloc, FieldName::CoapCode, u64::from(code), 8)?;
    let id = number_field(alloc, FieldName::CoapMid, u64::from(id), 16)?;
    let token_value = Bits::from_bytes(alloc, token)?;
    fields.reserve(6)?;
    fields.put(version);
    fields.put(kind);
    fields.put(tkl);
    fields.put(code);
    fields.put(id);
    put_token(fields, token, token_value);
    Ok(())
}

/// Puts the field of the token last, where it isn't empty.
fn put_token(fields: &mut Fields, token: &[u8], value: Bits)
    requires room { 1 ≤ fields.old.spare }
    requires value { value ≡ octets token.now }
    ensures { fields.new.items ≡ fields.old.items ++ token_fields token.now }
{
    if !token.is_empty() {
        fields.put(FieldValue {
            at: at_name(FieldName::CoapToken),
            value,
        });
    }
}

fn number_field(
    alloc: Global,
    name: FieldName,
    number: u64,
    width: u32,
) -> Result<FieldValue, AllocError>
    requires width { width ≤ 64 }
    requires fits { number < 2 ^ width }
    ensures { IfOk result (λ its. its ≡ field name (number_bits width number)) }
{
    let value = Bits::from_number(alloc, number, width)?;
    Ok(FieldValue {
        at: at_name(name),
        value,
    })
}
