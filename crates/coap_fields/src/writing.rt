//! The bytes of a message.

ghost use Rattle.std.specs.Prelude.{ℕ, ◌≡◌, ◌+◌, ◌-◌, ◌*◌, ◌/◌, ◌%◌, ◌≤◌, ◌<◌, ◌++◌, [], ◌∷◌, None, length, IfOk, OnOk};
ghost use Rattle.std.specs.List.{AllByRecursion};
ghost use Rattle.schc_bits.specs.Bits.{bits_value, bytes_of};
ghost use Rattle.coap_fields.specs.Message.{nibble, extension, option_spelled, options_spelled, payload_spelled};
ghost use Rattle.coap_fields.specs.Join.{value_of, option_from, options_from, number_after, join_refusal, message_from};
ghost use Rattle.coap_fields.specs.Placed.{IsWritable, field_spelled};

use crate::join_conditions::number_in;
use crate::options::MARKER;
use rule_model::{FieldValue, value_in};
use schc_bits::{ItemList, Octets};
use schc_ids::FieldName;
use std::alloc::{AllocError, Global};

/// The bytes that the fields and the payload spell.
#[tactic(auto, unfolding(crate::specs::Join::message_from, crate::specs::Message::spelled))]
pub fn written(alloc: Global, fields: &[FieldValue], payload: &[u8]) -> Result<Octets, AllocError>
    requires { join_refusal fields.now ≡ None }
    ensures { IfOk result (λ message. message.items ≡ message_from fields.now payload.now) }
{
    let kind = byte_in(fields, FieldName::CoapType);
    let code = byte_in(fields, FieldName::CoapCode);
    let id = two_bytes_in(fields, FieldName::CoapMid);
    let token = token_bytes(alloc, fields)?;
    let mut message = header(alloc, kind, token.len() as u8, code, id)?;
    message.extend_from(token.as_slice())?;
    put_options(alloc, &mut message, fields)?;
    put_payload(&mut message, payload)?;
    Ok(message)
}

fn byte_in(fields: &[FieldValue], name: FieldName) -> u8
    requires { length (value_of fields.now name) ≤ 8 }
    ensures { result ≡ bits_value (value_of fields.now name) }
{
    number_in(fields, name) as u8
}

fn two_bytes_in(fields: &[FieldValue], name: FieldName) -> u16
    requires { length (value_of fields.now name) ≤ 16 }
    ensures { result ≡ bits_value (value_of fields.now name) }
{
    number_in(fields, name) as u16
}

fn token_bytes(alloc: Global, fields: &[FieldValue]) -> Result<Octets, AllocError>
    ensures { IfOk result (λ token. token.items ≡ bytes_of (value_of fields.now FieldName.CoapToken)) }
{
    match value_in(fields, FieldName::CoapToken) {
        Some(value) => value.as_part().to_whole_bytes(alloc),
        None => Ok(ItemList::new(alloc)),
    }
}

/// The four bytes of the header.
fn header(alloc: Global, kind: u8, tkl: u8, code: u8, id: u16) -> Result<Octets, AllocError>
    requires kind { kind < 4 }
    requires tkl { tkl ≤ 8 }
    ensures { IfOk result (λ header. header.items
        ≡ (64 + 16 * kind + tkl) ∷ code ∷ id / 256 ∷ id % 256 ∷ []) }
{
    let mut header = ItemList::new(alloc);
    header.push(64 + 16 * kind + tkl)?;
    header.push(code)?;
    header.push((id / 256) as u8)?;
    header.push((id % 256) as u8)?;
    Ok(header)
}

fn nibble(number: usize) -> u8
    ensures value { result ≡ nibble number }
    ensures small { result < 15 }
{
    if number < 13 {
        number as u8
    } else if number < 269 {
        13
    } else {
        14
    }
}

fn put_extension(message: &mut Octets, number: usize) -> Result<(), AllocError>
    requires { number ≤ 65804 }
    ensures { OnOk result (message.new.items ≡ message.old.items ++ extension number) }
{
    if number < 13 {
        return Ok(());
    }
    if number < 269 {
        return message.push((number - 13) as u8);
    }
    message.push(((number - 269) / 256) as u8)?;
    message.push(((number - 269) % 256) as u8)
}

/// Puts an option last whose number adds `delta` to the one before it.
fn put_option(message: &mut Octets, delta: usize, value: &[u8]) -> Result<(), AllocError>
    requires number { delta ≤ 65535 }
    requires size { length value.now ≤ 65804 }
    ensures { OnOk result (message.new.items ≡ message.old.items
        ++ (16 * nibble delta + nibble (length value.now)) ∷ (extension delta ++ (extension (length value.now) ++ value.now))) }
{
    message.push(16 * nibble(delta) + nibble(value.len()))?;
    put_extension(message, delta)?;
    put_extension(message, value.len())?;
    message.extend_from(value)
}

/// Puts the field last, where it is an option, after one of the number `before`. Gives the number
/// of the last option.
fn put_field(
    alloc: Global,
    message: &mut Octets,
    before: u16,
    field: &FieldValue,
) -> Result<u16, AllocError>
    requires { IsWritable field.now }
    ensures number { IfOk result (λ number. number ≡ number_after before field.now.at.name) }
    ensures bytes { OnOk result (message.new.items ≡ message.old.items ++ field_spelled before field.now.at.name field.now.value) }
{
    match field.at.name {
        FieldName::CoapOption(number) => {
            let value = field.value.as_part().to_whole_bytes(alloc)?;
            let delta = usize::from(number).saturating_sub(usize::from(before));
            put_option(message, delta, value.as_slice())?;
            Ok(number)
        }
        _ => Ok(before),
    }
}

fn put_options(alloc: Global, message: &mut Octets, fields: &[FieldValue]) -> Result<(), AllocError>
    requires { AllByRecursion IsWritable fields.now }
    ensures { OnOk result (message.new.items ≡ message.old.items ++ options_spelled 0 (options_from fields.now)) }
{
    let mut before = 0;
    for field in fields {
        before = put_field(alloc, message, before, field)?;
    }
    Ok(())
}

fn put_payload(message: &mut Octets, payload: &[u8]) -> Result<(), AllocError>
    ensures { OnOk result (message.new.items ≡ message.old.items ++ payload_spelled payload.now) }
{
    if payload.is_empty() {
        return Ok(());
    }
    message.push(MARKER)?;
    message.extend_from(payload)
}
