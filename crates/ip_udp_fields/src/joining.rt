//! A packet from its fields.

ghost use Rattle.std.specs.Prelude.{ℕ, ◌≡◌, ◌+◌, ◌*◌, ◌≤◌, ◌<◌, ◌⊎◌, ◌++◌, [], ◌∷◌, length, drop, Some, None, IfOk, IfErr, OnOk, unwrap_or};
ghost use Rattle.std.specs.Option.{option_copied, option_map};
ghost use Rattle.schc_ids.specs.Names.{fields_of_stack};
ghost use Rattle.schc_bits.specs.Bits.{AreBytes, padded, bytes_of};
ghost use Rattle.rule_model.specs.First.{first_held};
ghost use Rattle.ip_udp_fields.specs.Layout.{IsWithoutCoap, header_size, mirrored, fields_in_packet_order};
ghost use Rattle.ip_udp_fields.specs.Fields.{FieldsOf, at_name};
ghost use Rattle.ip_udp_fields.specs.Join.{
  value_of,
  presence,
  names_after,
  order,
  has_number,
  is_number,
  value_refusals,
  join_refusal,
  values_in,
  header_bits,
};

use crate::layout::{fields_in_packet_order, mirrored};
use rule_model::{
    FieldValue, Fields, JoinFault, at_name, bits_of, is_at, presence_fault, value_in,
};
use schc_bits::{Bits, Octets};
use schc_ids::{Direction, FieldAt, FieldName, Stack, always_present};
use std::alloc::{AllocError, Global};

/// Joins fields and a payload to a packet: the IPv6 header (RFC 8200 section 3), for the stack with
/// UDP its header (RFC 768), and the payload. The checksum is taken as it is.
///
/// # Errors
/// The first condition that fails: each field that the headers have is among the fields and has
/// its width, in packet order; each field of the list is one of them and stands after the one
/// before it; the version is 6; with UDP the next header is 17; the bytes after the IPv6 header
/// are at most 65,535; the payload length and the UDP length are their number. Or want of memory.
pub fn join(
    alloc: Global,
    stack: Stack,
    direction: Direction,
    fields: &Fields,
    payload: &[u8],
) -> Result<Octets, JoinFault>
    requires { IsWithoutCoap stack }
    ensures fields { IfOk result (λ packet. FieldsOf stack direction packet.items fields.now.items (header_size stack)) }
    ensures payload { IfOk result (λ packet. drop (header_size stack) packet.items ≡ payload.now) }
    ensures bytes { IfOk result (λ packet. AreBytes packet.items) }
    ensures ok { IfOk result (λ _. join_refusal stack direction fields.now.items (length payload.now) ≡ None) }
    ensures err { IfErr result (λ fault. (fault ≡ JoinFault.Memory)
        ⊎ (join_refusal stack direction fields.now.items (length payload.now) ≡ Some fault)) }
{
    let listed = fields.as_slice();
    match join_refusal(stack, direction, listed, payload.len()) {
        Some(fault) => Err(fault),
        None => match join_by_name(alloc, stack, direction, listed, payload) {
            Ok(packet) => Ok(packet),
            Err(_) => Err(JoinFault::Memory),
        },
    }
}

/// The headers of the fields, in whatever order these are listed, and the payload behind them. Each
/// field is found by its name, and nothing is tried: a field that isn't among them takes no bits.
///
/// # Errors
/// Want of memory.
#[tactic(auto, unfolding(crate::specs::Join::header_bits))]
pub fn join_by_name(
    alloc: Global,
    stack: Stack,
    direction: Direction,
    fields: &[FieldValue],
    payload: &[u8],
) -> Result<Octets, AllocError>
    ensures { IfOk result (λ packet. packet.items
        ≡ bytes_of (padded (header_bits stack direction fields.now)) ++ payload.now) }
{
    let header = header_bits(alloc, stack, direction, fields)?;
    let mut packet = header.to_padded_bytes()?;
    packet.extend_from(payload)?;
    Ok(packet)
}

fn header_bits(
    alloc: Global,
    stack: Stack,
    direction: Direction,
    fields: &[FieldValue],
) -> Result<Bits, AllocError>
    ensures { IfOk result (λ header. header ≡ values_in direction fields.now (fields_of_stack stack)) }
{
    let mut header = Bits::new(alloc);
    for name in always_present(stack) {
        append_value(&mut header, fields, mirrored(direction, *name))?;
    }
    Ok(header)
}

fn append_value(header: &mut Bits, fields: &[FieldValue], name: FieldName) -> Result<(), AllocError>
    ensures { OnOk result (header.new ≡ header.old ++ value_of fields.now name) }
{
    match value_in(fields, name) {
        Some(value) => header.extend(value),
        None => Ok(()),
    }
}

fn join_refusal(
    stack: Stack,
    direction: Direction,
    fields: &[FieldValue],
    size: usize,
) -> Option<JoinFault>
    ensures { result ≡ join_refusal stack direction fields.now size }
{
    match presence_fault(fields, fields_in_packet_order(stack, direction)) {
        Some(fault) => Some(fault),
        None => match order_fault(stack, direction, fields) {
            Some(fault) => Some(fault),
            None => content_fault(stack, fields, size),
        },
    }
}

fn order_fault(stack: Stack, direction: Direction, fields: &[FieldValue]) -> Option<JoinFault>
    ensures { result ≡ first_held (order (fields_in_packet_order stack direction) fields.now) }
{
    let mut names = fields_in_packet_order(stack, direction);
    for field in fields {
        match names_after(field.at, names) {
            None => return Some(JoinFault::FieldWrong(field.at)),
            Some(after) => names = after,
        }
    }
    None
}

fn names_after(at: FieldAt, names: &[FieldName]) -> Option<&[FieldName]>
    ensures { option_map (λ after. after.now) result ≡ names_after at names.now }
{
    let mut rest = names;
    while let [name, later @ ..] = rest {
        if is_at(at, *name) {
            return Some(later);
        }
        rest = later;
    }
    None
}

/// What is wrong with the values of the fields, where they are joined with a payload of this many
/// bytes: the version is 6; with UDP the next header is 17; the bytes after the IPv6 header are at
/// most 65,535; the payload length and the UDP length are their number. The first field that is
/// wrong is named.
pub fn content_fault(stack: Stack, fields: &[FieldValue], size: usize) -> Option<JoinFault>
    ensures { result ≡ first_held (value_refusals stack fields.now size) }
{
    match stack {
        Stack::Ip => ip_content_fault(fields, size),
        Stack::IpUdp | Stack::IpUdpCoap => udp_content_fault(fields, size),
    }
}

fn ip_content_fault(fields: &[FieldValue], size: usize) -> Option<JoinFault>
    ensures { result ≡ first_held (value_refusals Stack.Ip fields.now size) }
{
    if !has_number(fields, FieldName::IpVersion, 6) {
        return wrong(FieldName::IpVersion);
    }
    if size > 65_535 || !has_number(fields, FieldName::IpPayloadLength, size as u64) {
        return wrong(FieldName::IpPayloadLength);
    }
    None
}

fn udp_content_fault(fields: &[FieldValue], size: usize) -> Option<JoinFault>
    ensures { result ≡ first_held (value_refusals Stack.IpUdp fields.now size) }
{
    if !has_number(fields, FieldName::IpVersion, 6) {
        return wrong(FieldName::IpVersion);
    }
    if !has_number(fields, FieldName::IpNextHeader, 17) {
        return wrong(FieldName::IpNextHeader);
    }
    if size > 65_527 {
        return wrong(FieldName::IpPayloadLength);
    }
    let length = 8 + size as u64;
    if !has_number(fields, FieldName::IpPayloadLength, length) {
        return wrong(FieldName::IpPayloadLength);
    }
    if !has_number(fields, FieldName::UdpLength, length) {
        return wrong(FieldName::UdpLength);
    }
    None
}

fn wrong(name: FieldName) -> Option<JoinFault>
    ensures { result ≡ Some (JoinFault.FieldWrong (at_name name)) }
{
    Some(JoinFault::FieldWrong(at_name(name)))
}

/// Whether the field of the name is there, and has its width and this number.
pub fn has_number(fields: &[FieldValue], name: FieldName, number: u64) -> bool
    ensures { result ≡ has_number fields.now name number }
{
    match value_in(fields, name) {
        None => false,
        Some(value) => is_number(value, bits_of(name), number),
    }
}

fn is_number(value: &Bits, width: usize, number: u64) -> bool
    requires { width ≤ 64 }
    ensures { result ≡ is_number width number (Some value.now) }
{
    value.len() == width && value.as_part().number() == number
}
