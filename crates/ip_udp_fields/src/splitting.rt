//! A packet's fields.

ghost use Rattle.std.specs.Prelude.{◌≡◌, ◌+◌, ◌*◌, ◌≤◌, ◌<◌, ◌⊎◌, ◌++◌, length, map, take, Some, IfOk, IfErr, OnOk, OnErr};
ghost use Rattle.schc_ids.specs.Names.{udp_fields};
ghost use Rattle.schc_bits.specs.Bits.{octets};
ghost use Rattle.rule_model.specs.First.{first_held};
ghost use Rattle.ip_udp_fields.specs.Layout.{IsWithoutCoap, header_size, mirrored, fields_in_packet_order, piece};
ghost use Rattle.ip_udp_fields.specs.Fields.{IsIpv6, FieldsOf, has_ipv6_header, at_name, field_in, field_within, fields_in};
ghost use Rattle.ip_udp_fields.specs.Refusals.{ip_refusals, udp_refusals, refusal};

use crate::layout::{
    IP_HEADER, IP_UDP_HEADER, fields_in_packet_order, header_size, mirrored, one_byte, place,
    two_bytes, version,
};
use rule_model::{FieldValue, Fields, Split, SplitFault, at_name, bits_of};
use schc_bits::{Bits, ItemList};
use schc_ids::{Direction, FieldName, Stack};
use std::alloc::{AllocError, Global};

/// Splits the packet into the fields of its IPv6 header (RFC 8200 section 3) and, for the stack
/// with UDP, of its UDP header (RFC 768).
///
/// # Errors
/// The first condition that holds: `Short` for a packet of under 40 bytes, `NotIpv6`,
/// `LengthWrong` for the payload length; and with UDP `NotUdp`, `Short` for a packet of under 48
/// bytes, `LengthWrong` for the UDP length. Or want of memory.
pub fn split(
    alloc: Global,
    stack: Stack,
    direction: Direction,
    packet: &[u8],
) -> Result<Split, SplitFault>
    requires { IsWithoutCoap stack }
    ensures ok { IfOk result (λ split. FieldsOf stack direction packet.now split.fields split.payload_from) }
    ensures err { IfErr result (λ fault. (fault ≡ SplitFault.Memory) ⊎ (refusal stack packet.now ≡ Some fault)) }
{
    match refusal(stack, packet) {
        Some(fault) => Err(fault),
        None => match split_fields(alloc, stack, direction, packet) {
            Ok(split) => Ok(split),
            Err(_) => Err(SplitFault::Memory),
        },
    }
}

/// Whether an IPv6 header stands in front: at least 40 bytes, and the version is 6 (RFC 8200 section
/// 3). The payload length isn't looked at.
pub fn has_ipv6_header(packet: &[u8]) -> bool
    ensures { result ≡ has_ipv6_header packet.now }
{
    packet.len() >= IP_HEADER && version(packet) == 6
}

/// Puts the fields of the UDP header (RFC 768) behind the fields of the IPv6 header, so that the
/// fields are those of the packet with UDP, in packet order. The IPv6 header isn't read again. The
/// payload then begins at byte 48. After a refusal the fields are unchanged.
///
/// # Errors
/// As `split` for the stack with UDP: `NotUdp`, `Short` for a packet of under 48 bytes,
/// `LengthWrong` for the UDP length. Or want of memory.
pub fn extend_to_udp(
    alloc: Global,
    direction: Direction,
    packet: &[u8],
    fields: &mut Fields,
) -> Result<(), SplitFault>
    requires ipv6 { IsIpv6 packet.now }
    requires fields { fields.old.items ≡ fields_in Stack.Ip direction packet.now }
    ensures ok { OnOk result (FieldsOf Stack.IpUdp direction packet.now fields.new.items 48) }
    ensures refused { IfErr result (λ fault. (fault ≡ SplitFault.Memory) ⊎ (refusal Stack.IpUdp packet.now ≡ Some fault)) }
    ensures err { OnErr result (fields.new.items ≡ fields.old.items) }
{
    match udp_refusal(packet) {
        Some(fault) => Err(fault),
        None => match put_udp_fields(alloc, direction, packet, fields) {
            Ok(()) => Ok(()),
            Err(_) => Err(SplitFault::Memory),
        },
    }
}

fn put_udp_fields(
    alloc: Global,
    direction: Direction,
    packet: &[u8],
    fields: &mut Fields,
) -> Result<(), AllocError>
    requires { 48 ≤ length packet.now }
    ensures ok { OnOk result (fields.new.items ≡ fields.old.items
        ++ map (field_in direction packet.now) (map (mirrored direction) udp_fields)) }
    ensures err { OnErr result (fields.new.items ≡ fields.old.items) }
{
    let source = mirrored(direction, FieldName::UdpDevPort);
    let destination = mirrored(direction, FieldName::UdpAppPort);
    let source_port = two_byte_field(alloc, packet, 40, source)?;
    let destination_port = two_byte_field(alloc, packet, 42, destination)?;
    let length = two_byte_field(alloc, packet, 44, FieldName::UdpLength)?;
    let checksum = two_byte_field(alloc, packet, 46, FieldName::UdpChecksum)?;
    fields.reserve(4)?;
    fields.put(source_port);
    fields.put(destination_port);
    fields.put(length);
    fields.put(checksum);
    Ok(())
}

/// The field of this name, whose value is the two bytes from this place on.
fn two_byte_field(
    alloc: Global,
    packet: &[u8],
    from: usize,
    name: FieldName,
) -> Result<FieldValue, AllocError>
    requires { from + 2 ≤ length packet.now }
    ensures { IfOk result (λ field. field ≡ record { at = at_name name; value = piece (8 * from) 16 packet.now }) }
{
    let value = Bits::from_bytes(alloc, &packet[from..from + 2])?;
    Ok(FieldValue {
        at: at_name(name),
        value,
    })
}

fn refusal(stack: Stack, packet: &[u8]) -> Option<SplitFault>
    ensures { result ≡ refusal stack packet.now }
{
    match ip_refusal(packet) {
        Some(fault) => Some(fault),
        None => match stack {
            Stack::Ip => None,
            Stack::IpUdp | Stack::IpUdpCoap => udp_refusal(packet),
        },
    }
}

fn ip_refusal(packet: &[u8]) -> Option<SplitFault>
    ensures { result ≡ first_held (ip_refusals packet.now) }
{
    if packet.len() < IP_HEADER {
        return Some(SplitFault::Short);
    }
    if version(packet) != 6 {
        return Some(SplitFault::NotIpv6);
    }
    if two_bytes(packet, 4) != packet.len() - IP_HEADER {
        return Some(SplitFault::LengthWrong);
    }
    None
}

fn udp_refusal(packet: &[u8]) -> Option<SplitFault>
    requires { 40 ≤ length packet.now }
    ensures { result ≡ first_held (udp_refusals packet.now) }
{
    if one_byte(packet, 6) != 17 {
        return Some(SplitFault::NotUdp);
    }
    if packet.len() < IP_UDP_HEADER {
        return Some(SplitFault::Short);
    }
    if two_bytes(packet, 44) != packet.len() - IP_HEADER {
        return Some(SplitFault::LengthWrong);
    }
    None
}

fn split_fields(
    alloc: Global,
    stack: Stack,
    direction: Direction,
    packet: &[u8],
) -> Result<Split, AllocError>
    requires coap { IsWithoutCoap stack }
    requires long { header_size stack ≤ length packet.now }
    ensures fields { IfOk result (λ split. split.fields ≡ fields_in stack direction packet.now) }
    ensures payload { IfOk result (λ split. split.payload_from ≡ header_size stack) }
{
    let payload_from = header_size(stack);
    let header = Bits::from_bytes(alloc, &packet[..payload_from])?;
    let fields = fields_of(alloc, stack, direction, &header)?;
    Ok(Split {
        fields,
        payload_from,
    })
}

fn fields_of(
    alloc: Global,
    stack: Stack,
    direction: Direction,
    header: &Bits,
) -> Result<Fields, AllocError>
    requires coap { IsWithoutCoap stack }
    requires long { length header.now ≡ 8 * header_size stack }
    ensures { IfOk result (λ fields. fields.items
        ≡ map (field_within direction header.now) (fields_in_packet_order stack direction)) }
{
    let mut fields = ItemList::new(alloc);
    for name in fields_in_packet_order(stack, direction) {
        let from = place(direction, *name);
        let value = header.slice(from, from + bits_of(*name))?;
        fields.push(FieldValue {
            at: at_name(*name),
            value,
        })?;
    }
    Ok(fields)
}
