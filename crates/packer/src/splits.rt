//! A packet split once: as one of IPv6, then with UDP, then with CoAP.

ghost use Rattle.std.specs.Prelude.{◌≡◌, ◌≤◌, false, length, drop, Some, IfOk};
ghost use Rattle.ip_udp_fields.specs.Fields.{IsIpv6, IsUdp};
ghost use Rattle.coap_fields.specs.Reading.{message_in};
ghost use Rattle.packer.specs.Packets.{split_of, with_message};
ghost use Rattle.packer.specs.Splits.{is_memory};
ghost use Rattle.packer.specs.Searching.{where_split, cut_to};

use ip_udp_fields::extend_to_udp;
use rule_model::{Split, SplitFault};
use schc_ids::{Direction, Stack};
use std::alloc::{AllocError, Global};

/// The bytes of an IPv6 header, and of that with a UDP header (RFC 8200 section 3, RFC 768).
const IP_HEADER: usize = 40;

const UDP_HEADERS: usize = 48;

/// The fields of an IPv6 header, and of that with a UDP header.
const IP_FIELDS: usize = 10;

const UDP_FIELDS: usize = 14;

/// Whether memory is wanting.
fn is_memory(fault: SplitFault) -> bool
    ensures { result ≡ is_memory fault }
{
    match fault {
        SplitFault::Memory => true,
        _ => false,
    }
}

/// The packet as one of IPv6, where it is one.
pub(crate) fn split_ip(
    alloc: Global,
    direction: Direction,
    packet: &[u8],
) -> Result<Option<Split>, AllocError>
    ensures { IfOk result (λ split. split ≡ split_of Stack.Ip direction packet.now) }
{
    match ip_udp_fields::split(alloc, Stack::Ip, direction, packet) {
        Ok(split) => Ok(Some(split)),
        Err(fault) => {
            if is_memory(fault) {
                return Err(AllocError);
            }
            Ok(None)
        }
    }
}

/// Puts the fields of UDP behind those of IPv6, and tells whether the packet is one of UDP.
pub(crate) fn add_udp(
    alloc: Global,
    direction: Direction,
    packet: &[u8],
    split: &mut Split,
) -> Result<bool, AllocError>
    requires { split_of Stack.Ip direction packet.now ≡ Some split.old }
    ensures added { IfOk result (λ is. where_split is split.new ≡ split_of Stack.IpUdp direction packet.now) }
    ensures kept { IfOk result (λ is. is ≡ false → split.new ≡ split.old) }
{
    match extend_to_udp(alloc, direction, packet, &mut split.fields) {
        Ok(()) => {
            split.payload_from = UDP_HEADERS;
            Ok(true)
        }
        Err(fault) => {
            if is_memory(fault) {
                return Err(AllocError);
            }
            Ok(false)
        }
    }
}

/// Puts the fields of a CoAP message behind those of UDP, and tells whether the datagram holds one.
pub(crate) fn add_coap(alloc: Global, packet: &[u8], split: &mut Split) -> Result<bool, AllocError>
    requires udp { IsUdp packet.now }
    requires from { split.old.payload_from ≡ 48 }
    ensures added { IfOk result (λ is. where_split is split.new ≡ with_message split.old (message_in (drop 48 packet.now))) }
    ensures kept { IfOk result (λ is. is ≡ false → split.new ≡ split.old) }
{
    let (_, message) = packet.split_at(UDP_HEADERS);
    match coap_fields::split_onto(alloc, message, &mut split.fields) {
        Ok(payload_from) => {
            split.payload_from = UDP_HEADERS + payload_from;
            Ok(true)
        }
        Err(fault) => {
            if is_memory(fault) {
                return Err(AllocError);
            }
            Ok(false)
        }
    }
}

/// What the packet was split into, as one of a lower stack.
pub(crate) fn cut_to(stack: Stack, split: Split) -> Split
    ensures { result ≡ cut_to stack split }
{
    let mut split = split;
    match stack {
        Stack::Ip => {
            split.fields.truncate(IP_FIELDS);
            split.payload_from = IP_HEADER;
        }
        Stack::IpUdp => {
            split.fields.truncate(UDP_FIELDS);
            split.payload_from = UDP_HEADERS;
        }
        Stack::IpUdpCoap => {}
    }
    split
}
