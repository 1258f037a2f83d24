//! Where the fields stand in a packet.

ghost use Rattle.std.specs.Prelude.{◌≡◌, ◌+◌, ◌*◌, ◌≤◌, ◌<◌, length};
ghost use Rattle.ip_udp_fields.specs.Layout.{header_size, device_place, place_of, mirrored, fields_in_packet_order, number_in};

use schc_ids::{Direction, FieldName, Stack, always_present};

/// The bytes of an IPv6 header (RFC 8200 section 3).
pub const IP_HEADER: usize = 40;

/// The bytes of an IPv6 header and a UDP header (RFC 768).
pub const IP_UDP_HEADER: usize = 48;

/// The fields of a packet with CoAP on the way down, in packet order. The first 10 are those of IPv6,
/// and the first 14 those of IPv6 and UDP.
const DOWN: [FieldName; 19] = [
    FieldName::IpVersion,
    FieldName::IpTrafficClass,
    FieldName::IpFlowLabel,
    FieldName::IpPayloadLength,
    FieldName::IpNextHeader,
    FieldName::IpHopLimit,
    FieldName::IpAppPrefix,
    FieldName::IpAppIid,
    FieldName::IpDevPrefix,
    FieldName::IpDevIid,
    FieldName::UdpAppPort,
    FieldName::UdpDevPort,
    FieldName::UdpLength,
    FieldName::UdpChecksum,
    FieldName::CoapVersion,
    FieldName::CoapType,
    FieldName::CoapTkl,
    FieldName::CoapCode,
    FieldName::CoapMid,
];

/// The fields that each packet of the stack has, in packet order: the source's address and port
/// stand before the destination's.
pub fn fields_in_packet_order(stack: Stack, direction: Direction) -> &'static [FieldName]
    ensures { result.now ≡ fields_in_packet_order stack direction }
{
    match direction {
        Direction::Up => always_present(stack),
        Direction::Down => fields_on_the_way_down(stack),
    }
}

fn fields_on_the_way_down(stack: Stack) -> &'static [FieldName]
    ensures { result.now ≡ fields_in_packet_order stack Direction.Down }
{
    match stack {
        Stack::Ip => &DOWN[..10],
        Stack::IpUdp => &DOWN[..14],
        Stack::IpUdpCoap => &DOWN,
    }
}

/// The bytes of the headers of IPv6 and, where the stack has it, of UDP.
pub fn header_size(stack: Stack) -> usize
    ensures { result ≡ header_size stack }
{
    match stack {
        Stack::Ip => IP_HEADER,
        Stack::IpUdp | Stack::IpUdpCoap => IP_UDP_HEADER,
    }
}

fn device_place(direction: Direction, source: usize, destination: usize) -> usize
    ensures { result ≡ device_place direction source destination }
{
    match direction {
        Direction::Up => source,
        Direction::Down => destination,
    }
}

/// The first bit of the field in a packet.
pub fn place(direction: Direction, name: FieldName) -> usize
    ensures { result ≡ place_of direction name }
{
    match name {
        FieldName::IpVersion => 0,
        FieldName::IpTrafficClass => 4,
        FieldName::IpFlowLabel => 12,
        FieldName::IpPayloadLength => 32,
        FieldName::IpNextHeader => 48,
        FieldName::IpHopLimit => 56,
        FieldName::IpDevPrefix => device_place(direction, 64, 192),
        FieldName::IpDevIid => device_place(direction, 128, 256),
        FieldName::IpAppPrefix => device_place(direction, 192, 64),
        FieldName::IpAppIid => device_place(direction, 256, 128),
        FieldName::UdpDevPort => device_place(direction, 320, 336),
        FieldName::UdpAppPort => device_place(direction, 336, 320),
        FieldName::UdpLength => 352,
        FieldName::UdpChecksum => 368,
        _ => 384,
    }
}

/// The version that the packet's first four bits are.
pub fn version(packet: &[u8]) -> u8
    requires { 0 < length packet.now }
    ensures { result ≡ number_in 0 4 packet.now }
{
    packet[0] / 16
}

/// The number in the byte at this place.
pub fn one_byte(packet: &[u8], place: usize) -> u8
    requires { place < length packet.now }
    ensures { result ≡ number_in (8 * place) 8 packet.now }
{
    packet[place]
}

/// The number in the two bytes from this place on, the more significant first.
pub fn two_bytes(packet: &[u8], place: usize) -> usize
    requires { place + 2 ≤ length packet.now }
    ensures { result ≡ number_in (8 * place) 16 packet.now }
{
    usize::from(packet[place]) * 256 + usize::from(packet[place + 1])
}

/// The field that stands where this one stands on the way up.
pub fn mirrored(direction: Direction, name: FieldName) -> FieldName
    ensures { result ≡ mirrored direction name }
{
    match direction {
        Direction::Up => name,
        Direction::Down => exchanged(name),
    }
}

fn exchanged(name: FieldName) -> FieldName
    ensures { result ≡ mirrored Direction.Down name }
{
    match name {
        FieldName::IpDevPrefix => FieldName::IpAppPrefix,
        FieldName::IpDevIid => FieldName::IpAppIid,
        FieldName::IpAppPrefix => FieldName::IpDevPrefix,
        FieldName::IpAppIid => FieldName::IpDevIid,
        FieldName::UdpDevPort => FieldName::UdpAppPort,
        FieldName::UdpAppPort => FieldName::UdpDevPort,
        _ => name,
    }
}
