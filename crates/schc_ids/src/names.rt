//! The fields of a packet's headers: their names, widths, layers and order.

ghost use Rattle.std.specs.Prelude.{◌≡◌, ◌↔◌, IsTrue};
ghost use Rattle.schc_ids.specs.Names.{
  width_of,
  layer_of,
  rank_of,
  fields_of_stack,
  is_option,
  same_name,
};

/// The layers whose headers are compressed.
#[derive(Clone, Copy, Debug, PartialEq, Eq)]
pub enum Layer {
    /// IPv6 (RFC 8200).
    Ip,
    /// UDP (RFC 768).
    Udp,
    /// CoAP (RFC 7252).
    Coap,
}

/// The headers that a rule describes, from IPv6 on.
#[derive(Clone, Copy, Debug, PartialEq, Eq)]
pub enum Stack {
    /// IPv6 alone; all after it is payload.
    Ip,
    /// IPv6 and UDP.
    IpUdp,
    /// IPv6, UDP and CoAP.
    IpUdpCoap,
}

/// The name of a header field (field identifier of RFC 8724 section 7.1), in packet order.
///
/// Addresses and ports are named after the device and the application, and not after source and
/// destination (RFC 8724 sections 10.7 and 10.9).
#[derive(Clone, Copy, Debug, PartialEq, Eq)]
pub enum FieldName {
    /// Version, 4 bits (RFC 8200 section 3).
    IpVersion,
    /// Traffic class, 8 bits (RFC 8200 section 7).
    IpTrafficClass,
    /// Flow label, 20 bits (RFC 8200 section 6).
    IpFlowLabel,
    /// The bytes after the IPv6 header, 16 bits (RFC 8200 section 3).
    IpPayloadLength,
    /// What follows the IPv6 header, 8 bits: 17 for UDP (RFC 8200 section 3).
    IpNextHeader,
    /// Hop limit, 8 bits (RFC 8200 section 3).
    IpHopLimit,
    /// The first 64 bits of the device's address (RFC 8724 section 10.7.1).
    IpDevPrefix,
    /// The last 64 bits of the device's address (RFC 8724 section 10.7.2).
    IpDevIid,
    /// The first 64 bits of the application's address (RFC 8724 section 10.7.1).
    IpAppPrefix,
    /// The last 64 bits of the application's address (RFC 8724 section 10.7.2).
    IpAppIid,
    /// The device's port, 16 bits (RFC 8724 section 10.9).
    UdpDevPort,
    /// The application's port, 16 bits (RFC 8724 section 10.9).
    UdpAppPort,
    /// The bytes of the UDP header and what follows it, 16 bits (RFC 768).
    UdpLength,
    /// Checksum, 16 bits (RFC 768, RFC 8200 section 8.1).
    UdpChecksum,
    /// Version, 2 bits (RFC 7252 section 3).
    CoapVersion,
    /// Type, 2 bits (RFC 7252 section 3).
    CoapType,
    /// The bytes of the token, 4 bits (RFC 7252 section 3).
    CoapTkl,
    /// Code, 8 bits (RFC 7252 section 3).
    CoapCode,
    /// Message ID, 16 bits (RFC 7252 section 3).
    CoapMid,
    /// Token, 0 to 8 bytes (RFC 7252 section 3).
    CoapToken,
    /// The value of the option of this number (RFC 7252 section 3.1).
    CoapOption(u16),
}

/// A field of a packet. Positions count the repeats of an option from 1; every other field has
/// position 1.
#[derive(Clone, Copy, Debug, PartialEq, Eq)]
pub struct FieldAt {
    /// The field's name.
    pub name: FieldName,
    /// Which of the fields of that name, from 1.
    pub position: u16,
}

impl FieldName {
    /// Whether the field is a CoAP option.
    pub fn is_option(self) -> bool
        ensures { result ≡ is_option self }
    {
        matches!(self, FieldName::CoapOption(_))
    }

    /// Whether both are the same name.
    pub fn same(self, other: FieldName) -> bool
        ensures { result ≡ same_name self other }
    {
        self == other
    }

    /// The layer whose header has the field.
    pub fn layer(self) -> Layer
        ensures { result ≡ layer_of self }
    {
        match self {
            FieldName::IpVersion
            | FieldName::IpTrafficClass
            | FieldName::IpFlowLabel
            | FieldName::IpPayloadLength
            | FieldName::IpNextHeader
            | FieldName::IpHopLimit
            | FieldName::IpDevPrefix
            | FieldName::IpDevIid
            | FieldName::IpAppPrefix
            | FieldName::IpAppIid => Layer::Ip,
            FieldName::UdpDevPort
            | FieldName::UdpAppPort
            | FieldName::UdpLength
            | FieldName::UdpChecksum => Layer::Udp,
            _ => Layer::Coap,
        }
    }

    /// The field's place in packet order: fields with a lower rank stand first, and options stand in
    /// ascending order of their numbers.
    pub fn rank(self) -> u32
        ensures { result ≡ rank_of self }
    {
        match self {
            FieldName::IpVersion => 0,
            FieldName::IpTrafficClass => 1,
            FieldName::IpFlowLabel => 2,
            FieldName::IpPayloadLength => 3,
            FieldName::IpNextHeader => 4,
            FieldName::IpHopLimit => 5,
            FieldName::IpDevPrefix => 6,
            FieldName::IpDevIid => 7,
            FieldName::IpAppPrefix => 8,
            FieldName::IpAppIid => 9,
            FieldName::UdpDevPort => 10,
            FieldName::UdpAppPort => 11,
            FieldName::UdpLength => 12,
            FieldName::UdpChecksum => 13,
            FieldName::CoapVersion => 14,
            FieldName::CoapType => 15,
            FieldName::CoapTkl => 16,
            FieldName::CoapCode => 17,
            FieldName::CoapMid => 18,
            FieldName::CoapToken => 19,
            FieldName::CoapOption(number) => 20 + u32::from(number),
        }
    }
}

impl FieldAt {
    /// Whether both are the same field.
    pub fn same(&self, other: &FieldAt) -> bool
        ensures { IsTrue result ↔ (self.now ≡ other.now) }
    {
        self.name == other.name && self.position == other.position
    }
}

/// The field's width in bits (RFC 8200 section 3, RFC 768, RFC 7252 section 3), `None` exactly for
/// the token and the options, whose length varies.
pub fn width(name: FieldName) -> Option<u16>
    ensures { result ≡ width_of name }
{
    match name {
        FieldName::IpVersion => Some(4),
        FieldName::IpTrafficClass => Some(8),
        FieldName::IpFlowLabel => Some(20),
        FieldName::IpPayloadLength => Some(16),
        FieldName::IpNextHeader => Some(8),
        FieldName::IpHopLimit => Some(8),
        FieldName::IpDevPrefix => Some(64),
        FieldName::IpDevIid => Some(64),
        FieldName::IpAppPrefix => Some(64),
        FieldName::IpAppIid => Some(64),
        FieldName::UdpDevPort => Some(16),
        FieldName::UdpAppPort => Some(16),
        FieldName::UdpLength => Some(16),
        FieldName::UdpChecksum => Some(16),
        FieldName::CoapVersion => Some(2),
        FieldName::CoapType => Some(2),
        FieldName::CoapTkl => Some(4),
        FieldName::CoapCode => Some(8),
        FieldName::CoapMid => Some(16),
        FieldName::CoapToken => None,
        FieldName::CoapOption(_) => None,
    }
}

/// The names that have a text, in packet order: the fields of IPv6, of UDP, of CoAP, and options.
pub(crate) const NAMES: [FieldName; 41] = [
    FieldName::IpVersion,
    FieldName::IpTrafficClass,
    FieldName::IpFlowLabel,
    FieldName::IpPayloadLength,
    FieldName::IpNextHeader,
    FieldName::IpHopLimit,
    FieldName::IpDevPrefix,
    FieldName::IpDevIid,
    FieldName::IpAppPrefix,
    FieldName::IpAppIid,
    FieldName::UdpDevPort,
    FieldName::UdpAppPort,
    FieldName::UdpLength,
    FieldName::UdpChecksum,
    FieldName::CoapVersion,
    FieldName::CoapType,
    FieldName::CoapTkl,
    FieldName::CoapCode,
    FieldName::CoapMid,
    FieldName::CoapToken,
    FieldName::CoapOption(1),
    FieldName::CoapOption(3),
    FieldName::CoapOption(4),
    FieldName::CoapOption(5),
    FieldName::CoapOption(6),
    FieldName::CoapOption(7),
    FieldName::CoapOption(8),
    FieldName::CoapOption(9),
    FieldName::CoapOption(11),
    FieldName::CoapOption(12),
    FieldName::CoapOption(14),
    FieldName::CoapOption(15),
    FieldName::CoapOption(17),
    FieldName::CoapOption(20),
    FieldName::CoapOption(23),
    FieldName::CoapOption(27),
    FieldName::CoapOption(28),
    FieldName::CoapOption(35),
    FieldName::CoapOption(39),
    FieldName::CoapOption(60),
    FieldName::CoapOption(258),
];

/// The fields that each packet of the stack has, in packet order.
pub fn always_present(stack: Stack) -> &'static [FieldName]
    ensures { result.now ≡ fields_of_stack stack }
{
    match stack {
        Stack::Ip => &NAMES[..10],
        Stack::IpUdp => &NAMES[..14],
        Stack::IpUdpCoap => &NAMES[..19],
    }
}
