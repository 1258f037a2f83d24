//! The texts of field names.

ghost use Rattle.std.specs.Prelude.{◌≡◌};
ghost use Rattle.std.specs.Option.{option_map};
ghost use Rattle.schc_ids.specs.Texts.{option_text, text_of, has_text, name_of_text};

use crate::names::{FieldName, NAMES};

/// The text of an option's name.
#[tactic(auto, unfolding(crate::specs::Texts::option_text))]
fn option_text(number: u16) -> Option<&'static str>
    ensures { option_map (λ text. text.now) result ≡ option_text number }
{
    if number == 1 {
        Some("fid-coap-option-if-match")
    } else if number == 3 {
        Some("fid-coap-option-uri-host")
    } else if number == 4 {
        Some("fid-coap-option-etag")
    } else if number == 5 {
        Some("fid-coap-option-if-none-match")
    } else if number == 6 {
        Some("fid-coap-option-observe")
    } else if number == 7 {
        Some("fid-coap-option-uri-port")
    } else if number == 8 {
        Some("fid-coap-option-location-path")
    } else if number == 9 {
        Some("fid-coap-option-oscore")
    } else if number == 11 {
        Some("fid-coap-option-uri-path")
    } else if number == 12 {
        Some("fid-coap-option-content-format")
    } else if number == 14 {
        Some("fid-coap-option-max-age")
    } else if number == 15 {
        Some("fid-coap-option-uri-query")
    } else if number == 17 {
        Some("fid-coap-option-accept")
    } else if number == 20 {
        Some("fid-coap-option-location-query")
    } else if number == 23 {
        Some("fid-coap-option-block2")
    } else if number == 27 {
        Some("fid-coap-option-block1")
    } else if number == 28 {
        Some("fid-coap-option-size2")
    } else if number == 35 {
        Some("fid-coap-option-proxy-uri")
    } else if number == 39 {
        Some("fid-coap-option-proxy-scheme")
    } else if number == 60 {
        Some("fid-coap-option-size1")
    } else if number == 258 {
        Some("fid-coap-option-no-response")
    } else {
        None
    }
}

/// The text of a name in rule text (field identifiers in the manner of RFC 9363): `None` for the
/// options that have none.
#[tactic(auto, unfolding(crate::specs::Texts::text_of))]
pub fn text_of(name: FieldName) -> Option<&'static str>
    ensures { option_map (λ text. text.now) result ≡ text_of name }
{
    match name {
        FieldName::IpVersion => Some("fid-ipv6-version"),
        FieldName::IpTrafficClass => Some("fid-ipv6-trafficclass"),
        FieldName::IpFlowLabel => Some("fid-ipv6-flowlabel"),
        FieldName::IpPayloadLength => Some("fid-ipv6-payload-length"),
        FieldName::IpNextHeader => Some("fid-ipv6-nextheader"),
        FieldName::IpHopLimit => Some("fid-ipv6-hoplimit"),
        FieldName::IpDevPrefix => Some("fid-ipv6-devprefix"),
        FieldName::IpDevIid => Some("fid-ipv6-deviid"),
        FieldName::IpAppPrefix => Some("fid-ipv6-appprefix"),
        FieldName::IpAppIid => Some("fid-ipv6-appiid"),
        FieldName::UdpDevPort => Some("fid-udp-dev-port"),
        FieldName::UdpAppPort => Some("fid-udp-app-port"),
        FieldName::UdpLength => Some("fid-udp-length"),
        FieldName::UdpChecksum => Some("fid-udp-checksum"),
        FieldName::CoapVersion => Some("fid-coap-version"),
        FieldName::CoapType => Some("fid-coap-type"),
        FieldName::CoapTkl => Some("fid-coap-tkl"),
        FieldName::CoapCode => Some("fid-coap-code"),
        FieldName::CoapMid => Some("fid-coap-mid"),
        FieldName::CoapToken => Some("fid-coap-token"),
        FieldName::CoapOption(number) => option_text(number),
    }
}

/// Whether this is the name's text.
fn has_text(name: FieldName, text: &str) -> bool
    ensures { result ≡ has_text name text.now }
{
    match text_of(name) {
        Some(its) => its == text,
        None => false,
    }
}

/// The name that has this text, if one has.
#[tactic(auto, unfolding(crate::specs::Texts::name_of_text))]
pub fn name_of_text(text: &str) -> Option<FieldName>
    ensures { result ≡ name_of_text text.now }
{
    NAMES.iter().copied().find(|name| has_text(*name, text))
}
