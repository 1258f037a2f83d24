//! Example rules for a sensor that sends from a known address and port.

use crate::coap::{Coap, message_drafts};
use crate::draft::{Draft, by_first_bits, dropped, known, mapped, open, remade};
use rule_model::Action;
use schc_ids::FieldName;
use std::alloc::{AllocError, Global};

/// The UDP port of CoAP messages that are compressed by SCHC, as the examples have it.
const COAP_PORT: u16 = 0x1633;

/// An example rule. All know the IPv6 and the UDP header (RFC 8200 section 3, RFC 768) but for
/// what is said here; the application's port is the twelfth entry of fourteen, and f0b3 where
/// nothing is said of it.
#[derive(Clone, Copy)]
pub enum Sample {
    /// The last four bits of the application's port are sent, behind f0b.
    PortRange,
    /// The same with this hop limit, which is 64 in the others.
    HopLimit(u8),
    /// The application's port is one of so many from f0b0 on, and its index is sent.
    PortIndex(u64),
    /// The application's port is this one.
    Port(u16),
    /// The application's port is known, and sent nevertheless.
    PortSent,
    /// Any flow label is dropped.
    AnyFlow,
    /// Any prefix of the application is dropped.
    AnyPrefix,
    /// The application's port is that of CoAP, of which nothing more is said.
    CoapPort,
    /// The same, with what the rule says of the message from the fifteenth entry on.
    Coap(Coap),
}

/// A sensor's headers, in packet order.
fn known_headers() -> [Draft; 14] {
    [
        known(FieldName::IpVersion, 6),
        known(FieldName::IpTrafficClass, 0),
        known(FieldName::IpFlowLabel, 0),
        remade(FieldName::IpPayloadLength, Action::Compute),
        known(FieldName::IpNextHeader, 17),
        known(FieldName::IpHopLimit, 64),
        known(FieldName::IpDevPrefix, 0x2001_0db8_0000_0000),
        remade(FieldName::IpDevIid, Action::DevIid),
        known(FieldName::IpAppPrefix, 0x2001_0db8_0000_0001),
        known(FieldName::IpAppIid, 2),
        known(FieldName::UdpDevPort, 0xf0b1),
        known(FieldName::UdpAppPort, 0xf0b3),
        remade(FieldName::UdpLength, Action::Compute),
        remade(FieldName::UdpChecksum, Action::Compute),
    ]
}

fn port_range() -> Draft {
    by_first_bits(FieldName::UdpAppPort, 0xf0b0, 12)
}

fn known_port(port: u16) -> Draft {
    known(FieldName::UdpAppPort, u64::from(port))
}

fn port_sent() -> Draft {
    Draft {
        action: Action::ValueSent,
        ..known_port(0xf0b3)
    }
}

/// What the example says of the application's port.
fn port_draft(sample: Sample) -> Draft {
    match sample {
        Sample::PortRange | Sample::HopLimit(_) => port_range(),
        Sample::PortIndex(count) => mapped(FieldName::UdpAppPort, 0xf0b0, count),
        Sample::Port(port) => known_port(port),
        Sample::PortSent => port_sent(),
        Sample::AnyFlow | Sample::AnyPrefix => known_port(0xf0b3),
        Sample::CoapPort | Sample::Coap(_) => known_port(COAP_PORT),
    }
}

/// What the example says of another field of the headers than the application's port.
fn other_draft(sample: Sample) -> Option<Draft> {
    match sample {
        Sample::HopLimit(limit) => Some(known(FieldName::IpHopLimit, u64::from(limit))),
        Sample::AnyFlow => Some(dropped(FieldName::IpFlowLabel, 0)),
        Sample::AnyPrefix => Some(dropped(FieldName::IpAppPrefix, 0x2001_0db8_0000_0001)),
        Sample::Coap(Coap::GapAndVersion) => Some(open(FieldName::IpVersion)),
        Sample::Coap(Coap::GapAndLength) => Some(open(FieldName::IpPayloadLength)),
        _ => None,
    }
}

/// The draft, or the one of these that is for the same field.
fn replaced(draft: Draft, port: Draft, other: Option<Draft>) -> Draft {
    match other {
        Some(other) if other.name.same(draft.name) => other,
        _ if port.name.same(draft.name) => port,
        _ => draft,
    }
}

/// The entries of the example, in packet order but for `Coap::Backwards`.
///
/// # Errors
/// Want of memory.
pub fn sample_drafts(alloc: Global, sample: Sample) -> Result<Vec<Draft>, AllocError> {
    let port = port_draft(sample);
    let other = other_draft(sample);
    let mut drafts = Vec::new(alloc);
    for draft in known_headers() {
        drafts.push(replaced(draft, port, other))?;
    }
    if let Sample::Coap(coap) = sample {
        let message = message_drafts(alloc, coap)?;
        drafts.extend_from_slice(&message)?;
    }
    Ok(drafts)
}
