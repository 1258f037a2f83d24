//! What a packet is split into, and why it can't be split or made.

use crate::value::Fields;
use schc_ids::FieldAt;
use std::marker::Model;

/// The fields of a packet, and where its payload begins.
#[derive(Drop)]
pub struct Split {
    /// The fields in packet order.
    pub fields: Fields,
    /// The byte at which the payload begins.
    pub payload_from: usize,
}

impl Model for Split {
    ghost use Rattle.rule_model.specs.SplitData.{SplitData};

    ghost Value = { SplitData };

    ghost view = { λ s. record { fields = s.fields.items; payload_from = s.payload_from } };
}

/// Why a packet isn't one of a stack.
#[derive(Clone, Copy, Debug, PartialEq, Eq)]
pub enum SplitFault {
    /// Fewer bytes than the headers have.
    Short,
    /// The version isn't 6.
    NotIpv6,
    /// The payload length or the UDP length isn't the number of the bytes after the IPv6 header.
    LengthWrong,
    /// The next header isn't 17.
    NotUdp,
    /// No CoAP message; the first byte at which no reading goes on.
    NotCoap(usize),
    /// Memory is wanting.
    Memory,
}

/// Why fields and a payload make no packet.
#[derive(Clone, Copy, Debug, PartialEq, Eq)]
pub enum JoinFault {
    /// This field isn't among the fields.
    FieldAbsent(FieldAt),
    /// This field has a wrong width or value, or can't stand at its place in the list.
    FieldWrong(FieldAt),
    /// Memory is wanting.
    Memory,
}
