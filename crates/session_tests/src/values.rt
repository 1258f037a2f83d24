//! Packets, parameters, ends and frames of the tests.

ghost use Rattle.schc_ids.specs.Params.{IsParams};

use end_core::End;
use event_data::Frame;
use schc_bits::Octets;
use schc_ids::{EndParams, Iids, Role};
use std::alloc::{AllocError, Global};

/// An IPv6 header without a payload, from fe80::1 to fe80::2.
pub const PACKET: [u8; 40] = [
    0x60, 0, 0, 0, 0, 0, 0x3b, 0x40, 0xfe, 0x80, 0, 0, 0, 0, 0, 0, 0, 0, 0, 0, 0, 0, 0, 1, 0xfe,
    0x80, 0, 0, 0, 0, 0, 0, 0, 0, 0, 0, 0, 0, 0, 2,
];

/// What both ends are made with: frames of at most 15 bytes, and fragments that are answered or
/// not.
pub fn params(acked: bool) -> EndParams
    ensures { IsParams result }
{
    EndParams {
        mtu: 15,
        acked,
        ..EndParams::with_defaults(Iids { dev: 1, app: 2 })
    }
}

pub fn new_end(alloc: Global, role: Role, acked: bool) -> Result<End, AllocError> {
    End::new(alloc, role, params(acked))
}

pub fn frame(alloc: Global, port: u8, payload: &[u8]) -> Result<Frame, AllocError> {
    let mut bytes = Octets::new(alloc);
    bytes.extend_from(payload)?;
    Ok(Frame { port, bytes })
}
