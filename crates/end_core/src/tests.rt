//! What no clause says: that calls succeed with ample memory. An end is dropped by name, which is proved much quicker than a
//! drop at the end of its scope.

use crate::End;
use event_data::{DownFault, Frame};
use schc_bits::Octets;
use schc_ids::{EndParams, Iids, Note, Role};
use std::alloc::{AllocError, Global};
use std::test::Fail;

/// An IPv6 header without a payload, from fe80::1 to fe80::2.
const PACKET: [u8; 40] = [
    0x60, 0, 0, 0, 0, 0, 0x3b, 0x40, 0xfe, 0x80, 0, 0, 0, 0, 0, 0, 0, 0, 0, 0, 0, 0, 0, 1, 0xfe,
    0x80, 0, 0, 0, 0, 0, 0, 0, 0, 0, 0, 0, 0, 0, 2,
];

fn new_end(alloc: Global, role: Role) -> Result<End, AllocError> {
    End::new(
        alloc,
        role,
        EndParams::with_defaults(Iids { dev: 1, app: 2 }),
    )
}

/// Whether the end refuses what is no packet and what is too long, and takes the longest one.
fn refuses(end: &mut End) -> bool {
    let short = matches!(end.down([0x60].as_slice()), Err(DownFault::NotIpv6));
    let long = matches!(end.down([0x60; 1501].as_slice()), Err(DownFault::TooLong));
    short && long && end.down([0x60; 1500].as_slice()).is_ok()
}

/// Whether the end hands the packet up, under RuleID 22 and with edition 0.
fn hands_up(alloc: Global, end: &mut End, packet: &[u8]) -> Result<bool, AllocError> {
    let mut bytes = Octets::new(alloc);
    bytes.extend_from(packet)?;
    let taken = end.take(&Frame { port: 22, bytes })?;
    let small = taken.note == Note::Small;
    match taken.up {
        Some(up) => Ok(
            small && up.edition == 0 && up.rule_id == 22 && up.packet.as_slice() == packet,
        ),
        None => Ok(false),
    }
}

#[test]
fn what_is_too_short_or_too_long(rt: HostRuntime) -> Result<(), Fail> {
    let mut end = new_end(rt.alloc(), Role::Device)?;
    let refused = refuses(&mut end);
    drop(end);
    assert!(rt; refused);
    Ok(())
}

#[test]
fn a_packet_is_handed_up(rt: HostRuntime) -> Result<(), Fail> {
    let mut end = new_end(rt.alloc(), Role::Gateway)?;
    let handed_up = hands_up(rt.alloc(), &mut end, PACKET.as_slice());
    drop(end);
    assert!(rt; handed_up?);
    Ok(())
}
