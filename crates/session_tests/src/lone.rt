//! What the sessions of one end make of frames by each port.

use crate::values::params;
use schc_ids::{Cause, Note, Role, WireFault};
use sessions::Sessions;
use std::alloc::AllocError;

/// A frame, and what it means.
type Row<'a> = (u8, &'a [u8], Note);

const UNKNOWN: Note = Note::Refused(Cause::UnknownPort);

const EMPTY: Note = Note::Refused(Cause::Wire(WireFault::Empty));

/// Whether each frame means this, one after the other, and ends no session.
fn all_mean(sessions: &mut Sessions, rows: &[Row<'_>]) -> bool {
    let mut all = true;
    for row in rows {
        let (port, bytes, note) = *row;
        all = all && sessions.take(port, bytes) == (note, None);
    }
    all
}

/// Whether frames that come to the device by other ports than those of its fragments and answers
/// are refused, and no timer is armed by them.
fn device_refuses(device: &mut Sessions) -> bool {
    let rows: [Row<'_>; 6] = [
        (222, [0x80].as_slice(), UNKNOWN),
        (22, [0x60].as_slice(), UNKNOWN),
        (0, [0x80].as_slice(), UNKNOWN),
        (224, [].as_slice(), UNKNOWN),
        (223, [].as_slice(), EMPTY),
        (20, [0x20].as_slice(), Note::Remnant),
    ];
    all_mean(device, rows.as_slice()) && !device.armed() && !device.busy()
}

/// The same at the gateway.
fn gateway_refuses(gateway: &mut Sessions) -> bool {
    let rows: [Row<'_>; 6] = [
        (223, [0x80].as_slice(), UNKNOWN),
        (22, [0x60].as_slice(), UNKNOWN),
        (0, [0x80].as_slice(), UNKNOWN),
        (255, [].as_slice(), UNKNOWN),
        (222, [].as_slice(), EMPTY),
        (21, [0x20].as_slice(), Note::Remnant),
    ];
    all_mean(gateway, rows.as_slice()) && !gateway.armed() && !gateway.busy()
}

/// Whether a Sender-Abort means nothing where nothing is kept, and ends what is.
fn abort_ends(gateway: &mut Sessions) -> bool {
    let rows: [Row<'_>; 4] = [
        (222, [0x80].as_slice(), Note::Remnant),
        (222, [0, 0].as_slice(), Note::Stored),
        (222, [0x80].as_slice(), Note::PeerAborted),
        (222, [0x80].as_slice(), Note::Remnant),
    ];
    all_mean(gateway, rows.as_slice()) && !gateway.armed()
}

/// Whether ten tiles of 1,935 bits are kept, the eleventh is too much, and then it begins anew.
fn overflows(gateway: &mut Sessions) -> bool {
    let zeros = [0; 242];
    let mut kept = true;
    for _ in 0..10 {
        kept = kept && gateway.take(222, zeros.as_slice()) == (Note::Stored, None);
    }
    let armed = gateway.armed();
    let rows: [Row<'_>; 1] = [(222, zeros.as_slice(), Note::Overflow)];
    let over = all_mean(gateway, rows.as_slice()) && !gateway.armed();
    kept && armed && over && gateway.take(222, zeros.as_slice()) == (Note::Stored, None)
}

#[test]
fn device_refuses_by_other_ports(rt: HostRuntime) -> Result<(), AllocError> {
    let mut device = Sessions::new(rt.alloc(), Role::Device, &params(true))?;
    let refused = device_refuses(&mut device);
    drop(device);
    assert!(rt; refused);
    Ok(())
}

#[test]
fn gateway_refuses_by_other_ports(rt: HostRuntime) -> Result<(), AllocError> {
    let mut gateway = Sessions::new(rt.alloc(), Role::Gateway, &params(true))?;
    let refused = gateway_refuses(&mut gateway);
    drop(gateway);
    assert!(rt; refused);
    Ok(())
}

#[test]
fn sender_abort(rt: HostRuntime) -> Result<(), AllocError> {
    let mut gateway = Sessions::new(rt.alloc(), Role::Gateway, &params(true))?;
    let ended = abort_ends(&mut gateway);
    drop(gateway);
    assert!(rt; ended);
    Ok(())
}

#[test]
fn too_many_bits(rt: HostRuntime) -> Result<(), AllocError> {
    let mut gateway = Sessions::new(rt.alloc(), Role::Gateway, &params(true))?;
    let over = overflows(&mut gateway);
    drop(gateway);
    assert!(rt; over);
    Ok(())
}
