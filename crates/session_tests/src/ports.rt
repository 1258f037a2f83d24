//! What an end makes of frames by each port.

use crate::values::{frame, new_end};
use end_core::End;
use schc_ids::{Cause, Note, Role, UnpackFault, WireFault};
use std::alloc::{AllocError, Global};

/// A frame, and what it means.
type Row<'a> = (u8, &'a [u8], Note);

const UNKNOWN: Note = Note::Refused(Cause::UnknownPort);

const EMPTY: Note = Note::Refused(Cause::Wire(WireFault::Empty));

const SHORT: Note = Note::Refused(Cause::Wire(WireFault::TooShort));

const FORM: Note = Note::Refused(Cause::Wire(WireFault::WrongForm));

/// A fragment of the device with its tile.
const FRAGMENT: [u8; 11] = [0x3e, 6, 0, 1, 2, 3, 4, 5, 6, 7, 8];

/// Whether the frame means this, and nothing is handed up or reported.
fn means(alloc: Global, end: &mut End, row: Row<'_>) -> Result<bool, AllocError> {
    let (port, bytes, note) = row;
    let taken = end.take(&frame(alloc, port, bytes)?)?;
    Ok(taken.note == note && taken.up.is_none() && taken.report.is_none())
}

/// Whether each frame means this, one after the other.
fn all_mean(alloc: Global, end: &mut End, rows: &[Row<'_>]) -> Result<bool, AllocError> {
    let mut all = true;
    for row in rows {
        all = means(alloc, end, *row)? && all;
    }
    Ok(all)
}

/// Whether the gateway refuses these, and no timer is armed by them.
fn gateway_refuses(alloc: Global, gateway: &mut End) -> Result<bool, AllocError> {
    let rows: [Row<'_>; 8] = [
        (20, [].as_slice(), EMPTY),
        (20, [0x3e].as_slice(), SHORT),
        (20, [0x3f, 0, 0].as_slice(), SHORT),
        (20, [0x3f; 16].as_slice(), FORM),
        (223, FRAGMENT.as_slice(), UNKNOWN),
        (224, FRAGMENT.as_slice(), UNKNOWN),
        (0, [].as_slice(), UNKNOWN),
        (
            40,
            [].as_slice(),
            Note::Refused(Cause::Unpack(UnpackFault::UnknownRule(40))),
        ),
    ];
    Ok(all_mean(alloc, gateway, rows.as_slice())? && !gateway.armed())
}

/// Whether the device refuses fragments by its own ports, and takes answers there as those of no
/// session.
fn device_refuses(alloc: Global, device: &mut End) -> Result<bool, AllocError> {
    let rows: [Row<'_>; 5] = [
        (20, [].as_slice(), EMPTY),
        (20, FRAGMENT.as_slice(), FORM),
        (20, [0x20].as_slice(), Note::Remnant),
        (222, FRAGMENT.as_slice(), UNKNOWN),
        (225, [].as_slice(), UNKNOWN),
    ];
    Ok(all_mean(alloc, device, rows.as_slice())? && !device.armed())
}

/// Whether the same byte by the port 21 is an answer to the gateway and a request to the device.
fn port_21_is_of_both(
    alloc: Global,
    device: &mut End,
    gateway: &mut End,
) -> Result<bool, AllocError> {
    let answer: Row<'_> = (21, [0x3f].as_slice(), Note::Remnant);
    let request: Row<'_> = (21, [0x3f].as_slice(), Note::Asked);
    Ok(
        means(alloc, gateway, answer)?
            && !gateway.armed()
            && means(alloc, device, request)?
            && device.armed(),
    )
}

#[test]
fn gateway_by_each_port(rt: HostRuntime) -> Result<(), AllocError> {
    let mut gateway = new_end(rt.alloc(), Role::Gateway, true)?;
    let refuses = gateway_refuses(rt.alloc(), &mut gateway);
    drop(gateway);
    assert!(rt; refuses?);
    Ok(())
}

#[test]
fn device_by_each_port(rt: HostRuntime) -> Result<(), AllocError> {
    let mut device = new_end(rt.alloc(), Role::Device, true)?;
    let refuses = device_refuses(rt.alloc(), &mut device);
    drop(device);
    assert!(rt; refuses?);
    Ok(())
}

fn port_21(alloc: Global, device: &mut End) -> Result<bool, AllocError> {
    let mut gateway = new_end(alloc, Role::Gateway, true)?;
    let done = port_21_is_of_both(alloc, device, &mut gateway);
    drop(gateway);
    done
}

#[test]
fn port_21_at_both_ends(rt: HostRuntime) -> Result<(), AllocError> {
    let mut device = new_end(rt.alloc(), Role::Device, true)?;
    let done = port_21(rt.alloc(), &mut device);
    drop(device);
    assert!(rt; done?);
    Ok(())
}
