//! What an end gives first at a slot.

use crate::values::{PACKET, frame, new_end, params};
use end_core::End;
use event_data::EmitKind;
use schc_ids::{EndParams, FailCause, Note, Report, ReportKind, Role};
use std::alloc::{AllocError, Global};

/// A packet of 60 bytes, which doesn't fit a frame of 45: a header and 20 bytes behind it.
const LONG: [u8; 60] = [
    0x60, 0, 0, 0, 0, 20, 0x3b, 0x40, 0xfe, 0x80, 0, 0, 0, 0, 0, 0, 0, 0, 0, 0, 0, 0, 0, 1, 0xfe,
    0x80, 0, 0, 0, 0, 0, 0, 0, 0, 0, 0, 0, 0, 0, 2, 0, 0, 0, 0, 0, 0, 0, 0, 0, 0, 0, 0, 0, 0, 0, 0,
    0, 0, 0, 0,
];

/// The first message of the packet of 40 bytes from the gateway (RFC 8724 section 8.4.2).
const FROM_GATEWAY: [u8; 15] = [
    0x05, 0x98, 0, 0, 0, 0, 0, 0x0e, 0xd0, 0x3f, 0xa0, 0, 0, 0, 0,
];

/// Whether a slot gives a frame of this kind by this port.
fn gives(end: &mut End, port: u8, kind: EmitKind) -> Result<bool, AllocError> {
    match end.slot()? {
        Some(emitted) => Ok(emitted.frame.port == port && emitted.kind == kind),
        None => Ok(false),
    }
}

/// Whether a slot gives exactly this by this port.
fn gives_bytes(end: &mut End, port: u8, bytes: &[u8]) -> Result<bool, AllocError> {
    match end.slot()? {
        Some(emitted) => {
            Ok(emitted.frame.port == port && emitted.frame.bytes.as_slice() == bytes)
        }
        None => Ok(false),
    }
}

fn gives_nothing(end: &mut End) -> Result<bool, AllocError> {
    Ok(end.slot()?.is_none())
}

/// Whether the frame means this, and the session ends so.
fn means(
    alloc: Global,
    end: &mut End,
    (port, bytes): (u8, &[u8]),
    said: (Note, Option<Report>),
) -> Result<bool, AllocError> {
    let taken = end.take(&frame(alloc, port, bytes)?)?;
    Ok((taken.note, taken.report) == said && taken.up.is_none())
}

fn report(kind: ReportKind) -> Option<Report> {
    Some(Report { session: 1, kind })
}

/// Whether an answer goes before the next message of a session.
fn answers_first(alloc: Global, device: &mut End) -> Result<bool, AllocError> {
    let down = device.down(PACKET.as_slice()).is_ok();
    Ok(
        down && gives(device, 20, EmitKind::Begins(1))?
            && means(
                alloc,
                device,
                (21, FROM_GATEWAY.as_slice()),
                (Note::Stored, None),
            )?
            && gives_bytes(device, 21, [0x20].as_slice())?
            && gives(device, 20, EmitKind::Goes(1))?,
    )
}

/// Whether a Sender-Abort goes next, and the next session begins after 100 quiet ticks.
fn aborts(device: &mut End) -> Result<bool, AllocError> {
    let down = device.down(PACKET.as_slice()).is_ok() && device.down(PACKET.as_slice()).is_ok();
    let begun = gives(device, 20, EmitKind::Begins(1))?;
    let aborted = device.abort() == report(ReportKind::Failed(FailCause::Aborted));
    let said = gives_bytes(device, 20, [0xff].as_slice())?;
    Ok(down && begun && aborted && said)
}

fn begins_after_the_quiet_time(device: &mut End) -> Result<bool, AllocError> {
    for _ in 0..99 {
        device.tick();
    }
    let quiet = gives_nothing(device)?;
    device.tick();
    Ok(quiet && gives(device, 20, EmitKind::Begins(2))?)
}

/// Whether a packet that fits a frame waits for the whole session of the one before it.
fn waits(device: &mut End) -> Result<bool, AllocError> {
    let down = device.down(LONG.as_slice()).is_ok() && device.down(PACKET.as_slice()).is_ok();
    Ok(
        down && gives(device, 20, EmitKind::Begins(1))?
            && gives(device, 20, EmitKind::Goes(1))?
            && gives(device, 20, EmitKind::Goes(1))?
            && gives_nothing(device)?,
    )
}

/// Whether it goes when that was delivered, although the session is quiet.
fn goes_then(alloc: Global, device: &mut End) -> Result<bool, AllocError> {
    let delivered = (Note::Acked, report(ReportKind::Delivered));
    Ok(
        means(alloc, device, (20, [0x20].as_slice()), delivered)?
            && device.armed()
            && gives_bytes(device, 22, PACKET.as_slice())?
            && gives_nothing(device)?,
    )
}

#[test]
fn answer_before_a_message(rt: HostRuntime) -> Result<(), AllocError> {
    let mut device = new_end(rt.alloc(), Role::Device, true)?;
    let done = answers_first(rt.alloc(), &mut device);
    drop(device);
    assert!(rt; done?);
    Ok(())
}

#[test]
fn abort_and_quiet_time(rt: HostRuntime) -> Result<(), AllocError> {
    let mut device = new_end(rt.alloc(), Role::Device, true)?;
    let aborted = aborts(&mut device);
    let begun = begins_after_the_quiet_time(&mut device);
    drop(device);
    assert!(rt; aborted? && begun?);
    Ok(())
}

#[test]
fn packet_behind_a_session(rt: HostRuntime) -> Result<(), AllocError> {
    let params = EndParams {
        mtu: 45,
        ..params(true)
    };
    let mut device = End::new(rt.alloc(), Role::Device, params)?;
    let waited = waits(&mut device);
    let gone = goes_then(rt.alloc(), &mut device);
    drop(device);
    assert!(rt; waited? && gone?);
    Ok(())
}
