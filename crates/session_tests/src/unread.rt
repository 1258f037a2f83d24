//! An assembly that passes its check and is no SCHC packet that the end can read.

use crate::values::{new_end, params};
use end_core::End;
use event_data::{Emitted, Frame};
use schc_bits::Bits;
use schc_ids::{Cause, Note, Role, UnpackFault};
use sessions::Sessions;
use std::alloc::{AllocError, Global};

/// An SCHC packet of a rule that there isn't.
const PACKET: [u8; 41] = [77; 41];

const UNREAD: Note = Note::Refused(Cause::Unpack(UnpackFault::UnknownRule(77)));

/// The first message of a session with the packet; none where it doesn't begin.
fn begun(alloc: Global, device: &mut Sessions) -> Result<Option<Frame>, AllocError> {
    let bits = Bits::from_bytes(alloc, PACKET.as_slice())?;
    if bits.len() != 328 || !device.may_begin() {
        return Ok(None);
    }
    match device.begin(alloc, bits) {
        Ok(out) => Ok(Some(out.frame)),
        Err(_) => Err(AllocError),
    }
}

/// Whether the frame means this, and nothing is handed up.
fn means(gateway: &mut End, frame: &Frame, note: Note) -> Result<bool, AllocError> {
    let taken = gateway.take(frame)?;
    Ok(taken.note == note && taken.up.is_none() && taken.report.is_none())
}

/// Whether the first four messages of the session are kept.
fn is_kept(alloc: Global, device: &mut Sessions, gateway: &mut End) -> Result<bool, AllocError> {
    let Some(first) = begun(alloc, device)? else {
        return Ok(false);
    };
    let mut kept = means(gateway, &first, Note::Stored)?;
    for _ in 0..3 {
        kept = goes(alloc, device, gateway, Note::Stored)? && kept;
    }
    Ok(kept)
}

/// Whether the next message means this.
fn goes(
    alloc: Global,
    device: &mut Sessions,
    gateway: &mut End,
    note: Note,
) -> Result<bool, AllocError> {
    match device.next(alloc)? {
        Some(out) => means(gateway, &out.frame, note),
        None => Ok(false),
    }
}

/// Whether the gateway answers that it has all.
fn is_answered(gateway: &mut End) -> Result<bool, AllocError> {
    match gateway.slot()? {
        Some(Emitted { frame, .. }) => {
            Ok(frame.port == 20 && frame.bytes.as_slice() == [0x20].as_slice())
        }
        None => Ok(false),
    }
}

/// Whether the last message is refused and answered, and is a repeat when it comes again.
fn is_refused(alloc: Global, device: &mut Sessions, gateway: &mut End) -> Result<bool, AllocError> {
    let Some(last) = device.next(alloc)? else {
        return Ok(false);
    };
    Ok(
        means(gateway, &last.frame, UNREAD)?
            && is_answered(gateway)?
            && means(gateway, &last.frame, Note::Repeat)?
            && is_answered(gateway)?,
    )
}

#[test]
fn no_packet_is_handed_up(rt: HostRuntime) -> Result<(), AllocError> {
    let mut device = Sessions::new(rt.alloc(), Role::Device, &params(true))?;
    let done = with_gateway(rt.alloc(), &mut device);
    drop(device);
    assert!(rt; done?);
    Ok(())
}

fn with_gateway(alloc: Global, device: &mut Sessions) -> Result<bool, AllocError> {
    let mut gateway = new_end(alloc, Role::Gateway, true)?;
    let kept = is_kept(alloc, device, &mut gateway);
    let refused = is_refused(alloc, device, &mut gateway);
    drop(gateway);
    Ok(kept? && refused?)
}
