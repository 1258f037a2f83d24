//! A session of the No-ACK mode (RFC 8724 section 8.4.1), message by message.

use crate::values::params;
use event_data::EmitKind;
use schc_bits::Bits;
use schc_ids::{Note, Report, ReportKind, Role};
use sessions::Sessions;
use std::alloc::{AllocError, Global};

/// The SCHC packet of an IPv6 packet of 40 bytes under RuleID 22: tiles of 119, 119, 79 and 11
/// bits.
const PACKET: [u8; 41] = [
    0x16, 0x60, 0, 0, 0, 0, 0, 0x3b, 0x40, 0xfe, 0x80, 0, 0, 0, 0, 0, 0, 0, 0, 0, 0, 0, 0, 0, 1,
    0xfe, 0x80, 0, 0, 0, 0, 0, 0, 0, 0, 0, 0, 0, 0, 0, 2,
];

const FIRST: [u8; 15] = [
    0x0b, 0x30, 0, 0, 0, 0, 0, 0x1d, 0xa0, 0x7f, 0x40, 0, 0, 0, 0,
];

const SECOND: [u8; 15] = [0, 0, 0, 0, 0, 0, 0, 0, 0, 0, 0x7f, 0xa0, 0, 0, 0];

const THIRD: [u8; 10] = [0; 10];

/// The check is that of zlib; four bits of padding end the message.
const LAST: [u8; 6] = [0xd9, 0xd9, 0x53, 0x03, 0x00, 0x20];

/// A message, and what is said of it.
#[derive(Clone, Copy)]
struct Message<'a> {
    bytes: &'a [u8],
    kind: EmitKind,
    report: Option<Report>,
    note: Note,
}

impl<'a> Message<'a> {
    /// A further message of the first session that is kept.
    fn stored(bytes: &'a [u8]) -> Message<'a> {
        Message {
            bytes,
            kind: EmitKind::Goes(1),
            report: None,
            note: Note::Stored,
        }
    }

    /// Its last one.
    fn joined(bytes: &'a [u8]) -> Message<'a> {
        Message {
            report: Some(Report {
                session: 1,
                kind: ReportKind::Sent,
            }),
            note: Note::Joined,
            ..Message::stored(bytes)
        }
    }
}

/// Whether a session of the packet begins with the first message, and the other end keeps that.
fn begins(
    alloc: Global,
    device: &mut Sessions,
    gateway: &mut Sessions,
) -> Result<bool, AllocError> {
    let bits = Bits::from_bytes(alloc, PACKET.as_slice())?;
    if bits.len() != 328 || !device.may_begin() {
        return Ok(false);
    }
    match device.begin(alloc, bits) {
        Ok(out) => {
            let given = out.frame.port == 222 && out.frame.bytes.as_slice() == FIRST.as_slice();
            let first = out.kind == EmitKind::Begins(1) && out.report == None;
            let taken = gateway.take(out.frame.port, out.frame.bytes.as_slice());
            Ok(given && first && taken == (Note::Stored, None))
        }
        Err(_) => Err(AllocError),
    }
}

/// Whether the next message is this one, and the other end notes it so.
fn goes(
    alloc: Global,
    device: &mut Sessions,
    gateway: &mut Sessions,
    message: Message<'_>,
) -> Result<bool, AllocError> {
    let Some(out) = device.next(alloc)? else {
        return Ok(false);
    };
    let given = out.frame.port == 222 && out.frame.bytes.as_slice() == message.bytes;
    let said = out.kind == message.kind && out.report == message.report;
    let taken = gateway.take(out.frame.port, out.frame.bytes.as_slice());
    Ok(given && said && taken == (message.note, None))
}

/// Whether the first three messages go so.
fn three_go(
    alloc: Global,
    device: &mut Sessions,
    gateway: &mut Sessions,
) -> Result<bool, AllocError> {
    Ok(
        begins(alloc, device, gateway)?
            && goes(alloc, device, gateway, Message::stored(SECOND.as_slice()))?
            && goes(alloc, device, gateway, Message::stored(THIRD.as_slice()))?,
    )
}

/// Whether the sender is quiet for 100 ticks, and then another session may begin.
fn is_quiet_for_a_while(alloc: Global, device: &mut Sessions) -> Result<bool, AllocError> {
    let quiet = !device.busy() && !device.may_begin() && device.next(alloc)?.is_none();
    for _ in 0..99 {
        device.tick();
    }
    let still = !device.may_begin();
    device.tick();
    Ok(quiet && still && device.may_begin() && !device.armed())
}

/// Whether the last message alone is previewed, as the packet and four bits of padding.
fn is_previewed(alloc: Global, gateway: &mut Sessions) -> Result<bool, AllocError> {
    if gateway.preview(alloc, 222, THIRD.as_slice())?.is_some() {
        return Ok(false);
    }
    match gateway.preview(alloc, 222, LAST.as_slice())? {
        Some(joined) => is_padded_packet(alloc, &joined),
        None => Ok(false),
    }
}

fn is_padded_packet(alloc: Global, joined: &Bits) -> Result<bool, AllocError> {
    let mut bits = Bits::from_bytes(alloc, PACKET.as_slice())?;
    bits.push_bits(0, 4)?;
    Ok(joined.same(&bits))
}

/// Whether the whole session goes so.
fn goes_whole(
    alloc: Global,
    device: &mut Sessions,
    gateway: &mut Sessions,
) -> Result<bool, AllocError> {
    Ok(
        three_go(alloc, device, gateway)?
            && is_previewed(alloc, gateway)?
            && goes(alloc, device, gateway, Message::joined(LAST.as_slice()))?,
    )
}

fn with_gateway(alloc: Global, device: &mut Sessions) -> Result<bool, AllocError> {
    let mut gateway = Sessions::new(alloc, Role::Gateway, &params(false))?;
    let done = goes_whole(alloc, device, &mut gateway);
    drop(gateway);
    done
}

#[test]
fn packet_of_40_bytes(rt: HostRuntime) -> Result<(), AllocError> {
    let mut device = Sessions::new(rt.alloc(), Role::Device, &params(false))?;
    let done = with_gateway(rt.alloc(), &mut device);
    let quiet = is_quiet_for_a_while(rt.alloc(), &mut device);
    drop(device);
    assert!(rt; done? && quiet?);
    Ok(())
}
