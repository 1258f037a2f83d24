//! What no clause says: that each call that takes memory does its work, the bytes of a session, whose
//! check is that of zlib, and that what is too long is dropped.

use crate::{NoAckReceiver, NoAckSender};
use frag_wire::read;
use schc_bits::Bits;
use schc_ids::{FragMode, Heard, LastTile, Note, Side};
use std::alloc::{AllocError, Global};

/// The SCHC packet of an IPv6 packet of 40 bytes under RuleID 22.
const PACKET: [u8; 41] = [
    0x16, 0x60, 0x00, 0x00, 0x00, 0x00, 0x00, 0x3b, 0x40, 0xfe, 0x80, 0x00, 0x00, 0x00, 0x00, 0x00,
    0x00, 0x00, 0x00, 0x00, 0x00, 0x00, 0x00, 0x00, 0x01, 0xfe, 0x80, 0x00, 0x00, 0x00, 0x00, 0x00,
    0x00, 0x00, 0x00, 0x00, 0x00, 0x00, 0x00, 0x00, 0x02,
];

/// The four frames of its session, of at most 15 bytes.
const FIRST: [u8; 15] = [
    0x0b, 0x30, 0x00, 0x00, 0x00, 0x00, 0x00, 0x1d, 0xa0, 0x7f, 0x40, 0x00, 0x00, 0x00, 0x00,
];

const SECOND: [u8; 15] = [
    0x00, 0x00, 0x00, 0x00, 0x00, 0x00, 0x00, 0x00, 0x00, 0x00, 0x7f, 0xa0, 0x00, 0x00, 0x00,
];

const THIRD: [u8; 10] = [0; 10];

const LAST: [u8; 6] = [0xd9, 0xd9, 0x53, 0x03, 0x00, 0x20];

/// A sender of the packet in frames of 15 bytes; none for want of memory.
fn sender(alloc: Global) -> Result<NoAckSender, AllocError> {
    let bits = Bits::from_bytes(alloc, PACKET.as_slice())?;
    if bits.len() != 328 {
        return Err(AllocError);
    }
    match NoAckSender::begin(alloc, FragMode::NoAck.params(), 15, LastTile::InAll1, bits) {
        Ok(sender) => Ok(sender),
        Err(_) => Err(AllocError),
    }
}

/// What the receiver makes of a frame, and whether the bits that it would join are the packet and the
/// padding of its last fragment.
fn takes(
    alloc: Global,
    receiver: &mut NoAckReceiver,
    frame: &[u8],
) -> Result<(Option<Note>, bool), AllocError> {
    let Ok(message) = read(&FragMode::NoAck.params(), Side::Fragments, frame) else {
        return Ok((None, false));
    };
    let whole = match receiver.preview(alloc, &message, frame)? {
        Some(joined) => {
            let mut bits = Bits::from_bytes(alloc, PACKET.as_slice())?;
            bits.push_bits(0, 4)?;
            joined.same(&bits)
        }
        None => false,
    };
    Ok((Some(receiver.take(&message, frame)), whole))
}

/// Whether the next frame is this one, and the receiver makes this of it.
fn goes(
    alloc: Global,
    sender: &mut NoAckSender,
    receiver: &mut NoAckReceiver,
    expected: &[u8],
    (note, whole): (Note, bool),
) -> Result<bool, AllocError> {
    let Some(frame) = sender.next(alloc)? else {
        return Ok(false);
    };
    let taken = takes(alloc, receiver, frame.as_slice())?;
    Ok(frame.as_slice() == expected && taken == (Some(note), whole))
}

#[test]
fn packet_of_40_bytes_in_four_frames(rt: HostRuntime) -> Result<(), AllocError> {
    let alloc = rt.alloc();
    let mut sender = sender(alloc)?;
    let mut receiver = NoAckReceiver::new(alloc, FragMode::NoAck.params())?;
    let stored = (Note::Stored, false);
    assert!(rt; goes(alloc, &mut sender, &mut receiver, FIRST.as_slice(), stored)?);
    assert!(rt; goes(alloc, &mut sender, &mut receiver, SECOND.as_slice(), stored)?);
    assert!(rt; goes(alloc, &mut sender, &mut receiver, THIRD.as_slice(), stored)?);
    assert!(rt;
        goes(
            alloc,
            &mut sender,
            &mut receiver,
            LAST.as_slice(),
            (Note::Joined, true)
        )?
    );
    assert!(rt; sender.next(alloc)?.is_none());
    Ok(())
}

#[test]
fn given_up(rt: HostRuntime) -> Result<(), AllocError> {
    let alloc = rt.alloc();
    let mut sender = sender(alloc)?;
    let mut receiver = NoAckReceiver::new(alloc, FragMode::NoAck.params())?;
    let stored = (Note::Stored, false);
    assert!(rt; goes(alloc, &mut sender, &mut receiver, FIRST.as_slice(), stored)?);
    assert_eq!(rt; sender.abort(), Heard::Aborted);
    assert!(rt;
        goes(
            alloc,
            &mut sender,
            &mut receiver,
            &[0x80],
            (Note::PeerAborted, false)
        )?
    );
    Ok(())
}

/// The notes on eleven frames of 242 zero bytes: whether ten are kept and the last isn't.
fn overflows(alloc: Global) -> Result<bool, AllocError> {
    let mut receiver = NoAckReceiver::new(alloc, FragMode::NoAck.params())?;
    let frame = [0; 242];
    let mut stored = true;
    for _ in 0..10u8 {
        let (note, _) = takes(alloc, &mut receiver, frame.as_slice())?;
        stored = stored && note == Some(Note::Stored);
    }
    let (note, _) = takes(alloc, &mut receiver, frame.as_slice())?;
    Ok(stored && note == Some(Note::Overflow))
}

#[test]
fn overflow_after_ten_frames_of_242_bytes(rt: HostRuntime) -> Result<(), AllocError> {
    assert!(rt; overflows(rt.alloc())?);
    Ok(())
}
