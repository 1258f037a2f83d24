//! Frames as they come, in rows of a frame, what it means to the receiver, and the answer that is
//! then due. The packet has the RuleID 6 and 24 bytes.

ghost use Rattle.std.specs.Prelude.{◌≡◌};
ghost use Rattle.schc_ids.specs.declared.fragments.FragMode.TheVariants.{AckOnError};
ghost use Rattle.schc_ids.specs.declared.fragments.Side.TheVariants.{Fragments};
ghost use Rattle.frag_wire.specs.Spells.{HasSide};

use crate::AoeReceiver;
use frag_wire::read;
use schc_bits::Bits;
use schc_ids::{FragMode, Note, ReceiverPhase, Side};
use std::alloc::{AllocError, Global};

static FIRST: [u8; 11] = [0x3E, 6, 0, 1, 2, 3, 4, 5, 6, 7, 8];

static SECOND: [u8; 11] = [0x3D, 9, 10, 11, 12, 13, 14, 15, 16, 17, 18];

static OTHER: [u8; 11] = [0x3D, 0, 0, 0, 0, 0, 0, 0, 0, 0, 0];

static LAST: [u8; 10] = [0x3F, 0xA3, 0x40, 0x0E, 0x9F, 19, 20, 21, 22, 23];

static ACK_REQ: [u8; 1] = [0x80];

static SENDER_ABORT: [u8; 1] = [0xFF];

static FIRST_HELD: [u8; 9] = [0x10, 0, 0, 0, 0, 0, 0, 0, 0];

static FIRST_AND_LAST_HELD: [u8; 9] = [0x10, 0, 0, 0, 0, 0, 0, 0, 0x40];

static PASSED: [u8; 1] = [0x20];

static RECEIVER_ABORT: [u8; 2] = [0xFF, 0xFF];

/// Whether the frame means this, and the answer is then this one; no bytes stand for none.
fn is_row(
    alloc: Global,
    receiver: &mut AoeReceiver,
    frame: &[u8],
    note: Note,
    answer: &[u8],
) -> Result<bool, AllocError> {
    let Ok(message) = read(&FragMode::AckOnError.params(), Side::Fragments, frame) else {
        return Ok(false);
    };
    let said = receiver.take(&message, frame);
    Ok(said == note && is_answer(alloc, receiver, answer)?)
}

/// Whether the answer is this one; no bytes stand for none.
fn is_answer(alloc: Global, receiver: &mut AoeReceiver, answer: &[u8]) -> Result<bool, AllocError> {
    match receiver.answer(alloc)? {
        Some(bytes) => Ok(bytes.as_slice() == answer),
        None => Ok(answer.is_empty()),
    }
}

/// Whether the frame would join this packet.
fn would_join(
    alloc: Global,
    receiver: &AoeReceiver,
    frame: &[u8],
    packet: &Bits,
) -> Result<bool, AllocError> {
    let Ok(message) = read(&FragMode::AckOnError.params(), Side::Fragments, frame) else {
        return Ok(false);
    };
    match receiver.preview(alloc, &message, frame)? {
        Some(bits) => Ok(bits.same(packet)),
        None => Ok(false),
    }
}

fn packet(alloc: Global) -> Result<Bits, AllocError> {
    let mut bits = Bits::from_bytes(alloc, &[6])?;
    for byte in 0..24_u8 {
        bits.push_bytes(&[byte])?;
    }
    Ok(bits)
}

/// A tile is lost, and comes again.
fn lost_tile_is_repaired(alloc: Global) -> Result<bool, AllocError> {
    let receiver = &mut AoeReceiver::new(alloc, FragMode::AckOnError.params())?;
    Ok(
        is_row(alloc, receiver, &FIRST, Note::Stored, &[])?
            && is_row(
                alloc,
                receiver,
                &LAST,
                Note::CheckFailed,
                &FIRST_AND_LAST_HELD,
            )?
            && is_row(alloc, receiver, &FIRST, Note::Repeat, &[])?
            && is_row(alloc, receiver, &SECOND, Note::Stored, &[])?
            && would_join(alloc, receiver, &LAST, &packet(alloc)?)?
            && would_join(alloc, receiver, &ACK_REQ, &packet(alloc)?)?
            && is_row(alloc, receiver, &LAST, Note::Joined, &PASSED)?
            && is_row(alloc, receiver, &LAST, Note::Repeat, &PASSED)?
            && is_row(alloc, receiver, &SECOND, Note::Remnant, &[])?,
    )
}

/// The first tile of a place stays, an ACK REQ is answered, and each end gives up.
fn others_are_answered(alloc: Global) -> Result<bool, AllocError> {
    let receiver = &mut AoeReceiver::new(alloc, FragMode::AckOnError.params())?;
    let told = is_row(alloc, receiver, &FIRST, Note::Stored, &[])?
        && is_row(alloc, receiver, &ACK_REQ, Note::Asked, &FIRST_HELD)?
        && is_row(alloc, receiver, &SECOND, Note::Stored, &[])?
        && is_row(alloc, receiver, &OTHER, Note::Repeat, &[])?
        && would_join(alloc, receiver, &LAST, &packet(alloc)?)?;
    receiver.idle();
    Ok(
        told && is_answer(alloc, receiver, &RECEIVER_ABORT)?
            && is_row(alloc, receiver, &SENDER_ABORT, Note::Remnant, &[])?
            && is_row(alloc, receiver, &FIRST, Note::Stored, &[])?
            && is_row(alloc, receiver, &SENDER_ABORT, Note::PeerAborted, &[])?
            && receiver.phase() == ReceiverPhase::Empty,
    )
}

#[test]
fn frames_of_a_session(rt: HostRuntime) -> Result<(), AllocError> {
    assert!(rt; lost_tile_is_repaired(rt.alloc())?);
    assert!(rt; others_are_answered(rt.alloc())?);
    Ok(())
}
