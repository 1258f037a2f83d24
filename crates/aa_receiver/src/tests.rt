//! What no clause says: that each call that takes memory does its work, and the answers of a session.

use crate::AaReceiver;
use frag_wire::read;
use schc_bits::Bits;
use schc_ids::{FragMode, Note, Side};
use std::alloc::{AllocError, Global};

/// The fragments of the SCHC packet of 41 bytes, in frames of at most 15.
const FIRST: [u8; 15] = [
    0x05, 0x98, 0x00, 0x00, 0x00, 0x00, 0x00, 0x0e, 0xd0, 0x3f, 0xa0, 0x00, 0x00, 0x00, 0x00,
];

const SECOND: [u8; 15] = [
    0x80, 0x00, 0x00, 0x00, 0x00, 0x00, 0x00, 0x00, 0x00, 0x00, 0x1f, 0xe8, 0x00, 0x00, 0x00,
];

const THIRD: [u8; 10] = [0x00; 10];

const LAST: [u8; 6] = [0xf6, 0xed, 0x96, 0x37, 0x80, 0x02];

/// The packet.
const PACKET: [u8; 41] = [
    0x16, 0x60, 0x00, 0x00, 0x00, 0x00, 0x00, 0x3b, 0x40, 0xfe, 0x80, 0x00, 0x00, 0x00, 0x00, 0x00,
    0x00, 0x00, 0x00, 0x00, 0x00, 0x00, 0x00, 0x00, 0x01, 0xfe, 0x80, 0x00, 0x00, 0x00, 0x00, 0x00,
    0x00, 0x00, 0x00, 0x00, 0x00, 0x00, 0x00, 0x00, 0x02,
];

/// Whether the frame is taken with this note, and then answered so.
fn answers(
    alloc: Global,
    receiver: &mut AaReceiver,
    frame: &[u8],
    note: Note,
    answer: u8,
) -> Result<bool, AllocError> {
    let params = FragMode::AckAlways.params();
    let meaning = match read(&params, Side::Fragments, frame) {
        Ok(message) => receiver.take(&message, frame),
        Err(_) => return Ok(false),
    };
    let Some(bytes) = receiver.answer(alloc)? else {
        return Ok(false);
    };
    Ok(meaning == note && bytes.len() == 1 && bytes.as_slice().starts_with(&[answer]))
}

/// Whether the frame is seen to end the packet of these bytes.
fn ends(
    alloc: Global,
    receiver: &AaReceiver,
    frame: &[u8],
    packet: &[u8],
) -> Result<bool, AllocError> {
    let expected = Bits::from_bytes(alloc, packet)?;
    match read(&FragMode::AckAlways.params(), Side::Fragments, frame) {
        Ok(message) => match receiver.preview(alloc, &message, frame)? {
            Some(bits) => Ok(bits.same(&expected)),
            None => Ok(false),
        },
        Err(_) => Ok(false),
    }
}

#[test]
fn packet_of_40_bytes_in_four_frames(rt: HostRuntime) -> Result<(), AllocError> {
    let alloc = rt.alloc();
    let mut receiver = AaReceiver::new(alloc, FragMode::AckAlways.params())?;
    assert!(rt; answers(alloc, &mut receiver, FIRST.as_slice(), Note::Stored, 0x20)?);
    assert!(rt; answers(alloc, &mut receiver, SECOND.as_slice(), Note::Stored, 0xa0)?);
    assert!(rt; answers(alloc, &mut receiver, THIRD.as_slice(), Note::Stored, 0x20)?);
    assert!(rt; ends(alloc, &receiver, LAST.as_slice(), PACKET.as_slice())?);
    assert!(rt; answers(alloc, &mut receiver, LAST.as_slice(), Note::Joined, 0xc0)?);
    assert!(rt; answers(alloc, &mut receiver, LAST.as_slice(), Note::Repeat, 0xc0)?);
    Ok(())
}
