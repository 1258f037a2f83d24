//! What no clause says: that each call that takes memory does its work, and the bytes of a session.

use crate::AaSender;
use frag_wire::read;
use schc_bits::Bits;
use schc_ids::limits::{MAX_SESSION_BITS, MIN_CUT_BITS};
use schc_ids::{FragMode, Heard, LastTile, Side};
use std::alloc::{AllocError, Global};

/// The SCHC packet of an IPv6 packet of 40 bytes under RuleID 22.
const PACKET: [u8; 41] = [
    0x16, 0x60, 0x00, 0x00, 0x00, 0x00, 0x00, 0x3b, 0x40, 0xfe, 0x80, 0x00, 0x00, 0x00, 0x00, 0x00,
    0x00, 0x00, 0x00, 0x00, 0x00, 0x00, 0x00, 0x00, 0x01, 0xfe, 0x80, 0x00, 0x00, 0x00, 0x00, 0x00,
    0x00, 0x00, 0x00, 0x00, 0x00, 0x00, 0x00, 0x00, 0x02,
];

/// A sender of the packet in frames of 15 bytes; none for want of memory.
fn sender(alloc: Global, packet: &[u8]) -> Result<AaSender, AllocError> {
    let params = FragMode::AckAlways.params();
    let bits = Bits::from_bytes(alloc, packet)?;
    if bits.len() < MIN_CUT_BITS || MAX_SESSION_BITS < bits.len() {
        return Err(AllocError);
    }
    match AaSender::begin(alloc, params, 15, LastTile::InAll1, bits) {
        Ok(sender) => Ok(sender),
        Err(_) => Err(AllocError),
    }
}

/// Whether the next frame has so many bytes and begins with these two, and the byte of the answer
/// means this.
fn goes(
    alloc: Global,
    sender: &mut AaSender,
    len: usize,
    head: [u8; 2],
    answer: u8,
    meaning: Heard,
) -> Result<bool, AllocError> {
    let Some(frame) = sender.next(alloc)? else {
        return Ok(false);
    };
    let heard = match read(&FragMode::AckAlways.params(), Side::Answers, &[answer]) {
        Ok(message) => sender.answer(&message),
        Err(_) => return Ok(false),
    };
    Ok(frame.len() == len && frame.as_slice().starts_with(head.as_slice()) && heard == meaning)
}

#[test]
fn packet_of_40_bytes_in_four_frames(rt: HostRuntime) -> Result<(), AllocError> {
    let alloc = rt.alloc();
    let mut sender = sender(alloc, PACKET.as_slice())?;
    assert!(rt; goes(alloc, &mut sender, 15, [0x05, 0x98], 0x20, Heard::Counted)?);
    assert!(rt; goes(alloc, &mut sender, 15, [0x80, 0x00], 0xa0, Heard::Counted)?);
    assert!(rt; goes(alloc, &mut sender, 10, [0x00, 0x00], 0x20, Heard::Counted)?);
    assert!(rt; goes(alloc, &mut sender, 6, [0xf6, 0xed], 0xc0, Heard::Delivered)?);
    Ok(())
}
