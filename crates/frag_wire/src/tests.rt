//! What no clause says: that writing succeeds, and that messages are the bytes that were written out
//! by hand.

ghost use Rattle.std.specs.Prelude.{◌≡◌, true, false, []};
ghost use Rattle.schc_ids.specs.Fragments.{params_of};
ghost use Rattle.frag_wire.specs.declared.message.Message.TheVariants.{Ack};
ghost use Rattle.frag_wire.specs.Spells.{CanSpell, HasSide};

use crate::{Message, read, write};
use schc_bits::Bits;
use schc_ids::{FragMode, Side, WireFault};
use std::alloc::{AllocError, Global};

/// A bitmap of 63 tiles that were all received.
const FULL: u64 = 0x7FFF_FFFF_FFFF_FFFF;

/// Whether the message with the payload is these bytes, and is read from them.
fn is_written(
    alloc: Global,
    mode: FragMode,
    side: Side,
    message: &Message,
    payload: &Bits,
    expected: &[u8],
) -> Result<bool, AllocError>
    requires side { HasSide mode side }
    requires spelt { CanSpell (params_of mode) side message.now payload.now }
{
    let params = mode.params();
    let bytes = write(alloc, &params, side, message, payload)?;
    let again = read(&params, side, expected);
    Ok(bytes.as_slice() == expected && again == Ok(*message))
}

/// A Regular of No-ACK with the payload 0001 0010.
fn is_regular(alloc: Global) -> Result<bool, AllocError> {
    let regular = Message::Regular {
        w: 0,
        fcn: 0,
        from: 1,
    };
    let payload = Bits::from_bytes(alloc, &[0x12])?;
    if payload.len() < 8 {
        return Ok(false);
    }
    let expected: &[u8] = &[0x09, 0x00];
    is_written(
        alloc,
        FragMode::NoAck,
        Side::Fragments,
        &regular,
        &payload,
        expected,
    )
}

/// An All-1 of No-ACK with the payload 101.
fn is_all1(alloc: Global) -> Result<bool, AllocError> {
    let last = Message::All1 {
        w: 0,
        rcs: 0xCBF4_3926,
        from: 33,
    };
    let payload = Bits::from_number(alloc, 5, 3)?;
    let expected: &[u8] = &[0xE5, 0xFA, 0x1C, 0x93, 0x50];
    is_written(
        alloc,
        FragMode::NoAck,
        Side::Fragments,
        &last,
        &payload,
        expected,
    )
}

/// Whether the fragment without payload is this byte.
fn is_byte(
    alloc: Global,
    mode: FragMode,
    side: Side,
    message: &Message,
    expected: u8,
) -> Result<bool, AllocError>
    requires side { HasSide mode side }
    requires spelt { CanSpell (params_of mode) side message.now [] }
{
    let none = Bits::new(alloc);
    is_written(alloc, mode, side, message, &none, &[expected])
}

/// Sender-Aborts of each mode, and the ACK REQ of window 2.
fn all_bytes(alloc: Global) -> Result<bool, AllocError> {
    let fragments = Side::Fragments;
    let request = Message::AckReq { w: 2 };
    let abort = Message::SenderAbort;
    Ok(
        is_byte(alloc, FragMode::NoAck, fragments, &abort, 0x80)?
            && is_byte(alloc, FragMode::AckAlways, fragments, &abort, 0xC0)?
            && is_byte(alloc, FragMode::AckOnError, fragments, &abort, 0xFF)?
            && is_byte(alloc, FragMode::AckOnError, fragments, &request, 0x80)?,
    )
}

fn ack(w: u8, bitmap: u64) -> Message
    ensures { result ≡ Ack w false bitmap }
{
    Message::Ack {
        w,
        c: false,
        bitmap,
    }
}

fn ack_of_all(w: u8) -> Message
    ensures { result ≡ Ack w true 0 }
{
    Message::Ack {
        w,
        c: true,
        bitmap: 0,
    }
}

/// Answers of one byte: in ACK-on-Error the fourth tile of window 1 is missing, or none.
fn all_answers(alloc: Global) -> Result<bool, AllocError> {
    let answers = Side::Answers;
    let always = FragMode::AckAlways;
    let on_error = FragMode::AckOnError;
    Ok(
        is_byte(alloc, on_error, answers, &ack(1, FULL - (1 << 59)), 0x5D)?
            && is_byte(alloc, on_error, answers, &ack(0, FULL), 0x1F)?
            && is_byte(alloc, on_error, answers, &ack_of_all(3), 0xE0)?
            && is_byte(alloc, always, answers, &ack(0, 1), 0x20)?
            && is_byte(alloc, always, answers, &ack(1, 1), 0xA0)?
            && is_byte(alloc, always, answers, &ack_of_all(1), 0xC0)?,
    )
}

/// A window of which nothing was received, and a Receiver-Abort.
fn longer_answers(alloc: Global) -> Result<bool, AllocError> {
    let none = Bits::new(alloc);
    let mode = FragMode::AckOnError;
    let side = Side::Answers;
    let abort = Message::ReceiverAbort;
    let ones: &[u8] = &[0xFF, 0xFF];
    let zeros: &[u8] = &[0; 9];
    Ok(
        is_written(alloc, mode, side, &ack(0, 0), &none, zeros)?
            && is_written(alloc, mode, side, &abort, &none, ones)?,
    )
}

fn is_read(mode: FragMode, side: Side, bytes: &[u8], expected: Result<Message, WireFault>) -> bool
    requires { HasSide mode side }
{
    read(&mode.params(), side, bytes) == expected
}

fn is_refused(mode: FragMode, bytes: &[u8], fault: WireFault) -> bool {
    is_read(mode, Side::Fragments, bytes, Err(fault))
}

fn all_refused() -> bool {
    let on_error = FragMode::AckOnError;
    is_refused(FragMode::NoAck, &[], WireFault::Empty)
        && is_refused(FragMode::NoAck, &[0x7F], WireFault::TooShort)
        && is_refused(FragMode::NoAck, &[0x80, 0, 0, 0], WireFault::TooShort)
        && is_refused(FragMode::AckAlways, &[0x40], WireFault::WrongForm)
        && is_refused(on_error, &[0x3E], WireFault::TooShort)
        && is_refused(on_error, &[0xBF], WireFault::TooShort)
        && is_refused(on_error, &[0x3F, 0, 0], WireFault::TooShort)
        && is_refused(on_error, &[0x3F; 16], WireFault::WrongForm)
}

/// A full bitmap that is sent whole, and a Regular of the first tile.
fn all_read() -> bool {
    let on_error = FragMode::AckOnError;
    let whole: &[u8] = &[0x1F, 0xFF, 0xFF, 0xFF, 0xFF, 0xFF, 0xFF, 0xFF, 0xC0];
    let regular = Message::Regular {
        w: 0,
        fcn: 62,
        from: 8,
    };
    is_read(on_error, Side::Answers, whole, Ok(ack(0, FULL)))
        && is_read(on_error, Side::Fragments, &[0x3E, 0x06], Ok(regular))
}

#[test]
fn messages_by_hand(rt: HostRuntime) -> Result<(), AllocError> {
    assert!(rt; is_regular(rt.alloc())?);
    assert!(rt; is_all1(rt.alloc())?);
    assert!(rt; all_bytes(rt.alloc())?);
    assert!(rt; all_answers(rt.alloc())?);
    assert!(rt; longer_answers(rt.alloc())?);
    assert!(rt; all_refused());
    assert!(rt; all_read());
    Ok(())
}
