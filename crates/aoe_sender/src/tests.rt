//! What no clause says: that messages are given, and rows that were made by hand.

ghost use Rattle.schc_ids.specs.Limits.{IsMtu};

use crate::AoeSender;
use frag_wire::read;
use schc_bits::Bits;
use schc_ids::limits::{MAX_SESSION_BITS, MIN_CUT_BITS};
use schc_ids::{FragMode, Heard, LastTile, SenderPhase, Side};
use std::alloc::{AllocError, Global};

/// A sender of the SCHC packet of these bits; none where they are too few or too many.
fn begun(alloc: Global, mtu: u16, last: LastTile, bits: Bits) -> Result<AoeSender, AllocError>
    requires { IsMtu mtu }
{
    if bits.len() < MIN_CUT_BITS || bits.len() > MAX_SESSION_BITS {
        return Err(AllocError);
    }
    match AoeSender::begin(alloc, FragMode::AckOnError.params(), mtu, last, bits) {
        Ok(sender) => Ok(sender),
        Err(_) => Err(AllocError),
    }
}

/// Whether the next message has these bytes; none is due where there are none.
fn gives(sender: &mut AoeSender, alloc: Global, bytes: &[u8]) -> Result<bool, AllocError> {
    Ok(match sender.next(alloc)? {
        Some(given) => given.as_slice() == bytes,
        None => bytes.is_empty(),
    })
}

/// What the answer of these bytes means.
fn hears(sender: &mut AoeSender, bytes: &[u8]) -> Heard {
    let _ = sender.phase();
    match read(&FragMode::AckOnError.params(), Side::Answers, bytes) {
        Ok(message) => sender.answer(&message),
        Err(_) => Heard::Nothing,
    }
}

/// An SCHC packet of 25 bytes.
fn reading(alloc: Global, last: LastTile) -> Result<AoeSender, AllocError> {
    let packet: [u8; 25] = [
        6, 0, 1, 2, 3, 4, 5, 6, 7, 8, 9, 10, 11, 12, 13, 14, 15, 16, 17, 18, 19, 20, 21, 22, 23,
    ];
    begun(alloc, 15, last, Bits::from_bytes(alloc, &packet)?)
}

/// Whether the Regular with the first ten bytes of the reading is given.
fn gives_first(sender: &mut AoeSender, alloc: Global) -> Result<bool, AllocError> {
    gives(sender, alloc, &[0x3E, 6, 0, 1, 2, 3, 4, 5, 6, 7, 8])
}

/// Whether the Regular with the next ten bytes is given.
fn gives_second(sender: &mut AoeSender, alloc: Global) -> Result<bool, AllocError> {
    gives(
        sender,
        alloc,
        &[0x3D, 9, 10, 11, 12, 13, 14, 15, 16, 17, 18],
    )
}

/// Whether the All-1 with the CRC-32 of the reading and its last five bytes is given.
fn gives_all1(sender: &mut AoeSender, alloc: Global) -> Result<bool, AllocError> {
    let bytes: [u8; 10] = [0x3F, 0xA3, 0x40, 0x0E, 0x9F, 19, 20, 21, 22, 23];
    gives(sender, alloc, &bytes)
}

/// Whether all three are given, and then none is due.
fn gives_all(sender: &mut AoeSender, alloc: Global) -> Result<bool, AllocError> {
    Ok(
        gives_first(sender, alloc)?
            && gives_second(sender, alloc)?
            && gives_all1(sender, alloc)?
            && gives(sender, alloc, &[])?,
    )
}

#[test]
fn one_reading_is_delivered(rt: HostRuntime) -> Result<(), AllocError> {
    let alloc = rt.alloc();
    let mut sender = reading(alloc, LastTile::InAll1)?;
    assert!(rt; gives_all(&mut sender, alloc)?);
    assert!(rt; sender.phase() == SenderPhase::Waiting);
    assert!(rt; hears(&mut sender, &[0x20]) == Heard::Delivered);
    assert!(rt; sender.phase() == SenderPhase::Quiet);
    assert!(rt; sender.into_bits().len() == 200);
    Ok(())
}

/// The second fragment was lost: it is sent again, and then the All-1.
#[test]
fn lost_tile_is_sent_again(rt: HostRuntime) -> Result<(), AllocError> {
    let alloc = rt.alloc();
    let mut sender = reading(alloc, LastTile::InAll1)?;
    assert!(rt; gives_all(&mut sender, alloc)?);
    assert!(rt; hears(&mut sender, &[0x10, 0, 0, 0, 0, 0, 0, 0, 0x40]) == Heard::Counted);
    assert!(rt; gives_second(&mut sender, alloc)?);
    assert!(rt; gives_all1(&mut sender, alloc)?);
    assert!(rt; hears(&mut sender, &[0x1F]) == Heard::NeverPasses);
    assert!(rt; gives(&mut sender, alloc, &[0xFF])?);
    Ok(())
}

/// The last tile goes in a Regular, and the All-1 has none.
#[test]
fn last_tile_in_a_regular(rt: HostRuntime) -> Result<(), AllocError> {
    let alloc = rt.alloc();
    let mut sender = reading(alloc, LastTile::InRegular)?;
    assert!(rt; gives_first(&mut sender, alloc)?);
    assert!(rt; gives_second(&mut sender, alloc)?);
    assert!(rt; gives(&mut sender, alloc, &[0x3C, 19, 20, 21, 22, 23])?);
    assert!(rt; gives(&mut sender, alloc, &[0x3F, 0xA3, 0x40, 0x0E, 0x9F])?);
    Ok(())
}

/// How many messages are given before the sender waits, at most 200.
fn count_given(sender: &mut AoeSender, alloc: Global) -> Result<usize, AllocError> {
    for count in 0..200 {
        if sender.next(alloc)?.is_none() {
            return Ok(count);
        }
    }
    Ok(200)
}

/// How many messages a packet of 1,501 bytes has, in frames of at most so many.
fn counts(alloc: Global, mtu: u16, last: LastTile) -> Result<usize, AllocError>
    requires { IsMtu mtu }
{
    let packet = vec![in alloc; 0_u8; 1501]?;
    let bits = Bits::from_bytes(alloc, packet.as_slice())?;
    let mut sender = begun(alloc, mtu, last, bits)?;
    count_given(&mut sender, alloc)
}

#[test]
fn messages_of_a_large_packet(rt: HostRuntime) -> Result<(), AllocError> {
    let alloc = rt.alloc();
    assert!(rt; counts(alloc, 15, LastTile::InAll1)? == 151);
    assert!(rt; counts(alloc, 15, LastTile::InRegular)? == 152);
    assert!(rt; counts(alloc, 25, LastTile::InAll1)? == 77);
    assert!(rt; counts(alloc, 242, LastTile::InAll1)? == 8);
    Ok(())
}

/// Nothing is answered: the All-1 goes eight times, and then the Sender-Abort.
#[test]
fn attempts_are_spent(rt: HostRuntime) -> Result<(), AllocError> {
    let alloc = rt.alloc();
    let mut sender = reading(alloc, LastTile::InAll1)?;
    assert!(rt; gives_all(&mut sender, alloc)?);
    for _ in 0..7 {
        assert!(rt; sender.due() == Heard::Counted);
        assert!(rt; gives_all1(&mut sender, alloc)?);
    }
    assert!(rt; sender.due() == Heard::Spent);
    assert!(rt; sender.due() == Heard::Nothing && sender.abort() == Heard::Nothing);
    assert!(rt; gives(&mut sender, alloc, &[0xFF])?);
    assert!(rt; gives(&mut sender, alloc, &[])?);
    Ok(())
}
