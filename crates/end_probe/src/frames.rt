//! Random frames.

ghost use Rattle.std.specs.Prelude.{◌<◌, length};

use crate::dice::Dice;
use crate::ends::PACKET;
use event_data::Frame;
use schc_bits::{CopyItem, ItemList, Octets};
use std::alloc::{AllocError, Global};

/// Frames that were sent.
pub type Frames = ItemList<Frame>;

/// The ports by which fragments and their answers go, that of packets that no rule compresses, and
/// two that are reserved.
const PORTS: [u8; 7] = [20, 21, 22, 222, 223, 224, 225];

/// The most bytes of a random string, but for one in sixteen, and of that.
const BYTES: usize = 40;

const MANY_BYTES: usize = 242;

/// Whole packets in a frame: one that no rule compresses, and one of the rule 5.
///
/// # Errors
/// Want of memory.
pub fn whole_frames(alloc: Global) -> Result<Frames, AllocError> {
    let mut frames = Frames::new(alloc);
    frames.push(frame(alloc, 22, PACKET.as_slice())?)?;
    frames.push(frame(alloc, 5, [0x3c, 0xaf, 0xe0].as_slice())?)?;
    Ok(frames)
}

/// A frame with these bytes by the port.
///
/// # Errors
/// Want of memory.
pub fn frame(alloc: Global, port: u8, payload: &[u8]) -> Result<Frame, AllocError> {
    let mut bytes = Octets::new(alloc);
    bytes.extend_from(payload)?;
    Ok(Frame { port, bytes })
}

/// A random frame: random bytes, or one of the sent frames as it is, with one byte changed, cut
/// short, or by another port.
///
/// # Errors
/// Want of memory.
pub fn random_frame(alloc: Global, dice: &mut Dice, sent: &Frames) -> Result<Frame, AllocError> {
    if sent.is_empty() || dice.below(2) == 0 {
        let port = random_port(dice);
        let bytes = random_bytes(alloc, dice)?;
        return Ok(Frame { port, bytes });
    }
    let mut frame = sent.at(dice.below(sent.len())).copy_item(alloc)?;
    spoil(dice, &mut frame);
    Ok(frame)
}

/// One of the named ports, or any.
fn random_port(dice: &mut Dice) -> u8 {
    match dice.below(8) {
        7 => dice.byte(),
        place => PORTS[place],
    }
}

fn random_bytes(alloc: Global, dice: &mut Dice) -> Result<Octets, AllocError> {
    let most = if dice.below(16) == 0 {
        MANY_BYTES
    } else {
        BYTES
    };
    let mut bytes = Octets::new(alloc);
    for _ in 0..dice.below(most + 1) {
        bytes.push(dice.byte())?;
    }
    Ok(bytes)
}

/// Changes a byte of the frame, cuts it short, or changes its port, or does nothing.
fn spoil(dice: &mut Dice, frame: &mut Frame) {
    match dice.below(5) {
        0 => {}
        1 => frame.port = random_port(dice),
        2 => cut(dice, &mut frame.bytes),
        _ => change_byte(dice, &mut frame.bytes),
    }
}

fn cut(dice: &mut Dice, bytes: &mut Octets) {
    if !bytes.is_empty() {
        bytes.truncate(dice.below(bytes.len()));
    }
}

fn change_byte(dice: &mut Dice, bytes: &mut Octets) {
    if !bytes.is_empty() {
        let place = dice.below(bytes.len());
        bytes.set(place, dice.byte());
    }
}
