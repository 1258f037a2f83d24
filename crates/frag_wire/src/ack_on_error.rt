//! What the sender of the ACK-on-Error mode sends.

ghost use Rattle.std.specs.Prelude.{◌≡◌, ◌≤◌, ◌<◌, ◌≢◌, ◌-◌, nat_le, length};
ghost use Rattle.frag_wire.specs.AckOnError.{ack_on_error_reading, last_reading, other_reading, tiles_to};

use crate::fields::number_in;
use crate::message::Message;
use schc_ids::WireFault;

/// How many tiles four windows of 63 have.
const ALL_TILES: usize = 252;

/// The bytes of a tile.
const TILE: usize = 10;

/// The message that the bytes are (RFC 8724 section 8.4.3, RFC 9011 section 5.6.2).
///
/// # Errors
/// `Empty` without bytes, `TooShort` where a Regular has no payload or an All-1 no whole check,
/// `WrongForm` where the tiles pass the last one of the last window or an All-1 has more than one.
#[tactic(auto, unfolding(crate::specs::AckOnError::ack_on_error_reading))]
pub(crate) fn read(bytes: &[u8]) -> Result<Message, WireFault>
    ensures { result ≡ ack_on_error_reading bytes.now }
{
    if bytes.is_empty() {
        return Err(WireFault::Empty);
    }
    let w = number_in(bytes, 0, 2) as u8;
    let fcn = number_in(bytes, 2, 6) as u8;
    if fcn == 63 {
        last(w, bytes)
    } else {
        other(w, fcn, bytes)
    }
}

/// A fragment with an FCN of ones: a Sender-Abort of one byte with a W of 3, or an All-1 of 5 to 15
/// bytes.
#[tactic(auto, unfolding(crate::specs::AckOnError::last_reading))]
fn last(w: u8, bytes: &[u8]) -> Result<Message, WireFault>
    requires { 1 ≤ length bytes.now }
    ensures { result ≡ last_reading w bytes.now }
{
    let len = bytes.len();
    if len == 1 {
        return if w == 3 {
            Ok(Message::SenderAbort)
        } else {
            Err(WireFault::TooShort)
        };
    }
    if len < 5 {
        return Err(WireFault::TooShort);
    }
    if len > 15 {
        return Err(WireFault::WrongForm);
    }
    let rcs = number_in(bytes, 8, 32) as u32;
    Ok(Message::All1 { w, rcs, from: 40 })
}

/// A fragment with another FCN: an ACK REQ of one byte with an FCN of 0, or a longer Regular.
#[tactic(auto, unfolding(crate::specs::AckOnError::other_reading))]
fn other(w: u8, fcn: u8, bytes: &[u8]) -> Result<Message, WireFault>
    requires some { 1 ≤ length bytes.now }
    requires window { w < 4 }
    requires number { fcn < 63 }
    ensures { result ≡ other_reading w fcn bytes.now }
{
    let len = bytes.len();
    if len == 1 {
        return if fcn == 0 {
            Ok(Message::AckReq { w })
        } else {
            Err(WireFault::TooShort)
        };
    }
    if tiles_fit(w, fcn, len - 1) {
        Ok(Message::Regular { w, fcn, from: 8 })
    } else {
        Err(WireFault::WrongForm)
    }
}

/// Whether the tiles of a payload of so many bytes, the first being (w, fcn), don't pass the last
/// tile of the last window.
fn tiles_fit(w: u8, fcn: u8, count: usize) -> bool
    requires window { w < 4 }
    requires number { fcn < 63 }
    requires some { 1 ≤ count }
    ensures { result ≡ nat_le (tiles_to w fcn count) 252 }
{
    let tiles = (count - 1) / TILE + 1;
    let before = 63 * usize::from(w) + usize::from(62 - fcn);
    before + tiles <= ALL_TILES
}
