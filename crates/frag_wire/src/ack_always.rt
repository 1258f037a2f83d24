//! What the sender of the ACK-Always mode sends.

ghost use Rattle.std.specs.Prelude.{◌≡◌};
ghost use Rattle.frag_wire.specs.AckAlways.{ack_always_reading};

use crate::fields::number_in;
use crate::message::Message;
use schc_ids::WireFault;

/// The message that the bytes are: with an FCN of 0 an ACK REQ of one byte or a longer Regular, with
/// an FCN of 1 a Sender-Abort of one byte or an All-1 of five bytes or more (RFC 8724 section
/// 8.4.2).
///
/// # Errors
/// `Empty` without bytes, `WrongForm` for an FCN of 1 with a W of 0 in one byte, `TooShort` for an
/// All-1 of fewer than five bytes.
#[tactic(auto, unfolding(crate::specs::AckAlways::ack_always_reading))]
pub(crate) fn read(bytes: &[u8]) -> Result<Message, WireFault>
    ensures { result ≡ ack_always_reading bytes.now }
{
    let len = bytes.len();
    if len == 0 {
        return Err(WireFault::Empty);
    }
    let w = number_in(bytes, 0, 1) as u8;
    if number_in(bytes, 1, 1) == 0 {
        return if len >= 2 {
            Ok(Message::Regular { w, fcn: 0, from: 2 })
        } else {
            Ok(Message::AckReq { w })
        };
    }
    if len == 1 {
        return if w == 0 {
            Err(WireFault::WrongForm)
        } else {
            Ok(Message::SenderAbort)
        };
    }
    if len < 5 {
        return Err(WireFault::TooShort);
    }
    let rcs = number_in(bytes, 2, 32) as u32;
    Ok(Message::All1 { w, rcs, from: 34 })
}
