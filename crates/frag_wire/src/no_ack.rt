//! The messages of the No-ACK mode.

ghost use Rattle.std.specs.Prelude.{◌≡◌};
ghost use Rattle.frag_wire.specs.NoAck.{no_ack_reading};

use crate::fields::number_in;
use crate::message::Message;
use schc_ids::WireFault;

/// The message that the bytes are: with an FCN of 0 a Regular of two bytes or more, with an FCN of
/// 1 a Sender-Abort of one byte or an All-1 of five bytes or more (RFC 8724 section 8.4.1).
///
/// # Errors
/// `Empty` without bytes, `TooShort` for other numbers of bytes.
#[tactic(auto, unfolding(crate::specs::NoAck::no_ack_reading))]
pub(crate) fn read(bytes: &[u8]) -> Result<Message, WireFault>
    ensures { result ≡ no_ack_reading bytes.now }
{
    let len = bytes.len();
    if len == 0 {
        return Err(WireFault::Empty);
    }
    if number_in(bytes, 0, 1) == 0 {
        return if len >= 2 {
            Ok(Message::Regular {
                w: 0,
                fcn: 0,
                from: 1,
            })
        } else {
            Err(WireFault::TooShort)
        };
    }
    if len == 1 {
        return Ok(Message::SenderAbort);
    }
    if len < 5 {
        return Err(WireFault::TooShort);
    }
    let rcs = number_in(bytes, 1, 32) as u32;
    Ok(Message::All1 {
        w: 0,
        rcs,
        from: 33,
    })
}
