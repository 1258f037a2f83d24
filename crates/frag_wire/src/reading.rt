//! Reading a message.

ghost use Rattle.std.specs.Prelude.{ℕ, ◌≡◌, Bool, List, Ok, Err, IfOk, IfErr};
ghost use Rattle.schc_bits.specs.Bits.{octets};
ghost use Rattle.schc_ids.specs.Fragments.{IsFragParams};
ghost use Rattle.schc_ids.specs.declared.faults.WireFault.{WireFault};
ghost use Rattle.frag_wire.specs.declared.message.Message.{Message};
ghost use Rattle.frag_wire.specs.Layouts.{payload_in};
ghost use Rattle.frag_wire.specs.Spells.{HasSide, Spells, IsWireFault, reading_in};

use crate::message::Message;
use crate::{ack_always, ack_on_error, answers, no_ack};
use schc_ids::{FragMode, FragParams, Side, WireFault};

/// The message that the bytes are, from this side of a session in this mode (RFC 8724 sections 8.3
/// and 8.4). It takes no memory.
///
/// # Errors
/// `Empty` without bytes, `TooShort` where the form has more bytes, `WrongForm` where there is no
/// such form.
pub fn read(params: &FragParams, side: Side, bytes: &[u8]) -> Result<Message, WireFault>
    requires row { IsFragParams params.now }
    requires side { HasSide params.now.mode side }
    ensures spells { IfOk result (λ message. Spells params.now side message (payload_in message (octets bytes.now)) bytes.now) }
    ensures fault { IfErr result (λ fault. IsWireFault params.now side bytes.now fault) }
    ensures spelled { (message : Message) (payload : List Bool) → Spells params.now side message payload bytes.now → (result ≡ Ok message) × (payload ≡ payload_in message (octets bytes.now)) }
    ensures refused { (fault : WireFault) → IsWireFault params.now side bytes.now fault → result ≡ Err fault }
{
    read_in(params.mode, side, bytes)
}

/// The message that the bytes are in the mode.
fn read_in(mode: FragMode, side: Side, bytes: &[u8]) -> Result<Message, WireFault>
    requires { HasSide mode side }
    ensures { result ≡ reading_in mode side bytes.now }
{
    match (mode, side) {
        (FragMode::NoAck, Side::Fragments) => no_ack::read(bytes),
        (FragMode::NoAck, Side::Answers) => Err(WireFault::WrongForm),
        (FragMode::AckAlways, Side::Fragments) => ack_always::read(bytes),
        (FragMode::AckAlways, Side::Answers) => answers::read(1, 1, 1, bytes),
        (FragMode::AckOnError, Side::Fragments) => ack_on_error::read(bytes),
        (FragMode::AckOnError, Side::Answers) => answers::read(2, 63, 9, bytes),
    }
}
