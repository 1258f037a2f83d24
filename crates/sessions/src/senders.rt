//! A sender of whatever mode.

ghost use Rattle.std.specs.Prelude.{ℕ, ◌≡◌, ◌≤◌, length, option_map, IfOk, IfErr, IfSome, IfNone, OnOk, OnErr};
ghost use Rattle.schc_ids.specs.Fragments.{IsFragParams};
ghost use Rattle.schc_ids.specs.Limits.{IsMtu, min_cut_bits, max_session_bits};
ghost use Rattle.sessions.specs.Senders.{sender_begun, sender_params, sender_mtu, sender_bits, sender_phase, sender_due, sender_sent, sender_heard, sender_retried, sender_aborted, HasAnswer};

use aa_sender::AaSender;
use aoe_sender::AoeSender;
use frag_wire::Message;
use no_ack::NoAckSender;
use schc_bits::{Bits, Octets};
use schc_ids::{FragMode, FragParams, Heard, LastTile, SenderPhase};
use std::alloc::{AllocError, Global};

/// What sends an SCHC packet in fragments (RFC 8724 section 8.4).
#[derive(Drop)]
pub enum Sender {
    /// Without answers.
    NoAck(NoAckSender),
    /// With an answer to each window.
    AckAlways(AaSender),
    /// With answers to windows that lack tiles, and to the last one.
    AckOnError(AoeSender),
}

impl Sender {
    /// A session that begins with these bits.
    ///
    /// # Errors
    /// Want of memory; the bits come back.
    #[tactic(auto, unfolding(crate::specs::Senders::sender_begun))]
    pub fn begin(
        alloc: Global,
        params: FragParams,
        mtu: u16,
        last: LastTile,
        bits: Bits,
    ) -> Result<Sender, Bits>
        requires row { IsFragParams params }
        requires in_range { IsMtu mtu }
        requires least { min_cut_bits ≤ length bits }
        requires most { length bits ≤ max_session_bits }
        ensures begun { IfOk result (λ sender. sender ≡ sender_begun params.mode params mtu last bits) }
        ensures back { IfErr result (λ given. given ≡ bits) }
    {
        match params.mode {
            FragMode::NoAck => match NoAckSender::begin(alloc, params, mtu, last, bits) {
                Ok(sender) => Ok(Sender::NoAck(sender)),
                Err(bits) => Err(bits),
            },
            FragMode::AckAlways => match AaSender::begin(alloc, params, mtu, last, bits) {
                Ok(sender) => Ok(Sender::AckAlways(sender)),
                Err(bits) => Err(bits),
            },
            FragMode::AckOnError => match AoeSender::begin(alloc, params, mtu, last, bits) {
                Ok(sender) => Ok(Sender::AckOnError(sender)),
                Err(bits) => Err(bits),
            },
        }
    }

    /// The bits that the session was begun with.
    pub fn into_bits(self) -> Bits
        ensures { result ≡ sender_bits self }
    {
        match self {
            Sender::NoAck(sender) => sender.into_bits(),
            Sender::AckAlways(sender) => sender.into_bits(),
            Sender::AckOnError(sender) => sender.into_bits(),
        }
    }

    /// Where the sender stands.
    #[tactic(auto, unfolding(crate::specs::Senders::sender_phase))]
    pub fn phase(&self) -> SenderPhase
        ensures { result ≡ sender_phase self.now }
    {
        match self {
            Sender::NoAck(sender) => sender.phase(),
            Sender::AckAlways(sender) => sender.phase(),
            Sender::AckOnError(sender) => sender.phase(),
        }
    }

    /// The bytes of the message that is due.
    ///
    /// # Errors
    /// Want of memory; the sender is then as before.
    #[tactic(auto, unfolding(crate::specs::Senders::sender_due, crate::specs::Senders::sender_sent))]
    pub fn next(&mut self, alloc: Global) -> Result<Option<Octets>, AllocError>
        ensures given { IfOk result (λ given. option_map (λ bytes. bytes.items) given ≡ sender_due self.old) }
        ensures after { OnOk result (self.new ≡ sender_sent self.old) }
        ensures unchanged { OnErr result (self.new ≡ self.old) }
        ensures room { IfOk result (λ given. IfSome given (λ bytes. length bytes.items ≤ sender_mtu self.old)) }
    {
        match self {
            Sender::NoAck(sender) => sender.next(alloc),
            Sender::AckAlways(sender) => sender.next(alloc),
            Sender::AckOnError(sender) => sender.next(alloc),
        }
    }

    /// What an answer means.
    #[tactic(auto, unfolding(crate::specs::Senders::sender_heard))]
    pub fn answer(&mut self, message: &Message) -> Heard
        requires { HasAnswer self.old message.now }
        ensures { sender_heard message.now self.old ≡ (self.new, result) }
    {
        match self {
            Sender::NoAck(_) => Heard::Nothing,
            Sender::AckAlways(sender) => sender.answer(message),
            Sender::AckOnError(sender) => sender.answer(message),
        }
    }

    /// The retransmission timer is due.
    #[tactic(auto, unfolding(crate::specs::Senders::sender_retried))]
    pub fn due(&mut self) -> Heard
        ensures { sender_retried self.old ≡ (self.new, result) }
    {
        match self {
            Sender::NoAck(_) => Heard::Nothing,
            Sender::AckAlways(sender) => sender.due(),
            Sender::AckOnError(sender) => sender.due(),
        }
    }

    /// The session is given up.
    #[tactic(auto, unfolding(crate::specs::Senders::sender_aborted))]
    pub fn abort(&mut self) -> Heard
        ensures { sender_aborted self.old ≡ (self.new, result) }
    {
        match self {
            Sender::NoAck(sender) => sender.abort(),
            Sender::AckAlways(sender) => sender.abort(),
            Sender::AckOnError(sender) => sender.abort(),
        }
    }
}
