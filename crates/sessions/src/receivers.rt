//! A receiver of whatever mode.

ghost use Rattle.std.specs.Prelude.{ℕ, ◌≡◌, ◌≤◌, length, option_map, IsSome, IfOk, IfSome, OnOk, OnErr};
ghost use Rattle.schc_bits.specs.Bits.{octets};
ghost use Rattle.schc_ids.specs.Fragments.{params_of};
ghost use Rattle.frag_wire.specs.Layouts.{payload_in};
ghost use Rattle.frag_wire.specs.Spells.{Spells};
ghost use Rattle.reassembly.specs.Joining.{reassembly_bits};
ghost use Rattle.sessions.specs.Receivers.{new_receiver, receiver_mode, receiver_phase, receiver_taken, receiver_previewed, receiver_idled, receiver_lapsed, receiver_due, receiver_answered};
ghost use Rattle.sessions.specs.Holds.{receiver_timed};
ghost use Rattle.sessions.specs.Reception.{receiver_fired};

use aa_receiver::AaReceiver;
use aoe_receiver::AoeReceiver;
use frag_wire::Message;
use no_ack::NoAckReceiver;
use schc_bits::{Bits, Octets};
use schc_ids::{FragMode, Note, ReceiverPhase, Side};
use std::alloc::{AllocError, Global};

/// What receives SCHC packets in fragments (RFC 8724 section 8.4).
#[derive(Drop)]
pub enum Receiver {
    /// Without answers.
    NoAck(NoAckReceiver),
    /// With an answer to each window.
    AckAlways(AaReceiver),
    /// With answers to windows that lack tiles, and to the last one.
    AckOnError(AoeReceiver),
}

impl Receiver {
    /// A receiver that keeps nothing.
    ///
    /// # Errors
    /// Want of memory.
    #[tactic(auto, unfolding(crate::specs::Receivers::new_receiver))]
    pub fn new(alloc: Global, mode: FragMode) -> Result<Receiver, AllocError>
        ensures { IfOk result (λ receiver. receiver ≡ new_receiver mode) }
    {
        let params = mode.params();
        match mode {
            FragMode::NoAck => Ok(Receiver::NoAck(NoAckReceiver::new(alloc, params)?)),
            FragMode::AckAlways => Ok(Receiver::AckAlways(AaReceiver::new(alloc, params)?)),
            FragMode::AckOnError => Ok(Receiver::AckOnError(AoeReceiver::new(alloc, params)?)),
        }
    }

    /// Where the receiver stands.
    #[tactic(auto, unfolding(crate::specs::Receivers::receiver_phase))]
    pub fn phase(&self) -> ReceiverPhase
        ensures { result ≡ receiver_phase self.now }
    {
        match self {
            Receiver::NoAck(receiver) => receiver.phase(),
            Receiver::AckAlways(receiver) => receiver.phase(),
            Receiver::AckOnError(receiver) => receiver.phase(),
        }
    }

    /// The bits that are joined, exactly where taking the message, which the bytes are, makes a check
    /// that passes.
    ///
    /// # Errors
    /// Want of memory, where there are bits to give.
    #[tactic(auto, unfolding(crate::specs::Receivers::receiver_previewed))]
    pub fn preview(
        &self,
        alloc: Global,
        message: &Message,
        bytes: &[u8],
    ) -> Result<Option<Bits>, AllocError>
        requires read { Spells (params_of (receiver_mode self.now)) Side.Fragments message.now (payload_in message.now (octets bytes.now)) bytes.now }
        ensures joined { IfOk result (λ joined. joined ≡ receiver_previewed message.now (payload_in message.now (octets bytes.now)) self.now) }
        ensures memory { OnErr result (IsSome (receiver_previewed message.now (payload_in message.now (octets bytes.now)) self.now)) }
        ensures room { IfOk result (λ joined. IfSome joined (λ bits. length bits ≤ reassembly_bits)) }
    {
        match self {
            Receiver::NoAck(receiver) => receiver.preview(alloc, message, bytes),
            Receiver::AckAlways(receiver) => receiver.preview(alloc, message, bytes),
            Receiver::AckOnError(receiver) => receiver.preview(alloc, message, bytes),
        }
    }

    /// What the message, which the bytes are, means.
    #[tactic(auto, unfolding(crate::specs::Receivers::receiver_taken))]
    pub fn take(&mut self, message: &Message, bytes: &[u8]) -> Note
        requires read { Spells (params_of (receiver_mode self.old)) Side.Fragments message.now (payload_in message.now (octets bytes.now)) bytes.now }
        ensures taken { receiver_taken message.now (payload_in message.now (octets bytes.now)) self.old ≡ (self.new, result) }
    {
        match self {
            Receiver::NoAck(receiver) => receiver.take(message, bytes),
            Receiver::AckAlways(receiver) => receiver.take(message, bytes),
            Receiver::AckOnError(receiver) => receiver.take(message, bytes),
        }
    }

    /// The inactivity timer is due.
    #[tactic(auto, unfolding(crate::specs::Receivers::receiver_idled))]
    pub fn idle(&mut self)
        ensures { self.new ≡ receiver_idled self.old }
    {
        match self {
            Receiver::NoAck(receiver) => receiver.idle(),
            Receiver::AckAlways(receiver) => receiver.idle(),
            Receiver::AckOnError(receiver) => receiver.idle(),
        }
    }

    /// The receiver has answered for long enough.
    #[tactic(auto, unfolding(crate::specs::Receivers::receiver_lapsed))]
    pub fn lapse(&mut self)
        ensures { self.new ≡ receiver_lapsed self.old }
    {
        match self {
            Receiver::NoAck(receiver) => receiver.lapse(),
            Receiver::AckAlways(receiver) => receiver.lapse(),
            Receiver::AckOnError(receiver) => receiver.lapse(),
        }
    }

    /// The bytes of the answer that is due.
    ///
    /// # Errors
    /// Want of memory; the receiver is then as before.
    #[tactic(auto, unfolding(crate::specs::Receivers::receiver_due, crate::specs::Receivers::receiver_answered))]
    pub fn answer(&mut self, alloc: Global) -> Result<Option<Octets>, AllocError>
        ensures given { IfOk result (λ given. option_map (λ bytes. bytes.items) given ≡ receiver_due self.old) }
        ensures after { OnOk result (self.new ≡ receiver_answered self.old) }
        ensures unchanged { OnErr result (self.new ≡ self.old) }
        ensures room { IfOk result (λ given. IfSome given (λ bytes. length bytes.items ≤ 9)) }
    {
        match self {
            Receiver::NoAck(_) => Ok(None),
            Receiver::AckAlways(receiver) => receiver.answer(alloc),
            Receiver::AckOnError(receiver) => receiver.answer(alloc),
        }
    }

    /// Its timer is due: the receiver gives up what it gathers, or has answered for long enough.
    #[tactic(auto, unfolding(crate::specs::Reception::receiver_fired))]
    pub fn fire(&mut self)
        ensures { self.new ≡ receiver_fired (receiver_phase self.old) self.old }
    {
        match self.phase() {
            ReceiverPhase::Empty => {}
            ReceiverPhase::Gathering => self.idle(),
            ReceiverPhase::Finished => self.lapse(),
        }
    }

    /// Whether a timer runs for it.
    pub fn is_timed(&self) -> bool
        ensures { result ≡ receiver_timed (receiver_phase self.now) }
    {
        match self.phase() {
            ReceiverPhase::Empty => false,
            ReceiverPhase::Gathering | ReceiverPhase::Finished => true,
        }
    }
}
