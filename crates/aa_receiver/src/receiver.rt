//! A receiver in the ACK-Always mode.

ghost use Rattle.std.specs.Prelude.{◌≡◌, ◌≤◌, length, None, option_map, IfOk, IfSome, OnOk, OnErr, IsSome};
ghost use Rattle.schc_ids.specs.Fragments.{params_of};
ghost use Rattle.reassembly.specs.Joining.{reassembly_bits};
ghost use Rattle.frag_wire.specs.Fragments.{MayJoin, payload_of};
ghost use Rattle.aa_receiver.specs.Fragments.{IsFragment};
ghost use Rattle.aa_receiver.specs.State.{IsAaReceiver, empty_receiver, receiver_phase, received, StandsIn};
ghost use Rattle.aa_receiver.specs.Steps.{taken, previewed, idled, lapsed, due_answer, due_bytes, answered};

use crate::states::State;
use crate::steps::{after_answer, after_message, due_message, enter, preview_all1};
use frag_wire::{Message, write};
use reassembly::Reassembly;
use schc_bits::{Bits, Octets};
use schc_ids::{FragMode, FragParams, Note, ReceiverPhase, Side};
use std::alloc::{AllocError, Global};
use std::marker::Model;

/// A receiver in the ACK-Always mode (RFC 8724 section 8.4.2), which keeps the tiles of one SCHC
/// packet at a time, in a buffer of 2,530 bytes. Contracts see where it stands.
#[derive(Drop)]
pub struct AaReceiver {
    params: FragParams,
    kept: Reassembly,
    state: State,
}

impl Model for AaReceiver {
    ghost use Rattle.std.specs.Prelude.{◌≡◌, length};
    ghost use Rattle.schc_ids.specs.Fragments.{params_of};
    ghost use Rattle.schc_ids.specs.declared.fragments.FragMode.TheVariants.{AckAlways};
    ghost use Rattle.aa_receiver.specs.State.{AaReceiverData, received, StandsIn};

    ghost Value = { AaReceiverData };

    ghost view = { λ r. received r.kept r.state };

    ghost invariant = { λ r. (r.params ≡ params_of AckAlways) × StandsIn r.kept r.state };
}

impl AaReceiver {
    /// An empty receiver. This alone takes memory for what is kept.
    ///
    /// # Errors
    /// Want of memory.
    #[tactic(auto, unfolding(crate::specs::State::received))]
    pub fn new(alloc: Global, params: FragParams) -> Result<Self, AllocError>
        requires row { params ≡ params_of FragMode.AckAlways }
        ensures { IfOk result (λ receiver. receiver ≡ empty_receiver) }
    {
        Ok(AaReceiver {
            params,
            kept: Reassembly::new(alloc)?,
            state: State::Empty { abort: false },
        })
    }

    /// Where the receiver stands.
    #[tactic(auto, using(crate::proofs::ReceiverLemmas::is_receiver))]
    pub fn phase(&self) -> ReceiverPhase
        ensures exact { result ≡ receiver_phase self.now }
        ensures receiver { IsAaReceiver self.now }
    {
        self.state.phase()
    }

    /// The bits of the packet, exactly where taking the message would pass the check (RFC 8724
    /// section 8.4.2.2). The bytes are those of the message.
    ///
    /// # Errors
    /// Want of memory, where there are such bits.
    #[tactic(auto, unfolding(crate::specs::Steps::previewed))]
    pub fn preview(
        &self,
        alloc: Global,
        message: &Message,
        bytes: &[u8],
    ) -> Result<Option<Bits>, AllocError>
        requires spelt { IsFragment message.now bytes.now }
        ensures bits { IfOk result (λ bits. bits ≡ previewed message.now (payload_of message.now bytes.now) self.now) }
        ensures memory { OnErr result (IsSome (previewed message.now (payload_of message.now bytes.now) self.now)) }
        ensures kind { OnErr result (MayJoin message.now) }
        ensures room { IfOk result (λ bits. IfSome bits (λ bits. length bits ≤ reassembly_bits)) }
    {
        match message {
            Message::All1 { w, rcs, from } => {
                let state = enter(&self.kept, self.state, *w);
                preview_all1(alloc, &self.kept, state, *w, *rcs, bytes, *from)
            }
            _ => Ok(None),
        }
    }

    /// Takes the message, and says what it meant (RFC 8724 section 8.4.2.2). The bytes are those of
    /// the message. It takes no memory.
    pub fn take(&mut self, message: &Message, bytes: &[u8]) -> Note
        requires spelt { IsFragment message.now bytes.now }
        ensures { taken message.now (payload_of message.now bytes.now) self.old ≡ (self.new, result) }
    {
        let (state, note) = after_message(&mut self.kept, self.state, message, bytes);
        self.state = state;
        note
    }

    /// The inactivity timer is due (RFC 8724 section 8.2.2.4): a receiver that gathers becomes empty,
    /// and a Receiver-Abort is due. It takes no memory.
    #[tactic(auto, unfolding(crate::specs::State::received, crate::specs::Steps::idled))]
    pub fn idle(&mut self)
        ensures { self.new ≡ idled self.old }
    {
        if let State::Gathering { .. } = self.state {
            self.kept.clear();
            self.state = State::Empty { abort: true };
        }
    }

    /// A receiver that has finished becomes empty. It takes no memory.
    #[tactic(auto, unfolding(crate::specs::State::received, crate::specs::Steps::lapsed))]
    pub fn lapse(&mut self)
        ensures { self.new ≡ lapsed self.old }
    {
        if let State::Finished { .. } = self.state {
            self.kept.clear();
            self.state = State::Empty { abort: false };
        }
    }

    /// The bytes of the answer that is due (RFC 8724 sections 8.3.2 and 8.3.5), and none exactly where
    /// no answer is.
    ///
    /// # Errors
    /// Want of memory, where an answer is due; the receiver is then as before.
    pub fn answer(&mut self, alloc: Global) -> Result<Option<Octets>, AllocError>
        ensures given { IfOk result (λ given. option_map (λ bytes. bytes.items) given ≡ due_bytes self.old) }
        ensures after { OnOk result (self.new ≡ answered self.old) }
        ensures unchanged { OnErr result (self.new ≡ self.old) }
        ensures memory { OnErr result (IsSome (due_answer self.old)) }
        ensures room { IfOk result (λ given. IfSome given (λ bytes. length bytes.items ≤ 2)) }
    {
        match due_message(self.state) {
            None => Ok(None),
            Some(message) => {
                let none = Bits::new(alloc);
                let bytes = write(alloc, &self.params, Side::Answers, &message, &none)?;
                self.state = after_answer(self.state);
                Ok(Some(bytes))
            }
        }
    }
}
