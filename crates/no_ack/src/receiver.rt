//! A receiver in the No-ACK mode.

ghost use Rattle.std.specs.Prelude.{ℕ, ◌≡◌, ◌*◌, ◌≤◌, length, IsSome, IfOk, IfSome, OnErr};
ghost use Rattle.schc_ids.specs.Fragments.{params_of};
ghost use Rattle.reassembly.specs.Joining.{reassembly_bits};
ghost use Rattle.frag_wire.specs.Fragments.{MayJoin, payload_of, bits_from};
ghost use Rattle.no_ack.specs.Fragments.{IsFragment};
ghost use Rattle.no_ack.specs.ReceiverState.{IsNoAckReceiver, empty_receiver, receiver_phase};
ghost use Rattle.no_ack.specs.ReceiverSteps.{taken, tile_step, last_step, last_preview, given_up, previewed, idled, lapsed};

use frag_wire::Message;
use reassembly::Reassembly;
use schc_bits::Bits;
use schc_ids::{FragMode, FragParams, Note, ReceiverPhase, Side};
use std::alloc::{AllocError, Global};
use std::marker::Model;

/// What receives SCHC packets in the No-ACK mode, one after the other (RFC 8724 section 8.4.1).
/// Contracts see whether it gathers, and the bits that it keeps.
#[derive(Drop)]
pub struct NoAckReceiver {
    kept: Reassembly,
    gathers: bool,
}

impl Model for NoAckReceiver {
    ghost use Rattle.std.specs.Prelude.{◌≡◌, ◌≤◌, false, [], length};
    ghost use Rattle.reassembly.specs.Joining.{reassembly_bits};
    ghost use Rattle.no_ack.specs.ReceiverState.{NoAckReceiverData, seen};

    ghost Value = { NoAckReceiverData };

    ghost view = { λ r. seen r.gathers r.kept };

    ghost invariant = { λ r. (r.gathers ≡ false → r.kept ≡ []) × (length r.kept ≤ reassembly_bits) };
}

impl NoAckReceiver {
    /// A receiver that keeps nothing. It has a buffer of 2,530 bytes from the start.
    ///
    /// # Errors
    /// Want of memory.
    pub fn new(alloc: Global, params: FragParams) -> Result<Self, AllocError>
        requires row { params ≡ params_of FragMode.NoAck }
        ensures { IfOk result (λ receiver. receiver ≡ empty_receiver) }
    {
        let _ = params;
        Ok(NoAckReceiver {
            kept: Reassembly::new(alloc)?,
            gathers: false,
        })
    }

    /// Where the receiver stands. It takes no memory.
    pub fn phase(&self) -> ReceiverPhase
        ensures exact { result ≡ receiver_phase self.now }
        ensures receiver { IsNoAckReceiver self.now }
    {
        if self.gathers {
            ReceiverPhase::Gathering
        } else {
            ReceiverPhase::Empty
        }
    }

    /// The bits that are joined, exactly where taking the message, which the bytes are, makes a check
    /// that passes. It takes no memory but for an All-1.
    ///
    /// # Errors
    /// Want of memory.
    #[tactic(auto, unfolding(crate::specs::ReceiverSteps::previewed, crate::specs::ReceiverSteps::completes, crate::specs::ReceiverSteps::checked, crate::specs::ReceiverSteps::last_preview))]
    pub fn preview(
        &self,
        alloc: Global,
        message: &Message,
        bytes: &[u8],
    ) -> Result<Option<Bits>, AllocError>
        requires read { IsFragment message.now bytes.now }
        ensures joined { IfOk result (λ joined. joined ≡ previewed message.now (payload_of message.now bytes.now) self.now) }
        ensures memory { OnErr result (IsSome (previewed message.now (payload_of message.now bytes.now) self.now)) }
        ensures kind { OnErr result (MayJoin message.now) }
        ensures room { IfOk result (λ joined. IfSome joined (λ bits. length bits ≤ reassembly_bits)) }
    {
        match message {
            Message::All1 { rcs, from, .. } => self.preview_last(alloc, bytes, *from, *rcs),
            Message::Regular { .. }
            | Message::Ack { .. }
            | Message::AckReq { .. }
            | Message::SenderAbort
            | Message::ReceiverAbort => Ok(None),
        }
    }

    /// What the message, which the bytes are, means (RFC 8724 section 8.4.1.2). It takes no memory.
    #[tactic(auto, unfolding(crate::specs::ReceiverSteps::taken))]
    pub fn take(&mut self, message: &Message, bytes: &[u8]) -> Note
        requires read { IsFragment message.now bytes.now }
        ensures { taken message.now (payload_of message.now bytes.now) self.old ≡ (self.new, result) }
    {
        match message {
            Message::Regular { from, .. } => self.take_tile(bytes, *from),
            Message::All1 { rcs, from, .. } => self.take_last(bytes, *from, *rcs),
            Message::SenderAbort => self.give_up(),
            Message::Ack { .. } | Message::AckReq { .. } | Message::ReceiverAbort => Note::Remnant,
        }
    }

    /// The inactivity timer is due (RFC 8724 section 8.2.2.4): what is kept is given up. It takes no
    /// memory.
    #[tactic(auto, unfolding(crate::specs::ReceiverSteps::idled))]
    pub fn idle(&mut self)
        ensures { self.new ≡ idled self.old }
    {
        self.empty();
    }

    /// Nothing lingers in this mode, so nothing changes. It takes no memory.
    #[tactic(auto, unfolding(crate::specs::ReceiverSteps::lapsed))]
    pub fn lapse(&mut self)
        ensures { self.new ≡ lapsed self.old }
    {}
}

impl NoAckReceiver {
    /// Nothing is kept.
    fn empty(&mut self)
        ensures { self.new ≡ empty_receiver }
    {
        self.kept.clear();
        self.gathers = false;
    }

    /// A tile came, the bits of the bytes from the index `from` on.
    #[tactic(auto, unfolding(crate::specs::ReceiverSteps::tile_step, crate::specs::ReceiverSteps::stored))]
    fn take_tile(&mut self, bytes: &[u8], from: usize) -> Note
        requires within { from ≤ 8 * length bytes.now }
        ensures { tile_step self.old (bits_from from bytes.now) ≡ (self.new, result) }
    {
        if !self.kept.has_room(bytes, from) {
            self.empty();
            return Note::Overflow;
        }
        self.kept.append(bytes, from);
        self.gathers = true;
        Note::Stored
    }

    /// The last tile came, with the check of the packet.
    #[tactic(auto, unfolding(crate::specs::ReceiverSteps::last_step, crate::specs::ReceiverSteps::joined_last, crate::specs::ReceiverSteps::ended))]
    fn take_last(&mut self, bytes: &[u8], from: usize, rcs: u32) -> Note
        requires within { from ≤ 8 * length bytes.now }
        ensures { last_step self.old (bits_from from bytes.now) rcs ≡ (self.new, result) }
    {
        if !self.kept.has_room(bytes, from) {
            self.empty();
            return Note::Overflow;
        }
        let passes = self.kept.passes(bytes, from, rcs);
        self.empty();
        if passes {
            Note::Joined
        } else {
            Note::CheckFailed
        }
    }

    /// The sender gave up.
    #[tactic(auto, unfolding(crate::specs::ReceiverSteps::given_up))]
    fn give_up(&mut self) -> Note
        ensures { given_up self.old ≡ (self.new, result) }
    {
        if !self.gathers {
            return Note::Remnant;
        }
        self.empty();
        Note::PeerAborted
    }

    /// The bits that are joined, where an All-1 with this check completes them.
    #[tactic(auto, using(crate::proofs::ReceiverLemmas::room_joined), unfolding(crate::specs::ReceiverSteps::last_preview, crate::specs::ReceiverSteps::completes_last, crate::specs::ReceiverSteps::assembled))]
    fn preview_last(
        &self,
        alloc: Global,
        bytes: &[u8],
        from: usize,
        rcs: u32,
    ) -> Result<Option<Bits>, AllocError>
        requires within { from ≤ 8 * length bytes.now }
        ensures memory { OnErr result (IsSome (last_preview self.now (bits_from from bytes.now) rcs)) }
        ensures joined { IfOk result (λ joined. joined ≡ last_preview self.now (bits_from from bytes.now) rcs) }
        ensures room { IfOk result (λ joined. IfSome joined (λ bits. length bits ≤ reassembly_bits)) }
    {
        if !self.kept.has_room(bytes, from) {
            return Ok(None);
        }
        if !self.kept.passes(bytes, from, rcs) {
            return Ok(None);
        }
        Ok(Some(self.kept.joined(alloc, bytes, from)?))
    }
}
