//! A sender in the ACK-Always mode.

ghost use Rattle.std.specs.Prelude.{ℕ, ◌≡◌, ◌+◌, ◌-◌, ◌*◌, ◌%◌, ◌<◌, ◌≤◌, true, false, [], ◌∷◌, length, get_or, option_map, IfOk, IfErr, IfSome, OnOk, OnErr, IsSome};
ghost use Rattle.schc_ids.specs.Fragments.{params_of};
ghost use Rattle.schc_ids.specs.Limits.{IsMtu, min_cut_bits, max_session_bits};
ghost use Rattle.frag_wire.specs.Layouts.{written};
ghost use Rattle.rcs.specs.Division.{rcs_of};
ghost use Rattle.tiles_bitmap.specs.Padding.{padded_packet};
ghost use Rattle.aa_sender.specs.State.{IsAaSender, StandsIn, begun, sender_phase, tile_at, last_index};
ghost use Rattle.aa_sender.specs.Steps.{fragment_bytes, request_bytes, due_message, due_bytes, sent, heard, retried, aborted};

use crate::states::{
    AaSenderState, after_abort, after_answer, after_sending, after_timer, window_of,
};
use frag_wire::{Message, write};
use rcs::rcs;
use schc_bits::{Bits, Octets};
use schc_ids::{FragMode, FragParams, Heard, LastTile, SenderPhase, Side};
use std::alloc::{AllocError, Global};
use std::marker::Model;
use tiles_bitmap::{Cuts, cut, end_of, start_of};

/// A session that sends an SCHC packet in the ACK-Always mode (RFC 8724 section 8.4.2): a tile at a
/// time, each answered before the next one. Contracts see the parameters, the packet, and where the
/// sender stands.
#[derive(Drop)]
pub struct AaSender {
    params: FragParams,
    mtu: u16,
    bits: Bits,
    cuts: Cuts,
    state: AaSenderState,
}

impl Model for AaSender {
    ghost use Rattle.aa_sender.specs.State.{AaSenderData, IsAaSender, shown, EndAt};

    ghost Value = { AaSenderData };

    ghost view = { λ s. shown s.params s.mtu s.bits s.state };

    ghost invariant = { λ s.
        IsAaSender (shown s.params s.mtu s.bits s.state)
        × EndAt (shown s.params s.mtu s.bits s.state) s.cuts.items };
}

impl AaSender {
    /// A session that begins with these bits, in frames of at most `mtu` bytes. Where the last tile
    /// goes has no meaning in this mode: it is in the All-1.
    ///
    /// # Errors
    /// Want of memory; the bits come back.
    pub fn begin(
        alloc: Global,
        params: FragParams,
        mtu: u16,
        last: LastTile,
        bits: Bits,
    ) -> Result<Self, Bits>
        requires row { params ≡ params_of FragMode.AckAlways }
        requires in_range { IsMtu mtu }
        requires least { min_cut_bits ≤ length bits }
        requires most { length bits ≤ max_session_bits }
        ensures begun { IfOk result (λ sender. sender ≡ begun params mtu last bits) }
        ensures back { IfErr result (λ given. given ≡ bits) }
    {
        match cut(alloc, &params, mtu, bits.len()) {
            Ok(cuts) => {
                let state = AaSenderState::Sending {
                    tile: 0,
                    ack_req: false,
                    attempts: 0,
                };
                Ok(AaSender {
                    params,
                    mtu,
                    bits,
                    cuts,
                    state,
                })
            }
            Err(_) => Err(bits),
        }
    }

    /// The bits that the session was begun with. It takes no memory.
    pub fn into_bits(self) -> Bits
        ensures { result ≡ self.bits }
    {
        self.bits
    }

    /// Where the sender stands.
    pub fn phase(&self) -> SenderPhase
        ensures exact { result ≡ sender_phase self.now }
        ensures sender { IsAaSender self.now }
    {
        self.state.phase()
    }

    /// The bytes of the message that is due (RFC 8724 section 8.4.2.1), and none exactly where no
    /// message is.
    ///
    /// # Errors
    /// Want of memory, where a message is due; the sender is then as before.
    #[tactic(auto, unfolding(crate::specs::Steps::sent))]
    pub fn next(&mut self, alloc: Global) -> Result<Option<Octets>, AllocError>
        ensures given { IfOk result (λ given. option_map (λ bytes. bytes.items) given ≡ due_bytes self.old) }
        ensures after { OnOk result (self.new ≡ sent self.old) }
        ensures unchanged { OnErr result (self.new ≡ self.old) }
        ensures memory { OnErr result (IsSome (due_message self.old)) }
        ensures room { IfOk result (λ given. IfSome given (λ bytes. length bytes.items ≤ self.old.mtu)) }
    {
        let given = self.due_frame(alloc)?;
        let state = after_sending(self.state(), self.last());
        self.go(state);
        Ok(given)
    }

    /// What an answer means (RFC 8724 section 8.4.2.1). It takes no memory.
    #[tactic(auto, unfolding(crate::specs::Steps::heard))]
    pub fn answer(&mut self, message: &Message) -> Heard
        ensures { heard message.now self.old ≡ (self.new, result) }
    {
        let (state, heard) = after_answer(self.state(), self.last(), message);
        self.go(state);
        heard
    }

    /// The retransmission timer is due (RFC 8724 section 8.2.2.4). It takes no memory.
    #[tactic(auto, unfolding(crate::specs::Steps::retried))]
    pub fn due(&mut self) -> Heard
        ensures { retried self.old ≡ (self.new, result) }
    {
        let (state, heard) = after_timer(self.state(), self.last());
        self.go(state);
        heard
    }

    /// The session is given up: a Sender-Abort is due (RFC 8724 section 8.3.4). It takes no memory.
    #[tactic(auto, unfolding(crate::specs::Steps::aborted))]
    pub fn abort(&mut self) -> Heard
        ensures { aborted self.old ≡ (self.new, result) }
    {
        let (state, heard) = after_abort(self.state(), self.last());
        self.go(state);
        heard
    }
}

impl AaSender {
    /// Where the sender stands.
    fn state(&self) -> AaSenderState
        ensures state { result ≡ self.now.state }
        ensures stands { StandsIn (last_index self.now) result }
    {
        self.state
    }

    /// The index of the last tile.
    #[tactic(auto, using(crate::proofs::SenderLemmas::has_tiles))]
    fn last(&self) -> usize
        ensures { result ≡ last_index self.now }
    {
        self.cuts.len() - 1
    }

    /// The sender stands there.
    fn go(&mut self, state: AaSenderState)
        requires { StandsIn (last_index self.old) state }
        ensures { self.new ≡ record self.old { state = state } }
    {
        self.state = state;
    }
}

impl AaSender {
    /// The message that is due.
    #[tactic(auto, unfolding(crate::specs::Steps::due_message, crate::specs::Steps::due_in))]
    fn due_frame(&self, alloc: Global) -> Result<Option<Octets>, AllocError>
        ensures given { IfOk result (λ given. option_map (λ bytes. bytes.items) given ≡ due_bytes self.now) }
        ensures memory { OnErr result (IsSome (due_message self.now)) }
        ensures room { IfOk result (λ given. IfSome given (λ bytes. length bytes.items ≤ self.now.mtu)) }
    {
        match self.state() {
            AaSenderState::Sending { tile, ack_req, .. } => {
                Ok(Some(self.request(alloc, tile, ack_req)?))
            }
            AaSenderState::Closing => Ok(Some(self.sender_abort(alloc)?)),
            AaSenderState::Waiting { .. } | AaSenderState::Quiet => Ok(None),
        }
    }

    /// The fragment of the tile, or the ACK REQ of its window.
    #[tactic(auto, unfolding(crate::specs::Steps::request_of))]
    fn request(&self, alloc: Global, tile: usize, ack_req: bool) -> Result<Octets, AllocError>
        requires inside { tile ≤ last_index self.now }
        ensures exact { IfOk result (λ bytes. bytes.items ≡ request_bytes self.now tile ack_req) }
        ensures room { IfOk result (λ bytes. length bytes.items ≤ self.now.mtu) }
    {
        if ack_req {
            return self.ack_req(alloc, tile);
        }
        if tile == self.last() {
            self.all1(alloc, tile)
        } else {
            self.regular(alloc, tile)
        }
    }

    /// The ACK REQ of the tile's window.
    #[tactic(auto, using(crate::proofs::SenderLemmas::can_request, crate::proofs::SenderLemmas::room_request), unfolding(crate::specs::Steps::request_of))]
    fn ack_req(&self, alloc: Global, tile: usize) -> Result<Octets, AllocError>
        ensures exact { IfOk result (λ bytes. bytes.items ≡ request_bytes self.now tile true) }
        ensures room { IfOk result (λ bytes. length bytes.items ≤ self.now.mtu) }
    {
        let message = Message::AckReq { w: window_of(tile) };
        write(
            alloc,
            &self.params,
            Side::Fragments,
            &message,
            &Bits::new(alloc),
        )
    }

    /// The Sender-Abort.
    #[tactic(auto, using(crate::proofs::SenderLemmas::can_abort, crate::proofs::SenderLemmas::room_abort))]
    fn sender_abort(&self, alloc: Global) -> Result<Octets, AllocError>
        ensures exact { IfOk result (λ bytes. bytes.items ≡ written self.now.params Message.SenderAbort []) }
        ensures room { IfOk result (λ bytes. length bytes.items ≤ self.now.mtu) }
    {
        write(
            alloc,
            &self.params,
            Side::Fragments,
            &Message::SenderAbort,
            &Bits::new(alloc),
        )
    }
}

impl AaSender {
    /// The Regular that carries the tile, which isn't the last one.
    #[tactic(auto, using(crate::proofs::SenderLemmas::can_regular, crate::proofs::SenderLemmas::room_regular), unfolding(crate::specs::Steps::fragment_of))]
    fn regular(&self, alloc: Global, tile: usize) -> Result<Octets, AllocError>
        requires inside { tile < last_index self.now }
        ensures exact { IfOk result (λ bytes. bytes.items ≡ fragment_bytes self.now tile false) }
        ensures room { IfOk result (λ bytes. length bytes.items ≤ self.now.mtu) }
    {
        let payload = self.tile(tile)?;
        let message = Message::Regular {
            w: window_of(tile),
            fcn: 0,
            from: 2,
        };
        write(alloc, &self.params, Side::Fragments, &message, &payload)
    }

    /// The All-1, which carries the last tile.
    #[tactic(auto, using(crate::proofs::SenderLemmas::can_all1, crate::proofs::SenderLemmas::room_all1), unfolding(crate::specs::Steps::fragment_of))]
    fn all1(&self, alloc: Global, tile: usize) -> Result<Octets, AllocError>
        requires inside { tile ≡ last_index self.now }
        ensures exact { IfOk result (λ bytes. bytes.items ≡ fragment_bytes self.now tile true) }
        ensures room { IfOk result (λ bytes. length bytes.items ≤ self.now.mtu) }
    {
        let payload = self.tile(tile)?;
        let message = Message::All1 {
            w: window_of(tile),
            rcs: self.check(payload.len())?,
            from: 34,
        };
        write(alloc, &self.params, Side::Fragments, &message, &payload)
    }

    /// The reassembly check sequence of the packet and the padding of the All-1, whose tile has
    /// `size` bits (RFC 8724 section 8.2.3).
    fn check(&self, size: usize) -> Result<u32, AllocError>
        requires last { size ≡ length (tile_at self.now (last_index self.now)) }
        ensures { IfOk result (λ check. check ≡ rcs_of (padded_packet self.now.params self.now.mtu self.now.bits)) }
    {
        let mut packet = self.bits.copy()?;
        let padding = (8 - (34 + size) % 8) % 8;
        packet.push_bits(0, padding as u32)?;
        Ok(rcs(&packet))
    }

    /// The bits of the tile.
    fn tile(&self, tile: usize) -> Result<Bits, AllocError>
        requires inside { tile ≤ last_index self.now }
        ensures { IfOk result (λ bits. bits ≡ tile_at self.now tile) }
    {
        self.bits
            .slice(start_of(&self.cuts, tile), end_of(&self.cuts, tile))
    }
}
