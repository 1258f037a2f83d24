//! A sender in the No-ACK mode.

ghost use Rattle.std.specs.Prelude.{ℕ, ◌≡◌, ◌+◌, ◌-◌, ◌*◌, ◌%◌, ◌<◌, ◌≤◌, ◌==◌, ◌++◌, true, false, [], ◌∷◌, length, get_or, option_map, IfOk, IfErr, IfSome, OnOk, OnErr, IsSome};
ghost use Rattle.schc_ids.specs.Fragments.{params_of};
ghost use Rattle.schc_ids.specs.Limits.{IsMtu, min_cut_bits, max_session_bits};
ghost use Rattle.frag_wire.specs.Layouts.{written};
ghost use Rattle.rcs.specs.Division.{rcs_of};
ghost use Rattle.tiles_bitmap.specs.Padding.{padded_packet};
ghost use Rattle.no_ack.specs.SenderState.{IsNoAckSender, StandsIn, begun, sender_phase, phase_in, tile_at, last_index};
ghost use Rattle.no_ack.specs.SenderSteps.{bytes_due, fragment_of, due_message, due_bytes, due_in, sent, sent_in, aborted};

use crate::states::NoAckSenderState;
use frag_wire::{Message, write};
use rcs::rcs;
use schc_bits::{Bits, Octets};
use schc_ids::{FragMode, FragParams, Heard, LastTile, SenderPhase, Side};
use std::alloc::{AllocError, Global};
use std::marker::Model;
use tiles_bitmap::{Cuts, cut, end_of, start_of};

/// A session that sends an SCHC packet in the No-ACK mode (RFC 8724 section 8.4.1), tile after tile.
/// Contracts see the parameters, the packet, and where the sender stands.
#[derive(Drop)]
pub struct NoAckSender {
    params: FragParams,
    mtu: u16,
    bits: Bits,
    cuts: Cuts,
    state: NoAckSenderState,
}

impl Model for NoAckSender {
    ghost use Rattle.std.specs.Prelude.{◌≡◌, length};
    ghost use Rattle.tiles_bitmap.specs.Tiles.{tile_ends};
    ghost use Rattle.no_ack.specs.SenderState.{NoAckSenderData, IsNoAckSender};

    ghost Value = { NoAckSenderData };

    ghost view = { λ s. record { params = s.params; mtu = s.mtu; bits = s.bits; state = s.state } };

    ghost invariant = { λ s. IsNoAckSender (record { params = s.params; mtu = s.mtu; bits = s.bits; state = s.state }) × (s.cuts.items ≡ tile_ends s.params s.mtu (length s.bits)) };
}

impl NoAckSender {
    /// A session that begins with these bits, in frames of at most `mtu` bytes. Where the last tile
    /// goes has no meaning in this mode: it is in the All-1.
    ///
    /// # Errors
    /// Want of memory; the bits come back.
    pub fn begin(
        alloc: Global,
        params: FragParams,
        mtu: u16,
        last: LastTile,
        bits: Bits,
    ) -> Result<Self, Bits>
        requires row { params ≡ params_of FragMode.NoAck }
        requires in_range { IsMtu mtu }
        requires least { min_cut_bits ≤ length bits }
        requires most { length bits ≤ max_session_bits }
        ensures begun { IfOk result (λ sender. sender ≡ begun params mtu last bits) }
        ensures back { IfErr result (λ given. given ≡ bits) }
    {
        let _ = last;
        match cut(alloc, &params, mtu, bits.len()) {
            Ok(cuts) => Ok(NoAckSender {
                params,
                mtu,
                bits,
                cuts,
                state: NoAckSenderState::Sending(0),
            }),
            Err(_) => Err(bits),
        }
    }

    /// The bits that the session was begun with. It takes no memory.
    pub fn into_bits(self) -> Bits
        ensures { result ≡ self.bits }
    {
        self.bits
    }

    /// Where the sender stands. It takes no memory.
    pub fn phase(&self) -> SenderPhase
        ensures exact { result ≡ sender_phase self.now }
        ensures sender { IsNoAckSender self.now }
    {
        match self.state {
            NoAckSenderState::Sending(_) => SenderPhase::Sending,
            NoAckSenderState::Closing => SenderPhase::Closing,
            NoAckSenderState::Quiet => SenderPhase::Quiet,
        }
    }

    /// The bytes of the message that is due (RFC 8724 section 8.4.1.1), and none exactly where no
    /// message is.
    ///
    /// # Errors
    /// Want of memory, where a message is due; the sender is then as before.
    #[tactic(auto, unfolding(crate::specs::SenderSteps::due_message, crate::specs::SenderSteps::due_in, crate::specs::SenderSteps::sent, crate::specs::SenderSteps::sent_in))]
    pub fn next(&mut self, alloc: Global) -> Result<Option<Octets>, AllocError>
        ensures given { IfOk result (λ given. option_map (λ bytes. bytes.items) given ≡ due_bytes self.old) }
        ensures after { OnOk result (self.new ≡ sent self.old) }
        ensures unchanged { OnErr result (self.new ≡ self.old) }
        ensures memory { OnErr result (IsSome (due_message self.old)) }
        ensures room { IfOk result (λ given. IfSome given (λ bytes. length bytes.items ≤ self.old.mtu)) }
    {
        match self.state {
            NoAckSenderState::Sending(tile) => {
                let bytes = self.fragment(alloc, tile)?;
                self.pass(tile);
                Ok(Some(bytes))
            }
            NoAckSenderState::Closing => {
                let bytes = self.sender_abort(alloc)?;
                self.state = NoAckSenderState::Quiet;
                Ok(Some(bytes))
            }
            NoAckSenderState::Quiet => Ok(None),
        }
    }

    /// The session is given up: a Sender-Abort is due (RFC 8724 section 8.3.4). It takes no memory.
    #[tactic(auto, unfolding(crate::specs::SenderSteps::aborted, crate::specs::SenderSteps::aborted_in))]
    pub fn abort(&mut self) -> Heard
        ensures { aborted self.old ≡ (self.new, result) }
    {
        match self.state {
            NoAckSenderState::Sending(_) => {
                self.state = NoAckSenderState::Closing;
                Heard::Aborted
            }
            NoAckSenderState::Closing | NoAckSenderState::Quiet => Heard::Nothing,
        }
    }
}

impl NoAckSender {
    /// The index of the last tile.
    #[tactic(auto, using(crate::proofs::SenderLemmas::has_tiles))]
    fn last(&self) -> usize
        ensures { result ≡ last_index self.now }
    {
        self.cuts.len() - 1
    }

    /// The sender stands there.
    fn go(&mut self, state: NoAckSenderState)
        requires { StandsIn (last_index self.old) state }
        ensures { self.new ≡ record self.old { state = state } }
    {
        self.state = state;
    }

    /// The tile was sent.
    #[tactic(auto, unfolding(crate::specs::SenderSteps::sent_in))]
    fn pass(&mut self, tile: usize)
        requires { tile ≤ last_index self.old }
        ensures { self.new ≡ record self.old { state = sent_in (last_index self.old) (NoAckSenderState.Sending tile) } }
    {
        if tile == self.last() {
            self.go(NoAckSenderState::Quiet);
        } else {
            self.go(NoAckSenderState::Sending(tile + 1));
        }
    }

    /// The fragment of the tile.
    fn fragment(&self, alloc: Global, tile: usize) -> Result<Octets, AllocError>
        requires inside { tile ≤ last_index self.now }
        ensures exact { IfOk result (λ bytes. bytes.items ≡ bytes_due self.now.params (fragment_of self.now tile (tile == last_index self.now))) }
        ensures room { IfOk result (λ bytes. length bytes.items ≤ self.now.mtu) }
    {
        if tile == self.last() {
            self.all1(alloc, tile)
        } else {
            self.regular(alloc, tile)
        }
    }

    /// The Regular that carries the tile, which isn't the last one.
    #[tactic(auto, using(crate::proofs::SenderLemmas::can_regular, crate::proofs::SenderLemmas::room_regular), unfolding(crate::specs::SenderSteps::fragment_of))]
    fn regular(&self, alloc: Global, tile: usize) -> Result<Octets, AllocError>
        requires inside { tile < last_index self.now }
        ensures exact { IfOk result (λ bytes. bytes.items ≡ bytes_due self.now.params (fragment_of self.now tile false)) }
        ensures room { IfOk result (λ bytes. length bytes.items ≤ self.now.mtu) }
    {
        let payload = self.tile(tile)?;
        let message = Message::Regular {
            w: 0,
            fcn: 0,
            from: 1,
        };
        write(alloc, &self.params, Side::Fragments, &message, &payload)
    }

    /// The All-1, which carries the last tile.
    #[tactic(auto, using(crate::proofs::SenderLemmas::can_all1, crate::proofs::SenderLemmas::room_all1), unfolding(crate::specs::SenderSteps::fragment_of))]
    fn all1(&self, alloc: Global, tile: usize) -> Result<Octets, AllocError>
        requires inside { tile ≡ last_index self.now }
        ensures exact { IfOk result (λ bytes. bytes.items ≡ bytes_due self.now.params (fragment_of self.now tile true)) }
        ensures room { IfOk result (λ bytes. length bytes.items ≤ self.now.mtu) }
    {
        let payload = self.tile(tile)?;
        let message = Message::All1 {
            w: 0,
            rcs: self.check(payload.len())?,
            from: 33,
        };
        write(alloc, &self.params, Side::Fragments, &message, &payload)
    }

    /// The Sender-Abort.
    #[tactic(auto, using(crate::proofs::SenderLemmas::can_abort, crate::proofs::SenderLemmas::room_abort))]
    fn sender_abort(&self, alloc: Global) -> Result<Octets, AllocError>
        ensures exact { IfOk result (λ bytes. bytes.items ≡ written self.now.params Message.SenderAbort []) }
        ensures room { IfOk result (λ bytes. length bytes.items ≤ self.now.mtu) }
    {
        write(
            alloc,
            &self.params,
            Side::Fragments,
            &Message::SenderAbort,
            &Bits::new(alloc),
        )
    }

    /// The reassembly check sequence of the packet and the padding of the All-1, whose tile has
    /// `size` bits (RFC 8724 section 8.2.3).
    #[tactic(auto, using(crate::proofs::SenderLemmas::last_is, crate::proofs::SenderLemmas::padded_packet_is))]
    fn check(&self, size: usize) -> Result<u32, AllocError>
        requires last { size ≡ length (tile_at self.now (last_index self.now)) }
        ensures { IfOk result (λ check. check ≡ rcs_of (padded_packet self.now.params self.now.mtu self.now.bits)) }
    {
        let mut packet = self.bits.copy()?;
        let padding = (8 - (33 + size) % 8) % 8;
        packet.push_bits(0, padding as u32)?;
        Ok(rcs(&packet))
    }

    /// The bits of the tile.
    #[tactic(auto, using(crate::proofs::SenderLemmas::is_tile))]
    fn tile(&self, tile: usize) -> Result<Bits, AllocError>
        requires inside { tile ≤ last_index self.now }
        ensures { IfOk result (λ bits. bits ≡ tile_at self.now tile) }
    {
        self.bits
            .slice(start_of(&self.cuts, tile), end_of(&self.cuts, tile))
    }
}
