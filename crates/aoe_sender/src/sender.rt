//! The sender.

ghost use Rattle.std.specs.Prelude.{ℕ, ◌≡◌, ◌+◌, ◌-◌, ◌*◌, ◌/◌, ◌^◌, ◌==◌, ◌<◌, ◌≤◌, nat_lt, [], length, take, drop, IfOk, IfErr, IsOk, OnOk, OnErr, IfSome, IsSome, option_map};
ghost use Rattle.schc_ids.specs.declared.fragments.FragMode.TheVariants.{AckOnError};
ghost use Rattle.schc_ids.specs.Fragments.{params_of};
ghost use Rattle.schc_ids.specs.Limits.{IsMtu, min_cut_bits, max_session_bits};
ghost use Rattle.frag_wire.specs.declared.message.Message.TheVariants.{Ack, ReceiverAbort, SenderAbort};
ghost use Rattle.frag_wire.specs.Layouts.{written};
ghost use Rattle.schc_bits.specs.Bits.{number_bits};
ghost use Rattle.aoe_sender.specs.Tiles.{in_regulars, regular_count, last_window, most_tiles};
ghost use Rattle.aoe_sender.specs.Steps.{begun, regular, all1, all1_came, due_message, due_bytes, sent, moves, confirmed, asked_last, asked, heard, retried, aborted, sender_phase, IsAnswer, IsStateOf, IsAoeSender};
ghost use Rattle.aoe_sender.specs.State.{Sending};
ghost use Rattle.schc_ids.specs.declared.notes.Heard.TheVariants.{Counted};

use crate::to_send::{ToSend, WINDOW};
use frag_wire::{Message, write};
use rcs::rcs;
use schc_bits::{Bits, Octets};
use schc_ids::limits::MAX_ACK_REQUESTS;
use schc_ids::{FragParams, Heard, LastTile, SenderPhase, Side};
use std::alloc::{AllocError, Global};
use std::marker::Model;
use tiles_bitmap::tile_number;

/// The bits of a tile that isn't the last.
const TILE: usize = 80;

/// Where a sender stands. The numbers to send, which only Sending has, stand beside it.
#[derive(Clone, Copy, Debug, PartialEq, Eq)]
enum Stage {
    /// A fragment is due; so many All-1s were sent since an answer counted.
    Sending(u8),
    /// The All-1 was sent, and so many since an answer counted.
    Waiting(u8),
    /// A Sender-Abort is due.
    Closing,
    /// The session has ended.
    Quiet,
}

/// A sender of fragments in the ACK-on-Error mode (RFC 8724 section 8.4.3.1). Contracts see what it
/// was begun with and where it stands.
#[derive(Drop)]
pub struct AoeSender {
    params: FragParams,
    mtu: u16,
    last: LastTile,
    bits: Bits,
    numbers: ToSend,
    stage: Stage,
}

impl Model for AoeSender {
    ghost use Rattle.aoe_sender.specs.State.{AoeSenderData};
    ghost use Rattle.aoe_sender.specs.Steps.{IsAoeSender};
    ghost use Rattle.aoe_sender.specs.Stages.{state_of};

    ghost Value = { AoeSenderData };

    ghost view = { λ s. record { params = s.params; mtu = s.mtu; last = s.last; bits = s.bits; state = state_of s.numbers s.stage } };

    ghost invariant = { λ s. IsAoeSender (record { params = s.params; mtu = s.mtu; last = s.last; bits = s.bits; state = state_of s.numbers s.stage }) };
}

impl AoeSender {
    /// A sender of the SCHC packet, in frames of at most `mtu` bytes. All its tiles are to be sent;
    /// the last one goes in the All-1 or in a Regular.
    ///
    /// # Errors
    /// None arises, since nothing is allocated; the bits would come back.
    pub fn begin(
        _alloc: Global,
        params: FragParams,
        mtu: u16,
        last: LastTile,
        bits: Bits,
    ) -> Result<AoeSender, Bits>
        requires row { params ≡ params_of AckOnError }
        requires mtu { IsMtu mtu }
        requires least { min_cut_bits ≤ length bits }
        requires most { length bits ≤ max_session_bits }
        ensures begun { IfOk result (λ sender. sender ≡ begun params mtu last bits) }
        ensures sound { IfOk result (λ sender. IsAoeSender sender) }
        ensures back { IfErr result (λ back. back ≡ bits) }
        ensures always { IsOk result }
    {
        let numbers = ToSend::all(tiles_in_regulars(last, bits.len()));
        Ok(AoeSender {
            params,
            mtu,
            last,
            bits,
            numbers,
            stage: Stage::Sending(0),
        })
    }

    /// The SCHC packet. It takes no memory.
    pub fn into_bits(self) -> Bits
        ensures { result ≡ self.bits }
    {
        self.bits
    }

    /// Where the sender stands. It takes no memory.
    #[tactic(auto, unfolding(crate::specs::Steps::sender_phase, crate::specs::Steps::phase_in))]
    pub fn phase(&self) -> SenderPhase
        ensures phase { result ≡ sender_phase self.now }
        ensures sound { IsAoeSender self.now }
    {
        match self.stage {
            Stage::Sending(_) => SenderPhase::Sending,
            Stage::Waiting(_) => SenderPhase::Waiting,
            Stage::Closing => SenderPhase::Closing,
            Stage::Quiet => SenderPhase::Quiet,
        }
    }

    /// The bytes of the message that is due, and none exactly where none is due: in Sending a
    /// Regular from the lowest number that is to be sent (RFC 8724 section 8.3.1.1), or the All-1
    /// where none is, after which the sender waits; in Closing a Sender-Abort.
    ///
    /// # Errors
    /// Want of memory, where a message is due; the sender is then as before.
    #[tactic(auto, unfolding(crate::specs::Steps::due_bytes, crate::specs::Steps::due_message, crate::specs::Steps::due_in, crate::specs::Steps::sent, crate::specs::Steps::sent_in, crate::specs::Steps::run_after))]
    pub fn next(&mut self, alloc: Global) -> Result<Option<Octets>, AllocError>
        ensures given { IfOk result (λ given. option_map (λ bytes. bytes.items) given ≡ due_bytes self.old) }
        ensures after { OnOk result (self.new ≡ sent self.old) }
        ensures room { IfOk result (λ given. IfSome given (λ bytes. length bytes.items ≤ self.old.mtu)) }
        ensures unchanged { OnErr result (self.new ≡ self.old) }
        ensures memory { OnErr result (IsSome (due_message self.old)) }
        ensures sound { IsAoeSender self.new }
    {
        match self.stage {
            Stage::Sending(attempts) => {
                if let Some((run, rest)) = self
                    .numbers
                    .first_run(usize::from(self.mtu - 1) / 10 - 1)
                {
                    let bytes = self.regular(alloc, run.first, run.more)?;
                    self.numbers = rest;
                    return Ok(Some(bytes));
                }
                let bytes = self.all1(alloc)?;
                self.stage = Stage::Waiting(attempts + 1);
                Ok(Some(bytes))
            }
            Stage::Closing => {
                let bytes = self.sender_abort(alloc)?;
                self.stage = Stage::Quiet;
                Ok(Some(bytes))
            }
            Stage::Waiting(_) | Stage::Quiet => Ok(None),
        }
    }

    /// What an answer means to the sender (RFC 8724 section 8.4.3.1), and what it does then. It takes
    /// no memory.
    #[tactic(auto, unfolding(crate::specs::Steps::heard, crate::specs::Steps::heard_in, crate::specs::Steps::stays))]
    pub fn answer(&mut self, message: &Message) -> Heard
        requires { IsAnswer self.old.params message.now }
        ensures step { heard message.now self.old ≡ (self.new, result) }
        ensures sound { IsAoeSender self.new }
    {
        match message {
            Message::Ack { w, c, bitmap } => self.acked(*w, *c, *bitmap),
            Message::ReceiverAbort => self.peer_aborted(),
            Message::Regular { .. }
            | Message::All1 { .. }
            | Message::AckReq { .. }
            | Message::SenderAbort => Heard::Nothing,
        }
    }

    /// The retransmission timer is due: the All-1 is due again, or after eight of them a
    /// Sender-Abort (RFC 8724 section 8.4.3.1). In another state than Waiting nothing changes. It
    /// takes no memory.
    #[tactic(auto, unfolding(crate::specs::Steps::retried, crate::specs::Steps::retried_in, crate::specs::Steps::repeated, crate::specs::Steps::moves, crate::specs::Steps::stays))]
    pub fn due(&mut self) -> Heard
        ensures step { retried self.old ≡ (self.new, result) }
        ensures sound { IsAoeSender self.new }
    {
        match self.stage {
            Stage::Waiting(attempts) => {
                if attempts < MAX_ACK_REQUESTS {
                    self.numbers = ToSend::none();
                    self.stage = Stage::Sending(attempts);
                    Heard::Counted
                } else {
                    self.stage = Stage::Closing;
                    Heard::Spent
                }
            }
            Stage::Sending(_) | Stage::Closing | Stage::Quiet => Heard::Nothing,
        }
    }

    /// The sender gives up: a Sender-Abort is due (RFC 8724 section 8.3.4). In Closing and Quiet
    /// nothing changes. It takes no memory.
    #[tactic(auto, unfolding(crate::specs::Steps::aborted, crate::specs::Steps::aborted_in, crate::specs::Steps::moves, crate::specs::Steps::stays))]
    pub fn abort(&mut self) -> Heard
        ensures step { aborted self.old ≡ (self.new, result) }
        ensures sound { IsAoeSender self.new }
    {
        match self.stage {
            Stage::Sending(_) | Stage::Waiting(_) => {
                self.stage = Stage::Closing;
                Heard::Aborted
            }
            Stage::Closing | Stage::Quiet => Heard::Nothing,
        }
    }
}

impl AoeSender {
    /// The bytes of the Regular with the tile of this number and so many more.
    fn regular(&self, alloc: Global, first: usize, more: usize) -> Result<Octets, AllocError>
        requires { first + more < regular_count self.now }
        ensures exact { IfOk result (λ bytes. bytes.items ≡ written self.now.params (regular self.now first more).0 (regular self.now first more).1) }
        ensures room { IfOk result (λ bytes. length bytes.items ≤ 1 + 10 * (1 + more)) }
    {
        let number = tile_number(&self.params, first);
        let payload = tiles_from(alloc, &self.bits, first, 1 + more)?;
        let message = Message::Regular {
            w: number.w,
            fcn: number.fcn,
            from: 8,
        };
        write(alloc, &self.params, Side::Fragments, &message, &payload)
    }

    /// The bytes of the All-1.
    fn all1(&self, alloc: Global) -> Result<Octets, AllocError>
        ensures exact { IfOk result (λ bytes. bytes.items ≡ written self.now.params (all1 self.now).0 (all1 self.now).1) }
        ensures room { IfOk result (λ bytes. length bytes.items ≤ 15) }
    {
        let count = tiles_in_regulars(self.last, self.bits.len());
        let payload = tiles_from(alloc, &self.bits, count, 1)?;
        let message = Message::All1 {
            w: self.last_window(),
            rcs: rcs(&self.bits),
            from: 40,
        };
        write(alloc, &self.params, Side::Fragments, &message, &payload)
    }

    /// The bytes of a Sender-Abort.
    fn sender_abort(&self, alloc: Global) -> Result<Octets, AllocError>
        ensures exact { IfOk result (λ bytes. bytes.items ≡ written self.now.params SenderAbort []) }
        ensures room { IfOk result (λ bytes. length bytes.items ≤ 15) }
    {
        let none = Bits::new(alloc);
        write(
            alloc,
            &self.params,
            Side::Fragments,
            &Message::SenderAbort,
            &none,
        )
    }

    /// What an ACK means.
    #[tactic(auto, unfolding(crate::specs::Steps::heard, crate::specs::Steps::heard_in, crate::specs::Steps::acked, crate::specs::Steps::stays))]
    fn acked(&mut self, w: u8, c: bool, bitmap: u64) -> Heard
        requires window { w < 4 }
        requires fits { bitmap < 2 ^ 63 }
        ensures step { heard (Ack w c bitmap) self.old ≡ (self.new, result) }
        ensures sound { IsAoeSender self.new }
    {
        match self.stage {
            Stage::Waiting(_) => {
                if c {
                    self.confirmed(w)
                } else {
                    self.asked(w, bitmap)
                }
            }
            Stage::Sending(_) | Stage::Closing | Stage::Quiet => Heard::Nothing,
        }
    }

    /// What a Receiver-Abort means.
    #[tactic(auto, unfolding(crate::specs::Steps::heard, crate::specs::Steps::heard_in, crate::specs::Steps::moves, crate::specs::Steps::stays))]
    fn peer_aborted(&mut self) -> Heard
        ensures step { heard ReceiverAbort self.old ≡ (self.new, result) }
        ensures sound { IsAoeSender self.new }
    {
        match self.stage {
            Stage::Sending(_) | Stage::Waiting(_) => {
                self.stage = Stage::Quiet;
                Heard::PeerAborted
            }
            Stage::Closing | Stage::Quiet => Heard::Nothing,
        }
    }

    /// What an answer means, about this window, that the check passed.
    #[tactic(auto, unfolding(crate::specs::Steps::confirmed, crate::specs::Steps::moves, crate::specs::Steps::stays))]
    fn confirmed(&mut self, w: u8) -> Heard
        ensures step { confirmed self.old (w == last_window self.old) ≡ (self.new, result) }
        ensures sound { IsAoeSender self.new }
    {
        if w == self.last_window() {
            self.stage = Stage::Quiet;
            Heard::Delivered
        } else {
            Heard::Nothing
        }
    }

    /// What an answer means, about this window, that the check didn't pass.
    #[tactic(auto, unfolding(crate::specs::Steps::asked, crate::specs::Steps::stays))]
    fn asked(&mut self, w: u8, bitmap: u64) -> Heard
        requires window { w < 4 }
        requires fits { bitmap < 2 ^ 63 }
        ensures step { asked self.old w (number_bits 63 bitmap) (w == last_window self.old) (nat_lt w (last_window self.old)) ≡ (self.new, result) }
        ensures sound { IsAoeSender self.new }
    {
        let last = self.last_window();
        if w > last {
            return Heard::Nothing;
        }
        let numbers = ToSend::missing(w, bitmap, tiles_in_regulars(self.last, self.bits.len()));
        if w == last {
            self.asked_last(numbers, bitmap)
        } else {
            self.send_again(numbers)
        }
    }

    /// What an answer means, about the last window, in which these numbers are missing.
    #[tactic(auto, unfolding(crate::specs::Steps::asked_last, crate::specs::Steps::moves))]
    fn asked_last(&mut self, numbers: ToSend, bitmap: u64) -> Heard
        requires { IsStateOf (regular_count self.old) (Sending numbers 0) }
        ensures step { asked_last self.old numbers (all1_came self.old.last (number_bits 63 bitmap)) ≡ (self.new, result) }
        ensures sound { IsAoeSender self.new }
    {
        if numbers.is_empty() && all1_came(self.last, bitmap) {
            self.stage = Stage::Closing;
            return Heard::NeverPasses;
        }
        self.send_again(numbers)
    }

    /// The tiles with these numbers, and then the All-1, are sent again.
    #[tactic(auto, unfolding(crate::specs::Steps::moves))]
    fn send_again(&mut self, numbers: ToSend) -> Heard
        requires { IsStateOf (regular_count self.old) (Sending numbers 0) }
        ensures step { moves self.old (Sending numbers 0) Counted ≡ (self.new, result) }
        ensures sound { IsAoeSender self.new }
    {
        self.numbers = numbers;
        self.stage = Stage::Sending(0);
        Heard::Counted
    }

    /// The window of the last tile.
    fn last_window(&self) -> u8
        ensures value { result ≡ last_window self.now }
        ensures below { result < 4 }
    {
        ((tiles(self.bits.len()) - 1) / WINDOW) as u8
    }
}

/// The bits of so many tiles, from the one with the number `first` on, as far as there are bits.
fn tiles_from(alloc: Global, bits: &Bits, first: usize, count: usize) -> Result<Bits, AllocError>
    requires first { first ≤ 252 }
    requires count { count ≤ 252 }
    ensures part { IfOk result (λ part. part ≡ take (80 * count) (drop (80 * first) bits.now)) }
    ensures short { IfOk result (λ part. length part ≤ 80 * count) }
{
    let rest = bits.as_part().after(bits.len().min(TILE * first));
    rest.front(rest.len().min(TILE * count)).to_bits(alloc)
}

/// Whether the tile in the All-1 came, or there is none, by the bitmap of the last window.
#[tactic(auto, unfolding(crate::specs::Steps::all1_came))]
fn all1_came(last: LastTile, bitmap: u64) -> bool
    ensures { result ≡ all1_came last (number_bits 63 bitmap) }
{
    match last {
        LastTile::InAll1 => bitmap % 2 == 1,
        LastTile::InRegular => true,
    }
}

/// How many tiles an SCHC packet of so many bits has.
fn tiles(len: usize) -> usize
    requires least { 96 ≤ len }
    requires most { len ≤ 20160 }
    ensures { result ≡ (len + 79) / 80 }
{
    (len - 1) / TILE + 1
}

/// How many of them go in Regulars.
fn tiles_in_regulars(last: LastTile, len: usize) -> usize
    requires least { 96 ≤ len }
    requires most { len ≤ 20160 }
    ensures value { result ≡ in_regulars last ((len + 79) / 80) }
    ensures most { result ≤ 252 }
{
    match last {
        LastTile::InAll1 => tiles(len) - 1,
        LastTile::InRegular => tiles(len),
    }
}
