//! The receiver.

ghost use Rattle.std.specs.Prelude.{ℕ, ◌≡◌, ◌+◌, ◌*◌, ◌/◌, ◌^◌, ◌<◌, ◌≤◌, Bool, List, [], length, IfOk, OnOk, OnErr, IfSome, IsSome};
ghost use Rattle.std.specs.Option.{option_map};
ghost use Rattle.schc_bits.specs.Bits.{bits_value, octets};
ghost use Rattle.schc_ids.specs.declared.fragments.FragMode.TheVariants.{AckOnError};
ghost use Rattle.schc_ids.specs.declared.fragments.Side.TheVariants.{Fragments, Answers};
ghost use Rattle.schc_ids.specs.Fragments.{params_of};
ghost use Rattle.schc_ids.specs.Limits.{reassembly_bytes};
ghost use Rattle.frag_wire.specs.Layouts.{payload_in, written};
ghost use Rattle.frag_wire.specs.Spells.{Spells, CanSpell};
ghost use Rattle.tiles_bitmap.specs.Numbers.{tile_index};
ghost use Rattle.tiles_bitmap.specs.Places.{held_bits};
ghost use Rattle.aoe_receiver.specs.Machine.{kept_data, IsOfFour};
ghost use Rattle.aoe_receiver.specs.State.{IsAoeReceiver, MayJoin, empty_receiver, receiver_phase, payload_tiles};
ghost use Rattle.aoe_receiver.specs.Steps.{begun, regular_step, all1_step, ack_req_step, abort_step, other_step, last_of, taken, all1_check, ack_req_check, if_passed, previewed, idled, lapsed, named_window, window_bits, gathering_answer, due_answer, due_bytes, answered};

use crate::store::TileStore;
use frag_wire::{Message, write};
use schc_bits::{Bits, Octets};
use schc_ids::{FragParams, Note, ReceiverPhase, Side};
use std::alloc::{AllocError, Global};
use std::marker::Model;

/// An All-1 but for its tile.
#[derive(Clone, Copy, Debug, PartialEq, Eq)]
struct LastFragment {
    w: u8,
    rcs: u32,
}

/// Where a receiver stands, and what is due. The latest All-1 is kept.
#[derive(Clone, Copy, Debug, PartialEq, Eq)]
enum Stage {
    Empty {
        abort: bool,
    },
    Gathering {
        kept: Option<LastFragment>,
        answer: bool,
    },
    Finished {
        last: LastFragment,
        answer: bool,
    },
}

/// The receiver of the fragments of a session (RFC 8724 section 8.4.3.2). It keeps the tiles that
/// came and the latest All-1, and answers.
#[derive(Drop)]
pub struct AoeReceiver {
    params: FragParams,
    store: TileStore,
    stage: Stage,
}

impl Model for AoeReceiver {
    ghost use Rattle.std.specs.Prelude.{◌≡◌};
    ghost use Rattle.schc_ids.specs.declared.fragments.FragMode.TheVariants.{AckOnError};
    ghost use Rattle.schc_ids.specs.Fragments.{params_of};
    ghost use Rattle.aoe_receiver.specs.Machine.{data_of, IsStaged};
    ghost use Rattle.aoe_receiver.specs.State.{AoeReceiverData};

    ghost Value = { AoeReceiverData };

    ghost view = { λ r. data_of r.stage r.store };

    ghost invariant = { λ r. (r.params ≡ params_of AckOnError) × IsStaged r.stage r.store };
}

impl AoeReceiver {
    /// A receiver that keeps nothing, with room for the tiles of four windows.
    ///
    /// # Errors
    /// Want of memory.
    #[tactic(auto, unfolding(crate::specs::State::empty_receiver, crate::specs::State::no_tiles, crate::specs::Store::empty_store))]
    pub fn new(alloc: Global, params: FragParams) -> Result<Self, AllocError>
        requires mode { params ≡ params_of AckOnError }
        ensures { IfOk result (λ receiver. receiver ≡ empty_receiver) }
    {
        Ok(AoeReceiver {
            params,
            store: TileStore::new(alloc)?,
            stage: Stage::Empty { abort: false },
        })
    }

    /// Where the receiver stands.
    #[tactic(auto, unfolding(crate::specs::State::receiver_phase), using(crate::proofs::ReceiverLemmas::is_receiver))]
    pub fn phase(&self) -> ReceiverPhase
        ensures exact { result ≡ receiver_phase self.now }
        ensures receiver { IsAoeReceiver self.now }
    {
        self.store.stands();
        match self.stage {
            Stage::Empty { .. } => ReceiverPhase::Empty,
            Stage::Gathering { .. } => ReceiverPhase::Gathering,
            Stage::Finished { .. } => ReceiverPhase::Finished,
        }
    }

    /// The packet and its padding, as the receiver would join them, exactly where taking this message
    /// would make the check pass (RFC 8724 section 8.4.3.2). The bytes are those of the message.
    ///
    /// # Errors
    /// Want of memory, where there are such bits.
    #[tactic(auto, unfolding(crate::specs::Steps::previewed, crate::specs::Steps::check_made, crate::specs::Steps::if_passed))]
    pub fn preview(
        &self,
        alloc: Global,
        message: &Message,
        bytes: &[u8],
    ) -> Result<Option<Bits>, AllocError>
        requires spelt { Spells (params_of AckOnError) Fragments message.now (payload_in message.now (octets bytes.now)) bytes.now }
        ensures bits { IfOk result (λ bits. bits ≡ previewed message.now (payload_in message.now (octets bytes.now)) self.now) }
        ensures memory { OnErr result (IsSome (previewed message.now (payload_in message.now (octets bytes.now)) self.now)) }
        ensures kind { OnErr result (MayJoin message.now) }
        ensures room { IfOk result (λ bits. IfSome bits (λ bits. length bits ≤ 8 * reassembly_bytes)) }
    {
        match message {
            Message::All1 { w, rcs, from } => {
                self.preview_last(alloc, *w, *rcs, &bytes[*from / 8..])
            }
            Message::AckReq { .. } => self.preview_ack_req(alloc),
            Message::Regular { .. } | Message::SenderAbort => Ok(None),
            Message::Ack { .. } | Message::ReceiverAbort => Ok(None),
        }
    }

    /// Takes the message, and says what it meant (RFC 8724 section 8.4.3.2). The bytes are those of
    /// the message. It takes no memory.
    #[tactic(auto, unfolding(crate::specs::Steps::taken))]
    pub fn take(&mut self, message: &Message, bytes: &[u8]) -> Note
        requires spelt { Spells (params_of AckOnError) Fragments message.now (payload_in message.now (octets bytes.now)) bytes.now }
        ensures { taken message.now (payload_in message.now (octets bytes.now)) self.old ≡ (self.new, result) }
    {
        match message {
            Message::Regular { w, fcn, from } => {
                let place = 63 * usize::from(*w) + usize::from(62 - *fcn);
                self.take_regular(place, &bytes[*from / 8..])
            }
            Message::All1 { w, rcs, from } => self.take_last(*w, *rcs, &bytes[*from / 8..]),
            Message::AckReq { .. } => self.take_ack_req(),
            Message::SenderAbort => self.take_abort(),
            Message::Ack { .. } | Message::ReceiverAbort => self.take_other(),
        }
    }

    /// The inactivity timer is due (RFC 8724 section 8.2.2.4): what was gathered is let go, and a
    /// Receiver-Abort is due. It takes no memory.
    #[tactic(auto, unfolding(crate::specs::Steps::idled))]
    pub fn idle(&mut self)
        ensures { self.new ≡ idled self.old }
    {
        if let Stage::Gathering { .. } = self.stage {
            self.store.clear();
            self.stage = Stage::Empty { abort: true };
        }
    }

    /// The receiver has lingered: what it kept is let go. It takes no memory.
    #[tactic(auto, unfolding(crate::specs::Steps::lapsed))]
    pub fn lapse(&mut self)
        ensures { self.new ≡ lapsed self.old }
    {
        if let Stage::Finished { .. } = self.stage {
            self.store.clear();
            self.stage = Stage::Empty { abort: false };
        }
    }

    /// The bytes of the answer that is due (RFC 8724 sections 8.3.2 and 8.3.5), made from what is kept
    /// now; none where none is due. After it none is due.
    ///
    /// # Errors
    /// Want of memory, where an answer is due; it is then still due.
    #[tactic(auto, unfolding(crate::specs::Steps::due_bytes))]
    pub fn answer(&mut self, alloc: Global) -> Result<Option<Octets>, AllocError>
        ensures given { IfOk result (λ bytes. option_map (λ b. b.items) bytes ≡ due_bytes self.old) }
        ensures room { IfOk result (λ bytes. IfSome bytes (λ b. length b.items ≤ 9)) }
        ensures after { OnOk result (self.new ≡ answered self.old) }
        ensures unchanged { OnErr result (self.new ≡ self.old) }
        ensures memory { OnErr result (IsSome (due_answer self.old)) }
    {
        let bytes = match self.due_message() {
            Some(message) => Some(self.spell(alloc, &message)?),
            None => None,
        };
        self.clear_mark();
        Ok(bytes)
    }
}

impl AoeReceiver {
    /// With the first message the receiver begins to gather, and holds nothing.
    #[tactic(auto, unfolding(crate::specs::Steps::begun, crate::specs::State::no_tiles, crate::specs::Store::empty_store))]
    fn begin(&mut self)
        ensures { self.new ≡ begun self.old }
    {
        if let Stage::Empty { .. } = self.stage {
            self.stage = Stage::Gathering {
                kept: None,
                answer: false,
            };
        }
    }

    /// Takes a Regular whose first tile has this place.
    #[tactic(auto, unfolding(crate::specs::Steps::regular_step))]
    fn take_regular(&mut self, place: usize, payload: &[u8]) -> Note
        requires within { place + (length payload.now + 9) / 10 ≤ 252 }
        ensures { regular_step place (payload_tiles (octets payload.now)) (begun self.old) ≡ (self.new, result) }
    {
        self.begin();
        match self.stage {
            Stage::Gathering { .. } => {
                if self.store.keep(place, payload) {
                    Note::Stored
                } else {
                    Note::Repeat
                }
            }
            Stage::Empty { .. } | Stage::Finished { .. } => Note::Remnant,
        }
    }

    /// Takes an All-1 with this tile.
    #[tactic(auto, unfolding(crate::specs::Steps::all1_step, crate::specs::Steps::ack_req_step, crate::specs::Steps::check_step))]
    fn take_last(&mut self, w: u8, rcs: u32, tile: &[u8]) -> Note
        requires window { w < 4 }
        requires most { length tile.now ≤ 10 }
        ensures { all1_step (last_of w rcs (octets tile.now)) (begun self.old) ≡ (self.new, result) }
    {
        self.begin();
        if let Stage::Gathering { answer, .. } = self.stage {
            self.store.put_last(tile);
            let kept = Some(LastFragment { w, rcs });
            self.stage = Stage::Gathering { kept, answer };
        }
        self.ask()
    }

    /// Takes an ACK REQ.
    fn take_ack_req(&mut self) -> Note
        ensures { ack_req_step (begun self.old) ≡ (self.new, result) }
    {
        self.begin();
        self.ask()
    }

    /// An answer is due, and with an All-1 kept the check is made.
    #[tactic(auto, unfolding(crate::specs::Steps::ack_req_step, crate::specs::Steps::check_step))]
    fn ask(&mut self) -> Note
        ensures { ack_req_step self.old ≡ (self.new, result) }
    {
        match self.stage {
            Stage::Empty { .. } => Note::Remnant,
            Stage::Gathering { kept: None, .. } => {
                self.stage = Stage::Gathering {
                    kept: None,
                    answer: true,
                };
                Note::Asked
            }
            Stage::Gathering {
                kept: Some(last),
                ..
            } => {
                let answer = true;
                if self.store.last_passes(last.w, last.rcs) {
                    self.stage = Stage::Finished { last, answer };
                    Note::Joined
                } else {
                    let kept = Some(last);
                    self.stage = Stage::Gathering { kept, answer };
                    Note::CheckFailed
                }
            }
            Stage::Finished { last, .. } => {
                self.stage = Stage::Finished { last, answer: true };
                Note::Repeat
            }
        }
    }

    /// Takes a Sender-Abort.
    #[tactic(auto, unfolding(crate::specs::Steps::abort_step))]
    fn take_abort(&mut self) -> Note
        ensures { abort_step self.old ≡ (self.new, result) }
    {
        let note = match self.stage {
            Stage::Empty { .. } => Note::Remnant,
            Stage::Gathering { .. } | Stage::Finished { .. } => Note::PeerAborted,
        };
        self.store.clear();
        self.stage = Stage::Empty { abort: false };
        note
    }

    /// Takes a message that no sender sends.
    #[tactic(auto, unfolding(crate::specs::Steps::other_step))]
    fn take_other(&mut self) -> Note
        ensures { other_step self.old ≡ (self.new, result) }
    {
        if let Stage::Empty { .. } = self.stage {
            self.stage = Stage::Empty { abort: false };
        }
        Note::Remnant
    }

    /// What an All-1 with this tile would join.
    #[tactic(auto, unfolding(crate::specs::Steps::all1_check, crate::specs::Steps::begun, crate::specs::Steps::if_passed, crate::specs::Store::empty_store, crate::specs::State::no_tiles))]
    fn preview_last(
        &self,
        alloc: Global,
        w: u8,
        rcs: u32,
        tile: &[u8],
    ) -> Result<Option<Bits>, AllocError>
        requires window { w < 4 }
        requires most { length tile.now ≤ 10 }
        ensures bits { IfOk result (λ bits. bits ≡ if_passed (all1_check (last_of w rcs (octets tile.now)) (begun self.now))) }
        ensures memory { OnErr result (IsSome (if_passed (all1_check (last_of w rcs (octets tile.now)) (begun self.now)))) }
        ensures room { IfOk result (λ bits. IfSome bits (λ bits. length bits ≤ 8 * reassembly_bytes)) }
    {
        match self.stage {
            Stage::Empty { .. } | Stage::Gathering { .. } => {
                self.store.preview(alloc, w, rcs, tile)
            }
            Stage::Finished { .. } => Ok(None),
        }
    }

    /// What an ACK REQ would join.
    #[tactic(auto, unfolding(crate::specs::Steps::ack_req_check, crate::specs::Steps::begun, crate::specs::Steps::if_passed))]
    fn preview_ack_req(&self, alloc: Global) -> Result<Option<Bits>, AllocError>
        ensures bits { IfOk result (λ bits. bits ≡ if_passed (ack_req_check (begun self.now))) }
        ensures memory { OnErr result (IsSome (if_passed (ack_req_check (begun self.now)))) }
        ensures room { IfOk result (λ bits. IfSome bits (λ bits. length bits ≤ 8 * reassembly_bytes)) }
    {
        match self.stage {
            Stage::Gathering {
                kept: Some(last),
                ..
            } => self
                .store
                .preview(alloc, last.w, last.rcs, self.store.last()),
            Stage::Gathering { kept: None, .. } => Ok(None),
            Stage::Empty { .. } | Stage::Finished { .. } => Ok(None),
        }
    }

    /// The answer's bytes.
    fn spell(&self, alloc: Global, message: &Message) -> Result<Octets, AllocError>
        requires { CanSpell (params_of AckOnError) Answers message.now [] }
        ensures exact { IfOk result (λ bytes. bytes.items ≡ written (params_of AckOnError) message.now []) }
        ensures room { IfOk result (λ bytes. length bytes.items ≤ 9) }
    {
        write(
            alloc,
            &self.params,
            Side::Answers,
            message,
            &Bits::new(alloc),
        )
    }

    /// The answer that is due.
    #[tactic(auto, unfolding(crate::specs::Steps::due_answer))]
    fn due_message(&self) -> Option<Message>
        ensures value { result ≡ due_answer self.now }
        ensures spelt { IfSome result (λ message. CanSpell (params_of AckOnError) Answers message []) }
    {
        match self.stage {
            Stage::Empty { abort: true } => Some(Message::ReceiverAbort),
            Stage::Gathering { kept, answer: true } => Some(gathering_answer(&self.store, kept)),
            Stage::Finished { last, answer: true } => Some(Message::Ack {
                w: last.w,
                c: true,
                bitmap: 0,
            }),
            Stage::Empty { abort: false } => None,
            Stage::Gathering { answer: false, .. } => None,
            Stage::Finished { answer: false, .. } => None,
        }
    }

    /// No answer is due any more.
    #[tactic(auto, unfolding(crate::specs::Steps::answered))]
    fn clear_mark(&mut self)
        ensures { self.new ≡ answered self.old }
    {
        self.stage = match self.stage {
            Stage::Empty { .. } => Stage::Empty { abort: false },
            Stage::Gathering { kept, .. } => Stage::Gathering {
                kept,
                answer: false,
            },
            Stage::Finished { last, .. } => Stage::Finished {
                last,
                answer: false,
            },
        };
    }
}

/// The answer while tiles are gathered: it names the lowest window that isn't full.
#[tactic(auto, unfolding(crate::specs::Steps::gathering_answer, crate::specs::Steps::named_window))]
fn gathering_answer(store: &TileStore, kept: Option<LastFragment>) -> Message
    requires window { IsOfFour kept }
    ensures value { result ≡ gathering_answer (kept_data kept store.now.last) (held_bits store.now.tiles) }
    ensures spelt { CanSpell (params_of AckOnError) Answers result [] }
{
    let last = match kept {
        None => 3,
        Some(last) => last.w,
    };
    let w = store.open_window(last);
    Message::Ack {
        w,
        c: false,
        bitmap: window_bits(store, kept, w),
    }
}

/// The bits of the window in an answer: in the All-1's window the lowest one also stands for the
/// All-1's tile.
#[tactic(auto, unfolding(crate::specs::Steps::window_bits))]
fn window_bits(store: &TileStore, kept: Option<LastFragment>, w: u8) -> u64
    requires { w < 4 }
    ensures value { result ≡ bits_value (window_bits (kept_data kept store.now.last) w (held_bits store.now.tiles)) }
    ensures below { result < 2 ^ 63 }
{
    match kept {
        None => store.bitmap(w),
        Some(last) => {
            if w == last.w {
                store.last_bitmap(w)
            } else {
                store.bitmap(w)
            }
        }
    }
}
