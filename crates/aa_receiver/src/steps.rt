//! What a receiver does with each message, and what it answers.

ghost use Rattle.std.specs.Prelude.{ℕ, ◌≡◌, ◌+◌, ◌*◌, ◌%◌, ◌^◌, ◌==◌, ◌<◌, ◌≤◌, Bool, true, false, List, [], length, Some, IfOk, IfSome, OnErr, IsSome};
ghost use Rattle.reassembly.specs.Joining.{reassembly_bits, has_room, passes};
ghost use Rattle.frag_wire.specs.Fragments.{payload_of, bits_from};
ghost use Rattle.aa_receiver.specs.Fragments.{IsFragment};
ghost use Rattle.aa_receiver.specs.State.{received, IsDue, StandsIn};
ghost use Rattle.aa_receiver.specs.Steps.{taken, checked_part, all1_check, passed, due_answer, answered, open_window, entered, regular_step, all1_step, ack_req_step, abort_step, other_step, next_tile, before, last_tile, finished_step};

use crate::states::{State, TileAnswer};
use frag_wire::Message;
use reassembly::Reassembly;
use schc_bits::Bits;
use schc_ids::Note;
use std::alloc::{AllocError, Global};

/// After the message, whose bytes these are.
#[tactic(auto, unfolding(crate::specs::Steps::taken))]
pub(crate) fn after_message(
    kept: &mut Reassembly,
    state: State,
    message: &Message,
    bytes: &[u8],
) -> (State, Note)
    requires stands { StandsIn kept.old state }
    requires spelt { IsFragment message.now bytes.now }
    ensures exact { taken message.now (payload_of message.now bytes.now) (received kept.old state)
        ≡ (received kept.new result.0, result.1) }
    ensures stands { StandsIn kept.new result.0 }
{
    match message {
        Message::Regular { w, from, .. } => {
            after_regular(kept, enter(kept, state, *w), *w, bytes, *from)
        }
        Message::All1 { w, rcs, from } => {
            after_all1(kept, enter(kept, state, *w), *w, *rcs, bytes, *from)
        }
        Message::AckReq { w } => after_ack_req(kept, enter(kept, state, *w), *w),
        Message::SenderAbort => after_sender_abort(kept, state),
        Message::Ack { .. } | Message::ReceiverAbort => after_other(kept, state),
    }
}

/// The bits that are kept and those of the last tile, exactly where taking the All-1 would pass the
/// check.
#[tactic(auto, unfolding(crate::specs::State::received, crate::specs::Steps::all1_check, crate::specs::Steps::passed))]
pub(crate) fn preview_all1(
    alloc: Global,
    kept: &Reassembly,
    state: State,
    w: u8,
    rcs: u32,
    bytes: &[u8],
    from: usize,
) -> Result<Option<Bits>, AllocError>
    requires stands { StandsIn kept.now state }
    requires payload { from ≤ 8 * length bytes.now }
    ensures bits { IfOk result (λ bits. bits ≡ passed rcs (all1_check w (bits_from from bytes.now) (received kept.now state))) }
    ensures memory { OnErr result (IsSome (passed rcs (all1_check w (bits_from from bytes.now) (received kept.now state)))) }
    ensures room { IfOk result (λ bits. IfSome bits (λ bits. length bits ≤ reassembly_bits)) }
{
    match state {
        State::Gathering { count, .. } => {
            if w == open_window(count) {
                preview_last(alloc, kept, rcs, bytes, from)
            } else {
                Ok(None)
            }
        }
        State::Empty { .. } | State::Finished { .. } => Ok(None),
    }
}

/// The bits that are kept and those of the last tile, of the open window, where there is room and
/// they pass the check.
#[tactic(auto, using(crate::proofs::StepLemmas::room_more), unfolding(crate::specs::Steps::passed, crate::specs::Steps::checked_part, reassembly::specs::Joining::passes))]
fn preview_last(
    alloc: Global,
    kept: &Reassembly,
    rcs: u32,
    bytes: &[u8],
    from: usize,
) -> Result<Option<Bits>, AllocError>
    requires payload { from ≤ 8 * length bytes.now }
    ensures bits { IfOk result (λ bits. bits ≡ passed rcs (checked_part kept.now (bits_from from bytes.now))) }
    ensures memory { OnErr result (IsSome (passed rcs (checked_part kept.now (bits_from from bytes.now)))) }
    ensures room { IfOk result (λ bits. IfSome bits (λ bits. length bits ≤ reassembly_bits)) }
{
    if !kept.has_room(bytes, from) {
        return Ok(None);
    }
    if !kept.passes(bytes, from, rcs) {
        return Ok(None);
    }
    let bits = kept.joined(alloc, bytes, from)?;
    Ok(Some(bits))
}

/// The answer that is due.
#[tactic(auto, unfolding(crate::specs::State::received, crate::specs::Steps::due_answer))]
pub(crate) fn due_message(state: State) -> Option<Message>
    ensures { (bits : List Bool) → result ≡ due_answer (received bits state) }
{
    match state {
        State::Empty { abort: true } => Some(Message::ReceiverAbort),
        State::Gathering {
            answer: Some(answer),
            ..
        } => Some(Message::Ack {
            w: answer.w,
            c: false,
            bitmap: u64::from(answer.came),
        }),
        State::Finished { w, answer: true } => Some(Message::Ack {
            w,
            c: true,
            bitmap: 0,
        }),
        _ => None,
    }
}

/// After the answer that is due was given.
#[tactic(auto, unfolding(crate::specs::State::received, crate::specs::Steps::answered))]
pub(crate) fn after_answer(state: State) -> State
    ensures exact { (bits : List Bool) → received bits result ≡ answered (received bits state) }
    ensures stands { (bits : List Bool) → StandsIn bits state → StandsIn bits result }
{
    match state {
        State::Empty { .. } => State::Empty { abort: false },
        State::Gathering { count, .. } => State::Gathering {
            count,
            answer: None,
        },
        State::Finished { w, .. } => State::Finished { w, answer: false },
    }
}

/// The window of the next tile, where so many are kept.
fn open_window(count: u32) -> u8
    ensures value { result ≡ open_window count }
    ensures below { result ≤ 1 }
{
    (count % 2) as u8
}

/// Nothing is kept any more.
fn empty(kept: &mut Reassembly, abort: bool) -> State
    ensures state { result ≡ State.Empty abort }
    ensures nothing { kept.new ≡ [] }
{
    kept.clear();
    State::Empty { abort }
}

/// The parts need more room than there is: nothing is kept, and a Receiver-Abort is due.
fn overflow(kept: &mut Reassembly) -> (State, Note)
    ensures exact { result ≡ (State.Empty true, Note.Overflow) }
    ensures nothing { kept.new ≡ [] }
{
    (empty(kept, true), Note::Overflow)
}

/// An empty receiver begins with a message of window 0. At one of another window it stays empty, and
/// no abort is due any more.
#[tactic(auto, unfolding(crate::specs::State::received, crate::specs::Steps::entered))]
pub(crate) fn enter(kept: &Reassembly, state: State, w: u8) -> State
    requires stands { StandsIn kept.now state }
    ensures exact { received kept.now result ≡ entered w (received kept.now state) }
    ensures stands { StandsIn kept.now result }
{
    let State::Empty { .. } = state else {
        return state;
    };
    if w != 0 {
        return State::Empty { abort: false };
    }
    State::Gathering {
        count: 0,
        answer: None,
    }
}

/// A Regular.
#[tactic(auto, unfolding(crate::specs::State::received, crate::specs::Steps::regular_step))]
fn after_regular(
    kept: &mut Reassembly,
    state: State,
    w: u8,
    bytes: &[u8],
    from: usize,
) -> (State, Note)
    requires stands { StandsIn kept.old state }
    requires window { w ≤ 1 }
    requires payload { from < 8 * length bytes.now }
    ensures exact { regular_step w (bits_from from bytes.now) (received kept.old state)
        ≡ (received kept.new result.0, result.1) }
    ensures stands { StandsIn kept.new result.0 }
{
    match state {
        State::Gathering { count, answer } => {
            if w == open_window(count) {
                keep_tile(kept, count, w, bytes, from)
            } else {
                before(count, answer, w, Note::Repeat)
            }
        }
        State::Empty { .. } | State::Finished { .. } => (state, Note::Remnant),
    }
}

/// Keeps the tile of the open window, where there is room.
#[tactic(auto, using(crate::proofs::StepLemmas::count_more, crate::proofs::StepLemmas::room_more), unfolding(crate::specs::State::received, crate::specs::Steps::next_tile, reassembly::specs::Joining::has_room))]
fn keep_tile(kept: &mut Reassembly, count: u32, w: u8, bytes: &[u8], from: usize) -> (State, Note)
    requires count { count ≤ length kept.old }
    requires window { w ≤ 1 }
    requires payload { from < 8 * length bytes.now }
    ensures exact { next_tile kept.old count w (bits_from from bytes.now) (has_room kept.old (bits_from from bytes.now))
        ≡ (received kept.new result.0, result.1) }
    ensures stands { StandsIn kept.new result.0 }
{
    if !kept.has_room(bytes, from) {
        return overflow(kept);
    }
    kept.append(bytes, from);
    (gathering(count + 1, w, true), Note::Stored)
}

/// Tiles are kept, and an answer on a tile is due.
fn gathering(count: u32, w: u8, came: bool) -> State
    ensures { result ≡ State.Gathering count (Some (record { w = w; came = came })) }
{
    State::Gathering {
        count,
        answer: Some(TileAnswer { w, came }),
    }
}

/// A message of the window before the open one, which means this where there is such a window.
#[tactic(auto, unfolding(crate::specs::State::received, crate::specs::Steps::before))]
fn before(count: u32, answer: Option<TileAnswer>, w: u8, meaning: Note) -> (State, Note)
    requires window { w ≤ 1 }
    requires due { IsDue answer }
    ensures exact { (kept : List Bool) →
        before kept count answer w meaning (count == 0) ≡ (received kept result.0, result.1) }
    ensures stands { (kept : List Bool) → count ≤ length kept → length kept ≤ reassembly_bits → StandsIn kept result.0 }
{
    if count == 0 {
        (State::Gathering { count, answer }, Note::Remnant)
    } else {
        (gathering(count, w, true), meaning)
    }
}

/// An All-1.
#[tactic(auto, unfolding(crate::specs::State::received, crate::specs::Steps::all1_step))]
fn after_all1(
    kept: &mut Reassembly,
    state: State,
    w: u8,
    rcs: u32,
    bytes: &[u8],
    from: usize,
) -> (State, Note)
    requires stands { StandsIn kept.old state }
    requires window { w ≤ 1 }
    requires payload { from ≤ 8 * length bytes.now }
    ensures exact { all1_step w rcs (bits_from from bytes.now) (received kept.old state)
        ≡ (received kept.new result.0, result.1) }
    ensures stands { StandsIn kept.new result.0 }
{
    match state {
        State::Empty { .. } => (state, Note::Remnant),
        State::Gathering { count, answer } => {
            if w == open_window(count) {
                check_last(kept, count, w, rcs, bytes, from)
            } else {
                (State::Gathering { count, answer }, Note::Remnant)
            }
        }
        State::Finished { w: last, answer } => again(last, answer, w),
    }
}

/// Makes the check with the last tile, of the open window, where there is room.
#[tactic(auto, unfolding(crate::specs::State::received, crate::specs::Steps::last_tile))]
fn check_last(
    kept: &mut Reassembly,
    count: u32,
    w: u8,
    rcs: u32,
    bytes: &[u8],
    from: usize,
) -> (State, Note)
    requires count { count ≤ length kept.old }
    requires room { length kept.old ≤ reassembly_bits }
    requires window { w ≤ 1 }
    requires payload { from ≤ 8 * length bytes.now }
    ensures exact { last_tile kept.old count w
        (has_room kept.old (bits_from from bytes.now))
        (passes kept.old (bits_from from bytes.now) rcs)
        ≡ (received kept.new result.0, result.1) }
    ensures stands { StandsIn kept.new result.0 }
{
    if !kept.has_room(bytes, from) {
        return overflow(kept);
    }
    if kept.passes(bytes, from, rcs) {
        (State::Finished { w, answer: true }, Note::Joined)
    } else {
        (gathering(count, w, true), Note::CheckFailed)
    }
}

/// A message after the check has passed.
#[tactic(auto, unfolding(crate::specs::State::received, crate::specs::Steps::finished_step))]
fn again(last: u8, answer: bool, w: u8) -> (State, Note)
    requires window { last ≤ 1 }
    ensures exact { (kept : List Bool) → finished_step w last answer ≡ (received kept result.0, result.1) }
    ensures stands { (kept : List Bool) → StandsIn kept result.0 }
{
    if w == last {
        (
            State::Finished {
                w: last,
                answer: true,
            },
            Note::Repeat,
        )
    } else {
        (State::Finished { w: last, answer }, Note::Remnant)
    }
}

/// An ACK REQ.
#[tactic(auto, unfolding(crate::specs::State::received, crate::specs::Steps::ack_req_step))]
fn after_ack_req(kept: &Reassembly, state: State, w: u8) -> (State, Note)
    requires stands { StandsIn kept.now state }
    requires window { w ≤ 1 }
    ensures exact { ack_req_step w (received kept.now state) ≡ (received kept.now result.0, result.1) }
    ensures stands { StandsIn kept.now result.0 }
{
    match state {
        State::Empty { .. } => (state, Note::Remnant),
        State::Gathering { count, answer } => {
            if w == open_window(count) {
                (gathering(count, w, false), Note::Asked)
            } else {
                before(count, answer, w, Note::Asked)
            }
        }
        State::Finished { w: last, answer } => again(last, answer, w),
    }
}

/// A Sender-Abort.
#[tactic(auto, unfolding(crate::specs::State::received, crate::specs::Steps::abort_step))]
fn after_sender_abort(kept: &mut Reassembly, state: State) -> (State, Note)
    ensures exact { abort_step (received kept.old state) ≡ (received kept.new result.0, result.1) }
    ensures stands { StandsIn kept.new result.0 }
{
    match state {
        State::Empty { .. } => (empty(kept, false), Note::Remnant),
        State::Gathering { .. } | State::Finished { .. } => (empty(kept, false), Note::PeerAborted),
    }
}

/// A message that no sender sends.
#[tactic(auto, unfolding(crate::specs::State::received, crate::specs::Steps::other_step))]
fn after_other(kept: &Reassembly, state: State) -> (State, Note)
    requires stands { StandsIn kept.now state }
    ensures exact { other_step (received kept.now state) ≡ (received kept.now result.0, result.1) }
    ensures stands { StandsIn kept.now result.0 }
{
    match state {
        State::Empty { .. } => (State::Empty { abort: false }, Note::Remnant),
        State::Gathering { .. } | State::Finished { .. } => (state, Note::Remnant),
    }
}
