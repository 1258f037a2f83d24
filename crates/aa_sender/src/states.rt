//! Where a sender stands, and how it goes on.

ghost use Rattle.std.specs.Prelude.{ℕ, ◌≡◌, ◌-◌, ◌^◌, ◌==◌, ◌<◌, ◌≤◌, false};
ghost use Rattle.aa_sender.specs.State.{StandsIn, phase_in};
ghost use Rattle.aa_sender.specs.Steps.{window_of, sent_in, acked, acked_window, heard_in, heard_waiting, retried_in, aborted_in};

use frag_wire::Message;
use schc_ids::limits::MAX_ACK_REQUESTS;
use schc_ids::{FragMode, Heard, SenderPhase};
use tiles_bitmap::tile_number;

/// Where a sender in the ACK-Always mode stands. Attempts are the requests since the session began
/// or since the last answer that counts.
#[derive(Clone, Copy, Debug, PartialEq, Eq)]
pub enum AaSenderState {
    /// A message is due.
    Sending {
        /// The index of the tile, from 0.
        tile: usize,
        /// Whether an ACK REQ is due, in place of the tile.
        ack_req: bool,
        /// The attempts so far.
        attempts: u8,
    },
    /// An answer was asked for.
    Waiting {
        /// The index of the tile, from 0.
        tile: usize,
        /// The attempts so far.
        attempts: u8,
    },
    /// A Sender-Abort is due.
    Closing,
    /// The session has ended.
    Quiet,
}

impl AaSenderState {
    /// The phase.
    pub(crate) fn phase(self) -> SenderPhase
        ensures { result ≡ phase_in self }
    {
        match self {
            AaSenderState::Sending { .. } => SenderPhase::Sending,
            AaSenderState::Waiting { .. } => SenderPhase::Waiting,
            AaSenderState::Closing => SenderPhase::Closing,
            AaSenderState::Quiet => SenderPhase::Quiet,
        }
    }
}

/// The number of the window of the tile with this index.
#[tactic(auto, using(crate::proofs::SenderLemmas::window_of_is, crate::proofs::SenderLemmas::window_of_below))]
pub(crate) fn window_of(tile: usize) -> u8
    ensures value { result ≡ window_of tile }
    ensures below { result ≤ 1 }
{
    tile_number(&FragMode::AckAlways.params(), tile).w
}

/// After the message that is due was given.
#[tactic(auto, unfolding(crate::specs::Steps::sent_in))]
pub(crate) fn after_sending(state: AaSenderState, last: usize) -> AaSenderState
    requires stands { StandsIn last state }
    ensures exact { result ≡ sent_in state }
    ensures stands { StandsIn last result }
{
    match state {
        AaSenderState::Sending { tile, attempts, .. } => AaSenderState::Waiting {
            tile,
            attempts: attempts + 1,
        },
        AaSenderState::Waiting { tile, attempts } => AaSenderState::Waiting { tile, attempts },
        AaSenderState::Closing => AaSenderState::Quiet,
        AaSenderState::Quiet => AaSenderState::Quiet,
    }
}

/// After an answer.
#[tactic(auto, unfolding(crate::specs::Steps::heard_in, crate::specs::Steps::heard_sending))]
pub(crate) fn after_answer(
    state: AaSenderState,
    last: usize,
    message: &Message,
) -> (AaSenderState, Heard)
    requires stands { StandsIn last state }
    ensures exact { result ≡ heard_in last message.now state }
    ensures stands { StandsIn last result.0 }
{
    match state {
        AaSenderState::Sending { .. } => match message {
            Message::ReceiverAbort => (AaSenderState::Quiet, Heard::PeerAborted),
            _ => (state, Heard::Nothing),
        },
        AaSenderState::Waiting { tile, attempts } => {
            after_waiting(tile, attempts, last, message)
        }
        AaSenderState::Closing => (AaSenderState::Closing, Heard::Nothing),
        AaSenderState::Quiet => (AaSenderState::Quiet, Heard::Nothing),
    }
}

/// After an answer that was waited for.
#[tactic(auto, unfolding(crate::specs::Steps::heard_waiting, crate::specs::Steps::acked_window))]
fn after_waiting(
    tile: usize,
    attempts: u8,
    last: usize,
    message: &Message,
) -> (AaSenderState, Heard)
    requires stands { StandsIn last (AaSenderState.Waiting tile attempts) }
    ensures exact { result ≡ heard_waiting last tile attempts message.now }
    ensures stands { StandsIn last result.0 }
{
    match message {
        Message::Ack { w, c, bitmap } => {
            if *w == window_of(tile) {
                after_ack(tile, attempts, last, *c, *bitmap == 1)
            } else {
                (AaSenderState::Waiting { tile, attempts }, Heard::Nothing)
            }
        }
        Message::ReceiverAbort => (AaSenderState::Quiet, Heard::PeerAborted),
        _ => (AaSenderState::Waiting { tile, attempts }, Heard::Nothing),
    }
}

/// After an ACK of the window of the tile.
#[tactic(auto, unfolding(crate::specs::Steps::acked))]
fn after_ack(tile: usize, attempts: u8, last: usize, c: bool, came: bool) -> (AaSenderState, Heard)
    requires stands { StandsIn last (AaSenderState.Waiting tile attempts) }
    ensures exact { result ≡ acked tile attempts (tile == last) c came }
    ensures stands { StandsIn last result.0 }
{
    match (tile == last, c, came) {
        (true, true, _) => (AaSenderState::Quiet, Heard::Delivered),
        (true, false, true) => (AaSenderState::Closing, Heard::NeverPasses),
        (true, false, false) => (asking(tile, false, 0), Heard::Counted),
        (false, true, _) => (AaSenderState::Waiting { tile, attempts }, Heard::Nothing),
        (false, false, true) => (asking(tile + 1, false, 0), Heard::Counted),
        (false, false, false) => (asking(tile, false, 0), Heard::Counted),
    }
}

/// A request is due: the ACK REQ, or else the tile.
fn asking(tile: usize, ack_req: bool, attempts: u8) -> AaSenderState
    ensures { result ≡ AaSenderState.Sending tile ack_req attempts }
{
    AaSenderState::Sending {
        tile,
        ack_req,
        attempts,
    }
}

/// After the retransmission timer.
#[tactic(auto, unfolding(crate::specs::Steps::retried_in, crate::specs::Steps::retried_waiting))]
pub(crate) fn after_timer(state: AaSenderState, last: usize) -> (AaSenderState, Heard)
    requires stands { StandsIn last state }
    ensures exact { result ≡ retried_in last state }
    ensures stands { StandsIn last result.0 }
{
    match state {
        AaSenderState::Waiting { tile, attempts } => {
            if attempts >= MAX_ACK_REQUESTS {
                return (AaSenderState::Closing, Heard::Spent);
            }
            (asking(tile, tile != last, attempts), Heard::Counted)
        }
        _ => (state, Heard::Nothing),
    }
}

/// After the sender was told to abort.
#[tactic(auto, unfolding(crate::specs::Steps::aborted_in))]
pub(crate) fn after_abort(state: AaSenderState, last: usize) -> (AaSenderState, Heard)
    requires stands { StandsIn last state }
    ensures exact { result ≡ aborted_in state }
    ensures stands { StandsIn last result.0 }
{
    match state {
        AaSenderState::Sending { .. } | AaSenderState::Waiting { .. } => {
            (AaSenderState::Closing, Heard::Aborted)
        }
        AaSenderState::Closing => (AaSenderState::Closing, Heard::Nothing),
        AaSenderState::Quiet => (AaSenderState::Quiet, Heard::Nothing),
    }
}
