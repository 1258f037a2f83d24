//! Where a receiver stands.

ghost use Rattle.std.specs.Prelude.{◌≡◌, Bool, List};
ghost use Rattle.aa_receiver.specs.State.{received, receiver_phase};

use schc_ids::ReceiverPhase;

/// An answer that is due on a tile, with a C of 0 (RFC 8724 section 8.3.2).
#[derive(Clone, Copy, Debug, PartialEq, Eq)]
pub struct TileAnswer {
    /// The number of the tile's window, 0 or 1.
    pub w: u8,
    /// Whether the tile came.
    pub came: bool,
}

/// Where a receiver in the ACK-Always mode stands. The bits that are kept stand beside it.
#[derive(Clone, Copy, Debug, PartialEq, Eq)]
pub enum State {
    /// Nothing is kept.
    Empty {
        /// Whether a Receiver-Abort is due.
        abort: bool,
    },
    /// Tiles are kept.
    Gathering {
        /// How many they are.
        count: u32,
        /// The answer that is due.
        answer: Option<TileAnswer>,
    },
    /// The check has passed.
    Finished {
        /// The number of the last tile's window, 0 or 1.
        w: u8,
        /// Whether an answer is due, with a C of 1.
        answer: bool,
    },
}

impl State {
    /// The phase.
    #[tactic(auto, unfolding(crate::specs::State::received))]
    pub(crate) fn phase(self) -> ReceiverPhase
        ensures { (bits : List Bool) → result ≡ receiver_phase (received bits self) }
    {
        match self {
            State::Empty { .. } => ReceiverPhase::Empty,
            State::Gathering { .. } => ReceiverPhase::Gathering,
            State::Finished { .. } => ReceiverPhase::Finished,
        }
    }
}
