use crate::frames::{Frame, HandUp};
use rule_model::Finding;
use schc_ids::{Note, Report};

/// Why an end refuses a packet that is handed down, in the order in which the causes are looked at.
#[derive(Clone, Copy, Debug, PartialEq, Eq)]
pub enum DownFault {
    /// It has under 40 bytes, or its first four bits aren't 6.
    NotIpv6,
    /// It has more than 1,500 bytes.
    TooLong,
    /// Eight packets wait already.
    Full,
    /// Memory is wanting.
    Memory,
}

/// How a packet that was handed down will go: the number of the edition of rules that the end writes
/// with, the RuleID, and the number of bits of its SCHC packet, the RuleID's 8 bits included.
#[derive(Clone, Copy, Debug, PartialEq, Eq)]
pub struct Accepted {
    pub edition: u32,
    pub rule_id: u16,
    pub bits: u32,
}

/// What an end answers to a frame.
#[derive(Drop)]
pub struct Taken {
    /// The packet that the end hands up, where the frame makes one whole.
    pub up: Option<HandUp>,
    /// How the session of this end ended, where the frame ends it.
    pub report: Option<Report>,
    pub note: Note,
}

/// What a frame carries that an end sends.
#[derive(Clone, Copy, Debug, PartialEq, Eq)]
pub enum EmitKind {
    /// A whole SCHC packet.
    Whole,
    /// The first message of the session with this number.
    Begins(u64),
    /// A further message of the session with this number.
    Goes(u64),
    /// An answer to what was received, or a Receiver-Abort.
    Answers,
}

/// A frame that an end sends.
#[derive(Drop)]
pub struct Emitted {
    pub frame: Frame,
    pub kind: EmitKind,
    /// How the session of this end ended, where it ends with the frame.
    pub report: Option<Report>,
}

/// A frame that was sent, with its number in its direction, from 1.
#[derive(Drop)]
pub struct Emission {
    pub number: u64,
    pub emitted: Emitted,
}

/// What an end answers to an edition that it is offered.
#[derive(Clone, Copy, Debug, PartialEq, Eq)]
pub enum Offered {
    /// It is the edition that the end knows from now on.
    Adopted,
    /// Its number isn't above that of the edition that the end knows.
    Older,
    /// It doesn't go on from the edition that the end knows: this is the lowest RuleID that it lacks,
    /// lists with another rule, or lists as live again.
    Diverged(u16),
}

/// The outcome of an event, as it is printed.
#[derive(Drop)]
pub enum Line {
    /// The packet that was handed down waits in the queue.
    Hand(Accepted),
    /// The packet that was handed down is refused, never for want of memory.
    HandRefused(DownFault),
    /// The frame that the slot gave, or `None` where nothing was due.
    Slot(Option<Emission>),
    /// What the frame that was delivered meant.
    Deliver(Taken),
    /// How the sessions ended that ended at the tick: the device's, then the gateway's.
    Tick(Option<Report>, Option<Report>),
    /// How the session ended, or `None` where none was under way.
    Abort(Option<Report>),
    /// The edition with this number was published.
    Published(u32),
    /// The edition that was published is refused: the first finding.
    Refused(Finding),
    /// What the end answered to the edition that it was offered.
    Offer(Offered),
    /// Whether the end writes with the edition that it was allowed.
    Allow(bool),
    /// There is no such frame. A step has a fault instead.
    NoFrame,
    /// There is no such edition. A step has a fault instead.
    NoEdition,
}

/// Why an event could not happen. Nothing has changed then.
#[derive(Clone, Copy, Debug, PartialEq, Eq)]
pub enum StepFault {
    /// No frame with this number was sent in the direction.
    NoSuchFrame(u64),
    /// No edition with this number was published.
    NoSuchEdition(u32),
    /// Memory is wanting.
    Memory,
}
