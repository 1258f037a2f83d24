//! What a message meant to the end that took it, and how a session ends.

use crate::faults::{UnpackFault, WireFault};

/// Why a session failed.
#[derive(Clone, Copy, Debug, PartialEq, Eq)]
pub enum FailCause {
    /// Eight requests in a row weren't answered (MAX_ACK_REQUESTS, RFC 8724 section 8.2.2.4).
    AttemptsSpent,
    /// The receiver sent a Receiver-Abort.
    PeerAborted,
    /// The receiver has every tile and its check didn't pass.
    CheckNeverPasses,
    /// The sender was told to abort.
    Aborted,
}

/// How a session ended for its sender.
#[derive(Clone, Copy, Debug, PartialEq, Eq)]
pub enum ReportKind {
    /// The receiver answered that its check passed.
    Delivered,
    /// Everything was sent, and in No-ACK nothing more is known.
    Sent,
    /// It failed.
    Failed(FailCause),
}

/// The end of a session, told at the end that sends; its sessions are counted from 1.
#[derive(Clone, Copy, Debug, PartialEq, Eq)]
pub struct Report {
    /// Which session of the end that sends, from 1.
    pub session: u64,
    /// How it ended.
    pub kind: ReportKind,
}

/// Why an end refuses a frame.
#[derive(Clone, Copy, Debug, PartialEq, Eq)]
pub enum Cause {
    /// The port has no meaning at this end.
    UnknownPort,
    /// The fragment or answer can't be read.
    Wire(WireFault),
    /// The SCHC packet can't be unpacked. It is never for want of memory.
    Unpack(UnpackFault),
}

/// What a frame meant to the end that took it.
#[derive(Clone, Copy, Debug, PartialEq, Eq)]
pub enum Note {
    /// A whole packet came in one frame.
    Small,
    /// A fragment brought tiles that were kept.
    Stored,
    /// A fragment or a request brought nothing new.
    Repeat,
    /// An answer was asked for.
    Asked,
    /// The check passed: the packet is whole.
    Joined,
    /// The check didn't pass.
    CheckFailed,
    /// The message belongs to no session that is under way.
    Remnant,
    /// An answer that counts.
    Acked,
    /// The other end gave the session up.
    PeerAborted,
    /// The fragments have more bits than the end keeps.
    Overflow,
    /// The end refuses the frame.
    Refused(Cause),
}

/// What an answer meant to a sender of fragments.
#[derive(Clone, Copy, Debug, PartialEq, Eq)]
pub enum Heard {
    /// It changes nothing.
    Nothing,
    /// It counts, and the session goes on.
    Counted,
    /// The packet was delivered.
    Delivered,
    /// The receiver has every tile and its check didn't pass.
    NeverPasses,
    /// The receiver gave the session up.
    PeerAborted,
    /// Every attempt was made.
    Spent,
    /// The sender was told to abort.
    Aborted,
}
