//! Where the two ends of a session of fragments stand.

/// Where a sender of fragments stands (RFC 8724 section 8.4).
#[derive(Clone, Copy, Debug, PartialEq, Eq)]
pub enum SenderPhase {
    /// A message is due.
    Sending,
    /// An answer was asked for, and the retransmission timer runs.
    Waiting,
    /// The session has failed, and a Sender-Abort is due.
    Closing,
    /// The session has ended, and no other one of its number may begin yet.
    Quiet,
}

/// Where a receiver of fragments stands (RFC 8724 section 8.4).
#[derive(Clone, Copy, Debug, PartialEq, Eq)]
pub enum ReceiverPhase {
    /// Nothing is kept.
    Empty,
    /// Fragments are kept, and the inactivity timer runs.
    Gathering,
    /// The check has passed; what comes again is answered as before.
    Finished,
}
