//! Where a sender in the No-ACK mode stands.

/// Where a sender in the No-ACK mode stands (RFC 8724 section 8.4.1.1).
#[derive(Clone, Copy, Debug, PartialEq, Eq)]
pub enum NoAckSenderState {
    /// The fragment of the tile with this index, from 0, is due.
    Sending(usize),
    /// A Sender-Abort is due.
    Closing,
    /// The session has ended.
    Quiet,
}
