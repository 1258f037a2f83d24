//! The messages of fragmentation.

/// A message between a sender and a receiver of fragments (RFC 8724 section 8.3). There is no DTag.
#[derive(Clone, Copy, Debug, PartialEq, Eq)]
pub enum Message {
    /// A fragment other than the last (RFC 8724 section 8.3.1.1).
    Regular {
        /// The number of its window.
        w: u8,
        /// The fragment's compressed number.
        fcn: u8,
        /// The bit at which its payload begins. It runs to the end of the bytes.
        from: usize,
    },
    /// The last fragment (RFC 8724 section 8.3.1.2).
    All1 {
        /// The number of its window.
        w: u8,
        /// The reassembly check sequence.
        rcs: u32,
        /// The bit at which its payload begins. It runs to the end of the bytes.
        from: usize,
    },
    /// An answer (RFC 8724 section 8.3.2).
    Ack {
        /// The number of its window.
        w: u8,
        /// Whether the check passed.
        c: bool,
        /// The tiles of the window that were received: a number of as many bits as a window has
        /// tiles, the leftmost highest; 0 where the check passed.
        bitmap: u64,
    },
    /// A request of an answer (RFC 8724 section 8.3.3).
    AckReq {
        /// The number of the window.
        w: u8,
    },
    /// The sender gives up (RFC 8724 section 8.3.4).
    SenderAbort,
    /// The receiver gives up (RFC 8724 section 8.3.5).
    ReceiverAbort,
}
