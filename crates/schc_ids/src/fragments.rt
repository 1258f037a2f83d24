//! The modes of fragmentation and their parameters.

ghost use Rattle.std.specs.Prelude.{◌≡◌};
ghost use Rattle.schc_ids.specs.Fragments.{params_of, IsFragParams};

/// A mode of fragmentation (RFC 8724 section 8.4).
#[derive(Clone, Copy, Debug, PartialEq, Eq)]
pub enum FragMode {
    /// Nothing is answered (RFC 8724 section 8.4.1).
    NoAck,
    /// Each window is answered (RFC 8724 section 8.4.2).
    AckAlways,
    /// Windows that lack tiles are answered, and the last one (RFC 8724 section 8.4.3).
    AckOnError,
}

/// How fragments are written (RFC 8724 section 8.2.4, RFC 9011 section 5.6). There is no DTag.
#[derive(Clone, Copy, Debug, PartialEq, Eq)]
pub struct FragParams {
    /// The mode that they belong to.
    pub mode: FragMode,
    /// M, the bits of the window number W.
    pub w_bits: u8,
    /// N, the bits of the fragment's compressed number (FCN).
    pub fcn_bits: u8,
    /// WINDOW_SIZE, the most tiles of a window; 0 in a mode without windows.
    pub window: u8,
}

/// What goes one way between a sender and a receiver of fragments.
#[derive(Clone, Copy, Debug, PartialEq, Eq)]
pub enum Side {
    /// What the sender sends: fragments, requests of an answer and Sender-Aborts.
    Fragments,
    /// What the receiver sends: answers and Receiver-Aborts.
    Answers,
}

impl FragMode {
    /// The parameters of the mode: ACK-on-Error with W of 2 bits, FCN of 6 bits and windows of 63
    /// tiles (RFC 9011 section 5.6.2), ACK-Always with W of 1 bit, FCN of 1 bit and windows of one
    /// tile (RFC 9011 section 5.6.3), No-ACK with no W and an FCN of 1 bit.
    pub fn params(self) -> FragParams
        ensures exact { result ≡ params_of self }
        ensures row { IsFragParams result }
    {
        match self {
            FragMode::NoAck => FragParams {
                mode: FragMode::NoAck,
                w_bits: 0,
                fcn_bits: 1,
                window: 0,
            },
            FragMode::AckAlways => FragParams {
                mode: FragMode::AckAlways,
                w_bits: 1,
                fcn_bits: 1,
                window: 1,
            },
            FragMode::AckOnError => FragParams {
                mode: FragMode::AckOnError,
                w_bits: 2,
                fcn_bits: 6,
                window: 63,
            },
        }
    }
}
