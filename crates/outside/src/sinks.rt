//! What bytes are written to.
ghost use Rattle.std.specs.Prelude.{◌≤◌};
ghost use Rattle.outside.specs.Counting.{StaysAtEnd};
ghost use Rattle.outside.specs.States.{SinkState};
ghost use Rattle.outside.specs.Writing.{Writes, CountsFailedWrite};

/// The answer of a write.
#[derive(Clone, Copy, PartialEq, Eq, Debug)]
pub enum Wrote {
    /// That many bytes, the first of the piece, were taken.
    Took(usize),
    /// The write failed and took nothing.
    Failed,
}

/// What bytes are written to, in order.
pub trait Sink {
    // The bytes that were written so far, where the sink tells them, and how often it has failed.
    ghost state: { Self → SinkState };

    /// Appends the first bytes of `piece`, as many as the answer says.
    ///
    /// It answers `Failed`, or takes no byte of a piece that isn't empty, only where the count of
    /// faults rose in this call.
    fn write(&mut self, piece: &[u8]) -> Wrote
        ensures bytes { Writes result piece.now (state self.old) (state self.new) }
        ensures failed { CountsFailedWrite result piece.now (state self.old) (state self.new) }
        ensures grows { (state self.old).faults ≤ (state self.new).faults }
        ensures stays { StaysAtEnd (state self.old).faults (state self.new).faults };
}

impl<K: Sink> Sink for &mut K {
    ghost state = { λ k. K.state k.now };

    fn write(&mut self, piece: &[u8]) -> Wrote {
        (**self).write(piece)
    }
}
