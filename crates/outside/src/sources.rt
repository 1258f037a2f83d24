//! What bytes are read from.
ghost use Rattle.std.specs.Prelude.{length, ◌<◌, ◌≤◌};
ghost use Rattle.outside.specs.Counting.{StaysAtEnd};
ghost use Rattle.outside.specs.Reading.{Reads, CountsFailedRead};
ghost use Rattle.outside.specs.States.{SourceState};

/// The answer of a read.
#[derive(Clone, Copy, PartialEq, Eq, Debug)]
pub enum Read {
    /// That many bytes came, at least one. They are the first bytes of the room.
    Got(usize),
    /// No more bytes will come.
    End,
    /// The read failed and gave nothing.
    Failed,
}

/// What bytes are read from, in order.
pub trait Source {
    // The bytes that are left to be read, where the source tells them, and how often it has failed.
    ghost state: { Self → SourceState };

    /// Reads the next bytes, one or more, into the front of `room`, which isn't empty.
    ///
    /// It answers `End` only where nothing is left, and `Failed`, with nothing read, only where the
    /// count of faults rose in this call.
    fn read(&mut self, room: &mut [u8]) -> Read
        requires { 0 < length room.old }
        ensures bytes { Reads result room.new (state self.old) (state self.new) }
        ensures failed { CountsFailedRead result (state self.old) (state self.new) }
        ensures grows { (state self.old).faults ≤ (state self.new).faults }
        ensures stays { StaysAtEnd (state self.old).faults (state self.new).faults };
}

impl<S: Source> Source for &mut S {
    ghost state = { λ s. S.state s.now };

    fn read(&mut self, room: &mut [u8]) -> Read {
        (**self).read(room)
    }
}
