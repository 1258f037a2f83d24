//! std's readers and writers as source and sink. This is the trusted edge: nothing is told of what
//! they have left or hold, and failures are counted.
ghost use Rattle.std.specs.Prelude.{◌≡◌, ℕ, None};

use super::sinks::{Sink, Wrote};
use super::sources::{Read, Source};
use std::io;
use std::io::{Read as _, Write as _};
use std::marker::Model;

/// A source over one of std's readers. A contract sees the count of faults.
#[derive(Drop)]
pub struct StdSource<R> {
    inner: R,
    faults: u64,
}

impl<R> Model for StdSource<R> {
    ghost Value = { ℕ };

    ghost view = { λ s. s.faults };
}

impl<R> StdSource<R> {
    /// A source that reads from `inner` and has not failed.
    pub fn new(inner: R) -> Self
        ensures { result ≡ 0 }
    {
        StdSource { inner, faults: 0 }
    }
}

impl<R: io::Read> Source for StdSource<R> {
    ghost state = { λ faults. record { left = None; faults = faults } };

    /// One read of the reader. A reader that gives no byte is at its end. An error, also that of an
    /// interrupted read, is a failure: there is no second try.
    fn read(&mut self, room: &mut [u8]) -> Read {
        match self.inner.read(room) {
            Ok(0) => Read::End,
            Ok(n) => Read::Got(n),
            Err(_) => {
                self.faults = self.faults.saturating_add(1);
                Read::Failed
            }
        }
    }
}

/// A sink over one of std's writers. A contract sees the count of faults.
///
/// A writer that keeps bytes back has to be flushed by its owner.
#[derive(Drop)]
pub struct StdSink<W> {
    inner: W,
    faults: u64,
}

impl<W> Model for StdSink<W> {
    ghost Value = { ℕ };

    ghost view = { λ s. s.faults };
}

impl<W> StdSink<W> {
    /// A sink that writes to `inner` and has not failed.
    pub fn new(inner: W) -> Self
        ensures { result ≡ 0 }
    {
        StdSink { inner, faults: 0 }
    }
}

impl<W: io::Write> Sink for StdSink<W> {
    ghost state = { λ faults. record { written = None; faults = faults } };

    /// One write of the writer. An error, also that of an interrupted write, is a failure, and so is
    /// a write that takes no byte of a piece that isn't empty: there is no second try.
    fn write(&mut self, piece: &[u8]) -> Wrote {
        match self.inner.write(piece) {
            Ok(n) => {
                if n == 0 && !piece.is_empty() {
                    self.faults = self.faults.saturating_add(1);
                }
                Wrote::Took(n)
            }
            Err(_) => {
                self.faults = self.faults.saturating_add(1);
                Wrote::Failed
            }
        }
    }
}
