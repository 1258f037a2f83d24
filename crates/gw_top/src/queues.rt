//! Lines that wait until they are printed.

ghost use Rattle.std.specs.Prelude.{◌≡◌, ◌∷◌, ◌++◌, [], IfOk, OnOk, IfSome, IfNone};
ghost use Rattle.transcripts.specs.Lines.{IsSaid};

use event_data::Line;
use std::alloc::{AllocError, Global};
use std::collections::VecDeque;
use std::marker::Model;

/// Lines in the order of their events, none of which tells of want of memory. A contract sees them
/// as a list.
#[derive(Drop)]
pub(crate) struct Queue {
    lines: VecDeque<Line>,
}

impl Model for Queue {
    ghost use Rattle.std.specs.Prelude.{List};
    ghost use Rattle.std.specs.List.{AllByRecursion};
    ghost use Rattle.event_data.specs.declared.outcomes.Line.{Line};
    ghost use Rattle.transcripts.specs.Lines.{IsSaid};

    ghost Value = { List Line };

    ghost view = { λ q. q.lines.items };

    ghost invariant = { λ q. AllByRecursion IsSaid q.lines.items };
}

impl Queue {
    /// No lines.
    pub(crate) fn new(alloc: Global) -> Queue
        ensures { result ≡ [] }
    {
        Queue {
            lines: VecDeque::new(alloc),
        }
    }

    /// No lines, with room for so many.
    ///
    /// # Errors
    /// Want of memory.
    pub(crate) fn with_room(alloc: Global, lines: usize) -> Result<Queue, AllocError>
        ensures { IfOk result (λ queue. queue ≡ []) }
    {
        match VecDeque::with_capacity(alloc, lines) {
            Ok(lines) => Ok(Queue { lines }),
            Err(_) => Err(AllocError),
        }
    }

    /// Puts a line last.
    ///
    /// # Errors
    /// Want of memory.
    #[tactic(auto, using(crate::proofs::QueueLemmas::said_last))]
    pub(crate) fn push(&mut self, line: Line) -> Result<(), AllocError>
        requires { IsSaid line }
        ensures { OnOk result (self.new ≡ self.old ++ line ∷ []) }
    {
        match self.lines.push_back(line) {
            Ok(()) => Ok(()),
            Err(_) => Err(AllocError),
        }
    }

    /// Takes the first line out.
    #[tactic(auto, using(crate::proofs::QueueLemmas::said_first))]
    pub(crate) fn pop(&mut self) -> Option<Line>
        ensures first { IfSome result (λ line. self.old ≡ line ∷ self.new) }
        ensures none { IfNone result (self.old ≡ []) }
        ensures said { IfSome result IsSaid }
    {
        self.lines.pop_front()
    }
}
