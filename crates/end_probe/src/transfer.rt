//! Frames that go from one end to the other, and whole sessions.

use crate::ends::PACKET;
use crate::frames::Frames;
use end_core::End;
use event_data::{Emitted, Taken};
use schc_ids::{Note, Report, ReportKind};
use std::alloc::AllocError;

/// The most turns of a session without a loss, and of an end that is left alone.
const SESSION_TURNS: u32 = 100;

const IDLE_TURNS: u32 = 10_000;

/// What was seen of a session so far.
#[derive(Clone, Copy)]
struct Course {
    /// How often the other end handed a packet up, and how often the one that was handed down.
    ups: u32,
    as_given: u32,
    /// How it ended.
    ended: Option<ReportKind>,
}

impl Course {
    fn new() -> Course {
        Course {
            ups: 0,
            as_given: 0,
            ended: None,
        }
    }

    fn add_report(&mut self, report: Option<Report>) {
        if let Some(report) = report {
            self.ended = Some(report.kind);
        }
    }

    fn add_taken(&mut self, taken: &Taken) {
        if let Some(up) = &taken.up {
            self.ups = self.ups.saturating_add(1);
            if up.packet.as_slice() == PACKET.as_slice() {
                self.as_given = self.as_given.saturating_add(1);
            }
        }
    }

    fn is_good(&self) -> bool {
        self.ups == 1
            && self.as_given == 1
            && matches!(self.ended, Some(ReportKind::Delivered | ReportKind::Sent))
    }
}

/// What a slot of the one end gives goes to the other one, which says what it meant; none where
/// nothing was due.
///
/// # Errors
/// Want of memory.
pub fn carry(from: &mut End, to: &mut End) -> Result<Option<Note>, AllocError> {
    match from.slot()? {
        Some(emitted) => Ok(Some(to.take(&emitted.frame)?.note)),
        None => Ok(None),
    }
}

/// What a slot of the end gives is lost; false where nothing was due.
///
/// # Errors
/// Want of memory.
pub fn lose(from: &mut End) -> Result<bool, AllocError> {
    Ok(from.slot()?.is_some())
}

/// A packet goes from the near end to the far one, as a session of which nothing is lost. Says
/// whether it came once and whole, and the near end said that it was delivered or sent.
///
/// # Errors
/// Want of memory.
pub fn runs(near: &mut End, far: &mut End) -> Result<bool, AllocError> {
    let mut course = Course::new();
    if near.down(PACKET.as_slice()).is_err() {
        return Ok(false);
    }
    for _ in 0..SESSION_TURNS {
        let sent = forth(near, far, &mut course)?;
        let answered = back(near, far, &mut course)?;
        if !sent && !answered {
            break;
        }
    }
    Ok(course.is_good())
}

/// A frame of the session goes forth, where one is due.
fn forth(near: &mut End, far: &mut End, course: &mut Course) -> Result<bool, AllocError> {
    let Some(emitted) = near.slot()? else {
        return Ok(false);
    };
    course.add_report(emitted.report);
    let taken = far.take(&emitted.frame)?;
    course.add_taken(&taken);
    Ok(true)
}

/// An answer goes back, where one is due.
fn back(near: &mut End, far: &mut End, course: &mut Course) -> Result<bool, AllocError> {
    let Some(emitted) = far.slot()? else {
        return Ok(false);
    };
    let taken = near.take(&emitted.frame)?;
    course.add_report(taken.report);
    Ok(true)
}

/// The frames of a session from the near end to the far one, those of both directions.
///
/// # Errors
/// Want of memory.
pub fn record(near: &mut End, far: &mut End, frames: &mut Frames) -> Result<(), AllocError> {
    if near.down(PACKET.as_slice()).is_err() {
        return Ok(());
    }
    for _ in 0..SESSION_TURNS {
        let sent = keep(near, far, frames)?;
        let answered = keep(far, near, frames)?;
        if !sent && !answered {
            break;
        }
    }
    Ok(())
}

/// A frame goes from the one end to the other one and is kept, where one is due.
fn keep(from: &mut End, to: &mut End, frames: &mut Frames) -> Result<bool, AllocError> {
    let Some(Emitted { frame, .. }) = from.slot()? else {
        return Ok(false);
    };
    to.take(&frame)?;
    frames.push(frame)?;
    Ok(true)
}

/// Leaves the end alone until nothing of it is due and no timer runs; false where that takes too
/// long.
///
/// # Errors
/// Want of memory.
pub fn comes_to_rest(end: &mut End) -> Result<bool, AllocError> {
    for _ in 0..IDLE_TURNS {
        let gave = lose(end)?;
        if !gave && !end.armed() {
            return Ok(true);
        }
        end.tick();
    }
    Ok(false)
}
