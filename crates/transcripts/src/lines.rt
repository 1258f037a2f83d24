//! Whole lines.

ghost use Rattle.std.specs.Prelude.{◌≡◌, ◌++◌, IfOk, OnOk, string_bytes};
ghost use Rattle.event_data.specs.Events.{view_event};
ghost use Rattle.event_data.specs.Outcomes.{IsLineOf};
ghost use Rattle.transcripts.specs.Lines.{line_text};

use crate::events::push_event;
use crate::outcomes::push_said;
use event_data::{Line, WorldEvent};
use schc_bits::Octets;
use std::alloc::{AllocError, Global};

/// The bytes of most lines.
const LINE_ROOM: usize = 256;

/// The line of an event of this device, which has this place, counted from 1, and this outcome, which is one that
/// the event can have. The device of a publication isn't looked at.
///
/// # Errors
/// Want of memory.
pub fn line_text(
    alloc: Global,
    device: u16,
    event: &WorldEvent,
    line: &Line,
    place: u64,
) -> Result<Octets, AllocError>
    requires { IsLineOf (view_event event.now) line.now }
    ensures { IfOk result (λ text. text.items ≡ line_text device (view_event event.now) line.now place) }
{
    let room = String::with_capacity(alloc, LINE_ROOM)?;
    let text = with_line(room, device, event, line, place)?;
    let mut octets = Octets::new(alloc);
    octets.extend_from(text.as_bytes())?;
    Ok(octets)
}

/// The text with the line of an event behind it, as `line_text` has it.
///
/// # Errors
/// Want of memory.
pub fn with_line(
    text: String,
    device: u16,
    event: &WorldEvent,
    line: &Line,
    place: u64,
) -> Result<String, AllocError>
    requires { IsLineOf (view_event event.now) line.now }
    ensures { IfOk result (λ more. string_bytes more ≡ string_bytes text ++ line_text device (view_event event.now) line.now place) }
{
    let mut more = text;
    push_line(&mut more, device, event, line, place)?;
    Ok(more)
}

/// Writes the line of an event.
#[tactic(auto, unfolding(crate::specs::Lines::line_text))]
fn push_line(
    text: &mut String,
    device: u16,
    event: &WorldEvent,
    line: &Line,
    place: u64,
) -> Result<(), AllocError>
    requires { IsLineOf (view_event event.now) line.now }
    ensures { OnOk result (string_bytes text.new ≡ string_bytes text.old ++ line_text device (view_event event.now) line.now place) }
{
    write!(text, "{place} ")?;
    push_event(text, device, event)?;
    text.push_str(" ")?;
    push_said(text, line)?;
    text.push_str("\n")
}
