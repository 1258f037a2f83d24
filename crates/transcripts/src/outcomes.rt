//! The outcomes of events.

ghost use Rattle.std.specs.Prelude.{◌≡◌, ◌++◌, OnOk, string_bytes};
ghost use Rattle.event_data.specs.Outcomes.{IsNote};
ghost use Rattle.transcripts.specs.Lines.{accepted_text, kind_text, frame_text, slot_text, emission_text, cause_text, note_text, up_text, taken_text, offered_text, IsSaid, said_text};

use crate::ended::{push_abort, push_report, push_tick};
use crate::words::{allowed_text, refusal_text, wire_text};
use event_data::{Accepted, Emission, EmitKind, Frame, HandUp, Line, Offered, Taken};
use printed_words::{push_bytes, push_finding, push_unread};
use schc_ids::{Cause, Note};
use std::alloc::AllocError;

/// Writes how a packet that was handed down will go.
#[tactic(auto, unfolding(crate::specs::Lines::accepted_text))]
fn push_accepted(text: &mut String, accepted: Accepted) -> Result<(), AllocError>
    ensures { OnOk result (string_bytes text.new ≡ string_bytes text.old ++ accepted_text accepted) }
{
    let edition = accepted.edition;
    let rule_id = accepted.rule_id;
    let bits = accepted.bits;
    write!(text, "ok edition {edition} rule {rule_id} bits {bits}")
}

/// Writes what a frame carries.
#[tactic(auto, unfolding(crate::specs::Lines::kind_text))]
fn push_kind(text: &mut String, kind: EmitKind) -> Result<(), AllocError>
    ensures { OnOk result (string_bytes text.new ≡ string_bytes text.old ++ kind_text kind) }
{
    match kind {
        EmitKind::Whole => text.push_str("whole"),
        EmitKind::Begins(session) => write!(text, "begins {session}"),
        EmitKind::Goes(session) => write!(text, "goes {session}"),
        EmitKind::Answers => text.push_str("answers"),
    }
}

/// Writes a frame with its number.
#[tactic(auto, unfolding(crate::specs::Lines::frame_text))]
fn push_frame(text: &mut String, number: u64, frame: &Frame) -> Result<(), AllocError>
    ensures { OnOk result (string_bytes text.new ≡ string_bytes text.old ++ frame_text number frame.now) }
{
    let port = frame.port;
    write!(text, "frame {number} port {port} ")?;
    push_bytes(text, frame.bytes.as_slice())
}

/// Writes a frame, what it carries, and the session that ended with it.
#[tactic(auto, unfolding(crate::specs::Lines::emission_text))]
fn push_emission(text: &mut String, emission: &Emission) -> Result<(), AllocError>
    ensures { OnOk result (string_bytes text.new ≡ string_bytes text.old ++ emission_text emission.now) }
{
    push_frame(text, emission.number, &emission.emitted.frame)?;
    text.push_str(" ")?;
    push_kind(text, emission.emitted.kind)?;
    push_report(text, emission.emitted.report)
}

/// Writes the frame that a slot gave, if it gave one.
#[tactic(auto, unfolding(crate::specs::Lines::slot_text))]
fn push_slot(text: &mut String, emission: &Option<Emission>) -> Result<(), AllocError>
    ensures { OnOk result (string_bytes text.new ≡ string_bytes text.old ++ slot_text emission.now) }
{
    match emission {
        Some(emission) => push_emission(text, emission),
        None => text.push_str("none"),
    }
}

/// Writes why a frame is refused, which is never for want of memory.
#[tactic(auto, unfolding(crate::specs::Lines::cause_text))]
fn push_cause(text: &mut String, cause: Cause) -> Result<(), AllocError>
    requires { IsNote (Note.Refused cause) }
    ensures { OnOk result (string_bytes text.new ≡ string_bytes text.old ++ cause_text cause) }
{
    match cause {
        Cause::UnknownPort => text.push_str("port"),
        Cause::Wire(fault) => {
            let fault = wire_text(fault);
            write!(text, "wire {fault}")
        }
        Cause::Unpack(fault) => push_unread(text, fault),
    }
}

/// Writes what a frame meant.
#[tactic(auto, unfolding(crate::specs::Lines::note_text))]
fn push_note(text: &mut String, note: Note) -> Result<(), AllocError>
    requires { IsNote note }
    ensures { OnOk result (string_bytes text.new ≡ string_bytes text.old ++ note_text note) }
{
    match note {
        Note::Small => text.push_str("small"),
        Note::Stored => text.push_str("stored"),
        Note::Repeat => text.push_str("repeat"),
        Note::Asked => text.push_str("asked"),
        Note::Joined => text.push_str("joined"),
        Note::CheckFailed => text.push_str("check-failed"),
        Note::Remnant => text.push_str("remnant"),
        Note::Acked => text.push_str("acked"),
        Note::PeerAborted => text.push_str("peer-aborted"),
        Note::Overflow => text.push_str("overflow"),
        Note::Refused(cause) => {
            text.push_str("refused ")?;
            push_cause(text, cause)
        }
    }
}

/// Writes what was handed up, if anything was.
#[tactic(auto, unfolding(crate::specs::Lines::up_text))]
fn push_up(text: &mut String, up: &Option<HandUp>) -> Result<(), AllocError>
    ensures { OnOk result (string_bytes text.new ≡ string_bytes text.old ++ up_text up.now) }
{
    match up {
        Some(up) => {
            let rule_id = up.rule_id;
            write!(text, " up {rule_id} ")?;
            push_bytes(text, up.packet.as_slice())
        }
        None => Ok(()),
    }
}

/// Writes what a frame that was delivered meant, what it handed up, and the session that it ended.
#[tactic(auto, unfolding(crate::specs::Lines::taken_text))]
fn push_taken(text: &mut String, taken: &Taken) -> Result<(), AllocError>
    requires { IsNote taken.now.note }
    ensures { OnOk result (string_bytes text.new ≡ string_bytes text.old ++ taken_text taken.now) }
{
    push_note(text, taken.note)?;
    push_up(text, &taken.up)?;
    push_report(text, taken.report)
}

/// Writes what an end made of an edition that was offered.
#[tactic(auto, unfolding(crate::specs::Lines::offered_text))]
fn push_offered(text: &mut String, answer: Offered) -> Result<(), AllocError>
    ensures { OnOk result (string_bytes text.new ≡ string_bytes text.old ++ offered_text answer) }
{
    match answer {
        Offered::Adopted => text.push_str("adopted"),
        Offered::Older => text.push_str("older"),
        Offered::Diverged(id) => write!(text, "diverged {id}"),
    }
}

/// Writes the outcome of an event.
#[tactic(auto, unfolding(crate::specs::Lines::said_text))]
pub(crate) fn push_said(text: &mut String, line: &Line) -> Result<(), AllocError>
    requires { IsSaid line.now }
    ensures { OnOk result (string_bytes text.new ≡ string_bytes text.old ++ said_text line.now) }
{
    match line {
        Line::Hand(accepted) => push_accepted(text, *accepted),
        Line::HandRefused(fault) => text.push_str(refusal_text(*fault)),
        Line::Slot(emission) => push_slot(text, emission),
        Line::Deliver(taken) => push_taken(text, taken),
        Line::Tick(device, gateway) => push_tick(text, *device, *gateway),
        Line::Abort(report) => push_abort(text, *report),
        Line::Published(number) => write!(text, "ok {number}"),
        Line::Refused(finding) => push_finding(text, *finding),
        Line::Offer(answer) => push_offered(text, *answer),
        Line::Allow(allowed) => text.push_str(allowed_text(*allowed)),
        Line::NoFrame => text.push_str("refused no-frame"),
        Line::NoEdition => text.push_str("refused no-edition"),
    }
}
