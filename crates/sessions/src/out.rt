//! What an end gives of its sessions, and what it says of them.

ghost use Rattle.std.specs.Prelude.{◌≡◌, None};
ghost use Rattle.sessions.specs.Data.{in_key};
ghost use Rattle.sessions.specs.Session.{sent_kind, heard_kind, heard_note, reported};
ghost use Rattle.sessions.specs.Steps.{given};

use event_data::{EmitKind, Frame};
use lorawan_profile::sending;
use schc_bits::Octets;
use schc_ids::{FailCause, Heard, Note, Report, ReportKind, Role, SenderPhase};

/// A frame of a session that an end sends, or an answer to what it receives.
#[derive(Drop)]
pub struct SessionOut {
    pub frame: Frame,
    pub kind: EmitKind,
    /// How the session ended, where it ends with the frame.
    pub report: Option<Report>,
}

/// The answer of the receiver that answers, or of the one that doesn't.
pub fn answer_out(role: Role, acked: bool, bytes: Octets) -> SessionOut
    ensures { result ≡ given (in_key role acked) bytes.items EmitKind.Answers None }
{
    let (port, _) = sending(role.other(), acked);
    SessionOut {
        frame: Frame { port, bytes },
        kind: EmitKind::Answers,
        report: None,
    }
}

/// How a session ended with a message that was given.
pub fn sent_report(number: u64, before: SenderPhase, after: SenderPhase) -> Option<Report>
    ensures { result ≡ reported number (sent_kind before after) }
{
    match (before, after) {
        (SenderPhase::Sending, SenderPhase::Quiet) => Some(Report {
            session: number,
            kind: ReportKind::Sent,
        }),
        _ => None,
    }
}

/// How a session ended with what it heard.
pub fn heard_report(number: u64, heard: Heard) -> Option<Report>
    ensures { result ≡ reported number (heard_kind heard) }
{
    let kind = match heard {
        Heard::Nothing | Heard::Counted => return None,
        Heard::Delivered => ReportKind::Delivered,
        Heard::NeverPasses => ReportKind::Failed(FailCause::CheckNeverPasses),
        Heard::PeerAborted => ReportKind::Failed(FailCause::PeerAborted),
        Heard::Spent => ReportKind::Failed(FailCause::AttemptsSpent),
        Heard::Aborted => ReportKind::Failed(FailCause::Aborted),
    };
    Some(Report {
        session: number,
        kind,
    })
}

/// What an answer is noted as.
pub fn heard_note(heard: Heard) -> Note
    ensures { result ≡ heard_note heard }
{
    match heard {
        Heard::Counted | Heard::Delivered | Heard::NeverPasses => Note::Acked,
        Heard::PeerAborted => Note::PeerAborted,
        Heard::Nothing | Heard::Spent | Heard::Aborted => Note::Remnant,
    }
}
