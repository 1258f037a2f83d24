//! The ends of sessions.

ghost use Rattle.std.specs.Prelude.{◌≡◌, ◌++◌, OnOk, string_bytes};
ghost use Rattle.transcripts.specs.Lines.{fail_text, ended_text, session_text, report_text, report_at, tick_text, abort_text};

use crate::words::role_text;
use schc_ids::{FailCause, Report, ReportKind, Role};
use std::alloc::AllocError;

fn fail_text(cause: FailCause) -> &'static str
    ensures { result.now ≡ fail_text cause }
{
    match cause {
        FailCause::AttemptsSpent => "attempts-spent",
        FailCause::PeerAborted => "peer-aborted",
        FailCause::CheckNeverPasses => "check-never-passes",
        FailCause::Aborted => "aborted",
    }
}

fn ended_text(kind: ReportKind) -> &'static str
    ensures { result.now ≡ ended_text kind }
{
    match kind {
        ReportKind::Delivered => "delivered",
        ReportKind::Sent => "sent",
        ReportKind::Failed(cause) => fail_text(cause),
    }
}

/// Writes the end of a session: its number, and how it ended.
#[tactic(auto, unfolding(crate::specs::Lines::session_text))]
fn push_session(text: &mut String, report: Report) -> Result<(), AllocError>
    ensures { OnOk result (string_bytes text.new ≡ string_bytes text.old ++ session_text report) }
{
    let session = report.session;
    let kind = ended_text(report.kind);
    write!(text, "{session} {kind}")
}

/// Writes the end of a session behind what else a line says, if one ended.
#[tactic(auto, unfolding(crate::specs::Lines::report_text))]
pub(crate) fn push_report(text: &mut String, report: Option<Report>) -> Result<(), AllocError>
    ensures { OnOk result (string_bytes text.new ≡ string_bytes text.old ++ report_text report) }
{
    match report {
        Some(report) => {
            text.push_str(" report ")?;
            push_session(text, report)
        }
        None => Ok(()),
    }
}

/// The same at one end, which is named.
#[tactic(auto, unfolding(crate::specs::Lines::report_at))]
fn push_report_at(text: &mut String, role: Role, report: Option<Report>) -> Result<(), AllocError>
    ensures { OnOk result (string_bytes text.new ≡ string_bytes text.old ++ report_at role report) }
{
    match report {
        Some(report) => {
            let role = role_text(role);
            write!(text, " report {role} ")?;
            push_session(text, report)
        }
        None => Ok(()),
    }
}

/// Writes which sessions ended at a tick.
#[tactic(auto, unfolding(crate::specs::Lines::tick_text))]
pub(crate) fn push_tick(
    text: &mut String,
    device: Option<Report>,
    gateway: Option<Report>,
) -> Result<(), AllocError>
    ensures { OnOk result (string_bytes text.new ≡ string_bytes text.old ++ tick_text device gateway) }
{
    text.push_str("ok")?;
    push_report_at(text, Role::Device, device)?;
    push_report_at(text, Role::Gateway, gateway)
}

/// Writes which session was given up, if one was under way.
#[tactic(auto, unfolding(crate::specs::Lines::abort_text))]
pub(crate) fn push_abort(text: &mut String, report: Option<Report>) -> Result<(), AllocError>
    ensures { OnOk result (string_bytes text.new ≡ string_bytes text.old ++ abort_text report) }
{
    match report {
        Some(report) => {
            text.push_str("report ")?;
            push_session(text, report)
        }
        None => text.push_str("none"),
    }
}
