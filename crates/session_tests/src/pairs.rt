//! Packets that go in sessions from each end to the other.

use crate::values::{PACKET, new_end};
use end_core::End;
use event_data::Taken;
use schc_ids::{Note, Report, ReportKind, Role};
use std::alloc::{AllocError, Global};

/// The most turns of a session.
const TURNS: u32 = 20;

/// What was seen of a session: how it ended, and whether the packet was handed up.
#[derive(Clone, Copy)]
struct Seen {
    report: Option<Report>,
    up: bool,
}

fn is_packet(taken: &Taken) -> bool {
    match &taken.up {
        Some(up) => {
            taken.note == Note::Joined
                && up.rule_id == 22
                && up.edition == 0
                && up.packet.as_slice() == PACKET.as_slice()
        }
        None => false,
    }
}

impl Seen {
    fn add_report(&mut self, report: Option<Report>) {
        if report.is_some() {
            self.report = report;
        }
    }
}

/// A message goes, and what answers it goes back.
fn turn(near: &mut End, far: &mut End, seen: &mut Seen) -> Result<(), AllocError> {
    if let Some(emitted) = near.slot()? {
        seen.add_report(emitted.report);
        if is_packet(&far.take(&emitted.frame)?) {
            seen.up = true;
        }
    }
    if let Some(emitted) = far.slot()? {
        seen.add_report(near.take(&emitted.frame)?.report);
    }
    Ok(())
}

/// Whether a packet comes to the far end, and the session ends at the near one as its first, so.
fn comes(near: &mut End, far: &mut End, ending: ReportKind) -> Result<bool, AllocError> {
    if near.down(PACKET.as_slice()).is_err() {
        return Ok(false);
    }
    let mut seen = Seen {
        report: None,
        up: false,
    };
    for _ in 0..TURNS {
        turn(near, far, &mut seen)?;
    }
    let report = Report {
        session: 1,
        kind: ending,
    };
    Ok(seen.up && seen.report == Some(report))
}

/// Whether a packet of each end comes to the other one.
fn each_way(
    alloc: Global,
    device: &mut End,
    acked: bool,
    ending: ReportKind,
) -> Result<bool, AllocError> {
    let mut gateway = new_end(alloc, Role::Gateway, acked)?;
    let up = comes(device, &mut gateway, ending);
    let down = comes(&mut gateway, device, ending);
    drop(gateway);
    Ok(up? && down?)
}

#[test]
fn with_answers(rt: HostRuntime) -> Result<(), AllocError> {
    let mut device = new_end(rt.alloc(), Role::Device, true)?;
    let comes = each_way(rt.alloc(), &mut device, true, ReportKind::Delivered);
    drop(device);
    assert!(rt; comes?);
    Ok(())
}

#[test]
fn without_answers(rt: HostRuntime) -> Result<(), AllocError> {
    let mut device = new_end(rt.alloc(), Role::Device, false)?;
    let comes = each_way(rt.alloc(), &mut device, false, ReportKind::Sent);
    drop(device);
    assert!(rt; comes?);
    Ok(())
}
