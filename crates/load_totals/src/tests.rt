//! The numbers of each kind of line, of lists of them in several orders, and the line of a run.
use super::*;
use event_data::{
    Accepted, DownFault, Emission, EmitKind, Emitted, Frame, HandUp, Line, Offered, Taken,
};
use schc_bits::Octets;
use schc_ids::{FailCause, Note, Report, ReportKind};
use std::alloc::{AllocError, AllocGlobal, Global};
use std::test::Fail;
use std::thread::Threads;

/// How a session ended.
fn report(kind: ReportKind) -> Option<Report> {
    Some(Report { session: 1, kind })
}

/// The line of a packet that waits.
fn hand() -> Line {
    Line::Hand(Accepted {
        edition: 1,
        rule_id: 22,
        bits: 80,
    })
}

/// The line of a frame that was sent, with which a session ends.
fn slot(alloc: Global, report: Option<Report>) -> Line {
    Line::Slot(Some(Emission {
        number: 1,
        emitted: Emitted {
            frame: Frame {
                port: 22,
                bytes: Octets::new(alloc),
            },
            kind: EmitKind::Answers,
            report,
        },
    }))
}

/// The line of a frame that arrived, and handed up a packet of these bytes.
fn up(alloc: Global, bytes: &[u8], report: Option<Report>) -> Result<Line, AllocError> {
    let mut packet = Octets::new(alloc);
    packet.extend_from(bytes)?;
    Ok(Line::Deliver(Taken {
        up: Some(HandUp {
            edition: 1,
            rule_id: 22,
            packet,
        }),
        report,
        note: Note::Stored,
    }))
}

/// The line of a frame that arrived, and handed up nothing.
fn down(report: Option<Report>) -> Line {
    Line::Deliver(Taken {
        up: None,
        report,
        note: Note::Acked,
    })
}

/// The numbers of these lines, as they are printed.
fn numbers<R: Threads + AllocGlobal + Sync>(rt: &R, lines: &[Line]) -> Result<String, AllocError> {
    let totals = totals_of(rt, lines);
    totals_text(rt.alloc(), 1, lines.len(), &totals)
}

#[test]
fn each_kind_of_line(rt: HostRuntime) -> Result<(), Fail> {
    let alloc = rt.alloc();
    let delivered = report(ReportKind::Delivered);
    let sent = report(ReportKind::Sent);
    let cases = vec![in alloc;
        (hand(), "packets 1 frames 0 up 0 delivered 0 octets 0"),
        (
            Line::HandRefused(DownFault::Full),
            "packets 0 frames 0 up 0 delivered 0 octets 0"
        ),
        (
            Line::Slot(None),
            "packets 0 frames 0 up 0 delivered 0 octets 0"
        ),
        (
            slot(alloc, sent),
            "packets 0 frames 1 up 0 delivered 0 octets 0"
        ),
        (
            slot(alloc, delivered),
            "packets 0 frames 1 up 0 delivered 1 octets 0"
        ),
        (
            up(alloc, b"abc", None)?,
            "packets 0 frames 0 up 1 delivered 0 octets 3"
        ),
        (
            down(delivered),
            "packets 0 frames 0 up 0 delivered 1 octets 0"
        ),
        (
            Line::Tick(delivered, delivered),
            "packets 0 frames 0 up 0 delivered 2 octets 0"
        ),
        (
            Line::Tick(sent, None),
            "packets 0 frames 0 up 0 delivered 0 octets 0"
        ),
        (
            Line::Abort(report(ReportKind::Failed(FailCause::Aborted))),
            "packets 0 frames 0 up 0 delivered 0 octets 0"
        ),
        (
            Line::Offer(Offered::Older),
            "packets 0 frames 0 up 0 delivered 0 octets 0"
        ),
    ]?;
    for (line, expected) in cases {
        let lines = vec![in alloc; line]?;
        let text = numbers(&rt, lines.as_slice())?;
        let wanted = format!(in alloc; "devices 1 events 1 {expected}\n")?;
        assert!(rt; text.as_bytes() == wanted.as_bytes());
    }
    Ok(())
}

#[test]
fn no_lines(rt: HostRuntime) -> Result<(), Fail> {
    let lines = Vec::new(rt.alloc());
    let text = numbers(&rt, lines.as_slice())?;
    assert_eq!(rt;
        text.as_str(),
        "devices 1 events 0 packets 0 frames 0 up 0 delivered 0 octets 0\n"
    );
    Ok(())
}

#[test]
fn several_orders(rt: HostRuntime) -> Result<(), Fail> {
    let alloc = rt.alloc();
    let delivered = report(ReportKind::Delivered);
    let wanted = "devices 1 events 4 packets 1 frames 1 up 1 delivered 1 octets 2\n";
    let lines = vec![in alloc;
        hand(),
        slot(alloc, None),
        up(alloc, b"ab", None)?,
        down(delivered),
    ]?;
    assert!(rt; numbers(&rt, lines.as_slice())?.as_bytes() == wanted.as_bytes());
    let lines = vec![in alloc;
        down(delivered),
        up(alloc, b"ab", None)?,
        slot(alloc, None),
        hand(),
    ]?;
    assert!(rt; numbers(&rt, lines.as_slice())?.as_bytes() == wanted.as_bytes());
    Ok(())
}
