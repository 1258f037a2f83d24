//! Lines, each of an event and of what came of it, both made by hand; and a script that is read.

use crate::scripts::{P40, one_packet};
use event_data::{
    Accepted, Emission, EmitKind, Emitted, Frame, HandUp, Line, Taken, Target, WorldEvent,
};
use schc_ids::{Direction, FailCause, Note, Report, ReportKind, Role};
use script_lang::parse;
use std::alloc::Global;
use std::test::Fail;
use transcripts::line_text;

#[test]
fn the_script_of_one_packet(rt: HostRuntime) -> Result<(), Fail> {
    let (text, _) = one_packet(rt.alloc())?;
    let script = parse(rt.alloc(), text.as_bytes())?;
    assert_eq!(rt; script.devices().len(), 1);
    assert_eq!(rt; script.events().len(), 4);
    Ok(())
}

/// The frame on this port with the bytes that these digits spell. They are read as the packet of a
/// script's hand-down.
fn frame(alloc: Global, port: u8, digits: &str) -> Result<Frame, Fail> {
    let text = format!(in alloc;
        "device 7 0000000000000001 0000000000000002\nhand 7 dev {digits}\n"
    )?;
    let script = parse(alloc, text.as_bytes())?;
    if let Some(first) = script.events().first() {
        if let WorldEvent::Down(_, bytes) = &first.event {
            let bytes = bytes.copy()?;
            return Ok(Frame { port, bytes });
        }
    }
    Err(Fail::new("no hand-down was read"))
}

#[test]
fn a_packet_that_is_taken(rt: HostRuntime) -> Result<(), Fail> {
    let Frame { bytes, .. } = frame(rt.alloc(), 22, P40)?;
    let event = WorldEvent::Down(Role::Device, bytes);
    let line = Line::Hand(Accepted {
        edition: 0,
        rule_id: 22,
        bits: 328,
    });
    let text = line_text(rt.alloc(), 7, &event, &line, 1)?;
    assert_eq!(rt;
        text.as_slice(),
        b"1 hand 7 dev ok edition 0 rule 22 bits 328\n".as_slice()
    );
    Ok(())
}

#[test]
fn a_frame_with_which_a_session_ends(rt: HostRuntime) -> Result<(), Fail> {
    let event = WorldEvent::Slot(Role::Device);
    let line = Line::Slot(Some(Emission {
        number: 4,
        emitted: Emitted {
            frame: frame(rt.alloc(), 222, "d9d953030020")?,
            kind: EmitKind::Goes(1),
            report: report(1, ReportKind::Sent),
        },
    }));
    let text = line_text(rt.alloc(), 7, &event, &line, 8)?;
    assert_eq!(rt;
        text.as_slice(),
        b"8 slot 7 dev frame 4 port 222 d9d953030020 goes 1 report 1 sent\n".as_slice()
    );
    Ok(())
}

#[test]
fn a_packet_that_is_handed_up(rt: HostRuntime) -> Result<(), Fail> {
    let Frame { bytes, .. } = frame(rt.alloc(), 22, P40)?;
    let event = WorldEvent::Deliver(Direction::Up, 4);
    let line = Line::Deliver(Taken {
        up: Some(HandUp {
            edition: 0,
            rule_id: 22,
            packet: bytes,
        }),
        report: None,
        note: Note::Joined,
    });
    let text = line_text(rt.alloc(), 7, &event, &line, 9)?;
    let expected = format!(in rt.alloc(); "9 deliver 7 up 4 joined up 22 {P40}\n")?;
    assert_eq!(rt; text.as_slice(), expected.as_bytes());
    Ok(())
}

fn report(session: u64, kind: ReportKind) -> Option<Report> {
    Some(Report { session, kind })
}

#[test]
fn a_tick_at_both_ends(rt: HostRuntime) -> Result<(), Fail> {
    let event = WorldEvent::Tick(Target::Both);
    let line = Line::Tick(None, report(2, ReportKind::Sent));
    let text = line_text(rt.alloc(), 7, &event, &line, 9)?;
    assert_eq!(rt;
        text.as_slice(),
        b"9 tick 7 both ok report gw 2 sent\n".as_slice()
    );
    Ok(())
}

#[test]
fn a_session_that_is_given_up(rt: HostRuntime) -> Result<(), Fail> {
    let event = WorldEvent::Abort(Role::Gateway);
    let line = Line::Abort(report(1, ReportKind::Failed(FailCause::Aborted)));
    let text = line_text(rt.alloc(), 7, &event, &line, 1)?;
    assert_eq!(rt;
        text.as_slice(),
        b"1 abort 7 gw report 1 aborted\n".as_slice()
    );
    Ok(())
}

#[test]
fn an_answer_that_ends_a_session(rt: HostRuntime) -> Result<(), Fail> {
    let event = WorldEvent::Deliver(Direction::Down, 1);
    let line = Line::Deliver(Taken {
        up: None,
        report: report(2, ReportKind::Delivered),
        note: Note::Acked,
    });
    let text = line_text(rt.alloc(), 7, &event, &line, 3)?;
    assert_eq!(rt;
        text.as_slice(),
        b"3 deliver 7 down 1 acked report 2 delivered\n".as_slice()
    );
    Ok(())
}
