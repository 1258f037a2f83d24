//! Runs of loads, which read nothing.

use crate::runs::{call_of, prints};
use gw_top::{Status, run};
use load_maker::make_load;
use outside::{MemSink, MemSource};
use script_lang::write;
use std::alloc::Global;
use std::test::Fail;
use std::thread::Threads;

/// What is printed for one device and the start 0.
const ONE_DEVICE: &str = "devices 1 events 19 packets 3 frames 6 up 5 delivered 1 octets 267\n";

/// What is printed for the most devices and the start 7.
const MOST_DEVICES: &str =
    "devices 1024 events 36757 packets 3072 frames 13959 up 3137 delivered 2851 octets 371409\n";

/// More workers than devices are as good as one.
#[test]
fn load_of_one_device(rt: HostRuntime) -> Result<(), Fail> {
    for words in [
        "load 1 0",
        "load 1 0 --workers 1",
        "load 1 0 --workers 2",
        "load 1 0 --workers 8",
    ] {
        assert!(rt; prints(&rt, words, "", Status::Ok, ONE_DEVICE)?, "{words}");
    }
    Ok(())
}

#[test]
fn load_of_most_devices(rt: HostRuntime) -> Result<(), Fail> {
    for words in [
        "load 1024 7",
        "load 1024 7 --workers 2",
        "load 1024 7 --workers 8",
    ] {
        assert!(rt;
            prints(&rt, words, "", Status::Ok, MOST_DEVICES)?,
            "{words}"
        );
    }
    Ok(())
}

/// The least and the greatest start, and numbers of devices between.
#[test]
fn starts(rt: HostRuntime) -> Result<(), Fail> {
    let cases = [
        (
            "load 2 0 --workers 3",
            "devices 2 events 54 packets 6 frames 19 up 8 delivered 4 octets 586\n",
        ),
        (
            "load 64 7",
            "devices 64 events 2391 packets 192 frames 915 up 195 delivered 183 octets 24688\n",
        ),
        (
            "load 5 2147483647 --workers 4",
            "devices 5 events 181 packets 15 frames 68 up 15 delivered 15 octets 1717\n",
        ),
    ];
    for (words, line) in cases {
        assert!(rt; prints(&rt, words, "", Status::Ok, line)?, "{words}");
    }
    Ok(())
}

/// Whether a load of one device ends with the status, where the first read of its source fails and
/// its sink has so much room, and whether as many bytes of its line were written as there is room
/// for.
fn ends<R: Threads + AllocGlobal + Sync>(
    rt: &R,
    room: usize,
    status: Status,
) -> Result<bool, Fail> {
    let alloc = rt.alloc();
    let words = call_of(alloc, "load 1 0")?;
    let mut source = MemSource::new(Vec::new(alloc), [1u64].to_vec(alloc)?);
    let mut sink = MemSink::new(alloc, room, Vec::new(alloc))?;
    let answer = run(rt, words.as_slice(), &mut source, &mut sink);
    let line = ONE_DEVICE.as_bytes();
    let (front, _) = line.split_at(room.min(line.len()));
    Ok(answer == status && sink.as_slice() == front)
}

/// The source would fail, if it were read.
#[test]
fn nothing_is_read(rt: HostRuntime) -> Result<(), Fail> {
    assert!(rt; ends(&rt, 4096, Status::Ok)?);
    assert!(rt; ends(&rt, ONE_DEVICE.as_bytes().len(), Status::Ok)?);
    Ok(())
}

#[test]
fn sinks_without_room(rt: HostRuntime) -> Result<(), Fail> {
    for room in [0, 1, 66] {
        assert!(rt; ends(&rt, room, Status::WriteFault)?, "{room}");
    }
    Ok(())
}

/// Words that are no load, and the place of the first that is outside the grammar.
const BAD_WORDS: [(&str, u32); 15] = [
    ("load", 2),
    ("load 1", 3),
    ("load 0 0", 2),
    ("load 01 0", 2),
    ("load 1025 0", 2),
    ("load 1025 x", 2),
    ("load 1 x", 3),
    ("load 1 00", 3),
    ("load 1 2147483648", 3),
    ("load --workers 2", 2),
    ("load 1 0 x", 4),
    ("load 1 0 --workers", 5),
    ("load 1 0 --workers 0", 5),
    ("load 1 0 --workers 9", 5),
    ("load 1 0 --workers 2 x", 6),
];

#[test]
fn words_outside_the_grammar(rt: HostRuntime) -> Result<(), Fail> {
    for (words, place) in BAD_WORDS {
        assert!(rt;
            prints(&rt, words, "", Status::Usage(place), "")?,
            "{words}"
        );
    }
    Ok(())
}

/// What is counted in the lines of a run.
#[derive(Clone, Copy)]
struct Counted {
    events: usize,
    packets: usize,
    frames: usize,
    up: usize,
    delivered: usize,
    octets: usize,
}

/// Counts one more, where this holds.
fn count(number: &mut usize, holds: bool) {
    if holds {
        *number = number.saturating_add(1);
    }
}

/// The hex digits of the packet that this line says was handed up.
fn handed_up(line: &str) -> Option<&str> {
    let (_, said) = match line.split_once(" small up ") {
        Some(parts) => parts,
        None => line.split_once(" joined up ")?,
    };
    let (_, digits) = said.split_once(' ')?;
    Some(digits)
}

/// Counts what this line says.
fn count_line(counted: &mut Counted, line: &str) {
    count(&mut counted.events, true);
    count(&mut counted.packets, line.contains(" ok edition "));
    count(&mut counted.frames, line.contains(" frame "));
    count(&mut counted.delivered, line.contains(" delivered"));
    if let Some(digits) = handed_up(line) {
        count(&mut counted.up, true);
        counted.octets = counted.octets.saturating_add(digits.len() / 2);
    }
}

/// Counts what these lines say.
fn counted_in(lines: &str) -> Counted {
    let mut counted = Counted {
        events: 0,
        packets: 0,
        frames: 0,
        up: 0,
        delivered: 0,
        octets: 0,
    };
    for line in lines.lines() {
        count_line(&mut counted, line);
    }
    counted
}

/// The line of a load by what is counted in the lines that are printed for its script.
fn line_of_script<R: Threads + AllocGlobal + Sync>(
    rt: &R,
    devices: u16,
    script: &[u8],
) -> Result<String, Fail> {
    let alloc = rt.alloc();
    let words = call_of(alloc, "sim")?;
    let mut source = MemSource::new(script.to_vec(alloc)?, Vec::new(alloc));
    let mut sink = MemSink::new(alloc, 16384, Vec::new(alloc))?;
    if run(rt, words.as_slice(), &mut source, &mut sink) != Status::Ok {
        return Ok(String::new(alloc));
    }
    let lines = str::from_utf8(sink.as_slice()).unwrap_or("");
    let Counted {
        events,
        packets,
        frames,
        up,
        delivered,
        octets,
    } = counted_in(lines);
    let mut line = format!(in alloc; "devices {devices} events {events} packets {packets}")?;
    write!(
        &mut line,
        " frames {frames} up {up} delivered {delivered} octets {octets}\n"
    )?;
    Ok(line)
}

/// What is printed is what can be counted in the lines that `sim` prints for the script.
#[test]
fn numbers_of_the_lines(rt: HostRuntime) -> Result<(), Fail> {
    let alloc = rt.alloc();
    let script = make_load(alloc, 3, 5)?;
    let text = write(alloc, &script)?;
    let line = line_of_script(&rt, 3, text.as_slice())?;
    let known = "devices 3 events 107 packets 9 frames 41 up 9 delivered 8 octets 1111\n";
    assert_eq!(rt; line.as_str(), known);
    assert!(rt; prints(&rt, "load 3 5 --workers 2", "", Status::Ok, line.as_str())?);
    Ok(())
}
