//! Words, the limit, and sources and sinks that fail.

ghost use Rattle.std.specs.Prelude.{None};

use crate::runs::call_of;
use crate::scripts::one_packet;
use gw_top::{Counted, Status, run};
use outside::{MemSink, MemSource, Read, Source};
use std::alloc::Global;
use std::test::Fail;
use std::thread::Threads;

/// The bytes of the first line that is printed for one packet.
const FIRST_LINE: usize = 43;

/// What fails, and how the run of one packet then ends.
#[derive(Clone, Copy)]
struct Case {
    failing_reads: &'static [u64],
    room: usize,
    failing_writes: &'static [u64],
    status: Status,
    written: usize,
}

/// Whether the run of one packet ends so, with so many bytes of its lines written, or with all.
fn ends<R: Threads + AllocGlobal + Sync>(rt: &R, case: &Case) -> Result<bool, Fail> {
    let alloc = rt.alloc();
    let words = call_of(alloc, "sim")?;
    let (script, lines) = one_packet(alloc)?;
    let reads = case.failing_reads.to_vec(alloc)?;
    let mut source = MemSource::new(script.into_bytes(), reads);
    let mut sink = MemSink::new(alloc, case.room, case.failing_writes.to_vec(alloc)?)?;
    let answer = run(rt, words.as_slice(), &mut source, &mut sink);
    let size = case.written.min(lines.as_bytes().len());
    let (expected, _) = lines.as_bytes().split_at(size);
    Ok(answer == case.status && sink.as_slice() == expected)
}

/// No read and no write fails, and there is room for everything.
const GOOD: Case = Case {
    failing_reads: &[],
    room: 4096,
    failing_writes: &[],
    status: Status::Ok,
    written: 4096,
};

#[test]
fn faults_of_source_and_sink(rt: HostRuntime) -> Result<(), Fail> {
    let second_read = Case {
        failing_reads: &[2],
        status: Status::ReadFault,
        written: 0,
        ..GOOD
    };
    let third_read = Case {
        failing_reads: &[3],
        ..GOOD
    };
    let no_room = Case {
        room: 0,
        status: Status::WriteFault,
        written: 0,
        ..GOOD
    };
    let one_line = Case {
        room: FIRST_LINE,
        status: Status::WriteFault,
        written: FIRST_LINE,
        ..GOOD
    };
    let first_write = Case {
        failing_writes: &[1],
        status: Status::WriteFault,
        written: 0,
        ..GOOD
    };
    for case in [second_read, third_read, no_room, one_line, first_write] {
        assert!(rt; ends(&rt, &case)?);
    }
    Ok(())
}

/// A source of this many bytes, none of which it holds.
#[derive(Drop)]
struct Many {
    left: usize,
}

impl Source for Many {
    ghost state = { λ _. record { left = None; faults = 0 } };

    fn read(&mut self, room: &mut [u8]) -> Read {
        let size = room.len().min(self.left);
        self.left -= size;
        if size == 0 {
            Read::End
        } else {
            Read::Got(size)
        }
    }
}

/// How a run with these words ends on so many bytes, which are all 0 and so no script. It writes nothing.
fn on_zeros<R: Threads + AllocGlobal + Sync>(
    rt: &R,
    words: &[String],
    size: usize,
) -> Result<Option<Status>, Fail> {
    let alloc = rt.alloc();
    let mut sink = MemSink::new(alloc, 4096, Vec::new(alloc))?;
    let mut source = Many { left: size };
    let status = run(rt, words, &mut source, &mut sink);
    if sink.as_slice().is_empty() {
        Ok(Some(status))
    } else {
        Ok(None)
    }
}

#[test]
fn words(rt: HostRuntime) -> Result<(), Fail> {
    let none = on_zeros(&rt, &[], 1)?;
    assert_eq!(rt; none, Some(Status::Usage(1)));
    let mut words = call_of(rt.alloc(), "sim")?;
    words.push(String::from_str(rt.alloc(), "x")?)?;
    let two = on_zeros(&rt, words.as_slice(), 1)?;
    assert_eq!(rt; two, Some(Status::Usage(2)));
    Ok(())
}

/// Words outside the grammar, and the place of the first that is so.
const BAD_WORDS: [(&str, u32); 10] = [
    ("", 1),
    ("run", 1),
    ("check --workers 2", 2),
    ("sim 2", 2),
    ("sim --workers", 3),
    ("sim --workers 0", 3),
    ("sim --workers 9", 3),
    ("sim --workers 02", 3),
    ("sim --workers 8 --workers", 4),
    ("--workers 2 sim", 1),
];

#[test]
fn words_outside_the_grammar(rt: HostRuntime) -> Result<(), Fail> {
    for (text, place) in BAD_WORDS {
        let words = call_of(rt.alloc(), text)?;
        let status = on_zeros(&rt, words.as_slice(), 1)?;
        assert_eq!(rt; status, Some(Status::Usage(place)));
    }
    Ok(())
}

#[test]
fn the_limit(rt: HostRuntime) -> Result<(), Fail> {
    let words = call_of(rt.alloc(), "sim")?;
    let within = on_zeros(&rt, words.as_slice(), 67_108_864)?;
    assert_eq!(rt; within, Some(Status::BadInput(1)));
    let past = on_zeros(&rt, words.as_slice(), 67_108_865)?;
    assert_eq!(rt; past, Some(Status::Limit(Counted::Bytes, 67_108_865)));
    Ok(())
}
