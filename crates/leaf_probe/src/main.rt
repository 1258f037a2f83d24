//! Runs the timers and the reassembly check by themselves, for the checks and the measurements.
//!
//! `leaf_probe due`: 65,536 timers, key k armed with 15 (k + 1) ticks, for 1,000,000 ticks.
//! `leaf_probe idle KEYS`: so many timers, none of them due, for 900,000 ticks.
//! `leaf_probe rcs FROM CUT ..`: the check of the bits of the input from the bit FROM up to the last
//! cut, added in pieces that end at the cuts.
//! `leaf_probe again TIMES FROM`: the check of the bits of the input from the bit FROM on, so many
//! times one behind the other.
#![tactic(auto)]

mod checks;
mod timing;

use outside::{StdSource, read_all};
use std::env::Env;
use std::process::ExitCode;

/// The most bytes of a word, and the most bytes that are read.
const WORD_ROOM: usize = 32;

const INPUT_LIMIT: usize = 1 << 27;

fn main(rt: HostRuntime) -> ExitCode {
    match answer(&rt) {
        Some(code) => code,
        None => ExitCode::from(2),
    }
}

/// Does what the words ask for; none where they ask for nothing that there is.
fn answer(rt: &HostRuntime) -> Option<ExitCode> {
    let mut room = [0u8; WORD_ROOM];
    let size = rt.arg(1, &mut room).ok()?;
    let word = &room[..size];
    if word == b"due".as_slice() {
        return timing::due(rt).ok();
    }
    if word == b"idle".as_slice() {
        return timing::idle(rt, number(rt, 2)?.min(1 << 24) as u32).ok();
    }
    let bytes = read_all(rt.alloc(), &mut StdSource::new(rt.stdin()), INPUT_LIMIT).ok()?;
    if word == b"rcs".as_slice() {
        return checks::pieces(rt, bytes.as_slice());
    }
    if word == b"again".as_slice() {
        return checks::again(rt, bytes.as_slice(), number(rt, 2)?, number(rt, 3)?);
    }
    None
}

/// The number that the word at the place writes; none where there is no such word.
pub fn number(rt: &HostRuntime, place: usize) -> Option<usize> {
    let mut room = [0u8; WORD_ROOM];
    let size = rt.arg(place, &mut room).ok()?;
    str::from_utf8(&room[..size]).ok()?.parse().ok()
}
