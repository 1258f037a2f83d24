//! Sets of many timers, for many ticks.

ghost use Rattle.std.specs.Prelude.{◌≡◌, length};

use std::alloc::{AllocError, Global};
use std::process::ExitCode;
use timers::TimerSet;

const KEYS: u32 = 65_536;

const TICKS: u32 = 1_000_000;

/// Says whether each of 65,536 keys is due once and at its tick.
pub fn due(rt: &HostRuntime) -> Result<ExitCode, AllocError> {
    let (due, in_order) = run_due(rt.alloc())?;
    let said = println!(rt; "{due} keys were due, in order: {in_order}");
    Ok(ExitCode::from(u8::from(said.is_err() || !in_order)))
}

/// Says how many of so many keys, armed with 1,000,000 ticks, are due within 900,000.
pub fn idle(rt: &HostRuntime, keys: u32) -> Result<ExitCode, AllocError> {
    let due = run_idle(rt.alloc(), keys)?;
    let said = println!(rt; "{due} of {keys} keys were due");
    Ok(ExitCode::from(u8::from(said.is_err())))
}

/// The keys that were due, and whether each was due at its tick, and none else.
fn run_due(alloc: Global) -> Result<(u32, bool), AllocError> {
    let mut timers = TimerSet::new(alloc, KEYS)?;
    for key in 0..KEYS {
        timers.arm(key, 15 * (key + 1));
    }
    let mut due = 0u32;
    let mut in_order = true;
    for tick in 1..=TICKS {
        timers.tick();
        let first = timers.due();
        let second = timers.due();
        in_order = in_order && first == expected_at(tick) && second.is_none();
        due = due.saturating_add(u32::from(first.is_some()));
    }
    Ok((due, in_order))
}

/// The key that is due at the tick.
fn expected_at(tick: u32) -> Option<u32> {
    if tick % 15 == 0 && 15 <= tick && tick / 15 <= KEYS {
        Some(tick / 15 - 1)
    } else {
        None
    }
}

/// The keys that were due.
fn run_idle(alloc: Global, keys: u32) -> Result<u32, AllocError> {
    let mut timers = TimerSet::new(alloc, keys)?;
    for key in 0..keys {
        timers.arm(key, TICKS);
    }
    let mut due = 0u32;
    for _ in 0..900_000 {
        timers.tick();
        due = due.saturating_add(u32::from(timers.due().is_some()));
    }
    Ok(due)
}
