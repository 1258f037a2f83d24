//! What no clause says: that each call does its work on one happy path, and that the set of timers of
//! many keys gives each once and in order.

use crate::TimerSet;
use std::alloc::{AllocError, Global};

/// Four timers, one set anew and one cancelled, until none is armed.
fn few_are_due(alloc: Global) -> Result<bool, AllocError> {
    let mut timers = TimerSet::new(alloc, 4)?;
    timers.arm(3, 2);
    timers.arm(1, 2);
    timers.arm(0, 5);
    timers.arm(2, 1);
    timers.cancel(2);
    timers.cancel(9);
    timers.tick();
    let first = timers.due();
    timers.arm(0, 2);
    timers.tick();
    let second = timers.due();
    let third = timers.due();
    let fourth = timers.due();
    timers.tick();
    let fifth = timers.due();
    let sixth = timers.due();
    Ok(
        first.is_none()
            && second == Some(1)
            && third == Some(3)
            && fourth.is_none()
            && fifth == Some(0)
            && sixth.is_none(),
    )
}

/// Whether key k of 64, armed with 15 (k + 1) ticks, is due once, at that tick.
fn many_are_due(alloc: Global) -> Result<bool, AllocError> {
    let mut timers = TimerSet::new(alloc, 64)?;
    for key in 0..64u32 {
        timers.arm(key, 15 * (key + 1));
    }
    let mut in_order = true;
    for tick in 1..=1000u32 {
        timers.tick();
        let first = timers.due();
        let second = timers.due();
        in_order = in_order && first == expected_at(tick) && second.is_none();
    }
    Ok(in_order)
}

/// The key that is due at the tick.
fn expected_at(tick: u32) -> Option<u32> {
    if tick % 15 == 0 && 15 <= tick && tick <= 960 {
        Some(tick / 15 - 1)
    } else {
        None
    }
}

#[test]
fn timers_are_due_at_their_tick(rt: HostRuntime) -> Result<(), AllocError> {
    assert!(rt; few_are_due(rt.alloc())?);
    assert!(rt; many_are_due(rt.alloc())?);
    Ok(())
}
