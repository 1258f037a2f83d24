//! The line that is printed of a run.

ghost use Rattle.std.specs.Prelude.{◌≡◌, IfOk, string_bytes};
ghost use Rattle.load_totals.specs.Totals.{totals_text};

use crate::totals::Totals;
use std::alloc::{AllocError, Global};

/// The line of a run of so many devices and events: all of its numbers, ended by a line feed.
///
/// # Errors
/// Want of memory.
#[tactic(auto, unfolding(crate::specs::Totals::totals_text))]
pub fn totals_text(
    alloc: Global,
    devices: usize,
    events: usize,
    totals: &Totals,
) -> Result<String, AllocError>
    ensures { IfOk result (λ text. string_bytes text ≡ totals_text devices events totals.now) }
{
    let packets = totals.packets;
    let frames = totals.frames;
    let up = totals.up;
    let delivered = totals.delivered;
    let octets = totals.octets;
    let mut text = String::new(alloc);
    write!(
        text,
        "devices {devices} events {events} packets {packets} frames {frames}"
    )?;
    write!(text, " up {up} delivered {delivered} octets {octets}\n")?;
    Ok(text)
}
