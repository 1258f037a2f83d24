//! The words of events.

ghost use Rattle.std.specs.Prelude.{◌≡◌, ◌++◌, OnOk, string_bytes};
ghost use Rattle.event_data.specs.Events.{view_event};
ghost use Rattle.transcripts.specs.Lines.{event_text};

use crate::words::{direction_text, role_text, target_text};
use event_data::WorldEvent;
use std::alloc::AllocError;

/// Writes the words of an event, without the packet of a hand-down.
#[tactic(auto, unfolding(crate::specs::Lines::event_text))]
pub(crate) fn push_event(
    text: &mut String,
    device: u16,
    event: &WorldEvent,
) -> Result<(), AllocError>
    ensures { OnOk result (string_bytes text.new ≡ string_bytes text.old ++ event_text device (view_event event.now)) }
{
    match event {
        WorldEvent::Down(role, _) => {
            let role = role_text(*role);
            write!(text, "hand {device} {role}")
        }
        WorldEvent::Slot(role) => {
            let role = role_text(*role);
            write!(text, "slot {device} {role}")
        }
        WorldEvent::Deliver(direction, place) => {
            let direction = direction_text(*direction);
            write!(text, "deliver {device} {direction} {place}")
        }
        WorldEvent::Tick(target) => {
            let target = target_text(*target);
            write!(text, "tick {device} {target}")
        }
        WorldEvent::Abort(role) => {
            let role = role_text(*role);
            write!(text, "abort {device} {role}")
        }
        WorldEvent::Publish(_) => text.push_str("publish"),
        WorldEvent::Offer(role, number) => {
            let role = role_text(*role);
            write!(text, "offer {device} {role} {number}")
        }
        WorldEvent::Allow(role, number) => {
            let role = role_text(*role);
            write!(text, "allow {device} {role} {number}")
        }
    }
}
