//! What happens to a packet of a load.

ghost use Rattle.std.specs.Prelude.{◌≡◌, ◌+◌, ◌*◌, ◌<◌, ◌≤◌, ◌∷◌, ◌++◌, [], true, length, OnOk};
ghost use Rattle.event_data.specs.Events.{view_event};
ghost use Rattle.script_lang.specs.Ranges.{max_events, is_declared};
ghost use Rattle.script_lang.specs.Telling.{IsOneDevices};
ghost use Rattle.load_maker.specs.Load.{
  at,
  pieces,
  frames_up,
  repeated,
  in_one_frame,
  session_answered,
  in_pieces,
  turn,
};

use crate::frames::{Frames, fits_frame, pieces};
use crate::packets::load_packet;
use event_data::{Target, WorldEvent};
use schc_ids::{Direction, Role};
use script_lang::Script;
use std::alloc::{AllocError, Global};

/// Adds an event of a device that is declared.
///
/// # Errors
/// Want of memory.
fn tell(script: &mut Script, device: u16, event: WorldEvent) -> Result<(), AllocError>
    requires declared { is_declared script.old.devices device ≡ true }
    requires ranges { IsOneDevices (view_event event) }
    requires few { length script.old.events < max_events }
    ensures events { OnOk result (script.new.events ≡ script.old.events ++ at device
        (view_event event) ∷ []) }
    ensures devices { script.new.devices ≡ script.old.devices }
{
    script.add(device, event)
}

/// Adds so many frames that go up, one after the other, the first of which has this number.
///
/// # Errors
/// Want of memory.
fn frames_up(script: &mut Script, device: u16, number: u64, count: u64) -> Result<(), AllocError>
    requires declared { is_declared script.old.devices device ≡ true }
    requires number { number ≤ 1000 }
    requires count { count ≤ 5 }
    requires few { length script.old.events + 2 * count ≤ max_events }
    ensures events { OnOk result (script.new.events ≡ script.old.events ++ frames_up device number
        count) }
    ensures devices { script.new.devices ≡ script.old.devices }
    ensures many { OnOk result (length script.new.events ≡ length script.old.events + 2 * count) }
{
    for sent in 0..count {
        tell(script, device, WorldEvent::Slot(Role::Device))?;
        tell(
            script,
            device,
            WorldEvent::Deliver(Direction::Up, number + sent),
        )?;
    }
    Ok(())
}

/// Adds that the frame with this number arrives once more, where the draw is divisible by 4.
///
/// # Errors
/// Want of memory.
fn repeated(script: &mut Script, device: u16, draw: u16, number: u64) -> Result<(), AllocError>
    requires declared { is_declared script.old.devices device ≡ true }
    requires few { length script.old.events < max_events }
    ensures events { OnOk result (script.new.events ≡ script.old.events ++ repeated device draw number) }
    ensures devices { script.new.devices ≡ script.old.devices }
    ensures many { OnOk result (length script.new.events ≤ length script.old.events + 1) }
{
    if draw % 4 == 0 {
        tell(script, device, WorldEvent::Deliver(Direction::Up, number))
    } else {
        Ok(())
    }
}

/// Adds that a packet goes up in one frame.
///
/// # Errors
/// Want of memory.
#[tactic(auto, unfolding(crate::specs::Load::in_one_frame))]
fn in_one_frame(
    script: &mut Script,
    device: u16,
    draw: u16,
    frames: Frames,
) -> Result<(), AllocError>
    requires declared { is_declared script.old.devices device ≡ true }
    requires up { frames.up < 1000 }
    requires few { length script.old.events + 3 ≤ max_events }
    ensures events { OnOk result (script.new.events ≡ script.old.events ++ in_one_frame device draw
        frames) }
    ensures devices { script.new.devices ≡ script.old.devices }
    ensures many { OnOk result (length script.new.events ≤ length script.old.events + 3) }
{
    frames_up(script, device, frames.up + 1, 1)?;
    repeated(script, device, draw, frames.up + 1)
}

/// Adds that a session is answered, and that two ticks pass.
///
/// # Errors
/// Want of memory.
#[tactic(auto, unfolding(crate::specs::Load::session_answered))]
fn answered(script: &mut Script, device: u16, number: u64) -> Result<(), AllocError>
    requires declared { is_declared script.old.devices device ≡ true }
    requires few { length script.old.events + 4 ≤ max_events }
    ensures events { OnOk result (script.new.events ≡ script.old.events ++ session_answered device
        number) }
    ensures devices { script.new.devices ≡ script.old.devices }
    ensures many { OnOk result (length script.new.events ≡ length script.old.events + 4) }
{
    tell(script, device, WorldEvent::Slot(Role::Gateway))?;
    tell(script, device, WorldEvent::Deliver(Direction::Down, number))?;
    tell(script, device, WorldEvent::Tick(Target::Both))?;
    tell(script, device, WorldEvent::Tick(Target::Both))
}

/// Adds that a packet goes up as a session.
///
/// # Errors
/// Want of memory.
#[tactic(auto, unfolding(crate::specs::Load::in_pieces))]
fn in_pieces(script: &mut Script, device: u16, draw: u16, frames: Frames) -> Result<(), AllocError>
    requires declared { is_declared script.old.devices device ≡ true }
    requires up { frames.up < 1000 }
    requires down { frames.down < 1000 }
    requires few { length script.old.events + 14 ≤ max_events }
    ensures events { OnOk result (script.new.events ≡ script.old.events ++ in_pieces device draw frames) }
    ensures devices { script.new.devices ≡ script.old.devices }
    ensures many { OnOk result (length script.new.events ≤ length script.old.events + 14) }
{
    frames_up(script, device, frames.up + 1, pieces(draw))?;
    answered(script, device, frames.down + 1)
}

/// Adds the events of a device and of one draw, after these frames.
///
/// # Errors
/// Want of memory.
#[tactic(auto, unfolding(crate::specs::Load::turn))]
pub(crate) fn add_turn(
    alloc: Global,
    script: &mut Script,
    device: u16,
    draw: u16,
    frames: Frames,
) -> Result<(), AllocError>
    requires declared { is_declared script.old.devices device ≡ true }
    requires up { frames.up < 1000 }
    requires down { frames.down < 1000 }
    requires few { length script.old.events + 15 ≤ max_events }
    ensures events { OnOk result (script.new.events ≡ script.old.events ++ turn device draw frames) }
    ensures devices { script.new.devices ≡ script.old.devices }
    ensures many { OnOk result (length script.new.events ≤ length script.old.events + 15) }
{
    let packet = load_packet(alloc, device, draw)?;
    tell(script, device, WorldEvent::Down(Role::Device, packet))?;
    if fits_frame(draw) {
        in_one_frame(script, device, draw, frames)
    } else {
        in_pieces(script, device, draw, frames)
    }
}
