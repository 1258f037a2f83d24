//! The lines that tell what happens to a device.

ghost use Rattle.std.specs.Prelude.{◌≡◌, map, IfOk, IfSome};
ghost use Rattle.std.specs.Option.{option_map};
ghost use Rattle.event_data.specs.Events.{view_event};
ghost use Rattle.script_lang.specs.Telling.{IsOneDevices, CanHappen};
ghost use Rattle.script_lang.specs.Grammar.{
  role_of,
  target_of,
  direction_of,
  slot_event,
  abort_event,
  tick_event,
  hand_event,
  deliver_event,
  end_and_edition,
  offer_event,
  allow_event,
  told_event,
  device_event,
  event_in,
};

use crate::scripts::{Script, ScriptEvent};
use crate::text::{edition_number, number, packet, small_number};
use event_data::{Target, WorldEvent};
use schc_bits::Octets;
use schc_ids::{Direction, Role};
use std::alloc::{AllocError, Global};

fn role(word: &[u8]) -> Option<Role>
    ensures { result ≡ role_of word.now }
{
    if word == b"dev".as_slice() {
        Some(Role::Device)
    } else if word == b"gw".as_slice() {
        Some(Role::Gateway)
    } else {
        None
    }
}

fn target(word: &[u8]) -> Option<Target>
    ensures { result ≡ target_of word.now }
{
    if word == b"dev".as_slice() {
        Some(Target::Device)
    } else if word == b"gw".as_slice() {
        Some(Target::Gateway)
    } else if word == b"both".as_slice() {
        Some(Target::Both)
    } else {
        None
    }
}

fn direction(word: &[u8]) -> Option<Direction>
    ensures { result ≡ direction_of word.now }
{
    if word == b"up".as_slice() {
        Some(Direction::Up)
    } else if word == b"down".as_slice() {
        Some(Direction::Down)
    } else {
        None
    }
}

/// The event of `slot N E`, after its N.
#[tactic(auto, unfolding(crate::specs::Grammar::slot_event))]
fn slot_event(end: &[u8]) -> Option<WorldEvent>
    ensures event { option_map view_event result ≡ slot_event end.now }
    ensures in_range { IfSome result (λ event. IsOneDevices (view_event event)) }
{
    Some(WorldEvent::Slot(role(end)?))
}

/// The event of `abort N E`, after its N.
#[tactic(auto, unfolding(crate::specs::Grammar::abort_event))]
fn abort_event(end: &[u8]) -> Option<WorldEvent>
    ensures event { option_map view_event result ≡ abort_event end.now }
    ensures in_range { IfSome result (λ event. IsOneDevices (view_event event)) }
{
    Some(WorldEvent::Abort(role(end)?))
}

/// The event of `tick N dev|gw|both`, after its N.
#[tactic(auto, unfolding(crate::specs::Grammar::tick_event))]
fn tick_event(ends: &[u8]) -> Option<WorldEvent>
    ensures event { option_map view_event result ≡ tick_event ends.now }
    ensures in_range { IfSome result (λ event. IsOneDevices (view_event event)) }
{
    Some(WorldEvent::Tick(target(ends)?))
}

/// The event of `deliver N up|down K`, after its N.
#[tactic(auto, unfolding(crate::specs::Grammar::deliver_event))]
fn deliver_event(way: &[u8], place: &[u8]) -> Option<WorldEvent>
    ensures event { option_map view_event result ≡ deliver_event way.now place.now }
    ensures in_range { IfSome result (λ event. IsOneDevices (view_event event)) }
{
    let direction = direction(way)?;
    let place = number(place)?;
    Some(WorldEvent::Deliver(direction, place))
}

/// The end and the number of an edition that two words name.
#[tactic(auto, unfolding(crate::specs::Grammar::end_and_edition))]
fn end_and_edition(end: &[u8], edition: &[u8]) -> Option<(Role, u32)>
    ensures { result ≡ end_and_edition end.now edition.now }
{
    let role = role(end)?;
    let number = edition_number(edition)?;
    Some((role, number))
}

/// The event of `offer N E NUMBER`, after its N.
#[tactic(auto, unfolding(crate::specs::Grammar::offer_event))]
fn offer_event(end: &[u8], edition: &[u8]) -> Option<WorldEvent>
    ensures event { option_map view_event result ≡ offer_event end.now edition.now }
    ensures in_range { IfSome result (λ event. IsOneDevices (view_event event)) }
{
    let (role, number) = end_and_edition(end, edition)?;
    Some(WorldEvent::Offer(role, number))
}

/// The event of `allow N E NUMBER`, after its N.
#[tactic(auto, unfolding(crate::specs::Grammar::allow_event))]
fn allow_event(end: &[u8], edition: &[u8]) -> Option<WorldEvent>
    ensures event { option_map view_event result ≡ allow_event end.now edition.now }
    ensures in_range { IfSome result (λ event. IsOneDevices (view_event event)) }
{
    let (role, number) = end_and_edition(end, edition)?;
    Some(WorldEvent::Allow(role, number))
}

/// The event of `hand N E HEX`, after its N.
///
/// # Errors
/// Want of memory.
#[tactic(auto, unfolding(crate::specs::Grammar::hand_event))]
fn hand_event(alloc: Global, end: &[u8], hex: &[u8]) -> Result<Option<WorldEvent>, AllocError>
    ensures event { IfOk result
        (λ event. option_map view_event event ≡ hand_event end.now hex.now) }
    ensures in_range { IfOk result (λ event. IfSome event (λ e. IsOneDevices (view_event e))) }
{
    let Some(role) = role(end) else {
        return Ok(None);
    };
    match packet(alloc, hex)? {
        Some(bytes) => {
            let mut packet = Octets::new(alloc);
            packet.extend_from(bytes.as_slice())?;
            Ok(Some(WorldEvent::Down(role, packet)))
        }
        None => Ok(None),
    }
}

/// The event that words tell: the name of what happens, and what follows the device's number.
///
/// # Errors
/// Want of memory.
#[tactic(auto, unfolding(crate::specs::Grammar::told_event))]
fn told_event(alloc: Global, name: &[u8], words: &[&[u8]]) -> Result<Option<WorldEvent>, AllocError>
    ensures event { IfOk result (λ event. option_map view_event event ≡ told_event name.now
        (map (λ word. word.now) words.now)) }
    ensures in_range { IfOk result (λ event. IfSome event (λ e. IsOneDevices (view_event e))) }
{
    match words {
        [x] => {
            if name == b"slot".as_slice() {
                Ok(slot_event(x))
            } else if name == b"tick".as_slice() {
                Ok(tick_event(x))
            } else if name == b"abort".as_slice() {
                Ok(abort_event(x))
            } else {
                Ok(None)
            }
        }
        [x, y] => {
            if name == b"hand".as_slice() {
                hand_event(alloc, x, y)
            } else if name == b"deliver".as_slice() {
                Ok(deliver_event(x, y))
            } else if name == b"offer".as_slice() {
                Ok(offer_event(x, y))
            } else if name == b"allow".as_slice() {
                Ok(allow_event(x, y))
            } else {
                Ok(None)
            }
        }
        _ => Ok(None),
    }
}

/// The event of the device with this number that words tell, where the script declares it.
///
/// # Errors
/// Want of memory.
#[tactic(auto, unfolding(crate::specs::Grammar::device_event))]
fn device_event(
    alloc: Global,
    script: &Script,
    device: u16,
    name: &[u8],
    words: &[&[u8]],
) -> Result<Option<ScriptEvent>, AllocError>
    ensures event { IfOk result (λ event. event ≡ device_event script.now.devices device name.now
        (map (λ word. word.now) words.now)) }
    ensures in_range { IfOk result
        (λ event. IfSome event (λ e. CanHappen script.now.devices e.device e.event)) }
{
    if !script.is_declared(device) {
        return Ok(None);
    }
    match told_event(alloc, name, words)? {
        Some(event) => Ok(Some(ScriptEvent { device, event })),
        None => Ok(None),
    }
}

/// The event that a line of these words tells, where the script declares its device.
///
/// # Errors
/// Want of memory.
#[tactic(auto, unfolding(crate::specs::Grammar::event_in))]
pub(crate) fn event(
    alloc: Global,
    script: &Script,
    words: &[&[u8]],
) -> Result<Option<ScriptEvent>, AllocError>
    ensures event { IfOk result (λ event. event ≡ event_in script.now.devices
        (map (λ word. word.now) words.now)) }
    ensures in_range { IfOk result
        (λ event. IfSome event (λ e. CanHappen script.now.devices e.device e.event)) }
{
    match words {
        [name, number, rest @ ..] => match small_number(number) {
            Some(device) => device_event(alloc, script, device, name, rest),
            None => Ok(None),
        },
        _ => Ok(None),
    }
}
