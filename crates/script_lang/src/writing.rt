//! The writing of a script as text.

ghost use Rattle.std.specs.Prelude.{◌≡◌, ◌++◌, ◌∷◌, [], List, map, OnOk, IfOk, string_bytes};
ghost use Rattle.std.specs.List.{AllByRecursion};
ghost use Rattle.schc_bits.specs.Bits.{AreBytes};
ghost use Rattle.schc_ids.specs.Params.{IsParams};
ghost use Rattle.rule_json.specs.Written.{edition_text, CanBeSpelt};
ghost use Rattle.rule_json.specs.Texts.{edition_of};
ghost use Rattle.event_data.specs.Events.{view_event, Publish};
ghost use Rattle.script_lang.specs.Ranges.{
  HaveParams,
  HandBytes,
  HaveSpellings,
  HandsBytes,
  HasSpelling,
};
ghost use Rattle.script_lang.specs.Spelling.{spelled, role_word, direction_word, target_word};
ghost use Rattle.script_lang.specs.Parsing.{ParsesTo};
ghost use Rattle.script_lang.specs.Writing.{
  iid_word,
  mode_word,
  last_word,
  timers_words,
  options_words,
  device_line,
  event_line,
  text_of_lines,
  script_text,
};
ghost use Rattle.script_lang.specs.Reading.{
  HasNumbers,
  HaveNumbers,
  IsEveryones,
  AreEveryones,
  EventReads,
  AllRead,
};

use crate::scripts::{Script, ScriptEvent};
use event_data::{Target, WorldEvent};
use rule_json::write_edition;
use rule_model::{DeviceLine, RawEdition};
use schc_bits::Octets;
use schc_ids::{Direction, EndParams, LastTile, Role, TimerTicks};
use std::alloc::{AllocError, Global};

fn role_word(role: Role) -> &'static str
    ensures { result.now ≡ role_word role }
{
    match role {
        Role::Device => "dev",
        Role::Gateway => "gw",
    }
}

fn direction_word(direction: Direction) -> &'static str
    ensures { result.now ≡ direction_word direction }
{
    match direction {
        Direction::Up => "up",
        Direction::Down => "down",
    }
}

fn target_word(target: Target) -> &'static str
    ensures { result.now ≡ target_word target }
{
    match target {
        Target::Device => "dev",
        Target::Gateway => "gw",
        Target::Both => "both",
    }
}

/// The word after `mode`.
fn mode_word(acked: bool) -> &'static str
    ensures { result.now ≡ mode_word acked }
{
    if acked { "acked" } else { "noack" }
}

/// The word after `last`.
fn last_word(last: LastTile) -> &'static str
    ensures { result.now ≡ last_word last }
{
    match last {
        LastTile::InAll1 => "all1",
        LastTile::InRegular => "regular",
    }
}

/// The word of an interface identifier.
///
/// # Errors
/// Want of memory.
#[tactic(auto, unfolding(crate::specs::Writing::iid_word))]
fn iid_word(alloc: Global, iid: u64) -> Result<String, AllocError>
    ensures { IfOk result (λ word. string_bytes word ≡ iid_word iid) }
{
    hex::encode(alloc, iid.to_be_bytes())
}

/// The words after `timers`.
///
/// # Errors
/// Want of memory.
#[tactic(auto, unfolding(crate::specs::Writing::timers_words))]
fn timers_words(alloc: Global, ticks: TimerTicks) -> Result<String, AllocError>
    ensures { IfOk result (λ words. string_bytes words ≡ timers_words ticks) }
{
    let TimerTicks {
        retransmission,
        inactivity,
        linger,
        quiet,
    } = ticks;
    format!(in alloc; "{retransmission} {inactivity} {linger} {quiet}")
}

/// The words of all options of a device.
///
/// # Errors
/// Want of memory.
#[tactic(auto, unfolding(crate::specs::Writing::options_words))]
fn options_words(alloc: Global, params: EndParams) -> Result<String, AllocError>
    ensures { IfOk result (λ words. string_bytes words ≡ options_words params) }
{
    let mtu = params.mtu;
    let mode = mode_word(params.acked);
    let last = last_word(params.last);
    let timers = timers_words(alloc, params.ticks)?;
    format!(in alloc; "mtu {mtu} mode {mode} last {last} timers {timers}")
}

/// The line that declares a device.
///
/// # Errors
/// Want of memory.
#[tactic(auto, unfolding(crate::specs::Writing::device_line))]
fn device_line(alloc: Global, device: DeviceLine) -> Result<String, AllocError>
    ensures line { IfOk result (λ line. string_bytes line ≡ device_line device) }
    ensures numbers { HasNumbers device }
{
    let DeviceLine { number, params } = device;
    let dev = iid_word(alloc, params.iids.dev)?;
    let app = iid_word(alloc, params.iids.app)?;
    let options = options_words(alloc, params)?;
    format!(in alloc; "device {number} {dev} {app} {options}")
}

/// Writes a line for each device.
///
/// # Errors
/// Want of memory.
fn push_devices(alloc: Global, text: &mut Octets, devices: &[DeviceLine]) -> Result<(), AllocError>
    ensures text { OnOk result (text.new.items ≡ text.old.items ++ text_of_lines
        (map device_line devices.now)) }
    ensures numbers { OnOk result (HaveNumbers devices.now) }
{
    for device in devices {
        let line = device_line(alloc, *device)?;
        text.extend_from(line.as_bytes())?;
        text.push(b'\n')?;
    }
    Ok(())
}

/// Writes the line of a publication.
///
/// # Errors
/// Want of memory.
#[tactic(auto, unfolding(crate::specs::Spelling::spelled))]
fn push_publication(
    alloc: Global,
    text: &mut Octets,
    edition: &RawEdition,
) -> Result<(), AllocError>
    requires { CanBeSpelt edition.now }
    ensures line { OnOk result (text.new.items ≡ text.old.items ++ spelled 0 (Publish edition.now)) }
    ensures reads { OnOk result (edition_of (edition_text edition.now) ≡ Some edition.now) }
{
    let json = write_edition(alloc, edition)?;
    text.extend_from(b"publish ".as_slice())?;
    text.extend_from(json.as_slice())
}

/// Writes the words of an event, without a line feed.
///
/// # Errors
/// Want of memory.
#[tactic(auto, unfolding(crate::specs::Spelling::spelled))]
fn push_words(
    alloc: Global,
    text: &mut Octets,
    device: u16,
    event: &WorldEvent,
) -> Result<(), AllocError>
    requires bytes { HandsBytes (view_event event.now) }
    requires spelling { HasSpelling (view_event event.now) }
    requires everyones { IsEveryones device (view_event event.now) }
    ensures line { OnOk result (text.new.items ≡ text.old.items ++ spelled device
        (view_event event.now)) }
    ensures numbers { OnOk result (EventReads device (view_event event.now)) }
{
    match event {
        WorldEvent::Down(role, packet) => {
            let role = role_word(*role);
            let hex = hex::encode(alloc, packet.as_slice())?;
            let line = format!(in alloc; "hand {device} {role} {hex}")?;
            text.extend_from(line.as_bytes())
        }
        WorldEvent::Slot(role) => {
            let role = role_word(*role);
            let line = format!(in alloc; "slot {device} {role}")?;
            text.extend_from(line.as_bytes())
        }
        WorldEvent::Deliver(direction, place) => {
            let direction = direction_word(*direction);
            let place = *place;
            let line = format!(in alloc; "deliver {device} {direction} {place}")?;
            text.extend_from(line.as_bytes())
        }
        WorldEvent::Tick(target) => {
            let target = target_word(*target);
            let line = format!(in alloc; "tick {device} {target}")?;
            text.extend_from(line.as_bytes())
        }
        WorldEvent::Abort(role) => {
            let role = role_word(*role);
            let line = format!(in alloc; "abort {device} {role}")?;
            text.extend_from(line.as_bytes())
        }
        WorldEvent::Publish(edition) => push_publication(alloc, text, edition),
        WorldEvent::Offer(role, number) => {
            let role = role_word(*role);
            let number = *number;
            let line = format!(in alloc; "offer {device} {role} {number}")?;
            text.extend_from(line.as_bytes())
        }
        WorldEvent::Allow(role, number) => {
            let role = role_word(*role);
            let number = *number;
            let line = format!(in alloc; "allow {device} {role} {number}")?;
            text.extend_from(line.as_bytes())
        }
    }
}

/// Writes the line of an event.
///
/// # Errors
/// Want of memory.
fn push_event(alloc: Global, text: &mut Octets, event: &ScriptEvent) -> Result<(), AllocError>
    requires bytes { HandsBytes event.now.event }
    requires spelling { HasSpelling event.now.event }
    requires everyones { IsEveryones event.now.device event.now.event }
    ensures line { OnOk result (text.new.items ≡ text.old.items ++ (event_line event.now ++ 10 ∷ [])) }
    ensures reads { OnOk result (EventReads event.now.device event.now.event) }
{
    push_words(alloc, text, event.device, &event.event)?;
    text.push(b'\n')
}

/// Writes a line for each event.
///
/// # Errors
/// Want of memory.
fn push_events(alloc: Global, text: &mut Octets, events: &[ScriptEvent]) -> Result<(), AllocError>
    requires bytes { HandBytes events.now }
    requires spelling { HaveSpellings events.now }
    requires everyones { AreEveryones events.now }
    ensures text { OnOk result (text.new.items ≡ text.old.items ++ text_of_lines
        (map event_line events.now)) }
    ensures reads { OnOk result (AllRead events.now) }
{
    for event in events {
        push_event(alloc, text, event)?;
    }
    Ok(())
}

/// The text of a script: a line for each device, with all its options, and then a line for each
/// event.
/// It is read as the same script.
///
/// # Errors
/// Want of memory.
pub fn write(alloc: Global, script: &Script) -> Result<Octets, AllocError>
    ensures text { IfOk result (λ text. text.items ≡ script_text script.now) }
    ensures reads_back { IfOk result (λ text. ParsesTo text.items script.now) }
{
    let devices = script.devices();
    let events = script.events();
    let mut text = Octets::new(alloc);
    push_devices(alloc, &mut text, devices)?;
    push_events(alloc, &mut text, events)?;
    Ok(text)
}
