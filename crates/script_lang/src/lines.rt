//! What one line of a script tells.

ghost use Rattle.std.specs.Prelude.{◌≡◌, ◌==◌, List, map, IfOk, IfSome};
ghost use Rattle.std.specs.Option.{option_map};
ghost use Rattle.schc_ids.specs.Params.{IsParams};
ghost use Rattle.script_lang.specs.Devices.{device_in};
ghost use Rattle.script_lang.specs.Grammar.{
  published_text,
  publication,
  is_passed_over,
  own_device,
  told_by_words,
  told_by_text,
  told_by,
};
ghost use Rattle.script_lang.specs.Telling.{CanHappen, IsInRange};

use crate::devices::device;
use crate::happenings::event;
use crate::scripts::{Script, ScriptEvent};
use crate::text::words;
use event_data::WorldEvent;
use rule_json::{JsonFault, read_edition};
use rule_model::DeviceLine;
use std::alloc::{AllocError, Global};

/// The text after `publish` and one space.
#[tactic(auto, unfolding(crate::specs::Grammar::published_text))]
fn published_text(line: &[u8]) -> Option<&[u8]>
    ensures { option_map (λ text. text.now) result ≡ published_text line.now }
{
    if line.len() < 8 {
        return None;
    }
    let (name, text) = line.split_at(8);
    if name == b"publish ".as_slice() {
        Some(text)
    } else {
        None
    }
}

/// A publication of the edition that a text is.
///
/// # Errors
/// Want of memory.
#[tactic(auto, unfolding(crate::specs::Grammar::publication))]
fn publication(alloc: Global, text: &[u8]) -> Result<Option<ScriptEvent>, AllocError>
    ensures event { IfOk result (λ event. event ≡ publication text.now) }
    ensures in_range { IfOk result
        (λ event. IfSome event
        (λ e. (devices : List DeviceLine) → CanHappen devices e.device e.event)) }
{
    match read_edition(alloc, text) {
        Ok(edition) => Ok(Some(ScriptEvent {
            device: 0,
            event: WorldEvent::Publish(edition),
        })),
        Err(JsonFault::Memory) => Err(AllocError),
        Err(_) => Ok(None),
    }
}

/// Whether the line is empty or begins with `#`.
fn is_passed_over(line: &[u8]) -> bool
    ensures { result ≡ is_passed_over line.now }
{
    match line {
        [] => true,
        [byte, ..] => *byte == b'#',
    }
}

/// What a line tells.
#[derive(Drop)]
pub(crate) enum Told {
    /// The line is passed over.
    Nothing,
    /// The line declares this device.
    Declares(DeviceLine),
    /// The line tells this event.
    Happens(ScriptEvent),
}

/// A device that a line declares, where the script doesn't declare its number before.
fn own_device(script: &Script, device: DeviceLine) -> Option<Told>
    requires { IsParams device.params }
    ensures told { result ≡ own_device script.now.devices device }
    ensures in_range { IfSome result (IsInRange script.now.devices) }
{
    if script.is_declared(device.number) {
        None
    } else {
        Some(Told::Declares(device))
    }
}

/// What words tell: a device where they declare one, else an event.
///
/// # Errors
/// Want of memory.
#[tactic(auto, unfolding(crate::specs::Grammar::told_by_words))]
fn told_by_words(
    alloc: Global,
    script: &Script,
    words: &[&[u8]],
) -> Result<Option<Told>, AllocError>
    ensures told { IfOk result (λ told. let words = map (λ word. word.now) words.now in told
        ≡ told_by_words script.now.devices (device_in words) words) }
    ensures in_range { IfOk result (λ told. IfSome told (IsInRange script.now.devices)) }
{
    match device(words) {
        Some(device) => Ok(own_device(script, device)),
        None => match event(alloc, script, words)? {
            Some(event) => Ok(Some(Told::Happens(event))),
            None => Ok(None),
        },
    }
}

/// What a line tells, where the script is what stands before it.
///
/// # Errors
/// Want of memory.
#[tactic(auto, unfolding(crate::specs::Grammar::told_by, crate::specs::Grammar::told_by_text))]
pub(crate) fn told_line(
    alloc: Global,
    script: &Script,
    line: &[u8],
) -> Result<Option<Told>, AllocError>
    ensures told { IfOk result (λ told. told ≡ told_by script.now.devices line.now) }
    ensures in_range { IfOk result (λ told. IfSome told (IsInRange script.now.devices)) }
{
    if is_passed_over(line) {
        return Ok(Some(Told::Nothing));
    }
    match published_text(line) {
        Some(text) => match publication(alloc, text)? {
            Some(event) => Ok(Some(Told::Happens(event))),
            None => Ok(None),
        },
        None => {
            let words = words(alloc, line)?;
            told_by_words(alloc, script, words.as_slice())
        }
    }
}
