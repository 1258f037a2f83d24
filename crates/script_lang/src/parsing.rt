//! The reading of a whole script.

ghost use Rattle.std.specs.Prelude.{◌≡◌, ◌⊎◌, OnOk, IfOk, IfErr, Ok, Err};
ghost use Rattle.script_lang.specs.Ranges.{HandBytes};
ghost use Rattle.script_lang.specs.Telling.{IsInRange};
ghost use Rattle.script_lang.specs.Parsing.{with_told, IsReadOf};

use crate::lines::{Told, told_line};
use crate::scripts::{Script, ScriptEvent};
use crate::text::first_line;
use rule_model::DeviceLine;
use schc_ids::limits::{MAX_DEVICES, MAX_EVENTS};
use std::alloc::{AllocError, Global};
use thiserror::Error;

/// What is counted up to a limit.
#[derive(Clone, Copy, Debug, PartialEq, Eq)]
pub enum Counted {
    /// The bytes of an input.
    Bytes,
    /// The events of a script.
    Events,
    /// The devices of a script.
    Devices,
}

/// Why a text is no script.
#[derive(Clone, Copy, Debug, PartialEq, Eq, Error)]
pub enum ScriptFault {
    /// The line with this number, counted from 1, is the first one outside the grammar.
    #[error("line {0} is no line of a script")]
    BadLine(u64),
    /// A line makes more events or devices than a script may have: what is counted, and the number
    /// that is reached.
    #[error("a limit of scripts is passed at {1}")]
    TooMany(Counted, u64),
    /// Memory is wanting.
    #[error("memory is wanting")]
    Memory,
}

impl From<AllocError> for ScriptFault {
    ghost use Rattle.std.specs.Prelude.{◌≡◌};
    ghost use Rattle.script_lang.specs.declared.parsing.ScriptFault.TheVariants.{Memory};

    ghost from_gives = { λ _ fault. fault ≡ Memory };

    fn from(_: AllocError) -> ScriptFault {
        ScriptFault::Memory
    }
}

/// Declares a device that a line declares.
///
/// # Errors
/// `TooMany` where there are as many devices as a script may have; want of memory.
fn add_device(script: &mut Script, device: DeviceLine) -> Result<(), ScriptFault>
    requires { IsInRange script.old.devices (Told.Declares device) }
    ensures told { OnOk result (with_told script.old (Told.Declares device) ≡ Ok script.new) }
    ensures refused { IfErr result (λ fault. (fault ≡ ScriptFault.Memory) ⊎
        (with_told script.old (Told.Declares device) ≡ Err fault)) }
    ensures bytes { OnOk result (HandBytes script.new.events) }
{
    if script.devices().len() >= MAX_DEVICES {
        return Err(ScriptFault::TooMany(Counted::Devices, MAX_DEVICES as u64 + 1));
    }
    script.declare(device)?;
    Ok(())
}

/// Adds an event that a line tells.
///
/// # Errors
/// `TooMany` where there are as many events as a script may have; want of memory.
fn add_event(script: &mut Script, event: ScriptEvent) -> Result<(), ScriptFault>
    requires { IsInRange script.old.devices (Told.Happens event) }
    ensures told { OnOk result (with_told script.old (Told.Happens event) ≡ Ok script.new) }
    ensures refused { IfErr result (λ fault. (fault ≡ ScriptFault.Memory) ⊎
        (with_told script.old (Told.Happens event) ≡ Err fault)) }
    ensures bytes { OnOk result (HandBytes script.new.events) }
{
    if script.events().len() >= MAX_EVENTS {
        return Err(ScriptFault::TooMany(Counted::Events, MAX_EVENTS as u64 + 1));
    }
    script.add(event.device, event.event)?;
    Ok(())
}

/// Adds what one more line tells.
///
/// # Errors
/// `TooMany` where that is one device or one event too many; want of memory.
fn add_told(script: &mut Script, told: Told) -> Result<(), ScriptFault>
    requires { IsInRange script.old.devices told }
    ensures told { OnOk result (with_told script.old told ≡ Ok script.new) }
    ensures refused { IfErr result (λ fault. (fault ≡ ScriptFault.Memory) ⊎
        (with_told script.old told ≡ Err fault)) }
    ensures bytes { HandBytes script.old.events → OnOk result (HandBytes script.new.events) }
{
    match told {
        Told::Nothing => Ok(()),
        Told::Declares(device) => add_device(script, device),
        Told::Happens(event) => add_event(script, event),
    }
}

/// The script that a text is.
///
/// # Errors
/// `BadLine` with the first line outside the grammar, `TooMany` with the first device or event past
/// its limit, whichever line is the earlier; and want of memory.
pub fn parse(alloc: Global, text: &[u8]) -> Result<Script, ScriptFault>
    ensures read { IsReadOf text.now result }
    ensures bytes { IfOk result (λ script. HandBytes script.events) }
{
    let mut script = Script::new(alloc);
    let mut rest = text;
    let mut number = 0;
    while !rest.is_empty() {
        number += 1;
        let (line, after) = first_line(rest);
        match told_line(alloc, &script, line)? {
            Some(told) => add_told(&mut script, told)?,
            None => return Err(ScriptFault::BadLine(number)),
        }
        rest = after;
    }
    Ok(script)
}
