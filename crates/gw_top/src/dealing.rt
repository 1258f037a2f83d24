//! The events of a script, dealt out to its devices once.

ghost use Rattle.std.specs.Prelude.{◌≡◌, ◌∷◌, ◌++◌, [], ℕ, nat_eq, IfOk, OnOk};
ghost use Rattle.std.specs.Option.{option_copied};
ghost use Rattle.indexmap.specs.IndexMap.{get};
ghost use Rattle.event_data.specs.Events.{view_event};
ghost use Rattle.gw_top.specs.Dealing.{
  publications_in,
  none_yet,
  with_turn,
  dealt_publications,
  dealt_turns,
  PutsTurn,
  IsDealt,
};

use crate::shares::is_publication;
use event_data::WorldEvent;
use indexmap::IndexMap;
use rule_model::DeviceLine;
use script_lang::ScriptEvent;
use std::alloc::{AllocError, Global};
use std::marker::Model;

/// An event of one device alone, and how many publications stand before it in the script.
#[derive(Drop)]
pub(crate) struct Turn<'a> {
    pub(crate) before: usize,
    pub(crate) event: &'a WorldEvent,
}

impl<'a> Model for Turn<'a> {
    ghost use Rattle.event_data.specs.Events.{view_event};
    ghost use Rattle.gw_top.specs.Turns.{TurnData};

    ghost Value = { TurnData };

    ghost view = { λ t. record { before = t.before; event = view_event t.event.now } };
}

/// The events of one device in their order. A contract sees them as a list.
#[derive(Drop)]
pub(crate) struct Turns<'a> {
    turns: Vec<Turn<'a>>,
}

impl<'a> Model for Turns<'a> {
    ghost use Rattle.std.specs.Prelude.{List};
    ghost use Rattle.gw_top.specs.Turns.{TurnData};

    ghost Value = { List TurnData };

    ghost view = { λ t. t.turns.items };
}

impl<'a> Turns<'a> {
    /// No events.
    fn new(alloc: Global) -> Turns<'a>
        ensures { result ≡ [] }
    {
        Turns {
            turns: Vec::new(alloc),
        }
    }

    /// Puts an event last.
    ///
    /// # Errors
    /// Want of memory.
    fn push(&mut self, turn: Turn<'a>) -> Result<(), AllocError>
        ensures { OnOk result (self.new ≡ self.old ++ turn.entry ∷ []) }
    {
        self.turns.push(turn)?;
        Ok(())
    }

    /// The events as a slice.
    pub(crate) fn as_slice(&self) -> &[Turn<'a>]
        ensures { result.now ≡ self.now }
    {
        self.turns.as_slice()
    }
}

/// What the devices of a script have to do: each its own events, and all of them the publications,
/// which stand here once.
#[derive(Drop)]
pub(crate) struct Dealt<'a> {
    turns: IndexMap<u16, Turns<'a>>,
    publications: Vec<&'a WorldEvent>,
}

/// The devices in order of declaration, none of which has an event yet.
///
/// # Errors
/// Want of memory.
fn without_turns<'a>(
    alloc: Global,
    devices: &[DeviceLine],
) -> Result<IndexMap<u16, Turns<'a>>, AllocError>
    ensures { IfOk result (λ turns. (number : ℕ)
        → get nat_eq turns number ≡ none_yet devices.now number) }
{
    let mut turns = IndexMap::new(alloc);
    for device in devices {
        if turns.insert(device.number, Turns::new(alloc)).is_err() {
            return Err(AllocError);
        }
    }
    Ok(turns)
}

/// Puts an event last among those of the device with this number, if there is one.
///
/// # Errors
/// Want of memory.
fn put_turn<'a>(
    turns: &mut IndexMap<u16, Turns<'a>>,
    number: u16,
    turn: Turn<'a>,
) -> Result<(), AllocError>
    ensures { OnOk result ((other : ℕ)
        → get nat_eq turns.new other ≡ with_turn number turn.entry (get nat_eq turns.old) other) }
{
    match turns.get_mut(&number) {
        Some(list) => list.push(turn),
        None => Ok(()),
    }
}

impl<'a> Dealt<'a> {
    /// Deals one more event out: a publication to all devices, any other event to its own.
    ///
    /// # Errors
    /// Want of memory.
    fn add(&mut self, event: &'a ScriptEvent) -> Result<(), AllocError>
        ensures publications { OnOk result (
            dealt_publications self.new
            ≡ dealt_publications self.old ++ publications_in (event.now ∷ [])) }
        ensures turns { OnOk result (PutsTurn event.now self.old self.new) }
    {
        if is_publication(&event.event) {
            self.publications.push(&event.event)?;
            return Ok(());
        }
        let turn = Turn {
            before: self.publications.len(),
            event: &event.event,
        };
        put_turn(&mut self.turns, event.device, turn)
    }

    /// The publications in the script's order.
    pub(crate) fn publications(&self) -> &[&'a WorldEvent]
        ensures { result.now ≡ self.now.publications.items }
    {
        self.publications.as_slice()
    }

    /// The events of the device with this number alone, if it is declared.
    pub(crate) fn turns_of(&self, number: u16) -> Option<&Turns<'a>>
        ensures { option_copied result ≡ dealt_turns self.now number }
    {
        self.turns.get(&number)
    }
}

/// The events dealt out to their devices. An event of a device that isn't declared is left out.
///
/// # Errors
/// Want of memory.
pub(crate) fn deal<'a>(
    alloc: Global,
    devices: &[DeviceLine],
    events: &'a [ScriptEvent],
) -> Result<Dealt<'a>, AllocError>
    ensures { IfOk result (λ dealt. IsDealt devices.now events.now dealt) }
{
    let mut dealt = Dealt {
        turns: without_turns(alloc, devices)?,
        publications: Vec::new(alloc),
    };
    for event in events {
        dealt.add(event)?;
    }
    Ok(dealt)
}
