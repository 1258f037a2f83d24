//! Scripts, as values.

ghost use Rattle.std.specs.Prelude.{◌≡◌, ◌<◌, ◌≤◌, ◌∷◌, ◌++◌, false, [], length, OnOk, OnErr};
ghost use Rattle.schc_ids.specs.Params.{IsParams};
ghost use Rattle.event_data.specs.Events.{view_event};
ghost use Rattle.script_lang.specs.Ranges.{
  max_devices,
  max_events,
  is_declared,
  HaveParams,
  HaveOwnNumbers,
  HandsBytes,
  HandBytes,
  IsOfDeclared,
  AreDeclared,
  HasSpelling,
  HaveSpellings,
};
ghost use Rattle.script_lang.specs.Parsing.{empty_script};

use event_data::WorldEvent;
use rule_model::DeviceLine;
use schc_bits::ItemList;
use std::alloc::{AllocError, Global};
use std::collections::HashSet;
use std::marker::Model;

/// An event of a device. A publication is one of every device, and has the number 0 here.
#[derive(Drop)]
pub struct ScriptEvent {
    pub device: u16,
    pub event: WorldEvent,
}

impl Model for ScriptEvent {
    ghost use Rattle.event_data.specs.Events.{view_event};
    ghost use Rattle.script_lang.specs.ScriptData.{ScriptEventData};

    ghost Value = { ScriptEventData };

    ghost view = { λ e. record { device = e.device; event = view_event e.event } };
}

/// A script: the devices that it declares, at most 1,024 with numbers of their own, and what
/// happens, at most 200,000 events. Each script can be spelled.
///
/// Beside the devices it keeps their numbers as a set, so that it knows without a walk through the
/// list whether a device is declared.
#[derive(Drop)]
pub struct Script {
    devices: ItemList<DeviceLine>,
    numbers: HashSet<u16>,
    events: ItemList<ScriptEvent>,
}

impl Model for Script {
    ghost use Rattle.script_lang.specs.ScriptData.{ScriptData};
    ghost use Rattle.script_lang.specs.Ranges.{InRange, AreNumbersOf};

    ghost Value = { ScriptData };

    ghost view = { λ s. record { devices = s.devices.items; events = s.events.items } };

    ghost invariant = { λ s.
        InRange s.devices.items s.events.items × AreNumbersOf s.numbers s.devices.items };
}

impl Script {
    /// The script without devices and events. It takes no memory.
    pub fn new(alloc: Global) -> Script
        ensures { result ≡ empty_script }
    {
        Script {
            devices: ItemList::new(alloc),
            numbers: HashSet::new(alloc),
            events: ItemList::new(alloc),
        }
    }

    /// The devices that are declared, in the order of their lines.
    pub fn devices(&self) -> &[DeviceLine]
        ensures devices { result.now ≡ self.now.devices }
        ensures in_range { HaveParams result.now }
        ensures own_numbers { HaveOwnNumbers result.now }
        ensures few { length result.now ≤ max_devices }
    {
        self.devices.as_slice()
    }

    /// What happens, in the order of the lines.
    pub fn events(&self) -> &[ScriptEvent]
        ensures events { result.now ≡ self.now.events }
        ensures in_range { HandBytes result.now }
        ensures declared { AreDeclared self.now.devices result.now }
        ensures spelling { HaveSpellings result.now }
        ensures few { length result.now ≤ max_events }
    {
        self.events.as_slice()
    }

    /// Whether a device with this number is declared.
    pub fn is_declared(&self, number: u16) -> bool
        ensures { result ≡ is_declared self.now.devices number }
    {
        self.numbers.contains(&number)
    }

    /// Declares one more device.
    ///
    /// # Errors
    /// Want of memory; the script is then as before.
    pub fn declare(&mut self, line: DeviceLine) -> Result<(), AllocError>
        requires own_number { is_declared self.old.devices line.number ≡ false }
        requires in_range { IsParams line.params }
        requires few { length self.old.devices < max_devices }
        ensures declared { OnOk result
            (self.new ≡ record self.old { devices = self.old.devices ++ line ∷ [] }) }
        ensures same { OnErr result (self.new ≡ self.old) }
        ensures bytes { HandBytes self.new.events }
    {
        self.devices.reserve(1)?;
        self.numbers.insert(line.number)?;
        self.devices.put(line);
        Ok(())
    }

    /// Adds an event of this device, or a publication, whose device is 0.
    ///
    /// # Errors
    /// Want of memory; the script is then as before.
    pub fn add(&mut self, device: u16, event: WorldEvent) -> Result<(), AllocError>
        requires declared { IsOfDeclared self.old.devices device (view_event event) }
        requires bytes { HandsBytes (view_event event) }
        requires spelling { HasSpelling (view_event event) }
        requires few { length self.old.events < max_events }
        ensures added { OnOk result (self.new ≡ record self.old {
          events = self.old.events ++ record { device = device; event = view_event event } ∷ [];
        }) }
        ensures same { OnErr result (self.new ≡ self.old) }
        ensures bytes { HandBytes self.new.events }
    {
        self.events.push(ScriptEvent { device, event })
    }
}
