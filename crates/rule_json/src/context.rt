//! Contexts.

ghost use Rattle.std.specs.Prelude.{◌≡◌, ◌==◌, [], codes};
ghost use Rattle.std.specs.List.{list_any};
ghost use Rattle.std.specs.Option.{option_map};
ghost use Rattle.serde_json.specs.View.{view};
ghost use Rattle.rule_json.specs.Answers.{Gives};
ghost use Rattle.rule_json.specs.Values.{default_or, list_of};
ghost use Rattle.rule_json.specs.Files.{
  have_own_numbers,
  devices_in,
  editions_in,
  context_in,
};

use crate::fault::JsonFault;
use crate::values::{FromJson, list_from};
use rule_model::{DeviceLine, RawEdition};
use schc_bits::ItemList;
use schc_ids::limits::MAX_DEVICES;
use serde_json::Value;
use std::alloc::Global;
use std::marker::Model;

/// A context: the devices, and the editions that are published, in their order.
#[derive(Drop)]
pub struct ContextFile {
    pub devices: ItemList<DeviceLine>,
    pub editions: ItemList<RawEdition>,
}

impl Model for ContextFile {
    ghost use Rattle.rule_json.specs.Data.{ContextData};

    ghost Value = { ContextData };

    ghost view = { λ c. record { devices = c.devices.items; editions = c.editions.items } };
}

/// Whether one of the devices has the number.
fn has_number(devices: &[DeviceLine], number: u16) -> bool
    ensures { result ≡ list_any (λ other. other.number == number) devices.now }
{
    devices.iter().any(|other| other.number == number)
}

/// Whether no device has the number of a later one.
fn have_own_numbers(devices: &[DeviceLine]) -> bool
    ensures { result ≡ have_own_numbers devices.now }
{
    let mut rest = devices;
    while let Some((device, later)) = rest.split_first() {
        if has_number(later, device.number) {
            return false;
        }
        rest = later;
    }
    true
}

/// The items of a JSON list, none where there is no list.
///
/// # Errors
/// The value is no list or one of its values isn't in the layout; or want of memory.
fn optional_list<T: FromJson>(
    alloc: Global,
    value: Option<&Value>,
) -> Result<ItemList<T>, JsonFault>
    ensures { Gives (λ list. list.items) result
        (default_or [] (list_of T.layout) (option_map (λ v. view v.now) value.entry)) }
{
    match value {
        Some(value) => list_from(alloc, value),
        None => Ok(ItemList::new(alloc)),
    }
}

/// The devices of a context.
///
/// # Errors
/// They aren't in the layout, which has at most 1,024 devices with numbers of their own; or want
/// of memory.
#[tactic(auto, unfolding(crate::specs::Files::devices_in, crate::specs::Files::distinct_devices))]
fn devices_in(alloc: Global, context: &Value) -> Result<ItemList<DeviceLine>, JsonFault>
    ensures { Gives (λ devices. devices.items) result (devices_in (view context.now)) }
{
    let devices = optional_list::<DeviceLine>(alloc, context.get("devices"))?;
    if devices.len() > MAX_DEVICES {
        return Err(JsonFault::NotLayout);
    }
    if !have_own_numbers(devices.as_slice()) {
        return Err(JsonFault::NotLayout);
    }
    Ok(devices)
}

/// The editions of a context.
///
/// # Errors
/// They aren't in the layout; or want of memory.
#[tactic(auto, unfolding(crate::specs::Files::editions_in))]
fn editions_in(alloc: Global, context: &Value) -> Result<ItemList<RawEdition>, JsonFault>
    ensures { Gives (λ editions. editions.items) result (editions_in (view context.now)) }
{
    optional_list::<RawEdition>(alloc, context.get("editions"))
}

impl FromJson for ContextFile {
    ghost layout = { context_in };

    #[tactic(auto, unfolding(crate::specs::Files::context_in))]
    fn from_json(alloc: Global, value: &Value) -> Result<ContextFile, JsonFault> {
        if value.as_object().is_none() {
            return Err(JsonFault::NotLayout);
        }
        let devices = devices_in(alloc, value)?;
        let editions = editions_in(alloc, value)?;
        Ok(ContextFile { devices, editions })
    }
}
