//! The outcomes of all events, put in the script's order.

ghost use Rattle.std.specs.Prelude.{
  ◌≡◌,
  ◌∷◌,
  ◌++◌,
  ℕ,
  List,
  [],
  Some,
  None,
  nat_eq,
  if◌then◌else◌,
  true,
  IfOk,
  IfSome,
};
ghost use Rattle.std.specs.List.{AllByRecursion};
ghost use Rattle.std.specs.Option.{option_or};
ghost use Rattle.indexmap.specs.IndexMap.{get};
ghost use Rattle.event_data.specs.declared.outcomes.Line.{Line};
ghost use Rattle.script_lang.specs.ScriptData.{ScriptEventData};
ghost use Rattle.transcripts.specs.Lines.{IsSaid};
ghost use Rattle.gw_top.specs.Run.{outcome, outcomes_after};
ghost use Rattle.gw_top.specs.Merging.{share_in, IsOwned, IsLeft};

use crate::queues::Queue;
use crate::shares::is_publication;
use event_data::Line;
use indexmap::IndexMap;
use rule_model::DeviceLine;
use script_lang::ScriptEvent;
use std::alloc::{AllocError, Global};

/// The devices in order of declaration, each with the outcomes of its events.
pub(crate) fn by_device(
    alloc: Global,
    shares: Vec<(u16, Queue)>,
) -> Result<IndexMap<u16, Queue>, AllocError>
    ensures { IfOk result
        (λ devices. (number : ℕ) → get nat_eq devices number ≡ share_in number shares.items) }
{
    let mut devices = IndexMap::new(alloc);
    for (number, queue) in shares {
        if devices.insert(number, queue).is_err() {
            return Err(AllocError);
        }
    }
    Ok(devices)
}

/// Takes the first outcome of the device with this number out.
fn first_of(devices: &mut IndexMap<u16, Queue>, number: u16) -> Option<Line>
    ensures line { (line : Line) (rest : List Line) → get nat_eq devices.old number ≡ Some (line ∷ rest)
        → result ≡ Some line }
    ensures left { (line : Line) (rest : List Line) → get nat_eq devices.old number ≡ Some (line ∷ rest)
        → (other : ℕ)
        → get nat_eq devices.new
        other ≡ (if nat_eq number other then Some rest else get nat_eq devices.old other) }
    ensures said { IfSome result IsSaid }
{
    match devices.get_mut(&number) {
        Some(queue) => queue.pop(),
        None => None,
    }
}

/// Takes the outcome of the event out.
fn take_line(
    devices: &mut IndexMap<u16, Queue>,
    published: &mut Queue,
    event: &ScriptEvent,
) -> Option<Line>
    ensures line { (declared : List DeviceLine) (before rest : List ScriptEventData)
        → IsOwned declared event.now
        → IsLeft declared before (event.now ∷ rest) published.old (get nat_eq devices.old)
        → result ≡ Some (outcome declared before event.now) }
    ensures left { (declared : List DeviceLine) (before rest : List ScriptEventData)
        → IsOwned declared event.now
        → IsLeft declared before (event.now ∷ rest) published.old (get nat_eq devices.old)
        → IsLeft declared (before ++ event.now ∷ []) rest published.new (get nat_eq devices.new) }
    ensures said { IfSome result IsSaid }
{
    if is_publication(&event.event) {
        published.pop()
    } else {
        first_of(devices, event.device)
    }
}

/// The outcomes of all events in the script's order.
///
/// # Errors
/// Want of memory.
#[tactic(auto, using(crate::proofs::MergeLemmas::merged_first))]
pub(crate) fn merged(
    alloc: Global,
    declared: &[DeviceLine],
    devices: &mut IndexMap<u16, Queue>,
    published: &mut Queue,
    events: &[ScriptEvent],
) -> Result<Vec<Line>, AllocError>
    requires owned { AllByRecursion (IsOwned declared.now) events.now }
    requires left { IsLeft declared.now [] events.now published.old (get nat_eq devices.old) }
    ensures lines { IfOk result (λ lines. lines.items ≡ outcomes_after declared.now [] events.now) }
    ensures said { IfOk result (λ lines. AllByRecursion IsSaid lines.items) }
{
    let mut lines = Vec::with_capacity(alloc, events.len())?;
    for event in events {
        let line = take_line(devices, published, event).unwrap();
        lines.push(line)?;
    }
    Ok(lines)
}
