//! Numbers and lists of JSON values.

ghost use Rattle.std.specs.Prelude.{◌≡◌, ◌^◌, Option};
ghost use Rattle.serde_json.specs.Data.{Data};
ghost use Rattle.serde_json.specs.View.{view};
ghost use Rattle.rule_json.specs.Values.{number_below, list_of};
ghost use Rattle.rule_json.specs.Answers.{Gives};

use crate::fault::JsonFault;
use schc_bits::ItemList;
use serde_json::Value;
use std::alloc::Global;

/// What can be read from a JSON value.
pub(crate) trait FromJson: Drop {
    // What the layout makes of a value.
    ghost layout: { Data → Option Self };

    /// What the value is.
    ///
    /// # Errors
    /// The value isn't in the layout; or want of memory.
    fn from_json(alloc: Global, value: &Value) -> Result<Self, JsonFault>
        ensures { Gives (λ read. read) result (layout (view value.now)) };
}

/// The items of a JSON list.
///
/// # Errors
/// The value is no list or one of its values isn't in the layout; or want of memory.
pub(crate) fn list_from<T: FromJson>(alloc: Global, value: &Value) -> Result<ItemList<T>, JsonFault>
    ensures { Gives (λ list. list.items) result (list_of T.layout (view value.now)) }
{
    let Some(values) = value.as_array() else {
        return Err(JsonFault::NotLayout);
    };
    let mut list = ItemList::new(alloc);
    for value in values {
        list.push(T::from_json(alloc, value)?)?;
    }
    Ok(list)
}

/// The number below 2^16 that the value is.
#[tactic(auto, unfolding(crate::specs::Values::number_below))]
pub(crate) fn small_number(value: &Value) -> Option<u16>
    ensures { result ≡ number_below (2 ^ 16) (view value.now) }
{
    u16::try_from(value.as_u64()?).ok()
}

/// The number below 2^32 that the value is.
#[tactic(auto, unfolding(crate::specs::Values::number_below))]
pub(crate) fn number(value: &Value) -> Option<u32>
    ensures { result ≡ number_below (2 ^ 32) (view value.now) }
{
    u32::try_from(value.as_u64()?).ok()
}
