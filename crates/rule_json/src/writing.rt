//! Editions as JSON text.

ghost use Rattle.std.specs.Prelude.{◌≡◌, ◌^◌, ◌<◌, Option, Some, None, [], IfOk, IfSome, unwrap_or};
ghost use Rattle.std.specs.List.{AllByRecursion};
ghost use Rattle.serde_json.specs.Data.{Data};
ghost use Rattle.serde_json.specs.View.{view};
ghost use Rattle.schc_ids.specs.Texts.{text_of};
ghost use Rattle.rule_json.specs.Values.{list_of};
ghost use Rattle.rule_json.specs.Layout.{length_in};
ghost use Rattle.rule_json.specs.Texts.{edition_of};
ghost use Rattle.rule_json.specs.Written.{
  list_data,
  length_data,
  target_data,
  msb_bits,
  entry_object,
  entry_data,
  rule_data,
  edition_data,
  edition_text,
  EntryCanBeSpelt,
  RuleCanBeSpelt,
  CanBeSpelt,
};

use crate::digits::target_text;
use crate::values::FromJson;
use crate::words::{action_text, indicator_text, operator_text};
use rule_model::{Entry, Length, Operator, RawEdition, RawRule};
use schc_bits::{Bits, ItemList, Octets};
use schc_ids::{FieldName, text_of};
use serde_json::{Value, json};
use std::alloc::{AllocError, Global};

/// What can be written as a JSON value, and reads as the same again.
trait ToJson: FromJson {
    // The value.
    ghost written: { Self → Data };

    // The item can be spelt.
    ghost spelt: { Self → Type 0 };

    /// The JSON value.
    ///
    /// # Errors
    /// Want of memory.
    fn to_json(&self, alloc: Global) -> Result<Value, AllocError>
        requires { spelt self.now }
        ensures value { IfOk result (λ value. view value ≡ written self.now) }
        ensures back { IfOk result (λ _. Self.layout (written self.now) ≡ Some self.now) };
}

/// The JSON list of the items.
///
/// # Errors
/// Want of memory.
fn list_to<T: ToJson>(alloc: Global, items: &[T]) -> Result<Value, AllocError>
    requires { AllByRecursion T.spelt items.now }
    ensures value { IfOk result (λ value. view value ≡ list_data T.written items.now) }
    ensures back { IfOk result
        (λ _. list_of T.layout (list_data T.written items.now) ≡ Some items.now) }
{
    let mut values = Vec::new(alloc);
    for item in items {
        values.push(item.to_json(alloc)?)?;
    }
    Ok(Value::Array(values))
}

/// The JSON list of the targets.
///
/// # Errors
/// Want of memory.
fn target_list(alloc: Global, targets: &[Bits]) -> Result<Value, AllocError>
    ensures { IfOk result (λ value. view value ≡ list_data target_data targets.now) }
{
    let mut values = Vec::new(alloc);
    for target in targets {
        values.push(Value::String(target_text(alloc, target)?))?;
    }
    Ok(Value::Array(values))
}

/// The text of a field's name.
fn name_text(name: FieldName) -> &'static str
    ensures { result.now ≡ unwrap_or (text_of name) [] }
{
    text_of(name).unwrap_or("")
}

/// The JSON value of a field length.
///
/// # Errors
/// Want of memory.
#[tactic(auto, unfolding(crate::specs::Layout::length_in, crate::specs::Layout::length_from, crate::specs::Words::length_word, crate::specs::Values::number_below))]
fn length_value(alloc: Global, length: Length) -> Result<Value, AllocError>
    ensures value { IfOk result (λ value. view value ≡ length_data length) }
    ensures back { IfOk result (λ _. length_in (length_data length) ≡ Some length) }
{
    match length {
        Length::Fixed(bits) => Ok(Value::from(bits)),
        Length::Variable => Value::try_from_str(alloc, "fl-variable"),
        Length::TokenLength => Value::try_from_str(alloc, "fl-token-length"),
    }
}

/// The number of bits that MSB compares.
fn msb_bits(operator: Operator) -> Option<u16>
    ensures bits { result ≡ msb_bits operator }
    ensures small { IfSome result (λ bits. bits < 2 ^ 16) }
{
    match operator {
        Operator::Msb(bits) => Some(bits),
        Operator::Equal => None,
        Operator::Ignore => None,
        Operator::MatchMapping => None,
    }
}

/// The JSON value of an entry whose operator has no value.
///
/// # Errors
/// Want of memory.
#[tactic(auto, unfolding(crate::specs::Written::entry_object))]
fn plain_entry(alloc: Global, entry: &Entry) -> Result<Value, AllocError>
    ensures value { IfOk result (λ value. view value ≡ entry_object entry.now None) }
    ensures position { entry.now.position < 2 ^ 16 }
    ensures length { IfOk result
        (λ _. length_in (length_data entry.now.length) ≡ Some entry.now.length) }
{
    let position = entry.position;
    let length = length_value(alloc, entry.length)?;
    let targets = target_list(alloc, entry.targets.as_slice())?;
    json!(in alloc; {
        "comp-decomp-action": action_text(entry.action),
        "direction-indicator": indicator_text(entry.direction),
        "field-id": name_text(entry.name),
        "field-length": length,
        "field-position": position,
        "matching-operator": operator_text(entry.operator),
        "target-value": targets
    })
}

/// The JSON value of an entry whose operator has a value.
///
/// # Errors
/// Want of memory.
#[tactic(auto, unfolding(crate::specs::Written::entry_object))]
fn msb_entry(alloc: Global, entry: &Entry, bits: u16) -> Result<Value, AllocError>
    ensures value { IfOk result (λ value. view value ≡ entry_object entry.now (Some bits)) }
    ensures position { entry.now.position < 2 ^ 16 }
    ensures length { IfOk result
        (λ _. length_in (length_data entry.now.length) ≡ Some entry.now.length) }
{
    let position = entry.position;
    let length = length_value(alloc, entry.length)?;
    let targets = target_list(alloc, entry.targets.as_slice())?;
    json!(in alloc; {
        "comp-decomp-action": action_text(entry.action),
        "direction-indicator": indicator_text(entry.direction),
        "field-id": name_text(entry.name),
        "field-length": length,
        "field-position": position,
        "matching-operator": operator_text(entry.operator),
        "matching-operator-value": bits,
        "target-value": targets
    })
}

impl ToJson for Entry {
    ghost written = { entry_data };

    ghost spelt = { EntryCanBeSpelt };

    #[tactic(auto, unfolding(crate::specs::Written::entry_data))]
    fn to_json(&self, alloc: Global) -> Result<Value, AllocError> {
        match msb_bits(self.operator) {
            Some(bits) => msb_entry(alloc, self, bits),
            None => plain_entry(alloc, self),
        }
    }
}

impl ToJson for RawRule {
    ghost written = { rule_data };

    ghost spelt = { RuleCanBeSpelt };

    #[tactic(auto, unfolding(crate::specs::Written::rule_data))]
    fn to_json(&self, alloc: Global) -> Result<Value, AllocError> {
        let id = self.rule.id;
        let entries = list_to(alloc, self.rule.entries.as_slice())?;
        json!(in alloc; {"entry": entries, "live": self.live, "rule-id-value": id})
    }
}

impl ToJson for RawEdition {
    ghost written = { edition_data };

    ghost spelt = { CanBeSpelt };

    #[tactic(auto, unfolding(crate::specs::Written::edition_data))]
    fn to_json(&self, alloc: Global) -> Result<Value, AllocError> {
        let number = self.number;
        let rules = list_to(alloc, self.rules.as_slice())?;
        json!(in alloc; {"number": number, "rules": rules})
    }
}

/// The text of an edition, without spaces. It reads as the same edition.
///
/// # Errors
/// Want of memory.
pub fn write_edition(alloc: Global, edition: &RawEdition) -> Result<Octets, AllocError>
    requires { CanBeSpelt edition.now }
    ensures text { IfOk result (λ text. text.items ≡ edition_text edition.now) }
    ensures reads_back { IfOk result (λ text. edition_of text.items ≡ Some edition.now) }
{
    let value = edition.to_json(alloc)?;
    let text = value.to_vec(alloc)?;
    let mut octets = ItemList::new(alloc);
    octets.extend_from(text.as_slice())?;
    Ok(octets)
}
