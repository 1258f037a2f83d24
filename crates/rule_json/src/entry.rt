//! Entries, rules and editions as JSON values.

ghost use Rattle.std.specs.Prelude.{◌≡◌, ◌^◌, Some, codes};
ghost use Rattle.std.specs.Option.{option_map};
ghost use Rattle.serde_json.specs.View.{view};
ghost use Rattle.schc_ids.specs.Texts.{name_of_text};
ghost use Rattle.rule_json.specs.Answers.{Gives};
ghost use Rattle.rule_json.specs.Values.{number_below, member_in, list_of};
ghost use Rattle.rule_json.specs.Words.{indicator_of, action_of};
ghost use Rattle.rule_json.specs.Digits.{target_of};
ghost use Rattle.rule_json.specs.Layout.{
  text_in,
  length_in,
  operator_with,
  operator_in,
  targets_in,
  entry_in,
  live_in,
  rule_in,
  edition_in,
};

use crate::digits::target_of;
use crate::fault::JsonFault;
use crate::values::{FromJson, list_from, number, small_number};
use crate::words::{action_of, indicator_of, length_word, plain_operator};
use rule_model::{Action, Entry, Length, Operator, RawEdition, RawRule, Rule, Targets};
use schc_bits::ItemList;
use schc_ids::{DirInd, FieldName, name_of_text};
use serde_json::Value;
use std::alloc::Global;

/// The name of an entry's field.
fn name_in(entry: &Value) -> Option<FieldName>
    ensures { result ≡ member_in (codes "field-id") (text_in name_of_text) (view entry.now) }
{
    name_of_text(entry.get("field-id")?.as_str()?)
}

/// A field length: a word, or a number of bits.
#[tactic(auto, unfolding(crate::specs::Layout::length_in, crate::specs::Layout::length_from))]
fn length_of(value: &Value) -> Option<Length>
    ensures { result ≡ length_in (view value.now) }
{
    match value.as_str() {
        Some(text) => length_word(text),
        None => Some(Length::Fixed(small_number(value)?)),
    }
}

/// The direction indicator of an entry.
fn indicator_in(entry: &Value) -> Option<DirInd>
    ensures { result
        ≡ member_in (codes "direction-indicator") (text_in indicator_of) (view entry.now) }
{
    indicator_of(entry.get("direction-indicator")?.as_str()?)
}

/// The matching operator of this name and with this value.
#[tactic(auto, unfolding(crate::specs::Layout::operator_with))]
fn operator_with(text: &str, value: Option<&Value>) -> Option<Operator>
    ensures { result ≡ operator_with text.now (option_map (λ v. view v.now) value.entry) }
{
    match value {
        Some(value) => msb_with(text, value),
        None => plain_operator(text),
    }
}

/// The matching operator of this name, which has the value.
#[tactic(auto, unfolding(crate::specs::Layout::operator_with))]
fn msb_with(text: &str, value: &Value) -> Option<Operator>
    ensures { result ≡ operator_with text.now (Some (view value.now)) }
{
    if text == "mo-msb" {
        Some(Operator::Msb(small_number(value)?))
    } else {
        None
    }
}

/// The matching operator of an entry.
#[tactic(auto, unfolding(crate::specs::Layout::operator_in))]
fn operator_in(entry: &Value) -> Option<Operator>
    ensures { result ≡ operator_in (view entry.now) }
{
    let text = entry.get("matching-operator")?.as_str()?;
    operator_with(text, entry.get("matching-operator-value"))
}

/// The compression and decompression action of an entry.
fn action_in(entry: &Value) -> Option<Action>
    ensures { result
        ≡ member_in (codes "comp-decomp-action") (text_in action_of) (view entry.now) }
{
    action_of(entry.get("comp-decomp-action")?.as_str()?)
}

/// The targets that a list has, of a field of this length.
///
/// # Errors
/// The value is no list of such targets; or want of memory.
fn target_list(alloc: Global, length: Length, value: &Value) -> Result<Targets, JsonFault>
    ensures { Gives (λ targets. targets.items) result
        (list_of (text_in (target_of length)) (view value.now)) }
{
    let Some(values) = value.as_array() else {
        return Err(JsonFault::NotLayout);
    };
    let mut targets = ItemList::new(alloc);
    for value in values {
        let Some(text) = value.as_str() else {
            return Err(JsonFault::NotLayout);
        };
        targets.push(target_of(alloc, length, text)?)?;
    }
    Ok(targets)
}

/// The targets of an entry whose field has this length.
///
/// # Errors
/// They aren't in the layout; or want of memory.
#[tactic(auto, unfolding(crate::specs::Layout::targets_in))]
fn targets_in(alloc: Global, length: Length, entry: &Value) -> Result<Targets, JsonFault>
    ensures { Gives (λ targets. targets.items) result (targets_in length (view entry.now)) }
{
    match entry.get("target-value") {
        Some(value) => target_list(alloc, length, value),
        None => Ok(ItemList::new(alloc)),
    }
}

impl FromJson for Entry {
    ghost layout = { entry_in };

    #[tactic(auto, unfolding(crate::specs::Layout::entry_in))]
    fn from_json(alloc: Global, value: &Value) -> Result<Entry, JsonFault> {
        let name = name_in(value).ok_or(JsonFault::NotLayout)?;
        let length = length_in(value).ok_or(JsonFault::NotLayout)?;
        let position = position_in(value).ok_or(JsonFault::NotLayout)?;
        let direction = indicator_in(value).ok_or(JsonFault::NotLayout)?;
        let operator = operator_in(value).ok_or(JsonFault::NotLayout)?;
        let action = action_in(value).ok_or(JsonFault::NotLayout)?;
        let targets = targets_in(alloc, length, value)?;
        Ok(Entry {
            name,
            length,
            position,
            direction,
            targets,
            operator,
            action,
        })
    }
}

/// The length of an entry's field.
fn length_in(entry: &Value) -> Option<Length>
    ensures { result ≡ member_in (codes "field-length") length_in (view entry.now) }
{
    length_of(entry.get("field-length")?)
}

/// The position of an entry's field.
fn position_in(entry: &Value) -> Option<u16>
    ensures { result
        ≡ member_in (codes "field-position") (number_below (2 ^ 16)) (view entry.now) }
{
    small_number(entry.get("field-position")?)
}

/// Whether a rule is live.
#[tactic(auto, unfolding(crate::specs::Layout::live_in))]
fn live_in(rule: &Value) -> Option<bool>
    ensures { result ≡ live_in (view rule.now) }
{
    match rule.get("live") {
        Some(live) => live.as_bool(),
        None => Some(true),
    }
}

/// The RuleID of a rule.
fn id_in(rule: &Value) -> Option<u16>
    ensures { result ≡ member_in (codes "rule-id-value") (number_below (2 ^ 16)) (view rule.now) }
{
    small_number(rule.get("rule-id-value")?)
}

impl FromJson for RawRule {
    ghost layout = { rule_in };

    #[tactic(auto, unfolding(crate::specs::Layout::rule_in))]
    fn from_json(alloc: Global, value: &Value) -> Result<RawRule, JsonFault> {
        let id = id_in(value).ok_or(JsonFault::NotLayout)?;
        let live = live_in(value).ok_or(JsonFault::NotLayout)?;
        let entries = list_from(alloc, value.get("entry").ok_or(JsonFault::NotLayout)?)?;
        Ok(RawRule {
            rule: Rule { id, entries },
            live,
        })
    }
}

/// The number of an edition.
fn number_in(edition: &Value) -> Option<u32>
    ensures { result ≡ member_in (codes "number") (number_below (2 ^ 32)) (view edition.now) }
{
    number(edition.get("number")?)
}

impl FromJson for RawEdition {
    ghost layout = { edition_in };

    #[tactic(auto, unfolding(crate::specs::Layout::edition_in))]
    fn from_json(alloc: Global, value: &Value) -> Result<RawEdition, JsonFault> {
        let number = number_in(value).ok_or(JsonFault::NotLayout)?;
        let rules = list_from(alloc, value.get("rules").ok_or(JsonFault::NotLayout)?)?;
        Ok(RawEdition { number, rules })
    }
}
