//! The fields of a packet against the entries of a rule.

ghost use Rattle.std.specs.Prelude.{◌≡◌, ◌↔◌, ◌&&◌, IsTrue, length, filter};
ghost use Rattle.std.specs.List.{list_all, enumerate_from};
ghost use Rattle.std.specs.Option.{option_copied};
ghost use Rattle.schc_ids.specs.Ends.{covers};
ghost use Rattle.rule_model.specs.Cover.{covered, field_of};
ghost use Rattle.rule_model.specs.Matches.{Matches};
ghost use Rattle.rule_model.specs.Residue.{same_field};
ghost use Rattle.rule_model.specs.Tests.{agrees, does_match};
ghost use Rattle.matching.specs.Walk.{found_value, value_near, entry_holds, field_holds, walk_holds};

use crate::agreement::agrees;
use rule_model::{Admitted, Computed, Entry, FieldValue, Fields, Rule};
use schc_bits::Bits;
use schc_ids::{Direction, FieldAt, Iids, covers};

/// Whether the entry is used in the direction.
fn is_used(entry: &Entry, direction: Direction) -> bool
    ensures { result ≡ covers entry.now.direction direction }
{
    covers(entry.direction, direction)
}

/// How many entries are used in the direction.
fn used_count(rule: &Rule, direction: Direction) -> usize
    ensures { result ≡ length (covered rule.now direction) }
{
    rule.entries
        .as_slice()
        .iter()
        .filter(|entry| is_used(entry, direction))
        .count()
}

fn is_same(field: FieldAt, other: FieldAt) -> bool
    ensures { result ≡ same_field field other }
{
    field.name.same(other.name) && field.position == other.position
}

/// The value of the first field of this name and position.
fn found_value(fields: &[FieldValue], at: FieldAt) -> Option<&Bits>
    ensures { option_copied result ≡ found_value fields.now at }
{
    for field in fields {
        if is_same(at, field.at) {
            return Some(&field.value);
        }
    }
    None
}

/// The value of a field of this name and position. Rules mostly list entries in packet order, so it
/// is looked for first at the place `near`.
fn value_near(fields: &[FieldValue], near: usize, at: FieldAt) -> Option<&Bits>
    ensures { option_copied result ≡ value_near fields.now near at }
{
    match fields.get(near) {
        Some(field) => {
            if is_same(at, field.at) {
                Some(&field.value)
            } else {
                found_value(fields, at)
            }
        }
        None => found_value(fields, at),
    }
}

/// Whether the entry has a value among the fields, and agrees with it.
fn entry_holds(
    iids: Iids,
    computed: &Computed,
    fields: &[FieldValue],
    near: usize,
    entry: &Entry,
) -> bool
    ensures { result ≡ entry_holds iids computed.now fields.now near entry.now }
{
    match value_near(fields, near, entry.field()) {
        Some(value) => agrees(iids, computed, entry, value),
        None => false,
    }
}

/// Whether each entry that is used in the direction holds.
fn entries_hold(
    rule: &Rule,
    iids: Iids,
    direction: Direction,
    fields: &[FieldValue],
    computed: &Computed,
) -> bool
    ensures { result ≡ list_all (λ p. entry_holds iids computed.now fields.now p.0 p.1) (enumerate_from 0 (covered rule.now direction)) }
{
    rule.entries
        .as_slice()
        .iter()
        .filter(|entry| is_used(entry, direction))
        .enumerate()
        .all(|(near, entry)| entry_holds(iids, computed, fields, near, entry))
}

/// Whether the entry is of the field and agrees with its value.
fn is_agreeing(iids: Iids, computed: &Computed, entry: &Entry, field: &FieldValue) -> bool
    ensures { result ≡ (same_field (field_of entry.now) field.now.at && agrees iids computed.now entry.now field.now.value) }
{
    is_same(entry.field(), field.at) && agrees(iids, computed, entry, &field.value)
}

/// Whether the field has an entry that is used in the direction and agrees with its value.
fn field_holds(
    rule: &Rule,
    iids: Iids,
    direction: Direction,
    field: &FieldValue,
    computed: &Computed,
) -> bool
    ensures { result ≡ field_holds iids computed.now (covered rule.now direction) field.now }
{
    rule.entries
        .as_slice()
        .iter()
        .filter(|entry| is_used(entry, direction))
        .any(|entry| is_agreeing(iids, computed, entry, field))
}

/// Whether each field holds.
fn fields_hold(
    rule: &Rule,
    iids: Iids,
    direction: Direction,
    fields: &[FieldValue],
    computed: &Computed,
) -> bool
    ensures { result ≡ list_all (field_holds iids computed.now (covered rule.now direction)) fields.now }
{
    fields.iter().all(|field| field_holds(rule, iids, direction, field, computed))
}

/// Whether the rule matches the fields, where no two entries that are used in the direction are of
/// one field: each entry is looked up once. Only where a field is listed twice, or one has no
/// entry, is each field looked up too.
fn rule_matches(
    rule: &Rule,
    iids: Iids,
    direction: Direction,
    fields: &Fields,
    computed: &Computed,
) -> bool
    ensures { result ≡ walk_holds rule.now iids direction fields.now.items computed.now }
{
    let fields = fields.as_slice();
    let used = used_count(rule, direction);
    used <= fields.len()
        && entries_hold(rule, iids, direction, fields, computed)
        && (fields.len() == used || fields_hold(rule, iids, direction, fields, computed))
}

/// Whether the rule matches the fields of a packet that goes in the direction (RFC 8724 section
/// 7.2): the fields and the entries that are used in the direction are of the same set of names and
/// positions, each matching operator holds, an option has the length that its entry fixes, and
/// where the other end makes a value of itself, by computing it or from an interface identifier of
/// `iids`, the packet already has that value. `computed` is what is computed over the packet as it
/// is. It takes no memory.
pub fn matches(
    rule: &Admitted,
    iids: Iids,
    direction: Direction,
    fields: &Fields,
    computed: &Computed,
) -> bool
    ensures exact { IsTrue result ↔ Matches rule.now iids direction fields.now.items computed.now }
    ensures tested { result ≡ does_match rule.now iids direction fields.now.items computed.now }
{
    rule_matches(rule.rule(), iids, direction, fields, computed)
}

#[cfg(test)]
mod tests;
