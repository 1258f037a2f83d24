//! Where there is a finding of a rule.

ghost use Rattle.std.specs.Prelude.{◌≡◌, ◌+◌, ◌<◌, ◌^◌, IfSome, position};
ghost use Rattle.std.specs.List.{enumerate_from};
ghost use Rattle.rule_model.specs.Findings.{is_of_rule, is_of_entry, place_of, finding_of};

use crate::entries::{
    field_twice, id_out_of_range, id_reserved, mixed_stack, order_wrong, serves_no_direction,
};
use crate::shapes::{compute_wrong, not_droppable, pair_not_allowed, shape_wrong};
use crate::targets::{msb_wrong, target_wrong};
use rule_model::{Entry, Finding, FindingKind, Rule, stack_of};

fn is_of_rule(kind: FindingKind, rule: &Rule) -> bool
    ensures { result ≡ is_of_rule kind rule.now }
{
    match kind {
        FindingKind::IdOutOfRange => id_out_of_range(rule),
        FindingKind::IdReserved => id_reserved(rule),
        FindingKind::MixedStack => mixed_stack(rule),
        FindingKind::ServesNoDirection => serves_no_direction(rule),
        _ => false,
    }
}

fn is_of_entry(kind: FindingKind, rule: &Rule, before: usize, entry: &Entry) -> bool
    ensures { result ≡ is_of_entry kind rule.now before entry.now }
{
    let entries = rule.entries.as_slice();
    let (earlier, later) = entries.split_at(before.min(entries.len()));
    match kind {
        FindingKind::FieldTwice => field_twice(entry, earlier),
        FindingKind::ShapeWrong => shape_wrong(entry),
        FindingKind::PairNotAllowed => pair_not_allowed(entry),
        FindingKind::TargetWrong => target_wrong(stack_of(rule), entry),
        FindingKind::MsbWrong => msb_wrong(entry),
        FindingKind::NotDroppable => not_droppable(entry),
        FindingKind::ComputeWrong => compute_wrong(entry),
        FindingKind::OrderWrong => order_wrong(entry, later),
        _ => false,
    }
}

fn entry_place(kind: FindingKind, rule: &Rule) -> Option<usize>
    ensures bound { IfSome result (λ before. before + 1 < 2 ^ 64) }
    ensures place { result ≡ position (λ p. is_of_entry kind rule.now p.0 p.1) (enumerate_from 0 rule.now.entries) }
{
    rule.entries
        .as_slice()
        .iter()
        .enumerate()
        .position(|(before, entry)| is_of_entry(kind, rule, before, entry))
}

/// The first entry, from 1, at which there is a finding of this kind; 0 where it is of the rule as a
/// whole.
fn place_of(kind: FindingKind, rule: &Rule) -> Option<u64>
    ensures { result ≡ place_of kind rule.now }
{
    if is_of_rule(kind, rule) {
        return Some(0);
    }
    match entry_place(kind, rule) {
        Some(before) => Some(before as u64 + 1),
        None => None,
    }
}

/// The first finding of the rule, in the order of the numbers, at its first entry.
pub fn finding_of(rule: &Rule) -> Option<Finding>
    ensures { result ≡ finding_of rule.now }
{
    let kinds = FindingKind::of_rules();
    for kind in kinds {
        if let Some(entry) = place_of(*kind, rule) {
            return Some(Finding {
                number: kind.number(),
                id: rule.id,
                entry,
            });
        }
    }
    None
}
