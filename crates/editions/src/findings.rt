//! What keeps rules from making the next edition.

ghost use Rattle.std.specs.Prelude.{◌≡◌, IfNone, MatchOption, is_some};
ghost use Rattle.editions.specs.Data.{lookup, AreAdmitted, IsAscending, NoIdTwice};
ghost use Rattle.editions.specs.Follows.{Follows, finding, IsFirstRepeat, IsFirstFinding};

use crate::limits::is_within_limits;
use crate::listed::{Listed, id_of, lookup};
use crate::losses::lowest_loss;
use rule_model::{Finding, FindingKind};

fn is_listed(rules: &[Listed], id: u16) -> bool
    ensures { result ≡ is_some (lookup rules.now id) }
{
    lookup(rules, id).is_some()
}

/// The first RuleID, in the order of the list, that repeats an earlier one.
fn first_repeat(rules: &[Listed]) -> Option<u16>
    ensures { MatchOption result (NoIdTwice rules.now) (λ id. IsFirstRepeat rules.now id) }
{
    for (place, listed) in rules.iter().enumerate() {
        let id = id_of(listed);
        if is_listed(&rules[..place], id) {
            return Some(id);
        }
    }
    None
}

fn finding(kind: FindingKind, id: u16) -> Finding
    ensures { result ≡ finding kind id }
{
    Finding {
        number: kind.number(),
        id,
        entry: 0,
    }
}

/// The first finding that keeps the rules with this number from following the old edition.
pub fn finding_of(old_number: u32, old: &[Listed], number: u32, rules: &[Listed]) -> Option<Finding>
    requires { IsAscending old.now }
    ensures admitted { IfNone result (AreAdmitted rules.now) }
    ensures finding { MatchOption result
        (Follows (record { number = old_number; rules = old.now }) (record { number = number; rules = rules.now }))
        (IsFirstFinding (record { number = old_number; rules = old.now }) number rules.now) }
{
    if u64::from(number) != u64::from(old_number) + 1 {
        return Some(finding(FindingKind::NumberNotNext, 0));
    }
    if !is_within_limits(number, rules) {
        return Some(finding(FindingKind::TooLarge, 0));
    }
    if let Some(id) = first_repeat(rules) {
        return Some(finding(FindingKind::IdTwice, id));
    }
    if let Some(lost) = lowest_loss(old, rules) {
        return Some(finding(lost.loss.kind(), lost.id));
    }
    None
}
