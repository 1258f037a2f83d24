//! The limits of an edition.

ghost use Rattle.std.specs.Prelude.{◌≡◌, ◌-◌, ◌^◌, ◌≤◌, ◌↔◌, All, IsTrue, length, min, sum_by};
ghost use Rattle.std.specs.Bool.{OnTrue};
ghost use Rattle.editions.specs.Data.{AreAdmitted};
ghost use Rattle.editions.specs.Follows.{entry_octets, target_octets, IsWithinLimits};

use crate::listed::Listed;
use rule_model::{Entry, Rule};
use schc_ids::limits::{MAX_EDITIONS, MAX_ENTRIES, MAX_RULES, MAX_TARGET_BYTES};

fn entry_octets(entry: &Entry) -> u64
    ensures { result ≡ min (entry_octets entry.now) (2 ^ 64 - 1) }
{
    let mut octets = 0u64;
    for target in entry.targets.as_slice() {
        octets = octets.saturating_add(target.len().div_ceil(8) as u64);
    }
    octets
}

fn rule_octets(rule: &Rule) -> u64
    ensures { result ≡ min (sum_by entry_octets rule.now.entries) (2 ^ 64 - 1) }
{
    let mut octets = 0u64;
    for entry in rule.entries.as_slice() {
        octets = octets.saturating_add(entry_octets(entry));
    }
    octets
}

/// The bytes of all targets, each counted in whole bytes, up to the largest number.
fn target_octets(rules: &[Listed]) -> u64
    ensures octets { result ≡ min (target_octets rules.now) (2 ^ 64 - 1) }
    ensures admitted { AreAdmitted rules.now }
{
    let mut octets = 0u64;
    for listed in rules {
        octets = octets.saturating_add(rule_octets(listed.rule.rule()));
    }
    octets
}

fn all_short(rules: &[Listed]) -> bool
    ensures { IsTrue result ↔ All (λ listed. length listed.rule.entries ≤ 64) rules.now }
{
    rules
        .iter()
        .all(|listed| listed.rule.rule().entries.len() <= MAX_ENTRIES)
}

/// Whether an edition with this number and these rules is within the limits.
pub fn is_within_limits(number: u32, rules: &[Listed]) -> bool
    ensures within { IsTrue result ↔ IsWithinLimits number rules.now }
    ensures admitted { OnTrue result (AreAdmitted rules.now) }
{
    number <= MAX_EDITIONS
        && rules.len() <= MAX_RULES
        && all_short(rules)
        && target_octets(rules) <= MAX_TARGET_BYTES
}
