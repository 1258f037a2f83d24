//! What is kept of a rule, to find it by the value of its key field.

ghost use Rattle.std.specs.Prelude.{◌≡◌, ◌≤◌, length, IfSome, IfOk, option_copied, slice_get};
ghost use Rattle.editions.specs.Suspects.{same_stack, key_field, key_entry};
ghost use Rattle.editions.specs.Keys.{
  wanted_of,
  candidate_of,
  candidates,
  wants,
  wants_any,
  ids_wanting,
  ids_wanting_any,
};

use crate::listed::Listed;
use rule_model::{Entry, Operator, Rule};
use schc_bits::Part;
use schc_ids::{Direction, FieldName, Stack, covers};
use std::alloc::{AllocError, Global};

/// The keys that a rule takes: every one, or only the target of its key entry.
#[derive(Clone, Copy, Debug, PartialEq, Eq)]
pub(crate) enum Wanted {
    Any,
    Only(u64),
}

/// A rule with which packets of a direction and a stack are written, and the keys that it takes.
#[derive(Clone, Copy, Debug, PartialEq, Eq)]
pub(crate) struct Candidate {
    pub(crate) id: u16,
    pub(crate) wanted: Wanted,
}

fn same_stack(these: Stack, those: Stack) -> bool
    ensures { result ≡ same_stack these those }
{
    match (these, those) {
        (Stack::Ip, Stack::Ip) => true,
        (Stack::IpUdp, Stack::IpUdp) => true,
        (Stack::IpUdpCoap, Stack::IpUdpCoap) => true,
        _ => false,
    }
}

/// The key field of a stack.
fn key_field(stack: Stack) -> FieldName
    ensures { result ≡ key_field stack }
{
    match stack {
        Stack::Ip => FieldName::IpNextHeader,
        Stack::IpUdp | Stack::IpUdpCoap => FieldName::UdpAppPort,
    }
}

/// The entry of the key field that is used in the direction.
fn key_entry(rule: &Rule, direction: Direction, stack: Stack) -> Option<&Entry>
    ensures { option_copied result ≡ key_entry stack rule.now direction }
{
    let name = key_field(stack);
    rule.entries
        .as_slice()
        .iter()
        .filter(|entry| covers(entry.direction, direction))
        .find(|entry| entry.name.same(name))
}

/// The keys that the entry takes. None where it has no target to compare with.
fn wanted_of(entry: &Entry) -> Option<Wanted>
    requires { IfSome (slice_get entry.now.targets 0) (λ target. length target ≤ 64) }
    ensures { result ≡ wanted_of entry.now.operator entry.now.targets }
{
    match entry.operator {
        Operator::Equal => {
            let target = entry.targets.as_slice().first()?;
            Some(Wanted::Only(Part::of(target).number()))
        }
        Operator::Ignore | Operator::Msb(_) | Operator::MatchMapping => Some(Wanted::Any),
    }
}

/// The rule's candidate, where it is live, of the stack, and serves the direction.
#[tactic(auto, unfolding(crate::specs::Keys::candidate_of))]
fn candidate_of(listed: &Listed, direction: Direction, stack: Stack) -> Option<Candidate>
    ensures { result ≡ candidate_of direction stack listed.now }
{
    let rule = &listed.rule;
    if !listed.live || !same_stack(rule.stack(), stack) || !rule.serves(direction) {
        return None;
    }
    let rule = rule.rule();
    let entry = key_entry(rule, direction, stack)?;
    let wanted = wanted_of(entry)?;
    Some(Candidate {
        id: rule.id,
        wanted,
    })
}

/// The candidates of a direction and a stack.
///
/// # Errors
/// Want of memory.
pub(crate) fn candidates(
    alloc: Global,
    rules: &[Listed],
    direction: Direction,
    stack: Stack,
) -> Result<Vec<Candidate>, AllocError>
    ensures { IfOk result (λ these. these.items ≡ candidates direction stack rules.now) }
{
    rules
        .iter()
        .filter_map(|listed| candidate_of(listed, direction, stack))
        .collect(alloc)
}

fn wants(wanted: Wanted, key: u64) -> bool
    ensures { result ≡ wants key wanted }
{
    match wanted {
        Wanted::Any => true,
        Wanted::Only(only) => only == key,
    }
}

fn wants_any(wanted: Wanted) -> bool
    ensures { result ≡ wants_any wanted }
{
    match wanted {
        Wanted::Any => true,
        Wanted::Only(_) => false,
    }
}

/// The RuleIDs of the candidates that take the key.
///
/// # Errors
/// Want of memory.
pub(crate) fn ids_wanting(
    alloc: Global,
    these: &[Candidate],
    key: u64,
) -> Result<Vec<u16>, AllocError>
    ensures { IfOk result (λ ids. ids.items ≡ ids_wanting key these.now) }
{
    these
        .iter()
        .filter(|candidate| wants(candidate.wanted, key))
        .map(|candidate| candidate.id)
        .collect(alloc)
}

/// The RuleIDs of the candidates that take every key.
///
/// # Errors
/// Want of memory.
pub(crate) fn ids_wanting_any(alloc: Global, these: &[Candidate]) -> Result<Vec<u16>, AllocError>
    ensures { IfOk result (λ ids. ids.items ≡ ids_wanting_any these.now) }
{
    these
        .iter()
        .filter(|candidate| wants_any(candidate.wanted))
        .map(|candidate| candidate.id)
        .collect(alloc)
}
