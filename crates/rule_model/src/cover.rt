//! What a rule says of a direction.

ghost use Rattle.std.specs.Prelude.{◌≡◌, IfOk};
ghost use Rattle.std.specs.List.{list_any};
ghost use Rattle.rule_model.specs.Cover.{
  has_layer,
  has_field,
  serves,
  stack_of,
  is_lossy,
  is_compute,
  computes_checksum,
  is_in_checksum,
  lossy_fields,
  dropped_fields,
};

use crate::rule::{Action, Operator, Rule};
use schc_ids::{Direction, FieldAt, FieldName, Layer, Stack, always_present, covers};
use std::alloc::{AllocError, Global};

/// Whether an entry of the rule is of a field of this header.
pub fn has_layer(rule: &Rule, layer: Layer) -> bool
    ensures { result ≡ has_layer rule.now layer }
{
    rule.entries
        .as_slice()
        .iter()
        .any(|entry| entry.name.layer() == layer)
}

/// The rule's stack: the headers up to the highest one of which it has a field.
pub fn stack_of(rule: &Rule) -> Stack
    ensures { result ≡ stack_of rule.now }
{
    if has_layer(rule, Layer::Coap) {
        Stack::IpUdpCoap
    } else if has_layer(rule, Layer::Udp) {
        Stack::IpUdp
    } else {
        Stack::Ip
    }
}

fn has_field(rule: &Rule, direction: Direction, name: FieldName) -> bool
    ensures { result ≡ has_field rule.now direction name }
{
    rule.entries
        .as_slice()
        .iter()
        .filter(|entry| covers(entry.direction, direction))
        .any(|entry| entry.name.same(name))
}

/// Whether the entries that are used in this direction hold each field that a packet of the
/// rule's stack always has.
pub fn serves(rule: &Rule, direction: Direction) -> bool
    ensures { result ≡ serves rule.now direction }
{
    always_present(stack_of(rule))
        .iter()
        .all(|name| has_field(rule, direction, *name))
}

/// Whether the operator and action ignore the value and send nothing of it, so that the other end
/// restores the target whatever the packet has.
pub fn is_lossy(operator: Operator, action: Action) -> bool
    ensures { result ≡ is_lossy operator action }
{
    match (operator, action) {
        (Operator::Ignore, Action::NotSent) => true,
        _ => false,
    }
}

/// Whether the action computes the value at the other end.
pub fn is_compute(action: Action) -> bool
    ensures { result ≡ is_compute action }
{
    action == Action::Compute
}

/// Whether the UDP checksum is computed in the direction.
pub fn computes_checksum(rule: &Rule, direction: Direction) -> bool
    ensures { result ≡ computes_checksum rule.now direction }
{
    rule.entries
        .as_slice()
        .iter()
        .filter(|entry| covers(entry.direction, direction))
        .any(|entry| entry.name.same(FieldName::UdpChecksum) && is_compute(entry.action))
}

fn is_in_checksum(name: FieldName) -> bool
    ensures { result ≡ is_in_checksum name }
{
    match name {
        FieldName::IpDevPrefix
        | FieldName::IpDevIid
        | FieldName::IpAppPrefix
        | FieldName::IpAppIid
        | FieldName::UdpDevPort
        | FieldName::UdpAppPort => true,
        _ => name.layer() == Layer::Coap,
    }
}

fn lossy_fields(
    alloc: Global,
    rule: &Rule,
    direction: Direction,
) -> Result<Vec<FieldAt>, AllocError>
    ensures { IfOk result (λ fields. fields.items ≡ lossy_fields rule.now direction) }
{
    rule.entries
        .as_slice()
        .iter()
        .filter(|entry| covers(entry.direction, direction)
            && is_lossy(entry.operator, entry.action))
        .map(|entry| entry.field())
        .collect(alloc)
}

fn any_in_checksum(fields: &[FieldAt]) -> bool
    ensures { result ≡ list_any (λ f. is_in_checksum f.name) fields.now }
{
    fields.iter().any(|field| is_in_checksum(field.name))
}

/// The fields whose value the other end may restore to another one: those of ignored entries that
/// send nothing, in the rule's order, and at the end the UDP checksum where it is computed over one
/// of them.
///
/// # Errors
/// Want of memory.
pub fn dropped_fields(
    alloc: Global,
    rule: &Rule,
    direction: Direction,
) -> Result<Vec<FieldAt>, AllocError>
    ensures { IfOk result (λ fields. fields.items ≡ dropped_fields rule.now direction) }
{
    let mut fields = lossy_fields(alloc, rule, direction)?;
    if !computes_checksum(rule, direction) || !any_in_checksum(&fields) {
        return Ok(fields);
    }
    fields.push(FieldAt {
        name: FieldName::UdpChecksum,
        position: 1,
    })?;
    Ok(fields)
}
