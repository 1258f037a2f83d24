//! An entry against the value of its field.

ghost use Rattle.std.specs.Prelude.{ℕ, ◌≡◌, ◌^◌, ◌<◌, ◌≤◌, false, length, take, slice_get};
ghost use Rattle.std.specs.List.{list_any};
ghost use Rattle.std.specs.Option.{option_map_or};
ghost use Rattle.schc_bits.specs.Bits.{number_bits};
ghost use Rattle.rule_model.specs.Findings.{same_bits};
ghost use Rattle.rule_model.specs.Matches.{computed_value};
ghost use Rattle.rule_model.specs.Tests.{
  begins_as,
  operator_holds,
  length_holds,
  restored_holds,
  agrees,
};

use rule_model::{Action, Computed, Entry, Length, Operator, same_bits};
use schc_bits::{Bits, Part};
use schc_ids::{FieldName, Iids};

/// Whether the value is the first target.
fn is_first(targets: &[Bits], value: &Part<'_>) -> bool
    ensures { result ≡ option_map_or (λ target. same_bits target value.now) (slice_get targets.now 0) false }
{
    match targets {
        [target, ..] => same_bits(&target.as_part(), value),
        [] => false,
    }
}

/// The first bits, this many of them.
fn front_of<'a>(bits: &Part<'a>, count: usize) -> Part<'a>
    ensures { result ≡ take count bits.now }
{
    bits.front(count.min(bits.len()))
}

/// Whether the value has at least this many bits, and its first ones are those of the target.
fn begins_as(count: usize, value: &Part<'_>, target: &Part<'_>) -> bool
    ensures { result ≡ begins_as count value.now target.now }
{
    count <= value.len() && same_bits(&front_of(target, count), &front_of(value, count))
}

/// Whether the first bits of the value are those of the first target.
fn begins_as_first(count: usize, targets: &[Bits], value: &Part<'_>) -> bool
    ensures { result ≡ option_map_or (begins_as count value.now) (slice_get targets.now 0) false }
{
    match targets {
        [target, ..] => begins_as(count, value, &target.as_part()),
        [] => false,
    }
}

/// Whether the value is one of the targets.
fn is_one_of(targets: &[Bits], value: &Part<'_>) -> bool
    ensures { result ≡ list_any (λ target. same_bits target value.now) targets.now }
{
    targets
        .iter()
        .any(|target| same_bits(&target.as_part(), value))
}

/// Whether the matching operator holds of the value (RFC 8724 section 7.3).
pub fn operator_holds(operator: Operator, targets: &[Bits], value: &Part<'_>) -> bool
    ensures { result ≡ operator_holds operator targets.now value.now }
{
    match operator {
        Operator::Equal => is_first(targets, value),
        Operator::Ignore => true,
        Operator::Msb(bits) => begins_as_first(usize::from(bits), targets, value),
        Operator::MatchMapping => is_one_of(targets, value),
    }
}

/// Whether the value of an option has the length that its entry fixes.
fn length_holds(name: FieldName, length: Length, value: &Bits) -> bool
    ensures { result ≡ length_holds name length value.now }
{
    match (name, length) {
        (FieldName::CoapOption(_), Length::Fixed(bits)) => value.len() == usize::from(bits),
        _ => true,
    }
}

/// Whether the value is the number in `width` bits.
fn is_number(value: &Bits, width: usize, number: u64) -> bool
    requires width { width ≤ 64 }
    requires fits { number < 2 ^ width }
    ensures { result ≡ same_bits (number_bits width number) value.now }
{
    value.len() == width && value.as_part().number() == number
}

/// What is computed over the packet for the field.
fn computed_value(computed: &Computed, name: FieldName) -> Option<u16>
    ensures { result ≡ computed_value computed.now name }
{
    match name {
        FieldName::IpPayloadLength => Some(computed.payload_length),
        FieldName::UdpLength => Some(computed.udp_length),
        FieldName::UdpChecksum => Some(computed.checksum),
        _ => None,
    }
}

/// Whether the packet already has the value that the other end will make of itself.
fn restored_holds(
    iids: Iids,
    computed: &Computed,
    name: FieldName,
    action: Action,
    value: &Bits,
) -> bool
    ensures { result ≡ restored_holds iids computed.now name action value.now }
{
    match action {
        Action::Compute => match computed_value(computed, name) {
            Some(number) => is_number(value, 16, u64::from(number)),
            None => true,
        },
        Action::DevIid => is_number(value, 64, iids.dev),
        Action::AppIid => is_number(value, 64, iids.app),
        Action::NotSent | Action::ValueSent | Action::MappingSent | Action::Lsb => true,
    }
}

/// Whether the entry and the value of its field agree.
pub fn agrees(iids: Iids, computed: &Computed, entry: &Entry, value: &Bits) -> bool
    ensures { result ≡ agrees iids computed.now entry.now value.now }
{
    length_holds(entry.name, entry.length, value)
        && operator_holds(entry.operator, entry.targets.as_slice(), &value.as_part())
        && restored_holds(iids, computed, entry.name, entry.action, value)
}
