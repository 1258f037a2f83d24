//! What can be wrong with an entry's targets.

ghost use Rattle.std.specs.Prelude.{◌≡◌, ◌≤◌, ◌&&◌, length, min, nat_lt};
ghost use Rattle.std.specs.List.{list_any, list_all};
ghost use Rattle.schc_bits.specs.Bits.{bits_value};
ghost use Rattle.rule_model.specs.Findings.{
  same_bits,
  all_different,
  is_count_right,
  is_bytes,
  has_length,
  has_value,
  target_wrong,
  is_msb_wrong,
  msb_wrong,
};

use rule_model::{Action, Entry, Length, Operator};
use schc_bits::Bits;
use schc_ids::{FieldName, Stack};

fn same_bits(a: &Bits, b: &Bits) -> bool
    ensures { result ≡ same_bits a.now b.now }
{
    a.same(b)
}

fn is_among(target: &Bits, targets: &[Bits]) -> bool
    ensures { result ≡ list_any (same_bits target.now) targets.now }
{
    targets.iter().any(|other| same_bits(target, other))
}

fn all_different(targets: &[Bits]) -> bool
    ensures { result ≡ all_different targets.now }
{
    for (i, target) in targets.iter().enumerate() {
        let (_, later) = targets.split_at(i + 1);
        if is_among(target, later) {
            return false;
        }
    }
    true
}

fn is_count_right(operator: Operator, action: Action, targets: &[Bits]) -> bool
    ensures { result ≡ is_count_right operator action targets.now }
{
    match (operator, action) {
        (Operator::Equal, _) => targets.len() == 1,
        (Operator::Msb(_), _) => targets.len() == 1,
        (Operator::Ignore, Action::NotSent) => targets.len() == 1,
        (Operator::Ignore, _) => true,
        (Operator::MatchMapping, _) => 1 <= targets.len()
            && targets.len() <= 256
            && all_different(targets),
    }
}

fn is_bytes(least: usize, most: usize, target: &Bits) -> bool
    requires least { least ≤ 1500 }
    requires most { most ≤ 1500 }
    ensures { result ≡ is_bytes least most target.now }
{
    target.len() % 8 == 0 && 8 * least <= target.len() && target.len() <= 8 * most
}

fn has_length(length: Length, target: &Bits) -> bool
    ensures { result ≡ has_length length target.now }
{
    match length {
        Length::Fixed(bits) => target.len() == usize::from(bits),
        Length::Variable => is_bytes(0, 1500, target),
        Length::TokenLength => is_bytes(1, 8, target),
    }
}

/// The number that the bits write, or 255 where it is higher.
fn small_value(target: &Bits) -> u64
    ensures { result ≡ min (bits_value target.now) 255 }
{
    let mut value = 0u64;
    for i in 0..target.len() {
        value = (2 * value + u64::from(target.bit(i))).min(255);
    }
    value
}

fn has_value(stack: Stack, name: FieldName, target: &Bits) -> bool
    ensures { result ≡ has_value stack name target.now }
{
    let value = small_value(target);
    match name {
        FieldName::IpVersion => value == 6,
        FieldName::IpNextHeader => stack == Stack::Ip || value == 17,
        FieldName::CoapVersion => value == 1,
        FieldName::CoapTkl => value <= 8,
        _ => true,
    }
}

fn is_target(stack: Stack, entry: &Entry, target: &Bits) -> bool
    ensures { result ≡ (has_length entry.now.length target.now && has_value stack entry.now.name target.now) }
{
    has_length(entry.length, target) && has_value(stack, entry.name, target)
}

fn are_targets(stack: Stack, entry: &Entry) -> bool
    ensures { result ≡ list_all (λ target. has_length entry.now.length target && has_value stack entry.now.name target) entry.now.targets }
{
    entry
        .targets
        .as_slice()
        .iter()
        .all(|target| is_target(stack, entry, target))
}

/// The number of targets isn't right, or some target isn't.
pub fn target_wrong(stack: Stack, entry: &Entry) -> bool
    ensures { result ≡ target_wrong stack entry.now }
{
    !is_count_right(entry.operator, entry.action, entry.targets.as_slice())
        || !are_targets(stack, entry)
}

fn is_shorter(bits: u16, targets: &[Bits]) -> bool
    ensures { result ≡ list_any (λ target. nat_lt (length target) bits) targets.now }
{
    targets
        .iter()
        .any(|target| target.len() < usize::from(bits))
}

/// MSB(x) with x = 0, x above the target's length, x not a multiple of 8 on an option, or on the
/// token.
pub fn msb_wrong(entry: &Entry) -> bool
    ensures { result ≡ msb_wrong entry.now }
{
    match entry.operator {
        Operator::Msb(bits) => {
            bits == 0
                || is_shorter(bits, entry.targets.as_slice())
                || (entry.name.is_option() && bits % 8 != 0)
                || entry.name.same(FieldName::CoapToken)
        }
        _ => false,
    }
}
