//! The length of a residue, without writing it.

ghost use Rattle.std.specs.Prelude.{ℕ, ◌≡◌, ◌+◌, ◌^◌, ◌<◌, ◌≤◌, Bool, List, length};
ghost use Rattle.schc_bits.specs.Bits.{number_bits};
ghost use Rattle.rule_model.specs.Residue.{
  IsSized,
  SizeHolds,
  entry_residue,
  index_of,
  index_width,
  residue_of,
  size_code,
  with_size,
};
ghost use Rattle.compress.specs.Turns.{TurnHolds, TurnsHold, joined, turn_residue};

use crate::write::rest_of;
use rule_model::{Action, Admitted, Entry, Fields, Length, index_width, msb_bits, value_of};
use schc_bits::{Bits, Part};
use schc_ids::{Direction, covers};

/// How many bits a size takes, in its shortest form (RFC 8724, section 7.4.2).
fn size_len(size: usize) -> usize
    ensures value { result ≡ length (size_code size) }
    ensures small { result ≤ 28 }
{
    if size < 15 {
        4
    } else if size < 255 {
        12
    } else {
        28
    }
}

fn sized_len(kind: Length, bits: &Part<'_>) -> usize
    requires { length (with_size kind bits.now) < 2 ^ 63 }
    ensures { result ≡ length (with_size kind bits.now) }
{
    if kind == Length::Variable {
        return size_len(bits.len() / 8) + bits.len();
    }
    bits.len()
}

fn index_len(targets: &[Bits]) -> usize
    ensures { (value : List Bool) → result ≡ length (number_bits (index_width (length targets.now)) (index_of targets.now value)) }
{
    index_width(targets.len()) as usize
}

/// How many bits are sent of the entry's field, which has this value.
fn entry_len(entry: &Entry, value: &Part<'_>) -> usize
    requires { length (entry_residue entry.now value.now) < 2 ^ 63 }
    ensures { result ≡ length (entry_residue entry.now value.now) }
{
    match entry.action {
        Action::ValueSent => sized_len(entry.length, value),
        Action::MappingSent => index_len(entry.targets.as_slice()),
        Action::Lsb => sized_len(entry.length, &rest_of(value, msb_bits(entry.operator))),
        Action::NotSent | Action::Compute | Action::DevIid | Action::AppIid => 0,
    }
}

fn turn_len(entry: &Entry, direction: Direction, fields: &Fields) -> usize
    requires { length (turn_residue direction fields.now.items entry.now) < 2 ^ 63 }
    ensures { result ≡ length (turn_residue direction fields.now.items entry.now) }
{
    if !covers(entry.direction, direction) {
        return 0;
    }
    entry_len(entry, &value_of(fields, entry.field()))
}

fn entries_len(entries: &[Entry], direction: Direction, fields: &Fields) -> usize
    requires { length (joined direction fields.now.items entries.now) < 2 ^ 63 }
    ensures { result ≡ length (joined direction fields.now.items entries.now) }
{
    let mut total = 0;
    for entry in entries {
        total += turn_len(entry, direction, fields);
    }
    total
}

/// The number of bits of the residue. It takes no memory. The rule is one that matches the fields.
pub fn residue_len(rule: &Admitted, direction: Direction, fields: &Fields) -> usize
    requires { length (residue_of rule.now direction fields.now.items) < 2 ^ 63 }
    ensures { result ≡ length (residue_of rule.now direction fields.now.items) }
{
    entries_len(rule.entries(), direction, fields)
}
