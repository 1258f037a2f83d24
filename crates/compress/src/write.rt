//! Writing a residue.

ghost use Rattle.std.specs.Prelude.{ℕ, ◌≡◌, ◌/◌, ◌≤◌, ◌++◌, drop, length, position, OnOk, OnErr};
ghost use Rattle.schc_bits.specs.Bits.{number_bits};
ghost use Rattle.rule_model.specs.Findings.{same_bits};
ghost use Rattle.rule_model.specs.Residue.{
  IsSized,
  HasSize,
  SizeHolds,
  entry_residue,
  index_of,
  index_width,
  msb_bits,
  residue_of,
  size_code,
  with_size,
};
ghost use Rattle.compress.specs.Turns.{KeepsFront, TurnHolds, TurnsHold, joined, turn_residue};

use rule_model::{
    Action, Admitted, Entry, Fields, Length, Operator, index_width, msb_bits, same_bits, value_of,
};
use schc_bits::{Bits, Part};
use schc_ids::{Direction, covers};
use std::alloc::AllocError;

fn find_target(targets: &[Bits], value: &Part<'_>) -> Option<usize>
    ensures { result ≡ position (λ target. same_bits target value.now) targets.now }
{
    targets
        .iter()
        .position(|target| same_bits(&target.as_part(), value))
}

/// The index of the value among the targets, from 0; 0 where it is none of them.
fn index_of(targets: &[Bits], value: &Part<'_>) -> usize
    ensures { result ≡ index_of targets.now value.now }
{
    find_target(targets, value).unwrap_or(0)
}

/// The bits after the first `count`.
pub(crate) fn rest_of<'a>(value: &Part<'a>, count: usize) -> Part<'a>
    ensures { result ≡ drop count value.now }
{
    value.after(count.min(value.len()))
}

/// The size in bytes, in its shortest form (RFC 8724, section 7.4.2).
fn push_size(out: &mut Bits, size: usize) -> Result<(), AllocError>
    requires { size ≤ 65535 }
    ensures ok { OnOk result (out.new ≡ out.old ++ size_code size) }
    ensures err { OnErr result (out.new ≡ out.old) }
{
    let size = size as u64;
    if size < 15 {
        out.push_bits(size, 4)
    } else if size < 255 {
        out.push_bits(0xf00 + size, 12)
    } else {
        out.push_bits(0xfff_0000 + size, 28)
    }
}

fn push_sized(out: &mut Bits, length: Length, bits: &Part<'_>) -> Result<(), AllocError>
    requires { SizeHolds length Action.ValueSent Operator.Equal bits.now }
    ensures ok { OnOk result (out.new ≡ out.old ++ with_size length bits.now) }
    ensures err { OnErr result (KeepsFront out.old out.new) }
{
    if length == Length::Variable {
        push_size(out, bits.len() / 8)?;
    }
    out.extend_from_part(bits)
}

fn push_index(out: &mut Bits, targets: &[Bits], value: &Part<'_>) -> Result<(), AllocError>
    ensures ok { OnOk result (out.new ≡ out.old ++ number_bits (index_width (length targets.now)) (index_of targets.now value.now)) }
    ensures err { OnErr result (out.new ≡ out.old) }
{
    out.push_bits(index_of(targets, value) as u64, index_width(targets.len()))
}

/// What is sent of the entry's field, which has this value.
fn push_entry(out: &mut Bits, entry: &Entry, value: &Part<'_>) -> Result<(), AllocError>
    requires { SizeHolds entry.now.length entry.now.action entry.now.operator value.now }
    ensures ok { OnOk result (out.new ≡ out.old ++ entry_residue entry.now value.now) }
    ensures err { OnErr result (KeepsFront out.old out.new) }
{
    match entry.action {
        Action::ValueSent => push_sized(out, entry.length, value),
        Action::MappingSent => push_index(out, entry.targets.as_slice(), value),
        Action::Lsb => push_sized(out, entry.length, &rest_of(value, msb_bits(entry.operator))),
        Action::NotSent | Action::Compute | Action::DevIid | Action::AppIid => Ok(()),
    }
}

fn push_turn(
    out: &mut Bits,
    entry: &Entry,
    direction: Direction,
    fields: &Fields,
) -> Result<(), AllocError>
    requires { TurnHolds direction fields.now.items entry.now }
    ensures ok { OnOk result (out.new ≡ out.old ++ turn_residue direction fields.now.items entry.now) }
    ensures err { OnErr result (KeepsFront out.old out.new) }
{
    if !covers(entry.direction, direction) {
        return Ok(());
    }
    push_entry(out, entry, &value_of(fields, entry.field()))
}

fn push_entries(
    out: &mut Bits,
    entries: &[Entry],
    direction: Direction,
    fields: &Fields,
) -> Result<(), AllocError>
    requires { TurnsHold direction fields.now.items entries.now }
    ensures ok { OnOk result (out.new ≡ out.old ++ joined direction fields.now.items entries.now) }
    ensures err { OnErr result (KeepsFront out.old out.new) }
{
    for entry in entries {
        push_turn(out, entry, direction, fields)?;
    }
    Ok(())
}

/// Puts the residue of the fields last: what is sent of each entry that is used in the direction,
/// in the rule's order. The rule is one that matches the fields.
///
/// # Errors
/// Want of memory; the bits are then as before.
pub fn residue(
    rule: &Admitted,
    direction: Direction,
    fields: &Fields,
    out: &mut Bits,
) -> Result<(), AllocError>
    requires { IsSized rule.now direction fields.now.items }
    ensures ok { OnOk result (out.new ≡ out.old ++ residue_of rule.now direction fields.now.items) }
    ensures err { OnErr result (out.new ≡ out.old) }
{
    let before = out.len();
    match push_entries(out, rule.entries(), direction, fields) {
        Ok(()) => Ok(()),
        Err(fault) => {
            out.truncate(before);
            Err(fault)
        }
    }
}
