//! The value of one entry's field.

ghost use Rattle.std.specs.Prelude.{ℕ, ◌≡◌, ◌^◌, ◌<◌, ◌≤◌, ◌++◌, [], Bool, false, replicate, take, unwrap_or, Ok, Err, IfOk, IfErr};
ghost use Rattle.schc_ids.specs.Names.{width_of};
ghost use Rattle.rule_model.specs.Residue.{first_target, msb_bits, restored_value};
ghost use Rattle.decompress.specs.Reading.{entry_at, lsb_at, target_at, value_at};
ghost use Rattle.decompress.specs.declared.entry.EntryFault.TheVariants.{Memory as OutOfMemory, Residue as BadBits};
ghost use Rattle.decompress.specs.Refusals.{IsEntryRefusal, IsUnsent};

use crate::number::read_number;
use crate::value::read_value;
use rule_model::{Action, Entry, Fields, index_width, msb_bits};
use schc_bits::{BitReader, Bits, CopyItem, Part};
use schc_ids::{Iids, ResidueFault, width};
use std::alloc::{AllocError, Global};

/// Why the value of an entry's field isn't read.
#[derive(Clone, Copy, Debug, PartialEq, Eq)]
pub enum EntryFault {
    Residue(ResidueFault),
    Memory,
}

impl From<AllocError> for EntryFault {
    ghost from_gives = { λ _ fault. fault ≡ OutOfMemory };

    fn from(_fault: AllocError) -> EntryFault {
        EntryFault::Memory
    }
}

impl From<ResidueFault> for EntryFault {
    ghost from_gives = { λ why fault. fault ≡ BadBits why };

    fn from(fault: ResidueFault) -> EntryFault {
        EntryFault::Residue(fault)
    }
}

/// The target of an entry with one target.
fn first_target(targets: &[Bits]) -> Part<'_>
    ensures { result ≡ first_target targets.now }
{
    match targets.first() {
        Some(target) => target.as_part(),
        None => Part::none(),
    }
}

/// A target by its index.
fn read_target<'a>(
    reader: &mut BitReader<'_>,
    targets: &'a [Bits],
) -> Result<&'a Bits, ResidueFault>
    ensures ok { IfOk result (λ target. target_at targets.now reader.old ≡ Ok (target.now, reader.new)) }
    ensures err { IfErr result (λ fault. target_at targets.now reader.old ≡ Err fault) }
{
    let index = read_number(reader, index_width(targets.len()))?;
    match targets.get(index as usize) {
        Some(target) => Ok(target),
        None => Err(ResidueFault::IndexTooLarge),
    }
}

fn zeros(alloc: Global, count: u16) -> Result<Bits, AllocError>
    requires { count ≤ 64 }
    ensures { IfOk result (λ bits. bits ≡ replicate count false) }
{
    Bits::from_number(alloc, 0, u32::from(count))
}

/// The value of a field of which nothing is sent.
fn unsent(alloc: Global, entry: &Entry, iids: Iids) -> Result<Bits, AllocError>
    requires { IsUnsent entry.now.action }
    ensures { IfOk result (λ bits. bits ≡ restored_value iids entry.now []) }
{
    match entry.action {
        Action::DevIid => Bits::from_number(alloc, iids.dev, 64),
        Action::AppIid => Bits::from_number(alloc, iids.app, 64),
        Action::Compute => zeros(alloc, width(entry.name).unwrap_or(0)),
        _ => first_target(entry.targets.as_slice()).to_bits(alloc),
    }
}

/// The first bits of the target, this many, and then the others.
fn behind_target(
    alloc: Global,
    targets: &[Bits],
    count: usize,
    rest: &Part<'_>,
) -> Result<Bits, AllocError>
    ensures { IfOk result (λ bits. bits ≡ take count (first_target targets.now) ++ rest.now) }
{
    let target = first_target(targets);
    let mut bits = target.front(count.min(target.len())).to_bits(alloc)?;
    bits.extend_from_part(rest)?;
    Ok(bits)
}

/// A value that is sent whole.
fn read_whole(
    alloc: Global,
    entry: &Entry,
    before: &Fields,
    reader: &mut BitReader<'_>,
) -> Result<Bits, EntryFault>
    ensures ok { IfOk result (λ value. value_at before.now.items entry.now.length 0 reader.old ≡ Ok (value, reader.new)) }
    ensures err { IfErr result (λ fault. IsEntryRefusal fault (value_at before.now.items entry.now.length 0 reader.old)) }
{
    let bits = read_value(reader, before, entry.length, 0)?;
    Ok(bits.to_bits(alloc)?)
}

/// A value whose index among the targets is sent.
fn read_mapped(alloc: Global, entry: &Entry, reader: &mut BitReader<'_>) -> Result<Bits, EntryFault>
    ensures ok { IfOk result (λ value. target_at entry.now.targets reader.old ≡ Ok (value, reader.new)) }
    ensures err { IfErr result (λ fault. IsEntryRefusal fault (target_at entry.now.targets reader.old)) }
{
    let target = read_target(reader, entry.targets.as_slice())?;
    Ok(target.copy_item(alloc)?)
}

/// A value whose first bits are those of the target.
fn read_last_bits(
    alloc: Global,
    entry: &Entry,
    before: &Fields,
    reader: &mut BitReader<'_>,
) -> Result<Bits, EntryFault>
    ensures ok { IfOk result (λ value. lsb_at before.now.items entry.now reader.old ≡ Ok (value, reader.new)) }
    ensures err { IfErr result (λ fault. IsEntryRefusal fault (lsb_at before.now.items entry.now reader.old)) }
{
    let count = msb_bits(entry.operator);
    let rest = read_value(reader, before, entry.length, count)?;
    Ok(behind_target(alloc, entry.targets.as_slice(), count, &rest)?)
}

/// The value of an entry's field, where `before` are the fields that are restored so far.
pub fn read_entry(
    alloc: Global,
    entry: &Entry,
    iids: Iids,
    before: &Fields,
    reader: &mut BitReader<'_>,
) -> Result<Bits, EntryFault>
    ensures ok { IfOk result (λ value. entry_at iids before.now.items entry.now reader.old ≡ Ok (value, reader.new)) }
    ensures err { IfErr result (λ fault. IsEntryRefusal fault (entry_at iids before.now.items entry.now reader.old)) }
{
    match entry.action {
        Action::ValueSent => read_whole(alloc, entry, before, reader),
        Action::MappingSent => read_mapped(alloc, entry, reader),
        Action::Lsb => read_last_bits(alloc, entry, before, reader),
        _ => Ok(unsent(alloc, entry, iids)?),
    }
}
