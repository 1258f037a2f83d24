//! The fields of a residue.

ghost use Rattle.std.specs.Prelude.{ℕ, ◌≡◌, ◌≤◌, ◌⊎◌, [], length, drop, Ok, IfOk, IfErr};
ghost use Rattle.rule_model.specs.Findings.{IsAdmitted};
ghost use Rattle.decompress.specs.Reading.{restore_at, restore_from};
ghost use Rattle.decompress.specs.Stands.{NoneStands, Stands};
ghost use Rattle.decompress.specs.Refusals.{IsRefusal, fault_at};

use crate::entry::{EntryFault, read_entry};
use rule_model::{Admitted, Entry, FieldValue, Fields};
use schc_bits::{BitReader, Bits};
use schc_ids::{Direction, Iids, UnpackFault, covers};
use std::alloc::Global;
use std::marker::Model;

/// The fields that were restored, one for each entry of the rule that is used in the direction and
/// in the order of these entries, and the place of the bit after the residue.
#[derive(Drop)]
pub struct Restored {
    pub fields: Fields,
    pub next: usize,
}

impl Model for Restored {
    ghost use Rattle.decompress.specs.Data.{RestoredData};

    ghost Value = { RestoredData };

    ghost view = { λ r. record { fields = r.fields.items; next = r.next } };
}

/// The fault of the entry of this number.
fn fault_of(number: u64, fault: EntryFault) -> UnpackFault
    ensures { result ≡ fault_at number fault }
{
    match fault {
        EntryFault::Residue(why) => UnpackFault::BadResidue(number, why),
        EntryFault::Memory => UnpackFault::Memory,
    }
}

fn read_fields(
    alloc: Global,
    entries: &[Entry],
    iids: Iids,
    direction: Direction,
    reader: &mut BitReader<'_>,
) -> Result<Fields, UnpackFault>
    ensures ok { IfOk result (λ fields. restore_from iids direction 1 [] entries.now reader.old ≡ Ok (fields.items, reader.new)) }
    ensures err { IfErr result (λ fault. IsRefusal fault (restore_from iids direction 1 [] entries.now reader.old)) }
{
    let mut fields = Fields::new(alloc);
    for (i, entry) in entries.iter().enumerate() {
        if !covers(entry.direction, direction) {
            continue;
        }
        let value = match read_entry(alloc, entry, iids, &fields, reader) {
            Ok(value) => value,
            Err(fault) => return Err(fault_of(i as u64 + 1, fault)),
        };
        let field = FieldValue {
            at: entry.field(),
            value,
        };
        if fields.push(field).is_err() {
            return Err(UnpackFault::Memory);
        }
    }
    Ok(fields)
}

fn read_rule(
    alloc: Global,
    rule: &Admitted,
    iids: Iids,
    direction: Direction,
    reader: &mut BitReader<'_>,
) -> Result<Fields, UnpackFault>
    ensures ok { IfOk result (λ fields. restore_at rule.now iids direction reader.old ≡ Ok (fields.items, reader.new)) }
    ensures admitted { IsAdmitted rule.now }
    ensures err { IfErr result (λ fault. IsRefusal fault (restore_at rule.now iids direction reader.old)) }
{
    read_fields(alloc, rule.entries(), iids, direction, reader)
}

/// Reads the fields whose residue stands in the bits from the place `from` on: the value of each
/// entry that is used in the direction, in the rule's order. What isn't sent is made as the rule
/// says; a computed field stands as zeros.
///
/// # Errors
/// The first entry that can't be read, numbered from 1 in the rule's list, and why; or want of
/// memory.
pub fn restore(
    alloc: Global,
    rule: &Admitted,
    iids: Iids,
    direction: Direction,
    bits: &Bits,
    from: usize,
) -> Result<Restored, UnpackFault>
    requires { from ≤ length bits.now }
    ensures ok { IfOk result (λ restored. restore_at rule.now iids direction (drop from bits.now) ≡ Ok (restored.fields, drop restored.next bits.now)) }
    ensures stands { IfOk result (λ restored. Stands rule.now iids direction restored.fields (drop from bits.now) (drop restored.next bits.now)) }
    ensures next { IfOk result (λ restored. (from ≤ restored.next) × (restored.next ≤ length bits.now)) }
    ensures err { IfErr result (λ fault. IsRefusal fault (restore_at rule.now iids direction (drop from bits.now))) }
    ensures none { IfErr result (λ fault. (fault ≡ UnpackFault.Memory) ⊎ NoneStands rule.now iids direction (drop from bits.now)) }
{
    let mut reader = BitReader::at(bits, from);
    match read_rule(alloc, rule, iids, direction, &mut reader) {
        Ok(fields) => Ok(Restored {
            fields,
            next: bits.len() - reader.left(),
        }),
        Err(fault) => Err(fault),
    }
}
