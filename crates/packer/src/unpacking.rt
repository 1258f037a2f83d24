//! Reading a packet.

ghost use Rattle.std.specs.Prelude.{◌≡◌, ◌≤◌, ◌*◌, ◌<◌, ◌⊎◌, true, Bool, List, length, drop, Some, Ok, Err, IfOk, IfErr, IfSome, IfNone};
ghost use Rattle.schc_bits.specs.Bits.{bytes_of};
ghost use Rattle.rule_model.specs.Cover.{covered};
ghost use Rattle.editions.specs.declared.listed.Listed.{Listed};
ghost use Rattle.editions.specs.Data.{IsSound, lookup};
ghost use Rattle.decompress.specs.Reading.{restore_at};
ghost use Rattle.ip_udp_fields.specs.Fields.{has_ipv6_header};
ghost use Rattle.packer.specs.Rebuilding.{AreRestored, HasOptions, HasOptionsUnder};
ghost use Rattle.packer.specs.Schc.{Decodes, NothingDecodes};
ghost use Rattle.packer.specs.Unpacking.{
  read_by,
  read_under,
  read_whole,
  reads,
  rebuilt,
  rebuilt_from,
  unpacked,
};

use crate::rebuilding::rebuild;
use decompress::restore;
use editions::Edition;
use ip_udp_fields::has_ipv6_header;
use rule_model::{Admitted, Fields};
use schc_bits::{Bits, Octets, Part};
use schc_ids::limits::UNCOMPRESSED;
use schc_ids::{Direction, FieldAt, FieldName, Iids, ResidueFault, UnpackFault};
use std::alloc::Global;
use std::marker::Model;

/// What was read: the RuleID, and the packet.
#[derive(Drop)]
pub struct Unpacked {
    pub rule_id: u16,
    pub packet: Octets,
}

impl Model for Unpacked {
    ghost use Rattle.packer.specs.UnpackedData.{UnpackedData};

    ghost Value = { UnpackedData };

    ghost view = { λ u. record { rule_id = u.rule_id; packet = u.packet.items } };
}

/// The bits of a RuleID.
const RULE_ID: usize = 8;

const VERSION: FieldAt = FieldAt {
    name: FieldName::IpVersion,
    position: 1,
};

/// A packet that no rule compresses: the whole bytes.
fn read_whole(alloc: Global, bits: &Part<'_>) -> Result<Octets, UnpackFault>
    ensures ok { IfOk result (λ packet. read_whole (bytes_of bits.now) ≡ Ok packet.items) }
    ensures err { IfErr result (λ fault. (fault ≡ UnpackFault.Memory) ⊎ (read_whole (bytes_of bits.now) ≡ Err fault)) }
{
    match bits.to_whole_bytes(alloc) {
        Ok(packet) => {
            if has_ipv6_header(packet.as_slice()) {
                Ok(packet)
            } else {
                Err(UnpackFault::BadPacket(VERSION))
            }
        }
        Err(_) => Err(UnpackFault::Memory),
    }
}

/// The rest behind a residue, whose fields were restored.
fn read_payload(
    alloc: Global,
    rule: &Admitted,
    direction: Direction,
    fields: &Fields,
    rest: &Part<'_>,
) -> Result<Octets, UnpackFault>
    requires { AreRestored rule.now direction fields.now.items }
    ensures options { IfOk result (λ _. HasOptions (covered rule.now direction)) }
    ensures ok { IfOk result (λ packet. rebuilt rule.now direction fields.now.items (bytes_of rest.now) ≡ Ok packet.items) }
    ensures err { IfErr result (λ fault. (fault ≡ UnpackFault.Memory) ⊎ (rebuilt rule.now direction fields.now.items (bytes_of rest.now) ≡ Err fault)) }
{
    match rest.to_whole_bytes(alloc) {
        Ok(payload) => rebuild(alloc, rule, direction, fields, payload.as_slice()),
        Err(_) => Err(UnpackFault::Memory),
    }
}

/// A packet by the rule, which reads packets of the direction.
fn read_by(
    alloc: Global,
    rule: &Admitted,
    iids: Iids,
    direction: Direction,
    bits: &Bits,
) -> Result<Octets, UnpackFault>
    requires bits { 8 ≤ length bits.now }
    requires reads { reads rule.now direction ≡ true }
    ensures options { IfOk result (λ _. HasOptions (covered rule.now direction)) }
    ensures ok { IfOk result (λ packet. rebuilt_from rule.now direction (restore_at rule.now iids direction (drop 8 bits.now)) ≡ Ok packet.items) }
    ensures err { IfErr result (λ fault. (fault ≡ UnpackFault.Memory)
        ⊎ (rebuilt_from rule.now direction (restore_at rule.now iids direction (drop 8 bits.now)) ≡ Err fault)) }
{
    match restore(alloc, rule, iids, direction, bits, RULE_ID) {
        Ok(restored) => {
            let rest = bits.as_part().after(restored.next);
            read_payload(alloc, rule, direction, &restored.fields, &rest)
        }
        Err(fault) => Err(fault),
    }
}

/// The rule that reads packets of the direction under the RuleID.
fn reader(edition: &Edition, id: u16, direction: Direction) -> Option<&Admitted>
    ensures none { IfNone result ((iids : Iids) → (bits : List Bool) → read_by id iids direction (lookup edition.now.rules id) bits ≡ Err (UnpackFault.UnknownRule id)) }
    ensures some { IfSome result (λ rule. (reads rule.now direction ≡ true) × ((iids : Iids) → (bits : List Bool)
        → read_by id iids direction (lookup edition.now.rules id) bits ≡ rebuilt_from rule.now direction (restore_at rule.now iids direction bits))) }
    ensures listed { IfSome result (λ rule. (listed : Listed) → lookup edition.now.rules id ≡ Some listed → listed.rule ≡ rule.now) }
    ensures sound { IsSound edition.now }
{
    let listed = edition.lookup(id)?;
    if listed.rule.serves(direction) {
        Some(&listed.rule)
    } else {
        None
    }
}

/// What follows the RuleID.
fn read_under(
    alloc: Global,
    edition: &Edition,
    iids: Iids,
    direction: Direction,
    id: u16,
    bits: &Bits,
) -> Result<Octets, UnpackFault>
    requires { 8 ≤ length bits.now }
    ensures ok { IfOk result (λ packet. read_under edition.now iids direction id (drop 8 bits.now) ≡ Ok packet.items) }
    ensures err { IfErr result (λ fault. (fault ≡ UnpackFault.Memory)
        ⊎ (read_under edition.now iids direction id (drop 8 bits.now) ≡ Err fault)) }
    ensures options { IfOk result (λ _. HasOptionsUnder edition.now direction id) }
    ensures sound { IsSound edition.now }
{
    let rule = reader(edition, id, direction);
    if id == u16::from(UNCOMPRESSED) {
        return read_whole(alloc, &bits.as_part().after(RULE_ID));
    }
    match rule {
        Some(rule) => read_by(alloc, rule, iids, direction, bits),
        None => Err(UnpackFault::UnknownRule(id)),
    }
}

/// The RuleID, and what follows it.
#[tactic(auto, unfolding(crate::specs::Unpacking::unpacked))]
fn read(
    alloc: Global,
    edition: &Edition,
    iids: Iids,
    direction: Direction,
    bits: &Bits,
) -> Result<Unpacked, UnpackFault>
    ensures ok { IfOk result (λ read. unpacked edition.now iids direction bits.now ≡ Ok read) }
    ensures err { IfErr result (λ fault. (fault ≡ UnpackFault.Memory) ⊎ (unpacked edition.now iids direction bits.now ≡ Err fault)) }
    ensures options { IfOk result (λ read. HasOptionsUnder edition.now direction read.rule_id) }
    ensures sound { (length bits.now < 8) ⊎ IsSound edition.now }
{
    if bits.len() < RULE_ID {
        return Err(UnpackFault::BadResidue(0, ResidueFault::Short));
    }
    let rule_id = bits.as_part().front(RULE_ID).number() as u16;
    match read_under(alloc, edition, iids, direction, rule_id, bits) {
        Ok(packet) => Ok(Unpacked { rule_id, packet }),
        Err(fault) => Err(fault),
    }
}

/// Reads an SCHC packet: the RuleID in 8 bits, the residue, and the payload, which is the whole
/// bytes that are left. Up to 7 bits behind it aren't looked at (RFC 8724 section 7).
///
/// # Errors
/// The first that holds: `BadResidue(0, Short)` for fewer than 8 bits; `UnknownRule` for a RuleID
/// that is neither 22 nor that of a listed rule which serves the direction; `BadResidue` at the
/// first entry that can't be read; `BadPacket` for the first field that keeps the restored fields
/// from being a packet. Or want of memory.
pub fn unpack(
    alloc: Global,
    edition: &Edition,
    iids: Iids,
    direction: Direction,
    bits: &Bits,
) -> Result<Unpacked, UnpackFault>
    ensures ok { IfOk result (λ read. unpacked edition.now iids direction bits.now ≡ Ok read) }
    ensures err { IfErr result (λ fault. (fault ≡ UnpackFault.Memory) ⊎ (unpacked edition.now iids direction bits.now ≡ Err fault)) }
    ensures says { IfOk result (λ read. Decodes edition.now iids direction bits.now read.packet read.rule_id) }
    ensures none { IfErr result (λ fault. (fault ≡ UnpackFault.Memory) ⊎ NothingDecodes edition.now iids direction bits.now) }
    ensures bound { IfOk result (λ read. (length read.packet ≤ 65575) ⊎ (8 * length read.packet ≤ length bits.now)) }
{
    read(alloc, edition, iids, direction, bits)
}
