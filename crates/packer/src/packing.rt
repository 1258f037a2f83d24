//! Writing a packet.

ghost use Rattle.std.specs.Prelude.{◌≡◌, ◌≤◌, ◌<◌, true, length, Some, None, IfOk};
ghost use Rattle.rule_model.specs.Cover.{stack_of};
ghost use Rattle.rule_model.specs.Findings.{IsAdmitted};
ghost use Rattle.rule_model.specs.Matches.{Matches};
ghost use Rattle.packer.specs.Packets.{PacketOf, split_of};
ghost use Rattle.ip_udp_fields.specs.Fields.{has_ipv6_header};
ghost use Rattle.packer.specs.Schc.{IsChosen};
ghost use Rattle.packer.specs.Packing.{schc_packet_or_whole, packed, shortest, schc_packet_under};
ghost use Rattle.packer.specs.Searching.{IsFirstSchcPacket, IsSplitFarEnough};

use crate::choosing::{first_of_ip, first_of_udp, smaller};
use crate::splits::{cut_to, split_ip};
use compress::residue;
use editions::Edition;
use rule_model::{Admitted, Computed, Split};
use schc_bits::Bits;
use schc_ids::limits::UNCOMPRESSED;
use schc_ids::{Direction, Iids, Stack};
use std::alloc::{AllocError, Global};
use std::marker::Model;

/// How a packet is written: the number of the edition, the RuleID, and the SCHC packet with the
/// RuleID's 8 bits.
#[derive(Drop)]
pub struct Packed {
    pub edition: u32,
    pub rule_id: u16,
    pub bits: Bits,
}

/// A RuleID and an SCHC packet under it.
#[derive(Drop)]
struct SchcPacket {
    rule_id: u16,
    bits: Bits,
}

impl Model for SchcPacket {
    ghost use Rattle.std.specs.Prelude.{◌<◌, ◌≤◌, length};
    ghost use Rattle.packer.specs.Packing.{SchcPacketData};

    ghost Value = { SchcPacketData };

    ghost view = { λ f. record { rule_id = f.rule_id; bits = f.bits } };

    ghost invariant = { λ f. (f.rule_id < 256) × (8 ≤ length f.bits) };
}

/// The packet as it is, after its RuleID.
fn whole_schc_packet(alloc: Global, packet: &[u8]) -> Result<SchcPacket, AllocError>
    ensures { IfOk result (λ schc_packet. schc_packet ≡ schc_packet_or_whole packet.now None) }
{
    let mut bits = Bits::new(alloc);
    bits.push_bits(u64::from(UNCOMPRESSED), 8)?;
    bits.push_bytes(packet)?;
    Ok(SchcPacket {
        rule_id: u16::from(UNCOMPRESSED),
        bits,
    })
}

/// The rule's RuleID.
fn id_of(rule: &Admitted) -> u16
    ensures id { result ≡ rule.now.id }
    ensures small { result < 256 }
    ensures admitted { IsAdmitted rule.now }
{
    rule.rule().id
}

/// The SCHC packet under the rule, of a packet that was split so.
fn schc_packet_under(
    alloc: Global,
    rule: &Admitted,
    direction: Direction,
    packet: &[u8],
    split: &Split,
) -> Result<SchcPacket, AllocError>
    requires of_stack { PacketOf (stack_of rule.now) direction packet.now split.now.fields split.now.payload_from }
    requires matching { (iids : Iids) × (computed : Computed) × Matches rule.now iids direction split.now.fields computed }
    ensures { IfOk result (λ schc_packet. schc_packet ≡ schc_packet_under rule.now direction packet.now split.now) }
{
    let rule_id = id_of(rule);
    let mut bits = Bits::new(alloc);
    bits.push_bits(u64::from(rule_id), 8)?;
    residue(rule, direction, &split.fields, &mut bits)?;
    bits.push_bytes(&packet[split.payload_from..])?;
    Ok(SchcPacket { rule_id, bits })
}

/// The SCHC packet under the rule that is chosen.
fn first_schc_packet(
    alloc: Global,
    edition: &Edition,
    rule_id: u16,
    direction: Direction,
    packet: &[u8],
    split: Split,
) -> Result<SchcPacket, AllocError>
    requires first { (iids : Iids) × IsFirstSchcPacket edition.now.rules iids direction packet.now rule_id }
    requires far { IsSplitFarEnough edition.now.rules direction packet.now split }
    ensures { IfOk result (λ schc_packet. (iids : Iids) → (first : IsFirstSchcPacket edition.now.rules iids direction packet.now rule_id) → schc_packet ≡ first.schc_packet) }
{
    let listed = edition.lookup(rule_id).unwrap();
    let own = cut_to(listed.rule.stack(), split);
    schc_packet_under(alloc, &listed.rule, direction, packet, &own)
}

/// The SCHC packet of an IPv6 packet: under the rule that is chosen, or as it is where there is none.
fn schc_packet_of_split(
    alloc: Global,
    edition: &Edition,
    iids: Iids,
    direction: Direction,
    packet: &[u8],
    split: Split,
) -> Result<SchcPacket, AllocError>
    requires { split_of Stack.Ip direction packet.now ≡ Some split }
    ensures { IfOk result (λ schc_packet. schc_packet ≡ schc_packet_or_whole packet.now (shortest iids direction packet.now edition.now.rules)) }
{
    let mut split = split;
    let plain = first_of_ip(edition, iids, direction, packet, &split);
    let other = first_of_udp(alloc, edition, iids, direction, packet, &mut split)?;
    match smaller(plain, other) {
        Some(first) => first_schc_packet(alloc, edition, first.rule_id, direction, packet, split),
        None => whole_schc_packet(alloc, packet),
    }
}

/// How the packet is written. It isn't split where there are no rules.
fn schc_packet_of(
    alloc: Global,
    edition: &Edition,
    iids: Iids,
    direction: Direction,
    packet: &[u8],
) -> Result<SchcPacket, AllocError>
    ensures { IfOk result (λ schc_packet. schc_packet ≡ schc_packet_or_whole packet.now (shortest iids direction packet.now edition.now.rules)) }
{
    if edition.rules().is_empty() {
        return whole_schc_packet(alloc, packet);
    }
    match split_ip(alloc, direction, packet)? {
        Some(split) => schc_packet_of_split(alloc, edition, iids, direction, packet, split),
        None => whole_schc_packet(alloc, packet),
    }
}

/// Writes the packet under the live rule that matches it and gives the fewest bits, and of several
/// such the one with the lowest RuleID; where none matches, as it is under the RuleID 22 (RFC 8724
/// section 7.2, RFC 9011 section 5.1).
///
/// # Errors
/// Want of memory.
#[tactic(auto, unfolding(crate::specs::Packing::packed))]
pub fn pack(
    alloc: Global,
    edition: &Edition,
    iids: Iids,
    direction: Direction,
    packet: &[u8],
) -> Result<Packed, AllocError>
    requires { has_ipv6_header packet.now ≡ true }
    ensures as_packed { IfOk result (λ written. written ≡ packed edition.now iids direction packet.now) }
    ensures chosen { IfOk result (λ written. IsChosen edition.now iids direction packet.now written.rule_id written.bits) }
    ensures small { IfOk result (λ written. written.rule_id < 256) }
    ensures with_id { IfOk result (λ written. 8 ≤ length written.bits) }
    ensures short { length packet.now ≤ 1500 → IfOk result (λ written. length written.bits ≤ 12068) }
{
    let schc_packet = schc_packet_of(alloc, edition, iids, direction, packet)?;
    Ok(Packed {
        edition: edition.number(),
        rule_id: schc_packet.rule_id,
        bits: schc_packet.bits,
    })
}
