//! The rule under which a packet is written.

ghost use Rattle.std.specs.Prelude.{◌≡◌, ◌-◌, ◌≤◌, ◌||◌, ◌++◌, true, length, Some, IfOk};
ghost use Rattle.std.specs.List.{list_any};
ghost use Rattle.rule_model.specs.Residue.{value_of};
ghost use Rattle.rule_model.specs.Tests.{does_match};
ghost use Rattle.rule_model.specs.Cover.{stack_of};
ghost use Rattle.rule_model.specs.Findings.{IsAdmitted};
ghost use Rattle.ip_udp_fields.specs.Fields.{IsIpv6, IsUdp};
ghost use Rattle.editions.specs.declared.listed.Listed.{Listed};
ghost use Rattle.editions.specs.Data.{IsSound, lookup};
ghost use Rattle.editions.specs.Suspects.{key_field, key_value, suspects};
ghost use Rattle.packer.specs.Packets.{computed_over, split_of};
ghost use Rattle.packer.specs.Packing.{candidate_under, is_preferred, smaller, smallest_of, schc_packet_under};
ghost use Rattle.packer.specs.Searching.{
  CanAllBeTried,
  CanBeTried,
  IsComputedForAll,
  IsSplitFarEnough,
  computed_with,
  computes_under,
  suspects_of,
};

use crate::splits::{add_coap, add_udp};
use compress::residue_len;
use editions::Edition;
use ip_udp_fields::checksum;
use matching::matches;
use rule_model::{Admitted, Computed, Fields, Split, computes_checksum, value_of};
use schc_ids::{Direction, FieldAt, FieldName, Iids, Stack};
use std::alloc::{AllocError, Global};

/// The bytes of an IPv6 header (RFC 8200 section 3).
const IP_HEADER: usize = 40;

/// The bits of a RuleID.
const RULE_ID: usize = 8;

/// A rule under which a packet can be written, and the bits of its SCHC packet.
#[derive(Clone, Copy)]
pub(crate) struct Candidate {
    pub(crate) rule_id: u16,
    pub(crate) bits: usize,
}

/// Whether the first has fewer bits, or as many under a RuleID that isn't higher.
fn is_preferred(candidate: Candidate, other: Candidate) -> bool
    ensures { result ≡ is_preferred candidate other }
{
    candidate.bits < other.bits
        || (candidate.bits == other.bits && candidate.rule_id <= other.rule_id)
}

/// Of two candidates the one with fewer bits, and of two with as many the one with the lower RuleID.
pub(crate) fn smaller(first: Option<Candidate>, other: Option<Candidate>) -> Option<Candidate>
    ensures { result ≡ smaller first other }
{
    match (first, other) {
        (Some(first), Some(other)) => {
            if is_preferred(first, other) {
                Some(first)
            } else {
                Some(other)
            }
        }
        (Some(first), None) => Some(first),
        (None, other) => other,
    }
}

/// How many bits the SCHC packet under the rule has, of a packet that was split so.
fn bits_under(rule: &Admitted, direction: Direction, packet: &[u8], split: &Split) -> usize
    requires admitted { IsAdmitted rule.now }
    requires split { split_of (stack_of rule.now) direction packet.now ≡ Some split.now }
    requires matching { (iids : Iids) × (does_match rule.now iids direction split.now.fields (computed_over (stack_of rule.now) packet.now) ≡ true) }
    ensures { result ≡ length (schc_packet_under rule.now direction packet.now split.now).bits }
{
    RULE_ID + residue_len(rule, direction, &split.fields) + 8 * (packet.len() - split.payload_from)
}

/// The candidate that is listed under the RuleID, where the rule matches.
fn candidate_under(
    edition: &Edition,
    id: u16,
    iids: Iids,
    direction: Direction,
    packet: &[u8],
    split: &Split,
    computed: &Computed,
) -> Option<Candidate>
    requires { (listed : Listed) → lookup edition.now.rules id ≡ Some listed → CanBeTried direction packet.now split.now computed.now listed }
    ensures { result ≡ candidate_under edition.now.rules iids direction packet.now id }
{
    let listed = edition.lookup(id)?;
    if !matches(&listed.rule, iids, direction, &split.fields, computed) {
        return None;
    }
    let bits = bits_under(&listed.rule, direction, packet, split);
    Some(Candidate { rule_id: id, bits })
}

/// Of the candidates under these RuleIDs the one that comes first.
fn first_candidate(
    edition: &Edition,
    ids: &[u16],
    iids: Iids,
    direction: Direction,
    packet: &[u8],
    split: &Split,
    computed: &Computed,
) -> Option<Candidate>
    requires { CanAllBeTried edition.now.rules direction packet.now split.now computed.now ids.now }
    ensures { result ≡ smallest_of (candidate_under edition.now.rules iids direction packet.now) ids.now }
{
    let mut best = None;
    for id in ids {
        let candidate = candidate_under(edition, *id, iids, direction, packet, split, computed);
        best = smaller(best, candidate);
    }
    best
}

/// Whether the rule under the RuleID computes the UDP checksum.
fn computes(edition: &Edition, id: u16, direction: Direction) -> bool
    ensures { result ≡ computes_under edition.now.rules direction id }
{
    match edition.lookup(id) {
        Some(listed) => computes_checksum(listed.rule.rule(), direction),
        None => false,
    }
}

/// Whether some rule of these computes the UDP checksum.
fn some_computes(edition: &Edition, ids: &[u16], direction: Direction) -> bool
    ensures { result ≡ list_any (computes_under edition.now.rules direction) ids.now }
{
    ids.iter().any(|id| computes(edition, *id, direction))
}

/// Whether some rule of the two lists does.
fn either_computes(edition: &Edition, these: &[u16], those: &[u16], direction: Direction) -> bool
    ensures { result ≡ (list_any (computes_under edition.now.rules direction) these.now || list_any (computes_under edition.now.rules direction) those.now) }
{
    some_computes(edition, these, direction) || some_computes(edition, those, direction)
}

/// The number of bytes after the IPv6 header.
fn size_after(packet: &[u8]) -> u16
    requires { IsIpv6 packet.now }
    ensures { result ≡ length packet.now - 40 }
{
    (packet.len() - IP_HEADER) as u16
}

/// What is computed over an IPv6 packet.
fn over_ip(packet: &[u8]) -> Computed
    requires { IsIpv6 packet.now }
    ensures { result ≡ computed_over Stack.Ip packet.now }
{
    Computed {
        payload_length: size_after(packet),
        udp_length: 0,
        checksum: 0,
    }
}

/// What is computed over a UDP packet. The checksum is summed only where it is asked for.
fn over_udp(packet: &[u8], with_checksum: bool) -> Computed
    requires { IsUdp packet.now }
    ensures { result ≡ computed_with with_checksum packet.now }
{
    let size = size_after(packet);
    let checksum = if with_checksum { checksum(packet) } else { 0 };
    Computed {
        payload_length: size,
        udp_length: size,
        checksum,
    }
}

/// The field by whose value rules of the stack are found.
fn key_field(stack: Stack) -> FieldName
    ensures { result ≡ key_field stack }
{
    match stack {
        Stack::Ip => FieldName::IpNextHeader,
        Stack::IpUdp | Stack::IpUdpCoap => FieldName::UdpAppPort,
    }
}

/// The number in that field.
fn key_value(stack: Stack, fields: &Fields) -> u16
    requires { length (value_of fields.now.items (record { name = key_field stack; position = 1 })) ≤ 16 }
    ensures { result ≡ key_value stack fields.now.items }
{
    let at = FieldAt {
        name: key_field(stack),
        position: 1,
    };
    value_of(fields, at).number() as u16
}

/// The candidate that comes first of the stack of IPv6 alone.
pub(crate) fn first_of_ip(
    edition: &Edition,
    iids: Iids,
    direction: Direction,
    packet: &[u8],
    split: &Split,
) -> Option<Candidate>
    requires { split_of Stack.Ip direction packet.now ≡ Some split.now }
    ensures first { result ≡ smallest_of (candidate_under edition.now.rules iids direction packet.now) (suspects_of edition.now.rules direction packet.now Stack.Ip) }
    ensures sound { IsSound edition.now }
{
    let ids = edition.suspects(direction, Stack::Ip, key_value(Stack::Ip, &split.fields));
    first_candidate(
        edition,
        ids,
        iids,
        direction,
        packet,
        split,
        &over_ip(packet),
    )
}

/// The candidate that comes first of the stack with CoAP, of these rules. The message isn't read
/// where there is none.
fn first_of_coap(
    alloc: Global,
    edition: &Edition,
    ids: &[u16],
    iids: Iids,
    direction: Direction,
    packet: &[u8],
    split: &mut Split,
    computed: &Computed,
) -> Result<Option<Candidate>, AllocError>
    requires sound { IsSound edition.now }
    requires udp { split_of Stack.IpUdp direction packet.now ≡ Some split.old }
    requires ids { ids.now ≡ suspects edition.now.rules direction Stack.IpUdpCoap (key_value Stack.IpUdp split.old.fields) }
    requires computed { IsComputedForAll edition.now.rules direction packet.now computed.now ids.now }
    ensures first { IfOk result (λ first. first ≡ smallest_of (candidate_under edition.now.rules iids direction packet.now) (suspects_of edition.now.rules direction packet.now Stack.IpUdpCoap)) }
    ensures far { IfOk result (λ _. IsSplitFarEnough edition.now.rules direction packet.now split.new) }
{
    if ids.is_empty() {
        return Ok(None);
    }
    if !add_coap(alloc, packet, split)? {
        return Ok(None);
    }
    Ok(first_candidate(edition, ids, iids, direction, packet, split, computed))
}

/// The candidate that comes first of the stacks with UDP. The packet is split further, as far as
/// the rules need it.
pub(crate) fn first_of_udp(
    alloc: Global,
    edition: &Edition,
    iids: Iids,
    direction: Direction,
    packet: &[u8],
    split: &mut Split,
) -> Result<Option<Candidate>, AllocError>
    requires { split_of Stack.Ip direction packet.now ≡ Some split.old }
    ensures first { IfOk result (λ first. first ≡ smallest_of (candidate_under edition.now.rules iids direction packet.now)
        (suspects_of edition.now.rules direction packet.now Stack.IpUdp ++ suspects_of edition.now.rules direction packet.now Stack.IpUdpCoap)) }
    ensures far { IfOk result (λ _. IsSplitFarEnough edition.now.rules direction packet.now split.new) }
{
    if !add_udp(alloc, direction, packet, split)? {
        return Ok(None);
    }
    let key = key_value(Stack::IpUdp, &split.fields);
    let ids = edition.suspects(direction, Stack::IpUdp, key);
    let with_coap = edition.suspects(direction, Stack::IpUdpCoap, key);
    let sums = either_computes(edition, ids, with_coap, direction);
    let computed = over_udp(packet, sums);
    let first = first_candidate(edition, ids, iids, direction, packet, split, &computed);
    let other = first_of_coap(
        alloc, edition, with_coap, iids, direction, packet, split, &computed,
    )?;
    Ok(smaller(first, other))
}
