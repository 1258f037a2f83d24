//! Packets that are written.

ghost use Rattle.std.specs.Prelude.{◌≡◌, ◌++◌, length, OnOk, string_bytes};
ghost use Rattle.rule_commands.specs.Packets.{written_text, pack_outcome};

use editions::Edition;
use ip_udp_fields::has_ipv6_header;
use packer::Packed;
use printed_words::push_bytes;
use schc_ids::limits::MAX_PACKET;
use schc_ids::{Direction, Iids};
use std::alloc::AllocError;

/// Writes how a packet is written.
#[tactic(auto, unfolding(crate::specs::Packets::written_text))]
fn push_written(text: &mut String, written: &Packed) -> Result<(), AllocError>
    ensures { OnOk result (string_bytes text.new ≡ string_bytes text.old ++ written_text written.now) }
{
    let rule_id = written.rule_id;
    let bits = written.bits.len();
    write!(text, "rule {rule_id} bits {bits} ")?;
    let bytes = written.bits.to_padded_bytes()?;
    push_bytes(text, bytes.as_slice())
}

/// Writes the outcome of `pack` for a packet.
#[tactic(auto, unfolding(crate::specs::Packets::pack_outcome))]
pub(crate) fn push_packed(
    text: &mut String,
    edition: &Edition,
    iids: Iids,
    direction: Direction,
    packet: &[u8],
) -> Result<(), AllocError>
    ensures { OnOk result (string_bytes text.new ≡ string_bytes text.old ++ pack_outcome edition.now iids direction packet.now) }
{
    if !has_ipv6_header(packet) {
        return text.push_str("refused not-ipv6");
    }
    if packet.len() > MAX_PACKET {
        return text.push_str("refused too-long");
    }
    let written = packer::pack(*text.allocator(), edition, iids, direction, packet)?;
    push_written(text, &written)
}
