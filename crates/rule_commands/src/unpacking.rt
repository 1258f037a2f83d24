//! Packets that are read.

ghost use Rattle.std.specs.Prelude.{◌≡◌, ◌++◌, Ok, Err, OnOk, string_bytes};
ghost use Rattle.printed_words.specs.Words.{IsUnread};
ghost use Rattle.rule_commands.specs.Packets.{read_text, unpack_outcome};

use editions::Edition;
use packer::Unpacked;
use printed_words::{push_bytes, push_unread};
use schc_bits::Bits;
use schc_ids::{Direction, Iids, UnpackFault};
use std::alloc::AllocError;

/// Writes what was read.
#[tactic(auto, unfolding(crate::specs::Packets::read_text))]
fn push_read(text: &mut String, read: &Unpacked) -> Result<(), AllocError>
    ensures { OnOk result (string_bytes text.new ≡ string_bytes text.old ++ read_text (Ok read.now)) }
{
    let rule_id = read.rule_id;
    write!(text, "rule {rule_id} ")?;
    push_bytes(text, read.packet.as_slice())
}

/// Writes why nothing was read.
#[tactic(auto, unfolding(crate::specs::Packets::read_text))]
fn push_fault(text: &mut String, fault: UnpackFault) -> Result<(), AllocError>
    requires { IsUnread fault }
    ensures { OnOk result (string_bytes text.new ≡ string_bytes text.old ++ read_text (Err fault)) }
{
    text.push_str("refused ")?;
    push_unread(text, fault)
}

/// Writes the outcome of `unpack` for a packet.
#[tactic(auto, unfolding(crate::specs::Packets::unpack_outcome))]
pub(crate) fn push_unpacked(
    text: &mut String,
    edition: &Edition,
    iids: Iids,
    direction: Direction,
    packet: &[u8],
) -> Result<(), AllocError>
    ensures { OnOk result (string_bytes text.new ≡ string_bytes text.old ++ unpack_outcome edition.now iids direction packet.now) }
{
    let alloc = *text.allocator();
    let bits = Bits::from_bytes(alloc, packet)?;
    match packer::unpack(alloc, edition, iids, direction, &bits) {
        Ok(read) => push_read(text, &read),
        Err(UnpackFault::Memory) => Err(AllocError),
        Err(fault) => push_fault(text, fault),
    }
}
