//! The packets of a load.

ghost use Rattle.std.specs.Prelude.{◌≡◌, ◌≤◌, ◌++◌, length, IfOk, OnOk};
ghost use Rattle.schc_bits.specs.Bits.{AreBytes};
ghost use Rattle.load_maker.specs.Load.{packet_size, payload, load_packet};

use crate::frames::packet_size;
use schc_bits::Octets;
use std::alloc::{AllocError, Global};

/// The bytes before the length of a packet of IPv6: the version, and no traffic class and flow
/// label.
const FIRST: [u8; 4] = [0x60, 0, 0, 0];

/// The next header 59, which is none, and the hop limit 64.
const NEXT_AND_HOPS: [u8; 2] = [0x3b, 0x40];

/// The prefix of link-local addresses (RFC 4291 section 2.5.6).
const LINK_LOCAL: [u8; 8] = [0xfe, 0x80, 0, 0, 0, 0, 0, 0];

/// The interface identifier of the application.
pub(crate) const APP_IID: u64 = 0xffffffff00000001;

/// Writes so many bytes, which count up from the draw.
///
/// # Errors
/// Want of memory.
fn push_payload(packet: &mut Octets, draw: u16, size: u16) -> Result<(), AllocError>
    ensures { OnOk result (packet.new.items ≡ packet.old.items ++ payload draw size) }
{
    for i in 0..size {
        packet.push(((u32::from(draw) + u32::from(i)) % 256) as u8)?;
    }
    Ok(())
}

/// A header of IPv6 from the device to the application, and bytes that count up.
///
/// # Errors
/// Want of memory.
#[tactic(auto, unfolding(crate::specs::Load::load_packet))]
fn written_packet(alloc: Global, device: u16, draw: u16) -> Result<Octets, AllocError>
    ensures { IfOk result (λ packet. packet.items ≡ load_packet device draw) }
{
    let size = packet_size(draw) - 40;
    let mut packet = Octets::new(alloc);
    packet.extend_from(FIRST.as_slice())?;
    packet.extend_from(size.to_be_bytes().as_slice())?;
    packet.extend_from(NEXT_AND_HOPS.as_slice())?;
    packet.extend_from(LINK_LOCAL.as_slice())?;
    packet.extend_from((u64::from(device) + 1).to_be_bytes().as_slice())?;
    packet.extend_from(LINK_LOCAL.as_slice())?;
    packet.extend_from(APP_IID.to_be_bytes().as_slice())?;
    push_payload(&mut packet, draw, size)?;
    Ok(packet)
}

/// The packet of a device and a draw, of 40 to 200 bytes.
///
/// # Errors
/// Want of memory.
#[tactic(auto, using(crate::proofs::LoadLemmas::packet_length, crate::proofs::LoadLemmas::packet_bytes))]
pub(crate) fn load_packet(alloc: Global, device: u16, draw: u16) -> Result<Octets, AllocError>
    ensures packet { IfOk result (λ packet. packet.items ≡ load_packet device draw) }
    ensures size { IfOk result (λ packet. length packet.items ≡ packet_size draw) }
    ensures least { 40 ≤ packet_size draw }
    ensures most { packet_size draw ≤ 200 }
    ensures bytes { IfOk result (λ packet. AreBytes packet.items) }
{
    let _size = packet_size(draw);
    written_packet(alloc, device, draw)
}
