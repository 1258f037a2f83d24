//! Packets as they are written, and the frames that carry them.

ghost use Rattle.std.specs.Prelude.{◌≡◌, ◌<◌, ◌≤◌, length, IfOk};
ghost use Rattle.end_core.specs.Data.{frame_size};
ghost use Rattle.end_core.specs.End.{frame_of, carried};

use event_data::Frame;
use packer::Packed;
use schc_bits::Bits;
use std::alloc::{AllocError, Global};

/// Bits of a RuleID (RFC 9011, section 5.1).
const ID_BITS: usize = 8;

/// The bytes of the frame that carries the SCHC packet whole.
pub(crate) fn frame_size(bits: &Bits) -> usize
    requires { 8 ≤ length bits.now }
    ensures { result ≡ frame_size bits.now }
{
    (bits.len() - ID_BITS).div_ceil(8)
}

/// The frame that carries the SCHC packet whole: the RuleID is the port (RFC 9011, section 5.1).
///
/// # Errors
/// Want of memory.
#[tactic(auto, using(crate::proofs::FrameLemmas::frame_sizes))]
pub(crate) fn frame_of(alloc: Global, form: &Packed) -> Result<Frame, AllocError>
    requires is_port { form.now.rule_id < 256 }
    requires has_id { 8 ≤ length form.now.bits }
    ensures frame { IfOk result (λ frame. frame ≡ frame_of form.now) }
    ensures size { IfOk result (λ frame. length frame.bytes ≡ frame_size form.now.bits) }
{
    let bytes = form.bits.as_part().after(ID_BITS).to_padded_bytes(alloc)?;
    Ok(Frame {
        port: form.rule_id as u8,
        bytes,
    })
}

/// The bits that the frame carries of an SCHC packet: the port is the RuleID.
///
/// # Errors
/// Want of memory.
pub(crate) fn carried(alloc: Global, frame: &Frame) -> Result<Bits, AllocError>
    ensures { IfOk result (λ bits. bits ≡ carried frame.now) }
{
    let mut bits = Bits::from_number(alloc, u64::from(frame.port), 8)?;
    bits.push_bytes(frame.bytes.as_slice())?;
    Ok(bits)
}
