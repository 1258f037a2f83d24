//! What a receiver sends.

ghost use Rattle.std.specs.Prelude.{ℕ, ◌≡◌, ◌+◌, ◌^◌, ◌<◌, ◌≤◌, ◌++◌, if◌then◌else◌, length, OnOk};
ghost use Rattle.schc_bits.specs.Bits.{number_bits};
ghost use Rattle.frag_wire.specs.Answers.{answer_head, answer_reading, bitmap_in, kept_bits};

use crate::bitmap::scissors;
use crate::fields::number_in;
use crate::message::Message;
use schc_bits::Bits;
use schc_ids::WireFault;
use std::alloc::AllocError;

/// The answer that the bytes are, with a W of `w_bits` bits, a bitmap of `size` bits, and at most
/// `most` bytes (RFC 8724 sections 8.3.2 and 8.3.5).
///
/// # Errors
/// `Empty` without bytes, `WrongForm` where there are too many.
#[tactic(auto, unfolding(crate::specs::Answers::answer_reading))]
pub(crate) fn read(w_bits: u32, size: u32, most: usize, bytes: &[u8]) -> Result<Message, WireFault>
    requires w_bits { w_bits ≤ 2 }
    requires size { size ≤ 63 }
    requires most { most ≤ 9 }
    ensures { result ≡ answer_reading w_bits size most bytes.now }
{
    let len = bytes.len();
    if len == 0 {
        return Err(WireFault::Empty);
    }
    let w = number_in(bytes, 0, w_bits) as u8;
    if number_in(bytes, w_bits, 1) == 0 {
        if len > most {
            return Err(WireFault::WrongForm);
        }
        let bitmap = bitmap_in(bytes, w_bits + 1, size);
        return Ok(Message::Ack {
            w,
            c: false,
            bitmap,
        });
    }
    if len == 1 {
        return Ok(Message::Ack {
            w,
            c: true,
            bitmap: 0,
        });
    }
    if len == 2 && number_in(bytes, 0, 16) == 65535 {
        return Ok(Message::ReceiverAbort);
    }
    Err(WireFault::WrongForm)
}

/// The bitmap of `size` bits that begins at the bit `from`. Bits that aren't there are 1.
fn bitmap_in(bytes: &[u8], from: u32, size: u32) -> u64
    requires from { from ≤ 3 }
    requires size { size ≤ 63 }
    requires some { 1 ≤ length bytes.now }
    requires most { length bytes.now ≤ 9 }
    ensures { result ≡ bitmap_in from size bytes.now }
{
    let there = (8 * (bytes.len() as u32) - from).min(size);
    let missing = size - there;
    let number = number_in(bytes, from, there);
    ((number + 1) << missing) - 1
}

/// Puts last what an answer begins with: W and C.
#[tactic(auto, using(crate::proofs::WrittenLemmas::head_pushed))]
pub(crate) fn push_answer_head(
    bits: &mut Bits,
    w_bits: u8,
    w: u8,
    c: bool,
) -> Result<(), AllocError>
    requires w_bits { w_bits ≤ 2 }
    requires window { w < 2 ^ w_bits }
    ensures ok { OnOk result (bits.new ≡ bits.old ++ answer_head w_bits w (if c then 1 else 0)) }
{
    bits.push_bits(u64::from(w), u32::from(w_bits))?;
    bits.push_bits(u64::from(c), 1)
}

/// Puts last the bits of the bitmap that are sent, after `header` bits.
pub(crate) fn push_bitmap(
    bits: &mut Bits,
    header: u32,
    size: u32,
    bitmap: u64,
) -> Result<(), AllocError>
    requires header { header ≤ 3 }
    requires size { size ≤ 63 }
    requires fits { bitmap < 2 ^ size }
    ensures ok { OnOk result (bits.new ≡ bits.old ++ kept_bits header (number_bits size bitmap)) }
{
    let count = scissors(header, size, bitmap) - header;
    bits.push_bits(bitmap >> (size - count), count)
}
