//! Writing a message.

ghost use Rattle.std.specs.Prelude.{ℕ, ◌≡◌, ◌-◌, ◌^◌, ◌<◌, ◌≤◌, Bool, List, ◌++◌, OnOk, IfOk};
ghost use Rattle.schc_ids.specs.Fragments.{IsFragParams};
ghost use Rattle.frag_wire.specs.Forms.{all_ones, fragment_head};
ghost use Rattle.frag_wire.specs.Layouts.{head, written, HeadFits};
ghost use Rattle.frag_wire.specs.Spells.{CanSpell, IsWritten};

use crate::answers::{push_answer_head, push_bitmap};
use crate::message::Message;
use schc_bits::{Bits, Octets};
use schc_ids::{FragParams, Side};
use std::alloc::{AllocError, Global};

/// The bytes of the message with the payload, and the fewest zero bits after them that make whole
/// bytes (RFC 8724 sections 8.3 and 9). Where the message says that its payload begins isn't looked
/// at.
///
/// # Errors
/// Want of memory.
pub fn write(
    alloc: Global,
    params: &FragParams,
    side: Side,
    message: &Message,
    payload: &Bits,
) -> Result<Octets, AllocError>
    requires row { IsFragParams params.now }
    requires spelt { CanSpell params.now side message.now payload.now }
    ensures exact { IfOk result (λ bytes. bytes.items ≡ written params.now message.now payload.now) }
    ensures spells { IfOk result (λ bytes. IsWritten params.now side message.now payload.now bytes.items) }
{
    let mut bits = Bits::new(alloc);
    push_head(&mut bits, params, message)?;
    bits.extend(payload)?;
    bits.to_padded_bytes()
}

/// Puts last what stands before the payload of the message.
fn push_head(bits: &mut Bits, params: &FragParams, message: &Message) -> Result<(), AllocError>
    requires w_bits { params.now.w_bits ≤ 2 }
    requires fcn_bits { params.now.fcn_bits ≤ 6 }
    requires window { params.now.window ≤ 63 }
    requires fits { HeadFits params.now message.now }
    ensures ok { OnOk result (bits.new ≡ bits.old ++ head params.now message.now) }
{
    let fcn_ones = ones(params.fcn_bits);
    match message {
        Message::Regular { w, fcn, .. } => push_fragment_head(bits, params, *w, *fcn),
        Message::All1 { w, rcs, .. } => {
            push_fragment_head(bits, params, *w, fcn_ones)?;
            bits.push_bits(u64::from(*rcs), 32)
        }
        Message::AckReq { w } => push_fragment_head(bits, params, *w, 0),
        Message::SenderAbort => push_fragment_head(bits, params, ones(params.w_bits), fcn_ones),
        Message::Ack { w, c: true, .. } => push_answer_head(bits, params.w_bits, *w, true),
        Message::Ack {
            w,
            c: false,
            bitmap,
        } => {
            push_answer_head(bits, params.w_bits, *w, false)?;
            push_bitmap(
                bits,
                u32::from(params.w_bits) + 1,
                u32::from(params.window),
                *bitmap,
            )
        }
        Message::ReceiverAbort => bits.push_bits(0xFFFF, 16),
    }
}

/// Puts last what a fragment begins with: W and FCN.
#[tactic(auto, using(crate::proofs::WrittenLemmas::head_pushed))]
fn push_fragment_head(
    bits: &mut Bits,
    params: &FragParams,
    w: u8,
    fcn: u8,
) -> Result<(), AllocError>
    requires w_bits { params.now.w_bits ≤ 2 }
    requires fcn_bits { params.now.fcn_bits ≤ 6 }
    requires window { w < 2 ^ params.now.w_bits }
    requires number { fcn < 2 ^ params.now.fcn_bits }
    ensures ok { OnOk result (bits.new ≡ bits.old ++ fragment_head params.now.w_bits params.now.fcn_bits w fcn) }
{
    bits.push_bits(u64::from(w), u32::from(params.w_bits))?;
    bits.push_bits(u64::from(fcn), u32::from(params.fcn_bits))
}

/// The number that `count` bits write that are all ones.
fn ones(count: u8) -> u8
    requires { count ≤ 6 }
    ensures value { result ≡ all_ones count }
    ensures below { result < 2 ^ count }
{
    (1 << count) - 1
}
