//! Packets and bits, written as digits.

use crate::fault::DraftFault;
use schc_bits::Bits;
use std::alloc::{AllocError, Global};

/// The bytes of these hexadecimal digits, two for each.
///
/// # Errors
/// Digits that don't make bytes, or want of memory.
pub fn bytes_of_hex(alloc: Global, digits: &[u8]) -> Result<Vec<u8>, DraftFault> {
    match hex::decode(alloc, digits) {
        Ok(bytes) => Ok(bytes),
        Err(_) => Err(DraftFault::NotHex),
    }
}

fn push_equal(bits: &mut Bits, bit: bool, count: usize) -> Result<(), AllocError> {
    for _ in 0..count {
        bits.push(bit)?;
    }
    Ok(())
}

/// The first `count` bits of the bytes of these hexadecimal digits, and then this many ones.
///
/// # Errors
/// Digits that don't make bytes, or want of memory.
pub fn bits_of_hex(
    alloc: Global,
    digits: &[u8],
    count: usize,
    ones: usize,
) -> Result<Bits, DraftFault> {
    let bytes = bytes_of_hex(alloc, digits)?;
    let mut bits = Bits::from_bytes(alloc, &bytes)?;
    bits.truncate(count);
    push_equal(&mut bits, true, ones)?;
    Ok(bits)
}

/// A bit for each digit, set where the digit is `1`, and then this many zeros.
///
/// # Errors
/// Want of memory.
pub fn bits_of_text(alloc: Global, digits: &[u8], zeros: usize) -> Result<Bits, AllocError> {
    let mut bits = Bits::new(alloc);
    for digit in digits {
        bits.push(*digit == b'1')?;
    }
    push_equal(&mut bits, false, zeros)?;
    Ok(bits)
}

/// A UDP datagram with two bytes of data, from the device.
pub const SENSOR: &[u8] =
    b"60000000000a114020010db800000000000000000000000120010db8000000010000000000000002f0b1f0b3000af7ffcafe";

/// The same with the RuleID of packets that no rule compresses in front (RFC 9011 section 5.1).
pub const SENSOR_WHOLE: &[u8] =
    b"1660000000000a114020010db800000000000000000000000120010db8000000010000000000000002f0b1f0b3000af7ffcafe";

/// The datagram with a checksum that is wrong.
pub const WRONG_CHECKSUM: &[u8] =
    b"60000000000a114020010db800000000000000000000000120010db8000000010000000000000002f0b1f0b3000af7fecafe";

/// The same with the RuleID of packets that no rule compresses in front.
pub const WRONG_CHECKSUM_WHOLE: &[u8] =
    b"1660000000000a114020010db800000000000000000000000120010db8000000010000000000000002f0b1f0b3000af7fecafe";

/// The datagram with another flow label.
pub const OTHER_FLOW: &[u8] =
    b"60012345000a114020010db800000000000000000000000120010db8000000010000000000000002f0b1f0b3000af7ffcafe";

/// The datagram to another prefix, with its checksum.
pub const OTHER_PREFIX: &[u8] =
    b"60000000000a114020010db800000000000000000000000120010db8000000090000000000000002f0b1f0b3000af7f7cafe";

/// A CoAP message with the path `t`, the message ID 0100 and the payload `21.5`, from the device.
pub const TEMPERATURE: &[u8] =
    b"600000000013114020010db800000000000000000000000120010db8000000010000000000000002f0b116330013359550020100b174ff32312e35";

/// The same with the message ID 010c.
pub const OTHER_ID: &[u8] =
    b"600000000013114020010db800000000000000000000000120010db8000000010000000000000002f0b11633001335895002010cb174ff32312e35";

/// The message with the path `abcde`, and no payload.
pub const LONG_PATH: &[u8] =
    b"600000000012114020010db800000000000000000000000120010db8000000010000000000000002f0b116330012d04250020100b56162636465";

/// The message without an option or a payload.
pub const BARE: &[u8] =
    b"60000000000c114020010db800000000000000000000000120010db8000000010000000000000002f0b11633000c4c7950020100";

/// The same with a marker that no payload follows: no CoAP message.
pub const NO_MESSAGE: &[u8] =
    b"60000000000d114020010db800000000000000000000000120010db8000000010000000000000002f0b11633000d4d7650020100ff";

/// The same with the RuleID of packets that no rule compresses in front.
pub const NO_MESSAGE_WHOLE: &[u8] =
    b"1660000000000d114020010db800000000000000000000000120010db8000000010000000000000002f0b11633000d4d7650020100ff";

/// The message with the token abcd.
pub const WITH_TOKEN: &[u8] =
    b"600000000015114020010db800000000000000000000000120010db8000000010000000000000002f0b11633001587c352020100abcdb174ff32312e35";
