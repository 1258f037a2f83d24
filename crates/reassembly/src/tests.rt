//! What no clause says: that the calls that take memory do their work on one happy path, with a check
//! that is known from outside.

use crate::Reassembly;
use schc_bits::Bits;
use std::alloc::{AllocError, Global};

/// Keeps the bits of the bytes from the index `from` on, where there is room.
fn put(kept: &mut Reassembly, bytes: &[u8], from: usize) -> bool {
    if from > 8 || bytes.is_empty() || !kept.has_room(bytes, from) {
        return false;
    }
    kept.append(bytes, from);
    true
}

/// Whether the bits that are kept and the last part have the check, and are these bytes.
fn ends(
    alloc: Global,
    kept: &Reassembly,
    last: &[u8],
    from: usize,
    rcs: u32,
    all: &[u8],
) -> Result<bool, AllocError> {
    if from > 8 || last.is_empty() || !kept.has_room(last, from) {
        return Ok(false);
    }
    let joined = kept.joined(alloc, last, from)?;
    let expected = Bits::from_bytes(alloc, all)?;
    Ok(kept.passes(last, from, rcs) && joined.same(&expected))
}

/// The digits 1 to 9 in three parts, the second and the third out of step with bytes.
fn digits_are_joined(alloc: Global) -> Result<bool, AllocError> {
    let mut kept = Reassembly::new(alloc)?;
    let first = put(&mut kept, &[0x31], 0);
    let second = put(&mut kept, &[0xF3, 0x23], 4);
    let last = [0x03, 0x34, 0x35, 0x36, 0x37, 0x38, 0x39];
    let ends = ends(alloc, &kept, &last, 4, 0xCBF4_3926, b"123456789".as_slice())?;
    Ok(first && second && ends)
}

#[test]
fn parts_are_joined(rt: HostRuntime) -> Result<(), AllocError> {
    assert!(rt; digits_are_joined(rt.alloc())?);
    Ok(())
}
