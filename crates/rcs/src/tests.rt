//! Values from outside: those that the CRC-32 is known by, and those that Python's zlib gives for the
//! bits of one text between two random places, padded to whole bytes.

use crate::{Register, rcs};
use schc_bits::Bits;
use std::alloc::{AllocError, Global};

static TEXT: [u8; 64] = [
    0x6C, 0x00, 0xB9, 0x71, 0x04, 0xB4, 0xCC, 0x41, 0xC5, 0x95, 0x4D, 0x9F, 0x73, 0x47, 0x64, 0x8D,
    0xF3, 0x5E, 0x20, 0xC6, 0x27, 0x24, 0xF0, 0x8A, 0x11, 0x5F, 0x05, 0x89, 0x4C, 0xF4, 0x42, 0x81,
    0x28, 0x90, 0xA0, 0xDE, 0x85, 0xC5, 0x99, 0x1E, 0xD7, 0x2E, 0xB2, 0xE2, 0x4A, 0x4A, 0x67, 0xE8,
    0x29, 0x40, 0x26, 0x68, 0x12, 0x1A, 0xD5, 0xC0, 0x5E, 0x28, 0xDA, 0x35, 0x1F, 0x9A, 0xF7, 0x9C,
];

/// From a bit of the text up to another, cut between them once, and the check.
static ROWS: [(usize, usize, usize, u32); 40] = [
    (352, 364, 371, 0xC56817D3),
    (238, 240, 393, 0xAABC7EE0),
    (174, 216, 283, 0x859367BC),
    (164, 303, 317, 0xA5C26213),
    (400, 495, 512, 0x2148A7B9),
    (27, 58, 132, 0xAE74619A),
    (76, 486, 487, 0x55309B0C),
    (72, 128, 287, 0x767C3B17),
    (360, 395, 475, 0x9A6656E9),
    (77, 361, 505, 0x863C72A1),
    (25, 117, 449, 0xB3A68AA8),
    (6, 25, 95, 0x5C64F908),
    (200, 258, 338, 0x3A0AC82E),
    (368, 423, 431, 0xB11871DF),
    (117, 178, 373, 0x3A669790),
    (446, 495, 504, 0xC5CC1CA7),
    (112, 168, 180, 0xAF1AC0CF),
    (432, 470, 511, 0xDE556379),
    (468, 468, 468, 0x00000000),
    (391, 437, 453, 0xD02E9058),
    (472, 473, 476, 0xF4DBDF21),
    (425, 432, 443, 0x7DAA186B),
    (298, 441, 475, 0xD77E7F0C),
    (295, 330, 367, 0xE04A37D6),
    (392, 399, 403, 0x8ACE7D32),
    (26, 136, 237, 0x9871F241),
    (487, 489, 489, 0x49662D3D),
    (82, 191, 252, 0xE6890DFB),
    (296, 362, 452, 0x78140A01),
    (195, 257, 479, 0x9BD000BE),
    (449, 449, 476, 0xD685605D),
    (450, 457, 509, 0x696DB2B6),
    (160, 161, 172, 0xA0728052),
    (418, 446, 469, 0x284ED8DD),
    (61, 105, 268, 0x2343BFAE),
    (122, 158, 249, 0x5FDD9E36),
    (0, 191, 302, 0xB2555F94),
    (212, 288, 416, 0xE091B1AC),
    (292, 322, 351, 0x83702DBE),
    (419, 477, 480, 0xD184212D),
];

/// Whether both ways give the check for the bits of the bytes, added in two pieces.
fn is_check(
    alloc: Global,
    bytes: &[u8],
    (from, cut, to, expected): (usize, usize, usize, u32),
) -> Result<bool, AllocError> {
    let bits = Bits::from_bytes(alloc, bytes)?;
    let within = to <= bits.len() && to.div_ceil(8) <= bytes.len();
    if from > cut || cut > to || !within {
        return Ok(false);
    }
    let mut register = Register::new();
    register.add(bytes, from, cut);
    register.add(bytes, cut, to);
    let part = bits.slice(from, to)?;
    Ok(register.value() == expected && rcs(&part) == expected)
}

#[test]
fn known_checks(rt: HostRuntime) {
    let alloc = rt.alloc();
    assert_eq!(rt;
        is_check(alloc, b"123456789".as_slice(), (0, 4, 72, 0xCBF4_3926)),
        Ok(true)
    );
    assert_eq!(rt; is_check(alloc, &[0], (0, 2, 5, 0xD202_EF8D)), Ok(true));
    assert_eq!(rt; is_check(alloc, &[], (0, 0, 0, 0)), Ok(true));
}

#[test]
fn checks_by_zlib(rt: HostRuntime) {
    for row in ROWS.iter() {
        assert_eq!(rt; is_check(rt.alloc(), &TEXT, *row), Ok(true), "at {}", row.0);
    }
}
