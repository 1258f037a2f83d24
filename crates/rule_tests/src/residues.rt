//! What residues say, row by row (RFC 8724, section 7.4).

use compress::{residue, residue_len};
use decompress::restore;
use rule_drafts::{Coap, DraftFault, Given, Sample, admitted, bits_of_text};
use rule_model::{Admitted, Fields, value_of};
use schc_bits::Bits;
use schc_ids::{Direction, FieldAt, FieldName, Iids, ResidueFault, UnpackFault};
use std::alloc::Global;
use std::test::Fail;

const IIDS: Iids = Iids { dev: 1, app: 2 };

const PORT: FieldName = FieldName::UdpAppPort;

const PATH: FieldName = FieldName::CoapOption(11);

const TOKEN: FieldName = FieldName::CoapToken;

/// What is read at a place: how many bits, one of the fields as a number with its width, and
/// whether the fields are written as they were read.
#[derive(Clone, Copy, Debug, PartialEq, Eq)]
struct Seen {
    bits: usize,
    value: u64,
    width: usize,
    written: bool,
}

/// The first 64 bits of the field as a number, and its width.
fn number_in(fields: &Fields, name: FieldName) -> (u64, usize) {
    let value = value_of(fields, FieldAt { name, position: 1 });
    let front = value.front(value.len().min(64));
    (front.number(), value.len())
}

/// Whether the bits from one place to another are these.
fn stands(bits: &Bits, from: usize, to: usize, again: &Bits) -> bool {
    if from > to || to > bits.len() {
        return false;
    }
    let part = bits.as_part().after(from).front(to - from);
    part.same(&again.as_part())
}

/// Reads the fields at the place and writes them again.
fn see(
    alloc: Global,
    rule: &Admitted,
    bits: &Bits,
    from: usize,
    name: FieldName,
) -> Result<Seen, UnpackFault> {
    if from > bits.len() {
        return Err(UnpackFault::Memory);
    }
    let restored = restore(alloc, rule, IIDS, Direction::Up, bits, from)?;
    let mut again = Bits::new(alloc);
    if residue(rule, Direction::Up, &restored.fields, &mut again).is_err() {
        return Err(UnpackFault::Memory);
    }
    let short = again.len() < 1 << 62;
    let written = short && residue_len(rule, Direction::Up, &restored.fields) == again.len();
    let (value, width) = number_in(&restored.fields, name);
    Ok(Seen {
        bits: restored.next - from,
        value,
        width,
        written: written && stands(bits, from, restored.next, &again),
    })
}

/// What is read: how many bits, and the field as a number with its width; or the entry that can't
/// be read, and why.
type Want = Result<(usize, u64, usize), (u64, ResidueFault)>;

/// Bits under a rule, text and then zeros, from which place on they are read, one of the fields, and
/// what is read.
#[derive(Clone, Copy)]
struct Row(Sample, &'static [u8], usize, usize, FieldName, Want);

const SHORT: ResidueFault = ResidueFault::Short;

/// The last bits of the application's port, which is the twelfth entry.
const PORT_ROWS: [Row; 5] = [
    Row(Sample::PortRange, b"0011", 0, 0, PORT, Ok((4, 0xf0b3, 16))),
    Row(
        Sample::PortRange,
        b"0011",
        0,
        0,
        FieldName::UdpChecksum,
        Ok((4, 0, 16)),
    ),
    Row(
        Sample::PortRange,
        b"0011",
        0,
        0,
        FieldName::IpDevIid,
        Ok((4, 1, 64)),
    ),
    Row(
        Sample::PortRange,
        b"1010011",
        0,
        3,
        PORT,
        Ok((4, 0xf0b3, 16)),
    ),
    Row(Sample::PortRange, b"001", 0, 0, PORT, Err((12, SHORT))),
];

/// The index of the application's port.
const INDEX_ROWS: [Row; 5] = [
    Row(Sample::PortIndex(1), b"", 0, 0, PORT, Ok((0, 0xf0b0, 16))),
    Row(Sample::PortIndex(2), b"1", 0, 0, PORT, Ok((1, 0xf0b1, 16))),
    Row(
        Sample::PortIndex(5),
        b"100",
        0,
        0,
        PORT,
        Ok((3, 0xf0b4, 16)),
    ),
    Row(
        Sample::PortIndex(5),
        b"110",
        0,
        0,
        PORT,
        Err((12, ResidueFault::IndexTooLarge)),
    ),
    Row(Sample::PortIndex(5), b"11", 0, 0, PORT, Err((12, SHORT))),
];

/// The path is sent, and is the twentieth entry.
const SENT: Sample = Sample::Coap(Coap::PathSent);

/// Sizes of 0, 14, 15, 254 and 255 bytes (RFC 8724, section 7.4.2).
const SIZE_ROWS: [Row; 5] = [
    Row(SENT, b"0000", 0, 0, PATH, Ok((4, 0, 0))),
    Row(SENT, b"1110", 112, 0, PATH, Ok((116, 0, 112))),
    Row(SENT, b"111100001111", 120, 0, PATH, Ok((132, 0, 120))),
    Row(SENT, b"111111111110", 2032, 0, PATH, Ok((2044, 0, 2032))),
    Row(
        SENT,
        b"1111111111110000000011111111",
        2040,
        0,
        PATH,
        Ok((2068, 0, 2040)),
    ),
];

const LONG: ResidueFault = ResidueFault::NonMinimalSize;

/// Sizes in a longer form than they need, and bits that end too early.
const LONG_ROWS: [Row; 5] = [
    Row(SENT, b"111100000101", 0, 0, PATH, Err((20, LONG))),
    Row(
        SENT,
        b"1111111111110000000011111110",
        0,
        0,
        PATH,
        Err((20, LONG)),
    ),
    Row(SENT, b"11110000111", 0, 0, PATH, Err((20, SHORT))),
    Row(
        SENT,
        b"111111111111000000001111111",
        0,
        0,
        PATH,
        Err((20, SHORT)),
    ),
    Row(SENT, b"00100110000", 0, 0, PATH, Err((20, SHORT))),
];

/// The path begins with `t`, and what follows is sent.
const REST: Sample = Sample::Coap(Coap::PathRest);

/// A token, which is the nineteenth entry, behind a token length of either direction.
const UP: Sample = Sample::Coap(Coap::TokenUp);

/// The last bytes of a path, and a token.
const COAP_ROWS: [Row; 3] = [
    Row(
        REST,
        b"00100110000101100010",
        0,
        0,
        PATH,
        Ok((20, 0x74_6162, 24)),
    ),
    Row(
        UP,
        b"001011001010111111100000",
        0,
        0,
        TOKEN,
        Ok((24, 0xcafe, 16)),
    ),
    Row(UP, b"0010110010101111111", 0, 0, TOKEN, Err((19, SHORT))),
];

/// What is seen where all is as wanted.
fn wanted(want: Want) -> Result<Seen, UnpackFault> {
    match want {
        Ok((bits, value, width)) => Ok(Seen {
            bits,
            value,
            width,
            written: true,
        }),
        Err((entry, fault)) => Err(UnpackFault::BadResidue(entry, fault)),
    }
}

fn seen_in(alloc: Global, row: &Row) -> Result<Result<Seen, UnpackFault>, DraftFault> {
    let Row(sample, text, zeros, from, name, _) = *row;
    let rule = admitted(alloc, Given::live(5, sample))?;
    let bits = bits_of_text(alloc, text, zeros)?;
    Ok(see(alloc, &rule, &bits, from, name))
}

#[test]
fn what_is_read_is_written_again(rt: HostRuntime) -> Result<(), Fail> {
    let tables: [&[Row]; 5] = [&PORT_ROWS, &INDEX_ROWS, &SIZE_ROWS, &LONG_ROWS, &COAP_ROWS];
    for rows in tables {
        for row in rows {
            assert_eq!(rt; seen_in(rt.alloc(), row)?, wanted(row.5));
        }
    }
    Ok(())
}
