//! What bits are read as, row by row.

use packer::unpack;
use rule_drafts::{
    DraftFault, Given, SENSOR, SENSOR_WHOLE, Sample, bits_of_hex, bytes_of_hex, edition_of,
};
use schc_ids::{DirInd, Direction, FieldAt, FieldName, Iids, ResidueFault, UnpackFault};
use std::alloc::Global;
use std::test::Fail;

const IIDS: Iids = Iids { dev: 1, app: 2 };

/// The first `count` bits of the digits' bytes, and then this many ones.
#[derive(Clone, Copy)]
pub struct SchcPacket {
    pub digits: &'static [u8],
    pub count: usize,
    pub ones: usize,
}

/// Under which RuleID bits are read, and whether as the wanted packet.
pub type Read = Result<(u16, bool), UnpackFault>;

/// As what the gateway reads the bits.
pub fn read_with(
    alloc: Global,
    rules: &[Given],
    schc_packet: SchcPacket,
    packet: &[u8],
) -> Result<Read, DraftFault> {
    let packet = bytes_of_hex(alloc, packet)?;
    let bits = bits_of_hex(
        alloc,
        schc_packet.digits,
        schc_packet.count,
        schc_packet.ones,
    )?;
    let edition = edition_of(alloc, rules)?;
    match unpack(alloc, &edition, IIDS, Direction::Up, &bits) {
        Ok(got) => Ok(Ok((got.rule_id, *got.packet.as_slice() == *packet))),
        Err(fault) => Ok(Err(fault)),
    }
}

const RANGE: Given = Given {
    id: 5,
    sample: Sample::PortRange,
    direction: DirInd::Both,
    live: true,
};

const RETIRED: Given = Given {
    live: false,
    ..RANGE
};

const DOWN: Given = Given {
    direction: DirInd::Down,
    ..RANGE
};

const PORT_SENT: Given = Given {
    sample: Sample::PortSent,
    ..RANGE
};

const PORT: FieldAt = FieldAt {
    name: FieldName::UdpAppPort,
    position: 1,
};

const VERSION: FieldAt = FieldAt {
    name: FieldName::IpVersion,
    position: 1,
};

/// Rules, digits of bytes, how many of their bits come first, how many ones after these, and as what
/// the bits are read.
#[derive(Clone, Copy)]
struct Row(&'static [Given], &'static [u8], usize, usize, Read);

/// Up to seven bits behind the packet, whatever they are, aren't of it; eight are.
const READ: [Row; 6] = [
    Row(&[RANGE], b"053cafe0", 28, 0, Ok((5, true))),
    Row(&[RANGE], b"053cafe0", 32, 0, Ok((5, true))),
    Row(&[RANGE], b"053cafe0", 28, 7, Ok((5, true))),
    Row(&[RETIRED], b"053cafe0", 28, 0, Ok((5, true))),
    Row(&[RANGE], b"053cafe0", 28, 8, Ok((5, false))),
    Row(&[PORT_SENT], b"05f0b3cafe", 40, 0, Ok((5, true))),
];

/// No rule of the direction, bits that end too early, and an operator that fails.
const REFUSED: [Row; 5] = [
    Row(
        &[DOWN],
        b"053cafe0",
        28,
        0,
        Err(UnpackFault::UnknownRule(5)),
    ),
    Row(
        &[RANGE],
        b"063cafe0",
        28,
        0,
        Err(UnpackFault::UnknownRule(6)),
    ),
    Row(
        &[RANGE],
        b"05",
        7,
        0,
        Err(UnpackFault::BadResidue(0, ResidueFault::Short)),
    ),
    Row(
        &[RANGE],
        b"053c",
        11,
        0,
        Err(UnpackFault::BadResidue(12, ResidueFault::Short)),
    ),
    Row(
        &[PORT_SENT],
        b"05f0b4cafe",
        40,
        0,
        Err(UnpackFault::BadPacket(PORT)),
    ),
];

/// Bits under the RuleID of packets that no rule compresses; fewer than 40 bytes make none.
const WHOLE: [Row; 4] = [
    Row(&[], SENSOR_WHOLE, 408, 0, Ok((22, true))),
    Row(&[], SENSOR_WHOLE, 408, 7, Ok((22, true))),
    Row(
        &[],
        SENSOR_WHOLE,
        320,
        7,
        Err(UnpackFault::BadPacket(VERSION)),
    ),
    Row(&[], b"16", 8, 0, Err(UnpackFault::BadPacket(VERSION))),
];

fn unpacked(alloc: Global, row: &Row) -> Result<Read, DraftFault> {
    let Row(rules, digits, count, ones, _) = *row;
    let schc_packet = SchcPacket {
        digits,
        count,
        ones,
    };
    read_with(alloc, rules, schc_packet, SENSOR)
}

#[test]
fn as_what_bits_are_read(rt: HostRuntime) -> Result<(), Fail> {
    let tables: [&[Row]; 3] = [&READ, &REFUSED, &WHOLE];
    for rows in tables {
        for row in rows {
            assert_eq!(rt; unpacked(rt.alloc(), row)?, row.4);
        }
    }
    Ok(())
}
