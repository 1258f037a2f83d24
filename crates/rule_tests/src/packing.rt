//! What packets are written as, row by row.

use ip_udp_fields::has_ipv6_header;
use packer::pack;
use rule_drafts::{
    DraftFault, Given, OTHER_FLOW, OTHER_PREFIX, SENSOR, SENSOR_WHOLE, Sample, WRONG_CHECKSUM,
    WRONG_CHECKSUM_WHOLE, bytes_of_hex, edition_of,
};
use schc_ids::{DirInd, Direction, FieldName, Iids};
use std::alloc::Global;
use std::test::Fail;

const IIDS: Iids = Iids { dev: 1, app: 2 };

/// The first twelve bits of the port are known.
const RANGE: Given = Given {
    id: 5,
    sample: Sample::PortRange,
    direction: DirInd::Both,
    live: true,
};

const ANY_FLOW: Given = Given {
    id: 6,
    sample: Sample::AnyFlow,
    ..RANGE
};

const ANY_PREFIX: Given = Given {
    id: 7,
    sample: Sample::AnyPrefix,
    ..RANGE
};

const RETIRED: Given = Given {
    live: false,
    ..ANY_FLOW
};

const DOWN: Given = Given {
    direction: DirInd::Down,
    ..ANY_FLOW
};

/// How a packet is written: the number of the edition, the RuleID, how many bits, and whether
/// these are the wanted ones.
#[derive(Clone, Copy, Debug, PartialEq, Eq)]
pub struct Written {
    edition: u32,
    id: u16,
    bits: usize,
    as_wanted: bool,
}

/// The packet is written with edition 1 as is wanted, under this RuleID.
pub fn as_wanted(id: u16, bits: usize) -> Option<Written> {
    Some(Written {
        edition: 1,
        id,
        bits,
        as_wanted: true,
    })
}

/// How a packet from the device is written, and whether as these bytes with zero bits in the end;
/// `None` where it isn't of IPv6.
fn write_with(
    alloc: Global,
    rules: &[Given],
    packet: &[u8],
    bytes: &[u8],
) -> Result<Option<Written>, DraftFault> {
    let packet = bytes_of_hex(alloc, packet)?;
    let bytes = bytes_of_hex(alloc, bytes)?;
    let edition = edition_of(alloc, rules)?;
    if !has_ipv6_header(&packet) {
        return Ok(None);
    }
    let packed = pack(alloc, &edition, IIDS, Direction::Up, &packet)?;
    let padded = packed.bits.to_padded_bytes()?;
    Ok(Some(Written {
        edition: packed.edition,
        id: packed.rule_id,
        bits: packed.bits.len(),
        as_wanted: *padded.as_slice() == *bytes,
    }))
}

/// Rules, a packet from the device, the RuleID under which it is written, how many bits that makes,
/// and which ones, with zeros in the end that make whole bytes.
#[derive(Clone, Copy)]
pub struct Row(
    pub &'static [Given],
    pub &'static [u8],
    pub u16,
    pub usize,
    pub &'static [u8],
);

/// One rule, and fields that are dropped.
const MATCHING: [Row; 4] = [
    Row(&[RANGE], SENSOR, 5, 28, b"053cafe0"),
    Row(&[RANGE], WRONG_CHECKSUM, 22, 408, WRONG_CHECKSUM_WHOLE),
    Row(&[ANY_FLOW, ANY_PREFIX], OTHER_FLOW, 6, 24, b"06cafe"),
    Row(&[ANY_FLOW, ANY_PREFIX], OTHER_PREFIX, 7, 24, b"07cafe"),
];

/// Fewer bits, and then the lower RuleID, in whichever order the rules were handed in.
const SEVERAL: [Row; 4] = [
    Row(&[RANGE, ANY_FLOW], SENSOR, 6, 24, b"06cafe"),
    Row(&[ANY_PREFIX, ANY_FLOW, RANGE], SENSOR, 6, 24, b"06cafe"),
    Row(&[ANY_PREFIX, RANGE], SENSOR, 7, 24, b"07cafe"),
    Row(&[ANY_PREFIX, RANGE], OTHER_PREFIX, 7, 24, b"07cafe"),
];

/// Retired rules, and those of the way down.
const NOT_USED: [Row; 5] = [
    Row(&[RANGE, RETIRED], SENSOR, 5, 28, b"053cafe0"),
    Row(&[RANGE, DOWN], SENSOR, 5, 28, b"053cafe0"),
    Row(&[RETIRED], SENSOR, 22, 408, SENSOR_WHOLE),
    Row(&[DOWN], SENSOR, 22, 408, SENSOR_WHOLE),
    Row(&[], SENSOR, 22, 408, SENSOR_WHOLE),
];

/// How the packet of the row is written.
pub fn packed(alloc: Global, row: &Row) -> Result<Option<Written>, DraftFault> {
    let Row(rules, packet, _, _, bytes) = *row;
    write_with(alloc, rules, packet, bytes)
}

#[test]
fn as_what_a_packet_is_written(rt: HostRuntime) -> Result<(), Fail> {
    let tables: [&[Row]; 3] = [&MATCHING, &SEVERAL, &NOT_USED];
    for rows in tables {
        for row in rows {
            assert_eq!(rt; packed(rt.alloc(), row)?, as_wanted(row.2, row.3));
        }
    }
    Ok(())
}

/// Whether the rule drops these fields on the way up, and no other one.
fn drops(alloc: Global, given: Given, names: &[FieldName]) -> Result<bool, DraftFault> {
    let edition = edition_of(alloc, &[given])?;
    let Some(listed) = edition.lookup(given.id) else {
        return Ok(false);
    };
    let fields = listed.rule.dropped(Direction::Up);
    Ok(
        fields.len() == names.len()
            && fields
                .iter()
                .all(|field| names.iter().any(|name| field.name.same(*name))),
    )
}

#[test]
fn what_rules_drop(rt: HostRuntime) -> Result<(), Fail> {
    assert!(rt; drops(rt.alloc(), RANGE, &[])?);
    assert!(rt; drops(rt.alloc(), ANY_FLOW, &[FieldName::IpFlowLabel])?);
    let both = [FieldName::IpAppPrefix, FieldName::UdpChecksum];
    assert!(rt; drops(rt.alloc(), ANY_PREFIX, &both)?);
    Ok(())
}
