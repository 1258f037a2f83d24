//! A rule of fourteen entries against the fields of one UDP packet, and what makes them differ.

use super::rule_matches;
use rule_model::{Action, Computed, Entry, FieldValue, Fields, Length, Operator, Rule};
use schc_bits::{Bits, ItemList};
use schc_ids::{DirInd, Direction, FieldAt, FieldName, Iids};
use std::alloc::{AllocError, Global};
use std::test::Fail;

/// An entry to be written, at position 1.
#[derive(Clone, Copy)]
struct Draft {
    name: FieldName,
    bits: u16,
    direction: DirInd,
    targets: &'static [u64],
    operator: Operator,
    action: Action,
}

/// A field to be written.
#[derive(Clone, Copy)]
struct Cell {
    name: FieldName,
    position: u16,
    value: u64,
    bits: u16,
}

fn known(name: FieldName, bits: u16, targets: &'static [u64]) -> Draft {
    Draft {
        name,
        bits,
        direction: DirInd::Both,
        targets,
        operator: Operator::Equal,
        action: Action::NotSent,
    }
}

fn restored(name: FieldName, bits: u16, action: Action) -> Draft {
    Draft {
        name,
        bits,
        direction: DirInd::Both,
        targets: &[],
        operator: Operator::Ignore,
        action,
    }
}

fn at_first(name: FieldName, value: u64, bits: u16) -> Cell {
    Cell {
        name,
        position: 1,
        value,
        bits,
    }
}

/// The entries of the rule but for the port of the application.
fn drafts() -> [Draft; 13] {
    [
        known(FieldName::IpVersion, 4, &[6]),
        known(FieldName::IpTrafficClass, 8, &[0]),
        known(FieldName::IpFlowLabel, 20, &[0]),
        restored(FieldName::IpPayloadLength, 16, Action::Compute),
        known(FieldName::IpNextHeader, 8, &[17]),
        known(FieldName::IpHopLimit, 8, &[64]),
        known(FieldName::IpDevPrefix, 64, &[0x2001_0db8_0000_0000]),
        restored(FieldName::IpDevIid, 64, Action::DevIid),
        known(FieldName::IpAppPrefix, 64, &[0x2001_0db8_0000_0001]),
        known(FieldName::IpAppIid, 64, &[2]),
        known(FieldName::UdpDevPort, 16, &[0xf0b1]),
        restored(FieldName::UdpLength, 16, Action::Compute),
        restored(FieldName::UdpChecksum, 16, Action::Compute),
    ]
}

/// The fields of the packet but for the port of the application.
fn cells() -> [Cell; 13] {
    [
        at_first(FieldName::IpVersion, 6, 4),
        at_first(FieldName::IpTrafficClass, 0, 8),
        at_first(FieldName::IpFlowLabel, 0, 20),
        at_first(FieldName::IpPayloadLength, 10, 16),
        at_first(FieldName::IpNextHeader, 17, 8),
        at_first(FieldName::IpHopLimit, 64, 8),
        at_first(FieldName::IpDevPrefix, 0x2001_0db8_0000_0000, 64),
        at_first(FieldName::IpDevIid, 1, 64),
        at_first(FieldName::IpAppPrefix, 0x2001_0db8_0000_0001, 64),
        at_first(FieldName::IpAppIid, 2, 64),
        at_first(FieldName::UdpDevPort, 0xf0b1, 16),
        at_first(FieldName::UdpLength, 10, 16),
        at_first(FieldName::UdpChecksum, 0xf7ff, 16),
    ]
}

const PORT: FieldName = FieldName::UdpAppPort;

const PATH: FieldName = FieldName::CoapOption(11);

/// The first twelve bits of the port are known.
fn port_range() -> Draft {
    Draft {
        operator: Operator::Msb(12),
        action: Action::Lsb,
        ..known(PORT, 16, &[0xf0b0])
    }
}

/// The port is one of three.
fn port_list() -> Draft {
    Draft {
        operator: Operator::MatchMapping,
        action: Action::MappingSent,
        ..known(PORT, 16, &[0xf0b0, 0xf0b2, 0xf0b3])
    }
}

/// An option of one byte.
fn short_path() -> Draft {
    restored(PATH, 8, Action::ValueSent)
}

/// An option of the other direction.
fn down_path() -> Draft {
    Draft {
        direction: DirInd::Down,
        ..short_path()
    }
}

/// What a row tries: the entry and the field of the port, one entry and one field more, the
/// interface identifier of the device, the checksum that was computed, and the answer.
#[derive(Clone, Copy)]
struct Case {
    name: &'static str,
    port: Draft,
    entry: Option<Draft>,
    port_field: Option<Cell>,
    field: Option<Cell>,
    dev: u64,
    checksum: u16,
    matches: bool,
}

fn plain() -> Case {
    Case {
        name: "the packet of the rule",
        port: port_range(),
        entry: None,
        port_field: Some(at_first(PORT, 0xf0b3, 16)),
        field: None,
        dev: 1,
        checksum: 0xf7ff,
        matches: true,
    }
}

fn bits_of(alloc: Global, value: u64, count: u16) -> Result<Bits, AllocError> {
    let mut bits = Bits::new(alloc);
    for place in (0..u32::from(count)).rev() {
        bits.push(value.checked_shr(place).unwrap_or(0) % 2 == 1)?;
    }
    Ok(bits)
}

fn entry_of(alloc: Global, draft: &Draft) -> Result<Entry, AllocError> {
    let mut targets = ItemList::new(alloc);
    for target in draft.targets {
        targets.push(bits_of(alloc, *target, draft.bits)?)?;
    }
    Ok(Entry {
        name: draft.name,
        length: Length::Fixed(draft.bits),
        position: 1,
        direction: draft.direction,
        targets,
        operator: draft.operator,
        action: draft.action,
    })
}

fn rule_of(alloc: Global, case: &Case) -> Result<Rule, AllocError> {
    let mut entries = ItemList::new(alloc);
    for draft in &drafts() {
        entries.push(entry_of(alloc, draft)?)?;
    }
    entries.push(entry_of(alloc, &case.port)?)?;
    if let Some(draft) = case.entry {
        entries.push(entry_of(alloc, &draft)?)?;
    }
    Ok(Rule { id: 5, entries })
}

fn field_of(alloc: Global, cell: &Cell) -> Result<FieldValue, AllocError> {
    Ok(FieldValue {
        at: FieldAt {
            name: cell.name,
            position: cell.position,
        },
        value: bits_of(alloc, cell.value, cell.bits)?,
    })
}

fn fields_of(alloc: Global, case: &Case) -> Result<Fields, AllocError> {
    let mut fields = ItemList::new(alloc);
    for cell in &cells() {
        fields.push(field_of(alloc, cell)?)?;
    }
    if let Some(cell) = case.port_field {
        fields.push(field_of(alloc, &cell)?)?;
    }
    if let Some(cell) = case.field {
        fields.push(field_of(alloc, &cell)?)?;
    }
    Ok(fields)
}

fn answer(alloc: Global, case: &Case) -> Result<bool, AllocError> {
    let rule = rule_of(alloc, case)?;
    let fields = fields_of(alloc, case)?;
    let iids = Iids {
        dev: case.dev,
        app: 2,
    };
    let computed = Computed {
        payload_length: 10,
        udp_length: 10,
        checksum: case.checksum,
    };
    Ok(rule_matches(&rule, iids, Direction::Up, &fields, &computed))
}

#[test]
fn packets_and_rules(rt: HostRuntime) -> Result<(), Fail> {
    let port = at_first(PORT, 0xf0b3, 16);
    let path = at_first(PATH, 0x74, 8);
    for case in [
        plain(),
        Case {
            name: "another checksum was computed",
            checksum: 0xf7fe,
            matches: false,
            ..plain()
        },
        Case {
            name: "another device",
            dev: 2,
            matches: false,
            ..plain()
        },
        Case {
            name: "an entry of the other direction",
            entry: Some(down_path()),
            ..plain()
        },
        Case {
            name: "an entry without a field",
            entry: Some(short_path()),
            matches: false,
            ..plain()
        },
        Case {
            name: "a missing field",
            port_field: None,
            matches: false,
            ..plain()
        },
        Case {
            name: "a field more",
            field: Some(path),
            matches: false,
            ..plain()
        },
        Case {
            name: "a field of the other direction",
            entry: Some(down_path()),
            field: Some(path),
            matches: false,
            ..plain()
        },
        Case {
            name: "another position",
            port_field: Some(Cell {
                position: 2,
                ..port
            }),
            matches: false,
            ..plain()
        },
        Case {
            name: "the field twice, once at another position",
            field: Some(Cell {
                position: 2,
                ..port
            }),
            matches: false,
            ..plain()
        },
        Case {
            name: "the last port of the range",
            port_field: Some(Cell {
                value: 0xf0bf,
                ..port
            }),
            ..plain()
        },
        Case {
            name: "a port behind the range",
            port_field: Some(Cell {
                value: 0xf0c0,
                ..port
            }),
            matches: false,
            ..plain()
        },
        Case {
            name: "a port of the list",
            port: port_list(),
            ..plain()
        },
        Case {
            name: "a port that is not of the list",
            port: port_list(),
            port_field: Some(Cell {
                value: 0xf0b1,
                ..port
            }),
            matches: false,
            ..plain()
        },
        Case {
            name: "an equal port",
            port: known(PORT, 16, &[0xf0b3]),
            ..plain()
        },
        Case {
            name: "a port that is not equal",
            port: known(PORT, 16, &[0xf0b2]),
            matches: false,
            ..plain()
        },
        Case {
            name: "an option of the fixed length",
            entry: Some(short_path()),
            field: Some(path),
            ..plain()
        },
        Case {
            name: "a longer option",
            entry: Some(short_path()),
            field: Some(Cell { bits: 16, ..path }),
            matches: false,
            ..plain()
        },
    ] {
        assert_eq!(rt; answer(rt.alloc(), &case)?, case.matches, "{}", case.name);
    }
    Ok(())
}
