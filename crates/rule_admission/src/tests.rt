use crate::{AdmitFault, admit};
use rule_model::{Action, Admitted, Entry, Length, Operator, Rule};
use schc_bits::{Bits, CopyItem, ItemList, Same};
use schc_ids::{DirInd, Direction, FieldAt, FieldName, Stack};
use std::alloc::{AllocError, Global};
use std::test::Fail;

/// The targets of a drafted entry: their number, and the value of the first, which rises by `step`
/// from one to the next.
#[derive(Clone, Copy)]
struct Values {
    count: u64,
    first: u64,
    step: u64,
    bits: u32,
}

/// An entry to be written.
#[derive(Clone, Copy)]
struct Draft {
    name: FieldName,
    length: Length,
    position: u16,
    direction: DirInd,
    values: Values,
    operator: Operator,
    action: Action,
}

fn no_values() -> Values {
    Values {
        count: 0,
        first: 0,
        step: 0,
        bits: 0,
    }
}

fn one(first: u64, bits: u32) -> Values {
    Values {
        count: 1,
        first,
        step: 0,
        bits,
    }
}

/// An entry at position 1 in both directions.
fn both(
    name: FieldName,
    length: Length,
    values: Values,
    operator: Operator,
    action: Action,
) -> Draft {
    Draft {
        name,
        length,
        position: 1,
        direction: DirInd::Both,
        values,
        operator,
        action,
    }
}

/// An entry of a field with this width whose value is known.
fn known(name: FieldName, bits: u16, value: u64) -> Draft {
    both(
        name,
        Length::Fixed(bits),
        one(value, u32::from(bits)),
        Operator::Equal,
        Action::NotSent,
    )
}

/// An entry of a field with this width whose value is restored without a target.
fn restored(name: FieldName, bits: u16, action: Action) -> Draft {
    both(
        name,
        Length::Fixed(bits),
        no_values(),
        Operator::Ignore,
        action,
    )
}

fn bits_of(alloc: Global, value: u64, count: u32) -> Result<Bits, AllocError> {
    let mut bits = Bits::new(alloc);
    for place in (0..count).rev() {
        bits.push(value.checked_shr(place).unwrap_or(0) % 2 == 1)?;
    }
    Ok(bits)
}

fn entry_of(alloc: Global, draft: &Draft) -> Result<Entry, AllocError> {
    let mut targets = ItemList::new(alloc);
    let mut value = draft.values.first;
    for _ in 0..draft.values.count {
        targets.push(bits_of(alloc, value, draft.values.bits)?)?;
        value = value.wrapping_add(draft.values.step);
    }
    Ok(Entry {
        name: draft.name,
        length: draft.length,
        position: draft.position,
        direction: draft.direction,
        targets,
        operator: draft.operator,
        action: draft.action,
    })
}

fn rule_of(alloc: Global, id: u16, drafts: &[Draft]) -> Result<Rule, AllocError> {
    let mut entries = ItemList::new(alloc);
    for draft in drafts {
        entries.push(entry_of(alloc, draft)?)?;
    }
    Ok(Rule { id, entries })
}

/// The rule of a sensor that sends UDP from a known address, in packet order.
fn udp_drafts(alloc: Global) -> Result<Vec<Draft>, AllocError> {
    let mut drafts = Vec::new(alloc);
    drafts.extend_from_slice(&[
        known(FieldName::IpVersion, 4, 6),
        known(FieldName::IpTrafficClass, 8, 0),
        known(FieldName::IpFlowLabel, 20, 0),
        restored(FieldName::IpPayloadLength, 16, Action::Compute),
        known(FieldName::IpNextHeader, 8, 17),
        known(FieldName::IpHopLimit, 8, 64),
        known(FieldName::IpDevPrefix, 64, 0x2001_0db8_0000_0000),
    ])?;
    drafts.extend_from_slice(&[
        restored(FieldName::IpDevIid, 64, Action::DevIid),
        known(FieldName::IpAppPrefix, 64, 0x2001_0db8_0000_0001),
        known(FieldName::IpAppIid, 64, 2),
        known(FieldName::UdpDevPort, 16, 0xf0b1),
        both(
            FieldName::UdpAppPort,
            Length::Fixed(16),
            one(0xf0b0, 16),
            Operator::Msb(12),
            Action::Lsb,
        ),
        restored(FieldName::UdpLength, 16, Action::Compute),
        restored(FieldName::UdpChecksum, 16, Action::Compute),
    ])?;
    Ok(drafts)
}

/// The same with the CoAP header and a Uri-Path.
fn coap_drafts(alloc: Global) -> Result<Vec<Draft>, AllocError> {
    let mut drafts = udp_drafts(alloc)?;
    drafts.extend_from_slice(&[
        known(FieldName::CoapVersion, 2, 1),
        known(FieldName::CoapType, 2, 1),
        known(FieldName::CoapTkl, 4, 0),
        known(FieldName::CoapCode, 8, 2),
        both(
            FieldName::CoapMid,
            Length::Fixed(16),
            one(0x0100, 16),
            Operator::Msb(8),
            Action::Lsb,
        ),
        both(
            FieldName::CoapOption(11),
            Length::Variable,
            one(0x74, 8),
            Operator::Equal,
            Action::NotSent,
        ),
    ])?;
    Ok(drafts)
}

/// What is changed of the drafts.
#[derive(Clone, Copy)]
enum Change {
    Keep,
    Put(usize, Draft),
    Insert(usize, Draft),
    Remove(usize),
    /// All entries from this index on make way for one.
    Cut(usize, Draft),
}

fn apply(drafts: &mut Vec<Draft>, change: Change) -> Result<(), AllocError> {
    match change {
        Change::Keep => {}
        Change::Put(at, draft) => {
            if at < drafts.len() {
                drafts[at] = draft;
            }
        }
        Change::Insert(at, draft) => {
            if at <= drafts.len() {
                drafts.insert(at, draft)?;
            }
        }
        Change::Remove(at) => {
            if at < drafts.len() {
                drafts.remove(at);
            }
        }
        Change::Cut(at, draft) => {
            drafts.truncate(at);
            drafts.push(draft)?;
        }
    }
    Ok(())
}

/// The number and entry of the finding; none where the rule is admitted.
fn finding(alloc: Global, id: u16, drafts: &[Draft]) -> Result<Option<(u8, u64)>, AdmitFault> {
    match admit(alloc, rule_of(alloc, id, drafts)?) {
        Ok(_) => Ok(None),
        Err(AdmitFault::Found(found)) => Ok(Some((found.number, found.entry))),
        Err(AdmitFault::Memory) => Err(AdmitFault::Memory),
    }
}

/// The finding of the rule of a sensor, over UDP or over CoAP, after the change.
fn changed_finding(
    alloc: Global,
    coap: bool,
    id: u16,
    this: Change,
) -> Result<Option<(u8, u64)>, AdmitFault> {
    let mut drafts = if coap {
        coap_drafts(alloc)?
    } else {
        udp_drafts(alloc)?
    };
    apply(&mut drafts, this)?;
    finding(alloc, id, &drafts)
}

fn port(values: Values, operator: Operator, action: Action) -> Change {
    Change::Put(
        11,
        both(
            FieldName::UdpAppPort,
            Length::Fixed(16),
            values,
            operator,
            action,
        ),
    )
}

fn mapped(count: u64, step: u64) -> Change {
    let values = Values {
        count,
        first: 1,
        step,
        bits: 16,
    };
    port(values, Operator::MatchMapping, Action::MappingSent)
}

fn msb_port(bits: u16) -> Change {
    port(one(0xf0b0, 16), Operator::Msb(bits), Action::Lsb)
}

fn path(length: Length, bits: u32, operator: Operator, action: Action) -> Change {
    Change::Put(
        19,
        both(
            FieldName::CoapOption(11),
            length,
            one(0, bits),
            operator,
            action,
        ),
    )
}

fn token(at: usize, operator: Operator, action: Action) -> Change {
    Change::Insert(
        at,
        both(
            FieldName::CoapToken,
            Length::TokenLength,
            one(1, 8),
            operator,
            action,
        ),
    )
}

fn placed(mut draft: Draft, position: u16) -> Draft {
    draft.position = position;
    draft
}

fn id_rows() -> [(u16, Option<(u8, u64)>); 10] {
    [
        (0, Some((1, 0))),
        (1, None),
        (5, None),
        (20, Some((2, 0))),
        (21, Some((2, 0))),
        (22, Some((2, 0))),
        (221, None),
        (222, Some((2, 0))),
        (223, Some((2, 0))),
        (224, Some((1, 0))),
    ]
}

/// Whether the rule has the finding of each RuleID, also where another finding holds.
fn ids_hold(alloc: Global, this: Change, other: Option<(u8, u64)>) -> Result<bool, AdmitFault> {
    for (id, want) in id_rows() {
        if changed_finding(alloc, false, id, this)? != want.or(other) {
            return Ok(false);
        }
    }
    Ok(true)
}

fn udp_rows() -> [(Change, Option<(u8, u64)>); 17] {
    [
        (Change::Keep, None),
        (
            Change::Cut(10, known(FieldName::CoapVersion, 2, 1)),
            Some((4, 0)),
        ),
        (
            Change::Insert(14, known(FieldName::IpVersion, 4, 6)),
            Some((5, 15)),
        ),
        (Change::Remove(5), Some((6, 0))),
        (
            Change::Put(5, placed(known(FieldName::IpHopLimit, 8, 64), 2)),
            Some((7, 6)),
        ),
        (
            Change::Put(2, known(FieldName::IpFlowLabel, 16, 0)),
            Some((7, 3)),
        ),
        (
            port(one(0xf0b0, 16), Operator::Equal, Action::Lsb),
            Some((8, 12)),
        ),
        (
            Change::Put(0, known(FieldName::IpVersion, 4, 5)),
            Some((9, 1)),
        ),
        (
            Change::Put(4, known(FieldName::IpNextHeader, 8, 6)),
            Some((9, 5)),
        ),
        (mapped(256, 1), None),
        (mapped(257, 1), Some((9, 12))),
        (mapped(2, 0), Some((9, 12))),
        (msb_port(0), Some((10, 12))),
        (msb_port(16), None),
        (msb_port(17), Some((10, 12))),
        (
            Change::Put(5, restored(FieldName::IpHopLimit, 8, Action::Compute)),
            Some((12, 6)),
        ),
        (lossy_at(13, FieldName::UdpChecksum, 16), Some((11, 14))),
    ]
}

fn coap_rows() -> [(Change, Option<(u8, u64)>); 10] {
    [
        (Change::Keep, None),
        (
            path(Length::Fixed(12), 12, Operator::Equal, Action::NotSent),
            Some((7, 20)),
        ),
        (
            path(Length::Fixed(0), 0, Operator::Equal, Action::NotSent),
            None,
        ),
        (
            path(Length::Variable, 12, Operator::Equal, Action::NotSent),
            Some((9, 20)),
        ),
        (
            path(Length::Variable, 8, Operator::Msb(4), Action::Lsb),
            Some((10, 20)),
        ),
        (
            path(Length::Variable, 8, Operator::Ignore, Action::NotSent),
            Some((11, 20)),
        ),
        (
            token(20, Operator::Msb(8), Action::ValueSent),
            Some((10, 21)),
        ),
        (token(20, Operator::Ignore, Action::ValueSent), None),
        (token(17, Operator::Ignore, Action::ValueSent), None),
        (
            token(16, Operator::Ignore, Action::ValueSent),
            Some((13, 17)),
        ),
    ]
}

/// Whether each change of the rule has its finding.
fn rows_hold(
    alloc: Global,
    coap: bool,
    rows: &[(Change, Option<(u8, u64)>)],
) -> Result<bool, AdmitFault> {
    for (this, want) in rows {
        if changed_finding(alloc, coap, 5, *this)? != *want {
            return Ok(false);
        }
    }
    Ok(true)
}

#[test]
fn each_finding_has_its_number_and_entry(rt: HostRuntime) -> Result<(), Fail> {
    assert!(rt; ids_hold(rt.alloc(), Change::Keep, None)?);
    assert!(rt; ids_hold(rt.alloc(), Change::Remove(5), Some((6, 0)))?);
    assert!(rt; rows_hold(rt.alloc(), false, &udp_rows())?);
    assert!(rt; rows_hold(rt.alloc(), true, &coap_rows())?);
    Ok(())
}

/// The rule over UDP with the entry of this field, at this index, ignored and not sent.
fn lossy_at(at: usize, name: FieldName, bits: u16) -> Change {
    let values = one(0, u32::from(bits));
    Change::Put(
        at,
        both(
            name,
            Length::Fixed(bits),
            values,
            Operator::Ignore,
            Action::NotSent,
        ),
    )
}

fn admitted_with(alloc: Global, this: Change) -> Result<Admitted, AdmitFault> {
    let mut drafts = udp_drafts(alloc)?;
    apply(&mut drafts, this)?;
    admit(alloc, rule_of(alloc, 5, &drafts)?)
}

/// How many fields are dropped, and the last of them.
fn dropped_with(alloc: Global, this: Change) -> Result<(usize, Option<FieldAt>), AdmitFault> {
    let admitted = admitted_with(alloc, this)?;
    let fields = admitted.dropped(Direction::Up);
    Ok((fields.len(), fields.last().copied()))
}

fn first(name: FieldName) -> FieldAt {
    FieldAt { name, position: 1 }
}

#[test]
fn dropped_fields_take_the_checksum_along(rt: HostRuntime) -> Result<(), Fail> {
    let flow = lossy_at(2, FieldName::IpFlowLabel, 20);
    let prefix = lossy_at(8, FieldName::IpAppPrefix, 64);
    assert!(rt; dropped_with(rt.alloc(), Change::Keep)? == (0, None));
    assert!(rt; dropped_with(rt.alloc(), flow)? == (1, Some(first(FieldName::IpFlowLabel))));
    assert!(rt; dropped_with(rt.alloc(), prefix)? == (2, Some(first(FieldName::UdpChecksum))));
    Ok(())
}

#[test]
fn an_admitted_rule_keeps_its_stack(rt: HostRuntime) -> Result<(), Fail> {
    let admitted = admitted_with(rt.alloc(), Change::Keep)?;
    assert!(rt; admitted.stack() == Stack::IpUdp);
    assert!(rt; admitted.serves(Direction::Up));
    assert!(rt; admitted.serves(Direction::Down));
    Ok(())
}

#[test]
fn a_copy_is_the_same_rule(rt: HostRuntime) -> Result<(), Fail> {
    let admitted = admitted_with(rt.alloc(), Change::Keep)?;
    let copy = admitted.copy_item(rt.alloc())?;
    assert!(rt; copy.same(&admitted));
    Ok(())
}
