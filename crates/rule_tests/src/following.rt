//! Editions that follow each other, and the rules that a packet may match in one.

use editions::{Edition, follow, laws};
use rule_drafts::{DraftFault, Given, Sample, edition_of, finding_in, next_edition};
use rule_model::Finding;
use schc_ids::{DirInd, Direction, Stack};
use std::alloc::Global;
use std::test::Fail;

const LIVE_6: Given = Given {
    id: 6,
    sample: Sample::HopLimit(0x40),
    direction: DirInd::Both,
    live: true,
};

const RETIRED_6: Given = Given {
    live: false,
    ..LIVE_6
};

/// Another rule under the same RuleID.
const OTHER_6: Given = Given {
    sample: Sample::HopLimit(0x3e),
    ..RETIRED_6
};

const RETIRED_8: Given = Given {
    id: 8,
    sample: Sample::HopLimit(0x3f),
    ..RETIRED_6
};

/// Edition 2, in which rule 6 is retired, and rule 8 is new and retired at once.
fn second(alloc: Global) -> Result<Edition, DraftFault> {
    let first = edition_of(alloc, &[LIVE_6])?;
    next_edition(alloc, &first, 2, &[RETIRED_8, RETIRED_6])
}

/// Rules that would make the edition of this number out of another one, and the finding's number and
/// RuleID.
#[derive(Clone, Copy)]
struct Row {
    number: u32,
    rules: &'static [Given],
    want: Option<(u8, u16)>,
}

/// The rules of edition 2, and then: another rule under a retired RuleID, a retired rule that is
/// live again, and a RuleID that is gone.
const LOSSES: [Row; 4] = [
    Row {
        number: 3,
        rules: &[RETIRED_6, RETIRED_8],
        want: None,
    },
    Row {
        number: 3,
        rules: &[RETIRED_8, OTHER_6],
        want: Some((16, 6)),
    },
    Row {
        number: 3,
        rules: &[LIVE_6, RETIRED_8],
        want: Some((17, 6)),
    },
    Row {
        number: 3,
        rules: &[RETIRED_8],
        want: Some((15, 6)),
    },
];

/// A RuleID that repeats before another one does, a number that is left out, and 201 rules.
const OTHERS: [Row; 3] = [
    Row {
        number: 3,
        rules: &[RETIRED_8, RETIRED_6, RETIRED_6, RETIRED_8],
        want: Some((3, 6)),
    },
    Row {
        number: 4,
        rules: &[RETIRED_6, RETIRED_8],
        want: Some((14, 0)),
    },
    Row {
        number: 3,
        rules: &[RETIRED_6; 201],
        want: Some((18, 0)),
    },
];

/// The finding about the edition.
fn wanted(want: Option<(u8, u16)>) -> Option<Finding> {
    let (number, id) = want?;
    Some(Finding {
        number,
        id,
        entry: 0,
    })
}

fn finding_of(alloc: Global, old: &Edition, row: &Row) -> Result<Option<Finding>, DraftFault> {
    finding_in(next_edition(alloc, old, row.number, row.rules))
}

#[test]
fn refused_editions(rt: HostRuntime) -> Result<(), Fail> {
    let second = second(rt.alloc())?;
    for row in LOSSES.iter().chain(OTHERS.iter()) {
        assert_eq!(rt; finding_of(rt.alloc(), &second, row)?, wanted(row.want));
    }
    Ok(())
}

/// The last of 256 editions without rules.
fn last_edition(alloc: Global) -> Result<Edition, DraftFault> {
    let mut edition = Edition::empty(alloc);
    for number in 1..257 {
        edition = follow(alloc, &edition, number, Vec::new(alloc))?;
    }
    Ok(edition)
}

#[test]
fn the_last_edition(rt: HostRuntime) -> Result<(), Fail> {
    let last = last_edition(rt.alloc())?;
    let next = next_edition(rt.alloc(), &last, 257, &[]);
    assert_eq!(rt; finding_in(next)?, wanted(Some((18, 0))));
    Ok(())
}

#[test]
fn an_edition_that_follows(rt: HostRuntime) -> Result<(), Fail> {
    laws::one_meaning();
    let second = second(rt.alloc())?;
    assert_eq!(rt; second.number(), 2);
    assert_eq!(rt; second.rules().len(), 2);
    assert!(rt; second.lookup(8).is_some());
    assert!(rt; second.same(&second));
    assert_eq!(rt; second.diverges(&Edition::empty(rt.alloc())), Some(6));
    Ok(())
}

/// How many rules an edition may have.
const MANY: u16 = 200;

/// The RuleID at the place, from 0: those from 1 on but for the three that are reserved.
fn id_at(place: u16) -> u16 {
    if place < 19 {
        place + 1
    } else {
        place.saturating_add(4)
    }
}

/// The application's port that the rule at the place knows.
fn port_at(place: u16) -> u16 {
    place.saturating_add(1000)
}

/// An edition of as many rules as it may have, which differ in the RuleID and in the application's
/// port.
fn many_ports(alloc: Global) -> Result<Edition, DraftFault> {
    let mut given = Vec::new(alloc);
    for place in 0..MANY {
        let one = Given::live(id_at(place), Sample::Port(port_at(place)));
        match given.push(one) {
            Ok(()) => {}
            Err(_) => return Err(DraftFault::Memory),
        }
    }
    edition_of(alloc, &given)
}

/// The rules that a packet of UDP to this port may match.
fn suspects(edition: &Edition, direction: Direction, port: u16) -> &[u16] {
    edition.suspects(direction, Stack::IpUdp, port)
}

/// Whether the rule at the place is the only suspect for its port.
fn has_one(edition: &Edition, direction: Direction, place: u16) -> bool {
    match suspects(edition, direction, port_at(place)) {
        [id] => *id == id_at(place),
        _ => false,
    }
}

/// The first place whose port has other suspects than the one rule that knows it.
fn first_wrong(edition: &Edition, direction: Direction) -> Option<u16> {
    (0..MANY).find(|place| !has_one(edition, direction, *place))
}

#[test]
fn one_suspect_for_each_port(rt: HostRuntime) -> Result<(), Fail> {
    let edition = many_ports(rt.alloc())?;
    for direction in [Direction::Up, Direction::Down] {
        assert_eq!(rt; first_wrong(&edition, direction), None);
        assert!(rt; suspects(&edition, direction, 999).is_empty());
        assert!(rt; suspects(&edition, direction, 1200).is_empty());
        assert!(rt;
            edition
                .suspects(direction, Stack::IpUdpCoap, 1000)
                .is_empty()
        );
    }
    Ok(())
}
