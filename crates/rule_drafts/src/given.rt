//! Example rules under a RuleID, admitted and listed in editions.

use crate::draft::{Draft, entry_of};
use crate::fault::DraftFault;
use crate::samples::{Sample, sample_drafts};
use editions::{Edition, Listed, follow};
use rule_admission::admit;
use rule_model::{Admitted, Entries, Finding, Rule};
use schc_ids::DirInd;
use std::alloc::{AllocError, Global};

/// A rule to be listed. Where the direction is one, each of its entries is used in that one.
#[derive(Clone, Copy)]
pub struct Given {
    pub id: u16,
    pub sample: Sample,
    pub direction: DirInd,
    pub live: bool,
}

impl Given {
    /// A live rule in both directions.
    pub fn live(id: u16, sample: Sample) -> Given {
        Given {
            id,
            sample,
            direction: DirInd::Both,
            live: true,
        }
    }

    /// The same rule, retired.
    pub fn retired(self) -> Given {
        Given {
            live: false,
            ..self
        }
    }

    /// The same rule for packets from the gateway to the device.
    pub fn on_the_way_down(self) -> Given {
        Given {
            direction: DirInd::Down,
            ..self
        }
    }
}

/// The draft, used in this direction alone where it is one.
fn narrowed(draft: Draft, direction: DirInd) -> Draft {
    match direction {
        DirInd::Both => draft,
        DirInd::Up | DirInd::Down => Draft { direction, ..draft },
    }
}

/// The rule, which isn't admitted yet.
///
/// # Errors
/// Want of memory.
pub fn rule_of(alloc: Global, given: Given) -> Result<Rule, AllocError> {
    let drafts = sample_drafts(alloc, given.sample)?;
    let mut entries = Entries::new(alloc);
    for draft in &drafts {
        entries.push(entry_of(alloc, &narrowed(*draft, given.direction))?)?;
    }
    Ok(Rule {
        id: given.id,
        entries,
    })
}

/// The rule, admitted.
///
/// # Errors
/// The first finding that holds of the rule, or want of memory.
pub fn admitted(alloc: Global, given: Given) -> Result<Admitted, DraftFault> {
    let rule = rule_of(alloc, given)?;
    Ok(admit(alloc, rule)?)
}

/// The rules, admitted, in this order.
///
/// # Errors
/// The first finding that holds of the first rule that isn't admitted, or want of memory.
pub fn listed(alloc: Global, given: &[Given]) -> Result<Vec<Listed>, DraftFault> {
    let mut rules = Vec::new(alloc);
    for one in given {
        let rule = admitted(alloc, *one)?;
        let live = one.live;
        match rules.push(Listed { rule, live }) {
            Ok(()) => {}
            Err(_) => return Err(DraftFault::Memory),
        }
    }
    Ok(rules)
}

/// The edition of this number with these rules, where it follows the old one.
///
/// # Errors
/// The first finding that holds of a rule or of the edition, or want of memory.
pub fn next_edition(
    alloc: Global,
    old: &Edition,
    number: u32,
    given: &[Given],
) -> Result<Edition, DraftFault> {
    let rules = listed(alloc, given)?;
    Ok(follow(alloc, old, number, rules)?)
}

/// Edition 1 with these rules.
///
/// # Errors
/// The first finding that holds of a rule or of the edition, or want of memory.
pub fn edition_of(alloc: Global, given: &[Given]) -> Result<Edition, DraftFault> {
    next_edition(alloc, &Edition::empty(alloc), 1, given)
}

/// The finding that keeps the edition from being made, if there is one.
///
/// # Errors
/// Another fault than a finding.
pub fn finding_in(made: Result<Edition, DraftFault>) -> Result<Option<Finding>, DraftFault> {
    match made {
        Ok(_) => Ok(None),
        Err(DraftFault::Found(finding)) => Ok(Some(finding)),
        Err(fault) => Err(fault),
    }
}
