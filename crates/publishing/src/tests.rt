//! Publications of rules of ten entries.

use crate::{PublishFault, publish};
use editions::Edition;
use rule_model::{
    Action, Entries, Entry, Finding, Length, Operator, RawEdition, RawRule, Rule, Targets,
};
use schc_bits::ItemList;
use schc_ids::{DirInd, FieldName, Stack, always_present, width};
use std::alloc::{AllocError, Global};
use std::test::Fail;

/// A finding's number, RuleID and entry.
type Refusal = (u8, u16, u64);

/// A rule to be handed in: its RuleID, the direction of its entries, and whether it is live.
#[derive(Clone, Copy)]
struct Given(u16, DirInd, bool);

/// The field is sent as it is.
fn sent(alloc: Global, name: FieldName, direction: DirInd) -> Entry {
    let length = match width(name) {
        Some(bits) => Length::Fixed(bits),
        None => Length::Variable,
    };
    Entry {
        name,
        length,
        position: 1,
        direction,
        targets: Targets::new(alloc),
        operator: Operator::Ignore,
        action: Action::ValueSent,
    }
}

/// A rule that sends each field of an IPv6 header.
fn raw_rule(alloc: Global, given: Given) -> Result<RawRule, AllocError> {
    let Given(id, direction, live) = given;
    let mut entries = Entries::new(alloc);
    for name in always_present(Stack::Ip) {
        entries.push(sent(alloc, *name, direction))?;
    }
    let rule = Rule { id, entries };
    Ok(RawRule { rule, live })
}

fn handed_in(alloc: Global, number: u32, given: &[Given]) -> Result<RawEdition, AllocError> {
    let mut rules = ItemList::new(alloc);
    for one in given {
        rules.push(raw_rule(alloc, *one)?)?;
    }
    Ok(RawEdition { number, rules })
}

fn next(
    alloc: Global,
    old: &Edition,
    number: u32,
    given: &[Given],
) -> Result<Edition, PublishFault> {
    let raw = handed_in(alloc, number, given)?;
    publish(alloc, old, &raw)
}

/// An edition with rule 7, which is retired, and rule 6.
fn first(alloc: Global) -> Result<Edition, PublishFault> {
    let given = [Given(7, DirInd::Both, false), Given(6, DirInd::Both, true)];
    next(alloc, &Edition::empty(alloc), 1, &given)
}

/// How the call ends that would make edition 2.
fn refused(alloc: Global, given: &[Given]) -> Result<Option<Refusal>, PublishFault> {
    let first = first(alloc)?;
    match next(alloc, &first, 2, given) {
        Err(PublishFault::Found(Finding { number, id, entry })) => Ok(Some((number, id, entry))),
        Err(PublishFault::Memory) => Err(PublishFault::Memory),
        Ok(_) => Ok(None),
    }
}

/// The number, the RuleIDs, and which are live.
fn shape(edition: &Edition) -> (u32, Option<bool>, Option<bool>) {
    let live_of = |id| edition.lookup(id).map(|listed| listed.live);
    (edition.number(), live_of(6), live_of(7))
}

const RETIRED_7: Given = Given(7, DirInd::Both, false);

const RULE_6: Given = Given(6, DirInd::Both, true);

const OTHER_6: Given = Given(6, DirInd::Up, true);

const RESERVED: Given = Given(22, DirInd::Both, true);

const OUT_OF_RANGE: Given = Given(224, DirInd::Both, true);

#[test]
fn an_edition_is_published(rt: HostRuntime) -> Result<(), Fail> {
    let first = first(rt.alloc())?;
    assert_eq!(rt; shape(&first), (1, Some(true), Some(false)));
    assert_eq!(rt; refused(rt.alloc(), &[RULE_6, RETIRED_7])?, None);
    Ok(())
}

#[test]
fn refused_editions(rt: HostRuntime) -> Result<(), Fail> {
    let alloc = rt.alloc();
    assert_eq!(rt;
        refused(alloc, &[RULE_6, RESERVED, OUT_OF_RANGE])?,
        Some((2, 22, 0))
    );
    assert_eq!(rt; refused(alloc, &[OTHER_6, RETIRED_7])?, Some((16, 6, 0)));
    Ok(())
}
