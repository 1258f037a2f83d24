//! Rules at the limits.

use editions::{Edition, Listed, follow};
use rule_admission::admit;
use rule_drafts::{
    Coap, Draft, DraftFault, Given, Sample, entry_of, finding_in, path_sent, rule_of,
};
use rule_model::{Finding, Rule};
use std::alloc::{AllocError, Global};
use std::test::Fail;

/// The finding about an edition that passes the limits.
const TOO_LARGE: Option<Finding> = Some(Finding {
    number: 18,
    id: 0,
    entry: 0,
});

/// A rule of twenty entries for a message of CoAP, with 42 bytes of targets.
fn sensor_rule(alloc: Global) -> Result<Rule, AllocError> {
    rule_of(alloc, Given::live(30, Sample::Coap(Coap::LowId)))
}

/// The same, and one entry more for each part of the path from the second one up to before `end`.
fn many_entries(alloc: Global, end: u16) -> Result<Rule, AllocError> {
    let mut rule = sensor_rule(alloc)?;
    for position in 2..end {
        rule.entries.push(entry_of(alloc, &path_sent(position))?)?;
    }
    Ok(rule)
}

/// The same, and parts of the path with targets of 174 times 1,500, and of `rest` bytes.
fn large_targets(alloc: Global, rest: u16) -> Result<Rule, AllocError> {
    let many = Draft {
        count: 174,
        width: 8 * 1500,
        ..path_sent(2)
    };
    let last = Draft {
        count: 1,
        width: rest.saturating_mul(8),
        ..path_sent(3)
    };
    let mut rule = sensor_rule(alloc)?;
    rule.entries.push(entry_of(alloc, &many)?)?;
    rule.entries.push(entry_of(alloc, &last)?)?;
    Ok(rule)
}

/// Edition 1 of this rule alone.
fn alone(alloc: Global, rule: Rule) -> Result<Edition, DraftFault> {
    let rule = admit(alloc, rule)?;
    let mut rules = Vec::new(alloc);
    match rules.push(Listed { rule, live: true }) {
        Ok(()) => Ok(follow(alloc, &Edition::empty(alloc), 1, rules)?),
        Err(_) => Err(DraftFault::Memory),
    }
}

/// What is found of a rule with the twenty entries and the parts of the path before `end`.
fn found_of_entries(alloc: Global, end: u16) -> Result<Option<Finding>, DraftFault> {
    finding_in(alone(alloc, many_entries(alloc, end)?))
}

/// What is found of a rule whose targets have 261,042 and `rest` bytes.
fn found_of_targets(alloc: Global, rest: u16) -> Result<Option<Finding>, DraftFault> {
    finding_in(alone(alloc, large_targets(alloc, rest)?))
}

#[test]
fn entries_at_the_limit(rt: HostRuntime) -> Result<(), Fail> {
    // 64 entries and 65
    for (end, want) in [(46, None), (47, TOO_LARGE)] {
        assert_eq!(rt;
            found_of_entries(rt.alloc(), end)?,
            want,
            "before part {end}"
        );
    }
    Ok(())
}

#[test]
fn targets_at_the_limit(rt: HostRuntime) -> Result<(), Fail> {
    // 262,144 bytes and 262,145
    for (rest, want) in [(1102, None), (1103, TOO_LARGE)] {
        assert_eq!(rt;
            found_of_targets(rt.alloc(), rest)?,
            want,
            "{rest} bytes more"
        );
    }
    Ok(())
}
