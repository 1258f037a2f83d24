//! Rules and devices as they are handed in, before anything is asked of them.

use crate::rule::Rule;
use schc_bits::{CopyItem, ItemList};
use schc_ids::EndParams;
use std::alloc::{AllocError, Global};
use std::marker::Model;

/// A rule that an edition lists, before it is admitted.
#[derive(Drop)]
pub struct RawRule {
    pub rule: Rule,
    /// Whether packets are to be written with the rule. A retired rule is only read by.
    pub live: bool,
}

/// An edition of rules before its rules are admitted and before it follows another: a number, and
/// the rules in the order in which they were handed in.
#[derive(Drop)]
pub struct RawEdition {
    pub number: u32,
    pub rules: ItemList<RawRule>,
}

impl Model for RawEdition {
    ghost use Rattle.rule_model.specs.RawData.{RawEditionData};

    ghost Value = { RawEditionData };

    ghost view = { λ e. record { number = e.number; rules = e.rules.items } };
}

/// A device with its number and the parameters of its two ends.
#[derive(Clone, Copy, Debug, PartialEq, Eq)]
pub struct DeviceLine {
    pub number: u16,
    pub params: EndParams,
}

impl CopyItem for DeviceLine {
    fn copy_item(&self, _alloc: Global) -> Result<DeviceLine, AllocError> {
        Ok(*self)
    }
}

impl CopyItem for RawRule {
    fn copy_item(&self, alloc: Global) -> Result<RawRule, AllocError> {
        let rule = self.rule.copy_item(alloc)?;
        Ok(RawRule {
            rule,
            live: self.live,
        })
    }
}

impl CopyItem for RawEdition {
    fn copy_item(&self, _alloc: Global) -> Result<RawEdition, AllocError> {
        let rules = self.rules.copy()?;
        Ok(RawEdition {
            number: self.number,
            rules,
        })
    }
}
