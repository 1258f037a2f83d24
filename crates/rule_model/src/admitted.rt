//! Admitted rules.

ghost use Rattle.std.specs.Prelude.{◌≡◌, IfOk};
ghost use Rattle.rule_model.specs.Cover.{dropped_fields, serves, stack_of};
ghost use Rattle.rule_model.specs.Findings.{IsAdmitted};

use crate::cover::{dropped_fields, serves, stack_of};
use crate::rule::{Entry, Rule};
use schc_bits::{CopyItem, Same};
use schc_ids::{Direction, FieldAt, Stack};
use std::alloc::{AllocError, Global};
use std::marker::Model;

/// A rule that has none of the findings. Contracts see the rule.
#[derive(Drop)]
pub struct Admitted {
    rule: Rule,
    stack: Stack,
    serves_up: bool,
    serves_down: bool,
    dropped_up: Vec<FieldAt>,
    dropped_down: Vec<FieldAt>,
}

impl Model for Admitted {
    ghost use Rattle.rule_model.specs.Data.{RuleData};
    ghost use Rattle.rule_model.specs.Kept.{KeepsWhatFollows};

    ghost Value = { RuleData };

    ghost view = { λ a. a.rule };

    ghost invariant = { λ a. KeepsWhatFollows a.rule a.stack a.serves_up a.serves_down a.dropped_up.items a.dropped_down.items };
}

impl Admitted {
    /// The admitted rule.
    ///
    /// # Errors
    /// Want of memory.
    pub fn new(alloc: Global, rule: Rule) -> Result<Admitted, AllocError>
        requires { IsAdmitted rule }
        ensures { IfOk result (λ admitted. admitted ≡ rule) }
    {
        let stack = stack_of(&rule);
        let serves_up = serves(&rule, Direction::Up);
        let serves_down = serves(&rule, Direction::Down);
        let dropped_up = dropped_fields(alloc, &rule, Direction::Up)?;
        let dropped_down = dropped_fields(alloc, &rule, Direction::Down)?;
        Ok(Admitted {
            rule,
            stack,
            serves_up,
            serves_down,
            dropped_up,
            dropped_down,
        })
    }

    /// The rule.
    pub fn rule(&self) -> &Rule
        ensures rule { result.now ≡ self.now }
        ensures admitted { IsAdmitted self.now }
    {
        &self.rule
    }

    /// The rule's entries, in the order in which residues are sent.
    pub fn entries(&self) -> &[Entry]
        ensures entries { result.now ≡ self.now.entries }
        ensures admitted { IsAdmitted self.now }
    {
        self.rule.entries.as_slice()
    }

    /// The rule's stack.
    pub fn stack(&self) -> Stack
        ensures { result ≡ stack_of self.now }
    {
        self.stack
    }

    /// Whether the rule has, in this direction, each field that a packet of its stack always has.
    pub fn serves(&self, direction: Direction) -> bool
        ensures { result ≡ serves self.now direction }
    {
        match direction {
            Direction::Up => self.serves_up,
            Direction::Down => self.serves_down,
        }
    }

    /// The fields whose value the other end may restore to another one: those of ignored entries
    /// that send nothing, in the rule's order, and at the end the UDP checksum where it is computed
    /// over one of them.
    pub fn dropped(&self, direction: Direction) -> &[FieldAt]
        ensures { result.now ≡ dropped_fields self.now direction }
    {
        match direction {
            Direction::Up => self.dropped_up.as_slice(),
            Direction::Down => self.dropped_down.as_slice(),
        }
    }
}

impl CopyItem for Admitted {
    fn copy_item(&self, alloc: Global) -> Result<Admitted, AllocError> {
        let rule = self.rule.copy_item(alloc)?;
        Admitted::new(alloc, rule)
    }
}

impl Same for Admitted {
    fn same(&self, other: &Admitted) -> bool {
        self.rule.same(&other.rule)
    }
}
