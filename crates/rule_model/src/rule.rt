//! Rules and their entries (RFC 8724 section 7.1).

ghost use Rattle.std.specs.Prelude.{◌≡◌, ◌↔◌, IsTrue};
ghost use Rattle.rule_model.specs.Data.{SameField, SameUse};
ghost use Rattle.rule_model.specs.Cover.{field_of};

use schc_bits::{Bits, CopyItem, ItemList, Same, same_items};
use schc_ids::{DirInd, FieldAt, FieldName};
use std::alloc::{AllocError, Global};
use std::marker::Model;

/// The length of a field (field length, RFC 8724 section 7.1).
#[derive(Clone, Copy, Debug, PartialEq, Eq)]
pub enum Length {
    /// This many bits.
    Fixed(u16),
    /// A whole number of bytes, which is sent with the value.
    Variable,
    /// The bits of a CoAP token, 8 times the token length (RFC 8824 section 4.5).
    TokenLength,
}

/// How a field's value is compared with the targets (matching operator, RFC 8724 section 7.3).
#[derive(Clone, Copy, Debug, PartialEq, Eq)]
pub enum Operator {
    Equal,
    Ignore,
    /// The first bits, this many, are those of the target.
    Msb(u16),
    MatchMapping,
}

/// What is sent of a field (compression and decompression action, RFC 8724 section 7.4).
#[derive(Clone, Copy, Debug, PartialEq, Eq)]
pub enum Action {
    NotSent,
    ValueSent,
    MappingSent,
    Lsb,
    Compute,
    DevIid,
    AppIid,
}

/// Target values of an entry, each a string of bits.
pub type Targets = ItemList<Bits>;

/// One entry of a rule (field descriptor, RFC 8724 section 7.1): how one field is matched and sent.
#[derive(Drop)]
pub struct Entry {
    pub name: FieldName,
    pub length: Length,
    /// Which repeat of the field, from 1.
    pub position: u16,
    pub direction: DirInd,
    pub targets: Targets,
    pub operator: Operator,
    pub action: Action,
}

impl Model for Entry {
    ghost use Rattle.rule_model.specs.Data.{EntryData};

    ghost Value = { EntryData };

    ghost view = { λ e. record {
      name = e.name;
      length = e.length;
      position = e.position;
      direction = e.direction;
      targets = e.targets.items;
      operator = e.operator;
      action = e.action;
    } };
}

impl Entry {
    /// The field that the entry is of.
    pub fn field(&self) -> FieldAt
        ensures { result ≡ field_of self.now }
    {
        FieldAt {
            name: self.name,
            position: self.position,
        }
    }

    fn same_field(&self, other: &Entry) -> bool
        ensures { IsTrue result ↔ SameField self.now other.now }
    {
        self.name == other.name
            && self.length == other.length
            && self.position == other.position
            && self.direction == other.direction
    }

    fn same_use(&self, other: &Entry) -> bool
        ensures { IsTrue result ↔ SameUse self.now other.now }
    {
        self.operator == other.operator && self.action == other.action
    }
}

impl CopyItem for Entry {
    fn copy_item(&self, _alloc: Global) -> Result<Entry, AllocError> {
        let targets = self.targets.copy()?;
        Ok(Entry {
            name: self.name,
            length: self.length,
            position: self.position,
            direction: self.direction,
            targets,
            operator: self.operator,
            action: self.action,
        })
    }
}

impl Same for Entry {
    fn same(&self, other: &Entry) -> bool {
        self.same_field(other)
            && self.same_use(other)
            && same_items(self.targets.as_slice(), other.targets.as_slice())
    }
}

/// The entries of a rule, in the order in which residues are sent.
pub type Entries = ItemList<Entry>;

/// A compression rule: its RuleID and its entries. Entries are numbered from 1.
#[derive(Drop)]
pub struct Rule {
    pub id: u16,
    pub entries: Entries,
}

impl Model for Rule {
    ghost use Rattle.rule_model.specs.Data.{RuleData};

    ghost Value = { RuleData };

    ghost view = { λ r. record { id = r.id; entries = r.entries.items } };
}

impl CopyItem for Rule {
    fn copy_item(&self, _alloc: Global) -> Result<Rule, AllocError> {
        let entries = self.entries.copy()?;
        Ok(Rule {
            id: self.id,
            entries,
        })
    }
}

impl Same for Rule {
    fn same(&self, other: &Rule) -> bool {
        self.id == other.id && same_items(self.entries.as_slice(), other.entries.as_slice())
    }
}
