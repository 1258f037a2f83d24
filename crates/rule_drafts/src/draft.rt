//! Drafts of entries (field descriptors, RFC 8724 section 7.1).

use rule_model::{Action, Entry, Length, Operator, Targets};
use schc_bits::Bits;
use schc_ids::{DirInd, FieldName, width};
use std::alloc::{AllocError, Global};

/// An entry to be written: its targets are `count` numbers of `width` bits, from `first` on.
#[derive(Clone, Copy)]
pub struct Draft {
    pub name: FieldName,
    pub length: Length,
    pub position: u16,
    pub direction: DirInd,
    pub count: u64,
    pub first: u64,
    pub width: u16,
    pub operator: Operator,
    pub action: Action,
}

/// The only length of the field, or the one of those fields whose length varies.
fn length_of(name: FieldName) -> Length {
    match (width(name), name) {
        (Some(bits), _) => Length::Fixed(bits),
        (None, FieldName::CoapToken) => Length::TokenLength,
        (None, _) => Length::Variable,
    }
}

/// The field is ignored, and the other end finds it without a target, as the action says.
pub fn remade(name: FieldName, action: Action) -> Draft {
    Draft {
        name,
        length: length_of(name),
        position: 1,
        direction: DirInd::Both,
        count: 0,
        first: 0,
        width: width(name).unwrap_or(8),
        operator: Operator::Ignore,
        action,
    }
}

/// Whatever the field is, its whole value is sent.
pub fn open(name: FieldName) -> Draft {
    remade(name, Action::ValueSent)
}

/// The field is this number, and isn't sent. The number has eight bits where the field's width
/// varies.
pub fn known(name: FieldName, value: u64) -> Draft {
    Draft {
        count: 1,
        first: value,
        operator: Operator::Equal,
        ..remade(name, Action::NotSent)
    }
}

/// Whatever the field is, it is restored as this number.
pub fn dropped(name: FieldName, value: u64) -> Draft {
    Draft {
        operator: Operator::Ignore,
        ..known(name, value)
    }
}

/// The first bits of the field, this many, are those of the number, and the others are sent.
pub fn by_first_bits(name: FieldName, value: u64, bits: u16) -> Draft {
    Draft {
        operator: Operator::Msb(bits),
        action: Action::Lsb,
        ..known(name, value)
    }
}

/// The field is one of so many numbers from this one on, and its index is sent.
pub fn mapped(name: FieldName, first: u64, count: u64) -> Draft {
    Draft {
        count,
        operator: Operator::MatchMapping,
        action: Action::MappingSent,
        ..known(name, first)
    }
}

/// The last bits of the number, this many, with zeros in front where there are more than 64.
fn number_bits(alloc: Global, value: u64, count: u16) -> Result<Bits, AllocError> {
    let mut bits = Bits::new(alloc);
    for place in (0..u32::from(count)).rev() {
        bits.push(value.checked_shr(place).unwrap_or(0) % 2 == 1)?;
    }
    Ok(bits)
}

fn targets_of(alloc: Global, draft: &Draft) -> Result<Targets, AllocError> {
    let mut targets = Targets::new(alloc);
    for number in 0..draft.count {
        let value = draft.first.wrapping_add(number);
        targets.push(number_bits(alloc, value, draft.width)?)?;
    }
    Ok(targets)
}

/// The draft as an entry.
///
/// # Errors
/// Want of memory.
pub fn entry_of(alloc: Global, draft: &Draft) -> Result<Entry, AllocError> {
    Ok(Entry {
        name: draft.name,
        length: draft.length,
        position: draft.position,
        direction: draft.direction,
        targets: targets_of(alloc, draft)?,
        operator: draft.operator,
        action: draft.action,
    })
}
