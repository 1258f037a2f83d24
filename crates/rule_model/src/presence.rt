//! Fields looked up by their name, and whether each field that a header always has is among them.

ghost use Rattle.std.specs.Prelude.{ℕ, ◌≡◌, ◌≤◌};
ghost use Rattle.std.specs.Option.{option_copied};
ghost use Rattle.rule_model.specs.First.{first_held};
ghost use Rattle.rule_model.specs.Presence.{
  at_name,
  is_at,
  value_in,
  bits_of,
  presence_of,
  presence,
};

use crate::parts::JoinFault;
use crate::value::FieldValue;
use schc_bits::Bits;
use schc_ids::{FieldAt, FieldName, width};

/// The field of the name at position 1. Only an option can stand at another position.
pub fn at_name(name: FieldName) -> FieldAt
    ensures { result ≡ at_name name }
{
    FieldAt { name, position: 1 }
}

/// Whether this is the field of the name at position 1.
pub fn is_at(at: FieldAt, name: FieldName) -> bool
    ensures { result ≡ is_at at name }
{
    at.name.same(name) && at.position == 1
}

/// The value of the first field of the name.
pub fn value_in(fields: &[FieldValue], name: FieldName) -> Option<&Bits>
    ensures { option_copied result ≡ value_in fields.now name }
{
    for field in fields {
        if is_at(field.at, name) {
            return Some(&field.value);
        }
    }
    None
}

/// The bits of a field with a fixed width, and 0 for one that has none.
pub fn bits_of(name: FieldName) -> usize
    ensures value { result ≡ bits_of name }
    ensures bound { result ≤ 64 }
{
    match width(name) {
        Some(bits) => usize::from(bits),
        None => 0,
    }
}

fn field_fault(fields: &[FieldValue], name: FieldName) -> Option<JoinFault>
    ensures { result ≡ first_held (presence_of fields.now name) }
{
    match value_in(fields, name) {
        None => Some(JoinFault::FieldAbsent(at_name(name))),
        Some(value) => {
            if value.len() == bits_of(name) {
                None
            } else {
                Some(JoinFault::FieldWrong(at_name(name)))
            }
        }
    }
}

/// The first of the names, in their order, whose field isn't among the fields or hasn't its width.
pub fn presence_fault(fields: &[FieldValue], names: &[FieldName]) -> Option<JoinFault>
    ensures { result ≡ first_held (presence fields.now names.now) }
{
    for name in names {
        match field_fault(fields, *name) {
            Some(fault) => return Some(fault),
            None => {}
        }
    }
    None
}
