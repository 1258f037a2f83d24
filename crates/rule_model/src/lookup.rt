//! What matching, and writing and reading a residue, share.

ghost use Rattle.std.specs.Prelude.{◌≡◌, ◌≤◌};
ghost use Rattle.rule_model.specs.Findings.{same_bits};
ghost use Rattle.rule_model.specs.Residue.{same_field, value_of, index_width, msb_bits};

use crate::rule::Operator;
use crate::value::Fields;
use schc_bits::Part;
use schc_ids::FieldAt;

fn is_field(field: FieldAt, other: FieldAt) -> bool
    ensures { result ≡ same_field field other }
{
    field.name.same(other.name) && field.position == other.position
}

/// The value of the field, or no bits where it isn't among the fields.
pub fn value_of(fields: &Fields, at: FieldAt) -> Part<'_>
    ensures { result ≡ value_of fields.now.items at }
{
    for field in fields.as_slice() {
        if is_field(field.at, at) {
            return field.value.as_part();
        }
    }
    Part::none()
}

/// Whether the two strings of bits are equal.
pub fn same_bits(these: &Part<'_>, those: &Part<'_>) -> bool
    ensures { result ≡ same_bits these.now those.now }
{
    these.same(those)
}

/// How many first bits MSB compares, and 0 for another operator (RFC 8724, section 7.3).
pub fn msb_bits(operator: Operator) -> usize
    ensures { result ≡ msb_bits operator }
{
    match operator {
        Operator::Msb(bits) => usize::from(bits),
        _ => 0,
    }
}

/// The fewest bits that code all indices below `count` (RFC 8724, section 7.4.5): none for one.
pub fn index_width(count: usize) -> u32
    ensures width { result ≡ index_width count }
    ensures small { result ≤ 64 }
{
    if count <= 1 {
        0
    } else {
        (count - 1).ilog2() + 1
    }
}
