//! Why fields make no message.

ghost use Rattle.std.specs.Prelude.{ℕ, ◌≡◌, ◌+◌, ◌*◌, ◌≤◌, ◌<◌, Some, None, length};
ghost use Rattle.std.specs.Option.{option_copied};
ghost use Rattle.schc_bits.specs.Bits.{bits_value};
ghost use Rattle.schc_ids.specs.Names.{rank_of, coap_fields};
ghost use Rattle.rule_model.specs.First.{first_held};
ghost use Rattle.coap_fields.specs.Message.{next_place};
ghost use Rattle.coap_fields.specs.Fields.{at_name};
ghost use Rattle.coap_fields.specs.Join.{
  is_at,
  value_in,
  value_of,
  bits_of,
  presence_of,
  presence,
  is_possible,
  stands_after,
  is_size_right,
  can_follow,
  order,
  is_whole,
  can_stand,
  standing,
  message_refusals,
  tkl_of,
  token_refusals,
  value_refusals,
  gap,
  number_after,
  position_after,
  gaps,
  join_refusal,
};

use crate::options::{Last, next_place};
use rule_model::{FieldValue, JoinFault, at_name, value_in};
use schc_bits::Bits;
use schc_ids::{FieldAt, FieldName};

/// The most bits of an option's value: 269 + 65,535 bytes.
const MOST_BITS: usize = 8 * 65_804;

const ALWAYS_PRESENT: [FieldName; 5] = [
    FieldName::CoapVersion,
    FieldName::CoapType,
    FieldName::CoapTkl,
    FieldName::CoapCode,
    FieldName::CoapMid,
];

fn always_present() -> &'static [FieldName]
    ensures { result.now ≡ coap_fields }
{
    &ALWAYS_PRESENT
}

/// The first condition under which the fields make no message.
pub fn join_refusal(fields: &[FieldValue]) -> Option<JoinFault>
    ensures { result ≡ join_refusal fields.now }
{
    match presence_fault(fields) {
        Some(fault) => Some(fault),
        None => match order_fault(fields) {
            Some(fault) => Some(fault),
            None => match content_fault(fields) {
                Some(fault) => Some(fault),
                None => gap_fault(fields),
            },
        },
    }
}

/// The first condition, but for the size of an option, under which the fields make no message.
pub fn message_fault(fields: &[FieldValue]) -> Option<JoinFault>
    ensures { result ≡ first_held (message_refusals fields.now) }
{
    match presence_fault(fields) {
        Some(fault) => Some(fault),
        None => match standing_fault(fields) {
            Some(fault) => Some(fault),
            None => match content_fault(fields) {
                Some(fault) => Some(fault),
                None => gap_fault(fields),
            },
        },
    }
}

fn presence_fault(fields: &[FieldValue]) -> Option<JoinFault>
    ensures { result ≡ first_held (presence fields.now coap_fields) }
{
    rule_model::presence_fault(fields, always_present())
}

fn is_possible(name: FieldName, position: u16) -> bool
    ensures { result ≡ is_possible name position }
{
    match name {
        FieldName::CoapVersion
        | FieldName::CoapType
        | FieldName::CoapTkl
        | FieldName::CoapCode
        | FieldName::CoapMid
        | FieldName::CoapToken => position == 1,
        FieldName::CoapOption(_) => position >= 1,
        _ => false,
    }
}

fn stands_after(rank: u32, position: u16, at: FieldAt) -> bool
    ensures { result ≡ stands_after rank position at }
{
    rank < at.name.rank() || (rank == at.name.rank() && position < at.position)
}

fn is_size_right(name: FieldName, value: &Bits) -> bool
    ensures { result ≡ is_size_right name value.now }
{
    match name {
        FieldName::CoapOption(_) => value.len() % 8 == 0 && value.len() <= MOST_BITS,
        _ => true,
    }
}

fn can_follow(rank: u32, position: u16, field: &FieldValue) -> bool
    ensures { result ≡ can_follow rank position field.now }
{
    is_possible(field.at.name, field.at.position)
        && stands_after(rank, position, field.at)
        && is_size_right(field.at.name, &field.value)
}

fn is_whole(name: FieldName, value: &Bits) -> bool
    ensures { result ≡ is_whole name value.now }
{
    match name {
        FieldName::CoapOption(_) => value.len() % 8 == 0,
        _ => true,
    }
}

fn can_stand(rank: u32, position: u16, field: &FieldValue) -> bool
    ensures { result ≡ can_stand rank position field.now }
{
    is_possible(field.at.name, field.at.position)
        && stands_after(rank, position, field.at)
        && is_whole(field.at.name, &field.value)
}

fn standing_fault(fields: &[FieldValue]) -> Option<JoinFault>
    ensures { result ≡ first_held (standing 0 0 fields.now) }
{
    let mut rank = 0;
    let mut position = 0;
    for field in fields {
        if !can_stand(rank, position, field) {
            return Some(JoinFault::FieldWrong(field.at));
        }
        rank = field.at.name.rank();
        position = field.at.position;
    }
    None
}

fn order_fault(fields: &[FieldValue]) -> Option<JoinFault>
    ensures { result ≡ first_held (order 0 0 fields.now) }
{
    let mut rank = 0;
    let mut position = 0;
    for field in fields {
        if !can_follow(rank, position, field) {
            return Some(JoinFault::FieldWrong(field.at));
        }
        rank = field.at.name.rank();
        position = field.at.position;
    }
    None
}

/// The number in the value of the field, which has at most 64 bits; 0 where it isn't there.
pub fn number_in(fields: &[FieldValue], name: FieldName) -> u64
    requires { length (value_of fields.now name) ≤ 64 }
    ensures { result ≡ bits_value (value_of fields.now name) }
{
    match value_in(fields, name) {
        Some(value) => value.as_part().number(),
        None => 0,
    }
}

fn content_fault(fields: &[FieldValue]) -> Option<JoinFault>
    requires version { length (value_of fields.now FieldName.CoapVersion) ≤ 64 }
    requires tkl { length (value_of fields.now FieldName.CoapTkl) ≤ 64 }
    ensures { result ≡ first_held (value_refusals fields.now) }
{
    if number_in(fields, FieldName::CoapVersion) != 1 {
        return Some(JoinFault::FieldWrong(at_name(FieldName::CoapVersion)));
    }
    let tkl = number_in(fields, FieldName::CoapTkl);
    if tkl > 8 {
        return Some(JoinFault::FieldWrong(at_name(FieldName::CoapTkl)));
    }
    token_fault(fields, tkl as usize)
}

fn token_fault(fields: &[FieldValue], tkl: usize) -> Option<JoinFault>
    requires most { tkl ≤ 8 }
    requires is { tkl ≡ tkl_of fields.now }
    ensures { result ≡ first_held (token_refusals fields.now) }
{
    match value_in(fields, FieldName::CoapToken) {
        None => {
            if tkl == 0 {
                None
            } else {
                Some(JoinFault::FieldAbsent(at_name(FieldName::CoapToken)))
            }
        }
        Some(value) => {
            if tkl > 0 && value.len() == 8 * tkl {
                None
            } else {
                Some(JoinFault::FieldWrong(at_name(FieldName::CoapToken)))
            }
        }
    }
}

fn gap_at(last: Last, at: FieldAt) -> Option<JoinFault>
    ensures { result ≡ first_held (gap last.number last.place at.name at.position) }
{
    match at.name {
        FieldName::CoapOption(number) => {
            let next = next_place(last, usize::from(number));
            if next < usize::from(at.position) {
                Some(JoinFault::FieldAbsent(FieldAt {
                    name: at.name,
                    position: next as u16,
                }))
            } else {
                None
            }
        }
        _ => None,
    }
}

fn last_after(last: Last, at: FieldAt) -> Last
    ensures number { result.number ≡ number_after last.number at.name }
    ensures place { result.place ≡ position_after last.place at.name at.position }
{
    match at.name {
        FieldName::CoapOption(number) => Last {
            number,
            place: at.position,
        },
        _ => last,
    }
}

fn gap_fault(fields: &[FieldValue]) -> Option<JoinFault>
    ensures { result ≡ first_held (gaps 0 0 fields.now) }
{
    let mut last = Last {
        number: 0,
        place: 0,
    };
    for field in fields {
        match gap_at(last, field.at) {
            Some(fault) => return Some(fault),
            None => {}
        }
        last = last_after(last, field.at);
    }
    None
}
