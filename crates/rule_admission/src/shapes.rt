//! What can be wrong with an entry's length and position, its operator and its action.

ghost use Rattle.std.specs.Prelude.{◌≡◌};
ghost use Rattle.rule_model.specs.Findings.{
  is_option_length,
  is_token_length,
  is_fixed_at,
  is_length_of,
  shape_wrong,
  is_allowed_pair,
  pair_not_allowed,
  is_needed,
  not_droppable,
  is_computed_by,
  compute_wrong,
};

use rule_model::{Action, Entry, Length, Operator, is_lossy};
use schc_ids::{FieldName, width};

fn is_option_length(length: Length) -> bool
    ensures { result ≡ is_option_length length }
{
    match length {
        Length::Variable => true,
        Length::Fixed(bits) => bits % 8 == 0 && bits <= 8 * 255,
        Length::TokenLength => false,
    }
}

fn is_token_length(length: Length) -> bool
    ensures { result ≡ is_token_length length }
{
    match length {
        Length::TokenLength => true,
        _ => false,
    }
}

fn is_fixed_at(width: Option<u16>, length: Length) -> bool
    ensures { result ≡ is_fixed_at width length }
{
    match (width, length) {
        (Some(width), Length::Fixed(bits)) => bits == width,
        _ => false,
    }
}

fn is_length_of(name: FieldName, length: Length) -> bool
    ensures { result ≡ is_length_of name length }
{
    match name {
        FieldName::CoapOption(_) => is_option_length(length),
        FieldName::CoapToken => is_token_length(length),
        _ => is_fixed_at(width(name), length),
    }
}

/// The length isn't one of the field's, or the position is 0, or above 1 for a field that isn't an
/// option.
pub fn shape_wrong(entry: &Entry) -> bool
    ensures { result ≡ shape_wrong entry.now }
{
    !is_length_of(entry.name, entry.length)
        || entry.position == 0
        || (entry.position > 1 && !entry.name.is_option())
}

fn is_allowed_pair(operator: Operator, action: Action) -> bool
    ensures { result ≡ is_allowed_pair operator action }
{
    match (operator, action) {
        (Operator::Equal, Action::NotSent) => true,
        (Operator::Equal, Action::ValueSent) => true,
        (Operator::Ignore, Action::ValueSent) => true,
        (Operator::Ignore, Action::NotSent) => true,
        (Operator::Ignore, Action::Compute) => true,
        (Operator::Ignore, Action::DevIid) => true,
        (Operator::Ignore, Action::AppIid) => true,
        (Operator::Msb(_), Action::Lsb) => true,
        (Operator::Msb(_), Action::ValueSent) => true,
        (Operator::MatchMapping, Action::MappingSent) => true,
        (Operator::MatchMapping, Action::ValueSent) => true,
        _ => false,
    }
}

/// Operator and action don't go together.
pub fn pair_not_allowed(entry: &Entry) -> bool
    ensures { result ≡ pair_not_allowed entry.now }
{
    !is_allowed_pair(entry.operator, entry.action)
}

fn is_needed(name: FieldName) -> bool
    ensures { result ≡ is_needed name }
{
    match name {
        FieldName::IpVersion
        | FieldName::IpPayloadLength
        | FieldName::IpNextHeader
        | FieldName::UdpLength
        | FieldName::UdpChecksum
        | FieldName::CoapVersion
        | FieldName::CoapTkl
        | FieldName::CoapToken
        | FieldName::CoapOption(_) => true,
        _ => false,
    }
}

/// Ignore and not-sent on a field without whose value no packet can be made again.
pub fn not_droppable(entry: &Entry) -> bool
    ensures { result ≡ not_droppable entry.now }
{
    is_lossy(entry.operator, entry.action) && is_needed(entry.name)
}

fn is_computed_by(action: Action, name: FieldName) -> bool
    ensures { result ≡ is_computed_by action name }
{
    match action {
        Action::Compute => match name {
            FieldName::IpPayloadLength => true,
            FieldName::UdpLength => true,
            FieldName::UdpChecksum => true,
            _ => false,
        },
        Action::DevIid => name.same(FieldName::IpDevIid),
        Action::AppIid => name.same(FieldName::IpAppIid),
        _ => true,
    }
}

/// Compute, DevIID or AppIID on a field that it doesn't compute.
pub fn compute_wrong(entry: &Entry) -> bool
    ensures { result ≡ compute_wrong entry.now }
{
    !is_computed_by(entry.action, entry.name)
}
