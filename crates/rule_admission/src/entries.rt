//! What can be wrong with an entry beside the others of its rule, and with the rule as a whole.

ghost use Rattle.std.specs.Prelude.{◌≡◌, ◌==◌, ◌&&◌};
ghost use Rattle.std.specs.List.{list_any};
ghost use Rattle.schc_ids.specs.Names.{same_name};
ghost use Rattle.schc_ids.specs.Ends.{share_direction};
ghost use Rattle.rule_model.specs.Findings.{
  id_out_of_range,
  id_reserved,
  mixed_stack,
  serves_no_direction,
  repeats,
  field_twice,
  order_wrong,
};

use rule_model::{Entry, Rule, has_layer, serves};
use schc_ids::limits::{
    ACK_ALWAYS_PORT, ACK_ON_ERROR_PORT, NO_ACK_DOWN_PORT, NO_ACK_UP_PORT, UNCOMPRESSED,
};
use schc_ids::{Direction, FieldName, Layer, share_direction};

/// The RuleID is 0 or above 223.
pub fn id_out_of_range(rule: &Rule) -> bool
    ensures { result ≡ id_out_of_range rule.now }
{
    rule.id == 0 || rule.id > 223
}

/// The RuleID is the port.
fn is_port(rule: &Rule, port: u8) -> bool
    ensures { result ≡ (rule.now.id == port) }
{
    rule.id == u16::from(port)
}

/// The RuleID is one that fragments and their answers have, or packets that no rule compresses.
pub fn id_reserved(rule: &Rule) -> bool
    ensures { result ≡ id_reserved rule.now }
{
    is_port(rule, ACK_ON_ERROR_PORT)
        || is_port(rule, ACK_ALWAYS_PORT)
        || is_port(rule, UNCOMPRESSED)
        || is_port(rule, NO_ACK_UP_PORT)
        || is_port(rule, NO_ACK_DOWN_PORT)
}

/// A CoAP field and no UDP field, or a UDP field and no IPv6 field.
pub fn mixed_stack(rule: &Rule) -> bool
    ensures { result ≡ mixed_stack rule.now }
{
    let ip = has_layer(rule, Layer::Ip);
    let udp = has_layer(rule, Layer::Udp);
    let coap = has_layer(rule, Layer::Coap);
    (coap && !udp) || (udp && !ip)
}

/// In neither direction do the used entries hold every always-present field of the stack.
pub fn serves_no_direction(rule: &Rule) -> bool
    ensures { result ≡ serves_no_direction rule.now }
{
    !serves(rule, Direction::Up) && !serves(rule, Direction::Down)
}

fn repeats(entry: &Entry, other: &Entry) -> bool
    ensures { result ≡ repeats entry.now other.now }
{
    entry.name.same(other.name)
        && entry.position == other.position
        && share_direction(entry.direction, other.direction)
}

/// The entry has the name and position of an earlier one, and both are used in one direction.
pub fn field_twice(entry: &Entry, earlier: &[Entry]) -> bool
    ensures { result ≡ field_twice earlier.now entry.now }
{
    earlier.iter().any(|other| repeats(entry, other))
}

fn is_token_length_for(entry: &Entry, other: &Entry) -> bool
    ensures { result ≡ (same_name other.now.name FieldName.CoapTkl && share_direction entry.now.direction other.now.direction) }
{
    other.name.same(FieldName::CoapTkl) && share_direction(entry.direction, other.direction)
}

fn any_token_length(entry: &Entry, later: &[Entry]) -> bool
    ensures { result ≡ list_any (λ f. same_name f.name FieldName.CoapTkl && share_direction entry.now.direction f.direction) later.now }
{
    later.iter().any(|other| is_token_length_for(entry, other))
}

/// The entry is the token's and stands before a token length entry that is used in one of its
/// directions.
pub fn order_wrong(entry: &Entry, later: &[Entry]) -> bool
    ensures { result ≡ order_wrong entry.now later.now }
{
    entry.name.same(FieldName::CoapToken) && any_token_length(entry, later)
}
