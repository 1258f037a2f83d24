//! The words of rule text (identifiers in the manner of RFC 9363).

ghost use Rattle.std.specs.Prelude.{◌≡◌, Some};
ghost use Rattle.rule_json.specs.Words.{
  acked_of,
  last_tile_of,
  direction_of,
  indicator_of,
  length_word,
  plain_operator,
  action_of,
  indicator_text,
  operator_text,
  action_text,
};

use rule_model::{Action, Length, Operator};
use schc_ids::{DirInd, Direction, LastTile};

/// The direction of packets that the word names.
#[tactic(auto, unfolding(crate::specs::Words::direction_of))]
pub(crate) fn direction_of(text: &str) -> Option<Direction>
    ensures { result ≡ direction_of text.now }
{
    match text {
        "di-up" => Some(Direction::Up),
        "di-down" => Some(Direction::Down),
        _ => None,
    }
}

/// The direction indicator that the word names.
#[tactic(auto, unfolding(crate::specs::Words::indicator_of))]
pub(crate) fn indicator_of(text: &str) -> Option<DirInd>
    ensures { result ≡ indicator_of text.now }
{
    match text {
        "di-up" => Some(DirInd::Up),
        "di-down" => Some(DirInd::Down),
        "di-bidirectional" => Some(DirInd::Both),
        _ => None,
    }
}

/// The field length that the word names, one that is no number.
#[tactic(auto, unfolding(crate::specs::Words::length_word))]
pub(crate) fn length_word(text: &str) -> Option<Length>
    ensures { result ≡ length_word text.now }
{
    match text {
        "fl-variable" => Some(Length::Variable),
        "fl-token-length" => Some(Length::TokenLength),
        _ => None,
    }
}

/// The matching operator that the word names, one without a value.
#[tactic(auto, unfolding(crate::specs::Words::plain_operator))]
pub(crate) fn plain_operator(text: &str) -> Option<Operator>
    ensures { result ≡ plain_operator text.now }
{
    match text {
        "mo-equal" => Some(Operator::Equal),
        "mo-ignore" => Some(Operator::Ignore),
        "mo-match-mapping" => Some(Operator::MatchMapping),
        _ => None,
    }
}

/// The compression and decompression action that the word names.
#[tactic(auto, unfolding(crate::specs::Words::action_of))]
pub(crate) fn action_of(text: &str) -> Option<Action>
    ensures { result ≡ action_of text.now }
{
    match text {
        "cda-not-sent" => Some(Action::NotSent),
        "cda-value-sent" => Some(Action::ValueSent),
        "cda-mapping-sent" => Some(Action::MappingSent),
        "cda-lsb" => Some(Action::Lsb),
        "cda-compute" => Some(Action::Compute),
        "cda-deviid" => Some(Action::DevIid),
        "cda-appiid" => Some(Action::AppIid),
        _ => None,
    }
}

/// Whether fragments are answered, as a device's `mode` says: `acked`, or `noack`.
#[tactic(auto, unfolding(crate::specs::Words::acked_of))]
pub fn acked_of(word: &[u8]) -> Option<bool>
    ensures { result ≡ acked_of word.now }
{
    if word == b"acked".as_slice() {
        Some(true)
    } else if word == b"noack".as_slice() {
        Some(false)
    } else {
        None
    }
}

/// Where the last tile goes, as a device's `last` says: `all1`, or `regular` (RFC 8724 section
/// 8.4.3).
#[tactic(auto, unfolding(crate::specs::Words::last_tile_of))]
pub fn last_tile_of(word: &[u8]) -> Option<LastTile>
    ensures { result ≡ last_tile_of word.now }
{
    if word == b"all1".as_slice() {
        Some(LastTile::InAll1)
    } else if word == b"regular".as_slice() {
        Some(LastTile::InRegular)
    } else {
        None
    }
}

/// The word of a direction indicator.
#[tactic(auto, unfolding(crate::specs::Words::indicator_of))]
pub(crate) fn indicator_text(indicator: DirInd) -> &'static str
    ensures text { result.now ≡ indicator_text indicator }
    ensures back { indicator_of result.now ≡ Some indicator }
{
    match indicator {
        DirInd::Up => "di-up",
        DirInd::Down => "di-down",
        DirInd::Both => "di-bidirectional",
    }
}

/// The word of a matching operator.
pub(crate) fn operator_text(operator: Operator) -> &'static str
    ensures { result.now ≡ operator_text operator }
{
    match operator {
        Operator::Equal => "mo-equal",
        Operator::Ignore => "mo-ignore",
        Operator::Msb(_) => "mo-msb",
        Operator::MatchMapping => "mo-match-mapping",
    }
}

/// The word of an action.
#[tactic(auto, unfolding(crate::specs::Words::action_of))]
pub(crate) fn action_text(action: Action) -> &'static str
    ensures text { result.now ≡ action_text action }
    ensures back { action_of result.now ≡ Some action }
{
    match action {
        Action::NotSent => "cda-not-sent",
        Action::ValueSent => "cda-value-sent",
        Action::MappingSent => "cda-mapping-sent",
        Action::Lsb => "cda-lsb",
        Action::Compute => "cda-compute",
        Action::DevIid => "cda-deviid",
        Action::AppIid => "cda-appiid",
    }
}
