ghost use Rattle.std.specs.Prelude.{◌≡◌, ◌↔◌, true};
ghost use Rattle.schc_ids.specs.Ends.{other_role};
ghost use Rattle.schc_ids.specs.Fragments.{IsFragParams};
ghost use Rattle.lorawan_profile.specs.Ports.{
  fragments_by,
  meaning_between,
  meaning_from,
  meaning_of,
  is_whole,
  sending_of,
  answers_of,
  HasParams,
  IsSent,
};

use schc_ids::limits::{
    ACK_ALWAYS_PORT, ACK_ON_ERROR_PORT, FIRST_RESERVED_PORT, NO_ACK_DOWN_PORT, NO_ACK_UP_PORT,
};
use schc_ids::{Direction, FragMode, FragParams, Role};

/// What a frame carries that comes to an end by a port.
#[derive(Clone, Copy, Debug, PartialEq, Eq)]
pub enum PortMeaning {
    /// What a sender of fragments sends: the end receives, with these parameters.
    Fragments(FragParams),
    /// What a receiver of fragments sends: the end sends fragments, with these parameters.
    Answers(FragParams),
    /// A whole SCHC packet, whose RuleID is the port.
    Whole,
    /// Nothing that the end reads.
    Unknown,
}

/// The direction and the mode of the fragments that go by the port, if any do.
#[tactic(auto, unfolding(crate::specs::Ports::fragments_by))]
fn fragments_by(port: u8) -> Option<(Direction, FragMode)>
    ensures { result ≡ fragments_by port }
{
    match port {
        ACK_ON_ERROR_PORT => Some((Direction::Up, FragMode::AckOnError)),
        ACK_ALWAYS_PORT => Some((Direction::Down, FragMode::AckAlways)),
        NO_ACK_UP_PORT => Some((Direction::Up, FragMode::NoAck)),
        NO_ACK_DOWN_PORT => Some((Direction::Down, FragMode::NoAck)),
        _ => None,
    }
}

/// What comes to the end by a port by which fragments of the mode go in the direction.
fn meaning_between(role: Role, direction: Direction, mode: FragMode) -> PortMeaning
    ensures { result ≡ meaning_between role direction mode }
{
    match (role, direction) {
        (Role::Device, Direction::Down) | (Role::Gateway, Direction::Up) => {
            PortMeaning::Fragments(mode.params())
        }
        _ => match mode {
            FragMode::NoAck => PortMeaning::Unknown,
            FragMode::AckAlways | FragMode::AckOnError => PortMeaning::Answers(mode.params()),
        },
    }
}

/// What comes to the end by the port, by which these fragments go.
fn meaning_from(role: Role, port: u8, fragments: Option<(Direction, FragMode)>) -> PortMeaning
    ensures { result ≡ meaning_from role port fragments }
{
    match fragments {
        Some((direction, mode)) => meaning_between(role, direction, mode),
        None => {
            if port != 0 && port < FIRST_RESERVED_PORT {
                PortMeaning::Whole
            } else {
                PortMeaning::Unknown
            }
        }
    }
}

/// What comes to the end by the port (FPort), which is the RuleID (RFC 9011 section 5.1).
#[tactic(auto, unfolding(crate::specs::Ports::meaning_of))]
pub fn meaning(role: Role, port: u8) -> PortMeaning
    ensures exact { result ≡ meaning_of role port }
    ensures params { HasParams result }
    ensures sent { IsSent role port result }
    ensures whole { (result ≡ PortMeaning.Whole) ↔ (is_whole port ≡ true) }
{
    meaning_from(role, port, fragments_by(port))
}

/// The port by which an end sends the fragments of a packet, and their parameters: `acked` says
/// whether they are answered.
#[tactic(auto, unfolding(crate::specs::Ports::meaning_of, crate::specs::Ports::fragments_by))]
pub fn sending(role: Role, acked: bool) -> (u8, FragParams)
    ensures exact { result ≡ sending_of role acked }
    ensures params { IsFragParams result.1 }
    ensures taken { meaning_of (other_role role) result.0 ≡ PortMeaning.Fragments result.1 }
    ensures answers { meaning_of role result.0 ≡ answers_of acked result.1 }
{
    match (role, acked) {
        (Role::Device, true) => (ACK_ON_ERROR_PORT, FragMode::AckOnError.params()),
        (Role::Device, false) => (NO_ACK_UP_PORT, FragMode::NoAck.params()),
        (Role::Gateway, true) => (ACK_ALWAYS_PORT, FragMode::AckAlways.params()),
        (Role::Gateway, false) => (NO_ACK_DOWN_PORT, FragMode::NoAck.params()),
    }
}
