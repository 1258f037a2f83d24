//! The two ends of a link, the directions between them, and what an end is made with.

ghost use Rattle.std.specs.Prelude.{◌≡◌};
ghost use Rattle.schc_ids.specs.Ends.{other_role, sent_direction, covers, share_direction};
ghost use Rattle.schc_ids.specs.Params.{IsParams, default_params};

use crate::limits::MAX_MTU;

/// One of the two ends of the link.
#[derive(Clone, Copy, Debug, PartialEq, Eq)]
pub enum Role {
    /// The device on the low-power link.
    Device,
    /// The network's side of that link.
    Gateway,
}

impl Role {
    /// The end at the other side of the link.
    pub fn other(self) -> Role
        ensures { result ≡ other_role self }
    {
        match self {
            Role::Device => Role::Gateway,
            Role::Gateway => Role::Device,
        }
    }

    /// The direction of what this end sends.
    pub fn sends(self) -> Direction
        ensures { result ≡ sent_direction self }
    {
        match self {
            Role::Device => Direction::Up,
            Role::Gateway => Direction::Down,
        }
    }
}

/// The direction of a packet (RFC 8724 section 7.1).
#[derive(Clone, Copy, Debug, PartialEq, Eq)]
pub enum Direction {
    /// From the device to the gateway.
    Up,
    /// From the gateway to the device.
    Down,
}

/// The direction indicator (DI) of a rule's entry, RFC 8724 section 7.1.
#[derive(Clone, Copy, Debug, PartialEq, Eq)]
pub enum DirInd {
    /// Packets from the device to the gateway.
    Up,
    /// Packets from the gateway to the device.
    Down,
    /// Packets of both directions (Bi in the standard).
    Both,
}

/// Whether an entry with this indicator is used for packets of this direction.
pub fn covers(indicator: DirInd, direction: Direction) -> bool
    ensures { result ≡ covers indicator direction }
{
    match (indicator, direction) {
        (DirInd::Both, _) => true,
        (DirInd::Up, Direction::Up) => true,
        (DirInd::Down, Direction::Down) => true,
        _ => false,
    }
}

/// Whether some direction is among those of both indicators.
pub fn share_direction(a: DirInd, b: DirInd) -> bool
    ensures { result ≡ share_direction a b }
{
    (covers(a, Direction::Up) && covers(b, Direction::Up))
        || (covers(a, Direction::Down) && covers(b, Direction::Down))
}

/// The interface identifiers of the device and of the application, which entries with the actions
/// DevIID and AppIID restore (RFC 8724 section 7.4.7).
#[derive(Clone, Copy, Debug, PartialEq, Eq)]
pub struct Iids {
    /// The device's, the last 64 bits of its address.
    pub dev: u64,
    /// The application's, the last 64 bits of its address.
    pub app: u64,
}

/// Where the last tile of an SCHC packet goes in ACK-on-Error (RFC 8724 section 8.4.3).
#[derive(Clone, Copy, Debug, PartialEq, Eq)]
pub enum LastTile {
    /// In the All-1 fragment.
    InAll1,
    /// In a Regular fragment; the All-1 has no tile then.
    InRegular,
}

/// For how many ticks each timer of a session runs, 1 to 1,000,000 each.
#[derive(Clone, Copy, Debug, PartialEq, Eq)]
pub struct TimerTicks {
    /// Until a request that wasn't answered is made again (RFC 8724 section 8.2.2.4).
    pub retransmission: u32,
    /// Until a receiver that hears nothing gives up (RFC 8724 section 8.2.2.4).
    pub inactivity: u32,
    /// For how long a receiver that has finished still answers.
    pub linger: u32,
    /// For how long a sender keeps silent after a session.
    pub quiet: u32,
}

/// What an end is made with.
#[derive(Clone, Copy, Debug, PartialEq, Eq)]
pub struct EndParams {
    /// What DevIID and AppIID restore.
    pub iids: Iids,
    /// The most bytes that a frame has, 15 to 242.
    pub mtu: u16,
    /// Whether the fragments that this end sends are answered (ACK-on-Error and ACK-Always), or
    /// not (No-ACK).
    pub acked: bool,
    /// Where the last tile goes in ACK-on-Error.
    pub last: LastTile,
    /// How long each timer runs.
    pub ticks: TimerTicks,
}

impl EndParams {
    /// An end with these interface identifiers, and everything else as it is where nothing is said:
    /// frames of up to 242 bytes, answered fragments, the last tile in the All-1, and 10, 40, 40
    /// and 100 ticks.
    pub fn with_defaults(iids: Iids) -> EndParams
        ensures exact { result ≡ default_params iids }
        ensures in_range { IsParams result }
    {
        EndParams {
            iids,
            mtu: MAX_MTU,
            acked: true,
            last: LastTile::InAll1,
            ticks: TimerTicks {
                retransmission: 10,
                inactivity: 40,
                linger: 40,
                quiet: 100,
            },
        }
    }
}
