use rule_model::RawEdition;
use schc_bits::Octets;
use schc_ids::{Direction, Role};

/// The ends at which a tick passes.
#[derive(Clone, Copy, Debug, PartialEq, Eq)]
pub enum Target {
    Device,
    Gateway,
    Both,
}

/// What can happen to the two ends, to the network between them and to the rules.
#[derive(Drop)]
pub enum WorldEvent {
    /// A packet is handed down at this end.
    Down(Role, Octets),
    /// This end may send one frame.
    Slot(Role),
    /// The frame that was sent as this one in the direction, counted from 1, arrives at the other end.
    Deliver(Direction, u64),
    /// One tick of time passes at these ends.
    Tick(Target),
    /// This end gives up the session that it sends.
    Abort(Role),
    /// An edition of rules is published as the next one.
    Publish(RawEdition),
    /// This end is offered the edition with this number.
    Offer(Role, u32),
    /// This end is allowed to write with the edition with this number.
    Allow(Role, u32),
}
