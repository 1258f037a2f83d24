//! What holds of every sender.

ghost use Rattle.aoe_sender.specs.Laws.{BeginsSound, StaysSound, KeepsSession, NoneDue, SpellsDue, TilesArePacket, SendsPacket, OnePadding, All1Checks, PacketArrives};

/// A session that begins is a sender: its numbers ascend and are those of tiles that go in
/// Regulars, and its attempts are within their bound.
pub fn begins_sound()
    ensures { BeginsSound }
{}

/// Each step leaves a sender.
pub fn stays_sound()
    ensures { StaysSound }
{}

/// The bytes that are given spell the message that is due with its payload.
pub fn spells_due()
    ensures { SpellsDue }
{}

/// The tiles of the Regulars in their order and then the tile of the All-1 are the SCHC packet with
/// its padding.
pub fn tiles_are_packet()
    ensures { TilesArePacket }
{}

/// A session that begins sends the SCHC packet with its padding before it waits.
pub fn sends_packet()
    ensures { SendsPacket }
{}

/// Each step of a sender keeps what it was begun with.
pub fn keeps_session()
    ensures { KeepsSession }
{}

/// No message is due exactly while the sender waits and when the session has ended.
pub fn none_due()
    ensures { NoneDue }
{}

/// The packet with its padding is the same as in the other modes, wherever the last tile goes.
pub fn one_padding()
    ensures { OnePadding }
{}

/// What is due and is read as an All-1 carries the check of the packet with its padding.
pub fn all1_checks()
    ensures { All1Checks }
{}

/// The tiles of the Regulars in their order and then the tile of the All-1 are that packet.
pub fn packet_arrives()
    ensures { PacketArrives }
{}
