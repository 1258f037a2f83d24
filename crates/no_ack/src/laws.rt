//! What holds of every sender and every receiver in the No-ACK mode.

ghost use Rattle.no_ack.specs.Laws.{PreviewJoins, PreviewIsJoin, PreviewPasses, BeginsOne, StaysOne, KeepsSession, NoneDue, DueFits, All1Checks, TileArrives, LastArrives};

/// The bits that are joined are seen beforehand exactly where the message makes a check that passes.
pub fn preview_joins()
    ensures { PreviewJoins }
{}

/// There are such bits exactly where taking the message joins the packet.
pub fn preview_is_join()
    ensures { PreviewIsJoin }
{}

/// They are those over which the check is made, they pass it, and there is room for them.
pub fn preview_passes()
    ensures { PreviewPasses }
{}

/// A session that begins has a sender, with all that holds of one.
pub fn begins_one()
    ensures { BeginsOne }
{}

/// Each step of a sender leads to one.
pub fn stays_one()
    ensures { StaysOne }
{}

/// Each step of a sender keeps its parameters and its SCHC packet.
pub fn keeps_session()
    ensures { KeepsSession }
{}

/// No message is due exactly where the session has ended.
pub fn none_due()
    ensures { NoneDue }
{}

/// What is due can be written, and fits in a frame.
pub fn due_fits()
    ensures { DueFits }
{}

/// What is due and is read as an All-1 carries the check of the packet with its padding.
pub fn all1_checks()
    ensures { All1Checks }
{}

/// A Regular arrives with its tile and nothing behind it.
pub fn tile_arrives()
    ensures { TileArrives }
{}

/// The tiles of all Regulars and the payload of the All-1, as they arrive, are the packet with its
/// padding, over which the check is made.
pub fn last_arrives()
    ensures { LastArrives }
{}
