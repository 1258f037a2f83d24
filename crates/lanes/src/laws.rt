//! What holds of every run of a lane.

ghost use Rattle.lanes.specs.Laws.{Checked, JoinsPadded, Earned, Arrived, WaitsWell, HoldsTiles};
ghost use Rattle.lanes.specs.Rounds.{Clean};

/// Each All-1 that was sent carries the RCS of its session's padded packet, and each assembly that
/// passed a check has the RCS of the session of the All-1, which had begun earlier.
pub fn checked()
    ensures { Checked }
{}

/// Where no wrong assembly has a session's RCS, each assembly that passed a check is the padded
/// packet of its session, which had begun earlier.
pub fn joins_padded()
    ensures { JoinsPadded }
{}

/// In a fresh run each session that is reported delivered was joined earlier.
pub fn earned()
    ensures { Earned }
{}

/// In a fresh run where no wrong assembly has a session's RCS, what was joined earlier is the padded
/// packet of the session that is reported delivered.
pub fn arrived()
    ensures { Arrived }
{}

/// A sender that waits for an answer has nothing to send, and has made one request to eight since an
/// answer counted.
pub fn waits_well()
    ensures { WaitsWell }
{}

/// In a fresh run the tiles that a receiver of ACK-on-Error holds while it gathers are tiles of the
/// session that began last, each at the place with its number.
pub fn holds_tiles()
    ensures { HoldsTiles }
{}

/// Where nothing is lost, a session joins its padded packet once, and ends as sent or as delivered,
/// after at most one round more than it has tiles.
pub fn clean()
    ensures { Clean }
{}
