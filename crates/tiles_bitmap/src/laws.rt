//! What holds of the tiles of every SCHC packet.

ghost use Rattle.tiles_bitmap.specs.Laws.{CutOnce, TilesJoin, TilesFit, TilesAreLarge, CountsTiles, NumbersName, EndsAscend, RunsAreLongest};

/// The sizes are those that the definition of tiles says, and there are no others.
pub fn cut_once()
    ensures { CutOnce }
{}

/// The tiles in their order are the packet.
pub fn tiles_join()
    ensures { TilesJoin }
{}

/// Each tile but the last fills whole bytes with its header, in a frame that isn't too long; the
/// last one fits in an All-1.
pub fn tiles_fit()
    ensures { TilesFit }
{}

/// In No-ACK and ACK-Always each tile has at least eight bits, in ACK-on-Error at least one.
pub fn tiles_are_large()
    ensures { TilesAreLarge }
{}

/// In ACK-on-Error there is a tile for each 80 bits, and one for what is left.
pub fn counts_tiles()
    ensures { CountsTiles }
{}

/// In ACK-on-Error the numbers of a tile lead back to its index.
pub fn numbers_name()
    ensures { NumbersName }
{}

/// Each tile ends above the one before, and the last where the packet ends.
pub fn ends_ascend()
    ensures { EndsAscend }
{}

/// In ACK-on-Error a Regular carries the longest front of the numbers that follow its first one
/// without a gap in one window.
pub fn runs_are_longest()
    ensures { RunsAreLongest }
{}
