//! What holds of every receiver.

ghost use Rattle.aoe_receiver.specs.Laws.{PreviewJoins, PreviewPasses, PreviewFits};

/// A preview is there exactly where the message joins, and it is the assembly over which the check
/// is made.
pub fn preview_joins()
    ensures { PreviewJoins }
{}

/// What a preview gives has the check of the All-1 with which it is made.
pub fn preview_passes()
    ensures { PreviewPasses }
{}

/// There is room for what a preview gives.
pub fn preview_fits()
    ensures { PreviewFits }
{}
