//! What holds of every receiver.

ghost use Rattle.aa_receiver.specs.Laws.{PreviewJoins, PreviewPasses, PreviewFits};

/// A preview gives bits exactly where taking the message joins the packet.
pub fn preview_joins()
    ensures { PreviewJoins }
{}

/// A preview gives the bits over which the check is made, and they pass it.
pub fn preview_passes()
    ensures { PreviewPasses }
{}

/// There is room for the bits that a preview gives.
pub fn preview_fits()
    ensures { PreviewFits }
{}
