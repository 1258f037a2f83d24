//! What holds of every end.

ghost use Rattle.sessions.specs.Laws.{PreviewJoins};

/// A preview gives bits exactly where taking the frame is noted as joined.
pub fn preview_joins()
    ensures { PreviewJoins }
{}
