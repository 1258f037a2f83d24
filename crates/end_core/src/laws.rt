//! What an end hands up, as a statement over all ends and frames.

ghost use Rattle.end_core.specs.Laws.{HandsUpExactly};

/// An end hands a packet up exactly where the bits that it reads of the frame say that packet, by the
/// edition that it knows: the bits of an SCHC packet that the frame carries whole, or those of the
/// assembly with which the check of a receiver passes. So it hands up at most one.
pub fn hands_up_exactly()
    ensures { HandsUpExactly }
{}
