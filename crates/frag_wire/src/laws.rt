//! What holds of all messages.

ghost use Rattle.frag_wire.specs.Laws.{SpelledOnce, NeverBoth, ReadsBack, WritesAll, KeepsLeast};

/// Bytes are at most one message with one payload.
pub fn spelled_once()
    ensures { SpelledOnce }
{}

/// Bytes that are a message are not refused.
pub fn never_both()
    ensures { NeverBoth }
{}

/// What was written is read again as the same message, with the same payload and fewer than eight
/// zero bits after it.
pub fn reads_back()
    ensures { ReadsBack }
{}

/// What some bytes are, with fewer than eight zero bits after the payload, can be written.
pub fn writes_all()
    ensures { WritesAll }
{}

/// Of an answer the least number of bits is sent that has each 0 of the bitmap and fills whole
/// bytes, or has the whole bitmap.
pub fn keeps_least()
    ensures { KeepsLeast }
{}
