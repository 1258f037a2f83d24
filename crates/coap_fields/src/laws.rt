//! How splitting and joining belong together, as statements over all messages and fields.

ghost use Rattle.coap_fields.specs.Counting.{AreSpellableExactly, CountsPositions};
ghost use Rattle.coap_fields.specs.Laws.{HasCoapFields, IsSpelledOnce, ReadsExactly, StopsExactly, StopsWithin, HasOneSplit, JoinsAgain, MakesAgain, HaveOnePacket};

/// Messages with one spelling are one.
pub fn spelled_once()
    ensures { IsSpelledOnce }
{}

/// A message is read from bytes exactly where they spell it, with its fields and the place of its
/// payload.
pub fn split_reads_exactly()
    ensures { ReadsExactly }
{}

/// No message is read, for this place, exactly where the bytes stop to be one there: the first byte
/// for another version than 1 or a token of more than 8 bytes, the first byte of an option for four bits of 15,
/// a number above 65,535, or one that stands there for the 65,536th time, and the end where bytes
/// lack or nothing follows the marker. It is at most their number.
pub fn stops_exactly()
    ensures exactly { StopsExactly }
    ensures within { StopsWithin }
{}

/// Splitting what was joined gives the same fields and payload: bytes have one list of fields and
/// one place of the payload, and `join` ensures which.
pub fn joined_then_split()
    ensures { HasOneSplit }
{}

/// Joining what was split gives the same message: it isn't refused, and makes the same bytes.
pub fn split_then_joined()
    ensures joins { JoinsAgain }
    ensures makes { MakesAgain }
    ensures one { HaveOnePacket }
{}

/// Options can stand in a message exactly where their numbers ascend and are at most 65,535, none
/// stands more than 65,535 times, and each value is at most 65,804 bytes; and their positions count
/// the options of one number from 1.
pub fn options_count()
    ensures exactly { AreSpellableExactly }
    ensures positions { CountsPositions }
{}

/// The fields of each message are of CoAP, in packet order and so each once, with their widths; a
/// token has the bits that the token length field says, and an option's value is whole bytes.
pub fn fields_are_sized()
    ensures { HasCoapFields }
{}
