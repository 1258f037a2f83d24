//! How packing and unpacking belong together, as statements over all editions, packets and bits.

ghost use Rattle.packer.specs.Laws.{
  PacksChosen,
  UnpacksExactly,
  ReadsWhatWasWritten,
  KeepsWhereNothingIsDropped,
  DiffersOnlyWhereDropped,
  OneRestoredPacket,
};

/// A packet is written under the live rule that matches it and gives the fewest bits, and of
/// several such the one with the lowest RuleID, as its SCHC packet; and where none matches, as it
/// is, under the RuleID of packets that no rule compresses.
pub fn packs_chosen()
    ensures { PacksChosen }
{}

/// What is read is what the bits say, and all that they say is read. So they say at most one
/// packet.
pub fn unpacks_exactly()
    ensures { UnpacksExactly }
{}

/// A packet that was written with one edition is read with another that has the same rule under its
/// RuleID, with up to 7 bits behind it: as the packet that the other end restores.
pub fn reads_what_was_written()
    ensures { ReadsWhatWasWritten }
{}

/// Where a rule that matches a packet drops nothing in the direction, the other end restores that
/// packet, byte by byte.
pub fn keeps_where_nothing_is_dropped()
    ensures { KeepsWhereNothingIsDropped }
{}

/// A field of the restored packet has another value than the packet's only where the rule drops it
/// in the direction: every other field arrives as it was.
pub fn differs_only_where_dropped()
    ensures { DiffersOnlyWhereDropped }
{}

/// Of a packet that an admitted rule matches there is exactly one restored packet. So what is
/// handed up as the restored packet of what was handed down is what the rule keeps of it, and
/// nothing else.
pub fn one_restored_packet()
    ensures { OneRestoredPacket }
{}
