//! The laws of writing and reading a residue, as functions that do nothing.

ghost use Rattle.decompress.specs.Stands.{ReadsBack, ReadsExactly};

/// What is written of the fields of a packet that a rule matches is read back, whatever follows:
/// each field as the other end restores it.
pub fn reads_back()
    ensures { ReadsBack }
{}

/// What is read is what stands there, and all that stands there is read. So at most one list of
/// fields stands at a place.
pub fn reads_exactly()
    ensures { ReadsExactly }
{}
