use crate::names::FieldAt;

/// Why the residue of an entry can't be read.
#[derive(Clone, Copy, Debug, PartialEq, Eq)]
pub enum ResidueFault {
    /// Fewer bits are left than the entry needs.
    Short,
    /// A mapping index that isn't below the number of targets.
    IndexTooLarge,
    /// A size in a longer form than it needs (RFC 8724 section 7.4.2).
    NonMinimalSize,
}

/// Why an SCHC packet can't be unpacked.
#[derive(Clone, Copy, Debug, PartialEq, Eq)]
pub enum UnpackFault {
    /// No rule with this RuleID reads packets of the direction.
    UnknownRule(u16),
    /// The residue of this entry, numbered from 1 in the rule's list, can't be read. Entry 0 stands
    /// for the RuleID.
    BadResidue(u64, ResidueFault),
    /// The restored fields make no packet; this is the first field that is wrong.
    BadPacket(FieldAt),
    /// Memory is wanting.
    Memory,
}

/// Why a fragment or an answer can't be read.
#[derive(Clone, Copy, Debug, PartialEq, Eq)]
pub enum WireFault {
    /// It has no byte.
    Empty,
    /// It has fewer bytes than its form has.
    TooShort,
    /// It has no form of a message.
    WrongForm,
}
