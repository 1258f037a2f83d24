//! What keeps a draft from becoming a rule, an edition or a packet.

use editions::FollowFault;
use rule_admission::AdmitFault;
use rule_model::Finding;
use std::alloc::AllocError;

/// Why nothing was made of a draft.
#[derive(Clone, Copy, Debug, PartialEq, Eq)]
pub enum DraftFault {
    /// The first finding that holds of the rule or the edition.
    Found(Finding),
    /// The digits aren't hexadecimal, or don't make whole bytes.
    NotHex,
    /// Memory is wanting.
    Memory,
}

impl From<AllocError> for DraftFault {
    fn from(_fault: AllocError) -> DraftFault {
        DraftFault::Memory
    }
}

impl From<AdmitFault> for DraftFault {
    fn from(fault: AdmitFault) -> DraftFault {
        match fault {
            AdmitFault::Found(finding) => DraftFault::Found(finding),
            AdmitFault::Memory => DraftFault::Memory,
        }
    }
}

impl From<FollowFault> for DraftFault {
    fn from(fault: FollowFault) -> DraftFault {
        match fault {
            FollowFault::Found(finding) => DraftFault::Found(finding),
            FollowFault::Memory => DraftFault::Memory,
        }
    }
}
