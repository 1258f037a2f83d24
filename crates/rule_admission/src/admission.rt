//! The admission check.

ghost use Rattle.std.specs.Prelude.{◌≡◌, IfOk, IfErr};
ghost use Rattle.rule_model.specs.Findings.{IsAdmitted};
ghost use Rattle.rule_admission.specs.Faults.{IsFaultOf};
ghost use Rattle.rule_admission.specs.declared.admission.AdmitFault.TheVariants.{Memory};

use crate::places::finding_of;
use rule_model::{Admitted, Finding, Rule};
use std::alloc::{AllocError, Global};

/// Why a rule isn't admitted.
#[derive(Clone, Copy, Debug, PartialEq, Eq)]
pub enum AdmitFault {
    /// The first finding that holds, at its first entry.
    Found(Finding),
    /// Memory is wanting.
    Memory,
}

impl From<AllocError> for AdmitFault {
    ghost from_gives = { λ _ fault. fault ≡ Memory };

    fn from(_fault: AllocError) -> AdmitFault {
        AdmitFault::Memory
    }
}

/// Admits the rule exactly where no finding holds. Where one is found the rule isn't admitted.
///
/// # Errors
/// The first finding that holds, in the order of their numbers, at its first entry; or want of
/// memory.
pub fn admit(alloc: Global, rule: Rule) -> Result<Admitted, AdmitFault>
    ensures ok { IfOk result (λ admitted. (admitted ≡ rule) × IsAdmitted rule) }
    ensures err { IfErr result (λ fault. IsFaultOf rule fault) }
{
    match finding_of(&rule) {
        Some(finding) => Err(AdmitFault::Found(finding)),
        None => Ok(Admitted::new(alloc, rule)?),
    }
}
