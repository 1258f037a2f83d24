//! What the next edition may not do to the rules of an edition.

ghost use Rattle.std.specs.Prelude.{ℕ, ◌≡◌, MatchOption, option_copied};
ghost use Rattle.editions.specs.Data.{IsAscending};
ghost use Rattle.editions.specs.Losses.{HasSameRule, StaysRetired, IsFirstLoss, kind_of_loss, KeepsId, IsLowestLoss};

use crate::listed::{Listed, id_of, lookup};
use rule_model::FindingKind;
use schc_bits::Same;

/// What is lost of a RuleID of an edition.
#[derive(Clone, Copy, Debug, PartialEq, Eq)]
pub enum Loss {
    /// It isn't listed any more.
    IdGone,
    /// Another rule is listed under it.
    MeaningChanged,
    /// It was retired and is live.
    Revived,
}

impl Loss {
    /// The kind of the finding.
    pub fn kind(self) -> FindingKind
        ensures { result ≡ kind_of_loss self }
    {
        match self {
            Loss::IdGone => FindingKind::IdGone,
            Loss::MeaningChanged => FindingKind::MeaningChanged,
            Loss::Revived => FindingKind::Revived,
        }
    }
}

/// A loss, and the RuleID of which it is.
#[derive(Clone, Copy, Debug, PartialEq, Eq)]
pub struct LostId {
    pub id: u16,
    pub loss: Loss,
}

/// The first loss, in the order of their numbers, between what was listed under a RuleID and what
/// is.
fn loss_of(was: &Listed, now: Option<&Listed>) -> Option<Loss>
    ensures { MatchOption result (HasSameRule was.now (option_copied now.entry) × StaysRetired was.now (option_copied now.entry))
        (IsFirstLoss was.now (option_copied now.entry)) }
{
    match now {
        None => Some(Loss::IdGone),
        Some(listed) => {
            if !listed.rule.same(&was.rule) {
                Some(Loss::MeaningChanged)
            } else if listed.live && !was.live {
                Some(Loss::Revived)
            } else {
                None
            }
        }
    }
}

/// The lowest RuleID of the old rules of which there is a loss in the new ones, with its loss.
pub fn lowest_loss(old: &[Listed], new: &[Listed]) -> Option<LostId>
    requires { IsAscending old.now }
    ensures { MatchOption result ((id : ℕ) → KeepsId old.now new.now id) (λ lost. IsLowestLoss old.now new.now lost.id lost.loss) }
{
    for was in old {
        let id = id_of(was);
        if let Some(loss) = loss_of(was, lookup(new, id)) {
            return Some(LostId { id, loss });
        }
    }
    None
}
