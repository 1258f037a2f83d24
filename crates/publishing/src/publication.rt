//! Publication: rules that are handed in are admitted, and become the next edition.

ghost use Rattle.std.specs.Prelude.{◌≡◌, [], ◌∷◌, ◌++◌, None, Ok, IfOk, IfErr, OnOk};
ghost use Rattle.editions.specs.Data.{IsSound};
ghost use Rattle.editions.specs.Faults.{IsMadeOf};
ghost use Rattle.editions.specs.Followed.{followed};
ghost use Rattle.editions.specs.Follows.{Follows};
ghost use Rattle.publishing.specs.Published.{refusal, first_refusal, listed_rule, listed_rules, published};
ghost use Rattle.publishing.specs.Faults.{IsFoundIn, IsFindingOf};
ghost use Rattle.publishing.specs.declared.publication.PublishFault.TheVariants.{Memory};

use editions::{Edition, FollowFault, Listed, follow};
use rule_admission::{AdmitFault, admit};
use rule_model::{Finding, RawEdition, RawRule};
use schc_bits::CopyItem;
use std::alloc::{AllocError, Global};

/// Why an edition that is handed in isn't published.
#[derive(Clone, Copy, Debug, PartialEq, Eq)]
pub enum PublishFault {
    /// The first finding that holds: those of the rules in the list's order, and then what keeps
    /// the rules together from being the next edition.
    Found(Finding),
    /// Memory is wanting.
    Memory,
}

impl From<AllocError> for PublishFault {
    ghost from_gives = { λ _ fault. fault ≡ Memory };

    fn from(_fault: AllocError) -> PublishFault {
        PublishFault::Memory
    }
}

/// A copy of the rule, admitted, as an edition lists it.
#[tactic(auto, unfolding(crate::specs::Published::refusal))]
fn admitted_rule(alloc: Global, raw: &RawRule) -> Result<Listed, PublishFault>
    ensures listed { IfOk result (λ listed. listed ≡ listed_rule raw.now) }
    ensures admitted { IfOk result (λ _. refusal raw.now ≡ None) }
    ensures err { IfErr result (λ fault. IsFoundIn (refusal raw.now) fault) }
{
    let copy = raw.rule.copy_item(alloc)?;
    match admit(alloc, copy) {
        Ok(rule) => Ok(Listed {
            rule,
            live: raw.live,
        }),
        Err(AdmitFault::Found(finding)) => Err(PublishFault::Found(finding)),
        Err(AdmitFault::Memory) => Err(PublishFault::Memory),
    }
}

fn push_listed(rules: &mut Vec<Listed>, listed: Listed) -> Result<(), AllocError>
    ensures { OnOk result (rules.new.items ≡ rules.old.items ++ listed ∷ []) }
{
    rules.push(listed)?;
    Ok(())
}

/// Copies of the rules, each admitted, in their order.
fn admitted_rules(alloc: Global, raws: &[RawRule]) -> Result<Vec<Listed>, PublishFault>
    ensures listed { IfOk result (λ rules. rules.items ≡ listed_rules raws.now) }
    ensures admitted { IfOk result (λ _. first_refusal raws.now ≡ None) }
    ensures err { IfErr result (λ fault. IsFoundIn (first_refusal raws.now) fault) }
{
    let mut rules = Vec::new(alloc);
    for raw in raws {
        match admitted_rule(alloc, raw) {
            Ok(listed) => push_listed(&mut rules, listed)?,
            Err(fault) => return Err(fault),
        }
    }
    Ok(rules)
}

fn followed_by(
    alloc: Global,
    old: &Edition,
    number: u32,
    rules: Vec<Listed>,
) -> Result<Edition, PublishFault>
    ensures made { IfOk result (λ new. IsMadeOf number rules.items new) }
    ensures follows { IfOk result (λ new. Follows old.now new) }
    ensures sound { IfOk result (λ new. IsSound new) }
    ensures next { IfOk result (λ new. followed old.now number rules.items ≡ Ok new) }
    ensures finding { IfErr result (λ fault. IsFindingOf (followed old.now number rules.items) fault) }
{
    match follow(alloc, old, number, rules) {
        Ok(new) => Ok(new),
        Err(FollowFault::Found(finding)) => Err(PublishFault::Found(finding)),
        Err(FollowFault::Memory) => Err(PublishFault::Memory),
    }
}

/// The edition that is made of exactly the rules of the one that is handed in, each admitted, in
/// ascending order of RuleID, and that follows the old one. The edition that is handed in stays as
/// it is.
///
/// # Errors
/// Want of memory, or the first finding that holds: that of the first rule in the list's order that
/// isn't admitted, and then what `editions::follow` finds.
#[tactic(auto, unfolding(crate::specs::Published::published))]
pub fn publish(alloc: Global, old: &Edition, raw: &RawEdition) -> Result<Edition, PublishFault>
    ensures made { IfOk result (λ new. IsMadeOf raw.now.number (listed_rules raw.now.rules) new) }
    ensures follows { IfOk result (λ new. Follows old.now new) }
    ensures sound { IfOk result (λ new. IsSound new) }
    ensures next { IfOk result (λ new. published old.now raw.now ≡ Ok new) }
    ensures finding { IfErr result (λ fault. IsFindingOf (published old.now raw.now) fault) }
{
    match admitted_rules(alloc, raw.rules.as_slice()) {
        Ok(rules) => followed_by(alloc, old, raw.number, rules),
        Err(fault) => Err(fault),
    }
}
