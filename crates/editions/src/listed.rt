//! The rules of an edition.

ghost use Rattle.std.specs.Prelude.{◌≡◌, option_copied};
ghost use Rattle.editions.specs.Data.{IsAscending, lookup};

use rule_model::Admitted;
use schc_bits::Same;

/// A rule that an edition lists under its RuleID.
#[derive(Drop)]
pub struct Listed {
    pub rule: Admitted,
    /// Whether packets are written with the rule. A retired rule is only read by.
    pub live: bool,
}

impl Same for Listed {
    fn same(&self, other: &Listed) -> bool {
        self.live == other.live && self.rule.same(&other.rule)
    }
}

/// The rule's RuleID.
pub(crate) fn id_of(listed: &Listed) -> u16
    ensures { result ≡ listed.now.rule.id }
{
    listed.rule.rule().id
}

/// What is listed under the RuleID.
pub(crate) fn lookup(rules: &[Listed], id: u16) -> Option<&Listed>
    ensures { option_copied result ≡ lookup rules.now id }
{
    rules.iter().find(|listed| id_of(listed) == id)
}

/// What is listed under the RuleID, in rules in ascending order of RuleID.
pub(crate) fn lookup_sorted(rules: &[Listed], id: u16) -> Option<&Listed>
    requires { IsAscending rules.now }
    ensures { option_copied result ≡ lookup rules.now id }
{
    match rules.binary_search_by_key(&id, |listed| id_of(listed)) {
        Ok(place) => Some(&rules[place]),
        Err(_) => None,
    }
}
