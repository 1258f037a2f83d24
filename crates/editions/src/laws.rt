//! What holds of every chain of editions, and of the order of its rules.

ghost use Rattle.editions.specs.Chains.{OneMeaning};
ghost use Rattle.editions.specs.Followed.{OneOrder};

/// In one chain a RuleID never gets a second meaning: of any two editions of the chain, the later
/// one has each RuleID of the earlier one with the same rule, and what is retired stays retired.
pub fn one_meaning()
    ensures { OneMeaning }
{}

/// Rules of which no two have a RuleID have one order: the list of them in which the RuleIDs
/// strictly ascend, which is the list that an edition has.
pub fn one_order()
    ensures { OneOrder }
{}
