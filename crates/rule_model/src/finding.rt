//! What keeps a rule, or an edition of rules, from being used.

ghost use Rattle.std.specs.Prelude.{◌≡◌, ◌==◌, find};
ghost use Rattle.rule_model.specs.Findings.{rule_kinds, all_kinds, number_of};
ghost use Rattle.rule_model.specs.FindingNames.{kind_name, finding_name};

/// A finding: its number, the RuleID it is about, and the entry, numbered from 1, or 0 where it is
/// about no single entry.
#[derive(Clone, Copy, Debug, PartialEq, Eq)]
pub struct Finding {
    pub number: u8,
    pub id: u16,
    pub entry: u64,
}

impl Finding {
    /// The finding's name, as it is printed.
    pub fn name(self) -> &'static str
        ensures { result.now ≡ finding_name self.number }
    {
        match kind_with(self.number) {
            Some(kind) => kind.name(),
            None => "unknown",
        }
    }
}

/// The kinds of findings, in the order of their numbers.
#[derive(Clone, Copy, Debug, PartialEq, Eq)]
pub enum FindingKind {
    /// The RuleID is 0 or above 223.
    IdOutOfRange,
    /// The RuleID is one that fragments or uncompressed packets have.
    IdReserved,
    /// Two rules of an edition have one RuleID.
    IdTwice,
    /// A CoAP field stands without a UDP field, or a UDP field without an IPv6 field.
    MixedStack,
    /// An entry repeats an earlier one.
    FieldTwice,
    /// In neither direction are all fields of the stack covered.
    ServesNoDirection,
    /// The entry's length or position isn't one of the field's.
    ShapeWrong,
    /// Operator and action don't go together.
    PairNotAllowed,
    /// The targets aren't those that the operator needs, or not of the field.
    TargetWrong,
    /// The number of bits of MSB isn't one that the target allows.
    MsbWrong,
    /// The field may not be ignored and not sent.
    NotDroppable,
    /// The field can't be computed so.
    ComputeWrong,
    /// The token stands before its length.
    OrderWrong,
    /// The edition's number isn't the next one.
    NumberNotNext,
    /// A RuleID of the edition before isn't listed.
    IdGone,
    /// A RuleID of the edition before has another rule.
    MeaningChanged,
    /// A RuleID that was retired is live.
    Revived,
    /// The edition is above a limit.
    TooLarge,
}

const ALL_KINDS: [FindingKind; 18] = [
    FindingKind::IdOutOfRange,
    FindingKind::IdReserved,
    FindingKind::IdTwice,
    FindingKind::MixedStack,
    FindingKind::FieldTwice,
    FindingKind::ServesNoDirection,
    FindingKind::ShapeWrong,
    FindingKind::PairNotAllowed,
    FindingKind::TargetWrong,
    FindingKind::MsbWrong,
    FindingKind::NotDroppable,
    FindingKind::ComputeWrong,
    FindingKind::OrderWrong,
    FindingKind::NumberNotNext,
    FindingKind::IdGone,
    FindingKind::MeaningChanged,
    FindingKind::Revived,
    FindingKind::TooLarge,
];

const RULE_KINDS: [FindingKind; 12] = [
    FindingKind::IdOutOfRange,
    FindingKind::IdReserved,
    FindingKind::MixedStack,
    FindingKind::FieldTwice,
    FindingKind::ServesNoDirection,
    FindingKind::ShapeWrong,
    FindingKind::PairNotAllowed,
    FindingKind::TargetWrong,
    FindingKind::MsbWrong,
    FindingKind::NotDroppable,
    FindingKind::ComputeWrong,
    FindingKind::OrderWrong,
];

impl FindingKind {
    /// The kinds that are about one rule, in the order of their numbers. The others are about an
    /// edition.
    pub fn of_rules() -> &'static [FindingKind]
        ensures { result.now ≡ rule_kinds }
    {
        &RULE_KINDS
    }

    /// The number of a finding of this kind.
    pub fn number(self) -> u8
        ensures { result ≡ number_of self }
    {
        match self {
            FindingKind::IdOutOfRange => 1,
            FindingKind::IdReserved => 2,
            FindingKind::IdTwice => 3,
            FindingKind::MixedStack => 4,
            FindingKind::FieldTwice => 5,
            FindingKind::ServesNoDirection => 6,
            FindingKind::ShapeWrong => 7,
            FindingKind::PairNotAllowed => 8,
            FindingKind::TargetWrong => 9,
            FindingKind::MsbWrong => 10,
            FindingKind::NotDroppable => 11,
            FindingKind::ComputeWrong => 12,
            FindingKind::OrderWrong => 13,
            FindingKind::NumberNotNext => 14,
            FindingKind::IdGone => 15,
            FindingKind::MeaningChanged => 16,
            FindingKind::Revived => 17,
            FindingKind::TooLarge => 18,
        }
    }

    /// The kind's name, as it is printed.
    #[tactic(auto, unfolding(crate::specs::FindingNames::kind_name))]
    pub fn name(self) -> &'static str
        ensures { result.now ≡ kind_name self }
    {
        match self {
            FindingKind::IdOutOfRange => "id-out-of-range",
            FindingKind::IdReserved => "id-reserved",
            FindingKind::IdTwice => "id-twice",
            FindingKind::MixedStack => "mixed-stack",
            FindingKind::FieldTwice => "field-twice",
            FindingKind::ServesNoDirection => "serves-no-direction",
            FindingKind::ShapeWrong => "shape-wrong",
            FindingKind::PairNotAllowed => "pair-not-allowed",
            FindingKind::TargetWrong => "target-wrong",
            FindingKind::MsbWrong => "msb-wrong",
            FindingKind::NotDroppable => "not-droppable",
            FindingKind::ComputeWrong => "compute-wrong",
            FindingKind::OrderWrong => "order-wrong",
            FindingKind::NumberNotNext => "number-not-next",
            FindingKind::IdGone => "id-gone",
            FindingKind::MeaningChanged => "meaning-changed",
            FindingKind::Revived => "revived",
            FindingKind::TooLarge => "too-large",
        }
    }
}

/// The kind of the findings with this number.
fn kind_with(number: u8) -> Option<FindingKind>
    ensures { result ≡ find (λ k. number_of k == number) all_kinds }
{
    ALL_KINDS
        .iter()
        .copied()
        .find(|kind| kind.number() == number)
}
