//! How a run of the program ends.

use rule_model::Finding;
use script_lang::Counted;

/// How a run of the program ended.
#[derive(Clone, Copy, Debug, PartialEq, Eq)]
pub enum Status {
    /// The input was read to its end, and all output was written.
    Ok,
    /// An edition of the input has this finding, the first one.
    Refused(Finding),
    /// The words are outside the grammar; the number is the place of the first bad word, from 1, or
    /// one past the last word where one lacks.
    Usage(u32),
    /// The input is outside the grammar: the number of the first such line of a script, from 1, or
    /// 0 for a JSON file, in which lines are not told apart.
    BadInput(u64),
    /// A read of the source failed.
    ReadFault,
    /// A write to the sink failed, or took nothing.
    WriteFault,
    /// Memory is wanting.
    Memory,
    /// A limit is passed: what was counted, and the number that was reached.
    Limit(Counted, u64),
}
