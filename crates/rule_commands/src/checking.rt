//! Which editions of a context can be published.

ghost use Rattle.std.specs.Prelude.{◌≡◌, ◌⊎◌, None, Some, not, filter, length, ◌++◌, OnOk, IfOk, IfErr, string_bytes};
ghost use Rattle.editions.specs.Data.{first_edition};
ghost use Rattle.rule_commands.specs.Checking.{edition_line, refused_line, checked_from, check_of};

use crate::chains::next;
use crate::output::Output;
use editions::{Edition, Listed};
use printed_words::push_finding;
use rule_json::{JsonFault, read_context};
use rule_model::{Finding, RawEdition};
use std::alloc::{AllocError, Global};

/// How many of the rules are live.
fn live_rules(rules: &[Listed]) -> usize
    ensures { result ≡ length (filter (λ listed. listed.live) rules.now) }
{
    let mut count = 0;
    for listed in rules {
        count += usize::from(listed.live);
    }
    count
}

/// How many of the rules are retired.
fn retired_rules(rules: &[Listed]) -> usize
    ensures { result ≡ length (filter (λ listed. not listed.live) rules.now) }
{
    let mut count = 0;
    for listed in rules {
        count += usize::from(!listed.live);
    }
    count
}

/// Writes the line of an edition that can be published.
#[tactic(auto, unfolding(crate::specs::Checking::edition_line))]
fn push_edition(text: &mut String, edition: &Edition) -> Result<(), AllocError>
    ensures { OnOk result (string_bytes text.new ≡ string_bytes text.old ++ edition_line edition.now) }
{
    let number = edition.number();
    let live = live_rules(edition.rules());
    let retired = retired_rules(edition.rules());
    write!(text, "edition {number} ok live {live} retired {retired}\n")
}

/// Writes the line of an edition that can't be published.
#[tactic(auto, unfolding(crate::specs::Checking::refused_line))]
fn push_refused(text: &mut String, raw: &RawEdition, finding: Finding) -> Result<(), AllocError>
    ensures { OnOk result (string_bytes text.new ≡ string_bytes text.old ++ refused_line raw.now finding) }
{
    let number = raw.number;
    write!(text, "edition {number} ")?;
    push_finding(text, finding)?;
    text.push_str("\n")
}

/// The lines of these editions, each of which is to follow the one before, up to the first that can't.
fn checked_from(alloc: Global, editions: &[RawEdition]) -> Result<Output, AllocError>
    ensures { IfOk result (λ output. output ≡ checked_from first_edition editions.now) }
{
    let mut last = Edition::empty(alloc);
    let mut text = String::new(alloc);
    for raw in editions {
        match next(alloc, &last, raw)? {
            Ok(edition) => {
                push_edition(&mut text, &edition)?;
                last = edition;
            }
            Err(finding) => {
                push_refused(&mut text, raw, finding)?;
                return Ok(Output {
                    text: text.into_bytes(),
                    refused: Some(finding),
                });
            }
        }
    }
    Ok(Output {
        text: text.into_bytes(),
        refused: None,
    })
}

/// Looks whether the editions of a context can be published, each after the one before: a line for each, up to the
/// first that can't.
///
/// # Errors
/// The text is no JSON, or not in the layout of a context, and want of memory.
pub fn check(alloc: Global, text: &[u8]) -> Result<Output, JsonFault>
    ensures done { IfOk result (λ output. check_of text.now ≡ Some output) }
    ensures refused { IfErr result (λ fault. (fault ≡ JsonFault.Memory) ⊎ (check_of text.now ≡ None)) }
{
    let context = read_context(alloc, text)?;
    let output = checked_from(alloc, context.editions.as_slice())?;
    Ok(output)
}
