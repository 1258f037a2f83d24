//! The meaning of a text.

ghost use Rattle.std.specs.Prelude.{◌≡◌, ◌≢◌, Some, None, Err, IfOk, IfErr, IsSomeAnd};
ghost use Rattle.std.specs.List.{AllByRecursion};
ghost use Rattle.serde_json.specs.View.{view};
ghost use Rattle.rule_json.specs.Layout.{edition_in};
ghost use Rattle.rule_json.specs.Files.{context_in, work_in};
ghost use Rattle.rule_json.specs.Texts.{json_of, edition_of, context_of, work_of};
ghost use Rattle.rule_json.specs.Written.{CanBeSpelt};
ghost use Rattle.rule_json.specs.Answers.{IsNoJson};

use crate::context::ContextFile;
use crate::fault::JsonFault;
use crate::values::FromJson;
use crate::work::WorkFile;
use rule_model::RawEdition;
use serde_json::Value;
use std::alloc::Global;

/// The JSON value that the text is.
///
/// # Errors
/// The text is no JSON; or want of memory.
#[tactic(auto, unfolding(crate::specs::Texts::json_of))]
fn parse(alloc: Global, text: &[u8]) -> Result<Value, JsonFault>
    ensures found { IfOk result (λ value. json_of text.now ≡ Some (view value)) }
    ensures err { IfErr result (λ fault. IsNoJson fault (json_of text.now)) }
{
    match Value::from_slice(alloc, text) {
        Ok(value) => Ok(value),
        Err(error) => {
            if error.is_memory() {
                Err(JsonFault::Memory)
            } else {
                Err(JsonFault::NotJson)
            }
        }
    }
}

/// The edition that a text is, in the layout of rule text. Each such edition can be written again.
///
/// # Errors
/// The text is no JSON; its value isn't in the layout; or want of memory.
#[tactic(auto, unfolding(crate::specs::Texts::edition_of))]
pub fn read_edition(alloc: Global, text: &[u8]) -> Result<RawEdition, JsonFault>
    ensures found { IfOk result (λ edition. edition_of text.now ≡ Some edition) }
    ensures spelt { IfOk result (λ edition. CanBeSpelt edition) }
    ensures not_json { result ≡ Err JsonFault.NotJson → json_of text.now ≡ None }
    ensures not_layout { result ≡ Err JsonFault.NotLayout
        → IsSomeAnd (json_of text.now) (λ d. edition_in d ≡ None) }
    ensures refused { IfErr result
        (λ fault. fault ≢ JsonFault.Memory → edition_of text.now ≡ None) }
{
    let value = parse(alloc, text)?;
    RawEdition::from_json(alloc, &value)
}

/// The context that a text is. Each of its editions can be written again.
///
/// # Errors
/// The text is no JSON; its value isn't in the layout; or want of memory.
#[tactic(auto, unfolding(crate::specs::Texts::context_of))]
pub fn read_context(alloc: Global, text: &[u8]) -> Result<ContextFile, JsonFault>
    ensures found { IfOk result (λ context. context_of text.now ≡ Some context) }
    ensures spelt { IfOk result (λ context. AllByRecursion CanBeSpelt context.editions) }
    ensures not_json { result ≡ Err JsonFault.NotJson → json_of text.now ≡ None }
    ensures not_layout { result ≡ Err JsonFault.NotLayout
        → IsSomeAnd (json_of text.now) (λ d. context_in d ≡ None) }
    ensures refused { IfErr result
        (λ fault. fault ≢ JsonFault.Memory → context_of text.now ≡ None) }
{
    let value = parse(alloc, text)?;
    ContextFile::from_json(alloc, &value)
}

/// The work that a text is. Each of its editions can be written again.
///
/// # Errors
/// The text is no JSON; its value isn't in the layout; or want of memory.
#[tactic(auto, unfolding(crate::specs::Texts::work_of))]
pub fn read_work(alloc: Global, text: &[u8]) -> Result<WorkFile, JsonFault>
    ensures found { IfOk result (λ work. work_of text.now ≡ Some work) }
    ensures spelt { IfOk result (λ work. AllByRecursion CanBeSpelt work.editions) }
    ensures not_json { result ≡ Err JsonFault.NotJson → json_of text.now ≡ None }
    ensures not_layout { result ≡ Err JsonFault.NotLayout
        → IsSomeAnd (json_of text.now) (λ d. work_in d ≡ None) }
    ensures refused { IfErr result
        (λ fault. fault ≢ JsonFault.Memory → work_of text.now ≡ None) }
{
    let value = parse(alloc, text)?;
    WorkFile::from_json(alloc, &value)
}
