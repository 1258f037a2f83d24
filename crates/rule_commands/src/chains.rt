//! Editions, each of which is to follow the one before.

ghost use Rattle.std.specs.Prelude.{◌≡◌, IfOk};
ghost use Rattle.editions.specs.Data.{first_edition};
ghost use Rattle.publishing.specs.Published.{published};
ghost use Rattle.rule_commands.specs.Packets.{last_from};

use editions::Edition;
use publishing::{PublishFault, publish};
use rule_model::{Finding, RawEdition};
use std::alloc::{AllocError, Global};

/// The next edition, or the finding that keeps it from being one.
///
/// # Errors
/// Want of memory.
pub(crate) fn next(
    alloc: Global,
    last: &Edition,
    raw: &RawEdition,
) -> Result<Result<Edition, Finding>, AllocError>
    ensures { IfOk result (λ next. next ≡ published last.now raw.now) }
{
    match publish(alloc, last, raw) {
        Ok(edition) => Ok(Ok(edition)),
        Err(PublishFault::Found(finding)) => Ok(Err(finding)),
        Err(PublishFault::Memory) => Err(AllocError),
    }
}

/// The last of these editions, each of which is to follow the one before; or the first finding.
///
/// # Errors
/// Want of memory.
pub(crate) fn last_edition(
    alloc: Global,
    editions: &[RawEdition],
) -> Result<Result<Edition, Finding>, AllocError>
    ensures { IfOk result (λ last. last ≡ last_from first_edition editions.now) }
{
    let mut last = Edition::empty(alloc);
    for raw in editions {
        match next(alloc, &last, raw)? {
            Ok(edition) => last = edition,
            Err(finding) => return Ok(Err(finding)),
        }
    }
    Ok(Ok(last))
}
