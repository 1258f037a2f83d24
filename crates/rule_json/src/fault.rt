//! Why a text can't be read.

use std::alloc::AllocError;
use thiserror::Error;

/// Why a text is no edition, context or work.
#[derive(Clone, Copy, Debug, PartialEq, Eq, Error)]
pub enum JsonFault {
    /// The bytes are no JSON.
    #[error("the text is no JSON")]
    NotJson,
    /// The JSON isn't in the layout.
    #[error("the JSON isn't in the layout of rule text")]
    NotLayout,
    /// Memory is wanting.
    #[error("memory is wanting")]
    Memory,
}

impl From<AllocError> for JsonFault {
    ghost use Rattle.std.specs.Prelude.{◌≡◌};
    ghost use Rattle.rule_json.specs.declared.fault.JsonFault.TheVariants.{Memory};

    ghost from_gives = { λ _ fault. fault ≡ Memory };

    fn from(_: AllocError) -> JsonFault {
        JsonFault::Memory
    }
}
