//! What a command prints.

ghost use Rattle.std.specs.Prelude.{◌≡◌, [], Some};

use rule_model::Finding;
use std::alloc::Global;
use std::marker::Model;

/// What a command prints, and the finding that ends it, if one does.
#[derive(Drop)]
pub struct Output {
    pub text: Vec<u8>,
    pub refused: Option<Finding>,
}

impl Model for Output {
    ghost use Rattle.rule_commands.specs.OutputData.{OutputData};

    ghost Value = { OutputData };

    ghost view = { λ o. record { text = o.text.items; refused = o.refused } };
}

/// The output of a command that ends with a finding before its first line.
pub(crate) fn refused(alloc: Global, finding: Finding) -> Output
    ensures { result ≡ record { text = []; refused = Some finding } }
{
    Output {
        text: Vec::new(alloc),
        refused: Some(finding),
    }
}
