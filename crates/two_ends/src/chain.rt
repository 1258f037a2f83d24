//! The editions of rules that were published.

ghost use Rattle.std.specs.Prelude.{◌≡◌, [], ◌∷◌, ◌++◌, slice_get, IfOk, OnOk, OnErr};
ghost use Rattle.std.specs.Option.{option_map, option_copied};
ghost use Rattle.editions.specs.Data.{first_edition};
ghost use Rattle.two_ends.specs.World.{last_edition};

use editions::Edition;
use std::alloc::{AllocError, Global};
use std::marker::Model;
use std::sync::Arc;

/// The chain of editions: the empty edition 0, and behind it each edition that was published, in
/// their order, so that an edition stands at the place of its number.
#[derive(Drop)]
pub(crate) struct Chain {
    alloc: Global,
    editions: Vec<Arc<Edition>>,
}

impl Model for Chain {
    ghost use Rattle.std.specs.Prelude.{List, ◌<◌, length, map};
    ghost use Rattle.editions.specs.Data.{EditionData};

    ghost Value = { List EditionData };

    ghost view = { λ c. map (λ e. e.value) c.editions.items };

    ghost invariant = { λ c. 0 < length c.editions.items };
}

impl Chain {
    /// The empty edition 0 alone.
    ///
    /// # Errors
    /// Want of memory.
    pub(crate) fn new(alloc: Global) -> Result<Chain, AllocError>
        ensures { IfOk result (λ chain. chain ≡ first_edition ∷ []) }
    {
        let first = Arc::new(alloc, Edition::empty(alloc))?;
        let mut editions = Vec::new(alloc);
        editions.push(first)?;
        Ok(Chain { alloc, editions })
    }

    /// The edition that was published last.
    pub(crate) fn last(&self) -> &Edition
        ensures { result.now ≡ last_edition self.now }
    {
        &self.editions[self.editions.len() - 1]
    }

    /// The edition with this number.
    pub(crate) fn at(&self, number: u32) -> Option<&Arc<Edition>>
        ensures { option_map (λ e. e.value) (option_copied result) ≡ slice_get self.now number }
    {
        self.editions.get(number as usize)
    }

    /// Puts the edition last.
    ///
    /// # Errors
    /// Want of memory; nothing has changed then.
    pub(crate) fn push(&mut self, edition: Edition) -> Result<(), AllocError>
        ensures ok { OnOk result (self.new ≡ self.old ++ edition ∷ []) }
        ensures err { OnErr result (self.new ≡ self.old) }
    {
        let edition = Arc::new(self.alloc, edition)?;
        self.editions.push(edition)?;
        Ok(())
    }
}
