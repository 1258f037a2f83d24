//! A set of keys of which the lowest is always at hand.

ghost use Rattle.std.specs.Prelude.{ℕ, ◌⊎◌, ◌≡◌, ◌≢◌, ◌<◌, ◌≤◌, ◌*◌, ◌%◌, true, false, IfOk, IfSome, IfNone, replicate, length, slice_set, slice_index_or};
ghost use Rattle.timers.specs.KeySet.{IsLowerOf, IsTree, leaf_of};

use std::alloc::{AllocError, Global};
use std::marker::Model;

/// What stands in the tree where no key is.
const NO_KEY: u32 = u32::MAX;

/// A set of the keys below a number. Contracts see for each key whether it is in the set.
///
/// The tree stands in one list: node 1 is its root, below node `i` are the nodes `2 i` and
/// `2 i + 1`, and the second half are the leaves, one for each key. A node has the lowest key that
/// is in the set below it.
#[derive(Drop)]
pub(crate) struct KeySet {
    members: Vec<bool>,
    nodes: Vec<u32>,
}

impl Model for KeySet {
    ghost use Rattle.std.specs.Prelude.{◌<◌, ◌^◌, ◌≡◌, ◌*◌, Bool, List, length};
    ghost use Rattle.timers.specs.KeySet.{IsTree, HasLeaves};

    ghost Value = { List Bool };

    ghost view = { λ s. s.members.items };

    ghost invariant = { λ s.
        (length s.members.items < 2 ^ 32)
        × (length s.nodes.items ≡ 2 * length s.members.items)
        × IsTree s.nodes.items
        × HasLeaves s.members.items s.nodes.items };
}

impl KeySet {
    /// No key is in the set; the keys are 0 to `keys - 1`.
    ///
    /// # Errors
    /// Want of memory.
    pub(crate) fn new(alloc: Global, keys: u32) -> Result<KeySet, AllocError>
        ensures { IfOk result (λ set. set ≡ replicate keys false) }
    {
        Ok(KeySet {
            members: vec![in alloc; false; keys as usize]?,
            nodes: vec![in alloc; NO_KEY; 2 * keys as usize]?,
        })
    }

    /// Puts the key into the set or takes it out.
    pub(crate) fn set(&mut self, key: usize, member: bool)
        requires { key < length self.old }
        ensures { self.new ≡ slice_set self.old key member }
    {
        if self.members[key] == member {
            return;
        }
        let leaf = self.members.len() + key;
        self.members[key] = member;
        put_leaf(self.nodes.as_mut_slice(), leaf, leaf_value(key, member));
    }

    /// The lowest key of the set, and none where it is empty.
    pub(crate) fn lowest(&self) -> Option<usize>
        ensures some { IfSome result (λ key. slice_index_or self.now key false ≡ true) }
        ensures lowest { IfSome result (λ key. (lower : ℕ) → lower < key → slice_index_or self.now lower false ≡ false) }
        ensures none { IfNone result ((key : ℕ) → slice_index_or self.now key false ≡ false) }
    {
        if self.members.is_empty() {
            return None;
        }
        let key = self.nodes[1];
        if key == NO_KEY {
            None
        } else {
            Some(key as usize)
        }
    }
}

/// What the leaf of the key has.
fn leaf_value(key: usize, member: bool) -> u32
    requires { key < 4294967295 }
    ensures { result ≡ leaf_of key member }
{
    if member { key as u32 } else { NO_KEY }
}

/// Puts the value at the leaf, and renews the nodes above it.
fn put_leaf(nodes: &mut [u32], leaf: usize, value: u32)
    requires tree { IsTree nodes.old }
    requires even { length nodes.old % 2 ≡ 0 }
    requires leaf { length nodes.old ≤ 2 * leaf }
    requires inside { leaf < length nodes.old }
    ensures tree { IsTree nodes.new }
    ensures put { slice_index_or nodes.new leaf 0 ≡ value }
    ensures others { (other : ℕ) → length nodes.old ≤ 2 * other → other ≢ leaf → slice_index_or nodes.new other 0 ≡ slice_index_or nodes.old other 0 }
    ensures len { length nodes.new ≡ length nodes.old }
{
    nodes[leaf] = value;
    let mut node = leaf / 2;
    while 0 < node {
        nodes[node] = lower(nodes[2 * node], nodes[2 * node + 1]);
        node /= 2;
    }
}

/// The lower of two.
fn lower(a: u32, b: u32) -> u32
    ensures { IsLowerOf result a b }
{
    if a < b { a } else { b }
}
