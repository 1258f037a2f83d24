//! The one list type of the repository.

ghost use Rattle.std.specs.Prelude.{ℕ, ◌≡◌, ◌+◌, ◌<◌, ◌≤◌, ◌↔◌, [], ◌∷◌, ◌++◌, length, take, drop, slice_set, IsTrue, OnOk, OnErr, IfOk, slice_index_or};

use std::alloc::{AllocError, Global};
use std::marker::Model;

/// A list of items that keeps its allocator. Contracts see the items and, beside them, a number
/// called `spare`: how many more items `put` can take without memory.
#[derive(Drop)]
pub struct ItemList<T> {
    alloc: Global,
    list: Vec<T>,
}

impl<T> Model for ItemList<T> {
    ghost use Rattle.std.specs.Prelude.{ℕ, ◌-◌, List, vec_len};
    ghost use Rattle.std.specs.Vec.{vec_capacity};
    ghost use Rattle.schc_bits.specs.Held.{Held};

    ghost Value = { Held T };

    ghost view = { λ s. record { items = s.list.items; spare = vec_capacity s.list - vec_len s.list } };
}

/// A list of bytes.
pub type Octets = ItemList<u8>;

/// An item that can be copied, which may want memory.
pub trait CopyItem: Drop {
    /// An equal item.
    ///
    /// # Errors
    /// Want of memory.
    fn copy_item(&self, alloc: Global) -> Result<Self, AllocError>
        ensures { IfOk result (λ copy. copy ≡ self.now) };
}

/// An item that can be compared.
pub trait Same {
    /// True exactly where the two are equal.
    fn same(&self, other: &Self) -> bool
        ensures { IsTrue result ↔ (self.now ≡ other.now) };
}

impl<T: Drop> ItemList<T> {
    /// The empty list. It takes no memory.
    pub fn new(alloc: Global) -> Self
        ensures { result.items ≡ [] }
    {
        ItemList {
            alloc,
            list: Vec::new(alloc),
        }
    }

    /// The number of items.
    pub fn len(&self) -> usize
        ensures { result ≡ length self.now.items }
    {
        self.list.len()
    }

    /// True exactly where the list has no item.
    pub fn is_empty(&self) -> bool
        ensures { IsTrue result ↔ (self.now.items ≡ []) }
    {
        self.list.is_empty()
    }

    /// The items.
    pub fn as_slice(&self) -> &[T]
        ensures { result.now ≡ self.now.items }
    {
        self.list.as_slice()
    }

    /// The item at the index `i`, from 0.
    pub fn at(&self, i: usize) -> &T
        requires { i < length self.now.items }
        ensures { result.now ≡ slice_index_or self.now.items i result.now }
    {
        &self.list[i]
    }

    /// Puts the item last.
    ///
    /// # Errors
    /// Want of memory; the items are then as before.
    pub fn push(&mut self, item: T) -> Result<(), AllocError>
        ensures ok { OnOk result (self.new.items ≡ self.old.items ++ item ∷ []) }
        ensures err { OnErr result (self.new.items ≡ self.old.items) }
    {
        self.list.push(item)?;
        Ok(())
    }

    /// Makes room for at least `n` more items, and leaves the items as they are.
    ///
    /// # Errors
    /// Want of memory.
    pub fn reserve(&mut self, n: usize) -> Result<(), AllocError>
        ensures items { self.new.items ≡ self.old.items }
        ensures room { OnOk result (n ≤ self.new.spare) }
    {
        self.list.reserve(n)
    }

    /// Puts the item last, into room that `reserve` made. It takes no memory.
    pub fn put(&mut self, item: T)
        requires { 1 ≤ self.old.spare }
        ensures items { self.new.items ≡ self.old.items ++ item ∷ [] }
        ensures room { self.old.spare ≤ self.new.spare + 1 }
    {
        self.list.push(item).unwrap();
    }
}

impl<T: Drop> ItemList<T> {
    /// Leaves the first `count` items, or all where there are fewer. It takes no memory.
    pub fn truncate(&mut self, count: usize)
        ensures { self.new.items ≡ take count self.old.items }
    {
        self.list.truncate(count);
    }

    /// Puts the item in the place of the one at the index `i`. It takes no memory.
    pub fn set(&mut self, i: usize, item: T)
        requires { i < length self.old.items }
        ensures items { self.new.items ≡ slice_set self.old.items i item }
        ensures room { self.new.spare ≡ self.old.spare }
    {
        self.list[i] = item;
    }

    /// Puts the item before the one at the index `i`, or last where `i` is their number.
    ///
    /// # Errors
    /// Want of memory; the items are then as before.
    pub fn insert(&mut self, i: usize, item: T) -> Result<(), AllocError>
        requires { i ≤ length self.old.items }
        ensures ok { OnOk result (self.new.items ≡ take i self.old.items ++ item ∷ drop i self.old.items) }
        ensures err { OnErr result (self.new.items ≡ self.old.items) }
    {
        self.list.insert(i, item)?;
        Ok(())
    }
}

impl<T: Copy + Drop> ItemList<T> {
    /// Puts all items of `more` last, in their order.
    ///
    /// # Errors
    /// Want of memory; the items are then as before.
    pub fn extend_from(&mut self, more: &[T]) -> Result<(), AllocError>
        ensures ok { OnOk result (self.new.items ≡ self.old.items ++ more.now) }
        ensures err { OnErr result (self.new.items ≡ self.old.items) }
    {
        self.list.extend_from_slice(more)
    }

    /// Puts all items of `more` last, into room that `reserve` made. It takes no memory.
    pub fn put_all(&mut self, more: &[T])
        requires { length more.now ≤ self.old.spare }
        ensures items { self.new.items ≡ self.old.items ++ more.now }
        ensures room { self.old.spare ≤ self.new.spare + length more.now }
    {
        self.list.extend_from_slice(more).unwrap();
    }
}

impl<T: CopyItem> ItemList<T> {
    /// An equal list.
    ///
    /// # Errors
    /// Want of memory.
    pub fn copy(&self) -> Result<Self, AllocError>
        ensures { IfOk result (λ copy. copy.items ≡ self.now.items) }
    {
        let mut copy = ItemList::new(self.alloc);
        copy.reserve(self.list.len())?;
        for item in self.list.as_slice() {
            copy.push(item.copy_item(self.alloc)?)?;
        }
        Ok(copy)
    }
}

/// True exactly where the two lists have the same items in the same order.
pub fn same_items<T: Same>(these: &[T], those: &[T]) -> bool
    ensures { IsTrue result ↔ (these.now ≡ those.now) }
{
    if these.len() != those.len() {
        return false;
    }
    for (i, item) in these.iter().enumerate() {
        if !item.same(&those[i]) {
            return false;
        }
    }
    true
}

impl CopyItem for u8 {
    fn copy_item(&self, _alloc: Global) -> Result<u8, AllocError> {
        Ok(*self)
    }
}

impl Same for u8 {
    fn same(&self, other: &u8) -> bool {
        *self == *other
    }
}

impl CopyItem for usize {
    fn copy_item(&self, _alloc: Global) -> Result<usize, AllocError> {
        Ok(*self)
    }
}
