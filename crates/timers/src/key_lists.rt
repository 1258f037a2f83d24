//! Lists of keys by place, linked by key numbers.

ghost use Rattle.std.specs.Prelude.{ℕ, List, ◌≡◌, ◌≢◌, ◌<◌, ◌≤◌, ◌+◌, IfOk, IfSome, IfNone, length, slice_set, slice_index_or};
ghost use Rattle.timers.specs.KeyLists.{AreInverse, AreLinked, IsExchanged, at_node};

use std::alloc::{AllocError, Global};
use std::marker::Model;

/// The number of places. It stands for the place of a key that is in no list, too.
pub(crate) const PLACES: u8 = 128;

/// A list of keys for each of 128 places; a key is in one list at most. Contracts see the place of
/// each node: first those of the places' heads, each its own, then those of the keys, 128 where a
/// key is in no list.
///
/// A list is a ring of nodes: its head and its keys.
#[derive(Drop)]
pub(crate) struct KeyLists {
    places: Vec<u8>,
    next: Vec<usize>,
    previous: Vec<usize>,
}

impl Model for KeyLists {
    ghost use Rattle.std.specs.Prelude.{ℕ, List};
    ghost use Rattle.timers.specs.KeyLists.{AreLinked};

    ghost Value = { List ℕ };

    ghost view = { λ s. s.places.items };

    ghost invariant = { λ s. AreLinked s.places.items s.next.items s.previous.items };
}

impl KeyLists {
    /// No key is in a list; the keys are 0 to `keys - 1`.
    ///
    /// # Errors
    /// Want of memory.
    pub(crate) fn new(alloc: Global, keys: u32) -> Result<KeyLists, AllocError>
        ensures { IfOk result (λ lists. length lists ≡ 128 + keys) }
    {
        let nodes = PLACES as usize + keys as usize;
        Ok(KeyLists {
            places: first_places(alloc, nodes)?,
            next: numbers(alloc, nodes)?,
            previous: numbers(alloc, nodes)?,
        })
    }

    /// Moves the key from the list that it is in, if any, to that of the place, if it is one.
    pub(crate) fn move_to(&mut self, key: usize, place: u8)
        requires key { 128 + key < length self.old }
        requires place { place ≤ 128 }
        ensures { self.new ≡ slice_set self.old (128 + key) place }
    {
        relink(
            self.next.as_mut_slice(),
            self.previous.as_mut_slice(),
            key,
            place,
        );
        self.places[PLACES as usize + key] = place;
    }

    /// A key in the list of the place, and none where it is empty.
    pub(crate) fn first(&self, place: u8) -> Option<usize>
        requires { place < 128 }
        ensures inside { IfSome result (λ key. 128 + key < length self.now) }
        ensures some { IfSome result (λ key. slice_index_or self.now (128 + key) 0 ≡ place) }
        ensures none { IfNone result ((key : ℕ) → 128 + key < length self.now → slice_index_or self.now (128 + key) 0 ≢ place) }
    {
        let node = self.next[place as usize];
        if node == place as usize {
            None
        } else {
            Some(node - PLACES as usize)
        }
    }
}

/// Takes the node of the key out of its ring, and puts it behind the head of the place, if it is
/// one.
fn relink(next: &mut [usize], previous: &mut [usize], key: usize, place: u8)
    requires key { 128 + key < length next.old }
    requires place { place ≤ 128 }
    requires len { length previous.old ≡ length next.old }
    requires inverse { AreInverse (length next.old) (at_node next.old) (at_node previous.old) }
    ensures linked { (places : List ℕ) → AreLinked places next.old previous.old → AreLinked (slice_set places (128 + key) place) next.new previous.new }
    ensures next_len { length next.new ≡ length next.old }
    ensures previous_len { length previous.new ≡ length next.old }
{
    let node = PLACES as usize + key;
    let before = previous[node];
    exchange(next, previous, before, node);
    if place == PLACES {
        return;
    }
    exchange(next, previous, place as usize, node);
}

/// What is behind two nodes changes places: two nodes of one ring are in two rings then, and two
/// nodes of two rings are in one.
fn exchange(next: &mut [usize], previous: &mut [usize], a: usize, b: usize)
    requires a { a < length next.old }
    requires b { b < length next.old }
    requires len { length previous.old ≡ length next.old }
    requires inverse { AreInverse (length next.old) (at_node next.old) (at_node previous.old) }
    ensures exchanged { IsExchanged (length next.old) a b (at_node next.old) (at_node previous.old) (at_node next.new) (at_node previous.new) }
    ensures next_len { length next.new ≡ length next.old }
    ensures previous_len { length previous.new ≡ length next.old }
{
    let after_a = next[a];
    let after_b = next[b];
    next[b] = after_a;
    next[a] = after_b;
    previous[after_b] = a;
    previous[after_a] = b;
}

/// The numbers from 0 on.
fn numbers(alloc: Global, count: usize) -> Result<Vec<usize>, AllocError>
    ensures len { IfOk result (λ list. length list.items ≡ count) }
    ensures numbers { IfOk result (λ list. (x : ℕ) → x < count → at_node list.items x ≡ x) }
{
    let mut list = vec![in alloc; 0; count]?;
    number(list.as_mut_slice());
    Ok(list)
}

/// Writes to each place its number.
fn number(list: &mut [usize])
    ensures len { length list.new ≡ length list.old }
    ensures numbers { (x : ℕ) → x < length list.old → at_node list.new x ≡ x }
{
    for i in 0..list.len() {
        list[i] = i;
    }
}

/// The place of each head, and none for the other nodes.
fn first_places(alloc: Global, nodes: usize) -> Result<Vec<u8>, AllocError>
    requires { 128 ≤ nodes }
    ensures len { IfOk result (λ places. length places.items ≡ nodes) }
    ensures heads { IfOk result (λ places. (x : ℕ) → x < 128 → at_node places.items x ≡ x) }
    ensures others { IfOk result (λ places. (x : ℕ) → x < nodes → 128 ≤ x → at_node places.items x ≡ 128) }
{
    let mut places = vec![in alloc; PLACES; nodes]?;
    number_heads(places.as_mut_slice());
    Ok(places)
}

/// Writes to the node of each head its place.
fn number_heads(places: &mut [u8])
    requires { 128 ≤ length places.old }
    ensures len { length places.new ≡ length places.old }
    ensures heads { (x : ℕ) → x < 128 → at_node places.new x ≡ x }
    ensures others { (x : ℕ) → 128 ≤ x → at_node places.new x ≡ at_node places.old x }
{
    for place in 0..PLACES {
        places[place as usize] = place;
    }
}
