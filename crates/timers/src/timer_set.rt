//! A set of timers, as a wheel of four levels of 32 places.

ghost use Rattle.std.specs.Prelude.{ℕ, ◌≡◌, ◌≢◌, ◌<◌, ◌≤◌, ◌+◌, ◌^◌, ◌/◌, IfOk, None, Some, map, replicate, length, slice_set, slice_index_or};
ghost use Rattle.schc_ids.specs.Limits.{IsTicks};
ghost use Rattle.timers.specs.Timers.{tick_step, first_due, without};
ghost use Rattle.timers.specs.Wheel.{left, place_at, IsAhead, IsIndex, IsFiledAnew, HasCome, IsPlaceOf, IsElsewhere};

use crate::key_lists::{KeyLists, PLACES};
use crate::key_set::KeySet;
use std::alloc::{AllocError, Global};
use std::marker::Model;

/// The tick at which the count of ticks begins anew.
const LAST_TICK: u32 = 1 << 31;

/// Timers, at most one for each key. Contracts see a list with a place for each key: the ticks that
/// are left, 0 where the timer is due, or none where no timer is armed.
///
/// The deadlines alone say this. The set of the keys that are due and the lists of the wheel are an
/// index to them: a level has 32 places, of 1, 32, 1,024 or 32,768 ticks each, and at the tick at
/// which a place begins its keys are filed anew, in the set or at a lower level.
#[derive(Drop)]
pub struct TimerSet {
    now: u32,
    deadlines: Vec<Option<u32>>,
    due: KeySet,
    lists: KeyLists,
}

impl Model for TimerSet {
    ghost use Rattle.std.specs.Prelude.{ℕ, List, Option, map};
    ghost use Rattle.timers.specs.Wheel.{left, IsWheel};

    ghost Value = { List (Option ℕ) };

    ghost view = { λ s. map (left s.now) s.deadlines.items };

    ghost invariant = { λ s. IsWheel s.now s.deadlines.items s.due s.lists };
}

impl TimerSet {
    /// No timer is armed; the keys are 0 to `keys - 1`. This alone takes memory, for all of them.
    ///
    /// # Errors
    /// Want of memory.
    pub fn new(alloc: Global, keys: u32) -> Result<TimerSet, AllocError>
        ensures { IfOk result (λ timers. timers ≡ replicate keys None) }
    {
        let deadlines = no_deadlines(alloc, keys as usize)?;
        let due = KeySet::new(alloc, keys)?;
        let lists = KeyLists::new(alloc, keys)?;
        Ok(TimerSet {
            now: 0,
            deadlines,
            due,
            lists,
        })
    }

    /// The timer of the key will be due at the `ticks`-th tick from now. One that is armed is set
    /// anew.
    pub fn arm(&mut self, key: u32, ticks: u32)
        requires range { key < length self.old }
        requires ticks { IsTicks ticks }
        ensures armed { self.new ≡ slice_set self.old key (Some ticks) }
        ensures keys { length self.new ≡ length self.old }
    {
        let deadline = Some(self.now + ticks);
        self.deadlines[key as usize] = deadline;
        file(
            &mut self.due,
            &mut self.lists,
            key as usize,
            deadline,
            self.now,
        );
    }

    /// The timer of the key is no longer armed. At a key out of range nothing changes.
    pub fn cancel(&mut self, key: u32)
        ensures cancelled { self.new ≡ without self.old (Some key) }
        ensures beyond { length self.old ≤ key → self.new ≡ self.old }
        ensures keys { length self.new ≡ length self.old }
    {
        if (key as usize) < self.deadlines.len() {
            self.deadlines[key as usize] = None;
            file(&mut self.due, &mut self.lists, key as usize, None, self.now);
        }
    }

    /// One tick passes. A timer that is due stays due.
    pub fn tick(&mut self)
        ensures ticked { self.new ≡ tick_step self.old }
        ensures keys { length self.new ≡ length self.old }
    {
        self.now = pass_tick(
            self.deadlines.as_mut_slice(),
            &mut self.due,
            &mut self.lists,
            self.now,
        );
    }

    /// Takes out the lowest key whose timer is due, and none exactly where no timer is due.
    pub fn due(&mut self) -> Option<u32>
        ensures key { result ≡ first_due self.old }
        ensures taken { self.new ≡ without self.old result }
        ensures keys { length self.new ≡ length self.old }
    {
        match self.due.lowest() {
            Some(key) => {
                self.deadlines[key] = None;
                file(&mut self.due, &mut self.lists, key, None, self.now);
                Some(key as u32)
            }
            None => None,
        }
    }
}

/// No deadline for each key.
fn no_deadlines(alloc: Global, keys: usize) -> Result<Vec<Option<u32>>, AllocError>
    ensures { IfOk result (λ deadlines. deadlines.items ≡ replicate keys None) }
{
    vec![in alloc; None; keys]
}

/// Files the key anew: in the set where its deadline has come, in a list where it is to come.
fn file(due: &mut KeySet, lists: &mut KeyLists, key: usize, deadline: Option<u32>, now: u32)
    requires member { key < length due.old }
    requires node { 128 + key < length lists.old }
    ensures { IsFiledAnew now key deadline due.old due.new lists.old lists.new }
{
    due.set(key, is_reached(deadline, now));
    lists.move_to(key, place_of(deadline, now));
}

/// Files each key anew.
fn file_all(due: &mut KeySet, lists: &mut KeyLists, deadlines: &[Option<u32>], now: u32)
    requires members { length due.old ≡ length deadlines.now }
    requires nodes { length lists.old ≡ 128 + length deadlines.now }
    ensures { IsIndex now 4 deadlines.now due.new lists.new }
{
    for (key, deadline) in deadlines.iter().enumerate() {
        file(due, lists, key, *deadline, now);
    }
}

/// One tick passes: the tick after `now`.
fn pass_tick(deadlines: &mut [Option<u32>], due: &mut KeySet, lists: &mut KeyLists, now: u32) -> u32
    requires { IsIndex now 4 deadlines.old due.old lists.old }
    ensures last { result ≤ 2 ^ 31 }
    ensures ticked { map (left result) deadlines.new ≡ tick_step (map (left now) deadlines.old) }
    ensures index { IsIndex result 4 deadlines.new due.new lists.new }
    ensures len { length deadlines.new ≡ length deadlines.old }
{
    let last = below_last(deadlines, due, lists, now);
    open_places(due, lists, deadlines, last + 1);
    last + 1
}

/// Where the count of ticks is at its end, it begins anew at 0, and the deadlines with it.
fn below_last(
    deadlines: &mut [Option<u32>],
    due: &mut KeySet,
    lists: &mut KeyLists,
    now: u32,
) -> u32
    requires { IsIndex now 4 deadlines.old due.old lists.old }
    ensures below { result < 2 ^ 31 }
    ensures same { map (left result) deadlines.new ≡ map (left now) deadlines.old }
    ensures index { IsIndex result 4 deadlines.new due.new lists.new }
    ensures len { length deadlines.new ≡ length deadlines.old }
{
    if now < LAST_TICK {
        return now;
    }
    count_from(deadlines, now);
    file_all(due, lists, deadlines, 0);
    0
}

/// The deadlines as ticks that are left.
fn count_from(deadlines: &mut [Option<u32>], now: u32)
    ensures { deadlines.new ≡ map (left now) deadlines.old }
{
    for deadline in deadlines.iter_mut() {
        *deadline = ticks_left(*deadline, now);
    }
}

/// The ticks that are left to a deadline.
fn ticks_left(deadline: Option<u32>, now: u32) -> Option<u32>
    ensures { result ≡ left now deadline }
{
    match deadline {
        Some(at) => Some(at.saturating_sub(now)),
        None => None,
    }
}

/// Opens at each level the place that begins now, if one does.
fn open_places(due: &mut KeySet, lists: &mut KeyLists, deadlines: &[Option<u32>], now: u32)
    requires { IsIndex now 0 deadlines.now due.old lists.old }
    ensures { IsIndex now 4 deadlines.now due.new lists.new }
{
    for level in 0..4 {
        open_level(due, lists, deadlines, now, level);
    }
}

/// Opens the place of the level that begins now, if one does.
fn open_level(
    due: &mut KeySet,
    lists: &mut KeyLists,
    deadlines: &[Option<u32>],
    now: u32,
    level: u32,
)
    requires level { level < 4 }
    requires index { IsIndex now level deadlines.now due.old lists.old }
    ensures { IsIndex now (level + 1) deadlines.now due.new lists.new }
{
    if now % span(level) != 0 {
        return;
    }
    open_place(due, lists, deadlines, now, level);
}

/// Files the keys of the place of the level anew.
fn open_place(
    due: &mut KeySet,
    lists: &mut KeyLists,
    deadlines: &[Option<u32>],
    now: u32,
    level: u32,
)
    requires level { level < 4 }
    requires index { IsIndex now level deadlines.now due.old lists.old }
    ensures { IsIndex now (level + 1) deadlines.now due.new lists.new }
{
    let place = place_at(level, now / span(level));
    while let Some(key) = lists.first(place) {
        file(due, lists, key, deadlines[key], now);
    }
}

/// Whether the deadline has come.
fn is_reached(deadline: Option<u32>, now: u32) -> bool
    ensures { HasCome now deadline result }
{
    match deadline {
        Some(at) => at <= now,
        None => false,
    }
}

/// The place at which a key with this deadline is filed, and 128 for none.
fn place_of(deadline: Option<u32>, now: u32) -> u8
    ensures place { IsPlaceOf now deadline result }
    ensures elsewhere { IsElsewhere now result }
    ensures most { result ≤ 128 }
{
    match deadline {
        Some(at) => place_or_none(at, now),
        None => PLACES,
    }
}

/// The place of a deadline that is to come, and 128 for one that has come.
fn place_or_none(at: u32, now: u32) -> u8
    ensures place { now < at → IsAhead now at result }
    ensures elsewhere { IsElsewhere now result }
    ensures most { result ≤ 128 }
{
    if at <= now {
        return PLACES;
    }
    place_ahead(at, now)
}

/// The place of the deadline at the highest level at which it is in another place than now, or the
/// last place ahead of now at that level.
fn place_ahead(at: u32, now: u32) -> u8
    requires { now < at }
    ensures ahead { IsAhead now at result }
    ensures elsewhere { IsElsewhere now result }
    ensures below { result < 128 }
{
    let level = level_of(at, now);
    let begun = now / span(level);
    let ahead = (at / span(level) - begun).min(31);
    place_at(level, begun + ahead)
}

/// The highest level at which the deadline is in a place that is still to begin.
fn level_of(at: u32, now: u32) -> u32
    requires { now < at }
    ensures level { result < 4 }
    ensures ahead { now / 32 ^ result < at / 32 ^ result }
{
    if now / 32768 < at / 32768 {
        3
    } else if now / 1024 < at / 1024 {
        2
    } else if now / 32 < at / 32 {
        1
    } else {
        0
    }
}

/// The place at the level of the turn with this number.
fn place_at(level: u32, number: u32) -> u8
    requires { level < 4 }
    ensures place { result ≡ place_at level number }
    ensures below { result < 128 }
{
    (32 * level + number % 32) as u8
}

/// The ticks of one turn at the level.
fn span(level: u32) -> u32
    requires { level < 4 }
    ensures span { result ≡ 32 ^ level }
    ensures positive { 0 < result }
{
    match level {
        0 => 1,
        1 => 32,
        2 => 1024,
        _ => 32768,
    }
}
