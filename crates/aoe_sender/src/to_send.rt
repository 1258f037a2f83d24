//! The numbers of the tiles that are still to send.

ghost use Rattle.std.specs.Prelude.{◌≡◌, ◌+◌, ◌-◌, ◌*◌, ◌^◌, ◌<◌, ◌≤◌, ◌↔◌, false, [], true, IsTrue, length, drop, get_or};
ghost use Rattle.schc_bits.specs.Bits.{number_bits};
ghost use Rattle.tiles_bitmap.specs.Places.{numbers_from, missing, run};
ghost use Rattle.aoe_sender.specs.Marks.{windows_bits, numbers_of, first_run, follows};

use std::marker::Model;

/// How many tiles a window has.
pub(crate) const WINDOW: usize = 63;

/// How many tiles the four windows have.
const ALL_TILES: usize = 252;

/// A bitmap of a window in which every tile is held.
const FULL: u64 = 0x7FFF_FFFF_FFFF_FFFF;

/// The numbers of tiles that are still to send. Contracts see their ascending list.
#[derive(Drop)]
pub(crate) struct ToSend {
    /// For each window a number of 63 bits, a bit for each of its tiles, that of the first one the
    /// highest: 0 where the tile is to be sent.
    held: [u64; 4],
    /// The numbers below this one were sent.
    at: usize,
    /// Numbers from this one on are not to be sent.
    end: usize,
}

impl Model for ToSend {
    ghost use Rattle.std.specs.Prelude.{ℕ, ◌≤◌, List};
    ghost use Rattle.aoe_sender.specs.Marks.{numbers_of};

    ghost Value = { List ℕ };

    ghost view = { λ n. numbers_of n.held n.at n.end };

    ghost invariant = { λ n. n.end ≤ 252 };
}

/// The tiles of one Regular.
#[derive(Clone, Copy, Debug, PartialEq, Eq)]
pub(crate) struct TileRun {
    /// The number of the first one.
    pub(crate) first: usize,
    /// How many more there are; their numbers follow the first one.
    pub(crate) more: usize,
}

impl ToSend {
    /// The numbers from 0 on, so many.
    pub(crate) fn all(count: usize) -> ToSend
        requires { count ≤ 252 }
        ensures { result ≡ numbers_from 0 count }
    {
        ToSend {
            held: [0; 4],
            at: 0,
            end: count,
        }
    }

    /// No number.
    pub(crate) fn none() -> ToSend
        ensures { result ≡ [] }
    {
        ToSend {
            held: [FULL; 4],
            at: 0,
            end: 0,
        }
    }

    /// The numbers below `count` of the tiles of the window whose bit is 0.
    pub(crate) fn missing(w: u8, bitmap: u64, count: usize) -> ToSend
        requires window { w < 4 }
        requires fits { bitmap < 2 ^ 63 }
        requires count { count ≤ 252 }
        ensures { result ≡ missing (w * 63) (count - w * 63) (number_bits 63 bitmap) }
    {
        let mut held = [FULL; 4];
        held[usize::from(w)] = bitmap;
        ToSend {
            held,
            at: usize::from(w) * WINDOW,
            end: count,
        }
    }

    /// True exactly where there is no number.
    pub(crate) fn is_empty(&self) -> bool
        ensures { IsTrue result ↔ (self.now ≡ []) }
    {
        next_missing(&self.held, self.at, self.end) >= self.end
    }

    /// The lowest number with those that follow it without a gap in its window, at most `most`, and
    /// the numbers that are left; none exactly where there is no number.
    #[tactic(auto, unfolding(crate::specs::Marks::first_run))]
    pub(crate) fn first_run(&self, most: usize) -> Option<(TileRun, ToSend)>
        ensures { result ≡ first_run most self.now }
    {
        let first = next_missing(&self.held, self.at, self.end);
        if first >= self.end {
            return None;
        }
        let more = run_length(&self.held, self.end, first, most);
        let rest = ToSend {
            held: self.held,
            at: first + more + 1,
            end: self.end,
        };
        Some((TileRun { first, more }, rest))
    }
}

/// The bit of the tile with the number `k`.
fn is_held(held: &[u64; 4], k: usize) -> bool
    requires { k < 252 }
    ensures { result ≡ get_or (windows_bits held.now) k false }
{
    (held[k / WINDOW] >> (62 - k % WINDOW)) % 2 == 1
}

/// The lowest number from `at` on and below `end` whose bit is 0, or one that isn't below `end`.
fn next_missing(held: &[u64; 4], at: usize, end: usize) -> usize
    requires { end ≤ 252 }
    ensures same { numbers_of held.now result end ≡ numbers_of held.now at end }
    ensures found { result < end → get_or (windows_bits held.now) result false ≡ false }
{
    let mut k = at;
    while k < end && is_held(held, k) {
        k += 1;
    }
    k
}

/// How many numbers below `end` follow the number `first` without a gap in its window, at most
/// `most`.
fn run_length(held: &[u64; 4], end: usize, first: usize, most: usize) -> usize
    requires end { end ≤ 252 }
    requires first { first < end }
    ensures count { result ≡ (run 63 most first (numbers_of held.now (first + 1) end)).0 }
    ensures rest { numbers_of held.now (first + result + 1) end ≡ (run 63 most first (numbers_of held.now (first + 1) end)).1 }
    ensures within { first + result < end }
{
    let mut more = 0;
    while more < most && follows(held, end, first + more + 1) {
        more += 1;
    }
    more
}

/// Whether the number is below `end`, isn't the first one of its window, and its bit is 0.
#[tactic(auto, unfolding(crate::specs::Marks::follows))]
fn follows(held: &[u64; 4], end: usize, k: usize) -> bool
    requires { end ≤ 252 }
    ensures { result ≡ follows held.now end k }
{
    k < end && k % WINDOW != 0 && !is_held(held, k)
}
