//! The tiles that are held, in one buffer.

ghost use Rattle.std.specs.Prelude.{ℕ, ◌≡◌, ◌+◌, ◌*◌, ◌^◌, ◌/◌, ◌==◌, ◌<◌, ◌≤◌, Bool, not, false, ◌&&◌, List, [], ◌∷◌, ◌++◌, length, take, get_or, Some, IfOk, IfSome, OnErr, IsSome};
ghost use Rattle.schc_bits.specs.Bits.{bits_value, octets};
ghost use Rattle.schc_ids.specs.Limits.{reassembly_bytes};
ghost use Rattle.rcs.specs.Division.{rcs_of};
ghost use Rattle.tiles_bitmap.specs.Places.{keep, held_bits, joined_tiles, all_true, no_gap, open_window, bitmap};
ghost use Rattle.aoe_receiver.specs.State.{ArePlaces, IsLastTile, payload_tiles};
ghost use Rattle.aoe_receiver.specs.Steps.{is_whole, passes, all_held, last_of, if_passed, with_tile};
ghost use Rattle.aoe_receiver.specs.Store.{empty_store, is_sized, overwritten};

use rcs::Register;
use schc_bits::Bits;
use schc_ids::limits::REASSEMBLY_BYTES;
use std::alloc::{AllocError, Global};
use std::marker::Model;

/// The bytes of a tile (RFC 9011 section 5.6.2); the last one may have fewer.
const TILE: usize = 10;

/// The tiles of a window.
const WINDOW: usize = 63;

/// The tiles of the four windows.
const PLACES: usize = 252;

/// Where the All-1's tile begins in the buffer, behind those of all windows.
const LAST_AT: usize = PLACES * TILE;

/// The bits of a window of which each tile is held.
const FULL: u64 = (1 << WINDOW) - 1;

/// The tiles that are held, each at its place, and that of the All-1. A place has ten bytes of the
/// buffer and a size, 0 where no tile is held; a window has a number whose bits say which tiles are
/// held, the first highest.
#[derive(Drop)]
pub(crate) struct TileStore {
    buffer: Vec<u8>,
    sizes: Vec<u8>,
    marks: [u64; 4],
    last: u8,
}

impl Model for TileStore {
    ghost use Rattle.std.specs.Prelude.{◌*◌, take, drop};
    ghost use Rattle.schc_bits.specs.Bits.{octets};
    ghost use Rattle.aoe_receiver.specs.Store.{Store, IsStore, places};

    ghost Value = { Store };

    ghost view = { λ s. record { tiles = places s.sizes.items s.buffer.items; last = octets (take s.last (drop 2520 s.buffer.items)) } };

    ghost invariant = { λ s. IsStore s.buffer.items s.sizes.items s.marks s.last };
}

impl TileStore {
    /// A store that holds no tile.
    ///
    /// # Errors
    /// Want of memory.
    pub(crate) fn new(alloc: Global) -> Result<TileStore, AllocError>
        ensures { IfOk result (λ store. store ≡ empty_store) }
    {
        Ok(TileStore {
            buffer: vec![in alloc; 0; REASSEMBLY_BYTES]?,
            sizes: vec![in alloc; 0; PLACES]?,
            marks: [0; 4],
            last: 0,
        })
    }

    /// What holds of every store: a place for each tile of the four windows, and each tile in whole
    /// bytes, at most ten. It does nothing.
    pub(crate) fn stands(&self)
        ensures places { ArePlaces self.now.tiles }
        ensures last { IsLastTile self.now.last }
    {
        let _ = &self.sizes;
    }

    /// Lets go of all tiles. It takes no memory.
    pub(crate) fn clear(&mut self)
        ensures { self.new ≡ empty_store }
    {
        self.sizes.fill(0);
        self.marks = [0; 4];
        self.last = 0;
    }

    /// Keeps the tile at its place, unless one is held there. True exactly where it is kept. It
    /// takes no memory.
    fn put(&mut self, place: usize, tile: &[u8]) -> bool
        requires place { place < 252 }
        requires some { 1 ≤ length tile.now }
        requires most { length tile.now ≤ 10 }
        ensures tiles { self.new.tiles ≡ keep place (octets tile.now ∷ []) self.old.tiles }
        ensures last { self.new.last ≡ self.old.last }
        ensures kept { result ≡ not (get_or (held_bits self.old.tiles) place false) }
        ensures all { length self.old.tiles ≡ 252 }
    {
        if is_held(self.sizes[place]) {
            return false;
        }
        write_at(&mut self.buffer, TILE * place, tile);
        self.sizes[place] = tile.len() as u8;
        self.marks[place / WINDOW] += 1 << (WINDOW - 1 - place % WINDOW);
        true
    }

    /// Keeps the All-1's tile in place of the one before. It takes no memory.
    pub(crate) fn put_last(&mut self, tile: &[u8])
        requires most { length tile.now ≤ 10 }
        ensures tiles { self.new.tiles ≡ self.old.tiles }
        ensures last { self.new.last ≡ octets tile.now }
    {
        write_at(&mut self.buffer, LAST_AT, tile);
        self.last = tile.len() as u8;
    }

    /// The All-1's tile.
    pub(crate) fn last(&self) -> &[u8]
        ensures tile { octets result.now ≡ self.now.last }
        ensures most { length result.now ≤ 10 }
    {
        &self.buffer[LAST_AT..LAST_AT + usize::from(self.last)]
    }
}

impl TileStore {
    /// Keeps the tiles of a Regular's payload, the first at this place. A place that holds a tile
    /// keeps it. True exactly where some tile is kept. It takes no memory.
    pub(crate) fn keep(&mut self, place: usize, payload: &[u8]) -> bool
        requires within { place + (length payload.now + 9) / 10 ≤ 252 }
        ensures tiles { self.new.tiles ≡ keep place (payload_tiles (octets payload.now)) self.old.tiles }
        ensures last { self.new.last ≡ self.old.last }
        ensures kept { result ≡ not (all_held place (length (payload_tiles (octets payload.now))) self.old.tiles) }
    {
        let mut is_new = false;
        let mut at = place;
        let mut rest = payload;
        while !rest.is_empty() {
            let (tile, later) = rest.split_at(TILE.min(rest.len()));
            is_new |= self.put(at, tile);
            at += 1;
            rest = later;
        }
        is_new
    }

    /// The tiles of the window that are held: a bit a tile, the first highest.
    pub(crate) fn bitmap(&self, w: u8) -> u64
        requires { w < 4 }
        ensures value { result ≡ bits_value (bitmap 63 w (held_bits self.now.tiles)) }
        ensures bits { length (bitmap 63 w (held_bits self.now.tiles)) ≡ 63 }
        ensures below { result < 2 ^ 63 }
    {
        self.marks[usize::from(w)]
    }

    /// Whether each tile of the window is held.
    fn is_full(&self, w: u8) -> bool
        requires { w < 4 }
        ensures { result ≡ all_true (bitmap 63 w (held_bits self.now.tiles)) }
    {
        self.bitmap(w) == FULL
    }

    /// Whether in this window no tile is held behind one that isn't: what it lacks is then written in
    /// ones alone, at the number's end.
    fn is_gapless(&self, w: u8) -> bool
        requires { w < 4 }
        ensures { result ≡ no_gap (bitmap 63 w (held_bits self.now.tiles)) }
    {
        let lacks = FULL - self.bitmap(w);
        lacks & (lacks + 1) == 0
    }

    /// The lowest window below `last` of which a tile isn't held, else `last`.
    pub(crate) fn open_window(&self, last: u8) -> u8
        requires { last < 4 }
        ensures window { result ≡ open_window 63 last (held_bits self.now.tiles) }
        ensures below { result ≤ last }
    {
        for w in 0..last {
            if !self.is_full(w) {
                return w;
            }
        }
        last
    }

    /// Whether each window below this one is full, and in this one no tile is held behind one that
    /// isn't.
    fn is_whole(&self, w: u8) -> bool
        requires { w < 4 }
        ensures { result ≡ is_whole w (held_bits self.now.tiles) }
    {
        self.open_window(w) == w && self.is_gapless(w)
    }

    /// The tile that is held at the place, or no byte.
    fn tile_at(&self, place: usize) -> &[u8]
        requires { place < 252 }
        ensures joins { joined_tiles (take (place + 1) self.now.tiles) ≡ joined_tiles (take place self.now.tiles) ++ octets result.now }
        ensures most { length result.now ≤ 10 }
    {
        let start = TILE * place;
        &self.buffer[start..start + usize::from(self.sizes[place])]
    }

    /// The reassembly check sequence of the tiles up to the window `w`, and of this tile behind them.
    /// It takes no memory.
    fn rcs_with(&self, w: u8, tile: &[u8]) -> u32
        requires window { w < 4 }
        requires most { length tile.now ≤ 10 }
        ensures { result ≡ rcs_of (joined_tiles (take (63 * (w + 1)) self.now.tiles) ++ octets tile.now) }
    {
        let mut register = Register::new();
        for place in 0..WINDOW * (usize::from(w) + 1) {
            let held = self.tile_at(place);
            register.add(held, 0, 8 * held.len());
        }
        register.add(tile, 0, 8 * tile.len());
        register.value()
    }

    /// Whether the check of an All-1 of the window `w` with this tile passes. It takes no memory.
    fn passes(&self, w: u8, rcs: u32, tile: &[u8]) -> bool
        requires window { w < 4 }
        requires most { length tile.now ≤ 10 }
        ensures { result ≡ passes self.now.tiles (last_of w rcs (octets tile.now)) }
    {
        self.is_whole(w) && self.rcs_with(w, tile) == rcs
    }

    /// Whether the check of an All-1 of the window `w` with the tile that is kept passes. It takes no
    /// memory.
    pub(crate) fn last_passes(&self, w: u8, rcs: u32) -> bool
        requires { w < 4 }
        ensures { result ≡ passes self.now.tiles (last_of w rcs self.now.last) }
    {
        self.passes(w, rcs, self.last())
    }

    /// The tiles up to the window `w`, and this tile behind them.
    ///
    /// # Errors
    /// Want of memory.
    fn joined(&self, alloc: Global, w: u8, tile: &[u8]) -> Result<Bits, AllocError>
        requires { w < 4 }
        ensures { IfOk result (λ bits. bits ≡ joined_tiles (take (63 * (w + 1)) self.now.tiles) ++ octets tile.now) }
    {
        let mut bits = Bits::new(alloc);
        for place in 0..WINDOW * (usize::from(w) + 1) {
            bits.push_bytes(self.tile_at(place))?;
        }
        bits.push_bytes(tile)?;
        Ok(bits)
    }

    /// The assembly of an All-1 of the window `w` with this tile, where its check passes.
    ///
    /// # Errors
    /// Want of memory.
    pub(crate) fn preview(
        &self,
        alloc: Global,
        w: u8,
        rcs: u32,
        tile: &[u8],
    ) -> Result<Option<Bits>, AllocError>
        requires window { w < 4 }
        requires most { length tile.now ≤ 10 }
        ensures bits { IfOk result (λ bits. bits ≡ if_passed (Some (record { tiles = self.now.tiles; last = last_of w rcs (octets tile.now) }))) }
        ensures memory { OnErr result (IsSome (if_passed (Some (record { tiles = self.now.tiles; last = last_of w rcs (octets tile.now) })))) }
        ensures room { IfOk result (λ bits. IfSome bits (λ bits. length bits ≤ 8 * reassembly_bytes)) }
    {
        self.stands();
        if self.passes(w, rcs, tile) {
            Ok(Some(self.joined(alloc, w, tile)?))
        } else {
            Ok(None)
        }
    }

    /// The tiles of the window that are held, and at the lowest bit that of the All-1 where it has
    /// one.
    pub(crate) fn last_bitmap(&self, w: u8) -> u64
        requires { w < 4 }
        ensures value { result ≡ bits_value (with_tile self.now.last (bitmap 63 w (held_bits self.now.tiles))) }
        ensures below { result < 2 ^ 63 }
    {
        let mark = self.bitmap(w);
        if self.last().is_empty() {
            mark
        } else {
            mark | 1
        }
    }
}

/// Whether a place with this size holds a tile.
fn is_held(size: u8) -> bool
    ensures { result ≡ is_sized size }
{
    size != 0
}

/// Writes the bytes over those of the buffer from the index `at` on.
fn write_at(buffer: &mut Vec<u8>, at: usize, bytes: &[u8])
    requires { at + length bytes.now ≤ length buffer.old.items }
    ensures { buffer.new.items ≡ overwritten at bytes.now buffer.old.items }
{
    buffer[at..at + bytes.len()].copy_from_slice(bytes);
}
