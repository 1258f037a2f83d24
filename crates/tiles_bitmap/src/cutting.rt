//! Cutting an SCHC packet.

ghost use Rattle.std.specs.Prelude.{ℕ, ◌≡◌, ◌-◌, ◌<◌, ◌≤◌, ◌∷◌, length, get_or, IfOk};
ghost use Rattle.schc_ids.specs.Fragments.{IsFragParams};
ghost use Rattle.tiles_bitmap.specs.Tiles.{most_in_last, tile_size, tile_ends};

use schc_bits::ItemList;
use schc_ids::{FragMode, FragParams};
use std::alloc::{AllocError, Global};

/// The bits at which the tiles of an SCHC packet end, in their order. The first tile begins at bit
/// 0, each other where the one before ends.
pub type Cuts = ItemList<usize>;

/// Where the tiles of an SCHC packet of so many bits end (RFC 8724 section 8.2.2.1), if a frame has
/// at most `mtu` bytes. In ACK-on-Error tiles are 80 bits. Else, while what is left doesn't fit in an
/// All-1, a tile is as large as fills whole bytes with the header and leaves at least eight bits.
///
/// # Errors
/// Want of memory.
pub fn cut(alloc: Global, params: &FragParams, mtu: u16, bits: usize) -> Result<Cuts, AllocError>
    requires row { IsFragParams params.now }
    requires least { 15 ≤ mtu }
    requires most { mtu ≤ 242 }
    requires bits { 96 ≤ bits }
    ensures { IfOk result (λ cuts. cuts.items ≡ tile_ends params.now mtu bits) }
{
    let most = most_in_last(params.mode, mtu);
    let mut cuts = ItemList::new(alloc);
    let mut at: usize = 0;
    while bits - at > most {
        at += tile_size(params.mode, mtu, bits - at);
        cuts.push(at)?;
    }
    cuts.push(bits)?;
    Ok(cuts)
}

/// The bit at which the tile with the index i begins.
pub fn start_of(cuts: &Cuts, i: usize) -> usize
    requires { i < length cuts.now.items }
    ensures { result ≡ get_or (0 ∷ cuts.now.items) i 0 }
{
    if i == 0 { 0 } else { *cuts.at(i - 1) }
}

/// The bit at which the tile with the index i ends.
pub fn end_of(cuts: &Cuts, i: usize) -> usize
    requires { i < length cuts.now.items }
    ensures { result ≡ get_or cuts.now.items i 0 }
{
    *cuts.at(i)
}

/// The most bits of a last tile.
#[tactic(auto, unfolding(crate::specs::Tiles::most_in_last))]
fn most_in_last(mode: FragMode, mtu: u16) -> usize
    requires least { 15 ≤ mtu }
    ensures { result ≡ most_in_last mode mtu }
{
    match mode {
        FragMode::NoAck => 8 * usize::from(mtu) - 33,
        FragMode::AckAlways => 8 * usize::from(mtu) - 34,
        FragMode::AckOnError => 80,
    }
}

/// The size of a tile that isn't the last, where `left` bits are left.
#[tactic(auto, using(crate::proofs::TilesLemmas::tile_size_some, crate::proofs::TilesLemmas::tile_size_leaves), unfolding(crate::specs::Tiles::tile_size, crate::specs::Tiles::most_in_last))]
fn tile_size(mode: FragMode, mtu: u16, left: usize) -> usize
    requires least { 15 ≤ mtu }
    requires more { most_in_last mode mtu < left }
    ensures value { result ≡ tile_size mode mtu left }
    ensures some { 1 ≤ result }
    ensures leaves { result < left }
{
    match mode {
        FragMode::NoAck => 8 * usize::from(mtu).min((left - 7) / 8) - 1,
        FragMode::AckAlways => 8 * usize::from(mtu).min((left - 6) / 8) - 2,
        FragMode::AckOnError => 80,
    }
}
