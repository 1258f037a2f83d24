//! The numbers of tiles.

ghost use Rattle.std.specs.Prelude.{◌≡◌};
ghost use Rattle.tiles_bitmap.specs.Numbers.{HasNumber, tile_number};

use schc_ids::{FragMode, FragParams};

/// By what a tile is named in a fragment (RFC 8724 section 8.2.4).
#[derive(Clone, Copy, Debug, PartialEq, Eq)]
pub struct TileNumber {
    /// The number of its window, W.
    pub w: u8,
    /// Its fragment's compressed number, FCN.
    pub fcn: u8,
}

/// The number of the tile with the index `i`, from 0 (RFC 8724 sections 8.2.2.2, 8.2.4 and 8.3). In
/// ACK-on-Error there are numbers for 252 tiles.
#[tactic(auto, unfolding(crate::specs::Numbers::tile_number))]
pub fn tile_number(params: &FragParams, i: usize) -> TileNumber
    requires { HasNumber params.now.mode i }
    ensures { result ≡ tile_number params.now.mode i }
{
    match params.mode {
        FragMode::NoAck => TileNumber { w: 0, fcn: 0 },
        FragMode::AckAlways => TileNumber {
            w: (i % 2) as u8,
            fcn: 0,
        },
        FragMode::AckOnError => TileNumber {
            w: (i / 63) as u8,
            fcn: 62 - (i % 63) as u8,
        },
    }
}
