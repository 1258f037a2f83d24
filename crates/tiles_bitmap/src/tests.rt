//! What no clause says: that cutting succeeds, and that tiles are those that were counted by hand.

ghost use Rattle.std.specs.Prelude.{◌≤◌};

use crate::{TileNumber, cut, tile_number};
use schc_ids::FragMode;
use std::alloc::{AllocError, Global};

fn are_ends(
    alloc: Global,
    mode: FragMode,
    mtu: u16,
    bits: usize,
    expected: &[usize],
) -> Result<bool, AllocError>
    requires least { 15 ≤ mtu }
    requires most { mtu ≤ 242 }
    requires bits { 96 ≤ bits }
{
    let cuts = cut(alloc, &mode.params(), mtu, bits)?;
    Ok(cuts.as_slice() == expected)
}

fn all_cut(alloc: Global) -> Result<bool, AllocError> {
    Ok(
        are_ends(alloc, FragMode::NoAck, 15, 328, &[119, 238, 317, 328])?
            && are_ends(alloc, FragMode::AckAlways, 15, 328, &[118, 236, 314, 328])?
            && are_ends(alloc, FragMode::AckOnError, 15, 240, &[80, 160, 240])?
            && are_ends(alloc, FragMode::NoAck, 242, 1903, &[1903])?
            && are_ends(alloc, FragMode::NoAck, 242, 1904, &[1895, 1904])?,
    )
}

/// Whether the packet of 12,008 bits has 151 tiles.
fn is_counted(alloc: Global) -> Result<bool, AllocError> {
    let cuts = cut(alloc, &FragMode::AckOnError.params(), 15, 12_008)?;
    Ok(cuts.len() == 151)
}

/// Whether a copy of the ends has as many.
fn is_copied(alloc: Global) -> Result<bool, AllocError> {
    let cuts = cut(alloc, &FragMode::AckOnError.params(), 15, 161)?;
    let copy = cuts.copy()?;
    Ok(copy.as_slice() == [80_usize, 160, 161].as_slice())
}

fn is_number(i: usize, w: u8, fcn: u8) -> bool
    requires { i ≤ 251 }
{
    tile_number(&FragMode::AckOnError.params(), i) == TileNumber { w, fcn }
}

#[test]
fn tiles_by_hand(rt: HostRuntime) -> Result<(), AllocError> {
    assert!(rt; all_cut(rt.alloc())?);
    assert!(rt; is_counted(rt.alloc())?);
    assert!(rt; is_copied(rt.alloc())?);
    assert!(rt; is_number(0, 0, 62) && is_number(62, 0, 0));
    assert!(rt; is_number(63, 1, 62) && is_number(251, 3, 0));
    Ok(())
}
