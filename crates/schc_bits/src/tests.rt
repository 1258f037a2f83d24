//! What no clause says: that calls succeed, and that bits are those that were written out by hand.

use crate::{BitReader, Bits, ItemList, Octets, Part, same_items};
use std::alloc::{AllocError, Global};

/// 1010 0101 0011 1100, and then 1011.
fn sample(alloc: Global) -> Result<Bits, AllocError> {
    let mut bits = Bits::from_bytes(alloc, &[0xA5, 0x3C])?;
    bits.push_bits(11, 4)?;
    Ok(bits)
}

/// The twelve bits 101, 1 and 1000 0001, twice.
fn twice(alloc: Global) -> Result<Bits, AllocError> {
    let mut bits = Bits::from_number(alloc, 5, 3)?;
    bits.push(true)?;
    bits.push_bytes(&[0x81])?;
    let copy = bits.copy()?;
    bits.extend(&copy)?;
    Ok(bits)
}

/// The bytes 1 to 6.
fn six(alloc: Global) -> Result<Octets, AllocError> {
    let mut bytes = Octets::new(alloc);
    bytes.push(1)?;
    bytes.extend_from(&[2, 3])?;
    bytes.reserve(3)?;
    bytes.put(4);
    bytes.put_all(&[5, 6]);
    bytes.copy()
}

fn is_padded(bits: &Bits, expected: &[u8]) -> Result<bool, AllocError> {
    let bytes = bits.to_padded_bytes()?;
    Ok(bytes.as_slice() == expected)
}

/// Whether the bits from 4 up to 16 are 0101 0011 1100.
fn is_sliced(bits: &Bits) -> Result<bool, AllocError> {
    let middle = bits.slice(bits.len().min(4), bits.len().min(16))?;
    is_padded(&middle, &[0x53, 0xC0])
}

/// Whether the bits from 60 up to 68 of these sixteen bytes are 1111 0000, across a word's end.
fn is_sliced_across(alloc: Global) -> Result<bool, AllocError> {
    let half = [0x01, 0x23, 0x45, 0x67, 0x89, 0xAB, 0xCD, 0xEF];
    let mut bits = Bits::from_bytes(alloc, &half)?;
    bits.push_bytes(&half)?;
    let middle = bits.slice(bits.len().min(60), bits.len().min(68))?;
    is_padded(&middle, &[0xF0])
}

/// Whether items are put in the place of others, and between them.
fn is_edited(alloc: Global) -> Result<bool, AllocError> {
    let mut bytes = six(alloc)?;
    if bytes.len() < 6 {
        return Ok(false);
    }
    bytes.set(1, 9);
    bytes.insert(5, 8)?;
    Ok(bytes.as_slice() == [1, 9, 3, 4, 5, 8, 6].as_slice())
}

/// Whether a list begins with its first bits, and not with others, and has bits that are set.
fn is_begun(bits: &Bits) -> bool {
    let all = bits.as_part();
    let front = all.front(all.len().min(13));
    let later = all.after(all.len().min(1));
    all.begins_with(&front) && !all.begins_with(&later) && !all.is_zero() && Part::none().is_zero()
}

/// Whether the four bits behind the whole bytes are left out.
fn is_whole(alloc: Global, bits: &Bits) -> Result<bool, AllocError> {
    let bytes = bits.as_part().to_whole_bytes(alloc)?;
    Ok(bytes.as_slice() == [0xA5, 0x3C].as_slice())
}

/// Whether a list of lists of bits is as its copy.
fn is_copied(alloc: Global) -> Result<bool, AllocError> {
    let mut list = ItemList::new(alloc);
    list.push(twice(alloc)?)?;
    let copy = list.copy()?;
    Ok(same_items(list.as_slice(), copy.as_slice()))
}

/// Whether 4 bits, no 17 bits, and then 16 bits are read as they were put in.
fn is_read(bits: &Bits) -> bool {
    let mut reader = BitReader::new(bits);
    reader.read(4) == Some(0xA) && reader.read(17).is_none() && reader.read(16) == Some(0x53CB)
}

/// Whether twelve bits are taken after the first `count`.
fn is_taken(alloc: Global, bits: &Bits, count: u32) -> Result<bool, AllocError> {
    let mut reader = BitReader::new(bits);
    let _ = reader.read(count.min(64));
    Ok(
        reader
            .take_bits(alloc, 12)?
            .is_some_and(|bits| bits.len() == 12),
    )
}

fn all_sliced(alloc: Global) -> Result<bool, AllocError> {
    let bits = sample(alloc)?;
    Ok(is_padded(&bits, &[0xA5, 0x3C, 0xB0])? && is_sliced(&bits)? && is_whole(alloc, &bits)?)
}

fn all_read(alloc: Global) -> Result<bool, AllocError> {
    let bits = sample(alloc)?;
    Ok(is_read(&bits) && is_taken(alloc, &bits, 8)? && !is_taken(alloc, &bits, 9)?)
}

fn all_put(alloc: Global) -> Result<bool, AllocError> {
    let bits = twice(alloc)?;
    let bytes = six(alloc)?;
    Ok(is_padded(&bits, &[0xB8, 0x1B, 0x81])? && bytes.as_slice() == [1, 2, 3, 4, 5, 6].as_slice())
}

#[test]
fn bits_by_hand(rt: HostRuntime) -> Result<(), AllocError> {
    assert!(rt; all_sliced(rt.alloc())?);
    assert!(rt; all_read(rt.alloc())?);
    assert!(rt; all_put(rt.alloc())?);
    assert!(rt; is_copied(rt.alloc())?);
    assert!(rt; is_sliced_across(rt.alloc())?);
    assert!(rt; is_edited(rt.alloc())?);
    assert!(rt; is_begun(&sample(rt.alloc())?));
    Ok(())
}
