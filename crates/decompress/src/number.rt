//! Numbers and sizes in a residue.

ghost use Rattle.std.specs.Prelude.{ℕ, ◌≡◌, ◌^◌, ◌<◌, ◌≤◌, Ok, Err, IfOk, IfErr};
ghost use Rattle.decompress.specs.Reading.{byte_size_from, counted_at, long_size_at, minimal, size_at, size_from, taken_at};

use schc_bits::{BitReader, Part};
use schc_ids::ResidueFault;

/// The next `count` bits.
pub fn read_bits<'a>(reader: &mut BitReader<'a>, count: usize) -> Result<Part<'a>, ResidueFault>
    ensures ok { IfOk result (λ bits. taken_at count reader.old ≡ Ok (bits, reader.new)) }
    ensures err { IfErr result (λ fault. taken_at count reader.old ≡ Err fault) }
{
    match reader.take_part(count) {
        Some(bits) => Ok(bits),
        None => Err(ResidueFault::Short),
    }
}

/// The number in the next `count` bits.
pub fn read_number(reader: &mut BitReader<'_>, count: u32) -> Result<u64, ResidueFault>
    requires { count ≤ 64 }
    ensures ok { IfOk result (λ number. counted_at count reader.old ≡ Ok (number, reader.new)) }
    ensures below { IfOk result (λ number. number < 2 ^ count) }
    ensures err { IfErr result (λ fault. counted_at count reader.old ≡ Err fault) }
{
    match reader.read(count) {
        Some(number) => Ok(number),
        None => Err(ResidueFault::Short),
    }
}

/// A size from 255 on, after twelve ones.
fn read_long_size(reader: &mut BitReader<'_>) -> Result<u64, ResidueFault>
    ensures ok { IfOk result (λ size. long_size_at reader.old ≡ Ok (size, reader.new)) }
    ensures below { IfOk result (λ size. size < 2 ^ 16) }
    ensures err { IfErr result (λ fault. long_size_at reader.old ≡ Err fault) }
{
    let size = read_number(reader, 16)?;
    if size < 255 {
        return Err(ResidueFault::NonMinimalSize);
    }
    Ok(size)
}

/// A size from 15 on, which begins with this byte after four ones.
fn read_from_byte(reader: &mut BitReader<'_>, byte: u64) -> Result<u64, ResidueFault>
    requires { byte < 2 ^ 8 }
    ensures ok { IfOk result (λ whole. byte_size_from byte reader.old ≡ Ok (whole, reader.new)) }
    ensures below { IfOk result (λ whole. whole < 2 ^ 16) }
    ensures err { IfErr result (λ fault. byte_size_from byte reader.old ≡ Err fault) }
{
    if byte == 255 {
        return read_long_size(reader);
    }
    if byte < 15 {
        return Err(ResidueFault::NonMinimalSize);
    }
    Ok(byte)
}

/// A size in bytes, in its shortest form (RFC 8724, section 7.4.2).
#[tactic(auto, unfolding(crate::specs::Reading::size_at))]
pub fn read_size(reader: &mut BitReader<'_>) -> Result<u64, ResidueFault>
    ensures ok { IfOk result (λ size. size_at reader.old ≡ Ok (size, reader.new)) }
    ensures below { IfOk result (λ size. size < 2 ^ 16) }
    ensures err { IfErr result (λ fault. size_at reader.old ≡ Err fault) }
{
    let size = read_number(reader, 4)?;
    if size < 15 {
        return Ok(size);
    }
    let byte = read_number(reader, 8)?;
    read_from_byte(reader, byte)
}
