//! The sent bits of a value.

ghost use Rattle.std.specs.Prelude.{ℕ, ◌≡◌, ◌*◌, ◌^◌, ◌<◌, ◌≤◌, min, Ok, Err, IfOk, IfErr};
ghost use Rattle.schc_bits.specs.Bits.{bits_value};
ghost use Rattle.rule_model.specs.Residue.{token_bits};
ghost use Rattle.decompress.specs.Reading.{taken_at, value_at};

use crate::number::{read_bits, read_size};
use rule_model::{Fields, Length, value_of};
use schc_bits::{BitReader, Part};
use schc_ids::{FieldAt, FieldName, ResidueFault};

/// No list has as many bytes of bits.
const MOST_BYTES: u64 = 1 << 61;

const TOKEN_LENGTH: FieldAt = FieldAt {
    name: FieldName::CoapTkl,
    position: 1,
};

/// The number that the bits write, or `MOST_BYTES` where it is higher.
fn capped_number(bits: &Part<'_>) -> u64
    ensures { result ≡ min (bits_value bits.now) (2 ^ 61) }
{
    let mut number = 0u64;
    for i in 0..bits.len() {
        number = (2 * number + u64::from(bits.bit(i))).min(MOST_BYTES);
    }
    number
}

/// A token, whose length in bytes stands in the token length field (RFC 8824, section 4.5).
fn read_token<'a>(reader: &mut BitReader<'a>, before: &Fields) -> Result<Part<'a>, ResidueFault>
    ensures ok { IfOk result (λ bits. taken_at (token_bits before.now.items) reader.old ≡ Ok (bits, reader.new)) }
    ensures err { IfErr result (λ fault. taken_at (token_bits before.now.items) reader.old ≡ Err fault) }
{
    let bytes = capped_number(&value_of(before, TOKEN_LENGTH)) as usize;
    if reader.left() / 8 < bytes {
        return Err(ResidueFault::Short);
    }
    read_bits(reader, 8 * bytes)
}

/// The bits of a value after its first `skip`, where `before` are the fields so far.
pub fn read_value<'a>(
    reader: &mut BitReader<'a>,
    before: &Fields,
    kind: Length,
    skip: usize,
) -> Result<Part<'a>, ResidueFault>
    ensures ok { IfOk result (λ bits. value_at before.now.items kind skip reader.old ≡ Ok (bits, reader.new)) }
    ensures err { IfErr result (λ fault. value_at before.now.items kind skip reader.old ≡ Err fault) }
{
    match kind {
        Length::Fixed(width) => read_bits(reader, usize::from(width).saturating_sub(skip)),
        Length::TokenLength => read_token(reader, before),
        Length::Variable => {
            let size = read_size(reader)?;
            read_bits(reader, 8 * size as usize)
        }
    }
}
