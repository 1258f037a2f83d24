//! The loops that read a source to its end and write a whole text.
ghost use Rattle.std.specs.Prelude.{◌≤◌, OnErr};
ghost use Rattle.outside.specs.Counting.{Rose};
ghost use Rattle.outside.specs.Reading.{ReadsAll, CountsFailedReading};
ghost use Rattle.outside.specs.Writing.{WritesAll};

use super::sinks::{Sink, Wrote};
use super::sources::{Read, Source};
use std::alloc::Global;

// How many bytes one read of `read_all` asks for at most.
const ROOM: usize = 4096;

/// Why a source could not be read to its end.
#[derive(Clone, Copy, PartialEq, Eq, Debug)]
pub enum ReadAllFault {
    /// A read failed.
    Fault,
    /// The source has more bytes than the limit allows.
    TooLong,
    /// Want of memory.
    Memory,
}

/// Reads the source to its end, and never more than one byte past `limit`, a number of bytes.
///
/// # Errors
///
/// `Fault` where a read failed, `TooLong` where more than `limit` bytes came, and `Memory` for want of
/// memory. The bytes that were read by then are lost.
pub fn read_all<S: Source>(
    alloc: Global,
    source: &mut S,
    limit: usize,
) -> Result<Vec<u8>, ReadAllFault>
    ensures reads { ReadsAll result limit (S.state source.old) (S.state source.new) }
    ensures failed { CountsFailedReading result (S.state source.old) (S.state source.new) }
    ensures grows { (S.state source.old).faults ≤ (S.state source.new).faults }
{
    let mut bytes = Vec::new(alloc);
    let mut room = [0u8; ROOM];
    while bytes.len() <= limit {
        let size = (limit - bytes.len()).min(ROOM - 1) + 1;
        let piece = &mut room[..size];
        match source.read(piece) {
            Read::Got(n) => {
                if bytes.extend_from_slice(&piece[..n]).is_err() {
                    return Err(ReadAllFault::Memory);
                }
            }
            Read::End => return Ok(bytes),
            Read::Failed => return Err(ReadAllFault::Fault),
        }
    }
    Err(ReadAllFault::TooLong)
}

/// A text that could not be written whole.
#[derive(Clone, Copy, PartialEq, Eq, Debug)]
pub struct WriteFault;

/// Writes the whole of `text`, in as many writes as the sink wants.
///
/// # Errors
///
/// A write failed, or took nothing. A front of the text has then been written.
pub fn write_all<K: Sink>(sink: &mut K, text: &[u8]) -> Result<(), WriteFault>
    ensures writes { WritesAll result text.now (K.state sink.old) (K.state sink.new) }
    ensures failed { OnErr result (Rose (K.state sink.old).faults (K.state sink.new).faults) }
    ensures grows { (K.state sink.old).faults ≤ (K.state sink.new).faults }
{
    let mut at = 0;
    while at < text.len() {
        let (_, rest) = text.split_at(at);
        match sink.write(rest) {
            Wrote::Took(0) => return Err(WriteFault),
            Wrote::Took(n) => at += n,
            Wrote::Failed => return Err(WriteFault),
        }
    }
    Ok(())
}
