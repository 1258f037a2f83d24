//! Packets of a work file, each with a line, by the last edition of the file.

ghost use Rattle.std.specs.Prelude.{◌≡◌, ◌⊎◌, ◌++◌, None, Some, OnOk, IfOk, IfErr, string_bytes};
ghost use Rattle.rule_commands.specs.Packets.{outcome_of, packet_line, packet_lines, worked, pack_of, unpack_of};

use crate::chains::last_edition;
use crate::output::{Output, refused};
use crate::packing::push_packed;
use crate::unpacking::push_unpacked;
use editions::Edition;
use rule_json::{JsonFault, Packet, WorkFile, read_work};
use schc_ids::{Direction, Iids};
use std::alloc::{AllocError, Global};

/// What is done with the packets.
#[derive(Clone, Copy, Debug, PartialEq, Eq)]
pub(crate) enum Task {
    Pack,
    Unpack,
}

/// Writes the line of a packet, which has this place, counted from 1.
#[tactic(auto, unfolding(crate::specs::Packets::outcome_of, crate::specs::Packets::packet_line))]
fn push_line(
    text: &mut String,
    task: Task,
    edition: &Edition,
    work: &WorkFile,
    place: u64,
    packet: &[u8],
) -> Result<(), AllocError>
    ensures { OnOk result (string_bytes text.new ≡ string_bytes text.old ++ packet_line place (outcome_of task work.now edition.now packet.now)) }
{
    write!(text, "{place} ")?;
    match task {
        Task::Pack => push_packed(text, edition, work.iids, work.direction, packet)?,
        Task::Unpack => push_unpacked(text, edition, work.iids, work.direction, packet)?,
    }
    text.push_str("\n")
}

/// The lines of the packets.
fn lines(
    alloc: Global,
    task: Task,
    edition: &Edition,
    work: &WorkFile,
) -> Result<Vec<u8>, AllocError>
    ensures { IfOk result (λ text. text.items ≡ packet_lines (outcome_of task work.now edition.now) 1 work.now.packets) }
{
    let mut text = String::new(alloc);
    for (index, packet) in work.packets.as_slice().iter().enumerate() {
        let bytes = packet.bytes.as_slice();
        push_line(&mut text, task, edition, work, index as u64 + 1, bytes)?;
    }
    Ok(text.into_bytes())
}

/// The output of the task for a work file.
fn worked(alloc: Global, task: Task, work: &WorkFile) -> Result<Output, AllocError>
    ensures { IfOk result (λ output. output ≡ worked task work.now) }
{
    match last_edition(alloc, work.editions.as_slice())? {
        Ok(edition) => Ok(Output {
            text: lines(alloc, task, &edition, work)?,
            refused: None,
        }),
        Err(finding) => Ok(refused(alloc, finding)),
    }
}

/// Writes the packets of a work file by its last edition: a line for each, or nothing where an edition has a finding.
///
/// # Errors
/// The text is no JSON, or not in the layout of a work file, and want of memory.
pub fn pack(alloc: Global, text: &[u8]) -> Result<Output, JsonFault>
    ensures done { IfOk result (λ output. pack_of text.now ≡ Some output) }
    ensures refused { IfErr result (λ fault. (fault ≡ JsonFault.Memory) ⊎ (pack_of text.now ≡ None)) }
{
    let work = read_work(alloc, text)?;
    let output = worked(alloc, Task::Pack, &work)?;
    Ok(output)
}

/// Reads the packets of a work file by its last edition: a line for each, or nothing where an edition has a finding.
///
/// # Errors
/// The text is no JSON, or not in the layout of a work file, and want of memory.
pub fn unpack(alloc: Global, text: &[u8]) -> Result<Output, JsonFault>
    ensures done { IfOk result (λ output. unpack_of text.now ≡ Some output) }
    ensures refused { IfErr result (λ fault. (fault ≡ JsonFault.Memory) ⊎ (unpack_of text.now ≡ None)) }
{
    let work = read_work(alloc, text)?;
    let output = worked(alloc, Task::Unpack, &work)?;
    Ok(output)
}
