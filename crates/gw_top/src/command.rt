//! The commands.

ghost use Rattle.std.specs.Prelude.{◌≡◌, ◌≤◌};
ghost use Rattle.gw_top.specs.Words.{reads_input};
ghost use Rattle.gw_top.specs.Answers.{call, GivesInput, Answers, IsComplete, IsUsage};

use crate::output::output_for;
use crate::status::Status;
use crate::words::{Command, command_in};
use outside::{ReadAllFault, Sink, Source, read_all, write_all};
use schc_ids::limits::MAX_INPUT;
use script_lang::{Counted, ScriptFault};
use std::alloc::Global;
use std::thread::Threads;

/// The input of the command: what the source has to its end, or nothing where the command reads
/// none.
///
/// # Errors
/// Those of a reading to the end.
fn input_of<S: Source>(
    alloc: Global,
    command: &Command,
    input: &mut S,
) -> Result<Vec<u8>, ReadAllFault>
    ensures gives { GivesInput (reads_input command.now) result (S.state input.old) (S.state input.new) }
    ensures grows { (S.state input.old).faults ≤ (S.state input.new).faults }
{
    if command.reads_input() {
        read_all(alloc, input, MAX_INPUT)
    } else {
        Ok(Vec::new(alloc))
    }
}

/// Runs the command that the words name: `check` reads a context, and writes a line for each of its
/// editions; `pack` and `unpack` read a work file, and write a line for each of its packets; `sim`
/// reads a script, and writes a line for each of its events; `load` reads nothing, makes a script
/// of two numbers, and writes one line with the sums over its run. What is written doesn't depend
/// on the number of workers.
#[tactic(auto, using(crate::proofs::InputLemmas::unread_left))]
pub fn run<R: Threads + AllocGlobal + Sync, S: Source, K: Sink>(
    rt: &R,
    words: &[String],
    input: &mut S,
    output: &mut K,
) -> Status
    ensures answers { Answers result
        (call words.now (S.state input.old) (S.state input.new) (K.state output.old)
        (K.state output.new)) }

    // For a source that tells its text, and for `load` with any source, the status is determined,
    // want of memory and faults aside.
    ensures complete { IsComplete result
        (call words.now (S.state input.old) (S.state input.new) (K.state output.old)
        (K.state output.new)) }
    ensures usage { IsUsage result words.now }
    ensures reads { (S.state input.old).faults ≤ (S.state input.new).faults }
    ensures writes { (K.state output.old).faults ≤ (K.state output.new).faults }
{
    let alloc = rt.alloc();
    let command = match command_in(words) {
        Ok(command) => command,
        Err(place) => return Status::Usage(place),
    };
    let text = match input_of(alloc, &command, input) {
        Ok(text) => text,
        Err(ReadAllFault::Fault) => return Status::ReadFault,
        Err(ReadAllFault::TooLong) => return Status::Limit(Counted::Bytes, MAX_INPUT as u64 + 1),
        Err(ReadAllFault::Memory) => return Status::Memory,
    };
    let made = match output_for(rt, alloc, command, text.as_slice()) {
        Ok(made) => made,
        Err(ScriptFault::BadLine(number)) => return Status::BadInput(number),
        Err(ScriptFault::TooMany(counted, number)) => return Status::Limit(counted, number),
        Err(ScriptFault::Memory) => return Status::Memory,
    };
    match write_all(output, made.text.as_slice()) {
        Ok(()) => match made.refused {
            Some(finding) => Status::Refused(finding),
            None => Status::Ok,
        },
        Err(_) => match made.refused {
            Some(finding) => Status::Refused(finding),
            None => Status::WriteFault,
        },
    }
}
