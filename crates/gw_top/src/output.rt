//! What a command makes of its input.

ghost use Rattle.std.specs.Prelude.{◌≡◌, ◌≢◌, ◌⊎◌, Ok, Err, IfOk, IfErr, IsErr};
ghost use Rattle.load_maker.specs.Load.{load};
ghost use Rattle.gw_top.specs.Run.{IsSafeRun};
ghost use Rattle.gw_top.specs.Words.{AreWorkers, AreLoadNumbers, IsInLimits};
ghost use Rattle.gw_top.specs.Output.{output_of, load_line, loaded, IsSafeFor};

use crate::sim::{load_line, simulate};
use crate::words::Command;
use load_maker::make_load;
use rule_commands::{Output, check, pack, unpack};
use rule_json::JsonFault;
use script_lang::{ScriptFault, parse};
use std::alloc::{AllocError, Global};
use std::thread::Threads;

/// What `sim` prints for a script, made by so many workers.
///
/// # Errors
/// Why the text is no script, and want of memory.
#[tactic(auto, unfolding(crate::specs::Output::output_of))]
fn sim_output<R: Threads + Sync>(
    rt: &R,
    alloc: Global,
    workers: usize,
    text: &[u8],
) -> Result<Output, ScriptFault>
    requires { AreWorkers workers }
    ensures output { IfOk result (λ output. output_of (Command.Sim workers) text.now ≡ Ok output) }
    ensures fault { IfErr result
        (λ fault. (fault ≡ ScriptFault.Memory)
        ⊎ (output_of (Command.Sim workers) text.now ≡ Err fault)) }
    ensures safe { IfOk result (λ _. IsSafeFor (Command.Sim workers) text.now) }
{
    let script = parse(alloc, text)?;
    let lines = simulate(rt, alloc, workers, &script)?;
    Ok(Output {
        text: lines,
        refused: None,
    })
}

/// The line that `load` prints for so many devices and a start: the numbers of the run of its
/// script, made by so many workers.
///
/// # Errors
/// Want of memory.
fn load_text<R: Threads + Sync>(
    rt: &R,
    alloc: Global,
    devices: u16,
    start: u32,
    workers: usize,
) -> Result<Vec<u8>, AllocError>
    requires load { AreLoadNumbers devices start }
    requires workers { AreWorkers workers }
    ensures text { IfOk result (λ text. text.items ≡ load_line (load devices start)) }
    ensures safe { IfOk result (λ _. IsSafeRun (load devices start)) }
{
    let script = make_load(alloc, devices, start)?;
    load_line(rt, alloc, workers, &script)
}

/// What `load` prints for so many devices and a start.
///
/// # Errors
/// Want of memory.
fn load_output<R: Threads + Sync>(
    rt: &R,
    alloc: Global,
    devices: u16,
    start: u32,
    workers: usize,
) -> Result<Output, ScriptFault>
    requires load { AreLoadNumbers devices start }
    requires workers { AreWorkers workers }
    ensures output { IfOk result (λ output. output ≡ loaded devices start) }
    ensures fault { IfErr result (λ fault. fault ≡ ScriptFault.Memory) }
    ensures safe { IfOk result (λ _. IsSafeRun (load devices start)) }
{
    let text = load_text(rt, alloc, devices, start, workers)?;
    Ok(Output {
        text,
        refused: None,
    })
}

/// The output for a text in which lines are not told apart.
///
/// # Errors
/// `BadLine(0)` where the text couldn't be read, and want of memory.
fn unless_bad(made: Result<Output, JsonFault>) -> Result<Output, ScriptFault>
    ensures output { IfOk result (λ output. made ≡ Ok output) }
    ensures fault { IfErr result
        (λ fault. (fault ≡ ScriptFault.Memory)
        ⊎ ((fault ≡ ScriptFault.BadLine 0) × (made ≢ Err JsonFault.Memory) × IsErr made)) }
{
    match made {
        Ok(output) => Ok(output),
        Err(JsonFault::Memory) => Err(ScriptFault::Memory),
        Err(_) => Err(ScriptFault::BadLine(0)),
    }
}

/// The output of the command for an input.
///
/// # Errors
/// Why the input is none for the command, and want of memory.
#[tactic(auto, unfolding(crate::specs::Output::output_of))]
pub(crate) fn output_for<R: Threads + Sync>(
    rt: &R,
    alloc: Global,
    command: Command,
    text: &[u8],
) -> Result<Output, ScriptFault>
    requires { IsInLimits command }
    ensures output { IfOk result (λ output. output_of command text.now ≡ Ok output) }
    ensures fault { IfErr result
        (λ fault. (fault ≡ ScriptFault.Memory) ⊎ (output_of command text.now ≡ Err fault)) }
    ensures safe { IfOk result (λ _. IsSafeFor command text.now) }
{
    match command {
        Command::Check => unless_bad(check(alloc, text)),
        Command::Pack => unless_bad(pack(alloc, text)),
        Command::Unpack => unless_bad(unpack(alloc, text)),
        Command::Sim(workers) => sim_output(rt, alloc, workers, text),
        Command::Load {
            devices,
            start,
            workers,
        } => load_output(rt, alloc, devices, start, workers),
    }
}
