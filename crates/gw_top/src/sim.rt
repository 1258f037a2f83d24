//! The run of a script, as it is printed, and its numbers.

ghost use Rattle.std.specs.Prelude.{◌≡◌, [], IfOk, string_bytes};
ghost use Rattle.std.specs.List.{AllByRecursion};
ghost use Rattle.script_lang.specs.Ranges.{HaveParams, HandBytes, HaveOwnNumbers};
ghost use Rattle.transcripts.specs.Lines.{IsSaid};
ghost use Rattle.gw_top.specs.Run.{outcomes_after, run_of, lines_from, printed, IsSafeRun};
ghost use Rattle.gw_top.specs.Words.{AreWorkers};
ghost use Rattle.gw_top.specs.Shares.{AreLinesOf};
ghost use Rattle.gw_top.specs.Merging.{IsOwned};
ghost use Rattle.gw_top.specs.Output.{load_line};

use crate::groups::shared;
use crate::merging::{by_device, merged};
use crate::shares::publications;
use event_data::Line;
use load_totals::{totals_of, totals_text};
use rule_model::DeviceLine;
use script_lang::{Script, ScriptEvent};
use std::alloc::{AllocError, Global};
use std::thread::Threads;
use transcripts::with_line;

/// The outcomes of these events of these devices, in the script's order, made by so many workers.
///
/// # Errors
/// Want of memory.
#[tactic(auto, using(crate::proofs::RunLemmas::outcomes_fit))]
fn outcomes<R: Threads + Sync>(
    rt: &R,
    alloc: Global,
    workers: usize,
    devices: &[DeviceLine],
    events: &[ScriptEvent],
) -> Result<Vec<Line>, AllocError>
    requires workers { AreWorkers workers }
    requires params { HaveParams devices.now }
    requires numbers { HaveOwnNumbers devices.now }
    requires owned { AllByRecursion (IsOwned devices.now) events.now }
    ensures lines { IfOk result (λ lines. lines.items ≡ outcomes_after devices.now [] events.now) }
    ensures fit { IfOk result (λ lines. AreLinesOf events.now lines.items) }
{
    let mut published = publications(alloc, events)?;
    let shares = shared(rt, alloc, workers, devices, events)?;
    let mut left = by_device(alloc, shares)?;
    merged(alloc, devices, &mut left, &mut published, events)
}

/// The lines of these events with these outcomes.
///
/// # Errors
/// Want of memory.
fn printed_lines(
    alloc: Global,
    events: &[ScriptEvent],
    lines: &[Line],
) -> Result<String, AllocError>
    requires { AreLinesOf events.now lines.now }
    ensures { IfOk result (λ text. string_bytes text ≡ lines_from 1 events.now lines.now) }
{
    let mut text = String::new(alloc);
    let mut left = lines;
    for (index, event) in events.iter().enumerate() {
        let (line, rest) = left.split_first().unwrap();
        text = with_line(text, event.device, &event.event, line, index as u64 + 1)?;
        left = rest;
    }
    Ok(text)
}

/// The outcomes of a script's run, made by so many workers.
///
/// # Errors
/// Want of memory.
#[tactic(auto, using(crate::proofs::RunLemmas::all_owned, crate::proofs::RunLemmas::safe_run))]
fn run_of<R: Threads + Sync>(
    rt: &R,
    alloc: Global,
    workers: usize,
    script: &Script,
) -> Result<Vec<Line>, AllocError>
    requires { AreWorkers workers }
    ensures lines { IfOk result (λ lines. lines.items ≡ (run_of script.now).outcomes) }
    ensures fit { IfOk result (λ lines. AreLinesOf script.now.events lines.items) }
    ensures safe { IsSafeRun script.now }
{
    outcomes(rt, alloc, workers, script.devices(), script.events())
}

/// What is printed for a script: a line for each event of its run, made by so many workers.
///
/// # Errors
/// Want of memory.
pub(crate) fn simulate<R: Threads + Sync>(
    rt: &R,
    alloc: Global,
    workers: usize,
    script: &Script,
) -> Result<Vec<u8>, AllocError>
    requires { AreWorkers workers }
    ensures printed { IfOk result (λ text. text.items ≡ printed script.now (run_of script.now)) }
    ensures safe { IsSafeRun script.now }
{
    let lines = run_of(rt, alloc, workers, script)?;
    let text = printed_lines(alloc, script.events(), lines.as_slice())?;
    Ok(text.into_bytes())
}

/// The numbers of a script's run as a line, made by so many workers.
///
/// # Errors
/// Want of memory.
pub(crate) fn load_line<R: Threads + Sync>(
    rt: &R,
    alloc: Global,
    workers: usize,
    script: &Script,
) -> Result<Vec<u8>, AllocError>
    requires { AreWorkers workers }
    ensures line { IfOk result (λ text. text.items ≡ load_line script.now) }
    ensures safe { IsSafeRun script.now }
{
    let lines = run_of(rt, alloc, workers, script)?;
    let totals = totals_of(rt, lines.as_slice());
    let text = totals_text(
        alloc,
        script.devices().len(),
        script.events().len(),
        &totals,
    )?;
    Ok(text.into_bytes())
}
