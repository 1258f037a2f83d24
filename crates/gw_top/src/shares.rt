//! What one device's world, and the chain of editions, give of the outcomes of a script.

ghost use Rattle.std.specs.Prelude.{◌≡◌, ◌∷◌, ◌++◌, [], map, IfOk, OnOk};
ghost use Rattle.schc_ids.specs.Params.{IsParams, default_params};
ghost use Rattle.editions.specs.Data.{first_edition};
ghost use Rattle.event_data.specs.Events.{view_event};
ghost use Rattle.event_data.specs.Outcomes.{IsLineOf};
ghost use Rattle.two_ends.specs.World.{step};
ghost use Rattle.script_lang.specs.Ranges.{HaveParams};
ghost use Rattle.transcripts.specs.Lines.{IsSaid};
ghost use Rattle.gw_top.specs.Run.{is_publication, chain_next, line_of};
ghost use Rattle.gw_top.specs.Shares.{first_world, published_part, published_lines};
ghost use Rattle.gw_top.specs.Dealing.{
  seen,
  world_after,
  turn_step,
  due,
  lines_of_turns,
  share_from,
};

use crate::dealing::{Dealt, Turn};
use crate::queues::Queue;
use event_data::{Line, StepFault, WorldEvent};
use rule_model::DeviceLine;
use schc_ids::{EndParams, Iids};
use script_lang::ScriptEvent;
use std::alloc::{AllocError, Global};
use std::cmp::min;
use std::marker::Model;
use two_ends::World;

/// Whether an edition is published.
pub(crate) fn is_publication(event: &WorldEvent) -> bool
    ensures { result ≡ is_publication (view_event event.now) }
{
    matches!(event, WorldEvent::Publish(_))
}

/// The world in which nothing has happened.
#[tactic(auto, unfolding(crate::specs::Shares::first_world))]
fn first_world(alloc: Global, params: EndParams) -> Result<World, AllocError>
    requires { IsParams params }
    ensures { IfOk result (λ world. world ≡ first_world params) }
{
    World::new(alloc, params)
}

/// The event's outcome as a line: two faults have one, a frame that was never sent and an edition
/// that the chain lacks.
#[tactic(auto, using(crate::proofs::FaultLemmas::said))]
fn outcome(world: &mut World, event: &WorldEvent) -> Result<Line, AllocError>
    ensures line { IfOk result (λ line. line ≡ line_of (step world.old (view_event event.now)).1) }
    ensures said { IfOk result IsSaid }
    ensures world { OnOk result (world.new ≡ (step world.old (view_event event.now)).0) }
{
    match world.step(event) {
        Ok(line) => Ok(line),
        Err(StepFault::NoSuchFrame(_)) => Ok(Line::NoFrame),
        Err(StepFault::NoSuchEdition(_)) => Ok(Line::NoEdition),
        Err(StepFault::Memory) => Err(AllocError),
    }
}

/// Lets all these events happen in the world, without their outcomes.
fn happen(world: &mut World, events: &[&WorldEvent]) -> Result<(), AllocError>
    ensures { OnOk result (world.new ≡ world_after world.old (seen events.now)) }
{
    for event in events {
        let _line = outcome(world, event)?;
    }
    Ok(())
}

/// The outcome of an event before which these publications happen, which are due.
fn turn_line(world: &mut World, due: &[&WorldEvent], event: &WorldEvent) -> Result<Line, AllocError>
    ensures line { IfOk result (λ line.
        line ≡ line_of (turn_step world.old (seen due.now) (view_event event.now)).1) }
    ensures said { IfOk result IsSaid }
    ensures world { OnOk result (
        world.new ≡ (turn_step world.old (seen due.now) (view_event event.now)).0) }
{
    happen(world, due)?;
    outcome(world, event)
}

/// The publications behind the first `done` ones, as far as the first `before` ones.
#[tactic(auto, using(crate::proofs::DealingLemmas::due_slice))]
fn due<'a, 'b>(
    publications: &'a [&'b WorldEvent],
    done: usize,
    before: usize,
) -> &'a [&'b WorldEvent]
    ensures { seen result.now ≡ due (seen publications.now) done before }
{
    let (_, left) = publications.split_at(min(done, publications.len()));
    let (front, _) = left.split_at(min(before.saturating_sub(done), left.len()));
    front
}

/// A device whose events are still to be run, and the queue for their outcomes, in which none is
/// yet. A contract sees the device.
#[derive(Drop)]
pub(crate) struct Job {
    device: DeviceLine,
    queue: Queue,
}

impl Model for Job {
    ghost use Rattle.std.specs.Prelude.{◌≡◌, []};
    ghost use Rattle.rule_model.specs.declared.raw.DeviceLine.{DeviceLine};

    ghost Value = { DeviceLine };

    ghost view = { λ j. j.device };

    ghost invariant = { λ j. j.queue ≡ [] };
}

/// A device's job, whose queue has room for the outcomes of all events that are dealt out to it.
fn job_of(alloc: Global, device: &DeviceLine, dealt: &Dealt) -> Result<Job, AllocError>
    ensures { IfOk result (λ made. made ≡ device.now) }
{
    let lines = match dealt.turns_of(device.number) {
        Some(turns) => turns.as_slice().len(),
        None => 0,
    };
    Ok(Job {
        device: *device,
        queue: Queue::with_room(alloc, lines)?,
    })
}

/// The jobs of these devices. They are made before the work is shared out: an allocation by many
/// threads costs more than one by one.
///
/// # Errors
/// Want of memory.
pub(crate) fn jobs(
    alloc: Global,
    devices: &[DeviceLine],
    dealt: &Dealt,
) -> Result<Vec<Job>, AllocError>
    ensures { IfOk result (λ jobs. jobs.items ≡ devices.now) }
{
    let mut jobs = Vec::with_capacity(alloc, devices.len())?;
    for device in devices {
        jobs.push(job_of(alloc, device, dealt)?)?;
    }
    Ok(jobs)
}

/// Puts the outcomes of these turns of a device last into the queue. This is its world before the
/// first of them. Each turn comes behind as many publications as stand before it.
fn own_lines(
    world: &mut World,
    publications: &[&WorldEvent],
    turns: &[Turn],
    queue: &mut Queue,
) -> Result<(), AllocError>
    ensures { OnOk result (
        queue.new ≡ queue.old ++ lines_of_turns world.old (seen publications.now) 0 turns.now) }
{
    let mut done = 0;
    for turn in turns {
        let before = turn.before;
        let event = turn.event;
        let line = turn_line(world, due(publications, done, before), event)?;
        queue.push(line)?;
        done = before;
    }
    Ok(())
}

/// A device's number, and the outcomes of its events.
fn share(alloc: Global, job: Job, dealt: &Dealt) -> Result<(u16, Queue), AllocError>
    requires { IsParams job.params }
    ensures { IfOk result (λ share. share ≡ share_from dealt.now job) }
{
    let device = job.device;
    let mut queue = job.queue;
    let Some(turns) = dealt.turns_of(device.number) else {
        return Ok((device.number, queue));
    };
    let mut world = first_world(alloc, device.params)?;
    let made = own_lines(
        &mut world,
        dealt.publications(),
        turns.as_slice(),
        &mut queue,
    );
    drop(world);
    made?;
    Ok((device.number, queue))
}

/// The shares of the devices of these jobs.
///
/// # Errors
/// Want of memory.
pub(crate) fn shares(
    alloc: Global,
    jobs: Vec<Job>,
    dealt: &Dealt,
) -> Result<Vec<(u16, Queue)>, AllocError>
    requires { HaveParams jobs.items }
    ensures { IfOk result (λ shares. shares.items ≡ map (share_from dealt.now) jobs.items) }
{
    let mut shares = Vec::with_capacity(alloc, jobs.len())?;
    for job in jobs {
        shares.push(share(alloc, job, dealt)?)?;
    }
    Ok(shares)
}

/// Publishes in a world what the event publishes, if it does. The outcome goes last into the queue.
#[tactic(auto, using(crate::proofs::ChainLemmas::publish_line, crate::proofs::ChainLemmas::publish_chain))]
fn published_turn(
    world: &mut World,
    event: &ScriptEvent,
    queue: &mut Queue,
) -> Result<(), AllocError>
    ensures chain { OnOk result (world.new.chain ≡ chain_next world.old.chain event.now.event) }
    ensures line { OnOk result (
        queue.new ≡ queue.old ++ published_part world.old.chain event.now.event) }
{
    match &event.event {
        WorldEvent::Publish(_) => {
            let line = outcome(world, &event.event)?;
            queue.push(line)
        }
        _ => Ok(()),
    }
}

/// The outcomes of the publications, from this world on.
fn published_lines(
    alloc: Global,
    world: &mut World,
    events: &[ScriptEvent],
) -> Result<Queue, AllocError>
    ensures { IfOk result (λ queue. queue ≡ published_lines world.old.chain events.now) }
{
    let mut queue = Queue::new(alloc);
    for event in events {
        published_turn(world, event, &mut queue)?;
    }
    Ok(queue)
}

/// The outcomes of a script's publications, which are there without any device.
///
/// # Errors
/// Want of memory.
#[tactic(auto, unfolding(crate::specs::Shares::first_world))]
pub(crate) fn publications(alloc: Global, events: &[ScriptEvent]) -> Result<Queue, AllocError>
    ensures { IfOk result (λ queue. queue ≡ published_lines (first_edition ∷ []) events.now) }
{
    let mut world = first_world(alloc, EndParams::with_defaults(Iids { dev: 0, app: 0 }))?;
    let queue = published_lines(alloc, &mut world, events);
    drop(world);
    queue
}
