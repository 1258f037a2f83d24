ghost use Rattle.std.specs.Prelude.{◌≡◌, IfOk, IfErr, OnErr, ◌⊎◌};
ghost use Rattle.std.specs.Option.{option_copied};
ghost use Rattle.event_data.specs.Events.{view_event, Down, Slot, Deliver, Tick, Abort, Publish, Offer, Allow};
ghost use Rattle.event_data.specs.Records.{FrameData};
ghost use Rattle.event_data.specs.Outcomes.{IsNote, IsLineOf, HasHappened};
ghost use Rattle.end_core.specs.End.{slot_step, take_step};
ghost use Rattle.schc_ids.specs.Params.{IsParams};
ghost use Rattle.two_ends.specs.World.{beginning, numbered, step, sent_after, MayWantMemory};

use crate::chain::Chain;
use end_core::End;
use event_data::{DownFault, Emission, Frame, Line, StepFault, Taken, Target, WorldEvent};
use publishing::{PublishFault, publish};
use rule_model::RawEdition;
use schc_bits::{ItemList, Octets};
use schc_ids::limits::MAX_MTU;
use schc_ids::{Direction, EndParams, Role};
use std::alloc::{AllocError, Global};
use std::marker::Model;

/// Both ends of one link, the editions of rules that were published, and every frame that was ever
/// sent.
///
/// Contracts see it as the two ends, the chain of editions, and the two lists of frames.
#[derive(Drop)]
pub struct World {
    alloc: Global,
    device: End,
    gateway: End,
    chain: Chain,
    up: ItemList<Frame>,
    down: ItemList<Frame>,
}

impl Model for World {
    ghost use Rattle.two_ends.specs.World.{WorldData};

    ghost Value = { WorldData };

    ghost view = { λ w. record {
      ends = record { device = w.device; gateway = w.gateway };
      chain = w.chain;
      frames = record { up = w.up.items; down = w.down.items };
    } };
}

impl World {
    /// Two new ends, the empty edition 0, and no frame.
    ///
    /// # Errors
    /// Want of memory.
    pub fn new(alloc: Global, params: EndParams) -> Result<World, AllocError>
        requires { IsParams params }
        ensures { IfOk result (λ world. world ≡ beginning params) }
    {
        Ok(World {
            alloc,
            device: End::new(alloc, Role::Device, params)?,
            gateway: End::new(alloc, Role::Gateway, params)?,
            chain: Chain::new(alloc)?,
            up: ItemList::new(alloc),
            down: ItemList::new(alloc),
        })
    }

    /// Lets the event happen, and says its outcome.
    ///
    /// # Errors
    /// `NoSuchFrame` exactly where no frame with the number that is to be delivered was sent in the
    /// direction, `NoSuchEdition` exactly where no edition with the number that is to be offered was
    /// published, and want of memory, which a tick, an abort and an allowance never have. Nothing has
    /// changed then.
    pub fn step(&mut self, event: &WorldEvent) -> Result<Line, StepFault>
        ensures done { IfOk result (λ line. step self.old (view_event event.now) ≡ (self.new, Ok line)) }
        ensures refused { IfErr result (λ fault. (fault ≡ StepFault.Memory) ⊎ (step self.old (view_event event.now) ≡ (self.old, Err fault))) }
        ensures memory { IfErr result (λ fault. fault ≡ StepFault.Memory → MayWantMemory (view_event event.now)) }
        ensures unchanged { OnErr result (self.new ≡ self.old) }
        ensures outcome { IfOk result (λ line. IsLineOf (view_event event.now) line) }
        ensures happened { IfOk result HasHappened }
    {
        match event {
            WorldEvent::Down(role, packet) => self.down(*role, packet.as_slice()),
            WorldEvent::Slot(role) => self.slot(*role),
            WorldEvent::Deliver(direction, number) => self.deliver(*direction, *number),
            WorldEvent::Tick(target) => Ok(self.tick(*target)),
            WorldEvent::Abort(role) => Ok(self.abort(*role)),
            WorldEvent::Publish(edition) => self.publish(edition),
            WorldEvent::Offer(role, number) => self.offer(*role, *number),
            WorldEvent::Allow(role, number) => Ok(self.allow(*role, *number)),
        }
    }

    /// Hands a packet down at an end.
    ///
    /// # Errors
    /// Want of memory; nothing has changed then.
    #[tactic(auto, unfolding(crate::specs::World::step, crate::specs::World::end_event, crate::specs::World::answered, end_core::specs::EndStep::end_step))]
    fn down(&mut self, role: Role, packet: &[u8]) -> Result<Line, StepFault>
        ensures done { IfOk result (λ line. step self.old (Down role packet.now) ≡ (self.new, Ok line)) }
        ensures refused { IfErr result (λ fault. fault ≡ StepFault.Memory) }
        ensures unchanged { OnErr result (self.new ≡ self.old) }
        ensures outcome { IfOk result (λ line. IsLineOf (Down role packet.now) line) }
        ensures happened { IfOk result HasHappened }
    {
        let answer = match role {
            Role::Device => self.device.down(packet),
            Role::Gateway => self.gateway.down(packet),
        };
        match answer {
            Ok(accepted) => Ok(Line::Hand(accepted)),
            Err(DownFault::Memory) => Err(StepFault::Memory),
            Err(fault) => Ok(Line::HandRefused(fault)),
        }
    }

    /// Lets an end send one frame.
    ///
    /// # Errors
    /// Want of memory; nothing has changed then.
    #[tactic(auto, unfolding(crate::specs::World::step, crate::specs::World::end_event, crate::specs::World::answered, end_core::specs::EndStep::end_step))]
    fn slot(&mut self, role: Role) -> Result<Line, StepFault>
        ensures done { IfOk result (λ line. step self.old (Slot role) ≡ (self.new, Ok line)) }
        ensures refused { IfErr result (λ fault. fault ≡ StepFault.Memory) }
        ensures unchanged { OnErr result (self.new ≡ self.old) }
        ensures outcome { IfOk result (λ line. IsLineOf (Slot role) line) }
        ensures happened { IfOk result HasHappened }
    {
        let emitted = match role {
            Role::Device => emit(self.alloc, &mut self.device, &mut self.up),
            Role::Gateway => emit(self.alloc, &mut self.gateway, &mut self.down),
        };
        match emitted {
            Ok(emission) => Ok(Line::Slot(emission)),
            Err(_) => Err(StepFault::Memory),
        }
    }

    /// Lets a frame arrive that was sent in the direction, by its number from 1.
    ///
    /// # Errors
    /// `NoSuchFrame` exactly where there is none with this number, and want of memory. Nothing has
    /// changed then.
    #[tactic(auto, unfolding(crate::specs::World::step, crate::specs::World::end_event, crate::specs::World::answered, end_core::specs::EndStep::end_step, crate::specs::World::deliver_step))]
    fn deliver(&mut self, direction: Direction, number: u64) -> Result<Line, StepFault>
        ensures done { IfOk result (λ line. step self.old (Deliver direction number) ≡ (self.new, Ok line)) }
        ensures refused { IfErr result (λ fault. (fault ≡ StepFault.Memory) ⊎ (step self.old (Deliver direction number) ≡ (self.old, Err fault))) }
        ensures unchanged { OnErr result (self.new ≡ self.old) }
        ensures outcome { IfOk result (λ line. IsLineOf (Deliver direction number) line) }
        ensures happened { IfOk result HasHappened }
    {
        let taken = match direction {
            Direction::Up => arrive(&mut self.gateway, &self.up, number)?,
            Direction::Down => arrive(&mut self.device, &self.down, number)?,
        };
        Ok(Line::Deliver(taken))
    }

    /// Lets a tick pass at one end, or at both: at the device first.
    #[tactic(auto, unfolding(crate::specs::World::step, crate::specs::World::end_event, crate::specs::World::answered, end_core::specs::EndStep::end_step, crate::specs::World::tick_step))]
    fn tick(&mut self, target: Target) -> Line
        ensures done { step self.old (Tick target) ≡ (self.new, Ok result) }
        ensures outcome { IsLineOf (Tick target) result }
        ensures happened { HasHappened result }
    {
        match target {
            Target::Device => Line::Tick(self.device.tick(), None),
            Target::Gateway => Line::Tick(None, self.gateway.tick()),
            Target::Both => {
                let report = self.device.tick();
                Line::Tick(report, self.gateway.tick())
            }
        }
    }

    /// Lets an end give up the session that it sends.
    #[tactic(auto, unfolding(crate::specs::World::step, crate::specs::World::end_event, crate::specs::World::answered, end_core::specs::EndStep::end_step))]
    fn abort(&mut self, role: Role) -> Line
        ensures done { step self.old (Abort role) ≡ (self.new, Ok result) }
        ensures outcome { IsLineOf (Abort role) result }
        ensures happened { HasHappened result }
    {
        let report = match role {
            Role::Device => self.device.abort(),
            Role::Gateway => self.gateway.abort(),
        };
        Line::Abort(report)
    }

    /// Publishes an edition of rules, which is the last one of the chain then, unless there is a
    /// finding.
    ///
    /// # Errors
    /// Want of memory; nothing has changed then.
    #[tactic(auto, unfolding(crate::specs::World::step, crate::specs::World::publish_step))]
    fn publish(&mut self, raw: &RawEdition) -> Result<Line, StepFault>
        ensures done { IfOk result (λ line. step self.old (Publish raw.now) ≡ (self.new, Ok line)) }
        ensures refused { IfErr result (λ fault. fault ≡ StepFault.Memory) }
        ensures unchanged { OnErr result (self.new ≡ self.old) }
        ensures outcome { IfOk result (λ line. IsLineOf (Publish raw.now) line) }
        ensures happened { IfOk result HasHappened }
    {
        let edition = match publish(self.alloc, self.chain.last(), raw) {
            Ok(edition) => edition,
            Err(PublishFault::Found(finding)) => return Ok(Line::Refused(finding)),
            Err(PublishFault::Memory) => return Err(StepFault::Memory),
        };
        let number = edition.number();
        match self.chain.push(edition) {
            Ok(()) => Ok(Line::Published(number)),
            Err(_) => Err(StepFault::Memory),
        }
    }

    /// Offers an end the edition with this number.
    ///
    /// # Errors
    /// `NoSuchEdition` exactly where none with this number was published, and want of memory. Nothing
    /// has changed then.
    #[tactic(auto, unfolding(crate::specs::World::step, crate::specs::World::end_event, crate::specs::World::answered, end_core::specs::EndStep::end_step, crate::specs::World::offer_step))]
    fn offer(&mut self, role: Role, number: u32) -> Result<Line, StepFault>
        ensures done { IfOk result (λ line. step self.old (Offer role number) ≡ (self.new, Ok line)) }
        ensures refused { IfErr result (λ fault. (fault ≡ StepFault.Memory) ⊎ (step self.old (Offer role number) ≡ (self.old, Err fault))) }
        ensures unchanged { OnErr result (self.new ≡ self.old) }
        ensures outcome { IfOk result (λ line. IsLineOf (Offer role number) line) }
        ensures happened { IfOk result HasHappened }
    {
        let Some(edition) = self.chain.at(number) else {
            return Err(StepFault::NoSuchEdition(number));
        };
        let edition = match edition.clone() {
            Ok(edition) => edition,
            Err(_) => return Err(StepFault::Memory),
        };
        let offered = match role {
            Role::Device => self.device.offer(edition),
            Role::Gateway => self.gateway.offer(edition),
        };
        Ok(Line::Offer(offered))
    }

    /// Allows an end to write with the edition with this number.
    #[tactic(auto, unfolding(crate::specs::World::step, crate::specs::World::end_event, crate::specs::World::answered, end_core::specs::EndStep::end_step))]
    fn allow(&mut self, role: Role, number: u32) -> Line
        ensures done { step self.old (Allow role number) ≡ (self.new, Ok result) }
        ensures outcome { IsLineOf (Allow role number) result }
        ensures happened { HasHappened result }
    {
        let allowed = match role {
            Role::Device => self.device.allow(number),
            Role::Gateway => self.gateway.allow(number),
        };
        Line::Allow(allowed)
    }
}

/// Lets an end send the frame that is due, if one is, as the next of these frames.
///
/// # Errors
/// Want of memory; nothing has changed then.
#[tactic(auto, unfolding(crate::specs::World::sent_after))]
fn emit(
    alloc: Global,
    end: &mut End,
    frames: &mut ItemList<Frame>,
) -> Result<Option<Emission>, AllocError>
    ensures end { IfOk result (λ _. (slot_step end.old).0 ≡ end.new) }
    ensures sent { IfOk result (λ emission. sent_after frames.old.items (slot_step end.old).1 ≡ (frames.new.items, emission)) }
    ensures unchanged { OnErr result ((end.new ≡ end.old) × (frames.new.items ≡ frames.old.items)) }
{
    frames.reserve(1)?;
    let mut bytes = Octets::new(alloc);
    bytes.reserve(usize::from(MAX_MTU))?;
    let Some(emitted) = end.slot()? else {
        return Ok(None);
    };
    let port = emitted.frame.port;
    bytes.put_all(emitted.frame.bytes.as_slice());
    frames.put(Frame { port, bytes });
    Ok(Some(Emission {
        number: frames.len() as u64,
        emitted,
    }))
}

/// Lets the frame with this number, counted from 1, arrive at an end.
///
/// # Errors
/// `NoSuchFrame` exactly where there is none with this number, and want of memory. Nothing has
/// changed then.
fn arrive(end: &mut End, frames: &ItemList<Frame>, number: u64) -> Result<Taken, StepFault>
    ensures done { IfOk result (λ taken. (frame : FrameData) × (numbered frames.now.items number ≡ Some frame) × (take_step end.old frame ≡ (end.new, taken))) }
    ensures refused { IfErr result (λ fault. (fault ≡ StepFault.Memory) ⊎ ((fault ≡ StepFault.NoSuchFrame number) × (numbered frames.now.items number ≡ None))) }
    ensures unchanged { OnErr result (end.new ≡ end.old) }
    ensures note { IfOk result (λ taken. IsNote taken.note) }
{
    let Some(frame) = frame_at(frames, number) else {
        return Err(StepFault::NoSuchFrame(number));
    };
    match end.take(frame) {
        Ok(taken) => Ok(taken),
        Err(_) => Err(StepFault::Memory),
    }
}

/// The frame with this number, counted from 1.
fn frame_at(frames: &ItemList<Frame>, number: u64) -> Option<&Frame>
    ensures { option_copied result ≡ numbered frames.now.items number }
{
    if number == 0 {
        return None;
    }
    frames.as_slice().get((number - 1) as usize)
}
