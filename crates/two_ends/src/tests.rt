//! What no clause says: that calls succeed with ample memory. A world is dropped by name, which is proved much quicker than a drop
//! at the end of its scope.

use crate::{Line, StepFault, World, WorldEvent};
use event_data::EmitKind;
use schc_bits::Octets;
use schc_ids::{Direction, EndParams, Iids, Note, Role};
use std::alloc::{AllocError, Global};
use std::test::Fail;

/// An IPv6 header without a payload, from fe80::1 to fe80::2.
const PACKET: [u8; 40] = [
    0x60, 0, 0, 0, 0, 0, 0x3b, 0x40, 0xfe, 0x80, 0, 0, 0, 0, 0, 0, 0, 0, 0, 0, 0, 0, 0, 1, 0xfe,
    0x80, 0, 0, 0, 0, 0, 0, 0, 0, 0, 0, 0, 0, 0, 2,
];

fn new_world(alloc: Global) -> Result<World, AllocError> {
    World::new(alloc, EndParams::with_defaults(Iids { dev: 1, app: 2 }))
}

fn octets(alloc: Global, bytes: &[u8]) -> Result<Octets, AllocError> {
    let mut octets = Octets::new(alloc);
    octets.extend_from(bytes)?;
    Ok(octets)
}

/// Whether the packet waits at the device, in 328 bits.
fn waits(world: &mut World, alloc: Global) -> Result<bool, StepFault> {
    let Ok(packet) = octets(alloc, PACKET.as_slice()) else {
        return Err(StepFault::Memory);
    };
    match world.step(&WorldEvent::Down(Role::Device, packet))? {
        Line::Hand(accepted) => Ok(accepted.rule_id == 22 && accepted.bits == 328),
        _ => Ok(false),
    }
}

/// Whether the device's slot gives the packet whole, on port 22 and as its first frame.
fn goes(world: &mut World) -> Result<bool, StepFault> {
    match world.step(&WorldEvent::Slot(Role::Device))? {
        Line::Slot(Some(emission)) => {
            let emitted = &emission.emitted;
            let whole = emitted.kind == EmitKind::Whole && emitted.frame.port == 22;
            Ok(whole && emission.number == 1 && emitted.frame.bytes.as_slice() == PACKET.as_slice())
        }
        _ => Ok(false),
    }
}

/// Whether the gateway hands the packet up when it takes the first frame.
fn comes(world: &mut World) -> Result<bool, StepFault> {
    let Line::Deliver(taken) = world.step(&WorldEvent::Deliver(Direction::Up, 1))? else {
        return Ok(false);
    };
    let small = taken.note == Note::Small;
    match taken.up {
        Some(up) => Ok(small && up.packet.as_slice() == PACKET.as_slice()),
        None => Ok(false),
    }
}

/// Whether the packet waits, goes and comes.
fn carries(world: &mut World, alloc: Global) -> Result<bool, StepFault> {
    Ok(waits(world, alloc)? && goes(world)? && comes(world)?)
}

#[test]
fn packet_comes_as_it_was(rt: HostRuntime) -> Result<(), Fail> {
    let mut world = new_world(rt.alloc())?;
    let carried = carries(&mut world, rt.alloc());
    drop(world);
    assert!(rt; carried?);
    Ok(())
}
