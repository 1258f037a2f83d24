//! Both ends of one link, the network between them, and the editions of rules that are published: a
//! machine that takes one event at a time and says its outcome (RFC 8724, RFC 9011).
//!
//! A [`World`] takes a [`WorldEvent`] and answers the [`Line`] that tells what came of it. Frames that
//! were sent are kept, so that one can come late, twice or never. What holds of every list of events
//! stands in [`laws`].
//!
//! ```text
//! let mut world = World::new(alloc, params)?;
//! world.step(&WorldEvent::Down(Role::Device, packet))?;
//! world.step(&WorldEvent::Slot(Role::Device))?; // the device's first frame
//! let line = world.step(&WorldEvent::Deliver(Direction::Up, 1))?; // comes to the gateway
//! ```
#![tactic(auto)]

mod chain;
pub mod laws;
#[cfg(test)]
mod tests;
mod world;

pub use event_data::{Line, StepFault, WorldEvent};
pub use world::World;
