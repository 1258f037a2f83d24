//! What happens to the two ends of a link, and what they answer. Plain data.
//!
//! A [`WorldEvent`] is what can happen: to an end, to the network, to the rules. A [`Line`] is what
//! came of it, and a [`StepFault`] why it couldn't happen. A [`Frame`] is what goes over the link,
//! and a [`HandUp`] a packet that came through; an end answers with [`Accepted`], [`Emitted`],
//! [`Taken`] and [`Offered`].
#![tactic(auto)]

mod events;
mod frames;
mod outcomes;

pub use events::{Target, WorldEvent};
pub use frames::{Frame, HandUp};
pub use outcomes::{
    Accepted, DownFault, Emission, EmitKind, Emitted, Line, Offered, StepFault, Taken,
};
