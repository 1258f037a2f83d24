//! The names that all crates share. Plain data without any list.
//!
//! [`FieldName`], [`FieldAt`], [`Layer`] and [`Stack`] name the fields and headers of a packet,
//! [`Role`] and [`Direction`] the ends and the ways. [`EndParams`] and [`FragParams`] are the
//! parameters of an end and of a [`FragMode`]. What a frame meant to an end is a [`Note`], how a
//! session ended a [`Report`], and what can't be read has a [`WireFault`] or an [`UnpackFault`].
//! The limits stand in [`limits`].
#![tactic(auto)]

mod ends;
mod faults;
mod fragments;
pub mod laws;
pub mod limits;
mod names;
mod notes;
mod phases;
#[cfg(test)]
mod tests;
mod texts;

pub use ends::{
    DirInd, Direction, EndParams, Iids, LastTile, Role, TimerTicks, covers, share_direction,
};
pub use faults::{ResidueFault, UnpackFault, WireFault};
pub use fragments::{FragMode, FragParams, Side};
pub use names::{FieldAt, FieldName, Layer, Stack, always_present, width};
pub use notes::{Cause, FailCause, Heard, Note, Report, ReportKind};
pub use phases::{ReceiverPhase, SenderPhase};
pub use texts::{name_of_text, text_of};
