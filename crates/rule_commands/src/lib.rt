//! The commands that read files of rules, each from a text to an [`Output`].
//!
//! [`check`] says which editions of a context can be published; [`pack`] and [`unpack`] write and
//! read the packets of a work file by its last edition.
#![tactic(auto)]

mod chains;
mod checking;
mod output;
mod packing;
mod unpacking;
mod working;

pub use checking::check;
pub use output::Output;
pub use working::{pack, unpack};
