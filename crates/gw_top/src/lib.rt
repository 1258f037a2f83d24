//! The top call. [`run`] reads the words of a call, and its source where the command has an input,
//! writes what the command prints to its sink, and answers a [`Status`].
#![tactic(auto)]

mod command;
mod dealing;
mod groups;
pub mod laws;
mod merging;
mod output;
mod queues;
mod shares;
mod sim;
mod status;
mod words;

pub use command::run;
pub use script_lang::Counted;
pub use status::Status;
