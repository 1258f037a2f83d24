//! The load of a number: a [`Script`](script_lang::Script) of many devices, each of which hands
//! down three packets that it sends up, as [`make_load`] has it.
#![tactic(auto)]

mod draws;
mod frames;
mod making;
mod packets;
#[cfg(test)]
mod tests;
mod turns;

pub use making::make_load;
