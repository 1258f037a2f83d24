//! Hands random byte strings to both ends of a link in every state, and says what they meant, and
//! whether sessions go through afterwards.
//!
//! The ends are made with answered fragments and without, with both places of the last tile, and
//! with no rule or with one. An end is brought into a state, is handed 25 byte strings, and then
//! both ends are left alone until no timer runs and nothing waits. A packet of each end has to come
//! to the other one then.
#![tactic(auto)]

mod dice;
mod ends;
mod frames;
mod probe;
mod states;
mod tally;
mod transfer;

use rule_drafts::{Given, Sample, edition_of};
use std::process::ExitCode;
use std::sync::Arc;
use tally::Tally;

fn main(rt: HostRuntime) -> ExitCode {
    match answers(&rt) {
        Some(tally) if tally.print(&rt).is_ok() && tally.is_good() => ExitCode::SUCCESS,
        Some(_) => ExitCode::from(1),
        None => ExitCode::from(2),
    }
}

/// What all byte strings meant; none where memory is wanting.
fn answers(rt: &HostRuntime) -> Option<Tally> {
    let given = [Given::live(5, Sample::PortRange)];
    let edition = edition_of(rt.alloc(), given.as_slice()).ok()?;
    let edition = Arc::new(rt.alloc(), edition).ok()?;
    let tally = probe::probe(rt.alloc(), &edition);
    drop(edition);
    tally.ok()
}
