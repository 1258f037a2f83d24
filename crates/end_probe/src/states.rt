//! The states into which an end is brought.

use crate::ends::{PACKET, TICKS};
use crate::frames::frame;
use crate::transfer::{carry, lose, runs};
use end_core::End;
use schc_ids::limits::{NO_ACK_DOWN_PORT, NO_ACK_UP_PORT};
use schc_ids::{Note, Role};
use std::alloc::{AllocError, Global};

/// A state of an end.
#[derive(Clone, Copy)]
pub enum State {
    /// Nothing has happened.
    New,
    /// Eight packets wait.
    Full,
    /// Two messages of a session were given, which were lost.
    Sending,
    /// All messages of a session were given and lost, so that an answer is wanted, or the number is
    /// quiet where none comes.
    Waiting,
    /// A session was given up, and that is to be said.
    GivenUp,
    /// Three messages of a session of the other end have come.
    Gathering,
    /// The first message of a session of the other end was lost, and all others have come.
    Lacking,
    /// Fragments without answers have come that leave room for 51 bits more.
    Crowded,
    /// A session of the other end has come whole.
    Finished,
    /// An end that waits and gathers, and both timers are one tick from their end.
    LastTicks,
}

pub const STATES: [State; 10] = [
    State::New,
    State::Full,
    State::Sending,
    State::Waiting,
    State::GivenUp,
    State::Gathering,
    State::Lacking,
    State::Crowded,
    State::Finished,
    State::LastTicks,
];

/// The most messages of the packet's session.
const MESSAGES: u32 = 10;

/// Brings the near end, which is new and has the role, into the state, with the help of the far
/// one.
///
/// # Errors
/// Want of memory.
pub fn bring(
    alloc: Global,
    near: &mut End,
    far: &mut End,
    role: Role,
    state: State,
) -> Result<(), AllocError> {
    match state {
        State::New => Ok(()),
        State::Full | State::Sending | State::Waiting | State::GivenUp => bring_sender(near, state),
        State::Crowded => crowd(alloc, near, role),
        State::Gathering | State::Lacking | State::Finished => bring_receiver(near, far, state),
        State::LastTicks => {
            bring_sender(near, State::Waiting)?;
            bring_receiver(near, far, State::Gathering)?;
            pass(near, TICKS - 1);
            Ok(())
        }
    }
}

fn bring_sender(near: &mut End, state: State) -> Result<(), AllocError> {
    match state {
        State::Full => hand_down(near, 8),
        State::Sending => {
            hand_down(near, 1);
            give(near, 2)?;
        }
        State::GivenUp => {
            hand_down(near, 1);
            give(near, 2)?;
            near.abort();
        }
        _ => {
            hand_down(near, 1);
            give(near, MESSAGES)?;
        }
    }
    Ok(())
}

fn bring_receiver(near: &mut End, far: &mut End, state: State) -> Result<(), AllocError> {
    match state {
        State::Finished => {
            runs(far, near)?;
        }
        State::Lacking => {
            hand_down(far, 1);
            lose(far)?;
            send(far, near)?;
        }
        _ => {
            hand_down(far, 1);
            exchange(far, near, 3)?;
        }
    }
    Ok(())
}

/// Fragments with tiles of 1,935 bits ten times and of 839 bits, of 20,240 bits that are kept.
fn crowd(alloc: Global, near: &mut End, role: Role) -> Result<(), AllocError> {
    let port = match role {
        Role::Device => NO_ACK_DOWN_PORT,
        Role::Gateway => NO_ACK_UP_PORT,
    };
    let long = frame(alloc, port, [0; 242].as_slice())?;
    for _ in 0..10 {
        near.take(&long)?;
    }
    near.take(&frame(alloc, port, [0; 105].as_slice())?)?;
    Ok(())
}

/// The packet is handed down so many times.
fn hand_down(end: &mut End, times: u32) {
    for _ in 0..times {
        let _accepted = end.down(PACKET.as_slice());
    }
}

/// The end has so many slots, and what it gives is lost.
fn give(end: &mut End, slots: u32) -> Result<(), AllocError> {
    for _ in 0..slots {
        lose(end)?;
    }
    Ok(())
}

/// So many messages go from the one end to the other, and their answers back.
fn exchange(from: &mut End, to: &mut End, messages: u32) -> Result<(), AllocError> {
    for _ in 0..messages {
        carry(from, to)?;
        carry(to, from)?;
    }
    Ok(())
}

/// The messages of a session go from the one end to the other, up to one at which the check fails.
fn send(from: &mut End, to: &mut End) -> Result<(), AllocError> {
    for _ in 0..MESSAGES {
        if let Some(Note::CheckFailed) = carry(from, to)? {
            break;
        }
    }
    Ok(())
}

fn pass(end: &mut End, ticks: u32) {
    for _ in 0..ticks {
        end.tick();
    }
}
