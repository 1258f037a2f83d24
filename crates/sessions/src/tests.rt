//! What no clause says: that each call that takes memory does its work.

use crate::{Clock, Clocks, Due, Receiver, Sender, Sessions};
use schc_bits::Bits;
use schc_ids::{EndParams, FragMode, Iids, LastTile, ReceiverPhase, Role};
use std::alloc::{AllocError, Global};

/// How many bytes the first frame of a packet of 328 bits has, and none where there is no frame.
fn first(alloc: Global, mode: FragMode) -> Result<Option<usize>, AllocError> {
    let bits = Bits::from_bytes(alloc, [0; 41].as_slice())?;
    if bits.len() != 328 {
        return Err(AllocError);
    }
    match Sender::begin(alloc, mode.params(), 15, LastTile::InAll1, bits) {
        Ok(mut sender) => Ok(sender.next(alloc)?.map(|frame| frame.len())),
        Err(_) => Err(AllocError),
    }
}

/// Whether a new receiver is empty and has no answer.
fn listens(alloc: Global, mode: FragMode) -> Result<bool, AllocError> {
    let mut receiver = Receiver::new(alloc, mode)?;
    Ok(receiver.phase() == ReceiverPhase::Empty && receiver.answer(alloc)?.is_none())
}

#[test]
fn machines_of_each_mode(rt: HostRuntime) -> Result<(), AllocError> {
    let alloc = rt.alloc();
    for mode in [FragMode::NoAck, FragMode::AckAlways, FragMode::AckOnError] {
        assert!(rt; first(alloc, mode)?.is_some());
        assert!(rt; listens(alloc, mode)?);
    }
    Ok(())
}

#[test]
fn timers_of_two_and_of_one_tick(rt: HostRuntime) -> Result<(), AllocError> {
    let mut clocks = Clocks::new(rt.alloc())?;
    clocks.set(Clock::Sending, Some(2));
    clocks.set(Clock::Silent, Some(1));
    let first = Due {
        sending: false,
        answering: false,
        silent: true,
    };
    let second = Due {
        sending: true,
        answering: false,
        silent: false,
    };
    assert_eq!(rt; clocks.tick(), first);
    assert_eq!(rt; clocks.tick(), second);
    Ok(())
}

#[test]
fn none_has_begun(rt: HostRuntime) -> Result<(), AllocError> {
    let params = EndParams::with_defaults(Iids { dev: 1, app: 2 });
    let sessions = Sessions::new(rt.alloc(), Role::Device, &params)?;
    assert!(rt; sessions.may_begin() && !sessions.busy() && !sessions.armed());
    Ok(())
}
