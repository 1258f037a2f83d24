//! The pseudo-random draws of a load.

ghost use Rattle.std.specs.Prelude.{◌≡◌, ◌<◌, ◌^◌, length, IfOk};
ghost use Rattle.load_maker.specs.Load.{next_state, draw_of, draws};

use std::alloc::{AllocError, Global};

/// How many states the generator has.
const STATES: u64 = 1 << 31;

/// The state of the generator after this one.
fn next_state(state: u32) -> u32
    ensures state { result ≡ next_state state }
    ensures small { result < 2 ^ 31 }
{
    ((1103515245 * u64::from(state) + 12345) % STATES) as u32
}

/// The draw that a state gives: its first 15 bits.
fn draw_of(state: u32) -> u16
    requires { state < 2 ^ 31 }
    ensures draw { result ≡ draw_of state }
    ensures small { result < 2 ^ 15 }
{
    (state >> 16) as u16
}

/// The first draws from this state on.
///
/// # Errors
/// Want of memory.
pub(crate) fn draws(alloc: Global, count: usize, start: u32) -> Result<Vec<u16>, AllocError>
    ensures draws { IfOk result (λ list. list.items ≡ draws count start) }
    ensures all { IfOk result (λ list. length list.items ≡ count) }
{
    let mut list = Vec::new(alloc);
    let mut state = start;
    for _ in 0..count {
        state = next_state(state);
        list.push(draw_of(state))?;
    }
    Ok(list)
}
