//! The reassembly check of bits that are added in pieces.

use crate::number;
use rcs::Register;
use std::process::ExitCode;

/// Prints the check of the bits from the first place up to the last cut; none where one isn't within
/// the bits or is before the one in front of it.
pub fn pieces(rt: &HostRuntime, bytes: &[u8]) -> Option<ExitCode> {
    let mut register = Register::new();
    let bits = bytes.len().checked_mul(8)?;
    let mut from = number(rt, 2)?;
    for place in 3..usize::MAX {
        let Some(to) = number(rt, place) else { break };
        if to < from || bits < to {
            return None;
        }
        register.add(bytes, from, to);
        from = to;
    }
    Some(print(rt, &register))
}

/// Prints the check of the bits from the index `from` on, so many times one behind the other.
pub fn again(rt: &HostRuntime, bytes: &[u8], times: usize, from: usize) -> Option<ExitCode> {
    let mut register = Register::new();
    let bits = bytes.len().checked_mul(8)?;
    if bits < from {
        return None;
    }
    for _ in 0..times {
        register.add(bytes, from, bits);
    }
    Some(print(rt, &register))
}

fn print(rt: &HostRuntime, register: &Register) -> ExitCode {
    let check = register.value();
    ExitCode::from(u8::from(println!(rt; "{check:08x}").is_err()))
}
