//! A run of a command on a text.

use gw_top::{Status, run};
use outside::{MemSink, MemSource};
use std::alloc::Global;
use std::test::Fail;
use std::thread::Threads;

/// The words of a call: those of this text, between which one space stands.
pub fn call_of(alloc: Global, text: &str) -> Result<Vec<String>, Fail> {
    let mut words = Vec::new(alloc);
    for word in text.split(' ') {
        words.push(String::from_str(alloc, word)?)?;
    }
    Ok(words)
}

/// Runs the command of these words on the input, and says whether it ends with the status and prints the text.
pub fn prints<R: Threads + AllocGlobal + Sync>(
    rt: &R,
    words: &str,
    input: &str,
    status: Status,
    text: &str,
) -> Result<bool, Fail> {
    let alloc = rt.alloc();
    let words = call_of(alloc, words)?;
    let mut source = MemSource::new(input.as_bytes().to_vec(alloc)?, Vec::new(alloc));
    let mut sink = MemSink::new(alloc, 16384, Vec::new(alloc))?;
    let answer = run(rt, words.as_slice(), &mut source, &mut sink);
    Ok(answer == status && sink.as_slice() == text.as_bytes())
}

/// Writes the digits of this many bytes, which are all 0.
pub fn push_zeros(text: &mut String, count: usize) -> Result<(), Fail> {
    for _ in 0..count {
        text.push_str("00")?;
    }
    Ok(())
}
