//! The words that the program was called with.

use std::alloc::AllocError;
use std::env::{Env, FillError};

/// The most bytes of a word that the system passes on.
const WORD_LIMIT: usize = 131_072;

/// Stands for a word that is no text, so that no grammar has it.
const NO_TEXT: &str = "\u{FFFD}";

/// The words after the program's name. A word that is no UTF-8 is there as one that no grammar has.
///
/// # Errors
/// Want of memory.
pub fn given(rt: &HostRuntime) -> Result<Vec<String>, AllocError> {
    let mut room = vec![in rt.alloc(); 0u8; WORD_LIMIT]?;
    let mut words = Vec::new(rt.alloc());
    for place in 1..usize::MAX {
        match rt.arg(place, room.as_mut_slice()) {
            Ok(size) => words.push(word(rt, &room[..size])?)?,
            Err(FillError::TooLong) => words.push(String::from_str(rt.alloc(), NO_TEXT)?)?,
            Err(FillError::NotPresent) => break,
        }
    }
    Ok(words)
}

/// The word of these bytes, or one that no grammar has, where they are no UTF-8.
fn word(rt: &HostRuntime, bytes: &[u8]) -> Result<String, AllocError> {
    match str::from_utf8(bytes) {
        Ok(text) => String::from_str(rt.alloc(), text),
        Err(_) => String::from_str(rt.alloc(), NO_TEXT),
    }
}
