//! Tests of sessions and of ends, of what no clause says: that calls succeed with ample memory, and
//! the bytes and notes of whole sessions (RFC 8724 section 8.4).
#![tactic(auto)]

#[cfg(test)]
mod lone;
#[cfg(test)]
mod pairs;
#[cfg(test)]
mod ports;
#[cfg(test)]
mod turns;
#[cfg(test)]
mod unanswered;
#[cfg(test)]
mod unread;
#[cfg(test)]
mod values;
