//! One key's sender, receiver and messages, and what holds of all that can come to pass between
//! them (RFC 8724 section 8).
//!
//! A lane is what belongs to one key: the sender at one end, the receiver at the other, the
//! messages that each has sent so far with the session that they belong to, the sessions that
//! began, the checks that the receiver made and those that passed, and how sessions ended. Its step
//! is the steps that the ends make of one key. There is no code here but the laws. All but the last
//! hold of every list of events that can come to pass on a lane, whatever is lost, repeated or
//! comes late:
//!
//! - `checked`: each All-1 that was sent carries the RCS of its session's padded packet. Each
//!   assembly that passed a check has the RCS of the session whose All-1 came, which had begun
//!   earlier.
//! - `joins_padded`: so where no assembly that was checked has the RCS of its session without being
//!   that session's padded packet, each assembly that passed is that packet.
//! - `earned`: where messages come while no later session has begun, and sessions begin where the
//!   receiver is empty, each session that is reported delivered was joined earlier.
//! - `arrived`: and where in addition no wrong assembly has a session's RCS, what was joined is its
//!   padded packet.
//! - `waits_well`: a sender that waits has nothing to send, and has made one request to eight.
//! - `holds_tiles`: in a fresh run the tiles that a receiver of ACK-on-Error holds while it gathers
//!   are tiles of the session that began last, each at the place with its number.
//! - `clean`: where nothing is lost, a session that meets an empty receiver joins its padded packet,
//!   once, and ends as sent (No-ACK) or as delivered, after at most one round more than it has
//!   tiles. A round is a message of the sender, and the answer to it if one is due.
#![tactic(auto)]

pub mod laws;
