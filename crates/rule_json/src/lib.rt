//! Rule text: editions, contexts and work as JSON (RFC 8259), read and written.
//!
//! [`read_edition`] gives a [`RawEdition`], whose rules aren't checked yet, [`read_context`] a
//! [`ContextFile`] of devices and editions, [`read_work`] a [`WorkFile`] of editions and packets.
//! Each says as a [`JsonFault`] what kept it. [`write_edition`] spells an edition that was read.
//!
//! ```text
//! let context = read_context(alloc, text)?;
//! for edition in context.editions.as_slice() {
//!     let text = write_edition(alloc, edition)?;
//! }
//! ```
#![tactic(auto)]

mod context;
mod device;
mod digits;
mod entry;
mod fault;
mod reading;
#[cfg(test)]
mod tests;
mod values;
mod words;
mod work;
mod writing;

pub use context::ContextFile;
pub use fault::JsonFault;
pub use reading::{read_context, read_edition, read_work};
pub use rule_model::{DeviceLine, RawEdition, RawRule};
pub use words::{acked_of, last_tile_of};
pub use work::{Packet, WorkFile};
pub use writing::write_edition;
