//! The fields of a packet with their values.

use schc_bits::{Bits, CopyItem, ItemList, Same};
use schc_ids::FieldAt;
use std::alloc::{AllocError, Global};

/// A field of a packet, with the bits of its value.
#[derive(Drop)]
pub struct FieldValue {
    pub at: FieldAt,
    pub value: Bits,
}

/// The fields of a packet, in packet order.
pub type Fields = ItemList<FieldValue>;

/// The values that are computed over a packet as it is, whatever its fields hold (RFC 8724 sections
/// 7.4.7 and 7.4.8): the IPv6 payload length and the UDP length in bytes, and the UDP checksum.
#[derive(Clone, Copy, Debug, PartialEq, Eq)]
pub struct Computed {
    pub payload_length: u16,
    pub udp_length: u16,
    pub checksum: u16,
}

impl CopyItem for FieldValue {
    fn copy_item(&self, alloc: Global) -> Result<FieldValue, AllocError> {
        let value = self.value.copy_item(alloc)?;
        Ok(FieldValue { at: self.at, value })
    }
}

impl Same for FieldValue {
    fn same(&self, other: &FieldValue) -> bool {
        self.at.same(&other.at) && self.value.same(&other.value)
    }
}
