use schc_bits::{CopyItem, Octets};
use std::alloc::{AllocError, Global};
use std::marker::Model;

/// A frame on the link: a LoRaWAN port and payload (RFC 9011, section 5.1).
#[derive(Drop)]
pub struct Frame {
    pub port: u8,
    pub bytes: Octets,
}

impl Model for Frame {
    ghost use Rattle.event_data.specs.Records.{FrameData};

    ghost Value = { FrameData };

    ghost view = { λ f. record { port = f.port; bytes = f.bytes.items } };
}

impl CopyItem for Frame {
    fn copy_item(&self, alloc: Global) -> Result<Frame, AllocError> {
        let mut bytes = Octets::new(alloc);
        bytes.extend_from(self.bytes.as_slice())?;
        Ok(Frame {
            port: self.port,
            bytes,
        })
    }
}

/// A packet that an end hands up, with the number of the edition of rules that read it and with the
/// RuleID (8 bits) under which it came.
#[derive(Drop)]
pub struct HandUp {
    pub edition: u32,
    pub rule_id: u16,
    pub packet: Octets,
}

impl Model for HandUp {
    ghost use Rattle.event_data.specs.Records.{HandUpData};

    ghost Value = { HandUpData };

    ghost view = { λ h. record { edition = h.edition; rule_id = h.rule_id; packet = h.packet.items } };
}
