//! Work for the packing and unpacking of packets.

ghost use Rattle.std.specs.Prelude.{◌≡◌, codes};
ghost use Rattle.serde_json.specs.View.{view};
ghost use Rattle.rule_json.specs.Answers.{Gives};
ghost use Rattle.rule_json.specs.Values.{member_in};
ghost use Rattle.rule_json.specs.Words.{direction_of};
ghost use Rattle.rule_json.specs.Digits.{packet_of};
ghost use Rattle.rule_json.specs.Layout.{text_in};
ghost use Rattle.rule_json.specs.Files.{work_in};

use crate::digits::{identifier_in, packet_of};
use crate::fault::JsonFault;
use crate::values::{FromJson, list_from};
use crate::words::direction_of;
use rule_model::RawEdition;
use schc_bits::{CopyItem, ItemList, Octets};
use schc_ids::{Direction, Iids};
use serde_json::Value;
use std::alloc::{AllocError, Global};
use std::marker::Model;

/// A packet, seen as its bytes.
#[derive(Drop)]
pub struct Packet {
    pub bytes: Octets,
}

impl Model for Packet {
    ghost use Rattle.std.specs.Prelude.{ℕ, List};

    ghost Value = { List ℕ };

    ghost view = { λ p. p.bytes.items };
}

impl CopyItem for Packet {
    fn copy_item(&self, alloc: Global) -> Result<Packet, AllocError> {
        let mut bytes = Octets::new(alloc);
        bytes.extend_from(self.bytes.as_slice())?;
        Ok(Packet { bytes })
    }
}

/// Work: the editions that are published, and packets of one direction with the identifiers of
/// their two ends.
#[derive(Drop)]
pub struct WorkFile {
    pub editions: ItemList<RawEdition>,
    pub iids: Iids,
    pub direction: Direction,
    pub packets: ItemList<Packet>,
}

impl Model for WorkFile {
    ghost use Rattle.rule_json.specs.Data.{WorkData};

    ghost Value = { WorkData };

    ghost view = { λ w. record {
      editions = w.editions.items;
      iids = w.iids;
      direction = w.direction;
      packets = w.packets.items;
    } };
}

impl FromJson for Packet {
    ghost layout = { text_in packet_of };

    fn from_json(alloc: Global, value: &Value) -> Result<Packet, JsonFault> {
        packet_of(alloc, value.as_str().ok_or(JsonFault::NotLayout)?)
    }
}

/// The direction of the packets of work.
fn direction_in(work: &Value) -> Option<Direction>
    ensures { result ≡ member_in (codes "direction") (text_in direction_of) (view work.now) }
{
    direction_of(work.get("direction")?.as_str()?)
}

impl FromJson for WorkFile {
    ghost layout = { work_in };

    #[tactic(auto, unfolding(crate::specs::Files::work_in))]
    fn from_json(alloc: Global, value: &Value) -> Result<WorkFile, JsonFault> {
        let editions = list_from(alloc, value.get("editions").ok_or(JsonFault::NotLayout)?)?;
        let dev = identifier_in(value, "dev-iid").ok_or(JsonFault::NotLayout)?;
        let app = identifier_in(value, "app-iid").ok_or(JsonFault::NotLayout)?;
        let direction = direction_in(value).ok_or(JsonFault::NotLayout)?;
        let packets = list_from(alloc, value.get("packets").ok_or(JsonFault::NotLayout)?)?;
        Ok(WorkFile {
            editions,
            iids: Iids { dev, app },
            direction,
            packets,
        })
    }
}
