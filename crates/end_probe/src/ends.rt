//! The ends, and how they are made.

ghost use Rattle.schc_ids.specs.Params.{IsParams};

use editions::Edition;
use end_core::End;
use schc_ids::{EndParams, Iids, LastTile, Role, TimerTicks};
use std::alloc::{AllocError, Global};
use std::sync::Arc;

/// For how many ticks each timer runs.
pub const TICKS: u32 = 9;

/// An IPv6 header without a payload, from fe80::1 to fe80::2.
pub const PACKET: [u8; 40] = [
    0x60, 0, 0, 0, 0, 0, 0x3b, 0x40, 0xfe, 0x80, 0, 0, 0, 0, 0, 0, 0, 0, 0, 0, 0, 0, 0, 1, 0xfe,
    0x80, 0, 0, 0, 0, 0, 0, 0, 0, 0, 0, 0, 0, 0, 2,
];

/// How both ends of a link are made.
#[derive(Clone, Copy)]
pub struct Setting {
    pub acked: bool,
    pub last: LastTile,
    /// Whether both ends have a rule, or none.
    pub ruled: bool,
}

impl Setting {
    /// What an end is made with. Its frames have at most 15 bytes, so that the packet goes as a
    /// session.
    fn params(self) -> EndParams
        ensures { IsParams result }
    {
        EndParams {
            iids: Iids { dev: 1, app: 2 },
            mtu: 15,
            acked: self.acked,
            last: self.last,
            ticks: TimerTicks {
                retransmission: TICKS,
                inactivity: TICKS,
                linger: TICKS,
                quiet: TICKS,
            },
        }
    }

    /// A new end; the edition is the one that it has where it has a rule.
    pub fn new_end(
        self,
        alloc: Global,
        role: Role,
        edition: &Arc<Edition>,
    ) -> Result<End, AllocError> {
        let edition = edition.clone()?;
        let mut end = End::new(alloc, role, self.params())?;
        if self.ruled {
            learn(&mut end, edition);
        }
        Ok(end)
    }
}

/// The end reads and writes with the edition from now on.
fn learn(end: &mut End, edition: Arc<Edition>) {
    let number = edition.number();
    end.offer(edition);
    end.allow(number);
}
