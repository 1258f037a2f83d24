//! The numbers of a run, as sums over its lines.

ghost use Rattle.std.specs.Prelude.{◌≡◌, ◌<◌, ◌^◌, length};
ghost use Rattle.load_totals.specs.Totals.{
  ups_of,
  octets_of,
  delivered_as,
  delivered_of,
  totals_in,
  totals,
  nothing,
  together,
};

use event_data::{HandUp, Line};
use rayon::prelude::*;
use schc_ids::{Report, ReportKind};
use std::thread::Threads;

/// The numbers of a run, or of a part of it.
///
/// A run has fewer than 2^63 lines, and a line counts at most two of anything but bytes, so 64 bits
/// hold each count. A packet has fewer than 2^64 bytes, so 128 bits hold those of all packets.
#[derive(Clone, Copy, Debug, PartialEq, Eq)]
pub struct Totals {
    /// The packets that were handed down and weren't refused.
    pub packets: u64,
    /// The frames that were sent, in both directions.
    pub frames: u64,
    /// The packets that were handed up.
    pub up: u64,
    /// The sessions that were reported as delivered.
    pub delivered: u64,
    /// The bytes of the packets that were handed up.
    pub octets: u128,
}

/// How many packets are handed up.
fn ups_of(up: &Option<HandUp>) -> u64
    ensures { result ≡ ups_of up.now }
{
    match up {
        Some(_) => 1,
        None => 0,
    }
}

/// How many bytes are handed up.
fn octets_of(up: &Option<HandUp>) -> u128
    ensures octets { result ≡ octets_of up.now }
    ensures small { result < 2 ^ 64 }
{
    match up {
        Some(up) => up.packet.as_slice().len() as u128,
        None => 0,
    }
}

/// How many sessions were delivered that ended so.
fn delivered_as(kind: ReportKind) -> u64
    ensures { result ≡ delivered_as kind }
{
    match kind {
        ReportKind::Delivered => 1,
        ReportKind::Sent => 0,
        ReportKind::Failed(_) => 0,
    }
}

/// How many sessions were delivered of those that are reported.
fn delivered_of(report: Option<Report>) -> u64
    ensures delivered { result ≡ delivered_of report }
    ensures one { result < 2 }
{
    match report {
        Some(report) => delivered_as(report.kind),
        None => 0,
    }
}

impl Totals {
    /// The numbers of no lines.
    #[tactic(auto, unfolding(crate::specs::Totals::nothing))]
    fn nothing() -> Totals
        ensures { result ≡ nothing }
    {
        Totals {
            packets: 0,
            frames: 0,
            up: 0,
            delivered: 0,
            octets: 0,
        }
    }

    /// The numbers of a line.
    #[tactic(auto, unfolding(crate::specs::Totals::totals_in, crate::specs::Totals::nothing))]
    fn of(line: &Line) -> Totals
        ensures numbers { result ≡ totals_in line.now }
        ensures octets { result.octets < 2 ^ 64 }
    {
        let mut totals = Totals::nothing();
        match line {
            Line::Hand(_) => totals.packets = 1,
            Line::Slot(Some(emission)) => {
                totals.frames = 1;
                totals.delivered = delivered_of(emission.emitted.report);
            }
            Line::Deliver(taken) => {
                totals.up = ups_of(&taken.up);
                totals.octets = octets_of(&taken.up);
                totals.delivered = delivered_of(taken.report);
            }
            Line::Tick(device, gateway) => {
                totals.delivered = delivered_of(*device) + delivered_of(*gateway);
            }
            Line::Abort(report) => totals.delivered = delivered_of(*report),
            _ => {}
        }
        totals
    }

    /// The numbers of two parts together. Those of parts of one run don't wrap.
    #[tactic(auto, unfolding(crate::specs::Totals::together))]
    fn together(self, other: Totals) -> Totals
        ensures { result ≡ together self other }
    {
        Totals {
            packets: self.packets.wrapping_add(other.packets),
            frames: self.frames.wrapping_add(other.frames),
            up: self.up.wrapping_add(other.up),
            delivered: self.delivered.wrapping_add(other.delivered),
            octets: self.octets.wrapping_add(other.octets),
        }
    }
}

/// How many lines there are, which are fewer than 2^63.
fn count(lines: &[Line]) -> usize
    ensures count { result ≡ length lines.now }
    ensures few { result < 2 ^ 63 }
{
    lines.len()
}

/// The numbers of these lines, summed by as many threads as there are processors.
pub fn totals_of(rt: &(impl Threads + Sync), lines: &[Line]) -> Totals
    ensures { result ≡ totals lines.now }
{
    let _count = count(lines);
    lines
        .par_iter()
        .map(
            |line: &Line| -> Totals
                ensures { (result ≡ totals_in line.now) × (result.octets < 2 ^ 64) }
            { Totals::of(line) },
        )
        .reduce(
            rt,
            || -> Totals
                ensures { result ≡ nothing }
            { Totals::nothing() },
            |a: Totals, b: Totals| -> Totals
                ensures { result ≡ together a b }
            { a.together(b) },
        )
}
