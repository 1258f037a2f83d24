//! Runs of scripts in which packets go in fragments: without answers, with an answer to each window, and with answers to
//! windows that lack tiles (RFC 8724 section 8.4).

use crate::rules::{CHECKSUM, PORT, PREFIX, Row, Says, edition, headers, rule};
use crate::runs::prints;
use crate::scripts::P40;
use gw_top::Status;
use std::alloc::Global;
use std::test::Fail;
use std::thread::Threads;

/// A UDP datagram with the bytes 00 to 17 (hex) as its data, from the device.
const DATAGRAM: &str =
    "600000000020114020010db800000000000000000000000120010db8000000010000000000000002f0b1f0b300203e42000102030405060708090a0b0c0d0e0f1011121314151617";
/// The same with a hop limit of 3f and the data cafe, from which the rest of the headers is known.
const OTHER_HOPS: &str =
    "60000000000a113f20010db800000000000000000000000120010db8000000010000000000000002f0b1f0b3000af7ffcafe";
/// And with a hop limit of 40.
const SAME_HOPS: &str =
    "60000000000a114020010db800000000000000000000000120010db8000000010000000000000002f0b1f0b3000af7ffcafe";

/// A script, and the lines that are printed for it.
#[derive(Drop)]
struct Run {
    script: String,
    lines: String,
    place: u32,
}

impl Run {
    /// The run of a script with a device whose frames have at most 15 bytes, with these further words.
    fn new(alloc: Global, words: &str) -> Result<Run, Fail> {
        let script = format!(in alloc;
            "device 7 0000000000000001 0000000000000002 mtu 15{words}\n"
        )?;
        Ok(Run {
            script,
            lines: String::new(alloc),
            place: 0,
        })
    }

    /// An event, by its line in the script and as it is printed, and its outcome.
    fn add(&mut self, event: &str, printed: &str, outcome: &str) -> Result<(), Fail> {
        let place = self.place.saturating_add(1);
        self.place = place;
        write!(&mut self.script, "{event}\n")?;
        write!(&mut self.lines, "{place} {printed} {outcome}\n")?;
        Ok(())
    }

    /// Events that are printed as they stand in the script.
    fn add_all(&mut self, steps: &[(&str, &str)]) -> Result<(), Fail> {
        for step in steps {
            let (event, outcome) = *step;
            self.add(event, event, outcome)?;
        }
        Ok(())
    }

    /// The same events, as often as this.
    fn repeat(&mut self, count: u32, steps: &[(&str, &str)]) -> Result<(), Fail> {
        for _ in 0..count {
            self.add_all(steps)?;
        }
        Ok(())
    }

    /// A packet that is handed down.
    fn hand(&mut self, alloc: Global, end: &str, packet: &str, outcome: &str) -> Result<(), Fail> {
        let event = format!(in alloc; "hand 7 {end} {packet}")?;
        let printed = format!(in alloc; "hand 7 {end}")?;
        self.add(event.as_str(), printed.as_str(), outcome)
    }

    /// A frame that arrives and makes a packet whole.
    fn joins(&mut self, alloc: Global, event: &str, rule: u16, packet: &str) -> Result<(), Fail> {
        let outcome = format!(in alloc; "joined up {rule} {packet}")?;
        self.add(event, event, outcome.as_str())
    }

    /// An edition that is published.
    fn publish(&mut self, alloc: Global, edition: &str, outcome: &str) -> Result<(), Fail> {
        let event = format!(in alloc; "publish {edition}")?;
        self.add(event.as_str(), "publish", outcome)
    }

    /// Whether `sim` prints these lines for the script.
    fn is_printed<R: Threads + AllocGlobal + Sync>(&self, rt: &R) -> Result<bool, Fail> {
        prints(
            rt,
            "sim",
            self.script.as_str(),
            Status::Ok,
            self.lines.as_str(),
        )
    }
}

/// The flow label is dropped.
const ANY_FLOW: Row = ("fid-ipv6-flowlabel", "20", Says::Dropped("00000"));

/// Rule 6, which has no residue.
fn rule_6(alloc: Global, live: bool) -> Result<String, Fail> {
    rule(
        alloc,
        6,
        live,
        headers(ANY_FLOW, PREFIX, PORT, CHECKSUM).as_slice(),
    )
}

/// A run in which both ends have adopted rule 6, and the datagram has been handed down.
fn with_datagram(alloc: Global) -> Result<Run, Fail> {
    let mut run = Run::new(alloc, "")?;
    let rules = rule_6(alloc, true)?;
    let edition = edition(alloc, 1, rules.as_str())?;
    run.publish(alloc, edition.as_str(), "ok 1")?;
    run.add_all(&[
        ("offer 7 gw 1", "adopted"),
        ("offer 7 dev 1", "adopted"),
        ("allow 7 dev 1", "yes"),
    ])?;
    run.hand(alloc, "dev", DATAGRAM, "ok edition 1 rule 6 bits 200")?;
    Ok(run)
}

const FIRST: (&str, &str) = (
    "slot 7 dev",
    "frame 1 port 20 3e06000102030405060708 begins 1",
);

const SECOND: (&str, &str) = (
    "slot 7 dev",
    "frame 2 port 20 3d090a0b0c0d0e0f101112 goes 1",
);

const THIRD: (&str, &str) = ("slot 7 dev", "frame 3 port 20 3fa3400e9f1314151617 goes 1");

/// The datagram's session as it goes where nothing is lost, up to the gateway's answer.
fn answered(alloc: Global) -> Result<Run, Fail> {
    let mut run = with_datagram(alloc)?;
    run.add_all(&[
        FIRST,
        ("deliver 7 up 1", "stored"),
        SECOND,
        ("deliver 7 up 2", "stored"),
        THIRD,
    ])?;
    run.joins(alloc, "deliver 7 up 3", 6, DATAGRAM)?;
    run.add_all(&[("slot 7 gw", "frame 1 port 20 20 answers")])?;
    Ok(run)
}

#[test]
fn lost_tile_is_repaired(rt: HostRuntime) -> Result<(), Fail> {
    let mut run = with_datagram(rt.alloc())?;
    run.add_all(&[
        FIRST,
        ("deliver 7 up 1", "stored"),
        SECOND,
        THIRD,
        ("deliver 7 up 3", "check-failed"),
        ("slot 7 gw", "frame 1 port 20 100000000000000040 answers"),
        ("deliver 7 down 1", "acked"),
        (
            "slot 7 dev",
            "frame 4 port 20 3d090a0b0c0d0e0f101112 goes 1",
        ),
        ("deliver 7 up 4", "stored"),
        ("slot 7 dev", "frame 5 port 20 3fa3400e9f1314151617 goes 1"),
    ])?;
    run.joins(rt.alloc(), "deliver 7 up 5", 6, DATAGRAM)?;
    run.add_all(&[
        ("slot 7 gw", "frame 2 port 20 20 answers"),
        ("deliver 7 down 2", "acked report 1 delivered"),
    ])?;
    assert!(rt; run.is_printed(&rt)?);
    Ok(())
}

/// The second session ends with the answer of the first, since no time that is quiet enough has passed for it: this run has
/// frames that outlive their session.
#[test]
fn answer_that_outlives_its_session(rt: HostRuntime) -> Result<(), Fail> {
    let mut run = answered(rt.alloc())?;
    run.add_all(&[("deliver 7 down 1", "acked report 1 delivered")])?;
    run.repeat(100, &[("tick 7 both", "ok")])?;
    run.hand(rt.alloc(), "dev", DATAGRAM, "ok edition 1 rule 6 bits 200")?;
    run.add_all(&[
        (
            "slot 7 dev",
            "frame 4 port 20 3e06000102030405060708 begins 2",
        ),
        ("deliver 7 up 4", "stored"),
        (
            "slot 7 dev",
            "frame 5 port 20 3d090a0b0c0d0e0f101112 goes 2",
        ),
        ("deliver 7 up 5", "stored"),
        ("slot 7 dev", "frame 6 port 20 3fa3400e9f1314151617 goes 2"),
        ("deliver 7 down 1", "acked report 2 delivered"),
    ])?;
    assert!(rt; run.is_printed(&rt)?);
    Ok(())
}

/// An edition that retires rule 6 and adds rule 8, which is rule 6 for a hop limit of 3f; and one that gives 6 a second
/// meaning.
fn later_editions(alloc: Global) -> Result<(String, String), Fail> {
    let mut rows = headers(ANY_FLOW, PREFIX, PORT, CHECKSUM);
    rows[5] = ("fid-ipv6-hoplimit", "8", Says::Known("3f"));
    let other = rule(alloc, 8, true, rows.as_slice())?;
    let retired = rule_6(alloc, false)?;
    let changed = rule(alloc, 6, true, rows.as_slice())?;
    let second = format!(in alloc; "{retired},{other}")?;
    let third = format!(in alloc; "{changed},{other}")?;
    Ok((
        edition(alloc, 2, second.as_str())?,
        edition(alloc, 3, third.as_str())?,
    ))
}

/// The packet is read by the rule by which it was written, although that one has been retired in between.
#[test]
fn edition_between_fragments(rt: HostRuntime) -> Result<(), Fail> {
    let alloc = rt.alloc();
    let (second, third) = later_editions(alloc)?;
    let mut run = with_datagram(alloc)?;
    run.add_all(&[
        FIRST,
        ("deliver 7 up 1", "stored"),
        SECOND,
        ("deliver 7 up 2", "stored"),
    ])?;
    run.publish(alloc, second.as_str(), "ok 2")?;
    run.add_all(&[
        ("offer 7 gw 2", "adopted"),
        ("offer 7 dev 2", "adopted"),
        THIRD,
    ])?;
    run.joins(alloc, "deliver 7 up 3", 6, DATAGRAM)?;
    run.add_all(&[("allow 7 dev 2", "yes")])?;
    run.hand(alloc, "dev", SAME_HOPS, "ok edition 2 rule 22 bits 408")?;
    run.hand(alloc, "dev", OTHER_HOPS, "ok edition 2 rule 8 bits 24")?;
    run.publish(
        alloc,
        third.as_str(),
        "refused 16 meaning-changed rule 6 entry 0",
    )?;
    assert!(rt; run.is_printed(&rt)?);
    Ok(())
}

/// A run in which the shortest packet has been handed down.
fn with_packet(alloc: Global, words: &str, end: &str) -> Result<Run, Fail> {
    let mut run = Run::new(alloc, words)?;
    run.hand(alloc, end, P40, "ok edition 0 rule 22 bits 328")?;
    Ok(run)
}

#[test]
fn each_tile_is_answered(rt: HostRuntime) -> Result<(), Fail> {
    let mut run = with_packet(rt.alloc(), "", "gw")?;
    run.add_all(&[
        (
            "slot 7 gw",
            "frame 1 port 21 059800000000000ed03fa000000000 begins 1",
        ),
        ("deliver 7 down 1", "stored"),
        ("slot 7 dev", "frame 1 port 21 20 answers"),
        ("deliver 7 up 1", "acked"),
        (
            "slot 7 gw",
            "frame 2 port 21 800000000000000000001fe8000000 goes 1",
        ),
        ("deliver 7 down 2", "stored"),
        ("slot 7 dev", "frame 2 port 21 a0 answers"),
        ("deliver 7 up 2", "acked"),
        ("slot 7 gw", "frame 3 port 21 00000000000000000000 goes 1"),
        ("deliver 7 down 3", "stored"),
        ("slot 7 dev", "frame 3 port 21 20 answers"),
        ("deliver 7 up 3", "acked"),
        ("slot 7 gw", "frame 4 port 21 f6ed96378002 goes 1"),
    ])?;
    run.joins(rt.alloc(), "deliver 7 down 4", 22, P40)?;
    run.add_all(&[
        ("slot 7 dev", "frame 4 port 21 c0 answers"),
        ("deliver 7 up 4", "acked report 1 delivered"),
    ])?;
    assert!(rt; run.is_printed(&rt)?);
    Ok(())
}

#[test]
fn nothing_is_answered(rt: HostRuntime) -> Result<(), Fail> {
    let mut run = with_packet(rt.alloc(), " mode noack", "dev")?;
    run.add_all(&[
        (
            "slot 7 dev",
            "frame 1 port 222 0b3000000000001da07f4000000000 begins 1",
        ),
        ("deliver 7 up 1", "stored"),
        (
            "slot 7 dev",
            "frame 2 port 222 000000000000000000007fa0000000 goes 1",
        ),
        ("deliver 7 up 2", "stored"),
        ("slot 7 dev", "frame 3 port 222 00000000000000000000 goes 1"),
        ("deliver 7 up 3", "stored"),
        (
            "slot 7 dev",
            "frame 4 port 222 d9d953030020 goes 1 report 1 sent",
        ),
    ])?;
    run.joins(rt.alloc(), "deliver 7 up 4", 22, P40)?;
    assert!(rt; run.is_printed(&rt)?);
    Ok(())
}
