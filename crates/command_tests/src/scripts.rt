//! Runs of scripts.

use crate::rules::{CHECKSUM, FLOW, PACKET, PORT, PREFIX, edition, headers, rule, rule_5};
use crate::runs::{prints, push_zeros};
use gw_top::Status;
use std::alloc::Global;
use std::test::Fail;
use std::thread::Threads;

/// An IPv6 packet without a payload from the device.
pub const P40: &str =
    "6000000000003b40fe800000000000000000000000000001fe800000000000000000000000000002";

const DEVICE: &str = "device 7 0000000000000001 0000000000000002\n";

/// Whether `sim` ends well and prints the lines for a device and these events.
fn prints_for<R: Threads + AllocGlobal + Sync>(
    rt: &R,
    events: &str,
    lines: &str,
) -> Result<bool, Fail> {
    let script = format!(in rt.alloc(); "{DEVICE}{events}")?;
    prints(rt, "sim", script.as_str(), Status::Ok, lines)
}

/// A packet, whose frame is delivered twice: a script and its lines.
pub fn one_packet(alloc: Global) -> Result<(String, String), Fail> {
    let script = format!(in alloc;
        "{DEVICE}hand 7 dev {P40}\nslot 7 dev\ndeliver 7 up 1\ndeliver 7 up 1\n"
    )?;
    let lines = format!(in alloc;
        "1 hand 7 dev ok edition 0 rule 22 bits 328\n2 slot 7 dev frame 1 port 22 {P40} whole\n3 deliver 7 up 1 small up 22 {P40}\n4 deliver 7 up 1 small up 22 {P40}\n"
    )?;
    Ok((script, lines))
}

#[test]
fn one_packet_under_rule_22(rt: HostRuntime) -> Result<(), Fail> {
    let (script, lines) = one_packet(rt.alloc())?;
    assert!(rt; prints(&rt, "sim", script.as_str(), Status::Ok, lines.as_str())?);
    Ok(())
}

#[test]
fn a_ninth_packet_is_refused(rt: HostRuntime) -> Result<(), Fail> {
    let mut events = String::new(rt.alloc());
    let mut lines = String::new(rt.alloc());
    for place in 1..9u8 {
        write!(&mut events, "hand 7 dev {P40}\n")?;
        write!(
            &mut lines,
            "{place} hand 7 dev ok edition 0 rule 22 bits 328\n"
        )?;
    }
    write!(&mut events, "hand 7 dev {P40}\n")?;
    lines.push_str("9 hand 7 dev refused full\n")?;
    assert!(rt; prints_for(&rt, events.as_str(), lines.as_str())?);
    Ok(())
}

/// Hex digits in upper case, no last line feed, and the other end.
#[test]
fn a_packet_on_the_way_down(rt: HostRuntime) -> Result<(), Fail> {
    let events =
        "slot 7 gw\nhand 7 gw 6000000000003B40FE800000000000000000000000000001FE800000000000000000000000000002\nslot 7 gw\ndeliver 7 down 1";
    let lines = format!(in rt.alloc();
        "1 slot 7 gw none\n2 hand 7 gw ok edition 0 rule 22 bits 328\n3 slot 7 gw frame 1 port 22 {P40} whole\n4 deliver 7 down 1 small up 22 {P40}\n"
    )?;
    assert!(rt; prints_for(&rt, events, lines.as_str())?);
    Ok(())
}

#[test]
fn refusals(rt: HostRuntime) -> Result<(), Fail> {
    let mut events = String::from_str(rt.alloc(), "hand 7 dev 60\nhand 7 dev 60")?;
    push_zeros(&mut events, 1500)?;
    events.push_str("\ndeliver 7 up 1\ndeliver 7 down 18446744073709551615\n")?;
    let lines =
        "1 hand 7 dev refused not-ipv6\n2 hand 7 dev refused too-long\n3 deliver 7 up 1 refused no-frame\n4 deliver 7 down 18446744073709551615 refused no-frame\n";
    assert!(rt; prints_for(&rt, events.as_str(), lines)?);
    Ok(())
}

/// Editions that the chain lacks or that are no later ones, a packet that goes as a session, and an edition that
/// is published before the device is declared.
#[test]
fn offers(rt: HostRuntime) -> Result<(), Fail> {
    let script = format!(in rt.alloc();
        "publish {{\"number\":1,\"rules\":[]}}\ndevice 7 0000000000000001 0000000000000002 mtu 15\noffer 7 dev 0\nallow 7 dev 1\noffer 7 dev 2\noffer 7 gw 1\nallow 7 gw 1\npublish {{\"number\":3,\"rules\":[]}}\nhand 7 dev {P40}\n"
    )?;
    let lines =
        "1 publish ok 1\n2 offer 7 dev 0 older\n3 allow 7 dev 1 no\n4 offer 7 dev 2 refused no-edition\n5 offer 7 gw 1 adopted\n6 allow 7 gw 1 yes\n7 publish refused 14 number-not-next rule 0 entry 0\n8 hand 7 dev ok edition 0 rule 22 bits 328\n";
    assert!(rt; prints(&rt, "sim", script.as_str(), Status::Ok, lines)?);
    Ok(())
}

#[test]
fn scripts_without_a_line(rt: HostRuntime) -> Result<(), Fail> {
    for script in ["", DEVICE, "\n# a comment\n"] {
        assert!(rt; prints(&rt, "sim", script, Status::Ok, "")?);
    }
    Ok(())
}

#[test]
fn texts_that_are_no_scripts(rt: HostRuntime) -> Result<(), Fail> {
    let cases = [
        " # no comment\n",
        "publish {}\n",
        "slot 7 dev\n",
        "device 7 0000000000000001 0000000000000002 mtu 14\n",
        "device 07 0000000000000001 0000000000000002\n",
        "device 7 0000000000000001 000000000000002\n",
    ];
    for script in cases {
        assert!(rt; prints(&rt, "sim", script, Status::BadInput(1), "")?);
    }
    Ok(())
}

#[test]
fn lines_that_are_no_events(rt: HostRuntime) -> Result<(), Fail> {
    let cases = [
        "device 7 0000000000000001 0000000000000002\n",
        "slot 8 dev\n",
        "hand 7 dev \n",
        "deliver 7 up 18446744073709551616\n",
    ];
    for line in cases {
        let script = format!(in rt.alloc(); "{DEVICE}{line}")?;
        assert!(rt; prints(&rt, "sim", script.as_str(), Status::BadInput(2), "")?);
    }
    Ok(())
}

/// The events by which the edition of these rules is published, and both ends adopt it.
fn adopted(alloc: Global, rules: &str) -> Result<String, Fail> {
    let edition = edition(alloc, 1, rules)?;
    Ok(format!(in alloc; "publish {edition}\noffer 7 dev 1\noffer 7 gw 1\n")?)
}

const ADOPTED: &str = "1 publish ok 1\n2 offer 7 dev 1 adopted\n3 offer 7 gw 1 adopted\n";

/// Whether the lines follow on these events, which follow on an edition of rule 5 that both ends adopt.
fn follow<R: Threads + AllocGlobal + Sync>(
    rt: &R,
    events: &str,
    lines: &str,
) -> Result<bool, Fail> {
    let alloc = rt.alloc();
    let rules = rule_5(alloc, true)?;
    let adopted = adopted(alloc, rules.as_str())?;
    let events = format!(in alloc; "{adopted}{events}")?;
    let lines = format!(in alloc; "{ADOPTED}{lines}")?;
    prints_for(rt, events.as_str(), lines.as_str())
}

#[test]
fn a_packet_by_a_rule(rt: HostRuntime) -> Result<(), Fail> {
    let events = format!(in rt.alloc();
        "allow 7 dev 1\nhand 7 dev {PACKET}\nslot 7 dev\ndeliver 7 up 1\n"
    )?;
    let lines = format!(in rt.alloc();
        "4 allow 7 dev 1 yes\n5 hand 7 dev ok edition 1 rule 5 bits 28\n6 slot 7 dev frame 1 port 5 3cafe0 whole\n7 deliver 7 up 1 small up 5 {PACKET}\n"
    )?;
    assert!(rt; follow(&rt, events.as_str(), lines.as_str())?);
    Ok(())
}

#[test]
fn a_rule_that_the_gateway_lacks(rt: HostRuntime) -> Result<(), Fail> {
    let rules = rule_5(rt.alloc(), true)?;
    let edition = edition(rt.alloc(), 1, rules.as_str())?;
    let events = format!(in rt.alloc();
        "publish {edition}\noffer 7 dev 1\nallow 7 dev 1\nhand 7 dev {PACKET}\nslot 7 dev\ndeliver 7 up 1\n"
    )?;
    let lines =
        "1 publish ok 1\n2 offer 7 dev 1 adopted\n3 allow 7 dev 1 yes\n4 hand 7 dev ok edition 1 rule 5 bits 28\n5 slot 7 dev frame 1 port 5 3cafe0 whole\n6 deliver 7 up 1 refused unknown-rule 5\n";
    assert!(rt; prints_for(&rt, events.as_str(), lines)?);
    Ok(())
}

#[test]
fn a_packet_goes_as_it_was_handed_down(rt: HostRuntime) -> Result<(), Fail> {
    let events = format!(in rt.alloc();
        "hand 7 dev {PACKET}\nallow 7 dev 1\nhand 7 dev {PACKET}\nslot 7 dev\nslot 7 dev\ndeliver 7 up 1\n"
    )?;
    let lines = format!(in rt.alloc();
        "4 hand 7 dev ok edition 0 rule 22 bits 408\n5 allow 7 dev 1 yes\n6 hand 7 dev ok edition 1 rule 5 bits 28\n7 slot 7 dev frame 1 port 22 {PACKET} whole\n8 slot 7 dev frame 2 port 5 3cafe0 whole\n9 deliver 7 up 1 small up 22 {PACKET}\n"
    )?;
    assert!(rt; follow(&rt, events.as_str(), lines.as_str())?);
    Ok(())
}

/// The events after which rule 5 is retired, while a frame that was written by it is on its way, and an edition that gives
/// its number to another rule.
fn retiring(alloc: Global) -> Result<String, Fail> {
    let retired = rule_5(alloc, false)?;
    let other = rule(
        alloc,
        5,
        true,
        headers(FLOW, PREFIX, PORT, CHECKSUM).as_slice(),
    )?;
    let second = edition(alloc, 2, retired.as_str())?;
    let third = edition(alloc, 3, other.as_str())?;
    Ok(format!(in alloc;
        "allow 7 dev 1\nhand 7 dev {PACKET}\nslot 7 dev\npublish {second}\noffer 7 dev 2\noffer 7 gw 2\ndeliver 7 up 1\nallow 7 dev 2\nhand 7 dev {PACKET}\npublish {third}\n"
    )?)
}

#[test]
fn a_retired_rule_is_read(rt: HostRuntime) -> Result<(), Fail> {
    let events = retiring(rt.alloc())?;
    let lines = format!(in rt.alloc();
        "4 allow 7 dev 1 yes\n5 hand 7 dev ok edition 1 rule 5 bits 28\n6 slot 7 dev frame 1 port 5 3cafe0 whole\n7 publish ok 2\n8 offer 7 dev 2 adopted\n9 offer 7 gw 2 adopted\n10 deliver 7 up 1 small up 5 {PACKET}\n11 allow 7 dev 2 yes\n12 hand 7 dev ok edition 2 rule 22 bits 408\n13 publish refused 16 meaning-changed rule 5 entry 0\n"
    )?;
    assert!(rt; follow(&rt, events.as_str(), lines.as_str())?);
    Ok(())
}
