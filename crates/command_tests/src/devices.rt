//! Scripts of many devices, with any number of workers, and the limits of scripts.

use crate::runs::prints;
use crate::scripts::P40;
use gw_top::{Counted, Status};
use std::alloc::Global;
use std::test::Fail;

/// A script of three devices whose events are mixed, with a publication before the last is declared, and its lines.
fn three_devices(alloc: Global) -> Result<(String, String), Fail> {
    let script = format!(in alloc;
        "device 9 0000000000000009 0000000000000002\ndevice 7 0000000000000007 0000000000000002 mtu 15\nhand 7 dev {P40}\nhand 9 gw {P40}\npublish {{\"number\":1,\"rules\":[]}}\ndevice 65535 0000000000000008 0000000000000002\nslot 9 gw\noffer 65535 dev 1\nslot 65535 gw\noffer 7 gw 2\npublish {{\"number\":1,\"rules\":[]}}\ndeliver 9 down 1\ndeliver 7 down 1\n"
    )?;
    let lines = format!(in alloc;
        "1 hand 7 dev ok edition 0 rule 22 bits 328\n2 hand 9 gw ok edition 0 rule 22 bits 328\n3 publish ok 1\n4 slot 9 gw frame 1 port 22 {P40} whole\n5 offer 65535 dev 1 adopted\n6 slot 65535 gw none\n7 offer 7 gw 2 refused no-edition\n8 publish refused 14 number-not-next rule 0 entry 0\n9 deliver 9 down 1 small up 22 {P40}\n10 deliver 7 down 1 refused no-frame\n"
    )?;
    Ok((script, lines))
}

/// More workers than devices are as good as one.
#[test]
fn mixed_events(rt: HostRuntime) -> Result<(), Fail> {
    let (script, lines) = three_devices(rt.alloc())?;
    for words in [
        "sim",
        "sim --workers 1",
        "sim --workers 2",
        "sim --workers 8",
    ] {
        assert!(rt; prints(&rt, words, script.as_str(), Status::Ok, lines.as_str())?);
    }
    Ok(())
}

#[test]
fn publications_without_a_device(rt: HostRuntime) -> Result<(), Fail> {
    let script = "publish {\"number\":1,\"rules\":[]}\npublish {\"number\":1,\"rules\":[]}\n";
    let lines = "1 publish ok 1\n2 publish refused 14 number-not-next rule 0 entry 0\n";
    assert!(rt; prints(&rt, "sim --workers 2", script, Status::Ok, lines)?);
    Ok(())
}

#[test]
fn the_first_bad_line(rt: HostRuntime) -> Result<(), Fail> {
    let script = "device 7 0000000000000001 0000000000000002\n\njump 7\nslot 8 dev\n";
    assert!(rt; prints(&rt, "sim", script, Status::BadInput(3), "")?);
    Ok(())
}

/// A device, and so many times the line of an event.
fn events(alloc: Global, count: usize, line: &str) -> Result<String, Fail> {
    let mut script = String::from_str(alloc, "device 7 0000000000000001 0000000000000002\n")?;
    for _ in 0..count {
        script.push_str(line)?;
    }
    Ok(script)
}

/// So many devices.
fn devices(alloc: Global, count: usize) -> Result<String, Fail> {
    let mut script = String::new(alloc);
    for number in 0..count {
        write!(
            &mut script,
            "device {number} 0000000000000001 0000000000000002\n"
        )?;
    }
    Ok(script)
}

#[test]
fn one_too_many(rt: HostRuntime) -> Result<(), Fail> {
    let script = events(rt.alloc(), 200_001, "allow 7 dev 1\n")?;
    let limit = Status::Limit(Counted::Events, 200_001);
    assert!(rt; prints(&rt, "sim", script.as_str(), limit, "")?);
    let script = devices(rt.alloc(), 1025)?;
    let limit = Status::Limit(Counted::Devices, 1025);
    assert!(rt; prints(&rt, "sim", script.as_str(), limit, "")?);
    let script = devices(rt.alloc(), 1024)?;
    assert!(rt; prints(&rt, "sim --workers 3", script.as_str(), Status::Ok, "")?);
    Ok(())
}
