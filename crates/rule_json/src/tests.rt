//! Texts with what they are read as, and what is written for them.

use super::*;
use schc_bits::Octets;
use schc_ids::{Direction, EndParams, Iids, LastTile, TimerTicks};
use std::alloc::Global;
use std::test::Fail;

/// An edition of one rule, with white space, its members in another order, members that aren't
/// looked at, hex digits in upper case and an odd number of digits.
const LOOSE: &[u8] =
    b" {\"rules\": [ {\"rule-id-value\":5, \"live\":false, \"note\":[1.5,null], \"entry\":[\r\n{\"field-id\":\"fid-ipv6-version\",\"field-length\":4,\"field-position\":1,\"direction-indicator\":\"di-up\",\"target-value\":[\"6\"],\"matching-operator\":\"mo-equal\",\"comp-decomp-action\":\"cda-not-sent\"},\t{\"comp-decomp-action\":\"cda-lsb\",\"direction-indicator\":\"di-bidirectional\",\"field-id\":\"fid-udp-app-port\",\"field-length\":16,\"field-position\":1,\"matching-operator\":\"mo-msb\",\"matching-operator-value\":12,\"target-value\":[\"F0B0\"]},{\"comp-decomp-action\":\"cda-value-sent\",\"direction-indicator\":\"di-down\",\"field-id\":\"fid-coap-option-uri-path\",\"field-length\":\"fl-variable\",\"field-position\":2,\"matching-operator\":\"mo-match-mapping\",\"target-value\":[\"\",\"61\",\"6162\"]},{\"comp-decomp-action\":\"cda-value-sent\",\"direction-indicator\":\"di-down\",\"field-id\":\"fid-coap-token\",\"field-length\":\"fl-token-length\",\"field-position\":1,\"matching-operator\":\"mo-ignore\"}]}],\"number\":4294967295}\n";

/// The same without spaces, with all members in the order of their keys.
const STRICT: &[u8] =
    b"{\"number\":4294967295,\"rules\":[{\"entry\":[{\"comp-decomp-action\":\"cda-not-sent\",\"direction-indicator\":\"di-up\",\"field-id\":\"fid-ipv6-version\",\"field-length\":4,\"field-position\":1,\"matching-operator\":\"mo-equal\",\"target-value\":[\"6\"]},{\"comp-decomp-action\":\"cda-lsb\",\"direction-indicator\":\"di-bidirectional\",\"field-id\":\"fid-udp-app-port\",\"field-length\":16,\"field-position\":1,\"matching-operator\":\"mo-msb\",\"matching-operator-value\":12,\"target-value\":[\"f0b0\"]},{\"comp-decomp-action\":\"cda-value-sent\",\"direction-indicator\":\"di-down\",\"field-id\":\"fid-coap-option-uri-path\",\"field-length\":\"fl-variable\",\"field-position\":2,\"matching-operator\":\"mo-match-mapping\",\"target-value\":[\"\",\"61\",\"6162\"]},{\"comp-decomp-action\":\"cda-value-sent\",\"direction-indicator\":\"di-down\",\"field-id\":\"fid-coap-token\",\"field-length\":\"fl-token-length\",\"field-position\":1,\"matching-operator\":\"mo-ignore\",\"target-value\":[]}],\"live\":false,\"rule-id-value\":5}]}";

/// Writes what the text is read as.
fn rewritten(alloc: Global, text: &[u8]) -> Result<Octets, JsonFault> {
    let edition = read_edition(alloc, text)?;
    Ok(write_edition(alloc, &edition)?)
}

fn is_rewritten(alloc: Global, text: &[u8], expected: &[u8]) -> bool {
    match rewritten(alloc, text) {
        Ok(octets) => octets.as_slice() == expected,
        Err(_) => false,
    }
}

fn is_refused(alloc: Global, text: &[u8], expected: JsonFault) -> bool {
    match read_edition(alloc, text) {
        Ok(_) => false,
        Err(fault) => fault == expected,
    }
}

/// The text of an edition of one rule with one entry of a field of this length and with this
/// target.
fn with_target(alloc: Global, length: &str, target: &str) -> Result<String, Fail> {
    let mut text = String::from_str(
        alloc,
        "{\"number\":0,\"rules\":[{\"entry\":[{\"comp-decomp-action\":\"cda-not-sent\",\"direction-indicator\":\"di-up\",\"field-id\":\"fid-coap-type\",\"field-length\":",
    )?;
    text.push_str(length)?;
    text.push_str(",\"field-position\":0,\"matching-operator\":\"mo-equal\",\"target-value\":[\"")?;
    text.push_str(target)?;
    text.push_str("\"]}],\"live\":true,\"rule-id-value\":65535}]}")?;
    Ok(text)
}

/// Whether the target is written as it is expected, or is outside the layout where nothing is.
fn target_is(
    alloc: Global,
    length: &str,
    target: &str,
    expected: Option<&str>,
) -> Result<bool, Fail> {
    let text = with_target(alloc, length, target)?;
    match expected {
        Some(digits) => {
            let whole = with_target(alloc, length, digits)?;
            Ok(is_rewritten(alloc, text.as_bytes(), whole.as_bytes()))
        }
        None => Ok(is_refused(alloc, text.as_bytes(), JsonFault::NotLayout)),
    }
}

/// An edition beside a member with this many open lists.
fn nested(alloc: Global, lists: usize) -> Result<String, Fail> {
    let mut text = String::from_str(alloc, "{\"number\":1,\"rules\":[],\"x\":")?;
    for _ in 0..lists {
        text.push('[')?;
    }
    for _ in 0..lists {
        text.push(']')?;
    }
    text.push('}')?;
    Ok(text)
}

#[test]
fn editions(rt: HostRuntime) {
    assert!(rt; is_rewritten(rt.alloc(), LOOSE, STRICT));
    assert!(rt; is_rewritten(rt.alloc(), STRICT, STRICT));
    let cases: [(&[u8], &[u8]); 3] = [
        (
            b"{\"number\":1,\"rules\":[{\"entry\":[],\"rule-id-value\":7}]}",
            b"{\"number\":1,\"rules\":[{\"entry\":[],\"live\":true,\"rule-id-value\":7}]}",
        ),
        (
            b"{\"number\":1,\"number\":2,\"rules\":[]}",
            b"{\"number\":2,\"rules\":[]}",
        ),
        (
            b"{\"n\\u0075mber\":1,\"rules\":[],\"n\":-1e2}",
            b"{\"number\":1,\"rules\":[]}",
        ),
    ];
    for (text, expected) in cases {
        assert!(rt; is_rewritten(rt.alloc(), text, expected));
    }
}

#[test]
fn refusals(rt: HostRuntime) {
    let cases: [(&[u8], JsonFault); 22] = [
        (b"", JsonFault::NotJson),
        (b"{\"number\":1,\"rules\":[]", JsonFault::NotJson),
        (b"{\"number\":1,\"rules\":[]}}", JsonFault::NotJson),
        (b"{\"number\":01,\"rules\":[]}", JsonFault::NotJson),
        (
            b"\xef\xbb\xbf{\"number\":1,\"rules\":[]}",
            JsonFault::NotJson,
        ),
        (
            b"{\"number\":1,\"rules\":[],\"x\":\"\xff\"}",
            JsonFault::NotJson,
        ),
        (
            b"{\"number\":1,\"rules\":[],\"x\":\"\\ud800\"}",
            JsonFault::NotJson,
        ),
        (
            b"{\"number\":1,\"rules\":[],\"x\":1e999}",
            JsonFault::NotJson,
        ),
        (b"[]", JsonFault::NotLayout),
        (b"null", JsonFault::NotLayout),
        (b"{\"rules\":[]}", JsonFault::NotLayout),
        (b"{\"number\":1}", JsonFault::NotLayout),
        (b"{\"number\":1,\"rules\":{}}", JsonFault::NotLayout),
        (b"{\"number\":1.0,\"rules\":[]}", JsonFault::NotLayout),
        (b"{\"number\":1e0,\"rules\":[]}", JsonFault::NotLayout),
        (b"{\"number\":-0,\"rules\":[]}", JsonFault::NotLayout),
        (b"{\"number\":-1,\"rules\":[]}", JsonFault::NotLayout),
        (
            b"{\"number\":4294967296,\"rules\":[]}",
            JsonFault::NotLayout,
        ),
        (
            b"{\"number\":18446744073709551616,\"rules\":[]}",
            JsonFault::NotLayout,
        ),
        (b"{\"number\":\"1\",\"rules\":[]}", JsonFault::NotLayout),
        (
            b"{\"number\":1,\"rules\":[{\"rule-id-value\":5,\"live\":null,\"entry\":[]}]}",
            JsonFault::NotLayout,
        ),
        (
            b"{\"number\":1,\"rules\":[{\"rule-id-value\":65536,\"entry\":[]}]}",
            JsonFault::NotLayout,
        ),
    ];
    for (text, fault) in cases {
        assert!(rt; is_refused(rt.alloc(), text, fault));
    }
}

#[test]
fn targets(rt: HostRuntime) -> Result<(), Fail> {
    let cases: [(&str, &str, Option<&str>); 16] = [
        ("4", "A", Some("a")),
        ("4", "", Some("0")),
        ("4", "0a", None),
        ("4", "g", None),
        ("0", "", Some("")),
        ("0", "0", None),
        ("5", "1f", Some("1f")),
        ("5", "20", None),
        ("5", "f", Some("0f")),
        ("65", "1ffffffffffffffff", Some("1ffffffffffffffff")),
        ("65", "2ffffffffffffffff", None),
        ("65536", "0", None),
        ("\"fl-variable\"", "0aB1", Some("0ab1")),
        ("\"fl-variable\"", "0aB", None),
        ("\"fl-token-length\"", "00", Some("00")),
        ("\"fl-fixed\"", "00", None),
    ];
    for (length, target, expected) in cases {
        assert!(rt; target_is(rt.alloc(), length, target, expected)?);
    }
    Ok(())
}

#[test]
fn nesting(rt: HostRuntime) -> Result<(), Fail> {
    let shallow = nested(rt.alloc(), 126)?;
    assert!(rt;
        is_rewritten(
            rt.alloc(),
            shallow.as_bytes(),
            b"{\"number\":1,\"rules\":[]}"
        )
    );
    let deep = nested(rt.alloc(), 127)?;
    assert!(rt; is_refused(rt.alloc(), deep.as_bytes(), JsonFault::NotJson));
    Ok(())
}

/// Whether the text is a context of this many devices, the last with this number, identifiers and
/// most bytes of a frame, and of this many editions.
fn is_context(
    alloc: Global,
    text: &[u8],
    devices: usize,
    last: (u16, u64, u64, u16),
    editions: usize,
) -> bool {
    let Ok(context) = read_context(alloc, text) else {
        return false;
    };
    let Some(device) = context.devices.as_slice().last() else {
        return devices == 0 && context.devices.is_empty() && context.editions.len() == editions;
    };
    let iids = device.params.iids;
    context.devices.len() == devices
        && context.editions.len() == editions
        && (device.number, iids.dev, iids.app, device.params.mtu) == last
}

fn is_no_context(alloc: Global, text: &[u8], expected: JsonFault) -> bool {
    match read_context(alloc, text) {
        Ok(_) => false,
        Err(fault) => fault == expected,
    }
}

#[test]
fn contexts(rt: HostRuntime) {
    let alloc = rt.alloc();
    assert!(rt; is_context(alloc, b"{}", 0, (0, 0, 0, 0), 0));
    assert!(rt;
        is_context(
            alloc,
            b"{\"editions\":[{\"number\":1,\"rules\":[]}]}",
            0,
            (0, 0, 0, 0),
            1
        )
    );
    assert!(rt;
        is_context(
            alloc,
            b"{\"devices\":[{\"device\":7,\"dev-iid\":\"000000000000000A\",\"app-iid\":\"ffffffffffffffff\"}]}",
            1,
            (7, 10, 18446744073709551615, 242),
            0
        )
    );
    assert!(rt;
        is_context(
            alloc,
            b"{\"devices\":[{\"device\":7,\"dev-iid\":\"0000000000000001\",\"app-iid\":\"0000000000000002\"},{\"device\":65535,\"dev-iid\":\"0000000000000003\",\"app-iid\":\"0000000000000004\",\"mtu\":15,\"color\":\"red\"}],\"editions\":[]}",
            2,
            (65535, 3, 4, 15),
            0
        )
    );
    let cases: [(&[u8], JsonFault); 9] = [
        (b"{", JsonFault::NotJson),
        (b"[]", JsonFault::NotLayout),
        (b"{\"devices\":null}", JsonFault::NotLayout),
        (b"{\"editions\":[1]}", JsonFault::NotLayout),
        (
            b"{\"devices\":[{\"device\":7,\"dev-iid\":\"0000000000000001\",\"app-iid\":\"0000000000000002\",\"mtu\":14}]}",
            JsonFault::NotLayout,
        ),
        (
            b"{\"devices\":[{\"device\":7,\"dev-iid\":\"0000000000000001\",\"app-iid\":\"0000000000000002\",\"mtu\":243}]}",
            JsonFault::NotLayout,
        ),
        (
            b"{\"devices\":[{\"device\":7,\"dev-iid\":\"0000000000000001\",\"app-iid\":\"0000000000000002\",\"mtu\":null}]}",
            JsonFault::NotLayout,
        ),
        (
            b"{\"devices\":[{\"device\":7,\"dev-iid\":\"000000000000001\",\"app-iid\":\"0000000000000002\"}]}",
            JsonFault::NotLayout,
        ),
        (
            b"{\"devices\":[{\"device\":7,\"dev-iid\":\"0000000000000001\",\"app-iid\":\"0000000000000002\"},{\"device\":7,\"dev-iid\":\"0000000000000003\",\"app-iid\":\"0000000000000004\"}]}",
            JsonFault::NotLayout,
        ),
    ];
    for (text, fault) in cases {
        assert!(rt; is_no_context(alloc, text, fault));
    }
}

/// The parameters of a context's only device, whose text has these members beside its number and
/// its identifiers; none where the text is outside the layout.
fn params_with(alloc: Global, members: &str) -> Result<Option<EndParams>, Fail> {
    let text = format!(in alloc;
        "{{\"devices\":[{{\"device\":7,\"dev-iid\":\"0000000000000001\",\"app-iid\":\"0000000000000002\"{members}}}]}}"
    )?;
    match read_context(alloc, text.as_bytes()) {
        Ok(context) => Ok(
            context
                .devices
                .as_slice()
                .first()
                .map(|device| device.params),
        ),
        Err(_) => Ok(None),
    }
}

#[test]
fn device_members(rt: HostRuntime) -> Result<(), Fail> {
    let iids = Iids { dev: 1, app: 2 };
    let cases: [(&str, u16, bool, LastTile, (u32, u32, u32, u32)); 4] = [
        ("", 242, true, LastTile::InAll1, (10, 40, 40, 100)),
        (",\"mtu\":15", 15, true, LastTile::InAll1, (10, 40, 40, 100)),
        (
            ",\"mode\":\"noack\",\"last\":\"regular\",\"timers\":[1,2,3,1000000]",
            242,
            false,
            LastTile::InRegular,
            (1, 2, 3, 1000000),
        ),
        (
            ",\"timers\":[1000000,3,2,1],\"last\":\"all1\",\"mode\":\"acked\",\"mtu\":242",
            242,
            true,
            LastTile::InAll1,
            (1000000, 3, 2, 1),
        ),
    ];
    for (members, mtu, acked, last, (retransmission, inactivity, linger, quiet)) in cases {
        let ticks = TimerTicks {
            retransmission,
            inactivity,
            linger,
            quiet,
        };
        let expected = EndParams {
            iids,
            mtu,
            acked,
            last,
            ticks,
        };
        assert_eq!(rt; params_with(rt.alloc(), members)?, Some(expected));
    }
    Ok(())
}

#[test]
fn device_members_outside_the_layout(rt: HostRuntime) -> Result<(), Fail> {
    let cases: [&str; 15] = [
        ",\"mode\":\"ack\"",
        ",\"mode\":\"Acked\"",
        ",\"mode\":null",
        ",\"mode\":true",
        ",\"last\":\"x\"",
        ",\"last\":\"\"",
        ",\"last\":1",
        ",\"timers\":[1,2,3]",
        ",\"timers\":[1,2,3,4,5]",
        ",\"timers\":[0,2,3,4]",
        ",\"timers\":[1,2,3,1000001]",
        ",\"timers\":[1,2,3.0,4]",
        ",\"timers\":[1,2,\"3\",4]",
        ",\"timers\":{}",
        ",\"timers\":null",
    ];
    for members in cases {
        assert_eq!(rt; params_with(rt.alloc(), members)?, None);
    }
    Ok(())
}

/// Whether the text is work of this direction with these two packets.
fn is_work(alloc: Global, text: &[u8], direction: Direction, packets: (&[u8], &[u8])) -> bool {
    let Ok(work) = read_work(alloc, text) else {
        return false;
    };
    let [first, second] = work.packets.as_slice() else {
        return false;
    };
    work.direction == direction
        && work.editions.is_empty()
        && work.iids.dev == 1
        && work.iids.app == 2
        && first.bytes.as_slice() == packets.0
        && second.bytes.as_slice() == packets.1
}

fn is_no_work(alloc: Global, text: &[u8], expected: JsonFault) -> bool {
    match read_work(alloc, text) {
        Ok(_) => false,
        Err(fault) => fault == expected,
    }
}

#[test]
fn work_files(rt: HostRuntime) {
    let alloc = rt.alloc();
    assert!(rt;
        is_work(
            alloc,
            b"{\"editions\":[],\"dev-iid\":\"0000000000000001\",\"app-iid\":\"0000000000000002\",\"direction\":\"di-down\",\"packets\":[\"60fF\",\"\"]}",
            Direction::Down,
            (b"\x60\xff", b"")
        )
    );
    let cases: [(&[u8], JsonFault); 4] = [
        (b"{\"editions\":[]", JsonFault::NotJson),
        (
            b"{\"dev-iid\":\"0000000000000001\",\"app-iid\":\"0000000000000002\",\"direction\":\"di-down\",\"packets\":[]}",
            JsonFault::NotLayout,
        ),
        (
            b"{\"editions\":[],\"dev-iid\":\"0000000000000001\",\"app-iid\":\"0000000000000002\",\"direction\":\"di-bidirectional\",\"packets\":[]}",
            JsonFault::NotLayout,
        ),
        (
            b"{\"editions\":[],\"dev-iid\":\"0000000000000001\",\"app-iid\":\"0000000000000002\",\"direction\":\"di-up\",\"packets\":[\"6\"]}",
            JsonFault::NotLayout,
        ),
    ];
    for (text, fault) in cases {
        assert!(rt; is_no_work(alloc, text, fault));
    }
}

#[test]
fn faults_are_displayed(rt: HostRuntime) -> Result<(), Fail> {
    let text = format!(in rt.alloc(); "{}", JsonFault::NotJson)?;
    assert!(rt; text.as_str() == "the text is no JSON");
    Ok(())
}
