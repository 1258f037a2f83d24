//! Rows on files of rules: contexts that are checked, and packets that are written and read.

use crate::rules::{
    CHECKSUM, FLOW, PACKET, PORT, PREFIX, Row, Says, edition, headers, refused_rule, rule, rule_5,
};
use crate::runs::prints;
use crate::sensor::sensor_rows;
use gw_top::Status;
use rule_model::Finding;
use std::alloc::Global;
use std::test::Fail;
use std::thread::Threads;

/// The packet with a checksum that isn't the right one.
const WRONG_CHECKSUM: &str =
    "60000000000a114020010db800000000000000000000000120010db8000000010000000000000002f0b1f0b3000af7fecafe";
/// The packet with another flow label.
const OTHER_FLOW: &str =
    "60012345000a114020010db800000000000000000000000120010db8000000010000000000000002f0b1f0b3000af7ffcafe";
/// The packet with another prefix of the application, and the checksum that goes with it.
const OTHER_PREFIX: &str =
    "60000000000a114020010db800000000000000000000000120010db8000000090000000000000002f0b1f0b3000af7f7cafe";

/// The finding of the rule whose checksum is dropped.
const NOT_DROPPABLE: Finding = Finding {
    number: 11,
    id: 5,
    entry: 14,
};

/// Whether `check` ends so on a context with one edition of this rule.
fn checks<R: Threads + AllocGlobal + Sync>(
    rt: &R,
    rule: &str,
    status: Status,
    text: &str,
) -> Result<bool, Fail> {
    let alloc = rt.alloc();
    let edition = edition(alloc, 1, rule)?;
    let context = format!(in alloc; "{{\"editions\":[{edition}]}}")?;
    prints(rt, "check", context.as_str(), status, text)
}

#[test]
fn contexts_are_checked(rt: HostRuntime) -> Result<(), Fail> {
    let alloc = rt.alloc();
    let good = rule_5(alloc, true)?;
    let bad = refused_rule(alloc)?;
    let published = "edition 1 ok live 1 retired 0\n";
    let found = "edition 1 refused 11 not-droppable rule 5 entry 14\n";
    assert!(rt; checks(&rt, good.as_str(), Status::Ok, published)?);
    assert!(rt; checks(&rt, bad.as_str(), Status::Refused(NOT_DROPPABLE), found)?);
    assert!(rt; prints(&rt, "check", "{}", Status::Ok, "")?);
    assert!(rt; prints(&rt, "check", "[]", Status::BadInput(0), "")?);
    Ok(())
}

/// Whether the command prints these two lines for two packets on the way up, by an edition of the rules.
fn works<R: Threads + AllocGlobal + Sync>(
    rt: &R,
    command: &str,
    rules: &str,
    packets: (&str, &str),
    lines: (&str, &str),
) -> Result<bool, Fail> {
    let alloc = rt.alloc();
    let text = work(alloc, rules, packets)?;
    let (first, second) = lines;
    let expected = format!(in alloc; "1 {first}\n2 {second}\n")?;
    prints(rt, command, text.as_str(), Status::Ok, expected.as_str())
}

/// Work on two packets on the way up, by an edition of the rules.
fn work(alloc: Global, rules: &str, packets: (&str, &str)) -> Result<String, Fail> {
    let edition = edition(alloc, 1, rules)?;
    let (first, second) = packets;
    Ok(format!(in alloc;
        "{{\"editions\":[{edition}],\"dev-iid\":\"0000000000000001\",\"app-iid\":\"0000000000000002\",\"direction\":\"di-up\",\"packets\":[\"{first}\",\"{second}\"]}}"
    )?)
}

/// Rule 6, which drops the flow label, and rule 7, which drops the prefix of the application.
fn dropping_rules(alloc: Global) -> Result<String, Fail> {
    let flow: Row = ("fid-ipv6-flowlabel", "20", Says::Dropped("00000"));
    let prefix: Row = (
        "fid-ipv6-appprefix",
        "64",
        Says::Dropped("20010db800000001"),
    );
    let six = rule(
        alloc,
        6,
        true,
        headers(flow, PREFIX, PORT, CHECKSUM).as_slice(),
    )?;
    let seven = rule(
        alloc,
        7,
        true,
        headers(FLOW, prefix, PORT, CHECKSUM).as_slice(),
    )?;
    Ok(format!(in alloc; "{six},{seven}")?)
}

/// Rule 33, which sends the index of the application's port, and rule 32, which sends the path of a CoAP message.
fn sending_rules(alloc: Global) -> Result<String, Fail> {
    let port: Row = ("fid-udp-app-port", "16", Says::OneOfFive);
    let path: Row = ("fid-coap-option-uri-path", "\"fl-variable\"", Says::Sent);
    let id: Row = ("fid-coap-mid", "16", Says::Known("0100"));
    let index = rule(
        alloc,
        33,
        true,
        headers(FLOW, PREFIX, port, CHECKSUM).as_slice(),
    )?;
    let sent = rule(alloc, 32, true, sensor_rows(alloc, id, path)?.as_slice())?;
    Ok(format!(in alloc; "{sent},{index}")?)
}

#[test]
fn packets_are_written(rt: HostRuntime) -> Result<(), Fail> {
    let alloc = rt.alloc();
    let rule_5 = rule_5(alloc, true)?;
    let dropping = dropping_rules(alloc)?;
    let whole = format!(in alloc; "rule 22 bits 408 16{WRONG_CHECKSUM}")?;
    let lines = ("rule 5 bits 28 053cafe0", whole.as_str());
    assert!(rt;
        works(
            &rt,
            "pack",
            rule_5.as_str(),
            (PACKET, WRONG_CHECKSUM),
            lines
        )?
    );
    let lines = ("rule 6 bits 24 06cafe", "rule 7 bits 24 07cafe");
    assert!(rt;
        works(
            &rt,
            "pack",
            dropping.as_str(),
            (OTHER_FLOW, OTHER_PREFIX),
            lines
        )?
    );
    let lines = ("refused not-ipv6", "refused not-ipv6");
    assert!(rt; works(&rt, "pack", "", ("60", ""), lines)?);
    Ok(())
}

#[test]
fn packets_are_read(rt: HostRuntime) -> Result<(), Fail> {
    let alloc = rt.alloc();
    let dropping = dropping_rules(alloc)?;
    let six = format!(in alloc; "rule 6 {PACKET}")?;
    let seven = format!(in alloc; "rule 7 {PACKET}")?;
    let lines = (six.as_str(), seven.as_str());
    assert!(rt;
        works(
            &rt,
            "unpack",
            dropping.as_str(),
            ("06cafe", "07cafe"),
            lines
        )?
    );
    let rule_5 = rule_5(alloc, true)?;
    let five = format!(in alloc; "rule 5 {PACKET}")?;
    let lines = (five.as_str(), "refused unknown-rule 6");
    assert!(rt;
        works(
            &rt,
            "unpack",
            rule_5.as_str(),
            ("053cafe0", "06cafe"),
            lines
        )?
    );
    Ok(())
}

#[test]
fn residues_that_are_none(rt: HostRuntime) -> Result<(), Fail> {
    let alloc = rt.alloc();
    let sending = sending_rules(alloc)?;
    let packets = ("20f0561626364650", "21c0");
    let lines = (
        "refused bad-residue 20 size",
        "refused bad-residue 12 index",
    );
    assert!(rt; works(&rt, "unpack", sending.as_str(), packets, lines)?);
    let path =
        "rule 32 600000000012114020010db800000000000000000000000120010db8000000010000000000000002f0b116330012d04250020100b56162636465";
    let lines = (path, "refused unknown-rule 96");
    assert!(rt;
        works(
            &rt,
            "unpack",
            sending.as_str(),
            ("20561626364650", "60"),
            lines
        )?
    );
    Ok(())
}

#[test]
fn work_with_a_finding(rt: HostRuntime) -> Result<(), Fail> {
    let alloc = rt.alloc();
    let bad = refused_rule(alloc)?;
    let text = work(alloc, bad.as_str(), ("05", "05"))?;
    for command in ["pack", "unpack"] {
        assert!(rt;
            prints(
                &rt,
                command,
                text.as_str(),
                Status::Refused(NOT_DROPPABLE),
                ""
            )?
        );
        assert!(rt; prints(&rt, command, "{}", Status::BadInput(0), "")?);
    }
    Ok(())
}
