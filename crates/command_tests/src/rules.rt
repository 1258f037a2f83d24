//! Rules and files of rules as texts.

use std::alloc::Global;
use std::test::Fail;

/// A UDP datagram with two bytes of data, from the device (RFC 8200, RFC 768).
pub const PACKET: &str =
    "60000000000a114020010db800000000000000000000000120010db8000000010000000000000002f0b1f0b3000af7ffcafe";

/// What a rule says of a field.
#[derive(Clone, Copy)]
pub enum Says {
    /// It is this, and isn't sent.
    Known(&'static str),
    /// Whatever it is, it is restored as this.
    Dropped(&'static str),
    /// Its first bits, so many, are those of this, and the others are sent.
    FirstBits(&'static str, u16),
    /// It is one of five, of which the index is sent.
    OneOfFive,
    /// It is sent.
    Sent,
    /// It is restored by what the word says.
    Remade(&'static str),
}

/// An entry of a rule: the field, its length as rule text has it, and what is said of it.
pub type Row = (&'static str, &'static str, Says);

fn push_said(text: &mut String, says: Says) -> Result<(), Fail> {
    match says {
        Says::Known(value) => write!(
            text,
            "\"target-value\":[\"{value}\"],\"matching-operator\":\"mo-equal\",\"comp-decomp-action\":\"cda-not-sent\""
        )?,
        Says::Dropped(value) => write!(
            text,
            "\"target-value\":[\"{value}\"],\"matching-operator\":\"mo-ignore\",\"comp-decomp-action\":\"cda-not-sent\""
        )?,
        Says::FirstBits(value, bits) => write!(
            text,
            "\"target-value\":[\"{value}\"],\"matching-operator\":\"mo-msb\",\"matching-operator-value\":{bits},\"comp-decomp-action\":\"cda-lsb\""
        )?,
        Says::OneOfFive => text.push_str(
            "\"target-value\":[\"f0b0\",\"f0b1\",\"f0b2\",\"f0b3\",\"f0b4\"],\"matching-operator\":\"mo-match-mapping\",\"comp-decomp-action\":\"cda-mapping-sent\"",
        )?,
        Says::Sent => text.push_str(
            "\"matching-operator\":\"mo-ignore\",\"comp-decomp-action\":\"cda-value-sent\"",
        )?,
        Says::Remade(action) => write!(
            text,
            "\"matching-operator\":\"mo-ignore\",\"comp-decomp-action\":\"{action}\""
        )?,
    }
    Ok(())
}

fn push_row(text: &mut String, row: Row) -> Result<(), Fail> {
    let (name, length, says) = row;
    write!(
        text,
        "{{\"field-id\":\"{name}\",\"field-length\":{length},\"field-position\":1,\"direction-indicator\":\"di-bidirectional\","
    )?;
    push_said(text, says)?;
    text.push_str("}")?;
    Ok(())
}

/// Writes the entries, with commas between them.
fn push_rows(text: &mut String, rows: &[Row]) -> Result<(), Fail> {
    let mut between = "";
    for row in rows {
        text.push_str(between)?;
        push_row(text, *row)?;
        between = ",";
    }
    Ok(())
}

/// The text of a rule.
pub fn rule(alloc: Global, id: u16, live: bool, rows: &[Row]) -> Result<String, Fail> {
    let mut text = format!(in alloc; "{{\"rule-id-value\":{id},\"live\":{live},\"entry\":[")?;
    push_rows(&mut text, rows)?;
    text.push_str("]}")?;
    Ok(text)
}

/// The port of the application, the last four bits of which are sent.
pub const PORT_RANGE: Row = ("fid-udp-app-port", "16", Says::FirstBits("f0b0", 12));
/// The same port, known.
pub const PORT: Row = ("fid-udp-app-port", "16", Says::Known("f0b3"));

pub const FLOW: Row = ("fid-ipv6-flowlabel", "20", Says::Known("00000"));

pub const PREFIX: Row = ("fid-ipv6-appprefix", "64", Says::Known("20010db800000001"));

pub const CHECKSUM: Row = ("fid-udp-checksum", "16", Says::Remade("cda-compute"));

/// The entries of a sensor's headers, with these for the fields that tests vary.
pub fn headers(flow: Row, prefix: Row, port: Row, checksum: Row) -> [Row; 14] {
    [
        ("fid-ipv6-version", "4", Says::Known("6")),
        ("fid-ipv6-trafficclass", "8", Says::Known("00")),
        flow,
        ("fid-ipv6-payload-length", "16", Says::Remade("cda-compute")),
        ("fid-ipv6-nextheader", "8", Says::Known("11")),
        ("fid-ipv6-hoplimit", "8", Says::Known("40")),
        ("fid-ipv6-devprefix", "64", Says::Known("20010DB800000000")),
        ("fid-ipv6-deviid", "64", Says::Remade("cda-deviid")),
        prefix,
        ("fid-ipv6-appiid", "64", Says::Known("0000000000000002")),
        ("fid-udp-dev-port", "16", Says::Known("f0b1")),
        port,
        ("fid-udp-length", "16", Says::Remade("cda-compute")),
        checksum,
    ]
}

/// Rule 5, whose residue is the last bits of the application's port.
pub fn rule_5(alloc: Global, live: bool) -> Result<String, Fail> {
    rule(
        alloc,
        5,
        live,
        headers(FLOW, PREFIX, PORT_RANGE, CHECKSUM).as_slice(),
    )
}

/// The same with a checksum that is dropped, which no edition may have.
pub fn refused_rule(alloc: Global) -> Result<String, Fail> {
    let checksum = ("fid-udp-checksum", "16", Says::Dropped("0000"));
    rule(
        alloc,
        5,
        true,
        headers(FLOW, PREFIX, PORT_RANGE, checksum).as_slice(),
    )
}

/// The text of an edition.
pub fn edition(alloc: Global, number: u32, rules: &str) -> Result<String, Fail> {
    Ok(format!(in alloc; "{{\"number\":{number},\"rules\":[{rules}]}}")?)
}
