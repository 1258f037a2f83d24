//! A sensor's day: twenty-four readings as CoAP messages (RFC 7252), by one rule before noon and by another one after.

use crate::rules::{CHECKSUM, FLOW, PREFIX, Row, Says, edition, headers, rule};
use crate::runs::prints;
use gw_top::Status;
use std::alloc::Global;
use std::test::Fail;

/// The entries of the sensor's messages: the message ID and the path are as told, and there is no token.
pub fn sensor_rows(alloc: Global, id: Row, path: Row) -> Result<Vec<Row>, Fail> {
    let port = ("fid-udp-app-port", "16", Says::Known("1633"));
    let message: [Row; 6] = [
        ("fid-coap-version", "2", Says::Known("1")),
        ("fid-coap-type", "2", Says::Known("1")),
        ("fid-coap-tkl", "4", Says::Known("0")),
        ("fid-coap-code", "8", Says::Known("02")),
        id,
        path,
    ];
    let mut rows = Vec::new(alloc);
    rows.extend_from_slice(headers(FLOW, PREFIX, port, CHECKSUM).as_slice())?;
    rows.extend_from_slice(message.as_slice())?;
    Ok(rows)
}

/// A rule for readings on the path `t`, which says this of the message ID.
fn reading_rule(alloc: Global, id: u16, live: bool, says: Says) -> Result<String, Fail> {
    let path = (
        "fid-coap-option-uri-path",
        "\"fl-variable\"",
        Says::Known("74"),
    );
    let rows = sensor_rows(alloc, ("fid-coap-mid", "16", says), path)?;
    rule(alloc, id, live, rows.as_slice())
}

/// The packet of the reading of this hour, from 0. The checksum is less by one than that of the hour before.
fn reading(alloc: Global, hour: u16) -> Result<String, Fail> {
    let checksum = 0x3595 - hour.min(23);
    Ok(format!(in alloc;
        "600000000013114020010db800000000000000000000000120010db8000000010000000000000002f0b116330013{checksum:04x}500201{hour:02x}b174ff32312e35"
    )?)
}

/// Writes what is published before the reading of this hour, and how both ends take it.
fn push_rules(text: &mut String, hour: u16) -> Result<(), Fail> {
    let alloc = *text.allocator();
    let low = Says::FirstBits("0100", 8);
    if hour == 0 {
        let rules = reading_rule(alloc, 30, true, low)?;
        push_edition(text, 1, rules.as_str())?;
    }
    if hour == 12 {
        let retired = reading_rule(alloc, 30, false, low)?;
        let sent = reading_rule(alloc, 31, true, Says::Sent)?;
        let rules = format!(in alloc; "{retired},{sent}")?;
        push_edition(text, 2, rules.as_str())?;
    }
    Ok(())
}

fn push_edition(text: &mut String, number: u32, rules: &str) -> Result<(), Fail> {
    let edition = edition(*text.allocator(), number, rules)?;
    write!(
        text,
        "publish {edition}\noffer 7 dev {number}\noffer 7 gw {number}\nallow 7 dev {number}\n"
    )?;
    Ok(())
}

/// The script. The fifth frame is delivered twice.
fn script(alloc: Global) -> Result<String, Fail> {
    let mut text = String::from_str(alloc, "device 7 0000000000000001 0000000000000002\n")?;
    for hour in 0..24u16 {
        push_rules(&mut text, hour)?;
        let reading = reading(alloc, hour)?;
        let number = hour + 1;
        write!(
            &mut text,
            "hand 7 dev {reading}\nslot 7 dev\ndeliver 7 up {number}\n"
        )?;
        if number == 5 {
            text.push_str("deliver 7 up 5\n")?;
        }
    }
    Ok(text)
}

/// The lines of a run, and the place of the next one.
#[derive(Drop)]
struct Lines {
    text: String,
    place: u16,
}

/// Writes a line with the next place.
fn push_line(lines: &mut Lines, said: &str) -> Result<(), Fail> {
    let place = lines.place;
    write!(&mut lines.text, "{place} {said}\n")?;
    lines.place = place.saturating_add(1);
    Ok(())
}

/// Writes what is said of an edition that both ends take.
fn push_taken(lines: &mut Lines, number: u32) -> Result<(), Fail> {
    let alloc = *lines.text.allocator();
    push_line(lines, format!(in alloc; "publish ok {number}")?.as_str())?;
    push_line(
        lines,
        format!(in alloc; "offer 7 dev {number} adopted")?.as_str(),
    )?;
    push_line(
        lines,
        format!(in alloc; "offer 7 gw {number} adopted")?.as_str(),
    )?;
    push_line(
        lines,
        format!(in alloc; "allow 7 dev {number} yes")?.as_str(),
    )
}

/// Writes what is said of the reading of this hour: it goes as five bytes before noon, and as six after.
fn push_reading(lines: &mut Lines, hour: u16) -> Result<(), Fail> {
    let alloc = *lines.text.allocator();
    let reading = reading(alloc, hour)?;
    let number = hour.saturating_add(1);
    let (edition, rule, bits, first) = if hour < 12 {
        (1, 30, 48, "")
    } else {
        (2, 31, 56, "01")
    };
    let handed = format!(in alloc; "hand 7 dev ok edition {edition} rule {rule} bits {bits}")?;
    let sent = format!(in alloc;
        "slot 7 dev frame {number} port {rule} {first}{hour:02x}32312e35 whole"
    )?;
    let up = format!(in alloc; "deliver 7 up {number} small up {rule} {reading}")?;
    push_line(lines, handed.as_str())?;
    push_line(lines, sent.as_str())?;
    push_line(lines, up.as_str())?;
    if number == 5 {
        push_line(lines, up.as_str())?;
    }
    Ok(())
}

/// What is printed for the script: each reading is handed up as it was handed down, twenty-five in all.
fn said(alloc: Global) -> Result<String, Fail> {
    let mut lines = Lines {
        text: String::new(alloc),
        place: 1,
    };
    push_taken(&mut lines, 1)?;
    for hour in 0..24u16 {
        if hour == 12 {
            push_taken(&mut lines, 2)?;
        }
        push_reading(&mut lines, hour)?;
    }
    Ok(lines.text)
}

#[test]
fn sensors_day(rt: HostRuntime) -> Result<(), Fail> {
    let script = script(rt.alloc())?;
    let said = said(rt.alloc())?;
    assert!(rt; prints(&rt, "sim", script.as_str(), Status::Ok, said.as_str())?);
    Ok(())
}
