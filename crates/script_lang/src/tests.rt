//! Scripts that are read and written, and the first line of others that is outside the grammar or
//! past a limit.
use super::*;
use schc_bits::Octets;
use schc_ids::{EndParams, Iids, LastTile, TimerTicks};
use std::test::Fail;

const DEVICE: &str = "device 7 0000000000000001 0000000000000002";

/// How many devices and events a text has, or its first bad line.
fn counts(rt: &HostRuntime, text: &[u8]) -> Result<(usize, usize), ScriptFault> {
    let script = parse(rt.alloc(), text)?;
    Ok((script.devices().len(), script.events().len()))
}

#[test]
fn scripts(rt: HostRuntime) -> Result<(), Fail> {
    assert_eq!(rt; counts(&rt, b""), Ok((0, 0)));
    assert_eq!(rt; counts(&rt, b"\n#\xff\n"), Ok((0, 0)));
    let text = format!(in rt.alloc();
        "{DEVICE} mtu 15
hand 7 dev 0aFF
slot 7 gw
deliver 7 up 18446744073709551615
offer 7 gw 0
allow 7 dev 4294967295
tick 7 dev
tick 7 gw
tick 7 both
abort 7 dev"
    )?;
    assert_eq!(rt; counts(&rt, text.as_bytes()), Ok((1, 9)));
    Ok(())
}

#[test]
fn first_bad_lines(rt: HostRuntime) -> Result<(), Fail> {
    assert_eq!(rt; counts(&rt, b" #\n"), Err(ScriptFault::BadLine(1)));
    assert_eq!(rt;
        counts(&rt, b"\nslot 7 dev\nx"),
        Err(ScriptFault::BadLine(2))
    );
    let two = format!(in rt.alloc(); "{DEVICE}\n\n{DEVICE}\n")?;
    assert_eq!(rt; counts(&rt, two.as_bytes()), Err(ScriptFault::BadLine(3)));
    for line in ["tick 7 up", "tick 7", "abort 7 both", "abort 7 dev 1"] {
        let text = format!(in rt.alloc(); "{DEVICE}\n{line}\n")?;
        assert_eq!(rt; counts(&rt, text.as_bytes()), Err(ScriptFault::BadLine(2)));
    }
    Ok(())
}

/// The text of a script with this many devices, one without events, and a line after them.
fn many_devices(rt: &HostRuntime, count: u32, last: &str) -> Result<String, Fail> {
    let mut text = String::new(rt.alloc());
    for number in 0..count {
        write!(text, "device {number} 0000000000000001 0000000000000002\n")?;
    }
    text.push_str(last)?;
    Ok(text)
}

#[test]
fn as_many_devices_as_may_be(rt: HostRuntime) -> Result<(), Fail> {
    let most = many_devices(&rt, 1024, "slot 1023 gw")?;
    assert_eq!(rt; counts(&rt, most.as_bytes()), Ok((1024, 1)));
    let more = many_devices(&rt, 1025, "x")?;
    let fault = Err(ScriptFault::TooMany(Counted::Devices, 1025));
    assert_eq!(rt; counts(&rt, more.as_bytes()), fault);
    let again = many_devices(&rt, 1024, "device 5 0000000000000001 0000000000000002")?;
    assert_eq!(rt;
        counts(&rt, again.as_bytes()),
        Err(ScriptFault::BadLine(1025))
    );
    Ok(())
}

/// Whether the script of a text declares this number.
fn declared(rt: &HostRuntime, text: &str, number: u16) -> Result<bool, ScriptFault> {
    let script = parse(rt.alloc(), text.as_bytes())?;
    Ok(script.is_declared(number))
}

#[test]
fn declared_numbers(rt: HostRuntime) -> Result<(), Fail> {
    let ends = "device 65535 0000000000000001 0000000000000002
device 0 0000000000000001 0000000000000002";
    let many = many_devices(&rt, 1024, "")?;
    let cases: [(&str, u16, bool); 10] = [
        ("", 0, false),
        ("", 65535, false),
        (ends, 0, true),
        (ends, 1, false),
        (ends, 65534, false),
        (ends, 65535, true),
        (many.as_str(), 0, true),
        (many.as_str(), 1023, true),
        (many.as_str(), 1024, false),
        (many.as_str(), 65535, false),
    ];
    for (text, number, expected) in cases {
        assert_eq!(rt; declared(&rt, text, number), Ok(expected));
    }
    Ok(())
}

/// Lines of a script, with what a script may leave out.
const LINES: [&str; 15] = [
    "# two devices",
    "device 7 00000000000000aB 0000000000000002 mtu 15",
    "",
    "hand 7 dev 0aFF",
    "device 8 0000000000000003 000000000000000F mode noack last regular timers 1 2 3 4",
    "slot 8 gw",
    "publish {\"rules\": [], \"number\": 1}",
    "tick 7 both",
    "tick 7 dev",
    "tick 8 gw",
    "abort 8 dev",
    "deliver 7 up 3",
    "deliver 7 down 0",
    "offer 7 gw 1",
    "allow 8 dev 4294967295",
];

/// The lines that are written for that script.
const WRITTEN: [&str; 13] = [
    "device 7 00000000000000ab 0000000000000002 mtu 15 mode acked last all1 timers 10 40 40 100",
    "device 8 0000000000000003 000000000000000f mtu 242 mode noack last regular timers 1 2 3 4",
    "hand 7 dev 0aff",
    "slot 8 gw",
    "publish {\"number\":1,\"rules\":[]}",
    "tick 7 both",
    "tick 7 dev",
    "tick 8 gw",
    "abort 8 dev",
    "deliver 7 up 3",
    "deliver 7 down 0",
    "offer 7 gw 1",
    "allow 8 dev 4294967295",
];

/// The text of these lines.
fn joined(rt: &HostRuntime, lines: &[&str]) -> Result<String, Fail> {
    let mut text = String::new(rt.alloc());
    for line in lines {
        text.push_str(line)?;
        text.push_str("\n")?;
    }
    Ok(text)
}

/// What is written for the script that a text is.
fn written(rt: &HostRuntime, text: &str) -> Result<Octets, ScriptFault> {
    let script = parse(rt.alloc(), text.as_bytes())?;
    Ok(write(rt.alloc(), &script)?)
}

#[test]
fn written_scripts(rt: HostRuntime) -> Result<(), Fail> {
    let text = joined(&rt, LINES.as_slice())?;
    let expected = joined(&rt, WRITTEN.as_slice())?;
    let same = match written(&rt, text.as_str()) {
        Ok(bytes) => bytes.as_slice() == expected.as_bytes(),
        Err(_) => false,
    };
    assert!(rt; same);
    Ok(())
}

/// The parameters of a device with these options, or none where the line is outside the grammar.
fn params(rt: &HostRuntime, options: &str) -> Result<Option<EndParams>, Fail> {
    let text = format!(in rt.alloc(); "{DEVICE}{options}")?;
    match parse(rt.alloc(), text.as_bytes()) {
        Ok(script) => Ok(script.devices().first().map(|device| device.params)),
        Err(_) => Ok(None),
    }
}

#[test]
fn device_options(rt: HostRuntime) -> Result<(), Fail> {
    let iids = Iids { dev: 1, app: 2 };
    let cases: [(&str, u16, bool, LastTile, (u32, u32, u32, u32)); 5] = [
        ("", 242, true, LastTile::InAll1, (10, 40, 40, 100)),
        (
            " mode noack",
            242,
            false,
            LastTile::InAll1,
            (10, 40, 40, 100),
        ),
        (
            " mtu 15 last regular",
            15,
            true,
            LastTile::InRegular,
            (10, 40, 40, 100),
        ),
        (
            " timers 1 2 3 1000000",
            242,
            true,
            LastTile::InAll1,
            (1, 2, 3, 1000000),
        ),
        (
            " mtu 242 mode acked last all1 timers 1000000 3 2 1",
            242,
            true,
            LastTile::InAll1,
            (1000000, 3, 2, 1),
        ),
    ];
    for (options, mtu, acked, last, (retransmission, inactivity, linger, quiet)) in cases {
        let ticks = TimerTicks {
            retransmission,
            inactivity,
            linger,
            quiet,
        };
        let expected = EndParams {
            iids,
            mtu,
            acked,
            last,
            ticks,
        };
        assert_eq!(rt; params(&rt, options)?, Some(expected));
    }
    let bad: [&str; 14] = [
        " ",
        " mtu",
        " mtu 14",
        " mtu 243",
        " mtu 015",
        " mtu 15 mtu 15",
        " mode acked mtu 15",
        " mode ack",
        " last all1 mode acked",
        " last x",
        " timers 1 2 3",
        " timers 1 2 3 4 5",
        " timers 0 2 3 4",
        " timers 1 2 3 1000001",
    ];
    for options in bad {
        assert_eq!(rt; params(&rt, options)?, None);
    }
    Ok(())
}
