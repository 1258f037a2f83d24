//! Bytes, findings and causes as they are printed.
use super::*;
use std::alloc::Global;
use std::test::Fail;

fn bytes_say(alloc: Global, bytes: &[u8], expected: &str) -> Result<bool, Fail> {
    let mut text = String::new(alloc);
    push_bytes(&mut text, bytes)?;
    Ok(text.as_str() == expected)
}

fn unread_says(alloc: Global, fault: UnpackFault, expected: &str) -> Result<bool, Fail> {
    if fault == UnpackFault::Memory {
        return Ok(false);
    }
    let mut text = String::new(alloc);
    push_unread(&mut text, fault)?;
    Ok(text.as_str() == expected)
}

/// A field that bits can't be read as.
fn bad_packet(name: FieldName, position: u16) -> UnpackFault {
    UnpackFault::BadPacket(FieldAt { name, position })
}

#[test]
fn bytes_as_hex(rt: HostRuntime) -> Result<(), Fail> {
    assert!(rt; bytes_say(rt.alloc(), b"", "-")?);
    assert!(rt; bytes_say(rt.alloc(), b"\x0a\xff", "0aff")?);
    Ok(())
}

#[test]
fn findings(rt: HostRuntime) -> Result<(), Fail> {
    let finding = Finding {
        number: 11,
        id: 5,
        entry: 14,
    };
    let mut text = String::from_str(rt.alloc(), "1 ")?;
    push_finding(&mut text, finding)?;
    assert_eq!(rt; text.as_str(), "1 refused 11 not-droppable rule 5 entry 14");
    Ok(())
}

#[test]
fn causes(rt: HostRuntime) -> Result<(), Fail> {
    let cases = [
        (UnpackFault::UnknownRule(5), "unknown-rule 5"),
        (
            UnpackFault::BadResidue(12, ResidueFault::IndexTooLarge),
            "bad-residue 12 index",
        ),
        (
            bad_packet(FieldName::CoapToken, 1),
            "bad-packet fid-coap-token 1",
        ),
        (
            bad_packet(FieldName::CoapOption(65000), 2),
            "bad-packet fid-coap-option-65000 2",
        ),
    ];
    for (fault, expected) in cases {
        assert!(rt; unread_says(rt.alloc(), fault, expected)?);
    }
    Ok(())
}
