//! What no clause says: that calls succeed, and worked messages.

use crate::{JoinFault, SplitFault, join, split};
use rule_model::{FieldValue, Fields};
use schc_bits::Bits;
use schc_ids::{FieldAt, FieldName};
use std::alloc::{AllocError, Global};

/// A message a line in hexadecimal, how many zero bytes follow it, and its fields in packet order
/// with the byte at which the payload begins; or the byte at which it stops to be a message.
const ROWS: &str = "
50020100 0 v1 t1 k0 c02 m0100 @4
40450001ff00 0 v1 t0 k0 c45 m0001 @5
50020100b174ff32312e35 0 v1 t1 k0 c02 m0100 o11.1=74 @7
50020100b1610162 0 v1 t1 k0 c02 m0100 o11.1=61 o11.2=62 @8
50020100b16141620163 0 v1 t1 k0 c02 m0100 o11.1=61 o15.1=62 o15.2=63 @10
50020100d0ff 0 v1 t1 k0 c02 m0100 o268.1= @6
50020100e00000 0 v1 t1 k0 c02 m0100 o269.1= @7
50020100c0 0 v1 t1 k0 c02 m0100 o12.1= @5
50020100d000 0 v1 t1 k0 c02 m0100 o13.1= @6
50020100e0fef2 0 v1 t1 k0 c02 m0100 o65535.1= @7
5002010000 0 v1 t1 k0 c02 m0100 o0.1= @5
580201000102030405060708 0 v1 t1 k8 c02 m0100 T0102030405060708 @12
7145beefaa1d00000102030405060708090a0b0cff01 0 v1 t3 k1 c45 mbeef Taa o1.1=000102030405060708090a0b0c @21
59020100010203040506070809 0 not-coap 0
90020100 0 not-coap 0
00 0 not-coap 0
 0 not-coap 0
50 0 not-coap 1
500201 0 not-coap 3
51020100 0 not-coap 4
50020100ff 0 not-coap 5
50020100b0ff 0 not-coap 6
50020100f0 0 not-coap 4
50020100b07f 0 not-coap 5
50020100b0f700 0 not-coap 5
50020100d0 0 not-coap 5
50020100e000 0 not-coap 6
50020100b261 0 not-coap 6
50020100e0fef3 0 not-coap 4
50020100e1ffff 0 not-coap 4
50020100e0fef210 0 not-coap 7
500201001e0000 268 not-coap 275
50020100b0 65535 not-coap 65539
";

fn digit(character: u8) -> u8 {
    match character {
        b'0'..=b'9' => character - b'0',
        b'a'..=b'f' => character - b'a' + 10,
        _ => 0,
    }
}

fn message_of(alloc: Global, hex: &[u8], zeros: u32) -> Result<Vec<u8>, AllocError> {
    let mut message = Vec::new(alloc);
    for byte in hex.chunks(2) {
        if let [high, low] = byte {
            message.push((digit(*high) << 4) | digit(*low))?;
        }
    }
    for _ in 0..zeros {
        message.push(0)?;
    }
    Ok(message)
}

fn push_digit(text: &mut String, number: u8) -> Result<(), AllocError> {
    let digits = b"0123456789abcdef";
    text.push(char::from(digits[usize::from(number % 16)]))
}

/// The bits as hexadecimal digits, two bits alone as one digit.
fn push_bits(text: &mut String, bits: &Bits) -> Result<(), AllocError> {
    let mut number = 0u8;
    for i in 0..bits.len() {
        number = (number % 8) * 2 + u8::from(bits.bit(i));
        if i % 4 == 3 {
            push_digit(text, number)?;
            number = 0;
        }
    }
    if bits.len() == 2 {
        push_digit(text, number)?;
    }
    Ok(())
}

fn push_name(alloc: Global, text: &mut String, at: FieldAt) -> Result<(), AllocError> {
    match at.name {
        FieldName::CoapVersion => text.push_str("v"),
        FieldName::CoapType => text.push_str("t"),
        FieldName::CoapTkl => text.push_str("k"),
        FieldName::CoapCode => text.push_str("c"),
        FieldName::CoapMid => text.push_str("m"),
        FieldName::CoapToken => text.push_str("T"),
        FieldName::CoapOption(number) => {
            let position = at.position;
            let name = format!(in alloc; "o{number}.{position}=")?;
            text.push_str(&name)
        }
        _ => text.push_str("?"),
    }
}

fn push_fields(alloc: Global, text: &mut String, fields: &Fields) -> Result<(), AllocError> {
    for field in fields.as_slice() {
        push_name(alloc, text, field.at)?;
        push_bits(text, &field.value)?;
        text.push_str(" ")?;
    }
    Ok(())
}

/// What splitting gives, as text; and whether joining gives the message again.
fn is_split(alloc: Global, message: &[u8], wanted: &str) -> Result<bool, AllocError> {
    match split(alloc, message) {
        Err(SplitFault::NotCoap(place)) => {
            let text = format!(in alloc; "not-coap {place}")?;
            Ok(text.as_str() == wanted)
        }
        Err(_) => Ok(false),
        Ok(parts) => {
            let mut text = String::new(alloc);
            push_fields(alloc, &mut text, &parts.fields)?;
            let from = parts.payload_from;
            let place = format!(in alloc; "@{from}")?;
            text.push_str(&place)?;
            let payload = message.get(from..).unwrap_or_default();
            let again = join(alloc, &parts.fields, payload);
            Ok(text.as_str() == wanted && again.is_ok_and(|joined| joined.as_slice() == message))
        }
    }
}

fn is_row(alloc: Global, row: &str) -> Result<bool, AllocError> {
    let Some((hex, row)) = row.split_once(' ') else {
        return Ok(false);
    };
    let Some((zeros, wanted)) = row.split_once(' ') else {
        return Ok(false);
    };
    let message = message_of(alloc, hex.as_bytes(), zeros.parse().unwrap_or(0))?;
    is_split(alloc, &message, wanted)
}

#[test]
fn messages_split_and_join(rt: HostRuntime) -> Result<(), AllocError> {
    for row in ROWS.lines() {
        if !row.is_empty() {
            assert!(rt; is_row(rt.alloc(), row)?, "{row}");
        }
    }
    Ok(())
}

/// Why the first fields of a message with these after them, each with so many zero bits, make none.
fn fault_of(
    alloc: Global,
    hex: &[u8],
    keep: usize,
    more: &[(FieldName, u16, u32)],
) -> Result<Option<JoinFault>, AllocError> {
    let message = message_of(alloc, hex, 0)?;
    let Ok(mut parts) = split(alloc, &message) else {
        return Ok(None);
    };
    parts.fields.truncate(keep);
    for (name, position, width) in more {
        let mut value = Bits::new(alloc);
        for _ in 0..*width {
            value.push(false)?;
        }
        parts.fields.push(FieldValue {
            at: FieldAt {
                name: *name,
                position: *position,
            },
            value,
        })?;
    }
    Ok(join(alloc, &parts.fields, b"").err())
}

fn absent(name: FieldName, position: u16) -> Option<JoinFault> {
    Some(JoinFault::FieldAbsent(FieldAt { name, position }))
}

fn wrong(name: FieldName, position: u16) -> Option<JoinFault> {
    Some(JoinFault::FieldWrong(FieldAt { name, position }))
}

#[test]
fn the_first_fault_is_named(rt: HostRuntime) -> Result<(), AllocError> {
    let alloc = rt.alloc();
    let plain = b"50020100".as_slice();
    let path = FieldName::CoapOption(11);
    let etag = FieldName::CoapOption(4);
    let token = FieldName::CoapToken;
    assert!(rt; fault_of(alloc, plain, 5, &[(path, 1, 8), (path, 2, 0)])?.is_none());
    assert!(rt; fault_of(alloc, plain, 4, &[])? == absent(FieldName::CoapMid, 1));
    assert!(rt;
        fault_of(alloc, plain, 4, &[(FieldName::CoapMid, 1, 15)])? == wrong(FieldName::CoapMid, 1)
    );
    assert!(rt; fault_of(alloc, plain, 5, &[(path, 1, 8), (etag, 1, 8)])? == wrong(etag, 1));
    assert!(rt; fault_of(alloc, plain, 5, &[(path, 2, 8), (path, 1, 8)])? == wrong(path, 1));
    assert!(rt; fault_of(alloc, plain, 5, &[(path, 1, 8), (path, 1, 8)])? == wrong(path, 1));
    assert!(rt; fault_of(alloc, plain, 5, &[(path, 0, 8)])? == wrong(path, 0));
    assert!(rt; fault_of(alloc, plain, 5, &[(path, 1, 7)])? == wrong(path, 1));
    assert!(rt;
        fault_of(alloc, plain, 5, &[(FieldName::IpVersion, 1, 4)])?
            == wrong(FieldName::IpVersion, 1)
    );
    assert!(rt; fault_of(alloc, plain, 5, &[(token, 1, 0)])? == wrong(token, 1));
    assert!(rt; fault_of(alloc, b"51020100aa".as_slice(), 5, &[])? == absent(token, 1));
    assert!(rt;
        fault_of(alloc, b"51020100aa".as_slice(), 5, &[(token, 1, 16)])? == wrong(token, 1)
    );
    assert!(rt;
        fault_of(alloc, plain, 5, &[(etag, 1, 0), (path, 1, 8), (path, 3, 8)])? == absent(path, 2)
    );
    Ok(())
}
