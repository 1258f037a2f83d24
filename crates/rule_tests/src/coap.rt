//! Packets with CoAP, written and read row by row (RFC 8824).

use crate::packing::{Row, as_wanted, packed};
use crate::unpacking::{Read, SchcPacket, read_with};
use rule_drafts::{
    BARE, Coap, DraftFault, Given, LONG_PATH, NO_MESSAGE, NO_MESSAGE_WHOLE, OTHER_ID, Sample,
    TEMPERATURE, WITH_TOKEN,
};
use schc_ids::{DirInd, FieldAt, FieldName, ResidueFault, UnpackFault};
use std::alloc::Global;
use std::test::Fail;

const LOW_ID: Given = Given {
    id: 30,
    sample: Sample::Coap(Coap::LowId),
    direction: DirInd::Both,
    live: true,
};

const ID_SENT: Given = Given {
    id: 31,
    sample: Sample::Coap(Coap::IdSent),
    ..LOW_ID
};

const PATH_SENT: Given = Given {
    id: 32,
    sample: Sample::Coap(Coap::PathSent),
    ..LOW_ID
};

const BACKWARDS: Given = Given {
    id: 33,
    sample: Sample::Coap(Coap::Backwards),
    ..LOW_ID
};

const BARE_RULE: Given = Given {
    id: 34,
    sample: Sample::Coap(Coap::Bare),
    ..LOW_ID
};

/// A rule for UDP to the port of CoAP.
const UDP: Given = Given {
    id: 35,
    sample: Sample::CoapPort,
    ..LOW_ID
};

const TOKEN: Given = Given {
    id: 36,
    sample: Sample::Coap(Coap::Token),
    ..LOW_ID
};

const TOKEN_LENGTH: Given = Given {
    id: 37,
    sample: Sample::Coap(Coap::TokenLengthSent),
    ..LOW_ID
};

const GAP: Given = Given {
    id: 38,
    sample: Sample::Coap(Coap::Gap),
    ..LOW_ID
};

const GAP_VERSION: Given = Given {
    id: 39,
    sample: Sample::Coap(Coap::GapAndVersion),
    ..LOW_ID
};

const GAP_LENGTH: Given = Given {
    id: 40,
    sample: Sample::Coap(Coap::GapAndLength),
    ..LOW_ID
};

/// Packets that are written as these bits, and these are read as them, whatever stands in up to
/// seven bits behind them.
const BOTH_WAYS: [Row; 9] = [
    Row(&[LOW_ID], TEMPERATURE, 30, 48, b"1e0032312e35"),
    Row(&[LOW_ID], OTHER_ID, 30, 48, b"1e0c32312e35"),
    Row(&[ID_SENT], OTHER_ID, 31, 56, b"1f010c32312e35"),
    Row(&[PATH_SENT], LONG_PATH, 32, 52, b"20561626364650"),
    Row(&[BACKWARDS], TEMPERATURE, 33, 48, b"210032312e35"),
    Row(&[BARE_RULE], BARE, 34, 8, b"22"),
    Row(&[UDP], NO_MESSAGE, 35, 48, b"2350020100ff"),
    Row(&[TOKEN], WITH_TOKEN, 36, 56, b"24abcd32312e35"),
    Row(&[TOKEN_LENGTH], TEMPERATURE, 37, 44, b"25032312e350"),
];

/// The rule that gives fewer bits, the one that matches what is no message, and none.
const ONE_WAY: [Row; 3] = [
    Row(&[ID_SENT, LOW_ID], OTHER_ID, 30, 48, b"1e0c32312e35"),
    Row(&[BARE_RULE, UDP], NO_MESSAGE, 35, 48, b"2350020100ff"),
    Row(&[BARE_RULE], NO_MESSAGE, 22, 432, NO_MESSAGE_WHOLE),
];

fn unpacked(alloc: Global, row: &Row, ones: usize) -> Result<Read, DraftFault> {
    let Row(rules, packet, _, count, digits) = *row;
    let schc_packet = SchcPacket {
        digits,
        count,
        ones,
    };
    read_with(alloc, rules, schc_packet, packet)
}

#[test]
fn as_what_messages_are_written(rt: HostRuntime) -> Result<(), Fail> {
    let tables: [&[Row]; 2] = [&BOTH_WAYS, &ONE_WAY];
    for rows in tables {
        for row in rows {
            assert_eq!(rt; packed(rt.alloc(), row)?, as_wanted(row.2, row.3));
        }
    }
    Ok(())
}

#[test]
fn messages_are_read_back(rt: HostRuntime) -> Result<(), Fail> {
    for row in &BOTH_WAYS {
        for ones in [0, 7] {
            assert_eq!(rt; unpacked(rt.alloc(), row, ones)?, Ok((row.2, true)));
        }
    }
    Ok(())
}

/// A rule, whole bytes, and as what these are read.
#[derive(Clone, Copy)]
struct Bytes(Given, &'static [u8], Read);

const TOKEN_FIELD: FieldAt = FieldAt {
    name: FieldName::CoapToken,
    position: 1,
};

const TKL_FIELD: FieldAt = FieldAt {
    name: FieldName::CoapTkl,
    position: 1,
};

const VERSION_FIELD: FieldAt = FieldAt {
    name: FieldName::IpVersion,
    position: 1,
};

/// The second part of the path (Uri-Path, RFC 7252 section 5.10).
const SECOND_PART: FieldAt = FieldAt {
    name: FieldName::CoapOption(11),
    position: 2,
};

const LONG_SIZE: Read = Err(UnpackFault::BadResidue(20, ResidueFault::NonMinimalSize));

/// A size in four bits, and the same in a longer form; a token length that isn't the token's, and
/// one that is reserved.
const BYTES: [Bytes; 4] = [
    Bytes(PATH_SENT, b"20561626364650", Ok((32, true))),
    Bytes(PATH_SENT, b"20f0561626364650", LONG_SIZE),
    Bytes(
        TOKEN_LENGTH,
        b"25232312e350",
        Err(UnpackFault::BadPacket(TOKEN_FIELD)),
    ),
    Bytes(
        TOKEN_LENGTH,
        b"25932312e350",
        Err(UnpackFault::BadPacket(TKL_FIELD)),
    ),
];

/// A part of the path that lacks: the version is looked at before the message, and the lengths
/// after it.
const LACKING: [Bytes; 4] = [
    Bytes(GAP, b"26", Err(UnpackFault::BadPacket(SECOND_PART))),
    Bytes(
        GAP_VERSION,
        b"2760",
        Err(UnpackFault::BadPacket(SECOND_PART)),
    ),
    Bytes(
        GAP_VERSION,
        b"2750",
        Err(UnpackFault::BadPacket(VERSION_FIELD)),
    ),
    Bytes(
        GAP_LENGTH,
        b"280000",
        Err(UnpackFault::BadPacket(SECOND_PART)),
    ),
];

fn read_bytes(alloc: Global, row: &Bytes) -> Result<Read, DraftFault> {
    let Bytes(rule, digits, _) = *row;
    let schc_packet = SchcPacket {
        digits,
        count: digits.len().saturating_mul(4),
        ones: 0,
    };
    read_with(alloc, &[rule], schc_packet, LONG_PATH)
}

#[test]
fn as_what_bytes_are_read(rt: HostRuntime) -> Result<(), Fail> {
    let tables: [&[Bytes]; 2] = [&BYTES, &LACKING];
    for rows in tables {
        for row in rows {
            assert_eq!(rt; read_bytes(rt.alloc(), row)?, row.2);
        }
    }
    Ok(())
}
