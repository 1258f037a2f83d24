//! What example rules say of a CoAP message (RFC 8824).

use crate::draft::{Draft, by_first_bits, known, open};
use schc_ids::{DirInd, FieldName};
use std::alloc::{AllocError, Global};

/// The option of CoAP that has a part of the path (Uri-Path, RFC 7252 section 5.10).
const PATH: FieldName = FieldName::CoapOption(11);

/// What a rule says of the message ID, the token and the path. Version, type and code are known.
#[derive(Clone, Copy)]
pub enum Coap {
    /// The last eight bits of the message ID are sent, there is no token, and the path is `t`.
    LowId,
    /// The message ID is sent.
    IdSent,
    /// The message ID is known, and the path is sent.
    PathSent,
    /// The message ID is known, the path begins with `t`, and what follows is sent.
    PathRest,
    /// The message ID is known, and there is no path.
    Bare,
    /// The same as `LowId`, with the entries in the opposite order.
    Backwards,
    /// A token of two bytes is sent.
    Token,
    /// The length of a token is sent, and there is no token.
    TokenLengthSent,
    /// On the way up a token and its length are sent, and on the way down there is none. The path
    /// is sent.
    TokenUp,
    /// There is a third part of the path, and no second one.
    Gap,
    /// The same, and the version of the IPv6 header is sent.
    GapAndVersion,
    /// The same, and the payload length is sent.
    GapAndLength,
}

/// The part of the path at this position has one byte, which is known.
pub fn path(position: u16, byte: u8) -> Draft {
    Draft {
        position,
        ..known(PATH, u64::from(byte))
    }
}

/// The part of the path at this position is sent.
pub fn path_sent(position: u16) -> Draft {
    Draft {
        position,
        ..open(PATH)
    }
}

fn low_id() -> Draft {
    by_first_bits(FieldName::CoapMid, 0x0100, 8)
}

/// The header (RFC 7252 section 3), with these entries of the token length and the message ID.
fn header(tkl: Draft, id: Draft) -> [Draft; 5] {
    [
        known(FieldName::CoapVersion, 1),
        known(FieldName::CoapType, 1),
        tkl,
        known(FieldName::CoapCode, 2),
        id,
    ]
}

/// A header without a token, and the path `t`, from the path on.
fn backwards() -> [Draft; 6] {
    [
        path(1, b't'),
        low_id(),
        known(FieldName::CoapCode, 2),
        known(FieldName::CoapTkl, 0),
        known(FieldName::CoapType, 1),
        known(FieldName::CoapVersion, 1),
    ]
}

/// A header with a token that is sent on the way up, and the path.
fn token_up() -> [Draft; 8] {
    let none = Draft {
        direction: DirInd::Down,
        ..known(FieldName::CoapTkl, 0)
    };
    let some = Draft {
        direction: DirInd::Up,
        ..open(FieldName::CoapTkl)
    };
    [
        known(FieldName::CoapVersion, 1),
        known(FieldName::CoapType, 1),
        none,
        some,
        open(FieldName::CoapToken),
        known(FieldName::CoapCode, 2),
        known(FieldName::CoapMid, 0x0100),
        path_sent(1),
    ]
}

fn joined(alloc: Global, header: &[Draft], options: &[Draft]) -> Result<Vec<Draft>, AllocError> {
    let mut drafts = Vec::new(alloc);
    drafts.extend_from_slice(header)?;
    drafts.extend_from_slice(options)?;
    Ok(drafts)
}

/// The entries of the message.
pub(crate) fn message_drafts(alloc: Global, coap: Coap) -> Result<Vec<Draft>, AllocError> {
    let none = known(FieldName::CoapTkl, 0);
    let id = known(FieldName::CoapMid, 0x0100);
    let plain = header(none, id);
    let token = header(known(FieldName::CoapTkl, 2), id);
    let t = path(1, b't');
    match coap {
        Coap::LowId => joined(alloc, &header(none, low_id()), &[t]),
        Coap::IdSent => joined(alloc, &header(none, open(FieldName::CoapMid)), &[t]),
        Coap::PathSent => joined(alloc, &plain, &[path_sent(1)]),
        Coap::PathRest => joined(alloc, &plain, &[by_first_bits(PATH, 0x74, 8)]),
        Coap::Bare => joined(alloc, &plain, &[]),
        Coap::Backwards => joined(alloc, &[], &backwards()),
        Coap::Token => joined(alloc, &token, &[open(FieldName::CoapToken), t]),
        Coap::TokenLengthSent => joined(alloc, &header(open(FieldName::CoapTkl), id), &[t]),
        Coap::TokenUp => joined(alloc, &[], &token_up()),
        Coap::Gap | Coap::GapAndVersion | Coap::GapAndLength => {
            joined(alloc, &plain, &[t, path(3, b'u')])
        }
    }
}
