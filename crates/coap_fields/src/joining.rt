//! A message from its fields.

ghost use Rattle.std.specs.Prelude.{ℕ, ◌≡◌, ◌+◌, ◌-◌, ◌*◌, ◌≤◌, ◌<◌, ◌⊎◌, ◌++◌, [], ◌∷◌, length, drop, Some, None, IfOk, IfErr, OnOk};
ghost use Rattle.schc_bits.specs.Bits.{AreBytes};
ghost use Rattle.coap_fields.specs.Fields.{MessageOf};
ghost use Rattle.coap_fields.specs.Join.{join_refusal, message_from};

use crate::join_conditions::join_refusal;
use crate::writing::written;
use rule_model::{Fields, JoinFault};
use schc_bits::Octets;
use std::alloc::Global;

/// Joins fields and a payload to a CoAP message (RFC 7252 section 3). Without a byte of payload it
/// has no marker.
///
/// # Errors
/// The first condition that fails: each field that every message has is among the fields and has
/// its width, in packet order; each field of the list is one that a message can have, stands after
/// the one before it, and is whole bytes, at most 65,804 of them, where it is an option; the version
/// is 1; the token is at most 8 bytes long; it is there exactly where its length is above 0, and has
/// that length; the positions of each option count from 1 without a gap. Or want of memory.
pub fn join(alloc: Global, fields: &Fields, payload: &[u8]) -> Result<Octets, JoinFault>
    ensures fields { IfOk result (λ message.
        MessageOf message.items fields.now.items (length message.items - length payload.now)) }
    ensures payload { IfOk result (λ message. drop (length message.items - length payload.now) message.items ≡ payload.now) }
    ensures bytes { IfOk result (λ message. AreBytes message.items) }
    ensures spelled { IfOk result (λ message. message.items ≡ message_from fields.now.items payload.now) }
    ensures ok { IfOk result (λ _. join_refusal fields.now.items ≡ None) }
    ensures err { IfErr result (λ fault. (fault ≡ JoinFault.Memory) ⊎ (join_refusal fields.now.items ≡ Some fault)) }
{
    let listed = fields.as_slice();
    match join_refusal(listed) {
        Some(fault) => Err(fault),
        None => match written(alloc, listed, payload) {
            Ok(message) => Ok(message),
            Err(_) => Err(JoinFault::Memory),
        },
    }
}
