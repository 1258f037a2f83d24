//! The words that several texts print, put behind a text: bytes by [`push_bytes`], a finding by
//! [`push_finding`], and why bits are no packet by [`push_unread`].
#![tactic(auto)]

#[cfg(test)]
mod tests;

ghost use Rattle.std.specs.Prelude.{◌≡◌, ◌++◌, OnOk, string_bytes};
ghost use Rattle.printed_words.specs.Words.{bytes_text, residue_text, number_text, field_text, place_text, IsUnread, unread_text, finding_text};

use rule_model::Finding;
use schc_ids::{FieldAt, FieldName, ResidueFault, UnpackFault, text_of};
use std::alloc::AllocError;

/// Writes bytes behind a text: as hex text in lower case, and no bytes as a dash.
///
/// # Errors
/// Want of memory. The text may then have a part of what was to be written.
pub fn push_bytes(text: &mut String, bytes: &[u8]) -> Result<(), AllocError>
    ensures { OnOk result (string_bytes text.new ≡ string_bytes text.old ++ bytes_text bytes.now) }
{
    if bytes.is_empty() {
        return text.push_str("-");
    }
    let digits = hex::encode(*text.allocator(), bytes)?;
    text.push_str(digits.as_str())
}

fn residue_text(why: ResidueFault) -> &'static str
    ensures { result.now ≡ residue_text why }
{
    match why {
        ResidueFault::Short => "short",
        ResidueFault::IndexTooLarge => "index",
        ResidueFault::NonMinimalSize => "size",
    }
}

/// Writes the name of a field: its text in rule text, and an option without one by its number.
#[tactic(auto, unfolding(crate::specs::Words::field_text, crate::specs::Words::number_text))]
fn push_field(text: &mut String, name: FieldName) -> Result<(), AllocError>
    ensures { OnOk result (string_bytes text.new ≡ string_bytes text.old ++ field_text name) }
{
    match text_of(name) {
        Some(known) => text.push_str(known),
        None => push_number(text, name),
    }
}

#[tactic(auto, unfolding(crate::specs::Words::number_text))]
fn push_number(text: &mut String, name: FieldName) -> Result<(), AllocError>
    ensures { OnOk result (string_bytes text.new ≡ string_bytes text.old ++ number_text name) }
{
    match name {
        FieldName::CoapOption(number) => write!(text, "fid-coap-option-{number}"),
        _ => Ok(()),
    }
}

/// Writes the name of a field, and which one of its name it is.
fn push_place(text: &mut String, at: FieldAt) -> Result<(), AllocError>
    ensures { OnOk result (string_bytes text.new ≡ string_bytes text.old ++ place_text at) }
{
    let position = at.position;
    push_field(text, at.name)?;
    write!(text, " {position}")
}

/// Writes why bits are no packet, which want of memory doesn't say.
///
/// # Errors
/// Want of memory. The text may then have a part of what was to be written.
#[tactic(auto, unfolding(crate::specs::Words::unread_text))]
pub fn push_unread(text: &mut String, fault: UnpackFault) -> Result<(), AllocError>
    requires { IsUnread fault }
    ensures { OnOk result (string_bytes text.new ≡ string_bytes text.old ++ unread_text fault) }
{
    match fault {
        UnpackFault::UnknownRule(id) => write!(text, "unknown-rule {id}"),
        UnpackFault::BadResidue(entry, why) => {
            let why = residue_text(why);
            write!(text, "bad-residue {entry} {why}")
        }
        UnpackFault::BadPacket(at) => {
            text.push_str("bad-packet ")?;
            push_place(text, at)
        }
        UnpackFault::Memory => unreachable!(),
    }
}

/// Writes a finding: its number, its name, and the rule and entry it is about, or 0.
///
/// # Errors
/// Want of memory. The text is then as before.
#[tactic(auto, unfolding(crate::specs::Words::finding_text))]
pub fn push_finding(text: &mut String, finding: Finding) -> Result<(), AllocError>
    ensures { OnOk result (string_bytes text.new ≡ string_bytes text.old ++ finding_text finding) }
{
    let number = finding.number;
    let name = finding.name();
    let id = finding.id;
    let entry = finding.entry;
    write!(text, "refused {number} {name} rule {id} entry {entry}")
}
