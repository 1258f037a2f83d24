//! Outcomes and ends as single words.

ghost use Rattle.std.specs.Prelude.{◌≡◌};
ghost use Rattle.event_data.specs.Outcomes.{IsRefusal};
ghost use Rattle.transcripts.specs.Lines.{role_text, direction_text, target_text, refusal_text, allowed_text, wire_text};

use event_data::{DownFault, Target};
use schc_ids::{Direction, Role, WireFault};

pub(crate) fn role_text(role: Role) -> &'static str
    ensures { result.now ≡ role_text role }
{
    match role {
        Role::Device => "dev",
        Role::Gateway => "gw",
    }
}

pub(crate) fn direction_text(direction: Direction) -> &'static str
    ensures { result.now ≡ direction_text direction }
{
    match direction {
        Direction::Up => "up",
        Direction::Down => "down",
    }
}

pub(crate) fn target_text(target: Target) -> &'static str
    ensures { result.now ≡ target_text target }
{
    match target {
        Target::Device => "dev",
        Target::Gateway => "gw",
        Target::Both => "both",
    }
}

/// Why a packet that was handed down is refused, which is never for want of memory.
pub(crate) fn refusal_text(fault: DownFault) -> &'static str
    requires { IsRefusal fault }
    ensures { result.now ≡ refusal_text fault }
{
    match fault {
        DownFault::NotIpv6 => "refused not-ipv6",
        DownFault::TooLong => "refused too-long",
        DownFault::Full => "refused full",
        DownFault::Memory => unreachable!(),
    }
}

pub(crate) fn allowed_text(allowed: bool) -> &'static str
    ensures { result.now ≡ allowed_text allowed }
{
    if allowed { "yes" } else { "no" }
}

pub(crate) fn wire_text(fault: WireFault) -> &'static str
    ensures { result.now ≡ wire_text fault }
{
    match fault {
        WireFault::Empty => "empty",
        WireFault::TooShort => "short",
        WireFault::WrongForm => "form",
    }
}
