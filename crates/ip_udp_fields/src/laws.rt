//! How splitting and joining belong together, as statements over all packets and fields.

ghost use Rattle.ip_udp_fields.specs.Laws.{RefusesExactly, HasOneSplit, JoinsAgain, HaveOnePacket};

/// No condition refuses a packet exactly where it is one of the stack.
pub fn split_refuses_exactly()
    ensures { RefusesExactly }
{}

/// Splitting what was joined gives the same fields and payload: a packet has one list of fields
/// and one place of its payload, and `join` ensures which.
pub fn joined_then_split()
    ensures { HasOneSplit }
{}

/// Joining what was split gives the same packet: it isn't refused, and packets with the same
/// fields and payload are one.
pub fn split_then_joined()
    ensures joins { JoinsAgain }
    ensures one { HaveOnePacket }
{}
