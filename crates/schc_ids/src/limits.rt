//! Limits and ranges, and the RuleIDs that are reserved.

ghost use Rattle.std.specs.Prelude.{◌↔◌, IsTrue};
ghost use Rattle.schc_ids.specs.Limits.{IsMtu, IsTicks};

/// The fewest bytes that the frames of an end may be limited to.
pub const MIN_MTU: u16 = 15;

/// The most bytes that the frames of an end may be limited to.
pub const MAX_MTU: u16 = 242;

/// The most ticks of a timer; the fewest is 1.
pub const MAX_TICKS: u32 = 1_000_000;

/// The fewest bytes of a packet that is handed down: an IPv6 header (RFC 8200 section 3).
pub const MIN_PACKET: usize = 40;

/// The most bytes of a packet that is handed down.
pub const MAX_PACKET: usize = 1500;

/// How many packets wait at an end at most.
pub const QUEUE_ROOM: usize = 8;

/// The bytes that an end keeps of the fragments of a packet.
pub const REASSEMBLY_BYTES: usize = 2530;

/// The fewest bits of an SCHC packet that is cut in tiles.
pub const MIN_CUT_BITS: usize = 96;

/// The fewest bits of an SCHC packet that goes as a session: what is shorter fits a frame.
pub const MIN_SESSION_BITS: usize = 128;

/// The most bits of an SCHC packet that goes as a session: the tiles of four windows of 63 (RFC
/// 9011 section 5.6.2).
pub const MAX_SESSION_BITS: usize = 20_160;

/// How often an answer is asked for in a row (MAX_ACK_REQUESTS, RFC 8724 section 8.2.2.4).
pub const MAX_ACK_REQUESTS: u8 = 8;

/// How many devices there are at most.
pub const MAX_DEVICES: usize = 1024;

/// How many events a script has at most.
pub const MAX_EVENTS: usize = 200_000;

/// The most bytes of an input.
pub const MAX_INPUT: usize = 67_108_864;

/// How many rules an edition has at most.
pub const MAX_RULES: usize = 200;

/// How many entries a rule has at most.
pub const MAX_ENTRIES: usize = 64;

/// The most bytes that the targets of an edition have together, each in whole bytes.
pub const MAX_TARGET_BYTES: u64 = 262_144;

/// How many editions there are at most.
pub const MAX_EDITIONS: u32 = 256;

/// How many datagrams one loop takes at most, those that are dropped not counted.
pub const MAX_DATAGRAMS: u64 = 500_000;

/// RuleID and port of fragments up and their answers, in ACK-on-Error (RFC 9011 section 5.2).
pub const ACK_ON_ERROR_PORT: u8 = 20;

/// RuleID and port of fragments down and their answers, in ACK-Always (RFC 9011 section 5.2).
pub const ACK_ALWAYS_PORT: u8 = 21;

/// RuleID and port of packets that no rule compresses (RFC 9011 section 5.2).
pub const UNCOMPRESSED: u8 = 22;

/// RuleID and port of fragments up without answers.
pub const NO_ACK_UP_PORT: u8 = 222;

/// RuleID and port of fragments down without answers.
pub const NO_ACK_DOWN_PORT: u8 = 223;

/// The first port that LoRaWAN keeps from applications (RFC 9011 section 5.2); none from here on
/// is a RuleID.
pub const FIRST_RESERVED_PORT: u8 = 224;

/// Whether the frames of an end may be limited to this many bytes.
pub fn is_mtu(mtu: u16) -> bool
    ensures { IsTrue result ↔ IsMtu mtu }
{
    MIN_MTU <= mtu && mtu <= MAX_MTU
}

/// Whether a timer may run for this many ticks.
pub fn is_ticks(ticks: u32) -> bool
    ensures { IsTrue result ↔ IsTicks ticks }
{
    1 <= ticks && ticks <= MAX_TICKS
}
