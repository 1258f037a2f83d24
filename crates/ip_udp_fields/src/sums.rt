//! The UDP checksum.

ghost use Rattle.std.specs.Prelude.{◌≡◌, ◌-◌, ◌*◌, ◌^◌, ◌≤◌, length, sum};
ghost use Rattle.ip_udp_fields.specs.Fields.{IsUdp};
ghost use Rattle.ip_udp_fields.specs.Checksum.{words, ones_sum, sent_checksum, checksum_of};

use crate::layout::{IP_HEADER, IP_UDP_HEADER};

/// The next header of UDP (RFC 8200 section 3).
const UDP: u64 = 17;

/// The most that 16 bits write.
const ALL_ONES: u64 = 0xFFFF;

/// The UDP checksum of a packet that splits with UDP (RFC 768, RFC 8200 section 8.1): over the
/// pseudo-header, the UDP header with a checksum of 0, and the data. A result of 0 is given as
/// FFFF. It takes no memory.
pub fn checksum(packet: &[u8]) -> u16
    requires { IsUdp packet.now }
    ensures { result ≡ checksum_of packet.now }
{
    let length = (packet.len() - IP_HEADER) as u64;
    let (_, data) = packet.split_at(IP_UDP_HEADER);
    let addresses = words_sum(&packet[8..40]);
    let header = words_sum(&packet[40..46]);
    complement(addresses + length + UDP + header + words_sum(data))
}

/// The ones' complement of the ones' complement sum of words with this sum.
fn complement(total: u64) -> u16
    ensures { result ≡ sent_checksum (2 ^ 16 - 1 - ones_sum total) }
{
    let folded = if total == 0 {
        0
    } else {
        (total - 1) % ALL_ONES + 1
    };
    let computed = ALL_ONES - folded;
    if computed == 0 {
        0xFFFF
    } else {
        computed as u16
    }
}

/// The sum of the bytes as 16-bit words. An odd last byte is padded with a zero byte.
fn words_sum(bytes: &[u8]) -> u64
    requires { length bytes.now ≤ 65536 }
    ensures value { result ≡ sum (words bytes.now) }
    ensures bound { result ≤ 65535 * length bytes.now }
{
    let mut total: u64 = 0;
    let mut rest = bytes;
    while let [high, low, later @ ..] = rest {
        total += u64::from(*high) * 256 + u64::from(*low);
        rest = later;
    }
    match rest {
        [last] => total + u64::from(*last) * 256,
        _ => total,
    }
}
