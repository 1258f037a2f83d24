use crate::{Stack, always_present, width};

/// The bits of the always-present fields of a stack.
fn header_bits(stack: Stack) -> u64 {
    let mut bits = 0u64;
    for name in always_present(stack) {
        if let Some(more) = width(*name) {
            bits = bits.saturating_add(u64::from(more));
        }
    }
    bits
}

#[test]
fn headers_have_their_standard_sizes(rt: HostRuntime) {
    assert_eq!(rt; header_bits(Stack::Ip), 8 * 40);
    assert_eq!(rt; header_bits(Stack::IpUdp), 8 * 48);
    assert_eq!(rt; header_bits(Stack::IpUdpCoap), 8 * 52);
}
