//! What no clause says: that calls succeed, and that fields and checksums are those of another
//! program's computation by RFC 8200 and RFC 768.

ghost use Rattle.ip_udp_fields.specs.Fields.{IsPacketOf};

use crate::{SplitFault, checksum, extend_to_udp, join, split};
use rule_model::Fields;
use schc_bits::Bits;
use schc_ids::{Direction, Stack};
use std::alloc::{AllocError, Global};

/// A packet a line: the stack, the direction, the packet in hexadecimal, how many zero bytes follow
/// it, and its fields in packet order, with UDP also the computed checksum; or why it is refused.
/// `checks/fields_by_python` makes the rows and compares them.
const ROWS: &str = "
ip up 6000000000003b40fe800000000000000000000000000001fe800000000000000000000000000002 0 6 00 00000 0000 3b 40 fe80000000000000 0000000000000001 fe80000000000000 0000000000000002
ip down 6000000000003b40fe800000000000000000000000000001fe800000000000000000000000000002 0 6 00 00000 0000 3b 40 fe80000000000000 0000000000000001 fe80000000000000 0000000000000002
udp up 6000000000003b40fe800000000000000000000000000001fe800000000000000000000000000002 0 not-udp
ip up 60000000000a114020010db800000000000000000000000120010db8000000010000000000000002f0b1f0b3000af7ffcafe 0 6 00 00000 000a 11 40 20010db800000000 0000000000000001 20010db800000001 0000000000000002
ip down 60000000000a114020010db800000000000000000000000120010db8000000010000000000000002f0b1f0b3000af7ffcafe 0 6 00 00000 000a 11 40 20010db800000000 0000000000000001 20010db800000001 0000000000000002
udp up 60000000000a114020010db800000000000000000000000120010db8000000010000000000000002f0b1f0b3000af7ffcafe 0 6 00 00000 000a 11 40 20010db800000000 0000000000000001 20010db800000001 0000000000000002 f0b1 f0b3 000a f7ff f7ff
udp down 60000000000a114020010db800000000000000000000000120010db8000000010000000000000002f0b1f0b3000af7ffcafe 0 6 00 00000 000a 11 40 20010db800000000 0000000000000001 20010db800000001 0000000000000002 f0b1 f0b3 000a f7ff f7ff
udp up 60012345000a114020010db800000000000000000000000120010db8000000010000000000000002f0b1f0b3000af7ffcafe 0 6 00 12345 000a 11 40 20010db800000000 0000000000000001 20010db800000001 0000000000000002 f0b1 f0b3 000a f7ff f7ff
udp up 60000000000a114020010db800000000000000000000000120010db8000000090000000000000002f0b1f0b3000af7ffcafe 0 6 00 00000 000a 11 40 20010db800000000 0000000000000001 20010db800000009 0000000000000002 f0b1 f0b3 000a f7ff f7f7
ip up 6000000000003b40fe800000000000000000000000000001fe8000000000000000000000000000 0 short
ip up 5000000000003b40fe800000000000000000000000000001fe800000000000000000000000000002 0 not-ipv6
ip up 6000000000003b40fe800000000000000000000000000001fe80000000000000000000000000000200 0 length-wrong
ip up 60be4bd7000711ac9c2890eb94e1526fae186b2311c9bfb965e015342b8d687b4e39b14a295f10f18e29db5b000842 0 6 0b e4bd7 0007 11 ac 9c2890eb94e1526f ae186b2311c9bfb9 65e015342b8d687b 4e39b14a295f10f1
udp up 60be4bd7000711ac9c2890eb94e1526fae186b2311c9bfb965e015342b8d687b4e39b14a295f10f18e29db5b000842 0 short
udp down 6e720123000811561669bac0a622d5f2c0fc5dbff388422d1e368ea0431884bdbde05ca5bcea8d0438fcfca70008e901 0 6 e7 20123 0008 11 56 1669bac0a622d5f2 c0fc5dbff388422d 1e368ea0431884bd bde05ca5bcea8d04 38fc fca7 0008 e901 4f67
udp down 67bf5fd70009112f374c49589abd5e1e31e5f8d0a6acedf71cfd03b49e233648880d5a726f4d100332a7846100097c47d3 0 6 7b f5fd7 0009 11 2f 374c49589abd5e1e 31e5f8d0a6acedf7 1cfd03b49e233648 880d5a726f4d1003 32a7 8461 0009 7c47 e60a
udp up 6530660c000a114e638059807c62a345734742a904e325747d4df88754a9ab14182d6a8c712984f8fcefb061000a4044c632 0 6 53 0660c 000a 11 4e 638059807c62a345 734742a904e32574 7d4df88754a9ab14 182d6a8c712984f8 fcef b061 000a 4044 e0f6
udp down 649fdbb4000b1142ba0f430fbba879d223f43b1f47f13f64d024389a1c2dbba4196aaca3fd3d03369244ab72000bf1a2826228 0 6 49 fdbb4 000b 11 42 ba0f430fbba879d2 23f43b1f47f13f64 d024389a1c2dbba4 196aaca3fd3d0336 9244 ab72 000b f1a2 57a9
udp down 679c5800000f115538e8e042bbcecde0e13d35b2fb60a50abead44372b502b7e6af8481b30a70d766f3f80fb000fae8a77ba8e76b1f4b1 0 6 79 c5800 000f 11 55 38e8e042bbcecde0 e13d35b2fb60a50a bead44372b502b7e 6af8481b30a70d76 6f3f 80fb 000f ae8a 0155
udp up 6434b18e000c1125077ca445127cc962a709281c951bc03eb9b5216c182d243437269dc929a87bbd94dd88f2000d7c7618773da00f 0 length-wrong
udp up 6955d50b000e11fe1962a9a1e06e833116d954f6da060a00f1bb5966daa97fbf8c0a2c8a9ed92d88c6c0831b000d34ee2c236c8e3f 0 length-wrong
udp up 6dcef777000d114066e53ee9d03abda3dd1eeac3ee34ae16df15f96a3fffa82984dec6c8a46f14af131a031d000cf46f1f77245f11 0 length-wrong
udp up 66dd7223000d11a0dcda686c3c9fd903f3a72baccb4b63e246a8cfba7176a8c7e0f39a2fc475c3202f35e2f6000ea2b5123398ed31 0 length-wrong
udp up 6ab5dc0b000c06c9a13d82de6aec7be89c9b304389b1b9478cc72f0b29df919cc89afec4d87a81fe754e4946000c9649a5697bb2 0 not-udp
udp up 70000000000c11659555995669cb4c71484a977294f2396095314bfe2105254ecbebc51d74240336e3ed5256000c492f04c5d154 0 not-ipv6
udp up 68c308ec000c11a0f9348c30743711167878ea289110263ed44a1de2605ce1a20107e11840fcf41ebd0de883000c8c586a9f7f9b 0 6 8c 308ec 000c 11 a0 f9348c3074371116 7878ea289110263e d44a1de2605ce1a2 0107e11840fcf41e bd0d e883 000c 8c58 ffff
udp down 6ab04a43ffff11154868b07fe416cd6b62c0d148973ca63a5b9d8ca9ac5b8f240a0b59bb640e7786b80ae487ffffdc74 65527 6 ab 04a43 ffff 11 15 4868b07fe416cd6b 62c0d148973ca63a 5b9d8ca9ac5b8f24 0a0b59bb640e7786 b80a e487 ffff dc74 e44e
ip up 6ab04a43ffff11154868b07fe416cd6b62c0d148973ca63a5b9d8ca9ac5b8f240a0b59bb640e7786b80ae487ffffdc74 65528 length-wrong
udp down 6a1a1b0100191191ee693650d36d308f4d10e88b1f71200c1f4498c4a9d536bed74eece39a474749d0a21d7c001997910f6b13db74bb3eb57d5a5032152bcaf563 0 6 a1 a1b01 0019 11 91 ee693650d36d308f 4d10e88b1f71200c 1f4498c4a9d536be d74eece39a474749 d0a2 1d7c 0019 9791 4e08
ip up 662bb0dc001011e2418d29a448e6df080902bfc9670546969bd075dd75047376a6d86b96eae01cc13e39c90c00107ceb3bc5ca8987336389 0 6 62 bb0dc 0010 11 e2 418d29a448e6df08 0902bfc967054696 9bd075dd75047376 a6d86b96eae01cc1
ip up 6b5755ff0026110faf79808eee11fe30acb73f8a6c6df42bbf7e4ad1ed6a128339fedfed841ff7187afc40c800262a23e508193a2eeeb1e2878ab27a153123b15ff7b053b2f8b385d889f37adaaa 0 6 b5 755ff 0026 11 0f af79808eee11fe30 acb73f8a6c6df42b bf7e4ad1ed6a1283 39fedfed841ff718
ip up 651d1d25001a1130ef41808907e4b02ab0749e8dfe7965cc0b24139668744748fd6a45c7fff992d3a6822717001aa81c99a49cf066d6110b3e7c8a06dd09aa46f255 0 6 51 d1d25 001a 11 30 ef41808907e4b02a b0749e8dfe7965cc 0b24139668744748 fd6a45c7fff992d3
udp down 68c8fe70001c117335aed74fc354b81ae1c9e10ec6c4bd2d75e1e64c75defba0d0d7e69d75d86bd418f7b3cc001cf1dd0c99f84c2c585e2d31a120d72218a17bb7af779c 0 6 8c 8fe70 001c 11 73 35aed74fc354b81a e1c9e10ec6c4bd2d 75e1e64c75defba0 d0d7e69d75d86bd4 18f7 b3cc 001c f1dd 2826
ip down 69da3375001811dee872f618b82743b528163a9201ed653f6de8e8277a213f0d432a2d4af9a424881853f6300018ffe023fa1ba8f1da6e20408c8e369b052816 0 6 9d a3375 0018 11 de e872f618b82743b5 28163a9201ed653f 6de8e8277a213f0d 432a2d4af9a42488
udp up 698bf4b8002911bb237fa7c1bbc752a0c60221670a1c99534e458ee5b5dd9fbeecfbbd537fabcb1c0b0e4ac00029ad5c43bcc59047ad2f71a2a14618133fd4ceb32ff38418cde98139fa674e4e1b20ed19 0 6 98 bf4b8 0029 11 bb 237fa7c1bbc752a0 c60221670a1c9953 4e458ee5b5dd9fbe ecfbbd537fabcb1c 0b0e 4ac0 0029 ad5c f9e4
udp up 6163cde8002c11590c880bda2c9db09607e3eec4dc8fa2ac89ef1ac7e5993c8015e1458037fb61702b27a4ef002c83d32b77ed925711afb2b80aec27638a11a65e715372ddd303101036fbfe68472761780cfacc 0 6 16 3cde8 002c 11 59 0c880bda2c9db096 07e3eec4dc8fa2ac 89ef1ac7e5993c80 15e1458037fb6170 2b27 a4ef 002c 83d3 2db8
udp down 618e5002002c110265b9b9b0e69bd03fe4b5f48e406de7e559449fc61e04ce416a15e4e5cc5c92146b8a1cac002c8765e9e0c709a2962cbc9700f49b5f0140b4c5d3b43dc47f514338713fe5610d70490fb8416a 0 6 18 e5002 002c 11 02 65b9b9b0e69bd03f e4b5f48e406de7e5 59449fc61e04ce41 6a15e4e5cc5c9214 6b8a 1cac 002c 8765 3691
udp up 6af8eb6c002b117ed2f8b64c53bbe85331f2846351fc121e7aa64679d6f15dda795c2556dcaf47f71b174275002bcf19b3a0ee9602645074f2d6eff3a9a9a20e13fb3514f29b86145e96d747e2abab9aaddaab 0 6 af 8eb6c 002b 11 7e d2f8b64c53bbe853 31f2846351fc121e 7aa64679d6f15dda 795c2556dcaf47f7 1b17 4275 002b cf19 06af
udp down 6e8e40740028115e44a4c64244bb95f49e508468919d66dd945c90233077fafb36421993a330260bacda9c2f0028b108c43449b50ff4d9e1cf61d8ba82da4ba6b0848f78a918fcf45b7bea1c719e25e4 0 6 e8 e4074 0028 11 5e 44a4c64244bb95f4 9e508468919d66dd 945c90233077fafb 36421993a330260b acda 9c2f 0028 b108 1b42
udp up 61592ed5002d11fb89cc72477bbb4273005b844072eee356468f716a8c3f4835106ce5b9c82aa19ae9836a1a002dd3e74c24b57d054bc7c4a0a8757a0bff4544e3de6c3e933b743efd8ffe326b3f798d69dc6beb47 0 6 15 92ed5 002d 11 fb 89cc72477bbb4273 005b844072eee356 468f716a8c3f4835 106ce5b9c82aa19a e983 6a1a 002d d3e7 9f71
udp down 6842c90a000e117694e9fa7c79075e2e20d0fb6f1255ebc78a19dee1226c7f31e117bf07dd849c300528a148000e682420c2c302af79 0 6 84 2c90a 000e 11 76 94e9fa7c79075e2e 20d0fb6f1255ebc7 8a19dee1226c7f31 e117bf07dd849c30 0528 a148 000e 6824 20bc
ip up 6d3c8931001e113440996a98077e74f0bbd0d5ef62db6458a1f2798ecba0d9b3bf85e7dd88dd19c2313bba8e001e7ba10a56a3349d87984ec4210698eb7e36c5e77566fea098 0 6 d3 c8931 001e 11 34 40996a98077e74f0 bbd0d5ef62db6458 a1f2798ecba0d9b3 bf85e7dd88dd19c2
ip down 6c0e08b2002111b293ccf1d07e0221776e36950aed4ee937c8a850569878962c276d2a18140898667d1061c80021c6c98dd92e89adb6eaefb5a5db8b6d727c867ec1b1a7ff29b7b40b 0 6 c0 e08b2 0021 11 b2 93ccf1d07e022177 6e36950aed4ee937 c8a850569878962c 276d2a1814089866
udp up 6fabe25e0025119c340a0edde7282baaa07aedf6b083f89770302b11bf7a67d52d733609086736e8607e879900256bbb8c98ded482fe2fa0d7a456fec80556e17951ecfaf5673e31afc1a64639 0 6 fa be25e 0025 11 9c 340a0edde7282baa a07aedf6b083f897 70302b11bf7a67d5 2d733609086736e8 607e 8799 0025 6bbb 9063
";

fn digit(character: u8) -> u8 {
    match character {
        b'0'..=b'9' => character - b'0',
        b'a'..=b'f' => character - b'a' + 10,
        _ => 0,
    }
}

fn packet_of(alloc: Global, hex: &[u8], zeros: u32) -> Result<Vec<u8>, AllocError> {
    let mut packet = Vec::new(alloc);
    for byte in hex.chunks(2) {
        if let [high, low] = byte {
            packet.push((digit(*high) << 4) | digit(*low))?;
        }
    }
    for _ in 0..zeros {
        packet.push(0)?;
    }
    Ok(packet)
}

fn push_digit(text: &mut Vec<u8>, number: u8) -> Result<(), AllocError> {
    let digits = b"0123456789abcdef";
    text.push(digits[usize::from(number % 16)])?;
    Ok(())
}

fn push_bits(text: &mut Vec<u8>, bits: &Bits) -> Result<(), AllocError> {
    let mut number = 0u8;
    for i in 0..bits.len() {
        number = (number % 8) * 2 + u8::from(bits.bit(i));
        if i % 4 == 3 {
            push_digit(text, number)?;
        }
    }
    Ok(())
}

fn push_fields(text: &mut Vec<u8>, fields: &Fields) -> Result<(), AllocError> {
    for field in fields.as_slice() {
        if !text.is_empty() {
            text.push(b' ')?;
        }
        push_bits(text, &field.value)?;
    }
    Ok(())
}

fn push_checksum(text: &mut Vec<u8>, packet: &[u8]) -> Result<(), AllocError>
    requires { IsPacketOf Stack.IpUdp packet.now }
{
    text.push(b' ')?;
    let [high, low] = checksum(packet).to_be_bytes();
    push_digit(text, high / 16)?;
    push_digit(text, high)?;
    push_digit(text, low / 16)?;
    push_digit(text, low)
}

fn word(fault: SplitFault) -> &'static str {
    match fault {
        SplitFault::Short => "short",
        SplitFault::NotIpv6 => "not-ipv6",
        SplitFault::LengthWrong => "length-wrong",
        SplitFault::NotUdp => "not-udp",
        SplitFault::NotCoap(_) => "not-coap",
        SplitFault::Memory => "memory",
    }
}

/// Whether the packet splits as the row says, and is joined to the same packet again.
fn is_ip_row(
    alloc: Global,
    direction: Direction,
    packet: &[u8],
    wanted: &str,
) -> Result<bool, AllocError> {
    let mut text = Vec::new(alloc);
    match split(alloc, Stack::Ip, direction, packet) {
        Err(fault) => Ok(word(fault) == wanted),
        Ok(parts) => {
            push_fields(&mut text, &parts.fields)?;
            let payload = packet.get(parts.payload_from..).unwrap_or_default();
            let again = join(alloc, Stack::Ip, direction, &parts.fields, payload);
            Ok(
                text.as_slice() == wanted.as_bytes()
                    && again.is_ok_and(|joined| joined.as_slice() == packet),
            )
        }
    }
}

/// Whether the fields of the IPv6 header, with those of UDP put behind them, are these.
fn are_extended(
    alloc: Global,
    direction: Direction,
    packet: &[u8],
    wanted: &Fields,
) -> Result<bool, AllocError> {
    match split(alloc, Stack::Ip, direction, packet) {
        Err(_) => Ok(false),
        Ok(mut parts) => {
            let extended = extend_to_udp(alloc, direction, packet, &mut parts.fields);
            let mut text = Vec::new(alloc);
            push_fields(&mut text, &parts.fields)?;
            let mut wanted_text = Vec::new(alloc);
            push_fields(&mut wanted_text, wanted)?;
            Ok(extended.is_ok() && text.as_slice() == wanted_text.as_slice())
        }
    }
}

/// The same with UDP, and its checksum at the end of the row.
fn is_udp_row(
    alloc: Global,
    direction: Direction,
    packet: &[u8],
    wanted: &str,
) -> Result<bool, AllocError> {
    let mut text = Vec::new(alloc);
    match split(alloc, Stack::IpUdp, direction, packet) {
        Err(fault) => Ok(word(fault) == wanted),
        Ok(parts) => {
            push_fields(&mut text, &parts.fields)?;
            push_checksum(&mut text, packet)?;
            let payload = packet.get(parts.payload_from..).unwrap_or_default();
            let again = join(alloc, Stack::IpUdp, direction, &parts.fields, payload);
            Ok(
                text.as_slice() == wanted.as_bytes()
                    && are_extended(alloc, direction, packet, &parts.fields)?
                    && again.is_ok_and(|joined| joined.as_slice() == packet),
            )
        }
    }
}

fn is_row(alloc: Global, row: &str) -> Result<bool, AllocError> {
    let Some((stack, row)) = row.split_once(' ') else {
        return Ok(false);
    };
    let Some((direction, row)) = row.split_once(' ') else {
        return Ok(false);
    };
    let Some((hex, row)) = row.split_once(' ') else {
        return Ok(false);
    };
    let Some((zeros, wanted)) = row.split_once(' ') else {
        return Ok(false);
    };
    let packet = packet_of(alloc, hex.as_bytes(), zeros.parse().unwrap_or(0))?;
    let towards = if direction == "up" {
        Direction::Up
    } else {
        Direction::Down
    };
    if stack == "udp" {
        is_udp_row(alloc, towards, &packet, wanted)
    } else {
        is_ip_row(alloc, towards, &packet, wanted)
    }
}

#[test]
fn packets_split_join_and_sum_as_elsewhere(rt: HostRuntime) -> Result<(), AllocError> {
    for row in ROWS.lines() {
        if !row.is_empty() {
            assert!(rt; is_row(rt.alloc(), row)?, "{row}");
        }
    }
    Ok(())
}
