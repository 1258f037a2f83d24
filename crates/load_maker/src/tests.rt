//! The text of a small load, as an independent program has it.
use super::*;
use schc_bits::Octets;
use script_lang::write;
use std::alloc::{AllocError, Global};
use std::test::Fail;

/// The text of the load of one device whose draws begin with 0, in pieces.
const ONE_DEVICE: [&str; 18] = [
    "device 0 0000000000000001 ffffffff00000001",
    " mtu 51 mode acked last all1 timers 10 40 1 2\n",
    "hand 0 dev 6000000000003b40fe80000000000000",
    "0000000000000001fe80000000000000ffffffff00000001\n",
    "slot 0 dev\ndeliver 0 up 1\ndeliver 0 up 1\n",
    "hand 0 dev 6000000000373b40fe80000000000000",
    "0000000000000001fe80000000000000ffffffff00000001",
    "dcdddedfe0e1e2e3e4e5e6e7e8e9eaebecedeeeff0f1f2f3f4f5f6f7f8f9fafb",
    "fcfdfeff000102030405060708090a0b0c0d0e0f101112\n",
    "slot 0 dev\ndeliver 0 up 2\n",
    "slot 0 dev\ndeliver 0 up 3\n",
    "slot 0 dev\ndeliver 0 up 4\n",
    "slot 0 gw\ndeliver 0 down 1\n",
    "tick 0 both\ntick 0 both\n",
    "hand 0 dev 6000000000063b40fe80000000000000",
    "0000000000000001fe80000000000000ffffffff00000001",
    "040506070809\n",
    "slot 0 dev\ndeliver 0 up 5\ndeliver 0 up 5\n",
];

/// The text of a load of one device.
fn text(alloc: Global) -> Result<Octets, AllocError> {
    let script = make_load(alloc, 1, 0)?;
    write(alloc, &script)
}

#[test]
fn load_of_one_device(rt: HostRuntime) -> Result<(), Fail> {
    let mut expected = String::new(rt.alloc());
    for piece in ONE_DEVICE {
        expected.push_str(piece)?;
    }
    let text = text(rt.alloc())?;
    assert!(rt; text.as_slice() == expected.as_bytes());
    Ok(())
}
