//! The memory and standard implementations under both loops, with calls that fail in mid-stream.
use super::*;
use std::io;
use std::test::Fail;

// A reader that always fails.
#[derive(Drop)]
struct Broken;

impl io::Read for Broken {
    fn read(&mut self, _room: &mut [u8]) -> io::Result<usize> {
        Err(io::Error::from(io::ErrorKind::Other))
    }
}

#[test]
fn reads_to_the_end(rt: HostRuntime) -> Result<(), Fail> {
    let long = [7; 5000];
    let cases: [(&[u8], &[u64], usize, Option<ReadAllFault>); 8] = [
        (b"", &[], 0, None),
        (b"abc", &[], 3, None),
        (b"abc", &[], usize::MAX, None),
        (&long, &[4], 5000, None),
        (b"a", &[], 0, Some(ReadAllFault::TooLong)),
        (&long, &[], 4999, Some(ReadAllFault::TooLong)),
        (b"abc", &[1], 3, Some(ReadAllFault::Fault)),
        (&long, &[5, 2], 5000, Some(ReadAllFault::Fault)),
    ];
    for (bytes, failing, limit, fault) in cases {
        let mut source = MemSource::new(bytes.to_vec(rt.alloc())?, failing.to_vec(rt.alloc())?);
        match read_all(rt.alloc(), &mut &mut source, limit) {
            Ok(read) => {
                assert_eq!(rt; fault, None);
                assert_eq!(rt; read.as_slice(), bytes);
            }
            Err(found) => assert_eq!(rt; Some(found), fault),
        }
    }
    Ok(())
}

#[test]
fn writes_the_whole_text(rt: HostRuntime) -> Result<(), Fail> {
    let cases: [(usize, &[u64], &[u8], bool, &[u8]); 5] = [
        (0, &[1], b"", true, b""),
        (3, &[2], b"abc", true, b"abc"),
        (4, &[], b"abc", true, b"abc"),
        (2, &[], b"abc", false, b"ab"),
        (3, &[1], b"abc", false, b""),
    ];
    for (capacity, failing, text, whole, written) in cases {
        let mut sink = MemSink::new(rt.alloc(), capacity, failing.to_vec(rt.alloc())?)?;
        assert_eq!(rt; write_all(&mut &mut sink, text).is_ok(), whole);
        assert_eq!(rt; sink.as_slice(), written);
    }
    Ok(())
}

#[test]
fn reads_and_writes_by_std(rt: HostRuntime) -> Result<(), Fail> {
    let mut source = StdSource::new(b"abc".as_slice());
    let read = read_all(rt.alloc(), &mut source, 3);
    assert_eq!(rt;
        read.as_ref().map(|bytes| bytes.as_slice()).ok(),
        Some(b"abc".as_slice())
    );

    let mut failing = StdSource::new(io::Read::chain(b"abc".as_slice(), Broken));
    let fault = read_all(rt.alloc(), &mut failing, 3).err();
    assert_eq!(rt; fault, Some(ReadAllFault::Fault));

    let mut held = Vec::new(rt.alloc());
    let done = write_all(&mut StdSink::new(&mut held), b"abc");
    assert_eq!(rt; done, Ok(()));
    assert_eq!(rt; held.as_slice(), b"abc".as_slice());

    let mut room = [0; 2];
    let mut full = StdSink::new(room.as_mut_slice());
    assert_eq!(rt; write_all(&mut full, b"abc"), Err(WriteFault));
    Ok(())
}
