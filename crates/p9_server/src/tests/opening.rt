//! A file is opened and read, or not.
use super::{check, reply_to, server_of_a_file};
use std::test::Fail;

// Opens and reads of a file.
const OPENS: [(&[u8], &[u8]); 10] = [
    // an attach of fid 1
    (
        b"\x17\0\0\0\x68\0\0\x01\0\0\0\xff\xff\xff\xff\0\0\0\0\0\0\0\0",
        b"\x14\0\0\0\x69\0\0\x80\0\x10\x5e\x5f\x01\0\0\0\0\0\0\0",
    ),
    // a walk to `f`, as fid 2
    (
        b"\x14\0\0\0\x6e\x01\0\x01\0\0\0\x02\0\0\0\x01\0\x01\0f",
        b"\x16\0\0\0\x6f\x01\0\x01\0\0\0\x10\x5e\x5f\x02\0\0\0\0\0\0\0",
    ),
    // a walk on to `nope` tells one qid, and makes no fid 3
    (
        b"\x1a\0\0\0\x6e\x01\0\x01\0\0\0\x03\0\0\0\x02\0\x01\0f\x04\0nope",
        b"\x16\0\0\0\x6f\x01\0\x01\0\0\0\x10\x5e\x5f\x02\0\0\0\0\0\0\0",
    ),
    (
        b"\x0b\0\0\0\x78\x02\0\x03\0\0\0",
        b"\x0b\0\0\0\x07\x02\0\x09\0\0\0",
    ),
    // a fid that isn't open isn't read
    (
        b"\x17\0\0\0\x74\x03\0\x02\0\0\0\0\0\0\0\0\0\0\0\x05\0\0\0",
        b"\x0b\0\0\0\x07\x03\0\x09\0\0\0",
    ),
    // an open that would empty a directory, an open to read, an open of a directory to write
    (
        b"\x0f\0\0\0\x0c\x04\0\x01\0\0\0\0\x02\0\0",
        b"\x0b\0\0\0\x07\x04\0\x15\0\0\0",
    ),
    (
        b"\x0f\0\0\0\x0c\x05\0\x02\0\0\0\0\0\0\0",
        b"\x18\0\0\0\x0d\x05\0\0\0\x10\x5e\x5f\x02\0\0\0\0\0\0\0\0\0\0\0",
    ),
    (
        b"\x0f\0\0\0\x0c\x06\0\x01\0\0\0\x01\0\0\0",
        b"\x0b\0\0\0\x07\x06\0\x15\0\0\0",
    ),
    // three bytes from 1 on, and all that is left from 5 on
    (
        b"\x17\0\0\0\x74\x07\0\x02\0\0\0\x01\0\0\0\0\0\0\0\x03\0\0\0",
        b"\x0e\0\0\0\x75\x07\0\x03\0\0\0ell",
    ),
    (
        b"\x17\0\0\0\x74\x08\0\x02\0\0\0\x05\0\0\0\0\0\0\0\xff\xff\xff\xff",
        b"\x0b\0\0\0\x75\x08\0\0\0\0\0",
    ),
];

// Opens and reads that are refused.
const REFUSALS: [(&[u8], &[u8]); 15] = [
    // an attach of fid 1, and a walk to `f` as fid 2
    (
        b"\x17\0\0\0\x68\0\0\x01\0\0\0\xff\xff\xff\xff\0\0\0\0\0\0\0\0",
        b"\x14\0\0\0\x69\0\0\x80\0\x10\x5e\x5f\x01\0\0\0\0\0\0\0",
    ),
    (
        b"\x14\0\0\0\x6e\x01\0\x01\0\0\0\x02\0\0\0\x01\0\x01\0\x66",
        b"\x16\0\0\0\x6f\x01\0\x01\0\0\0\x10\x5e\x5f\x02\0\0\0\0\0\0\0",
    ),
    // fid 9 is unknown
    (
        b"\x0f\0\0\0\x0c\x02\0\x09\0\0\0\0\0\0\0",
        b"\x0b\0\0\0\x07\x02\0\x09\0\0\0",
    ),
    (
        b"\x17\0\0\0\x74\x03\0\x09\0\0\0\0\0\0\0\0\0\0\0\x05\0\0\0",
        b"\x0b\0\0\0\x07\x03\0\x09\0\0\0",
    ),
    // an access of 3, a file that is to be made anew, a file as a directory
    (
        b"\x0f\0\0\0\x0c\x04\0\x02\0\0\0\x03\0\0\0",
        b"\x0b\0\0\0\x07\x04\0\x16\0\0\0",
    ),
    (
        b"\x0f\0\0\0\x0c\x05\0\x02\0\0\0\xc0\0\0\0",
        b"\x0b\0\0\0\x07\x05\0\x11\0\0\0",
    ),
    (
        b"\x0f\0\0\0\x0c\x06\0\x02\0\0\0\0\0\x01\0",
        b"\x0b\0\0\0\x07\x06\0\x14\0\0\0",
    ),
    // after refusals it is not open
    (
        b"\x17\0\0\0\x74\x07\0\x02\0\0\0\0\0\0\0\0\0\0\0\x05\0\0\0",
        b"\x0b\0\0\0\x07\x07\0\x09\0\0\0",
    ),
    // a directory is opened to be read, but has no bytes
    (
        b"\x0f\0\0\0\x0c\x08\0\x01\0\0\0\0\0\0\0",
        b"\x18\0\0\0\x0d\x08\0\x80\0\x10\x5e\x5f\x01\0\0\0\0\0\0\0\0\0\0\0",
    ),
    (
        b"\x17\0\0\0\x74\x09\0\x01\0\0\0\0\0\0\0\0\0\0\0\x05\0\0\0",
        b"\x0b\0\0\0\x07\x09\0\x15\0\0\0",
    ),
    // what is open to be written is not read
    (
        b"\x0f\0\0\0\x0c\x0a\0\x02\0\0\0\x01\0\0\0",
        b"\x18\0\0\0\x0d\x0a\0\0\0\x10\x5e\x5f\x02\0\0\0\0\0\0\0\0\0\0\0",
    ),
    (
        b"\x17\0\0\0\x74\x0b\0\x02\0\0\0\0\0\0\0\0\0\0\0\x05\0\0\0",
        b"\x0b\0\0\0\x07\x0b\0\x09\0\0\0",
    ),
    // opened once more, for both, it is; a refusal leaves it open so
    (
        b"\x0f\0\0\0\x0c\x0c\0\x02\0\0\0\x02\0\0\0",
        b"\x18\0\0\0\x0d\x0c\0\0\0\x10\x5e\x5f\x02\0\0\0\0\0\0\0\0\0\0\0",
    ),
    (
        b"\x0f\0\0\0\x0c\x0d\0\x02\0\0\0\x03\0\0\0",
        b"\x0b\0\0\0\x07\x0d\0\x16\0\0\0",
    ),
    (
        b"\x17\0\0\0\x74\x0e\0\x02\0\0\0\0\0\0\0\0\0\0\0\x05\0\0\0",
        b"\x10\0\0\0\x75\x0e\0\x05\0\0\0\x68\x65\x6c\x6c\x6f",
    ),
];

// Fid 2 is the file `f`, opened to be read.
const BEFORE_READS: [(&[u8], &[u8]); 3] = [
    (
        b"\x17\0\0\0\x68\0\0\x01\0\0\0\xff\xff\xff\xff\0\0\0\0\0\0\0\0",
        b"\x14\0\0\0\x69\0\0\x80\0\x10\x5e\x5f\x01\0\0\0\0\0\0\0",
    ),
    (
        b"\x14\0\0\0\x6e\x01\0\x01\0\0\0\x02\0\0\0\x01\0\x01\0f",
        b"\x16\0\0\0\x6f\x01\0\x01\0\0\0\x10\x5e\x5f\x02\0\0\0\0\0\0\0",
    ),
    (
        b"\x0f\0\0\0\x0c\x05\0\x02\0\0\0\0\0\0\0",
        b"\x18\0\0\0\x0d\x05\0\0\0\x10\x5e\x5f\x02\0\0\0\0\0\0\0\0\0\0\0",
    ),
];

// What a file of 300 bytes tells in frames of 256 bytes: as many bytes as fit behind 11, and from
// there on the rest.
const READS: [(&[u8], &[u8], usize); 2] = [
    (
        b"\x17\0\0\0\x74\x03\0\x02\0\0\0\0\0\0\0\0\0\0\0\x2c\x01\0\0",
        b"\0\x01\0\0\x75\x03\0\xf5\0\0\0\x61",
        256,
    ),
    (
        b"\x17\0\0\0\x74\x04\0\x02\0\0\0\xf5\0\0\0\0\0\0\0\x2c\x01\0\0",
        b"\x42\0\0\0\x75\x04\0\x37\0\0\0\x61",
        66,
    ),
];

#[test]
fn a_file_is_opened_and_read(rt: HostRuntime) -> Result<(), Fail> {
    let alloc = rt.alloc();
    check(
        alloc,
        &mut server_of_a_file(alloc, b"hello", 65560)?,
        &OPENS,
    )
}

#[test]
fn opens_and_reads_are_refused(rt: HostRuntime) -> Result<(), Fail> {
    let alloc = rt.alloc();
    check(
        alloc,
        &mut server_of_a_file(alloc, b"hello", 65560)?,
        &REFUSALS,
    )
}

#[test]
fn a_read_fits_a_frame(rt: HostRuntime) -> Result<(), Fail> {
    let alloc = rt.alloc();
    let bytes = vec![in alloc; b'a'; 300]?;
    let mut server = server_of_a_file(alloc, &bytes, 256)?;
    check(alloc, &mut server, &BEFORE_READS)?;
    for (frame, head, length) in READS {
        let reply = reply_to(alloc, &mut server, frame)?;
        assert!(rt; reply.as_bytes().starts_with(head));
        assert_eq!(rt; reply.as_bytes().len(), length);
    }
    Ok(())
}
