// Frames without a body, a frame of each type that no other table has, and a name that is changed
// under an open fid.
use super::{check, reply_to, server_of_a_file};
use std::test::Fail;

// The types of messages.
const TYPES: [u8; 28] = [
    8, 12, 14, 16, 18, 20, 22, 24, 26, 30, 32, 40, 50, 52, 54, 70, 72, 74, 76, 100, 102, 104, 108,
    110, 116, 118, 120, 122,
];

// Messages that are refused by a server of a tree: Tauth, Trename, Txattrwalk and Txattrcreate.
const UNSERVED: [(&[u8], &[u8]); 5] = [
    // an attach of fid 1
    (
        b"\x17\0\0\0\x68\0\0\x01\0\0\0\xff\xff\xff\xff\0\0\0\0\0\0\0\0",
        b"\x14\0\0\0\x69\0\0\x80\0\x10\x5e\x5f\x01\0\0\0\0\0\0\0",
    ),
    (
        b"\x13\0\0\0\x66\x01\0\x05\0\0\0\0\0\0\0\0\0\0\0",
        b"\x0b\0\0\0\x07\x01\0\x5f\0\0\0",
    ),
    (
        b"\x12\0\0\0\x14\x02\0\x01\0\0\0\x01\0\0\0\x01\0g",
        b"\x0b\0\0\0\x07\x02\0\x5f\0\0\0",
    ),
    (
        b"\x12\0\0\0\x1e\x03\0\x01\0\0\0\x05\0\0\0\x01\0x",
        b"\x0b\0\0\0\x07\x03\0\x5f\0\0\0",
    ),
    (
        b"\x1a\0\0\0\x20\x04\0\x01\0\0\0\x01\0x\0\0\0\0\0\0\0\0\0\0\0\0",
        b"\x0b\0\0\0\x07\x04\0\x5f\0\0\0",
    ),
];

// Fid 2 is the file `f`, open to be read: it stays the same file.
const RENAMED: [(&[u8], &[u8]); 10] = [
    (
        b"\x17\0\0\0\x68\0\0\x01\0\0\0\xff\xff\xff\xff\0\0\0\0\0\0\0\0",
        b"\x14\0\0\0\x69\0\0\x80\0\x10\x5e\x5f\x01\0\0\0\0\0\0\0",
    ),
    (
        b"\x14\0\0\0\x6e\x01\0\x01\0\0\0\x02\0\0\0\x01\0\x01\0f",
        b"\x16\0\0\0\x6f\x01\0\x01\0\0\0\x10\x5e\x5f\x02\0\0\0\0\0\0\0",
    ),
    (
        b"\x0f\0\0\0\x0c\x02\0\x02\0\0\0\0\0\0\0",
        b"\x18\0\0\0\x0d\x02\0\0\0\x10\x5e\x5f\x02\0\0\0\0\0\0\0\0\0\0\0",
    ),
    // `f` becomes `g`, and a directory gets the name `f`
    (
        b"\x15\0\0\0\x4a\x03\0\x01\0\0\0\x01\0f\x01\0\0\0\x01\0g",
        b"\x07\0\0\0\x4b\x03\0",
    ),
    (
        b"\x16\0\0\0\x48\x04\0\x01\0\0\0\x01\0f\xed\x01\0\0\0\0\0\0",
        b"\x14\0\0\0\x49\x04\0\x80\0\xf1\x53\x65\x03\0\0\0\0\0\0\0",
    ),
    // the fid is read, and is what a walk to `g` tells
    (
        b"\x17\0\0\0\x74\x05\0\x02\0\0\0\0\0\0\0\0\0\0\0\x05\0\0\0",
        b"\x10\0\0\0\x75\x05\0\x05\0\0\0hello",
    ),
    (
        b"\x14\0\0\0\x6e\x06\0\x01\0\0\0\x03\0\0\0\x01\0\x01\0g",
        b"\x16\0\0\0\x6f\x06\0\x01\0\0\0\x10\x5e\x5f\x02\0\0\0\0\0\0\0",
    ),
    // also without any name
    (
        b"\x12\0\0\0\x4c\x07\0\x01\0\0\0\x01\0g\0\0\0\0",
        b"\x07\0\0\0\x4d\x07\0",
    ),
    (
        b"\x17\0\0\0\x74\x08\0\x02\0\0\0\0\0\0\0\0\0\0\0\x05\0\0\0",
        b"\x10\0\0\0\x75\x08\0\x05\0\0\0hello",
    ),
    (
        b"\x14\0\0\0\x6e\x09\0\x01\0\0\0\x04\0\0\0\x01\0\x01\0g",
        b"\x0b\0\0\0\x07\x09\0\x02\0\0\0",
    ),
];

#[test]
fn a_frame_without_a_body_is_malformed(rt: HostRuntime) -> Result<(), Fail> {
    let alloc = rt.alloc();
    let mut server = server_of_a_file(alloc, b"hello", 65560)?;
    for kind in TYPES {
        let frame = [7, 0, 0, 0, kind, 1, 0];
        let reply = reply_to(alloc, &mut server, &frame)?;
        assert_eq!(rt;
            reply.as_bytes(),
            b"\x0b\0\0\0\x07\x01\0\x16\0\0\0".as_slice()
        );
    }
    Ok(())
}

#[test]
fn messages_are_refused(rt: HostRuntime) -> Result<(), Fail> {
    let alloc = rt.alloc();
    check(
        alloc,
        &mut server_of_a_file(alloc, b"hello", 65560)?,
        &UNSERVED,
    )
}

#[test]
fn an_open_fid_stays_the_same_file(rt: HostRuntime) -> Result<(), Fail> {
    let alloc = rt.alloc();
    check(
        alloc,
        &mut server_of_a_file(alloc, b"hello", 65560)?,
        &RENAMED,
    )
}
