//! Fids come and go, and a session begins anew.
use super::{check, server_of_a_file};
use crate::Nine;
use std::test::Fail;

// Frames and their replies: fids are made, refused and let go.
const FRAMES: [(&[u8], &[u8]); 7] = [
    // a clunk with a byte too many
    (
        b"\x0c\0\0\0\x78\x05\0\x01\0\0\0\xaa",
        b"\x0b\0\0\0\x07\x05\0\x16\0\0\0",
    ),
    // an attach of fid 1, and another
    (
        b"\x17\0\0\0\x68\0\0\x01\0\0\0\xff\xff\xff\xff\0\0\0\0\0\0\0\0",
        b"\x14\0\0\0\x69\0\0\x80\0\x10\x5e\x5f\x01\0\0\0\0\0\0\0",
    ),
    (
        b"\x17\0\0\0\x68\0\0\x01\0\0\0\xff\xff\xff\xff\0\0\0\0\0\0\0\0",
        b"\x0b\0\0\0\x07\0\0\x09\0\0\0",
    ),
    // a walk to `nope`
    (
        b"\x17\0\0\0\x6e\x01\0\x01\0\0\0\x02\0\0\0\x01\0\x04\0nope",
        b"\x0b\0\0\0\x07\x01\0\x02\0\0\0",
    ),
    // a walk of no names, to fid 2
    (
        b"\x11\0\0\0\x6e\x01\0\x01\0\0\0\x02\0\0\0\0\0",
        b"\x09\0\0\0\x6f\x01\0\0\0",
    ),
    // a walk to two dots
    (
        b"\x15\0\0\0\x6e\x01\0\x01\0\0\0\x03\0\0\0\x01\0\x02\0..",
        b"\x0b\0\0\0\x07\x01\0\x16\0\0\0",
    ),
    // a clunk of fid 1
    (b"\x0b\0\0\0\x78\x02\0\x01\0\0\0", b"\x07\0\0\0\x79\x02\0"),
];

// A session: what is agreed, locks, sizes, and what is answered at once.
const SESSION: [(&[u8], &[u8]); 14] = [
    // frames of at most 8192 bytes
    (
        b"\x15\0\0\0\x64\xff\xff\0\x20\0\0\x08\x009P2000.L",
        b"\x15\0\0\0\x65\xff\xff\0\x20\0\0\x08\x009P2000.L",
    ),
    // an attach of fid 1, which is opened
    (
        b"\x17\0\0\0\x68\0\0\x01\0\0\0\xff\xff\xff\xff\0\0\0\0\0\0\0\0",
        b"\x14\0\0\0\x69\0\0\x80\0\x10\x5e\x5f\x01\0\0\0\0\0\0\0",
    ),
    // no lock of a fid that isn't open
    (
        b"\x28\0\0\0\x34\x01\0\x01\0\0\0\x01\0\0\0\0\x03\0\0\0\0\0\0\0\x09\0\0\0\0\0\0\0\x4d\0\0\0\x02\0me",
        b"\x0b\0\0\0\x07\x01\0\x09\0\0\0",
    ),
    (
        b"\x0f\0\0\0\x0c\x02\0\x01\0\0\0\0\0\0\0",
        b"\x18\0\0\0\x0d\x02\0\x80\0\x10\x5e\x5f\x01\0\0\0\0\0\0\0\0\0\0\0",
    ),
    // a lock, and whether one stands in its way
    (
        b"\x28\0\0\0\x34\x03\0\x01\0\0\0\x01\0\0\0\0\x03\0\0\0\0\0\0\0\x09\0\0\0\0\0\0\0\x4d\0\0\0\x02\0me",
        b"\x08\0\0\0\x35\x03\0\0",
    ),
    (
        b"\x24\0\0\0\x36\x04\0\x01\0\0\0\x01\x03\0\0\0\0\0\0\0\x09\0\0\0\0\0\0\0\x4d\0\0\0\x02\0me",
        b"\x20\0\0\0\x37\x04\0\x02\x03\0\0\0\0\0\0\0\x09\0\0\0\0\0\0\0\x4d\0\0\0\x02\0me",
    ),
    // 256 blocks, 65536 files
    (
        b"\x0b\0\0\0\x08\x05\0\x01\0\0\0",
        b"\x43\0\0\0\x09\x05\0\0\0\0\0\0\x10\0\0\0\x01\0\0\0\0\0\0\0\x01\0\0\0\0\0\0\0\x01\0\0\0\0\0\0\0\0\x01\0\0\0\0\0\0\0\x01\0\0\0\0\0\0\0\0\0\0\0\0\0\xff\0\0\0",
    ),
    (
        b"\x0f\0\0\0\x32\x06\0\x01\0\0\0\0\0\0\0",
        b"\x07\0\0\0\x33\x06\0",
    ),
    // a directory has no target
    (
        b"\x0b\0\0\0\x16\x07\0\x01\0\0\0",
        b"\x0b\0\0\0\x07\x07\0\x16\0\0\0",
    ),
    // a flush, and a message that is never served
    (b"\x09\0\0\0\x6c\x08\0\x07\0", b"\x07\0\0\0\x6d\x08\0"),
    (
        b"\x0b\0\0\0\x7a\x09\0\x01\0\0\0",
        b"\x0b\0\0\0\x07\x09\0\x5f\0\0\0",
    ),
    // frames that are too small, and another protocol, after which there is no fid
    (
        b"\x15\0\0\0\x64\xff\xff\xff\0\0\0\x08\x009P2000.L",
        b"\x0b\0\0\0\x07\xff\xff\x16\0\0\0",
    ),
    (
        b"\x15\0\0\0\x64\xff\xff\x18\0\x01\0\x08\x009P2000.u",
        b"\x14\0\0\0\x65\xff\xff\0\x20\0\0\x07\0unknown",
    ),
    (
        b"\x0b\0\0\0\x78\x02\0\x01\0\0\0",
        b"\x0b\0\0\0\x07\x02\0\x09\0\0\0",
    ),
];

#[test]
fn a_server_answers_frames(rt: HostRuntime) -> Result<(), Fail> {
    let alloc = rt.alloc();
    let mut server = server_of_a_file(alloc, b"hello", 65560)?;
    check(alloc, &mut server, &FRAMES)?;
    assert_eq!(rt; server.fid_count(), 1);
    server.clear_fids();
    assert_eq!(rt; server.fid_count(), 0);
    let _host = server.into_host();
    Ok(())
}

#[test]
fn a_session_begins_anew(rt: HostRuntime) -> Result<(), Fail> {
    let alloc = rt.alloc();
    check(
        alloc,
        &mut server_of_a_file(alloc, b"hello", 65560)?,
        &SESSION,
    )
}
