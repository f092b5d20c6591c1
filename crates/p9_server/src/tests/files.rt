// Files that are made, written, cut and emptied, and links, by the bytes of the messages.
use super::{check, server_of_a_file, server_of_a_link};
use std::test::Fail;

const CHANGES: [(&[u8], &[u8]); 13] = [
    // an attach of fid 1, and fid 2 for the same directory
    (
        b"\x17\0\0\0\x68\0\0\x01\0\0\0\xff\xff\xff\xff\0\0\0\0\0\0\0\0",
        b"\x14\0\0\0\x69\0\0\x80\0\x10\x5e\x5f\x01\0\0\0\0\0\0\0",
    ),
    (
        b"\x11\0\0\0\x6e\x01\0\x01\0\0\0\x02\0\0\0\0\0",
        b"\x09\0\0\0\x6f\x01\0\0\0",
    ),
    // no second `f` is made
    (
        b"\x1a\0\0\0\x0e\x02\0\x02\0\0\0\x01\0f\x02\0\0\0\xa4\x01\0\0\0\0\0\0",
        b"\x0b\0\0\0\x07\x02\0\x11\0\0\0",
    ),
    // fid 2 becomes the new file `n`, open to read and write
    (
        b"\x1a\0\0\0\x0e\x03\0\x02\0\0\0\x01\0n\x02\0\0\0\xa4\x01\0\0\0\0\0\0",
        b"\x18\0\0\0\x0f\x03\0\0\0\xf1\x53\x65\x03\0\0\0\0\0\0\0\0\0\0\0",
    ),
    // it is no directory now
    (
        b"\x1a\0\0\0\x0e\x04\0\x02\0\0\0\x01\0m\x02\0\0\0\xa4\x01\0\0\0\0\0\0",
        b"\x0b\0\0\0\x07\x04\0\x14\0\0\0",
    ),
    // three bytes are written, and the last two read
    (
        b"\x1a\0\0\0\x76\x05\0\x02\0\0\0\0\0\0\0\0\0\0\0\x03\0\0\0hey",
        b"\x0b\0\0\0\x77\x05\0\x03\0\0\0",
    ),
    (
        b"\x17\0\0\0\x74\x06\0\x02\0\0\0\x01\0\0\0\0\0\0\0\x05\0\0\0",
        b"\x0d\0\0\0\x75\x06\0\x02\0\0\0ey",
    ),
    // the file is cut to one byte; a directory is not
    (
        b"\x43\0\0\0\x1a\x07\0\x02\0\0\0\x08\0\0\0\0\0\0\0\0\0\0\0\0\0\0\0\x01\0\0\0\0\0\0\0\0\0\0\0\0\0\0\0\0\0\0\0\0\0\0\0\0\0\0\0\0\0\0\0\0\0\0\0\0\0\0\0",
        b"\x07\0\0\0\x1b\x07\0",
    ),
    (
        b"\x43\0\0\0\x1a\x08\0\x01\0\0\0\x08\0\0\0\0\0\0\0\0\0\0\0\0\0\0\0\x01\0\0\0\0\0\0\0\0\0\0\0\0\0\0\0\0\0\0\0\0\0\0\0\0\0\0\0\0\0\0\0\0\0\0\0\0\0\0\0",
        b"\x0b\0\0\0\x07\x08\0\x15\0\0\0",
    ),
    (
        b"\x17\0\0\0\x74\x09\0\x02\0\0\0\0\0\0\0\0\0\0\0\x05\0\0\0",
        b"\x0c\0\0\0\x75\x09\0\x01\0\0\0h",
    ),
    // an open with O_TRUNC empties it
    (
        b"\x0f\0\0\0\x0c\x0a\0\x02\0\0\0\0\x02\0\0",
        b"\x18\0\0\0\x0d\x0a\0\0\0\xf1\x53\x65\x03\0\0\0\0\0\0\0\0\0\0\0",
    ),
    (
        b"\x17\0\0\0\x74\x0b\0\x02\0\0\0\0\0\0\0\0\0\0\0\x05\0\0\0",
        b"\x0b\0\0\0\x75\x0b\0\0\0\0\0",
    ),
    // open to read alone it isn't written
    (
        b"\x18\0\0\0\x76\x0c\0\x02\0\0\0\0\0\0\0\0\0\0\0\x01\0\0\0x",
        b"\x0b\0\0\0\x07\x0c\0\x09\0\0\0",
    ),
];

// Fid 1 is the top, fid 2 the link `f`, whose target is told.
const TARGET: [(&[u8], &[u8]); 3] = [
    (
        b"\x17\0\0\0\x68\0\0\x01\0\0\0\xff\xff\xff\xff\0\0\0\0\0\0\0\0",
        b"\x14\0\0\0\x69\0\0\x80\0\x10\x5e\x5f\x01\0\0\0\0\0\0\0",
    ),
    (
        b"\x14\0\0\0\x6e\x01\0\x01\0\0\0\x02\0\0\0\x01\0\x01\0f",
        b"\x16\0\0\0\x6f\x01\0\x01\0\x02\0\x10\x5e\x5f\x02\0\0\0\0\0\0\0",
    ),
    (
        b"\x0b\0\0\0\x16\x02\0\x02\0\0\0",
        b"\x0d\0\0\0\x17\x02\0\x04\0a/gh",
    ),
];

#[test]
fn a_file_is_made_and_changed(rt: HostRuntime) -> Result<(), Fail> {
    let alloc = rt.alloc();
    check(
        alloc,
        &mut server_of_a_file(alloc, b"hello", 65560)?,
        &CHANGES,
    )
}

#[test]
fn a_link_tells_its_target(rt: HostRuntime) -> Result<(), Fail> {
    let alloc = rt.alloc();
    check(alloc, &mut server_of_a_link(alloc)?, &TARGET)
}
