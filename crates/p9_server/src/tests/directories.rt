// Entries of directories that are made, linked, moved and taken away, by the bytes of the messages.
use super::{check, server_of_a_file};
use std::test::Fail;

const NAMES: [(&[u8], &[u8]); 15] = [
    // an attach of fid 1, and a walk to `f`, as fid 2
    (
        b"\x17\0\0\0\x68\0\0\x01\0\0\0\xff\xff\xff\xff\0\0\0\0\0\0\0\0",
        b"\x14\0\0\0\x69\0\0\x80\0\x10\x5e\x5f\x01\0\0\0\0\0\0\0",
    ),
    (
        b"\x14\0\0\0\x6e\x01\0\x01\0\0\0\x02\0\0\0\x01\0\x01\0f",
        b"\x16\0\0\0\x6f\x01\0\x01\0\0\0\x10\x5e\x5f\x02\0\0\0\0\0\0\0",
    ),
    // the directory `d` is made, but not twice, and none is made above
    (
        b"\x16\0\0\0\x48\x01\0\x01\0\0\0\x01\0d\xed\x01\0\0\0\0\0\0",
        b"\x14\0\0\0\x49\x01\0\x80\0\xf1\x53\x65\x03\0\0\0\0\0\0\0",
    ),
    (
        b"\x16\0\0\0\x48\x02\0\x01\0\0\0\x01\0d\xed\x01\0\0\0\0\0\0",
        b"\x0b\0\0\0\x07\x02\0\x11\0\0\0",
    ),
    (
        b"\x17\0\0\0\x48\x03\0\x01\0\0\0\x02\0..\xed\x01\0\0\0\0\0\0",
        b"\x0b\0\0\0\x07\x03\0\x16\0\0\0",
    ),
    // the file gets the name `g`, which becomes `h`
    (
        b"\x12\0\0\0\x46\x04\0\x01\0\0\0\x02\0\0\0\x01\0g",
        b"\x07\0\0\0\x47\x04\0",
    ),
    (
        b"\x15\0\0\0\x4a\x05\0\x01\0\0\0\x01\0g\x01\0\0\0\x01\0h",
        b"\x07\0\0\0\x4b\x05\0",
    ),
    (
        b"\x15\0\0\0\x4a\x06\0\x01\0\0\0\x01\0g\x01\0\0\0\x01\0h",
        b"\x0b\0\0\0\x07\x06\0\x02\0\0\0",
    ),
    // it is taken away as a file's, not as a directory's, nor with other flags
    (
        b"\x12\0\0\0\x4c\x07\0\x01\0\0\0\x01\0h\0\x02\0\0",
        b"\x0b\0\0\0\x07\x07\0\x14\0\0\0",
    ),
    (
        b"\x12\0\0\0\x4c\x08\0\x01\0\0\0\x01\0h\x01\0\0\0",
        b"\x0b\0\0\0\x07\x08\0\x16\0\0\0",
    ),
    (
        b"\x12\0\0\0\x4c\x09\0\x01\0\0\0\x01\0h\0\0\0\0",
        b"\x07\0\0\0\x4d\x09\0",
    ),
    // the directory as a directory's
    (
        b"\x12\0\0\0\x4c\x0a\0\x01\0\0\0\x01\0d\0\0\0\0",
        b"\x0b\0\0\0\x07\x0a\0\x15\0\0\0",
    ),
    (
        b"\x12\0\0\0\x4c\x0b\0\x01\0\0\0\x01\0d\0\x02\0\0",
        b"\x07\0\0\0\x4d\x0b\0",
    ),
    // no symbolic link is made, and no special file
    (
        b"\x15\0\0\0\x10\x0c\0\x01\0\0\0\x01\0s\x01\0t\0\0\0\0",
        b"\x0b\0\0\0\x07\x0c\0\x0d\0\0\0",
    ),
    (
        b"\x1e\0\0\0\x12\x0d\0\x01\0\0\0\x01\0n\0\x20\0\0\x01\0\0\0\x03\0\0\0\0\0\0\0",
        b"\x0b\0\0\0\x07\x0d\0\x0d\0\0\0",
    ),
];

#[test]
fn names_are_given_moved_and_taken_away(rt: HostRuntime) -> Result<(), Fail> {
    let alloc = rt.alloc();
    check(
        alloc,
        &mut server_of_a_file(alloc, b"hello", 65560)?,
        &NAMES,
    )
}
