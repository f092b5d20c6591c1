use crate::attr::{FileAttr, FileType};
use crate::frames::{Next, next_frame};
use crate::ids::{Errno, FileHandle, INodeNo, RequestId};
use crate::listing::{DirEntListBuilder, ReplyDirectory};
use crate::reply::{
    reply_attr, reply_bytes, reply_created, reply_empty, reply_entry, reply_error, reply_init,
    reply_opened, reply_statfs,
};
use crate::request::{Body, ForgetOne, FuseRequest};
use port_base::memory::SliceSource;
use std::test::Fail;

// INIT, LOOKUP of `hello` in node 1, and GETATTR of node 2.
const FRAMES: [u8; 206] = [
    0x68, 0, 0, 0, 0x1a, 0, 0, 0, 1, 0, 0, 0, 0, 0, 0, 0, 0, 0, 0, 0, 0, 0, 0, 0, 0xe8, 3, 0, 0,
    0xe8, 3, 0, 0, 7, 0, 0, 0, 0, 0, 0, 0, 7, 0, 0, 0, 0x1f, 0, 0, 0, 0, 0, 2, 0, 0, 0, 0, 0, 0, 0,
    0, 0, 0, 0, 0, 0, 0, 0, 0, 0, 0, 0, 0, 0, 0, 0, 0, 0, 0, 0, 0, 0, 0, 0, 0, 0, 0, 0, 0, 0, 0, 0,
    0, 0, 0, 0, 0, 0, 0, 0, 0, 0, 0, 0, 0, 0, 0x2e, 0, 0, 0, 1, 0, 0, 0, 2, 0, 0, 0, 0, 0, 0, 0, 1,
    0, 0, 0, 0, 0, 0, 0, 0xe8, 3, 0, 0, 0xe8, 3, 0, 0, 7, 0, 0, 0, 0, 0, 0, 0, 0x68, 0x65, 0x6c,
    0x6c, 0x6f, 0, 0x38, 0, 0, 0, 3, 0, 0, 0, 3, 0, 0, 0, 0, 0, 0, 0, 2, 0, 0, 0, 0, 0, 0, 0, 0xe8,
    3, 0, 0, 0xe8, 3, 0, 0, 7, 0, 0, 0, 0, 0, 0, 0, 0, 0, 0, 0, 0, 0, 0, 0, 0, 0, 0, 0, 0, 0, 0, 0,
];

// Their replies for a file of six bytes.
const REPLIES: [u8; 344] = [
    0x50, 0, 0, 0, 0, 0, 0, 0, 1, 0, 0, 0, 0, 0, 0, 0, 7, 0, 0, 0, 0x1f, 0, 0, 0, 0, 0, 2, 0, 0, 0,
    0, 0, 0x0c, 0, 9, 0, 0, 0, 1, 0, 1, 0, 0, 0, 0, 0, 0, 0, 0, 0, 0, 0, 0, 0, 0, 0, 0, 0, 0, 0, 0,
    0, 0, 0, 0, 0, 0, 0, 0, 0, 0, 0, 0, 0, 0, 0, 0, 0, 0, 0, 0x90, 0, 0, 0, 0, 0, 0, 0, 2, 0, 0, 0,
    0, 0, 0, 0, 2, 0, 0, 0, 0, 0, 0, 0, 0, 0, 0, 0, 0, 0, 0, 0, 1, 0, 0, 0, 0, 0, 0, 0, 1, 0, 0, 0,
    0, 0, 0, 0, 0, 0, 0, 0, 0, 0, 0, 0, 2, 0, 0, 0, 0, 0, 0, 0, 6, 0, 0, 0, 0, 0, 0, 0, 1, 0, 0, 0,
    0, 0, 0, 0, 0, 0x10, 0x5e, 0x5f, 0, 0, 0, 0, 0, 0x10, 0x5e, 0x5f, 0, 0, 0, 0, 0, 0x10, 0x5e,
    0x5f, 0, 0, 0, 0, 0, 0, 0, 0, 0, 0, 0, 0, 0, 0, 0, 0, 0xa4, 0x81, 0, 0, 1, 0, 0, 0, 0xe8, 3, 0,
    0, 0xe8, 3, 0, 0, 0, 0, 0, 0, 0, 0x10, 0, 0, 0, 0, 0, 0, 0x78, 0, 0, 0, 0, 0, 0, 0, 3, 0, 0, 0,
    0, 0, 0, 0, 1, 0, 0, 0, 0, 0, 0, 0, 0, 0, 0, 0, 0, 0, 0, 0, 2, 0, 0, 0, 0, 0, 0, 0, 6, 0, 0, 0,
    0, 0, 0, 0, 1, 0, 0, 0, 0, 0, 0, 0, 0, 0x10, 0x5e, 0x5f, 0, 0, 0, 0, 0, 0x10, 0x5e, 0x5f, 0, 0,
    0, 0, 0, 0x10, 0x5e, 0x5f, 0, 0, 0, 0, 0, 0, 0, 0, 0, 0, 0, 0, 0, 0, 0, 0, 0xa4, 0x81, 0, 0, 1,
    0, 0, 0, 0xe8, 3, 0, 0, 0xe8, 3, 0, 0, 0, 0, 0, 0, 0, 0x10, 0, 0, 0, 0, 0, 0,
];

const FILE: FileAttr = FileAttr {
    ino: 2,
    size: 6,
    blocks: 1,
    atime: 1600000000,
    mtime: 1600000000,
    ctime: 1600000000,
    atimensec: 0,
    mtimensec: 0,
    ctimensec: 0,
    mode: 0o100644,
    nlink: 1,
    uid: 1000,
    gid: 1000,
    rdev: 0,
    blksize: 4096,
    flags: 0,
};

#[test]
fn a_look_up_and_its_attributes(rt: HostRuntime) -> Result<(), Fail> {
    let mut source = SliceSource::new(&FRAMES);
    let mut frame = Vec::new(rt.alloc());
    let mut replies = Vec::new(rt.alloc());
    for _ in 0..3 {
        assert_eq!(rt; next_frame(&mut source, &mut frame)?, Next::Frame);
        assert!(rt; frame.len() >= 40);
        replies.reserve(144)?;
        let request = FuseRequest::read(&frame)?;
        let unique = RequestId(request.head.unique);
        match request.body {
            Body::Init {
                major,
                minor,
                max_readahead,
                flags,
            } => {
                assert_eq!(rt; (major, flags), (7, 0));
                reply_init(&mut replies, unique, minor, max_readahead);
            }
            Body::Lookup { name } => {
                assert_eq!(rt; name, b"hello".as_slice());
                reply_entry(&mut replies, unique, INodeNo(2), &FILE);
            }
            Body::GetAttr { handle } => {
                assert_eq!(rt; handle, None);
                assert_eq!(rt; request.head.nodeid, 2);
                reply_attr(&mut replies, unique, &FILE);
            }
            _ => assert!(rt; false),
        }
    }
    assert_eq!(rt; next_frame(&mut source, &mut frame)?, Next::AtEnd);
    assert_eq!(rt; replies.as_slice(), REPLIES.as_slice());
    Ok(())
}

// READ of at most 9 bytes from 4 on of handle 2, by the owner 7 of a lock.
const READ: [u8; 40] = [
    2, 0, 0, 0, 0, 0, 0, 0, 4, 0, 0, 0, 0, 0, 0, 0, 9, 0, 0, 0, 2, 0, 0, 0, 7, 0, 0, 0, 0, 0, 0, 0,
    1, 0, 0, 0, 0, 0, 0, 0,
];

// The same without the flag of an owner.
const READ_UNLOCKED: [u8; 40] = [
    2, 0, 0, 0, 0, 0, 0, 0, 4, 0, 0, 0, 0, 0, 0, 0, 9, 0, 0, 0, 1, 0, 0, 0, 7, 0, 0, 0, 0, 0, 0, 0,
    1, 0, 0, 0, 0, 0, 0, 0,
];

// A handle and what RELEASE and FLUSH tell behind it, and a byte more than they have.
const HANDLE: [u8; 25] = [
    3, 1, 0, 0, 0, 0, 0, 0, 9, 9, 9, 9, 9, 9, 9, 9, 9, 9, 9, 9, 9, 9, 9, 9, 9,
];

// BATCH_FORGET of 3 of node 2 and of 258 of node 5, and a byte more than it has.
const BATCH: [u8; 41] = [
    2, 0, 0, 0, 9, 9, 9, 9, 2, 0, 0, 0, 0, 0, 0, 0, 3, 0, 0, 0, 0, 0, 0, 0, 5, 0, 0, 0, 0, 0, 0, 0,
    2, 1, 0, 0, 0, 0, 0, 0, 9,
];

#[test]
fn what_files_and_forgets_ask(rt: HostRuntime) -> Result<(), Fail> {
    let read = |lock| Body::Read {
        fh: 2,
        offset: 4,
        size: 9,
        flags: 1,
        lock,
    };
    let cases: [(u8, &[u8], Body<'_>); 12] = [
        (10, b"hello\0", Body::Unlink { name: b"hello" }),
        (
            27,
            b"\0\0\x01\0\x09\x09\x09\x09",
            Body::OpenDir { flags: 65536 },
        ),
        (
            28,
            &READ,
            Body::ReadDir {
                fh: 2,
                offset: 4,
                size: 9,
                flags: 1,
                lock: Some(7),
            },
        ),
        (29, &HANDLE[..24], Body::ReleaseDir { fh: 259 }),
        (
            14,
            b"\0\x80\0\0\x09\x09\x09\x09",
            Body::OpenFile { flags: 32768 },
        ),
        (15, &READ, read(Some(7))),
        (15, &READ_UNLOCKED, read(None)),
        (25, &HANDLE[..24], Body::Flush { fh: 259 }),
        (18, &HANDLE[..24], Body::Release { fh: 259 }),
        (2, b"\0\0\0\0\0\0\0\x01", Body::Forget { nlookup: 1 << 56 }),
        (
            42,
            b"\0\0\0\0\x09\x09\x09\x09",
            Body::BatchForget { pairs: b"" },
        ),
        (
            42,
            &BATCH[..40],
            Body::BatchForget {
                pairs: &BATCH[8..40],
            },
        ),
    ];
    for (opcode, body, want) in cases {
        let mut frame = Vec::from_slice(rt.alloc(), &[0; 40])?;
        frame[4] = opcode;
        frame.extend_from_slice(body)?;
        assert_eq!(rt; FuseRequest::read(&frame)?.body, want);
    }
    Ok(())
}

#[test]
fn bodies_of_another_length_are_refused(rt: HostRuntime) -> Result<(), Fail> {
    let cases: [(u8, &[u8]); 24] = [
        (10, b"hello"),
        (10, b"hello\0\0"),
        (27, &HANDLE[..7]),
        (27, &HANDLE[..9]),
        (28, &READ[..39]),
        (28, &BATCH),
        (29, &HANDLE[..23]),
        (29, &HANDLE),
        (14, &HANDLE[..7]),
        (14, &HANDLE[..9]),
        (15, &READ[..39]),
        (15, &BATCH),
        (25, &HANDLE[..23]),
        (25, &HANDLE),
        (18, &HANDLE[..23]),
        (18, &HANDLE),
        (2, &HANDLE[..7]),
        (2, &HANDLE[..9]),
        (42, &BATCH[..7]),
        (42, &BATCH[..8]),
        (42, &BATCH[..24]),
        (42, &BATCH[..39]),
        (42, &BATCH),
        // 16 times 2^28 and 1 is 16 in 32 bits.
        (
            42,
            b"\x01\0\0\x10\0\0\0\0\x02\0\0\0\0\0\0\0\x03\0\0\0\0\0\0\0",
        ),
    ];
    for (opcode, body) in cases {
        let mut frame = Vec::from_slice(rt.alloc(), &[0; 40])?;
        frame[4] = opcode;
        frame.extend_from_slice(body)?;
        assert_eq!(rt; FuseRequest::read(&frame).err(), Some(Errno(22)));
    }
    Ok(())
}

// RENAME2 by flag 1 of `a` to `b` in node 7, and a byte more than it has.
const RENAME2: [u8; 21] = [
    7, 0, 0, 0, 0, 0, 0, 0, 1, 0, 0, 0, 9, 9, 9, 9, 0x61, 0, 0x62, 0, 0,
];

// MKNOD of `p`, a pipe for all, and a byte more than it has.
const MKNOD: [u8; 19] = [
    0xa4, 0x11, 0, 0, 3, 1, 0, 0, 0x12, 0, 0, 0, 9, 9, 9, 9, 0x70, 0, 0,
];

#[test]
fn what_names_links_and_ends_ask(rt: HostRuntime) -> Result<(), Fail> {
    let cases: [(u8, &[u8], Body<'_>); 14] = [
        (11, b"d\0", Body::RmDir { name: b"d" }),
        (
            12,
            b"\x07\0\0\0\0\0\0\0a\0\0",
            Body::Rename {
                newdir: 7,
                old: b"a",
                new: b"",
            },
        ),
        (
            45,
            &RENAME2[..20],
            Body::Rename2 {
                newdir: 7,
                flags: 1,
                old: b"a",
                new: b"b",
            },
        ),
        (
            6,
            b"l\0a/b\0",
            Body::Symlink {
                name: b"l",
                target: b"a/b",
            },
        ),
        (
            8,
            &MKNOD[..18],
            Body::MkNod {
                mode: 4516,
                rdev: 259,
                name: b"p",
            },
        ),
        (
            9,
            b"\xed\x01\0\0\x12\0\0\0d\0",
            Body::MkDir {
                mode: 493,
                name: b"d",
            },
        ),
        (
            13,
            b"\x07\0\0\0\0\0\0\0l\0",
            Body::Link { old: 7, name: b"l" },
        ),
        (
            35,
            b"\x41\x02\0\0\xa4\x01\0\0\x12\0\0\0\0\0\0\0f\0",
            Body::Create {
                flags: 0x241,
                mode: 0o644,
                name: b"f",
            },
        ),
        (5, b"", Body::ReadLink),
        (17, b"", Body::StatFs),
        (
            20,
            &HANDLE[..16],
            Body::FSync {
                fh: 259,
                flags: 0x0909_0909,
            },
        ),
        (30, &READ[..16], Body::FSyncDir { fh: 2, flags: 4 }),
        (36, &HANDLE[..8], Body::Interrupt),
        (38, b"", Body::Destroy),
    ];
    for (opcode, body, want) in cases {
        let mut frame = Vec::from_slice(rt.alloc(), &[0; 40])?;
        frame[4] = opcode;
        frame.extend_from_slice(body)?;
        assert_eq!(rt; FuseRequest::read(&frame)?.body, want);
    }
    Ok(())
}

#[test]
fn other_bodies_of_names_links_and_ends_are_refused(rt: HostRuntime) -> Result<(), Fail> {
    let cases: [(u8, &[u8]); 32] = [
        (11, b"d"),
        (11, b"d\0\0"),
        (12, b"\x07\0\0\0\0\0\0"),
        (12, b"\x07\0\0\0\0\0\0\0"),
        (12, b"\x07\0\0\0\0\0\0\0a\0"),
        (12, b"\x07\0\0\0\0\0\0\0a\0b"),
        (12, b"\x07\0\0\0\0\0\0\0a\0b\0\0"),
        (45, &RENAME2[..15]),
        (45, &RENAME2[..18]),
        (45, &RENAME2[..19]),
        (45, &RENAME2),
        (6, b""),
        (6, b"l\0"),
        (6, b"l\0a/b"),
        (6, b"l\0a/b\0\0"),
        (8, &MKNOD[..15]),
        (8, &MKNOD[..17]),
        (8, &MKNOD),
        (9, b"\xed\x01\0\0\x12\0\0"),
        (9, b"\xed\x01\0\0\x12\0\0\0d"),
        (9, b"\xed\x01\0\0\x12\0\0\0d\0\0"),
        (13, b"\x07\0\0\0\0\0\0\0l"),
        (13, b"\x07\0\0\0\0\0\0\0l\0\0"),
        (35, b"\x41\x02\0\0\xa4\x01\0\0\x12\0\0\0\0\0\0\0f"),
        (35, b"\x41\x02\0\0\xa4\x01\0\0\x12\0\0\0\0\0\0"),
        (5, b"\0"),
        (17, b"\0"),
        (20, &HANDLE[..15]),
        (20, &HANDLE[..17]),
        (30, &HANDLE[..15]),
        (36, &HANDLE[..7]),
        (38, b"\0"),
    ];
    for (opcode, body) in cases {
        let mut frame = Vec::from_slice(rt.alloc(), &[0; 40])?;
        frame[4] = opcode;
        frame.extend_from_slice(body)?;
        assert_eq!(rt; FuseRequest::read(&frame).err(), Some(Errno(22)));
    }
    Ok(())
}

#[test]
fn pairs_of_a_batch(rt: HostRuntime) -> Result<(), Fail> {
    let cases = [(8, 2, 3), (24, 5, 258)];
    for (at, nodeid, nlookup) in cases {
        let pair = ForgetOne { nodeid, nlookup };
        assert_eq!(rt; ForgetOne::read(&BATCH[at..at + 16]), pair);
        assert_eq!(rt; ForgetOne::read(&BATCH[at..]), pair);
    }
    Ok(())
}

#[test]
fn short_replies(rt: HostRuntime) -> Result<(), Fail> {
    let mut out = Vec::new(rt.alloc());
    out.reserve(16)?;
    reply_empty(&mut out, RequestId(3));
    out.reserve(21)?;
    reply_bytes(&mut out, RequestId(4), b"hello");
    out.reserve(16)?;
    reply_bytes(&mut out, RequestId(5), b"");
    out.reserve(32)?;
    reply_opened(&mut out, RequestId(1 << 56), FileHandle(259));
    out.reserve(96)?;
    reply_statfs(&mut out, RequestId(6), 4096, 256, 65536);
    let want = [
        16, 0, 0, 0, 0, 0, 0, 0, 3, 0, 0, 0, 0, 0, 0, 0, 21, 0, 0, 0, 0, 0, 0, 0, 4, 0, 0, 0, 0, 0,
        0, 0, 0x68, 0x65, 0x6c, 0x6c, 0x6f, 16, 0, 0, 0, 0, 0, 0, 0, 5, 0, 0, 0, 0, 0, 0, 0, 32, 0,
        0, 0, 0, 0, 0, 0, 0, 0, 0, 0, 0, 0, 0, 1, 3, 1, 0, 0, 0, 0, 0, 0, 0, 0, 0, 0, 0, 0, 0, 0,
        96, 0, 0, 0, 0, 0, 0, 0, 6, 0, 0, 0, 0, 0, 0, 0, 0, 1, 0, 0, 0, 0, 0, 0, 0, 1, 0, 0, 0, 0,
        0, 0, 0, 1, 0, 0, 0, 0, 0, 0, 0, 0, 1, 0, 0, 0, 0, 0, 0, 0, 1, 0, 0, 0, 0, 0, 0, 16, 0, 0,
        255, 0, 0, 0, 0, 16, 0, 0, 0, 0, 0, 0, 0, 0, 0, 0, 0, 0, 0, 0, 0, 0, 0, 0, 0, 0, 0, 0, 0,
        0, 0, 0, 0, 0, 0, 0,
    ];
    assert_eq!(rt; out.as_slice(), want.as_slice());
    Ok(())
}

#[test]
fn a_file_is_entered_with_its_handle(rt: HostRuntime) -> Result<(), Fail> {
    let mut entered = Vec::new(rt.alloc());
    entered.reserve(144)?;
    reply_entry(&mut entered, RequestId(2), INodeNo(2), &FILE);
    let mut out = Vec::new(rt.alloc());
    out.reserve(160)?;
    reply_created(&mut out, RequestId(2), INodeNo(2), &FILE, FileHandle(3));
    assert_eq!(rt; entered.len(), 144);
    let mut want = Vec::from_slice(rt.alloc(), &[160, 0, 0, 0])?;
    want.extend_from_slice(&entered[4..])?;
    want.extend_from_slice(&[3, 0, 0, 0, 0, 0, 0, 0, 0, 0, 0, 0, 0, 0, 0, 0])?;
    assert_eq!(rt; out.as_slice(), want.as_slice());
    Ok(())
}

#[test]
fn entries_fill_a_listing(rt: HostRuntime) -> Result<(), Fail> {
    let cases: [(u64, FileType, &[u8], bool); 4] = [
        (2, FileType::Directory, b"hello", false),
        (3, FileType::Symlink, b"hellohel", false),
        (4, FileType::RegularFile, b"hellohell", true),
        (5, FileType::RegularFile, b"", false),
    ];
    let mut listing = ReplyDirectory::new(rt.alloc(), 95)?;
    let mut builder = DirEntListBuilder::new(&mut listing);
    for (number, kind, name, is_full) in cases {
        assert_eq!(rt;
            builder.add(INodeNo(number), number + 256, kind, name),
            is_full
        );
    }
    let want = [
        2, 0, 0, 0, 0, 0, 0, 0, 2, 1, 0, 0, 0, 0, 0, 0, 5, 0, 0, 0, 4, 0, 0, 0, 0x68, 0x65, 0x6c,
        0x6c, 0x6f, 0, 0, 0, 3, 0, 0, 0, 0, 0, 0, 0, 3, 1, 0, 0, 0, 0, 0, 0, 8, 0, 0, 0, 10, 0, 0,
        0, 0x68, 0x65, 0x6c, 0x6c, 0x6f, 0x68, 0x65, 0x6c, 5, 0, 0, 0, 0, 0, 0, 0, 5, 1, 0, 0, 0,
        0, 0, 0, 0, 0, 0, 0, 8, 0, 0, 0,
    ];
    assert_eq!(rt; listing.as_bytes(), want.as_slice());
    assert_eq!(rt; listing.into_bytes().as_slice(), want.as_slice());
    Ok(())
}

#[test]
fn what_is_refused_tells_why(rt: HostRuntime) -> Result<(), Fail> {
    let handle = [0, 0, 0, 0, 9, 9, 9, 9, 5, 0, 0, 0, 0, 0, 0, 0];
    let cases: [(u8, &[u8], Option<Errno>); 10] = [
        (1, b"hello\0", None),
        (1, b"\0", None),
        (1, b"", Some(Errno(22))),
        (1, b"hello", Some(Errno(22))),
        (1, b"hel\0lo\0", Some(Errno(22))),
        (3, &handle, None),
        (3, &handle[..15], Some(Errno(22))),
        (26, &handle[..15], Some(Errno(22))),
        (26, &handle, None),
        (77, b"", Some(Errno(38))),
    ];
    for (opcode, body, want) in cases {
        let mut frame = Vec::from_slice(rt.alloc(), &[0; 40])?;
        frame[4] = opcode;
        frame.extend_from_slice(body)?;
        assert_eq!(rt; FuseRequest::read(&frame).err(), want);
    }
    let mut out = Vec::with_capacity(rt.alloc(), 16)?;
    reply_error(&mut out, RequestId(3), Errno(2));
    assert_eq!(rt;
        out.as_slice(),
        [16, 0, 0, 0, 0xfe, 0xff, 0xff, 0xff, 3, 0, 0, 0, 0, 0, 0, 0].as_slice()
    );
    Ok(())
}

#[test]
fn a_source_ends_anywhere(rt: HostRuntime) -> Result<(), Fail> {
    let cases: [(&[u8], Next); 7] = [
        (b"", Next::AtEnd),
        (b"\x28\0\0", Next::Part),
        (b"\x27\0\0\0", Next::OddLength),
        (b"\x28\0\0\0", Next::Part),
        (b"\0\x10\x01\0\x01", Next::Part),
        (b"\x01\x10\x01\0", Next::OddLength),
        (b"\xff\xff\xff\xff", Next::OddLength),
    ];
    let mut frame = Vec::new(rt.alloc());
    for (bytes, want) in cases {
        assert_eq!(rt; next_frame(&mut SliceSource::new(bytes), &mut frame)?, want);
    }
    Ok(())
}
