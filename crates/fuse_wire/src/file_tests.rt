//! Requests that change files, and the reply that tells how much was written.
use crate::ids::{Errno, RequestId};
use crate::reply::reply_written;
use crate::request::{Body, FuseRequest};
use crate::setattr::SetAttrIn;
use std::test::Fail;

// SETATTR of mode, size and the time of access, by a handle, and a byte more than it has.
const SETATTR: [u8; 89] = [
    0xd9, 0, 0, 0, 9, 9, 9, 9, 4, 0, 0, 0, 0, 0, 0, 0, 6, 1, 0, 0, 0, 0, 0, 0, 7, 0, 0, 0, 0, 0, 0,
    0, 8, 0, 0, 0, 0, 0, 0, 0, 9, 0, 0, 0, 0, 0, 0, 0, 10, 0, 0, 0, 0, 0, 0, 0, 1, 0, 0, 0, 2, 0,
    0, 0, 3, 0, 0, 0, 0xa4, 1, 0, 0, 9, 9, 9, 9, 5, 0, 0, 0, 11, 0, 0, 0, 9, 9, 9, 9, 0,
];

// WRITE of `hello` from 4 on of handle 2, and a byte more than it has.
const WRITE: [u8; 46] = [
    2, 0, 0, 0, 0, 0, 0, 0, 4, 0, 0, 0, 0, 0, 0, 0, 5, 0, 0, 0, 9, 9, 9, 9, 7, 0, 0, 0, 0, 0, 0, 0,
    1, 0, 0, 0, 9, 9, 9, 9, 0x68, 0x65, 0x6c, 0x6c, 0x6f, 0,
];

#[test]
fn what_changes_of_files_ask(rt: HostRuntime) -> Result<(), Fail> {
    let set = SetAttrIn {
        valid: 217,
        fh: 4,
        size: 262,
        lock_owner: 7,
        atime: 8,
        mtime: 9,
        ctime: 10,
        atimensec: 1,
        mtimensec: 2,
        ctimensec: 3,
        mode: 420,
        uid: 5,
        gid: 11,
    };
    let write = Body::Write {
        fh: 2,
        offset: 4,
        bytes: b"hello",
    };
    let cases: [(u8, &[u8], Result<Body<'_>, Errno>); 6] = [
        (4, &SETATTR[..88], Ok(Body::SetAttr(set))),
        (4, &SETATTR[..87], Err(Errno(22))),
        (4, &SETATTR, Err(Errno(22))),
        (16, &WRITE[..45], Ok(write)),
        (16, &WRITE[..39], Err(Errno(22))),
        (16, &WRITE, Err(Errno(22))),
    ];
    for (opcode, body, want) in cases {
        let mut frame = Vec::from_slice(rt.alloc(), &[0; 40])?;
        frame[4] = opcode;
        frame.extend_from_slice(body)?;
        assert_eq!(rt; FuseRequest::read(&frame).map(|request| request.body), want);
    }
    Ok(())
}

#[test]
fn how_much_was_written(rt: HostRuntime) -> Result<(), Fail> {
    let mut out = Vec::new(rt.alloc());
    out.reserve(24)?;
    reply_written(&mut out, RequestId(2), 258);
    let want = [
        24, 0, 0, 0, 0, 0, 0, 0, 2, 0, 0, 0, 0, 0, 0, 0, 2, 1, 0, 0, 0, 0, 0, 0,
    ];
    assert_eq!(rt; out.as_slice(), want.as_slice());
    Ok(())
}
