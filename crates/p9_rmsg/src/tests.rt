// Frames that are known from the layout, and frames that are refused.
use crate::{Dirent, Rframe, Rmessage, Rread};
use p9_wire::data::Data;
use p9_wire::error::WireError;
use p9_wire::format::WireFormat;
use port_base::memory::{MemSink, SliceSource};
use std::alloc::Global;
use std::process::Abort;
use std::test::Fail;

// A frame of every type with the tag 0x0102, and its message.
const FRAMES: [(&[u8], &[u8]); 29] = [
    (
        b"\x0b\0\0\0\x07\x02\x01\x01\0\0\0",
        b"Lerror(Rlerror { ecode: 1 })",
    ),
    (
        b"\x43\0\0\0\x09\x02\x01\x01\0\0\0\x02\0\0\0\x03\0\0\0\0\0\0\0\x04\0\0\0\0\0\0\0\x05\0\0\0\0\0\0\0\x06\0\0\0\0\0\0\0\x07\0\0\0\0\0\0\0\x08\0\0\0\0\0\0\0\x09\0\0\0",
        b"Statfs(Rstatfs { ty: 1, bsize: 2, blocks: 3, bfree: 4, bavail: 5, files: 6, ffree: 7, fsid: 8, namelen: 9 })",
    ),
    (
        b"\x18\0\0\0\x0d\x02\x01\x80\x01\0\0\0\x02\0\0\0\0\0\0\0\x03\0\0\0",
        b"Lopen(Rlopen { qid: Qid { ty: 128, version: 1, path: 2 }, iounit: 3 })",
    ),
    (
        b"\x18\0\0\0\x0f\x02\x01\x80\x01\0\0\0\x02\0\0\0\0\0\0\0\x03\0\0\0",
        b"Lcreate(Rlcreate { qid: Qid { ty: 128, version: 1, path: 2 }, iounit: 3 })",
    ),
    (
        b"\x14\0\0\0\x11\x02\x01\x80\x01\0\0\0\x02\0\0\0\0\0\0\0",
        b"Symlink(Rsymlink { qid: Qid { ty: 128, version: 1, path: 2 } })",
    ),
    (
        b"\x14\0\0\0\x13\x02\x01\x80\x01\0\0\0\x02\0\0\0\0\0\0\0",
        b"Mknod(Rmknod { qid: Qid { ty: 128, version: 1, path: 2 } })",
    ),
    (b"\x07\0\0\0\x15\x02\x01", b"Rename"),
    (
        b"\x0a\0\0\0\x17\x02\x01\x01\0a",
        b"Readlink(Rreadlink { target: \"a\" })",
    ),
    (
        b"\xa0\0\0\0\x19\x02\x01\x01\0\0\0\0\0\0\0\x80\x02\0\0\0\x03\0\0\0\0\0\0\0\x04\0\0\0\x05\0\0\0\x06\0\0\0\x07\0\0\0\0\0\0\0\x08\0\0\0\0\0\0\0\x09\0\0\0\0\0\0\0\x0a\0\0\0\0\0\0\0\x0b\0\0\0\0\0\0\0\x0c\0\0\0\0\0\0\0\x0d\0\0\0\0\0\0\0\x0e\0\0\0\0\0\0\0\x0f\0\0\0\0\0\0\0\x10\0\0\0\0\0\0\0\x11\0\0\0\0\0\0\0\x12\0\0\0\0\0\0\0\x13\0\0\0\0\0\0\0\x14\0\0\0\0\0\0\0\x15\0\0\0\0\0\0\0",
        b"GetAttr(Rgetattr { valid: 1, qid: Qid { ty: 128, version: 2, path: 3 }, mode: 4, uid: 5, gid: 6, nlink: 7, rdev: 8, size: 9, blksize: 10, blocks: 11, atime_sec: 12, atime_nsec: 13, mtime_sec: 14, mtime_nsec: 15, ctime_sec: 16, ctime_nsec: 17, btime_sec: 18, btime_nsec: 19, generation: 20, data_version: 21 })",
    ),
    (b"\x07\0\0\0\x1b\x02\x01", b"SetAttr"),
    (
        b"\x0f\0\0\0\x1f\x02\x01\x01\0\0\0\0\0\0\0",
        b"XattrWalk(Rxattrwalk { size: 1 })",
    ),
    (b"\x07\0\0\0\x21\x02\x01", b"XattrCreate"),
    (
        b"\x0e\0\0\0\x29\x02\x01\x03\0\0\0\x07\x08\x09",
        b"Readdir(Rreaddir { payload: Data(3 bytes) })",
    ),
    (b"\x07\0\0\0\x33\x02\x01", b"Fsync"),
    (b"\x08\0\0\0\x35\x02\x01\x01", b"Lock(Rlock { status: 1 })"),
    (
        b"\x1f\0\0\0\x37\x02\x01\x01\x02\0\0\0\0\0\0\0\x03\0\0\0\0\0\0\0\x04\0\0\0\x01\0a",
        b"GetLock(Rgetlock { kind_: 1, start: 2, length: 3, proc_id: 4, client_id: \"a\" })",
    ),
    (b"\x07\0\0\0\x47\x02\x01", b"Link"),
    (
        b"\x14\0\0\0\x49\x02\x01\x80\x01\0\0\0\x02\0\0\0\0\0\0\0",
        b"Mkdir(Rmkdir { qid: Qid { ty: 128, version: 1, path: 2 } })",
    ),
    (b"\x07\0\0\0\x4b\x02\x01", b"RenameAt"),
    (b"\x07\0\0\0\x4d\x02\x01", b"UnlinkAt"),
    (
        b"\x0e\0\0\0e\x02\x01\x01\0\0\0\x01\0a",
        b"Version(Rversion { msize: 1, version: \"a\" })",
    ),
    (
        b"\x14\0\0\0g\x02\x01\x80\x01\0\0\0\x02\0\0\0\0\0\0\0",
        b"Auth(Rauth { aqid: Qid { ty: 128, version: 1, path: 2 } })",
    ),
    (
        b"\x14\0\0\0i\x02\x01\x80\x01\0\0\0\x02\0\0\0\0\0\0\0",
        b"Attach(Rattach { qid: Qid { ty: 128, version: 1, path: 2 } })",
    ),
    (b"\x07\0\0\0m\x02\x01", b"Flush"),
    (
        b"\x23\0\0\0o\x02\x01\x02\0\x80\x01\0\0\0\x02\0\0\0\0\0\0\0\x02\x03\0\0\0\x04\0\0\0\0\0\0\0",
        b"Walk(Rwalk { wqids: [Qid { ty: 128, version: 1, path: 2 }, Qid { ty: 2, version: 3, path: 4 }] })",
    ),
    (
        b"\x0e\0\0\0u\x02\x01\x03\0\0\0\x07\x08\x09",
        b"Read(Rread { payload: Data(3 bytes) })",
    ),
    (
        b"\x0b\0\0\0w\x02\x01\x01\0\0\0",
        b"Write(Rwrite { count: 1 })",
    ),
    (b"\x07\0\0\0y\x02\x01", b"Clunk"),
    (b"\x07\0\0\0\x7b\x02\x01", b"Remove"),
];

// The frame that these bytes are, all of them.
fn frame_of(rt: &impl Abort, alloc: Global, bytes: &[u8]) -> Result<Rframe, Fail> {
    let mut source = SliceSource::new(bytes);
    let frame = Rframe::decode(alloc, &mut source)?;
    assert!(rt; source.is_at_end());
    Ok(frame)
}

fn printed(alloc: Global, frame: &Rframe) -> Result<String, Fail> {
    let message = &frame.msg;
    Ok(format!(in alloc; "{message:?}")?)
}

fn spelled(alloc: Global, frame: &Rframe) -> Result<MemSink, Fail> {
    let mut sink = MemSink::new(alloc);
    frame.encode(&mut sink)?;
    Ok(sink)
}

// The frame is read with the tag 0x0102, printed so and spelled by the same bytes.
fn is_spelled(rt: &impl Abort, alloc: Global, bytes: &[u8], text: &[u8]) -> Result<(), Fail> {
    let frame = frame_of(rt, alloc, bytes)?;
    assert_eq!(rt; frame.tag, 0x0102);
    assert!(rt; printed(alloc, &frame)?.as_bytes() == text);
    assert!(rt; spelled(alloc, &frame)?.as_bytes() == bytes);
    Ok(())
}

fn are_spelled(rt: &impl Abort, alloc: Global, rows: &[(&[u8], &[u8])]) -> Result<(), Fail> {
    for (bytes, text) in rows {
        is_spelled(rt, alloc, bytes, text)?;
    }
    Ok(())
}

#[test]
fn each_type_has_its_bytes(rt: HostRuntime) -> Result<(), Fail> {
    are_spelled(&rt, rt.alloc(), &FRAMES)
}

// Frames that are refused, and the fault that is told.
const MALFORMED: [(&[u8], WireError); 14] = [
    (b"\x07\0\0\0x\x01\0", WireError::InvalidData),
    (b"\x08\0\0\0y\x01\0\0", WireError::InvalidData),
    (
        b"\x19\0\0\0\x0d\x01\0\0\x01\0\0\0\x02\0\0\0\0\0\0\0\x03\0\0\0\0",
        WireError::InvalidData,
    ),
    (
        b"\x14\0\0\0\x0d\x01\0\0\x01\0\0\0\x02\0\0\0\0\0\0\0",
        WireError::UnexpectedEof,
    ),
    (b"\x0b\0\0\0u\x01\0\x01\0\0\x02", WireError::InvalidData),
    (b"\x0d\0\0\0u\x01\0\0\0\0\x02ab", WireError::UnexpectedEof),
    (b"\x0b\0\0\0\x17\x01\0\x02\0a\0", WireError::InvalidInput),
    (b"\x07\0\0\0\x35\x01\0", WireError::UnexpectedEof),
    (
        b"\x1f\0\0\0\x36\x01\0\x01\x02\0\0\0\0\0\0\0\x03\0\0\0\0\0\0\0\x04\0\0\0\x01\0a",
        WireError::InvalidData,
    ),
    (
        b"\x20\0\0\0\x37\x01\0\x01\x02\0\0\0\0\0\0\0\x03\0\0\0\0\0\0\0\x04\0\0\0\x01\0a\0",
        WireError::InvalidData,
    ),
    (
        b"\x1e\0\0\0\x37\x01\0\x01\x02\0\0\0\0\0\0\0\x03\0\0\0\0\0\0\0\x04\0\0\0\x01\0",
        WireError::UnexpectedEof,
    ),
    (
        b"\x1f\0\0\0\x37\x01\0\x01\x02\0\0\0\0\0\0\0\x03\0\0\0\0\0\0\0\x04\0\0\0\x01\0\0",
        WireError::InvalidInput,
    ),
    (b"\x06\0\0\0", WireError::InvalidData),
    (b"\x07\0\0\0y\x01", WireError::UnexpectedEof),
];

fn are_refused(rt: &impl Abort, alloc: Global, rows: &[(&[u8], WireError)]) -> Result<(), Fail> {
    for (bytes, want) in rows {
        let mut source = SliceSource::new(bytes);
        assert!(rt; Rframe::decode(alloc, &mut source).err() == Some(*want));
        assert!(rt; source.is_at_end());
    }
    Ok(())
}

#[test]
fn malformed_frames_are_refused_and_drained(rt: HostRuntime) -> Result<(), Fail> {
    are_refused(&rt, rt.alloc(), &MALFORMED)
}

// A frame that is longer than what is read at once.
fn long_frame(alloc: Global) -> Result<Rframe, Fail> {
    let payload = Data(vec![in alloc; 5u8; 200000]?);
    Ok(Rframe {
        tag: 3,
        msg: Rmessage::Read(Rread { payload }),
    })
}

#[test]
fn a_long_frame_comes_in_pieces(rt: HostRuntime) -> Result<(), Fail> {
    let alloc = rt.alloc();
    let bytes = spelled(alloc, &long_frame(alloc)?)?;
    assert_eq!(rt; bytes.as_bytes().len(), 200011);
    let again = spelled(alloc, &frame_of(&rt, alloc, bytes.as_bytes())?)?;
    assert!(rt; again.as_bytes() == bytes.as_bytes());
    Ok(())
}

#[test]
fn entries_of_a_directory_follow_one_another(rt: HostRuntime) -> Result<(), Fail> {
    let alloc = rt.alloc();
    let bytes =
        b"\x80\x01\0\0\0\x02\0\0\0\0\0\0\0\x01\0\0\0\0\0\0\0\x04\x01\0a\0\x03\0\0\0\x04\0\0\0\0\0\0\0\x02\0\0\0\0\0\0\0\x08\x02\0bc";
    let mut source = SliceSource::new(bytes);
    let mut sink = MemSink::new(alloc);
    for (offset, name) in [(1, "a"), (2, "bc")] {
        let entry = Dirent::decode(alloc, &mut source)?;
        assert_eq!(rt; entry.offset, offset, "{name}");
        assert!(rt; entry.name.eq_text(name), "{name}");
        entry.encode(&mut sink)?;
    }
    assert!(rt; source.is_at_end());
    assert_eq!(rt; sink.as_bytes(), bytes.as_slice());
    Ok(())
}
