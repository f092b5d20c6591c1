// Frames that are known from the layout, and frames that are refused.
use crate::{Tframe, Tmessage, Twrite, tframe_decode};
use p9_wire::data::Data;
use p9_wire::error::WireError;
use p9_wire::format::WireFormat;
use port_base::memory::{MemSink, SliceSource};
use std::alloc::Global;
use std::process::Abort;
use std::test::Fail;

// A frame of every type with the tag 0x0102, and its message.
const FRAMES: [(&[u8], &[u8]); 28] = [
    (
        b"\x0b\0\0\0\x08\x02\x01\x01\0\0\0",
        b"Ok(Statfs(Tstatfs { fid: 1 }))",
    ),
    (
        b"\x0f\0\0\0\x0c\x02\x01\x01\0\0\0\x02\0\0\0",
        b"Ok(Lopen(Tlopen { fid: 1, flags: 2 }))",
    ),
    (
        b"\x1a\0\0\0\x0e\x02\x01\x01\0\0\0\x01\0a\x02\0\0\0\x03\0\0\0\x04\0\0\0",
        b"Ok(Lcreate(Tlcreate { fid: 1, name: \"a\", flags: 2, mode: 3, gid: 4 }))",
    ),
    (
        b"\x16\0\0\0\x10\x02\x01\x01\0\0\0\x01\0a\x02\0bc\x02\0\0\0",
        b"Ok(Symlink(Tsymlink { fid: 1, name: \"a\", symtgt: \"bc\", gid: 2 }))",
    ),
    (
        b"\x1e\0\0\0\x12\x02\x01\x01\0\0\0\x01\0a\x02\0\0\0\x03\0\0\0\x04\0\0\0\x05\0\0\0",
        b"Ok(Mknod(Tmknod { dfid: 1, name: \"a\", mode: 2, major: 3, minor: 4, gid: 5 }))",
    ),
    (
        b"\x12\0\0\0\x14\x02\x01\x01\0\0\0\x02\0\0\0\x01\0a",
        b"Ok(Rename(Trename { fid: 1, dfid: 2, name: \"a\" }))",
    ),
    (
        b"\x0b\0\0\0\x16\x02\x01\x01\0\0\0",
        b"Ok(Readlink(Treadlink { fid: 1 }))",
    ),
    (
        b"\x13\0\0\0\x18\x02\x01\x01\0\0\0\x02\0\0\0\0\0\0\0",
        b"Ok(GetAttr(Tgetattr { fid: 1, request_mask: 2 }))",
    ),
    (
        b"\x43\0\0\0\x1a\x02\x01\x01\0\0\0\x02\0\0\0\x03\0\0\0\x04\0\0\0\x05\0\0\0\x06\0\0\0\0\0\0\0\x07\0\0\0\0\0\0\0\x08\0\0\0\0\0\0\0\x09\0\0\0\0\0\0\0\x0a\0\0\0\0\0\0\0",
        b"Ok(SetAttr(Tsetattr { fid: 1, valid: 2, mode: 3, uid: 4, gid: 5, size: 6, atime_sec: 7, atime_nsec: 8, mtime_sec: 9, mtime_nsec: 10 }))",
    ),
    (
        b"\x12\0\0\0\x1e\x02\x01\x01\0\0\0\x02\0\0\0\x01\0a",
        b"Ok(XattrWalk(Txattrwalk { fid: 1, newfid: 2, name: \"a\" }))",
    ),
    (
        b"\x1a\0\0\0\x20\x02\x01\x01\0\0\0\x01\0a\x02\0\0\0\0\0\0\0\x03\0\0\0",
        b"Ok(XattrCreate(Txattrcreate { fid: 1, name: \"a\", attr_size: 2, flags: 3 }))",
    ),
    (
        b"\x17\0\0\0\x28\x02\x01\x01\0\0\0\x02\0\0\0\0\0\0\0\x03\0\0\0",
        b"Ok(Readdir(Treaddir { fid: 1, offset: 2, count: 3 }))",
    ),
    (
        b"\x0f\0\0\0\x32\x02\x01\x01\0\0\0\x02\0\0\0",
        b"Ok(Fsync(Tfsync { fid: 1, datasync: 2 }))",
    ),
    (
        b"\x27\0\0\0\x34\x02\x01\x01\0\0\0\x02\x03\0\0\0\x04\0\0\0\0\0\0\0\x05\0\0\0\0\0\0\0\x06\0\0\0\x01\0a",
        b"Ok(Lock(Tlock { fid: 1, kind_: 2, flags: 3, start: 4, length: 5, proc_id: 6, client_id: \"a\" }))",
    ),
    (
        b"\x23\0\0\0\x36\x02\x01\x01\0\0\0\x02\x03\0\0\0\0\0\0\0\x04\0\0\0\0\0\0\0\x05\0\0\0\x01\0a",
        b"Ok(GetLock(Tgetlock { fid: 1, kind_: 2, start: 3, length: 4, proc_id: 5, client_id: \"a\" }))",
    ),
    (
        b"\x12\0\0\0\x46\x02\x01\x01\0\0\0\x02\0\0\0\x01\0a",
        b"Ok(Link(Tlink { dfid: 1, fid: 2, name: \"a\" }))",
    ),
    (
        b"\x16\0\0\0\x48\x02\x01\x01\0\0\0\x01\0a\x02\0\0\0\x03\0\0\0",
        b"Ok(Mkdir(Tmkdir { dfid: 1, name: \"a\", mode: 2, gid: 3 }))",
    ),
    (
        b"\x16\0\0\0\x4a\x02\x01\x01\0\0\0\x01\0a\x02\0\0\0\x02\0bc",
        b"Ok(RenameAt(Trenameat { olddirfid: 1, oldname: \"a\", newdirfid: 2, newname: \"bc\" }))",
    ),
    (
        b"\x12\0\0\0\x4c\x02\x01\x01\0\0\0\x01\0a\x02\0\0\0",
        b"Ok(UnlinkAt(Tunlinkat { dirfd: 1, name: \"a\", flags: 2 }))",
    ),
    (
        b"\x0e\0\0\0d\x02\x01\x01\0\0\0\x01\0a",
        b"Ok(Version(Tversion { msize: 1, version: \"a\" }))",
    ),
    (
        b"\x16\0\0\0f\x02\x01\x01\0\0\0\x01\0a\x02\0bc\x02\0\0\0",
        b"Ok(Auth(Tauth { afid: 1, uname: \"a\", aname: \"bc\", n_uname: 2 }))",
    ),
    (
        b"\x1a\0\0\0h\x02\x01\x01\0\0\0\x02\0\0\0\x01\0a\x02\0bc\x03\0\0\0",
        b"Ok(Attach(Tattach { fid: 1, afid: 2, uname: \"a\", aname: \"bc\", n_uname: 3 }))",
    ),
    (
        b"\x09\0\0\0l\x02\x01\x01\0",
        b"Ok(Flush(Tflush { oldtag: 1 }))",
    ),
    (
        b"\x18\0\0\0n\x02\x01\x01\0\0\0\x02\0\0\0\x02\0\x01\0a\x02\0bc",
        b"Ok(Walk(Twalk { fid: 1, newfid: 2, wnames: [\"a\", \"bc\"] }))",
    ),
    (
        b"\x17\0\0\0t\x02\x01\x01\0\0\0\x02\0\0\0\0\0\0\0\x03\0\0\0",
        b"Ok(Read(Tread { fid: 1, offset: 2, count: 3 }))",
    ),
    (
        b"\x1a\0\0\0v\x02\x01\x01\0\0\0\x02\0\0\0\0\0\0\0\x03\0\0\0\x07\x08\x09",
        b"Ok(Write(Twrite { fid: 1, offset: 2, payload: Data(3 bytes) }))",
    ),
    (
        b"\x0b\0\0\0x\x02\x01\x01\0\0\0",
        b"Ok(Clunk(Tclunk { fid: 1 }))",
    ),
    (
        b"\x0b\0\0\0z\x02\x01\x01\0\0\0",
        b"Ok(Remove(Tremove { fid: 1 }))",
    ),
];

// A frame with the greatest tag.
const GREATEST_TAG: (&[u8], &[u8]) = (
    b"\x15\0\0\0d\xff\xff\0\x20\0\0\x08\x009P2000.L",
    b"Ok(Version(Tversion { msize: 8192, version: \"9P2000.L\" }))",
);

// The frame that these bytes are, all of them.
fn frame_of(rt: &impl Abort, alloc: Global, bytes: &[u8]) -> Result<Tframe, Fail> {
    let mut source = SliceSource::new(bytes);
    let frame = Tframe::decode(alloc, &mut source)?;
    assert!(rt; source.is_at_end());
    Ok(frame)
}

fn printed(alloc: Global, frame: &Tframe) -> Result<String, Fail> {
    let message = &frame.msg;
    Ok(format!(in alloc; "{message:?}")?)
}

fn spelled(alloc: Global, frame: &Tframe) -> Result<MemSink, Fail> {
    let mut sink = MemSink::new(alloc);
    frame.encode(&mut sink)?;
    Ok(sink)
}

// The frame is read with this tag, printed so and spelled by the same bytes.
fn is_spelled(
    rt: &impl Abort,
    alloc: Global,
    bytes: &[u8],
    tag: u16,
    text: &[u8],
) -> Result<(), Fail> {
    let frame = frame_of(rt, alloc, bytes)?;
    assert_eq!(rt; frame.tag, tag);
    assert!(rt; printed(alloc, &frame)?.as_bytes() == text);
    assert!(rt; spelled(alloc, &frame)?.as_bytes() == bytes);
    Ok(())
}

fn are_spelled(
    rt: &impl Abort,
    alloc: Global,
    rows: &[(&[u8], &[u8])],
    tag: u16,
) -> Result<(), Fail> {
    for (bytes, text) in rows {
        is_spelled(rt, alloc, bytes, tag, text)?;
    }
    Ok(())
}

#[test]
fn each_type_has_its_bytes(rt: HostRuntime) -> Result<(), Fail> {
    are_spelled(&rt, rt.alloc(), &FRAMES, 0x0102)
}

#[test]
fn the_greatest_tag_is_kept(rt: HostRuntime) -> Result<(), Fail> {
    are_spelled(&rt, rt.alloc(), &[GREATEST_TAG], 65535)
}

// Frames with the tag 1 whose body is malformed, and the fault that is told.
const MALFORMED: [(&[u8], WireError); 13] = [
    (b"\x0b\0\0\0y\x01\0\x05\0\0\0", WireError::InvalidData),
    (b"\x0c\0\0\0x\x01\0\x05\0\0\0\0", WireError::InvalidData),
    (b"\x0a\0\0\0x\x01\0\x05\0\0", WireError::UnexpectedEof),
    (b"\x07\0\0\0x\x01\0", WireError::UnexpectedEof),
    (
        b"\x17\0\0\0v\x01\0\x01\0\0\0\x02\0\0\0\0\0\0\0\x01\0\0\x02",
        WireError::InvalidData,
    ),
    (
        b"\x19\0\0\0v\x01\0\x01\0\0\0\x02\0\0\0\0\0\0\0\0\0\0\x02ab",
        WireError::UnexpectedEof,
    ),
    (
        b"\x19\0\0\0v\x01\0\x01\0\0\0\x02\0\0\0\0\0\0\0\x01\0\0\0ab",
        WireError::InvalidData,
    ),
    (
        b"\x16\0\0\0h\x01\0\x01\0\0\0\x02\0\0\0\x01\0\xff\0\0\0\0",
        WireError::InvalidInput,
    ),
    (
        b"\x1b\0\0\0y\x01\0\x01\0\0\0\x02\0\0\0\x01\0a\x02\0bc\x03\0\0\0\0",
        WireError::InvalidData,
    ),
    (
        b"\x1b\0\0\0h\x01\0\x01\0\0\0\x02\0\0\0\x01\0a\x02\0bc\x03\0\0\0\0",
        WireError::InvalidData,
    ),
    (
        b"\x19\0\0\0h\x01\0\x01\0\0\0\x02\0\0\0\x01\0a\x02\0bc\x03\0\0",
        WireError::UnexpectedEof,
    ),
    (
        b"\x0e\0\0\0d\x01\0\x01\0\0\0\x01\0\0",
        WireError::InvalidInput,
    ),
    (
        b"\x0e\0\0\0d\x01\0\x01\0\0\0\x02\0a",
        WireError::UnexpectedEof,
    ),
];

// The frame is read to its end, its body has this fault, and it doesn't fit.
fn is_malformed(rt: &impl Abort, alloc: Global, bytes: &[u8], want: WireError) -> Result<(), Fail> {
    let frame = frame_of(rt, alloc, bytes)?;
    assert_eq!(rt; frame.tag, 1);
    assert!(rt; frame.msg.as_ref().err() == Some(&want));
    let mut sink = MemSink::new(alloc);
    assert!(rt; frame.encode(&mut sink).err() == Some(WireError::InvalidInput));
    assert!(rt; sink.as_bytes().is_empty());
    Ok(())
}

fn are_malformed(rt: &impl Abort, alloc: Global, rows: &[(&[u8], WireError)]) -> Result<(), Fail> {
    for (bytes, want) in rows {
        is_malformed(rt, alloc, bytes, *want)?;
    }
    Ok(())
}

#[test]
fn malformed_bodies_are_told_and_drained(rt: HostRuntime) -> Result<(), Fail> {
    are_malformed(&rt, rt.alloc(), &MALFORMED)
}

// A frame of Tclunk.
const CLUNK: &[u8] = b"\x0b\0\0\0x\x01\0\x05\0\0\0";

// Frames, a limit, and the fault of the first frame within it.
const REFUSED: [(&[u8], u32, WireError); 4] = [
    (b"\x06\0\0\0\x78\x01\0", 100, WireError::InvalidData),
    (CLUNK, 10, WireError::InvalidData),
    (b"\x0b\0\0\0x\x01\0\x05\0\0", 11, WireError::UnexpectedEof),
    (b"\x0b\0\0", 11, WireError::UnexpectedEof),
];

fn are_refused(
    rt: &impl Abort,
    alloc: Global,
    rows: &[(&[u8], u32, WireError)],
) -> Result<(), Fail> {
    for (bytes, limit, want) in rows {
        let mut source = SliceSource::new(bytes);
        assert!(rt; Tframe::decode_within(alloc, &mut source, *limit).err() == Some(*want));
    }
    Ok(())
}

#[test]
fn sizes_have_bounds(rt: HostRuntime) -> Result<(), Fail> {
    are_refused(&rt, rt.alloc(), &REFUSED)?;
    let mut source = SliceSource::new(CLUNK);
    assert!(rt;
        Tframe::decode_within(rt.alloc(), &mut source, 11)?
            .msg
            .is_ok()
    );
    Ok(())
}

// A frame that is longer than what is read at once.
fn long_frame(alloc: Global) -> Result<Tframe, Fail> {
    let payload = Data(vec![in alloc; 5u8; 200000]?);
    Ok(Tframe {
        tag: 3,
        msg: Ok(Tmessage::Write(Twrite {
            fid: 1,
            offset: 2,
            payload,
        })),
    })
}

#[test]
fn a_long_frame_comes_in_pieces(rt: HostRuntime) -> Result<(), Fail> {
    let alloc = rt.alloc();
    let bytes = spelled(alloc, &long_frame(alloc)?)?;
    assert_eq!(rt; bytes.as_bytes().len(), 200023);
    let again = spelled(alloc, &frame_of(&rt, alloc, bytes.as_bytes())?)?;
    assert!(rt; again.as_bytes() == bytes.as_bytes());
    Ok(())
}

// Bytes, and how many frames stand at their front.
const COUNTED: [(&[u8], usize); 5] = [
    (b"", 0),
    (CLUNK, 1),
    (b"\x07\0\0\0y\x01\0\x0b\0\0\0x\x01\0\x05\0\0\0", 2),
    (
        b"\x0c\0\0\0x\x05\0\x01\0\0\0\xaa\x15\0\0\0d\xff\xff\0\x20\0\0\x08\x009P2000.L",
        2,
    ),
    (
        b"\x0b\0\0\0x\x01\0\x05\0\0\0\x0b\0\0\0x\x01\0\x05\0\0\0\x06\0\0\0",
        2,
    ),
];

fn are_counted(rt: &impl Abort, alloc: Global, rows: &[(&[u8], usize)]) -> Result<(), Fail> {
    for (bytes, want) in rows {
        assert!(rt; tframe_decode(alloc, bytes).ok() == Some(*want));
    }
    Ok(())
}

#[test]
fn frames_are_counted_up_to_a_fault(rt: HostRuntime) -> Result<(), Fail> {
    are_counted(&rt, rt.alloc(), &COUNTED)
}
