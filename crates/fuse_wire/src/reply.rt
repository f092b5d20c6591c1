//! Replies.
ghost use Rattle.std.specs.Prelude.{◌≡◌, ◌+◌, ◌*◌, ◌≤◌, ◌<◌, ◌^◌, ◌++◌, [], length, vec_len};
ghost use Rattle.std.specs.Prelude.{vec_capacity};
ghost use Rattle.fuse_wire.specs.Reply.{u32s, u64s, negated, reply_head, reply, attr_bytes};
ghost use Rattle.fuse_wire.specs.Reply.{entry_body, attr_body, init_body, opened_body};
ghost use Rattle.fuse_wire.specs.Reply.{statfs_body, written_body, created_body};

use crate::attr::FileAttr;
use crate::ids::{Errno, FileHandle, INodeNo, RequestId};
use crate::protocol::{FUSE_KERNEL_VERSION, MAX_READ};
use port_base::names::NAME_LIMIT;

/// The size of a reply's head (`fuse_out_header` of `fuse.h`), in bytes.
pub const OUT_HEADER_SIZE: usize = 16;
/// The size of INIT's reply behind its head (`fuse_init_out` of `fuse.h`), in bytes.
pub const INIT_OUT_SIZE: usize = 64;
/// The size of an entry (`fuse_entry_out` of `fuse.h`), in bytes.
pub const ENTRY_OUT_SIZE: usize = 128;
/// The size of shown attributes (`fuse_attr_out` of `fuse.h`), in bytes.
pub const ATTR_OUT_SIZE: usize = 104;

/// The size of a handle that is given (`fuse_open_out` of `fuse.h`), in bytes.
pub const OPEN_OUT_SIZE: usize = 16;

/// The size of how much was written (`fuse_write_out` of `fuse.h`), in bytes.
pub const WRITE_OUT_SIZE: usize = 8;

/// The size of an entry with its handle, CREATE's reply behind its head, in bytes.
pub const CREATE_OUT_SIZE: usize = ENTRY_OUT_SIZE + OPEN_OUT_SIZE;

/// The size of how much a tree may have (`fuse_statfs_out` of `fuse.h`), in bytes.
pub const STATFS_OUT_SIZE: usize = 80;

/// The most requests that run in the background, told by INIT.
pub const MAX_BACKGROUND: u16 = 12;
/// How many of these mean congestion, told by INIT.
pub const CONGESTION_THRESHOLD: u16 = 9;
/// The most bytes that one WRITE has, told by INIT.
pub const MAX_WRITE: u32 = 65536;
/// The finest time that is kept, in nanoseconds, told by INIT.
pub const TIME_GRAN: u32 = 1;
/// How long an entry and its attributes are valid, in seconds.
pub const VALID_SECS: u64 = 1;

// Appends bytes for which there is room.
pub(crate) fn put(out: &mut Vec<u8>, bytes: &[u8])
    requires { vec_len out.old + length bytes.now ≤ vec_capacity out.old }
    ensures items { out.new.items ≡ out.old.items ++ bytes.now }
    ensures len { vec_len out.new ≡ vec_len out.old + length bytes.now }
    ensures capacity { vec_capacity out.old ≤ vec_capacity out.new }
{
    match out.extend_from_slice(bytes) {
        Ok(()) => {}
        Err(_) => unreachable!(),
    }
}

// Appends numbers of 4 bytes.
pub(crate) fn put_u32s(out: &mut Vec<u8>, numbers: &[u32])
    requires { vec_len out.old + 4 * length numbers.now ≤ vec_capacity out.old }
    ensures items { out.new.items ≡ out.old.items ++ u32s numbers.now }
    ensures len { vec_len out.new ≡ vec_len out.old + 4 * length numbers.now }
    ensures capacity { vec_capacity out.old ≤ vec_capacity out.new }
{
    for number in numbers {
        put(out, &number.to_le_bytes());
    }
}

// Appends numbers of 8 bytes.
pub(crate) fn put_u64s(out: &mut Vec<u8>, numbers: &[u64])
    requires { vec_len out.old + 8 * length numbers.now ≤ vec_capacity out.old }
    ensures items { out.new.items ≡ out.old.items ++ u64s numbers.now }
    ensures len { vec_len out.new ≡ vec_len out.old + 8 * length numbers.now }
    ensures capacity { vec_capacity out.old ≤ vec_capacity out.new }
{
    for number in numbers {
        put(out, &number.to_le_bytes());
    }
}

fn negated(errno: u32) -> u32
    ensures { result ≡ negated errno }
{
    if errno == 0 { 0 } else { u32::MAX - errno + 1 }
}

// Appends a reply's head.
fn put_head(out: &mut Vec<u8>, unique: RequestId, errno: u32, size: u32)
    requires room { vec_len out.old + OUT_HEADER_SIZE ≤ vec_capacity out.old }
    requires fits { 16 + size < 2 ^ 32 }
    ensures items { out.new.items ≡ out.old.items ++ reply_head unique.0 errno size }
    ensures len { vec_len out.new ≡ vec_len out.old + OUT_HEADER_SIZE }
    ensures capacity { vec_capacity out.old ≤ vec_capacity out.new }
{
    put_u32s(out, &[16 + size, negated(errno)]);
    put_u64s(out, &[unique.0]);
}

// Appends attributes, 88 bytes.
fn put_attr(out: &mut Vec<u8>, attr: &FileAttr)
    requires { vec_len out.old + 88 ≤ vec_capacity out.old }
    ensures items { out.new.items ≡ out.old.items ++ attr_bytes attr.now }
    ensures len { vec_len out.new ≡ vec_len out.old + 88 }
    ensures capacity { vec_capacity out.old ≤ vec_capacity out.new }
{
    put_u64s(
        out,
        &[
            attr.ino,
            attr.size,
            attr.blocks,
            attr.atime,
            attr.mtime,
            attr.ctime,
        ],
    );
    put_u32s(
        out,
        &[
            attr.atimensec,
            attr.mtimensec,
            attr.ctimensec,
            attr.mode,
            attr.nlink,
            attr.uid,
            attr.gid,
            attr.rdev,
            attr.blksize,
            attr.flags,
        ],
    );
}

/// Appends the reply to a request that is refused.
pub fn reply_error(out: &mut Vec<u8>, unique: RequestId, errno: Errno)
    requires { vec_len out.old + OUT_HEADER_SIZE ≤ vec_capacity out.old }
    ensures { out.new.items ≡ out.old.items ++ reply unique.0 errno.0 [] }
{
    put_head(out, unique, errno.0, 0);
}

/// Appends the reply to INIT, 80 bytes.
pub fn reply_init(out: &mut Vec<u8>, unique: RequestId, minor: u32, max_readahead: u32)
    requires { vec_len out.old + (OUT_HEADER_SIZE + INIT_OUT_SIZE) ≤ vec_capacity out.old }
    ensures { out.new.items ≡ out.old.items ++ reply unique.0 0 (init_body minor max_readahead) }
{
    put_head(out, unique, 0, INIT_OUT_SIZE as u32);
    put_u32s(out, &[FUSE_KERNEL_VERSION, minor, max_readahead, 0]);
    put(out, &MAX_BACKGROUND.to_le_bytes());
    put(out, &CONGESTION_THRESHOLD.to_le_bytes());
    put_u32s(out, &[MAX_WRITE, TIME_GRAN]);
    put(out, &[0; 36]);
}

/// Appends the reply that enters a node, 144 bytes.
pub fn reply_entry(out: &mut Vec<u8>, unique: RequestId, node: INodeNo, attr: &FileAttr)
    requires { vec_len out.old + (OUT_HEADER_SIZE + ENTRY_OUT_SIZE) ≤ vec_capacity out.old }
    ensures { out.new.items ≡ out.old.items ++ reply unique.0 0 (entry_body node.0 attr.now) }
{
    put_head(out, unique, 0, ENTRY_OUT_SIZE as u32);
    put_u64s(out, &[node.0, 0, VALID_SECS, VALID_SECS]);
    put_u32s(out, &[0, 0]);
    put_attr(out, attr);
}

/// Appends the reply that shows attributes, 120 bytes.
pub fn reply_attr(out: &mut Vec<u8>, unique: RequestId, attr: &FileAttr)
    requires { vec_len out.old + (OUT_HEADER_SIZE + ATTR_OUT_SIZE) ≤ vec_capacity out.old }
    ensures { out.new.items ≡ out.old.items ++ reply unique.0 0 (attr_body attr.now) }
{
    put_head(out, unique, 0, ATTR_OUT_SIZE as u32);
    put_u64s(out, &[VALID_SECS]);
    put_u32s(out, &[0, 0]);
    put_attr(out, attr);
}

/// Appends the reply to a request that is granted without more, 16 bytes.
pub fn reply_empty(out: &mut Vec<u8>, unique: RequestId)
    requires { vec_len out.old + OUT_HEADER_SIZE ≤ vec_capacity out.old }
    ensures { out.new.items ≡ out.old.items ++ reply unique.0 0 [] }
{
    put_head(out, unique, 0, 0);
}

/// Appends the reply that has these bytes, at most `MAX_READ`.
pub fn reply_bytes(out: &mut Vec<u8>, unique: RequestId, bytes: &[u8])
    requires short { length bytes.now ≤ MAX_READ }
    requires room { vec_len out.old + (OUT_HEADER_SIZE + length bytes.now) ≤ vec_capacity out.old }
    ensures { out.new.items ≡ out.old.items ++ reply unique.0 0 bytes.now }
{
    put_head(out, unique, 0, bytes.len() as u32);
    put(out, bytes);
}

/// Appends the reply that tells how many bytes were written, 24 bytes.
pub fn reply_written(out: &mut Vec<u8>, unique: RequestId, size: u32)
    requires { vec_len out.old + (OUT_HEADER_SIZE + WRITE_OUT_SIZE) ≤ vec_capacity out.old }
    ensures { out.new.items ≡ out.old.items ++ reply unique.0 0 (written_body size) }
{
    put_head(out, unique, 0, WRITE_OUT_SIZE as u32);
    put_u32s(out, &[size, 0]);
}

/// Appends the reply that gives a handle, 32 bytes.
pub fn reply_opened(out: &mut Vec<u8>, unique: RequestId, handle: FileHandle)
    requires { vec_len out.old + (OUT_HEADER_SIZE + OPEN_OUT_SIZE) ≤ vec_capacity out.old }
    ensures { out.new.items ≡ out.old.items ++ reply unique.0 0 (opened_body handle.0) }
{
    put_head(out, unique, 0, OPEN_OUT_SIZE as u32);
    put_u64s(out, &[handle.0]);
    put_u32s(out, &[0, 0]);
}

/// Appends the reply that enters a node and gives a handle of it, 160 bytes.
pub fn reply_created(
    out: &mut Vec<u8>,
    unique: RequestId,
    node: INodeNo,
    attr: &FileAttr,
    handle: FileHandle,
)
    requires { vec_len out.old + (OUT_HEADER_SIZE + CREATE_OUT_SIZE) ≤ vec_capacity out.old }
    ensures { out.new.items ≡ out.old.items
        ++ reply unique.0 0 (created_body node.0 attr.now handle.0) }
{
    put_head(out, unique, 0, CREATE_OUT_SIZE as u32);
    put_u64s(out, &[node.0, 0, VALID_SECS, VALID_SECS]);
    put_u32s(out, &[0, 0]);
    put_attr(out, attr);
    put_u64s(out, &[handle.0]);
    put_u32s(out, &[0, 0]);
}

/// Appends the reply that tells how many blocks of a size and how many files a tree may have, 96
/// bytes. All of them are free.
pub fn reply_statfs(out: &mut Vec<u8>, unique: RequestId, block_size: u32, blocks: u64, files: u64)
    requires { vec_len out.old + (OUT_HEADER_SIZE + STATFS_OUT_SIZE) ≤ vec_capacity out.old }
    ensures { out.new.items ≡ out.old.items
        ++ reply unique.0 0 (statfs_body block_size blocks files) }
{
    put_head(out, unique, 0, STATFS_OUT_SIZE as u32);
    put_u64s(out, &[blocks, blocks, blocks, files, files]);
    put_u32s(out, &[block_size, NAME_LIMIT as u32, block_size, 0]);
    put(out, &[0; 24]);
}
