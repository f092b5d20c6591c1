//! Replies, before they are written.
ghost use Rattle.std.specs.Prelude.{◌≡◌, ◌+◌, ◌≤◌, ◌++◌, ℕ, length, vec_len, vec_capacity};
ghost use Rattle.p9_rmsg.specs.Replies.{attributes_of};
ghost use Rattle.tree_machine.specs.Replies.{reply_bytes};
ghost use Rattle.fuse_gate.specs.Desks.{attributes_told, bytes_told, entry_told, failed, told_as};
ghost use Rattle.fuse_gate.specs.Replies.{reply_of, IsShort, file_attributes, HasShortFields};

use fuse_wire::answers::{FsFail, GetAttrResponse, LookupResponse};
use fuse_wire::attr::FileAttr;
use fuse_wire::ids::{Errno, FileHandle, INodeNo, RequestId};
use fuse_wire::reply::{
    ATTR_OUT_SIZE, CREATE_OUT_SIZE, ENTRY_OUT_SIZE, INIT_OUT_SIZE, OPEN_OUT_SIZE, OUT_HEADER_SIZE,
    STATFS_OUT_SIZE, WRITE_OUT_SIZE, reply_attr, reply_bytes, reply_created, reply_empty,
    reply_entry, reply_error, reply_init, reply_opened, reply_statfs, reply_written,
};
use p9_rmsg::Rgetattr;
use port_base::sink::NoMemory;
use tree_model::attributes::BLOCK_SIZE;

/// What answers a request.
#[derive(Debug, Drop)]
pub enum Reply {
    /// The request is refused.
    Refused(u32),
    /// The session begins, with this protocol's minor number.
    Granted {
        minor: u32,
        max_readahead: u32,
    },
    /// A node and its attributes.
    Entry {
        node: u64,
        attr: FileAttr,
    },
    /// Attributes.
    Attributes(FileAttr),
    /// A handle.
    Opened {
        handle: u64,
    },
    /// A node, its attributes and its handle.
    Created {
        node: u64,
        attr: FileAttr,
        handle: u64,
    },
    /// Bytes of a file, at most `MAX_READ`, or the target of a link.
    Bytes(Vec<u8>),
    /// How many bytes were written.
    Written(u32),
    /// How many blocks and files a tree may have.
    Sizes {
        blocks: u64,
        files: u64,
    },
    /// The request is granted, without more.
    Done,
}

impl Reply {
    /// How many bytes it has when it is written.
    pub fn size(&self) -> usize
        requires { IsShort (reply_of self.now) }
        ensures { (unique : ℕ) → result ≡ length (reply_bytes unique (reply_of self.now)) }
    {
        let body = match self {
            Reply::Refused(_) | Reply::Done => 0,
            Reply::Granted { .. } => INIT_OUT_SIZE,
            Reply::Entry { .. } => ENTRY_OUT_SIZE,
            Reply::Attributes(_) => ATTR_OUT_SIZE,
            Reply::Opened { .. } => OPEN_OUT_SIZE,
            Reply::Created { .. } => CREATE_OUT_SIZE,
            Reply::Bytes(bytes) => bytes.len(),
            Reply::Written(_) => WRITE_OUT_SIZE,
            Reply::Sizes { .. } => STATFS_OUT_SIZE,
        };
        OUT_HEADER_SIZE + body
    }
}

// The reply of a failure, where memory was enough.
fn failed(failure: FsFail) -> Result<Reply, NoMemory>
    ensures { told_as (failed failure) result }
{
    match failure {
        FsFail::Errno(errno) => Ok(Reply::Refused(errno.0)),
        FsFail::NoMemory => Err(NoMemory),
    }
}

/// The reply that a look-up's answer is.
pub fn entry_reply(told: Result<LookupResponse, FsFail>) -> Result<Reply, NoMemory>
    ensures { told_as (entry_told told) result }
{
    match told {
        Ok(entry) => Ok(Reply::Entry {
            node: entry.node.0,
            attr: entry.attr,
        }),
        Err(failure) => failed(failure),
    }
}

/// The reply that an answer of attributes is.
pub fn attributes_reply(told: Result<GetAttrResponse, FsFail>) -> Result<Reply, NoMemory>
    ensures { told_as (attributes_told told) result }
{
    match told {
        Ok(shown) => Ok(Reply::Attributes(shown.attr)),
        Err(failure) => failed(failure),
    }
}

/// The reply of an answer that brings these bytes.
pub fn bytes_reply(told: Result<(), FsFail>, bytes: Vec<u8>) -> Result<Reply, NoMemory>
    ensures { told_as (bytes_told bytes.items told) result }
{
    match told {
        Ok(()) => Ok(Reply::Bytes(bytes)),
        Err(failure) => failed(failure),
    }
}

/// Appends the reply to the request with this number.
pub fn write_reply(out: &mut Vec<u8>, unique: RequestId, reply: &Reply)
    requires short { IsShort (reply_of reply.now) }
    requires room { vec_len out.old + length (reply_bytes unique.0 (reply_of reply.now))
        ≤ vec_capacity out.old }
    ensures { out.new.items ≡ out.old.items ++ reply_bytes unique.0 (reply_of reply.now) }
{
    match reply {
        Reply::Refused(errno) => reply_error(out, unique, Errno(*errno)),
        Reply::Granted {
            minor,
            max_readahead,
        } => reply_init(out, unique, *minor, *max_readahead),
        Reply::Entry { node, attr } => reply_entry(out, unique, INodeNo(*node), attr),
        Reply::Attributes(attr) => reply_attr(out, unique, attr),
        Reply::Opened { handle } => reply_opened(out, unique, FileHandle(*handle)),
        Reply::Created { node, attr, handle } => {
            reply_created(out, unique, INodeNo(*node), attr, FileHandle(*handle))
        }
        Reply::Bytes(bytes) => reply_bytes(out, unique, bytes),
        Reply::Written(count) => reply_written(out, unique, *count),
        Reply::Sizes { blocks, files } => { reply_statfs(out, unique, BLOCK_SIZE, *blocks, *files) }
        Reply::Done => reply_empty(out, unique),
    }
}

/// Attributes that a server told, in the names of `fuse.h`.
pub fn file_attr(told: &Rgetattr) -> FileAttr
    requires { HasShortFields (attributes_of told.now) }
    ensures { result ≡ file_attributes (attributes_of told.now) }
{
    FileAttr {
        ino: told.qid.path,
        size: told.size,
        blocks: told.blocks,
        atime: told.atime_sec,
        mtime: told.mtime_sec,
        ctime: told.ctime_sec,
        atimensec: told.atime_nsec as u32,
        mtimensec: told.mtime_nsec as u32,
        ctimensec: told.ctime_nsec as u32,
        mode: told.mode,
        nlink: told.nlink as u32,
        uid: told.uid,
        gid: told.gid,
        rdev: 0,
        blksize: BLOCK_SIZE,
        flags: 0,
    }
}
