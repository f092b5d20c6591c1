//! Requests.
ghost use Rattle.std.specs.Prelude.{◌≡◌, ◌≤◌, length};
ghost use Rattle.fuse_wire.specs.Body.{Gives, Reads};
ghost use Rattle.fuse_wire.specs.Fields.{u64_at};
ghost use Rattle.fuse_wire.specs.Head.{head_of};
ghost use Rattle.fuse_wire.specs.Request.{request_in, request_of};

use crate::bodies::{
    batch_forget_of, create_of, destroy_of, flush_of, forget_of, fsync_of, fsyncdir_of, getattr_of,
    init_of, interrupt_of, link_of, lookup_of, mkdir_of, mknod_of, open_of, opendir_of, read_of,
    readdir_of, readlink_of, release_of, releasedir_of, rename_of, rename2_of, rmdir_of,
    setattr_of, statfs_of, symlink_of, unlink_of, write_of,
};
use crate::fields::u64_at;
use crate::head::{Head, IN_HEADER_SIZE};
use crate::ids::Errno;
use crate::opcode::{
    FUSE_BATCH_FORGET, FUSE_CREATE, FUSE_DESTROY, FUSE_FLUSH, FUSE_FORGET, FUSE_FSYNC,
    FUSE_FSYNCDIR, FUSE_GETATTR, FUSE_INIT, FUSE_INTERRUPT, FUSE_LINK, FUSE_LOOKUP, FUSE_MKDIR,
    FUSE_MKNOD, FUSE_OPEN, FUSE_OPENDIR, FUSE_READ, FUSE_READDIR, FUSE_READLINK, FUSE_RELEASE,
    FUSE_RELEASEDIR, FUSE_RENAME, FUSE_RENAME2, FUSE_RMDIR, FUSE_SETATTR, FUSE_STATFS,
    FUSE_SYMLINK, FUSE_UNLINK, FUSE_WRITE,
};
use crate::setattr::SetAttrIn;
use port_base::errno::{EINVAL, ENOSYS};

/// The size of a pair of BATCH_FORGET (`fuse_forget_one` of `fuse.h`), in bytes.
pub const FORGET_ONE_SIZE: usize = 16;

/// What a request asks, behind its head. Its names and bytes are parts of the frame.
#[derive(Clone, Copy, Debug, PartialEq, Eq)]
pub enum Body<'a> {
    /// Begins a session.
    Init {
        major: u32,
        minor: u32,
        max_readahead: u32,
        flags: u32,
    },
    /// Looks a name up in the node, a directory.
    Lookup {
        name: &'a [u8],
    },
    /// Asks for the attributes of a handle's file, or of the node.
    GetAttr {
        handle: Option<u64>,
    },
    /// Sets attributes of a handle's file, or of the node.
    SetAttr(SetAttrIn),
    /// Takes a name out of the node, a directory.
    Unlink {
        name: &'a [u8],
    },
    /// Takes the name of an empty directory out of the node, a directory.
    RmDir {
        name: &'a [u8],
    },
    /// Moves a name of the node, a directory, to a name of another.
    Rename {
        newdir: u64,
        old: &'a [u8],
        new: &'a [u8],
    },
    /// The same, by flags.
    Rename2 {
        newdir: u64,
        flags: u32,
        old: &'a [u8],
        new: &'a [u8],
    },
    /// Makes a symbolic link in the node, a directory.
    Symlink {
        name: &'a [u8],
        target: &'a [u8],
    },
    /// Makes a special file in the node, a directory.
    MkNod {
        mode: u32,
        rdev: u32,
        name: &'a [u8],
    },
    /// Makes a directory in the node, a directory.
    MkDir {
        mode: u32,
        name: &'a [u8],
    },
    /// Gives the file of another node one more name, in the node, a directory.
    Link {
        old: u64,
        name: &'a [u8],
    },
    /// Makes a file of this mode in the node, a directory, and opens it by the flags of `open(2)`.
    Create {
        flags: u32,
        mode: u32,
        name: &'a [u8],
    },
    /// Asks for the target of the node, a symbolic link.
    ReadLink,
    /// Asks how much the tree of the node may have.
    StatFs,
    /// Opens the node, a file, by the flags of `open(2)`.
    OpenFile {
        flags: u32,
    },
    /// Reads at most `size` bytes of a handle's file from `offset` on.
    Read {
        fh: u64,
        offset: u64,
        size: u32,
        flags: u32,
        lock: Option<u64>,
    },
    /// Writes bytes into a handle's file from `offset` on.
    Write {
        fh: u64,
        offset: u64,
        bytes: &'a [u8],
    },
    /// Opens the node, a directory. The flags are ignored.
    OpenDir {
        flags: u32,
    },
    /// Lists the entries above the cookie `offset` of a handle's directory, in at most `size`
    /// bytes.
    ReadDir {
        fh: u64,
        offset: u64,
        size: u32,
        flags: u32,
        lock: Option<u64>,
    },
    /// Ends the handle of a directory.
    ReleaseDir {
        fh: u64,
    },
    /// A descriptor of a handle was closed.
    Flush {
        fh: u64,
    },
    /// Ends a handle.
    Release {
        fh: u64,
    },
    /// Keeps what was written by a handle. Flag 1 is for contents alone.
    FSync {
        fh: u64,
        flags: u32,
    },
    /// Keeps what was changed of a handle's directory. Flag 1 is for contents alone.
    FSyncDir {
        fh: u64,
        flags: u32,
    },
    /// Counts the node down.
    Forget {
        nlookup: u64,
    },
    /// Counts nodes down: 16 bytes a pair of a node id and how much less.
    BatchForget {
        pairs: &'a [u8],
    },
    /// Takes a request back.
    Interrupt,
    /// Ends the session.
    Destroy,
}

/// A request.
#[derive(Clone, Copy, Debug, PartialEq, Eq)]
pub struct FuseRequest<'a> {
    pub head: Head,
    pub body: Body<'a>,
}

/// A pair of BATCH_FORGET (`fuse_forget_one` of `fuse.h`): a node id, and how much less it counts.
#[derive(Clone, Copy, Debug, PartialEq, Eq)]
pub struct ForgetOne {
    pub nodeid: u64,
    pub nlookup: u64,
}

impl ForgetOne {
    /// The pair that the first 16 bytes are.
    pub fn read(bytes: &[u8]) -> ForgetOne
        requires { FORGET_ONE_SIZE ≤ length bytes.now }
        ensures { result ≡ record { nodeid = u64_at bytes.now 0; nlookup = u64_at bytes.now 8 } }
    {
        ForgetOne {
            nodeid: u64_at(bytes, 0),
            nlookup: u64_at(bytes, 8),
        }
    }
}

// The body of a request with this opcode.
#[tactic(auto, unfolding(crate::specs::Request::request_in))]
fn body_of(opcode: u32, body: &[u8]) -> Result<Body<'_>, Errno>
    ensures { Gives result (request_in opcode body.now) }
{
    match opcode {
        FUSE_LOOKUP => lookup_of(body).ok_or(Errno(EINVAL)),
        FUSE_GETATTR => getattr_of(body).ok_or(Errno(EINVAL)),
        FUSE_SETATTR => setattr_of(body).ok_or(Errno(EINVAL)),
        FUSE_INIT => init_of(body).ok_or(Errno(EINVAL)),
        FUSE_OPEN => open_of(body).ok_or(Errno(EINVAL)),
        FUSE_READ => read_of(body).ok_or(Errno(EINVAL)),
        FUSE_WRITE => write_of(body).ok_or(Errno(EINVAL)),
        FUSE_FLUSH => flush_of(body).ok_or(Errno(EINVAL)),
        FUSE_RELEASE => release_of(body).ok_or(Errno(EINVAL)),
        FUSE_UNLINK => unlink_of(body).ok_or(Errno(EINVAL)),
        FUSE_RMDIR => rmdir_of(body).ok_or(Errno(EINVAL)),
        FUSE_RENAME => rename_of(body).ok_or(Errno(EINVAL)),
        FUSE_RENAME2 => rename2_of(body).ok_or(Errno(EINVAL)),
        FUSE_SYMLINK => symlink_of(body).ok_or(Errno(EINVAL)),
        FUSE_MKNOD => mknod_of(body).ok_or(Errno(EINVAL)),
        FUSE_MKDIR => mkdir_of(body).ok_or(Errno(EINVAL)),
        FUSE_LINK => link_of(body).ok_or(Errno(EINVAL)),
        FUSE_CREATE => create_of(body).ok_or(Errno(EINVAL)),
        FUSE_READLINK => readlink_of(body).ok_or(Errno(EINVAL)),
        FUSE_STATFS => statfs_of(body).ok_or(Errno(EINVAL)),
        FUSE_OPENDIR => opendir_of(body).ok_or(Errno(EINVAL)),
        FUSE_READDIR => readdir_of(body).ok_or(Errno(EINVAL)),
        FUSE_RELEASEDIR => releasedir_of(body).ok_or(Errno(EINVAL)),
        FUSE_FSYNC => fsync_of(body).ok_or(Errno(EINVAL)),
        FUSE_FSYNCDIR => fsyncdir_of(body).ok_or(Errno(EINVAL)),
        FUSE_FORGET => forget_of(body).ok_or(Errno(EINVAL)),
        FUSE_BATCH_FORGET => batch_forget_of(body).ok_or(Errno(EINVAL)),
        FUSE_INTERRUPT => interrupt_of(body).ok_or(Errno(EINVAL)),
        FUSE_DESTROY => destroy_of(body).ok_or(Errno(EINVAL)),
        _ => Err(Errno(ENOSYS)),
    }
}

impl<'a> FuseRequest<'a> {
    /// The request that a frame is. It takes no memory.
    ///
    /// ENOSYS exactly for an opcode that isn't served; then EINVAL exactly for a body outside its
    /// grammar.
    pub fn read(frame: &'a [u8]) -> Result<FuseRequest<'a>, Errno>
        requires { IN_HEADER_SIZE ≤ length frame.now }
        ensures { Reads result frame.now }
    {
        FuseRequest::read_behind(Head::read(frame), frame)
    }

    /// The request that a frame is whose head was read before. It is refused as by `read`.
    pub fn read_behind(head: Head, frame: &'a [u8]) -> Result<FuseRequest<'a>, Errno>
        requires long { IN_HEADER_SIZE ≤ length frame.now }
        requires read { head ≡ head_of frame.now }
        ensures { Reads result frame.now }
    {
        let body = body_of(head.opcode, &frame[IN_HEADER_SIZE..])?;
        Ok(FuseRequest { head, body })
    }
}
