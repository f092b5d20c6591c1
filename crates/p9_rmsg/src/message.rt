// The messages that a server answers, in the order of their types, with their fields in the order
// of the wire.
use p9_wire::data::Data;
use p9_wire::qid::Qid;
use p9_wire::text::P9String;

/// A refusal: a Linux error number.
#[derive(Debug, Drop)]
pub struct Rlerror {
    pub ecode: u32,
}

/// The sizes of a file system, in blocks of `bsize` bytes and in files.
#[derive(Debug, Drop)]
pub struct Rstatfs {
    pub ty: u32,
    pub bsize: u32,
    pub blocks: u64,
    pub bfree: u64,
    pub bavail: u64,
    pub files: u64,
    pub ffree: u64,
    pub fsid: u64,
    pub namelen: u32,
}

/// The opened file's qid, and how many bytes one message carries at most (0: as many as fit).
#[derive(Debug, Drop)]
pub struct Rlopen {
    pub qid: Qid,
    pub iounit: u32,
}

/// The new file's qid, and how many bytes one message carries at most (0: as many as fit).
#[derive(Debug, Drop)]
pub struct Rlcreate {
    pub qid: Qid,
    pub iounit: u32,
}

/// The new link's qid.
#[derive(Debug, Drop)]
pub struct Rsymlink {
    pub qid: Qid,
}

/// The new file's qid.
#[derive(Debug, Drop)]
pub struct Rmknod {
    pub qid: Qid,
}

/// The target of a symbolic link.
#[derive(Debug, Drop)]
pub struct Rreadlink {
    pub target: P9String,
}

/// A file's attributes; the bits of `valid` name those that are told. Times are in seconds and
/// nanoseconds.
#[derive(Debug, Drop)]
pub struct Rgetattr {
    pub valid: u64,
    pub qid: Qid,
    pub mode: u32,
    pub uid: u32,
    pub gid: u32,
    pub nlink: u64,
    pub rdev: u64,
    pub size: u64,
    pub blksize: u64,
    pub blocks: u64,
    pub atime_sec: u64,
    pub atime_nsec: u64,
    pub mtime_sec: u64,
    pub mtime_nsec: u64,
    pub ctime_sec: u64,
    pub ctime_nsec: u64,
    pub btime_sec: u64,
    pub btime_nsec: u64,
    pub generation: u64,
    pub data_version: u64,
}

/// The length in bytes of an extended attribute.
#[derive(Debug, Drop)]
pub struct Rxattrwalk {
    pub size: u64,
}

/// Entries of a directory, as `Dirent`s one after another.
#[derive(Debug, Drop)]
pub struct Rreaddir {
    pub payload: Data,
}

/// How a request for a lock went: 0 success, 1 blocked, 2 error, 3 grace.
#[derive(Debug, Drop)]
pub struct Rlock {
    pub status: u8,
}

/// The lock that stands in the way; `kind_` is 2 where there is none.
#[derive(Debug, Drop)]
pub struct Rgetlock {
    pub kind_: u8,
    pub start: u64,
    pub length: u64,
    pub proc_id: u32,
    pub client_id: P9String,
}

/// The new directory's qid.
#[derive(Debug, Drop)]
pub struct Rmkdir {
    pub qid: Qid,
}

/// The largest frame in bytes, and the protocol's name.
#[derive(Debug, Drop)]
pub struct Rversion {
    pub msize: u32,
    pub version: P9String,
}

/// The qid of the file over which a user proves who he is.
#[derive(Debug, Drop)]
pub struct Rauth {
    pub aqid: Qid,
}

/// The qid of the tree's root.
#[derive(Debug, Drop)]
pub struct Rattach {
    pub qid: Qid,
}

/// The qids of the files along the names, as far as they lead.
#[derive(Debug, Drop)]
pub struct Rwalk {
    pub wqids: Vec<Qid>,
}

/// The bytes that were read.
#[derive(Debug, Drop)]
pub struct Rread {
    pub payload: Data,
}

/// How many bytes were written.
#[derive(Debug, Drop)]
pub struct Rwrite {
    pub count: u32,
}

/// A message that a server answers. A variant without fields says that the request was carried out.
#[derive(Debug, Drop)]
pub enum Rmessage {
    Lerror(Rlerror),
    Statfs(Rstatfs),
    Lopen(Rlopen),
    Lcreate(Rlcreate),
    Symlink(Rsymlink),
    Mknod(Rmknod),
    Rename,
    Readlink(Rreadlink),
    GetAttr(Rgetattr),
    SetAttr,
    XattrWalk(Rxattrwalk),
    XattrCreate,
    Readdir(Rreaddir),
    Fsync,
    Lock(Rlock),
    GetLock(Rgetlock),
    Link,
    Mkdir(Rmkdir),
    RenameAt,
    UnlinkAt,
    Version(Rversion),
    Auth(Rauth),
    Attach(Rattach),
    Flush,
    Walk(Rwalk),
    Read(Rread),
    Write(Rwrite),
    Clunk,
    Remove,
}
