// The messages that a client sends, in the order of their types, with their fields in the order of
// the wire.
use p9_wire::data::Data;
use p9_wire::text::P9String;

/// Asks for the sizes of the file system that the fid's file is in.
#[derive(Debug, Drop)]
pub struct Tstatfs {
    pub fid: u32,
}

/// Opens the fid's file. `flags` are Linux open flags.
#[derive(Debug, Drop)]
pub struct Tlopen {
    pub fid: u32,
    pub flags: u32,
}

/// Makes the file `name` in the fid's directory and opens it; the fid names the file then.
#[derive(Debug, Drop)]
pub struct Tlcreate {
    pub fid: u32,
    pub name: P9String,
    pub flags: u32,
    pub mode: u32,
    pub gid: u32,
}

/// Makes the symbolic link `name` to `symtgt` in the fid's directory.
#[derive(Debug, Drop)]
pub struct Tsymlink {
    pub fid: u32,
    pub name: P9String,
    pub symtgt: P9String,
    pub gid: u32,
}

/// Makes the file, device or pipe `name` in the directory `dfid`. `mode` has the type bits.
#[derive(Debug, Drop)]
pub struct Tmknod {
    pub dfid: u32,
    pub name: P9String,
    pub mode: u32,
    pub major: u32,
    pub minor: u32,
    pub gid: u32,
}

/// Moves the fid's file to `name` in the directory `dfid`.
#[derive(Debug, Drop)]
pub struct Trename {
    pub fid: u32,
    pub dfid: u32,
    pub name: P9String,
}

/// Asks for the target of the fid's symbolic link.
#[derive(Debug, Drop)]
pub struct Treadlink {
    pub fid: u32,
}

/// Asks for attributes of the fid's file, as the bits of `request_mask` name them.
#[derive(Debug, Drop)]
pub struct Tgetattr {
    pub fid: u32,
    pub request_mask: u64,
}

/// Changes those attributes of the fid's file that the bits of `valid` name. Times are in seconds
/// and nanoseconds.
#[derive(Debug, Drop)]
pub struct Tsetattr {
    pub fid: u32,
    pub valid: u32,
    pub mode: u32,
    pub uid: u32,
    pub gid: u32,
    pub size: u64,
    pub atime_sec: u64,
    pub atime_nsec: u64,
    pub mtime_sec: u64,
    pub mtime_nsec: u64,
}

/// Makes `newfid` name the extended attribute `name` of the fid's file, or its list of attributes
/// where `name` is empty.
#[derive(Debug, Drop)]
pub struct Txattrwalk {
    pub fid: u32,
    pub newfid: u32,
    pub name: P9String,
}

/// Makes an extended attribute of `attr_size` bytes, which later writes to the fid fill.
#[derive(Debug, Drop)]
pub struct Txattrcreate {
    pub fid: u32,
    pub name: P9String,
    pub attr_size: u64,
    pub flags: u32,
}

/// Reads entries of the fid's directory after the cookie `offset`, in at most `count` bytes.
#[derive(Debug, Drop)]
pub struct Treaddir {
    pub fid: u32,
    pub offset: u64,
    pub count: u32,
}

/// Writes the fid's file back to the disk; its data alone where `datasync` isn't 0.
#[derive(Debug, Drop)]
pub struct Tfsync {
    pub fid: u32,
    pub datasync: u32,
}

/// Takes, tests or gives up a POSIX lock on `length` bytes from `start`; a length of 0 is up to
/// the file's end.
#[derive(Debug, Drop)]
pub struct Tlock {
    pub fid: u32,
    pub kind_: u8,
    pub flags: u32,
    pub start: u64,
    pub length: u64,
    pub proc_id: u32,
    pub client_id: P9String,
}

/// Asks for a lock that stands in the way of this one.
#[derive(Debug, Drop)]
pub struct Tgetlock {
    pub fid: u32,
    pub kind_: u8,
    pub start: u64,
    pub length: u64,
    pub proc_id: u32,
    pub client_id: P9String,
}

/// Makes `name` in the directory `dfid` a further name of the fid's file.
#[derive(Debug, Drop)]
pub struct Tlink {
    pub dfid: u32,
    pub fid: u32,
    pub name: P9String,
}

/// Makes the directory `name` in the directory `dfid`.
#[derive(Debug, Drop)]
pub struct Tmkdir {
    pub dfid: u32,
    pub name: P9String,
    pub mode: u32,
    pub gid: u32,
}

/// Moves `oldname` of one directory to `newname` of another.
#[derive(Debug, Drop)]
pub struct Trenameat {
    pub olddirfid: u32,
    pub oldname: P9String,
    pub newdirfid: u32,
    pub newname: P9String,
}

/// Removes `name` from the directory `dirfd`. `flags` tell a directory from a file.
#[derive(Debug, Drop)]
pub struct Tunlinkat {
    pub dirfd: u32,
    pub name: P9String,
    pub flags: u32,
}

/// Begins a session: the largest frame in bytes, and the protocol's name.
#[derive(Debug, Drop)]
pub struct Tversion {
    pub msize: u32,
    pub version: P9String,
}

/// Makes `afid` a file over which a user proves who he is.
#[derive(Debug, Drop)]
pub struct Tauth {
    pub afid: u32,
    pub uname: P9String,
    pub aname: P9String,
    pub n_uname: u32,
}

/// Makes `fid` the root of the tree `aname` for a user.
#[derive(Debug, Drop)]
pub struct Tattach {
    pub fid: u32,
    pub afid: u32,
    pub uname: P9String,
    pub aname: P9String,
    pub n_uname: u32,
}

/// Gives up the request whose tag is `oldtag`.
#[derive(Debug, Drop)]
pub struct Tflush {
    pub oldtag: u16,
}

/// Makes `newfid` the file that the names lead to from `fid`.
#[derive(Debug, Drop)]
pub struct Twalk {
    pub fid: u32,
    pub newfid: u32,
    pub wnames: Vec<P9String>,
}

/// Reads at most `count` bytes of the fid's file from `offset` on.
#[derive(Debug, Drop)]
pub struct Tread {
    pub fid: u32,
    pub offset: u64,
    pub count: u32,
}

/// Writes the payload to the fid's file from `offset` on.
#[derive(Debug, Drop)]
pub struct Twrite {
    pub fid: u32,
    pub offset: u64,
    pub payload: Data,
}

/// Lets the fid go.
#[derive(Debug, Drop)]
pub struct Tclunk {
    pub fid: u32,
}

/// Removes the fid's file, and lets the fid go.
#[derive(Debug, Drop)]
pub struct Tremove {
    pub fid: u32,
}

/// A message that a client sends.
#[derive(Debug, Drop)]
pub enum Tmessage {
    Statfs(Tstatfs),
    Lopen(Tlopen),
    Lcreate(Tlcreate),
    Symlink(Tsymlink),
    Mknod(Tmknod),
    Rename(Trename),
    Readlink(Treadlink),
    GetAttr(Tgetattr),
    SetAttr(Tsetattr),
    XattrWalk(Txattrwalk),
    XattrCreate(Txattrcreate),
    Readdir(Treaddir),
    Fsync(Tfsync),
    Lock(Tlock),
    GetLock(Tgetlock),
    Link(Tlink),
    Mkdir(Tmkdir),
    RenameAt(Trenameat),
    UnlinkAt(Tunlinkat),
    Version(Tversion),
    Auth(Tauth),
    Attach(Tattach),
    Flush(Tflush),
    Walk(Twalk),
    Read(Tread),
    Write(Twrite),
    Clunk(Tclunk),
    Remove(Tremove),
}
