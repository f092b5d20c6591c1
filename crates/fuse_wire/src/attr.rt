//! Attributes of an inode.
ghost use Rattle.std.specs.Prelude.{◌≡◌};
ghost use Rattle.fuse_wire.specs.Listing.{type_number};

/// What an inode is.
#[derive(Clone, Copy, Debug, PartialEq, Eq)]
pub enum FileType {
    Directory,
    RegularFile,
    Symlink,
}

impl FileType {
    /// Its number, as `d_type` of readdir(3) tells it.
    pub fn number(self) -> u32
        ensures { result ≡ type_number self }
    {
        match self {
            FileType::Directory => 4,
            FileType::RegularFile => 8,
            FileType::Symlink => 10,
        }
    }
}

/// What a reply shows of an inode: `fuse_attr` of `fuse.h`, 88 bytes, in this order.
#[derive(Clone, Copy, Debug, PartialEq, Eq)]
pub struct FileAttr {
    /// The inode's number.
    pub ino: u64,
    /// The size in bytes.
    pub size: u64,
    /// The size in blocks of 512 bytes.
    pub blocks: u64,
    /// When it was last read, in seconds.
    pub atime: u64,
    /// When its contents last changed, in seconds.
    pub mtime: u64,
    /// When it last changed, in seconds.
    pub ctime: u64,
    /// The nanoseconds of `atime`.
    pub atimensec: u32,
    /// The nanoseconds of `mtime`.
    pub mtimensec: u32,
    /// The nanoseconds of `ctime`.
    pub ctimensec: u32,
    /// The kind and the permissions.
    pub mode: u32,
    /// How many names it has.
    pub nlink: u32,
    /// The owner.
    pub uid: u32,
    /// The owning group.
    pub gid: u32,
    /// The device number, 0 where it is no device.
    pub rdev: u32,
    /// The size for efficient reads and writes, in bytes.
    pub blksize: u32,
    /// Flags, 0.
    pub flags: u32,
}
