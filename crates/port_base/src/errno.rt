//! Error numbers, as Linux has them (`errno(3)`).

/// The operation isn't permitted.
pub const EPERM: u32 = 1;
/// There is no such file or directory.
pub const ENOENT: u32 = 2;
/// Reading or writing failed.
pub const EIO: u32 = 5;
/// A number names no open file.
pub const EBADF: u32 = 9;
/// Permission is denied.
pub const EACCES: u32 = 13;
/// Something is in use.
pub const EBUSY: u32 = 16;
/// The file is there already.
pub const EEXIST: u32 = 17;
/// What should be a directory is none.
pub const ENOTDIR: u32 = 20;
/// It is a directory.
pub const EISDIR: u32 = 21;
/// An argument is not valid.
pub const EINVAL: u32 = 22;
/// Too many files are open.
pub const ENFILE: u32 = 23;
/// A file would be too large.
pub const EFBIG: u32 = 27;
/// No space is left.
pub const ENOSPC: u32 = 28;
/// The file system is read-only.
pub const EROFS: u32 = 30;
/// A file has too many links.
pub const EMLINK: u32 = 31;
/// A name is too long.
pub const ENAMETOOLONG: u32 = 36;
/// The call isn't there.
pub const ENOSYS: u32 = 38;
/// A directory is not empty.
pub const ENOTEMPTY: u32 = 39;
/// There are too many symbolic links.
pub const ELOOP: u32 = 40;
/// A rule of the protocol was broken.
pub const EPROTO: u32 = 71;
/// The operation isn't supported.
pub const EOPNOTSUPP: u32 = 95;
/// What a number named is gone.
pub const ESTALE: u32 = 116;
