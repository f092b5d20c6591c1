//! What is asked, by numbers as Linux's `fuse.h` has them (protocol 7).
ghost use Rattle.std.specs.Prelude.{◌≡◌};
ghost use Rattle.fuse_wire.specs.Opcode.{is_silent};

/// Looks a name up in a directory.
pub const FUSE_LOOKUP: u32 = 1;
/// Asks for attributes.
pub const FUSE_GETATTR: u32 = 3;
/// Sets attributes.
pub const FUSE_SETATTR: u32 = 4;
/// Takes a name out of a directory.
pub const FUSE_UNLINK: u32 = 10;
/// Makes a directory.
pub const FUSE_MKDIR: u32 = 9;
/// Gives a file one more name.
pub const FUSE_LINK: u32 = 13;
/// Makes a file, and opens it.
pub const FUSE_CREATE: u32 = 35;
/// Takes the name of an empty directory out of a directory.
pub const FUSE_RMDIR: u32 = 11;
/// Moves a name.
pub const FUSE_RENAME: u32 = 12;
/// Moves a name, by flags.
pub const FUSE_RENAME2: u32 = 45;
/// Makes a symbolic link.
pub const FUSE_SYMLINK: u32 = 6;
/// Makes a special file.
pub const FUSE_MKNOD: u32 = 8;
/// Asks for the target of a symbolic link.
pub const FUSE_READLINK: u32 = 5;
/// Asks how much a tree may have.
pub const FUSE_STATFS: u32 = 17;
/// Opens a file.
pub const FUSE_OPEN: u32 = 14;
/// Reads a file.
pub const FUSE_READ: u32 = 15;
/// Writes a file.
pub const FUSE_WRITE: u32 = 16;
/// Ends a handle.
pub const FUSE_RELEASE: u32 = 18;
/// One of the descriptors of a handle was closed.
pub const FUSE_FLUSH: u32 = 25;
/// Opens a directory.
pub const FUSE_OPENDIR: u32 = 27;
/// Lists a directory.
pub const FUSE_READDIR: u32 = 28;
/// Ends the handle of a directory.
pub const FUSE_RELEASEDIR: u32 = 29;
/// Keeps what was written.
pub const FUSE_FSYNC: u32 = 20;
/// Keeps what was changed of a directory.
pub const FUSE_FSYNCDIR: u32 = 30;
/// Begins a session.
pub const FUSE_INIT: u32 = 26;
/// Ends a session.
pub const FUSE_DESTROY: u32 = 38;

/// Counts a node down. It never gets a reply.
pub const FUSE_FORGET: u32 = 2;
/// Takes a request back. It never gets a reply.
pub const FUSE_INTERRUPT: u32 = 36;
/// Counts several nodes down. It never gets a reply.
pub const FUSE_BATCH_FORGET: u32 = 42;

/// A flag of GETATTR: a handle is given.
pub const FUSE_GETATTR_FH: u32 = 1;

/// A flag of READ and READDIR: the owner of a lock is given.
pub const FUSE_READ_LOCKOWNER: u32 = 2;

/// Whether a request never gets a reply: FORGET, INTERRUPT and BATCH_FORGET.
pub fn is_silent(opcode: u32) -> bool
    ensures { result ≡ is_silent opcode }
{
    opcode == FUSE_FORGET || opcode == FUSE_INTERRUPT || opcode == FUSE_BATCH_FORGET
}
