//! Flags of an open file, as Linux has them (`open(2)`).
ghost use Rattle.std.specs.Prelude.{◌≡◌};
ghost use Rattle.port_base.specs.OpenFlags.{access, has_flag};

/// Opened to read.
pub const O_RDONLY: u32 = 0;
/// Opened to write.
pub const O_WRONLY: u32 = 1;
/// Opened to read and to write.
pub const O_RDWR: u32 = 2;
/// The bits that tell how a file is opened; all of them together are refused.
pub const O_ACCMODE: u32 = 3;
/// Makes the file where there is none.
pub const O_CREAT: u32 = 0o100;
/// With `O_CREAT`: refuses a file that is there.
pub const O_EXCL: u32 = 0o200;
/// Cuts the file to nothing.
pub const O_TRUNC: u32 = 0o1000;
/// Writes at the file's end.
pub const O_APPEND: u32 = 0o2000;
/// Refuses what is no directory.
pub const O_DIRECTORY: u32 = 0o200000;
/// Doesn't follow a symbolic link.
pub const O_NOFOLLOW: u32 = 0o400000;

/// How a file is opened by these flags: `O_RDONLY`, `O_WRONLY`, `O_RDWR`, or `O_ACCMODE`, which is
/// refused.
pub fn access_mode(flags: u32) -> u32
    ensures { result ≡ access flags }
{
    flags % (O_ACCMODE + 1)
}

/// Whether a flag of one bit is among these flags.
pub fn has_flag(flags: u32, flag: u32) -> bool
    ensures { result ≡ has_flag flag flags }
{
    flags & flag != 0
}
