//! What a fid names.
ghost use Rattle.std.specs.Prelude.{◌≡◌};
ghost use Rattle.fid_model.specs.Fids.{appends, closed, is_open, is_readable, is_writable};
ghost use Rattle.fid_model.specs.Answers.{opened};
ghost use Rattle.fid_model.specs.Setattr.{is_open_to_read_alone};

use port_base::oflag::{O_APPEND, O_RDONLY, O_WRONLY, access_mode, has_flag};
use std::marker::Model;

/// Whether a fid is open, and how.
#[derive(Drop)]
pub enum OpenMode {
    /// It isn't open.
    Closed,
    /// It is open: its access mode (`O_ACCMODE`), and whether what is written goes to the end.
    Opened { access: u32, append: bool },
}

/// An inode, whatever becomes of its names, and how it is open.
#[derive(Drop)]
pub struct FidState {
    ino: u64,
    mode: OpenMode,
}

impl Model for FidState {
    ghost use Rattle.fid_model.specs.Fids.{Fid};
    ghost use Rattle.p9_server.specs.OpenModes.{open_of};

    ghost Value = { Fid };

    ghost view = { λ a. record { ino = a.ino; open_state = open_of a.mode } };
}

impl FidState {
    /// A fid that isn't open.
    pub fn closed(ino: u64) -> Self
        ensures { result ≡ closed ino }
    {
        FidState {
            ino,
            mode: OpenMode::Closed,
        }
    }

    /// A fid that is open as the flags of `open(2)` say.
    pub fn opened(ino: u64, flags: u32) -> Self
        ensures { result ≡ opened (closed ino) flags }
    {
        FidState {
            ino,
            mode: OpenMode::Opened {
                access: access_mode(flags),
                append: has_flag(flags, O_APPEND),
            },
        }
    }

    /// Whether it is open, in whatever way.
    pub fn is_open(&self) -> bool
        ensures { result ≡ is_open self.now.open_state }
    {
        match &self.mode {
            OpenMode::Closed => false,
            OpenMode::Opened { .. } => true,
        }
    }

    /// Whether it is open, and not for writing alone.
    pub fn is_readable(&self) -> bool
        ensures { result ≡ is_readable self.now.open_state }
    {
        match &self.mode {
            OpenMode::Closed => false,
            OpenMode::Opened { access, .. } => *access != O_WRONLY,
        }
    }

    /// Whether it is open, and not for reading alone.
    pub fn is_writable(&self) -> bool
        ensures { result ≡ is_writable self.now.open_state }
    {
        match &self.mode {
            OpenMode::Closed => false,
            OpenMode::Opened { access, .. } => *access != O_RDONLY,
        }
    }

    /// Whether it is open for reading alone.
    pub fn is_open_to_read_alone(&self) -> bool
        ensures { result ≡ is_open_to_read_alone self.now.open_state }
    {
        match &self.mode {
            OpenMode::Closed => false,
            OpenMode::Opened { access, .. } => *access == O_RDONLY,
        }
    }

    /// Whether what is written goes to the file's end.
    pub fn appends(&self) -> bool
        ensures { result ≡ appends self.now.open_state }
    {
        match &self.mode {
            OpenMode::Closed => false,
            OpenMode::Opened { append, .. } => *append,
        }
    }

    /// The number of the inode.
    pub fn ino(&self) -> u64
        ensures { result ≡ self.now.ino }
    {
        self.ino
    }
}
