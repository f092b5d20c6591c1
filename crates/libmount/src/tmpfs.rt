//! File systems in memory.
ghost use Rattle.std.specs.Prelude.{◌≡◌, IfOk, Some, None};
ghost use Rattle.libmount.specs.Builders.{has_nul, options_of, Makes};
ghost use Rattle.libmount.specs.BuilderTexts.{leading_zeros, option_text, options_text, tmpfs_text};
ghost use Rattle.libmount.specs.declared.tmpfs.Size.TheVariants as limit;

use crate::path_list::{PathError, has_nul};
use crate::texts::Quoted;
use port_base::sink::NoMemory;
use std::alloc::Global;
use std::fmt;
use std::marker::Model;

/// How much a file system in memory may hold.
#[derive(Clone, Copy, Debug, PartialEq, Eq)]
pub(crate) enum Size {
    Bytes(usize),
    Blocks(usize),
}

/// An option of a file system in memory (`tmpfs(5)`).
#[derive(Clone, Copy, Debug, PartialEq, Eq)]
pub(crate) enum TmpfsOption {
    Size(Size),
    NrInodes(usize),
    Mode(u32),
    Uid(u32),
    Gid(u32),
}

// The zeros before a number in octal digits, which make it four digits long.
fn leading_zeros(mode: u32) -> &'static str
    ensures { result.now ≡ leading_zeros mode }
{
    if mode < 0o10 {
        "000"
    } else if mode < 0o100 {
        "00"
    } else if mode < 0o1000 {
        "0"
    } else {
        ""
    }
}

impl fmt::Display for TmpfsOption {
    ghost output = { λ o. Some (option_text o) };

    fn fmt<W: fmt::Write>(&self, f: &mut fmt::Formatter<W>) -> fmt::Result {
        match self {
            TmpfsOption::Size(Size::Bytes(bytes)) => write!(f, "size={bytes}"),
            TmpfsOption::Size(Size::Blocks(blocks)) => write!(f, "nr_blocks={blocks}"),
            TmpfsOption::NrInodes(inodes) => write!(f, "nr_inodes={inodes}"),
            TmpfsOption::Mode(mode) => { write!(f, "mode=0{}{:o}", leading_zeros(*mode), mode) }
            TmpfsOption::Uid(uid) => write!(f, "uid={uid}"),
            TmpfsOption::Gid(gid) => write!(f, "gid={gid}"),
        }
    }
}

/// A mount of a new file system in memory, on which set-user-id bits and device files have no
/// effect.
#[derive(Debug, Drop)]
pub struct Tmpfs {
    target: Vec<u8>,
    size: Option<Size>,
    nr_inodes: Option<usize>,
    mode: Option<u32>,
    uid: Option<u32>,
    gid: Option<u32>,
}

impl Model for Tmpfs {
    ghost use Rattle.libmount.specs.Builders.{InMemory};

    ghost Value = { InMemory };

    ghost view = { λ t. record {
      target = t.target.items;
      size = t.size;
      nr_inodes = t.nr_inodes;
      mode = t.mode;
      uid = t.uid;
      gid = t.gid;
    } };
}

impl Tmpfs {
    /// A file system at the path, with no options. `NulInPath` where the path has a zero byte.
    pub fn new(alloc: Global, path: &[u8]) -> Result<Tmpfs, PathError>
        ensures { Makes (has_nul path.now)
            (record {
              target = path.now;
              size = None;
              nr_inodes = None;
              mode = None;
              uid =
                  None;
              gid = None;
            }) result }
    {
        if has_nul(path) {
            return Err(PathError::NulInPath);
        }
        let Ok(target) = path.to_vec(alloc) else {
            return Err(PathError::NoMemory);
        };
        Ok(Tmpfs {
            target,
            size: None,
            nr_inodes: None,
            mode: None,
            uid: None,
            gid: None,
        })
    }

    /// How many bytes it may hold. Of this and `size_blocks` the last call counts.
    pub fn size_bytes(mut self, size: usize) -> Tmpfs
        ensures { result ≡ record self { size = Some (limit.Bytes size) } }
    {
        self.size = Some(Size::Bytes(size));
        self
    }

    /// How many blocks of a page it may hold. Of this and `size_bytes` the last call counts.
    pub fn size_blocks(mut self, size: usize) -> Tmpfs
        ensures { result ≡ record self { size = Some (limit.Blocks size) } }
    {
        self.size = Some(Size::Blocks(size));
        self
    }

    /// How many inodes it may have.
    pub fn nr_inodes(mut self, n: usize) -> Tmpfs
        ensures { result ≡ record self { nr_inodes = Some n } }
    {
        self.nr_inodes = Some(n);
        self
    }

    /// The permission bits of its top directory.
    pub fn mode(mut self, mode: u32) -> Tmpfs
        ensures { result ≡ record self { mode = Some mode } }
    {
        self.mode = Some(mode);
        self
    }

    /// The owner of its top directory.
    pub fn uid(mut self, uid: u32) -> Tmpfs
        ensures { result ≡ record self { uid = Some uid } }
    {
        self.uid = Some(uid);
        self
    }

    /// The group of its top directory.
    pub fn gid(mut self, gid: u32) -> Tmpfs
        ensures { result ≡ record self { gid = Some gid } }
    {
        self.gid = Some(gid);
        self
    }

    // Where it is mounted.
    pub(crate) fn target(&self) -> &[u8]
        ensures { result.now ≡ self.now.target }
    {
        &self.target
    }

    /// A copy of the builder.
    pub fn try_clone(&self, alloc: Global) -> Result<Tmpfs, NoMemory>
        ensures { IfOk result (λ copy. copy ≡ self.now) }
    {
        Ok(Tmpfs {
            target: self.target.to_vec(alloc).map_err(|_| NoMemory)?,
            size: self.size,
            nr_inodes: self.nr_inodes,
            mode: self.mode,
            uid: self.uid,
            gid: self.gid,
        })
    }

    // The options in their order, each where it is set.
    pub(crate) fn options(&self) -> Options
        ensures { result.0 ≡ options_of self.now }
    {
        Options([
            self.size.map(TmpfsOption::Size),
            self.nr_inodes.map(TmpfsOption::NrInodes),
            self.mode.map(TmpfsOption::Mode),
            self.uid.map(TmpfsOption::Uid),
            self.gid.map(TmpfsOption::Gid),
        ])
    }
}

/// The options of a file system in memory, as `mount(2)` takes them: those that are set, with
/// commas between them.
#[derive(Clone, Copy, Debug)]
pub(crate) struct Options([Option<TmpfsOption>; 5]);

impl fmt::Display for Options {
    ghost output = { λ options. Some (options_text options.0) };

    fn fmt<W: fmt::Write>(&self, f: &mut fmt::Formatter<W>) -> fmt::Result {
        let mut separator = "";
        let options: &[Option<TmpfsOption>] = &self.0;
        for option in options {
            if let Some(option) = option {
                write!(f, "{separator}{option}")?;
                separator = ",";
            }
        }
        Ok(())
    }
}

impl fmt::Display for Tmpfs {
    ghost output = { λ tmpfs. Some (tmpfs_text tmpfs) };

    #[tactic(auto, unfolding(crate::specs::BuilderTexts::tmpfs_text, crate::specs::BuilderTexts::tmpfs_options))]
    fn fmt<W: fmt::Write>(&self, f: &mut fmt::Formatter<W>) -> fmt::Result {
        write!(f, "tmpfs {} -> {}", self.options(), Quoted(&self.target))
    }
}
