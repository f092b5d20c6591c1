//! Changes of the flags of a mount that is there.
ghost use Rattle.std.specs.Prelude.{◌≡◌, IfOk, Some, map};
ghost use Rattle.std.specs.Fmt.{WritesOnOk};
ghost use Rattle.port_base.specs.Flags.{bits_of};
ghost use Rattle.port_base.specs.declared.flags.TheConstants.MsFlags.{MS_RDONLY, MS_NOSUID};
ghost use Rattle.port_base.specs.declared.flags.TheConstants.MsFlags.{MS_NODEV, MS_NOEXEC};
ghost use Rattle.port_base.specs.declared.flags.TheConstants.MsFlags.{MS_SYNCHRONOUS, MS_MANDLOCK};
ghost use Rattle.port_base.specs.declared.flags.TheConstants.MsFlags.{MS_DIRSYNC, MS_NOATIME};
ghost use Rattle.port_base.specs.declared.flags.TheConstants.MsFlags.{MS_NODIRATIME, MS_BIND};
ghost use Rattle.port_base.specs.declared.flags.TheConstants.MsFlags.{MS_RELATIME, MS_STRICTATIME};
ghost use Rattle.libmount.specs.Builders.{apply_to_flags, has_nul, with_flag, Makes};
ghost use Rattle.libmount.specs.BuilderTexts.{flag_names, named, remount_text, set_names};

use crate::path_list::{PathError, has_nul};
use crate::texts::Quoted;
use port_base::flags::MsFlags;
use port_base::sink::NoMemory;
use std::alloc::Global;
use std::fmt;
use std::marker::Model;

// A flag, and what it is called in the options of a mount.
#[derive(Clone, Copy)]
struct FlagName {
    flag: MsFlags,
    name: &'static str,
}

const FLAG_NAMES: [FlagName; 12] = [
    FlagName {
        flag: MsFlags::MS_BIND,
        name: "bind",
    },
    FlagName {
        flag: MsFlags::MS_RDONLY,
        name: "ro",
    },
    FlagName {
        flag: MsFlags::MS_NODEV,
        name: "nodev",
    },
    FlagName {
        flag: MsFlags::MS_NOEXEC,
        name: "noexec",
    },
    FlagName {
        flag: MsFlags::MS_NOSUID,
        name: "nosuid",
    },
    FlagName {
        flag: MsFlags::MS_NOATIME,
        name: "noatime",
    },
    FlagName {
        flag: MsFlags::MS_NODIRATIME,
        name: "nodiratime",
    },
    FlagName {
        flag: MsFlags::MS_RELATIME,
        name: "relatime",
    },
    FlagName {
        flag: MsFlags::MS_STRICTATIME,
        name: "strictatime",
    },
    FlagName {
        flag: MsFlags::MS_DIRSYNC,
        name: "dirsync",
    },
    FlagName {
        flag: MsFlags::MS_SYNCHRONOUS,
        name: "sync",
    },
    FlagName {
        flag: MsFlags::MS_MANDLOCK,
        name: "mand",
    },
];

fn flag_names() -> &'static [FlagName]
    ensures { map named result.now ≡ flag_names }
{
    &FLAG_NAMES
}

/// A change of the flags of a mount (`MS_REMOUNT` of `mount(2)`). Each flag that no setter names
/// stays as it is.
#[derive(Debug, Drop)]
pub struct Remount {
    path: Vec<u8>,
    set: MsFlags,
    cleared: MsFlags,
}

impl Model for Remount {
    ghost use Rattle.port_base.specs.Flags.{bits_of};
    ghost use Rattle.libmount.specs.Builders.{FlagChange};

    ghost Value = { FlagChange };

    ghost view = { λ r. record {
      path = r.path.items;
      set = bits_of r.set;
      cleared =
          bits_of r.cleared;
    } };
}

impl Remount {
    /// A change of the mount at the path, which changes no flag yet. `NulInPath` where the path
    /// has a zero byte.
    pub fn new(alloc: Global, path: &[u8]) -> Result<Remount, PathError>
        ensures { Makes (has_nul path.now) (record { path = path.now; set = 0; cleared = 0 })
            result }
    {
        if has_nul(path) {
            return Err(PathError::NulInPath);
        }
        match path.to_vec(alloc) {
            Ok(path) => Ok(Remount::of(path)),
            Err(_) => Err(PathError::NoMemory),
        }
    }

    // A change of no flag of the mount at the path.
    pub(crate) fn of(path: Vec<u8>) -> Remount
        ensures { result ≡ record { path = path.items; set = 0; cleared = 0 } }
    {
        Remount {
            path,
            set: MsFlags::from_bits_truncate(0),
            cleared: MsFlags::from_bits_truncate(0),
        }
    }

    fn with_flag(mut self, flag: MsFlags, is_set: bool) -> Remount
        ensures { result ≡ with_flag (bits_of flag) is_set self }
    {
        if is_set {
            self.set = self.set.union(flag);
            self.cleared = self.cleared.difference(flag);
        } else {
            self.set = self.set.difference(flag);
            self.cleared = self.cleared.union(flag);
        }
        self
    }

    /// Whether the change is that of this mount alone, and not of its file system.
    pub fn bind(self, flag: bool) -> Remount
        ensures { result ≡ with_flag (bits_of MS_BIND) flag self }
    {
        self.with_flag(MsFlags::MS_BIND, flag)
    }

    /// Whether nothing may be written.
    pub fn readonly(self, flag: bool) -> Remount
        ensures { result ≡ with_flag (bits_of MS_RDONLY) flag self }
    {
        self.with_flag(MsFlags::MS_RDONLY, flag)
    }

    /// Whether device files can't be opened.
    pub fn nodev(self, flag: bool) -> Remount
        ensures { result ≡ with_flag (bits_of MS_NODEV) flag self }
    {
        self.with_flag(MsFlags::MS_NODEV, flag)
    }

    /// Whether programs can't be run.
    pub fn noexec(self, flag: bool) -> Remount
        ensures { result ≡ with_flag (bits_of MS_NOEXEC) flag self }
    {
        self.with_flag(MsFlags::MS_NOEXEC, flag)
    }

    /// Whether the set-user-id and set-group-id bits have no effect.
    pub fn nosuid(self, flag: bool) -> Remount
        ensures { result ≡ with_flag (bits_of MS_NOSUID) flag self }
    {
        self.with_flag(MsFlags::MS_NOSUID, flag)
    }

    /// Whether access times aren't kept.
    pub fn noatime(self, flag: bool) -> Remount
        ensures { result ≡ with_flag (bits_of MS_NOATIME) flag self }
    {
        self.with_flag(MsFlags::MS_NOATIME, flag)
    }

    /// Whether access times of directories aren't kept.
    pub fn nodiratime(self, flag: bool) -> Remount
        ensures { result ≡ with_flag (bits_of MS_NODIRATIME) flag self }
    {
        self.with_flag(MsFlags::MS_NODIRATIME, flag)
    }

    /// Whether access times are kept where they would be older than a change.
    pub fn relatime(self, flag: bool) -> Remount
        ensures { result ≡ with_flag (bits_of MS_RELATIME) flag self }
    {
        self.with_flag(MsFlags::MS_RELATIME, flag)
    }

    /// Whether access times are always kept.
    pub fn strictatime(self, flag: bool) -> Remount
        ensures { result ≡ with_flag (bits_of MS_STRICTATIME) flag self }
    {
        self.with_flag(MsFlags::MS_STRICTATIME, flag)
    }

    /// Whether each change of a directory goes through to the device at once.
    pub fn dirsync(self, flag: bool) -> Remount
        ensures { result ≡ with_flag (bits_of MS_DIRSYNC) flag self }
    {
        self.with_flag(MsFlags::MS_DIRSYNC, flag)
    }

    /// Whether each write goes through to the device at once.
    pub fn synchronous(self, flag: bool) -> Remount
        ensures { result ≡ with_flag (bits_of MS_SYNCHRONOUS) flag self }
    {
        self.with_flag(MsFlags::MS_SYNCHRONOUS, flag)
    }

    /// Whether mandatory locks are allowed.
    pub fn mandlock(self, flag: bool) -> Remount
        ensures { result ≡ with_flag (bits_of MS_MANDLOCK) flag self }
    {
        self.with_flag(MsFlags::MS_MANDLOCK, flag)
    }

    /// The flags after the change: just those that a setter named are set or cleared.
    pub fn apply_to_flags(&self, flags: MsFlags) -> MsFlags
        ensures { bits_of result ≡ apply_to_flags self.now (bits_of flags) }
    {
        flags.difference(self.cleared).union(self.set)
    }

    // Where the mount is.
    pub(crate) fn path(&self) -> &[u8]
        ensures { result.now ≡ self.now.path }
    {
        &self.path
    }

    /// A copy of the builder.
    pub fn try_clone(&self, alloc: Global) -> Result<Remount, NoMemory>
        ensures { IfOk result (λ copy. copy ≡ self.now) }
    {
        Ok(Remount {
            path: self.path.to_vec(alloc).map_err(|_| NoMemory)?,
            set: self.set,
            cleared: self.cleared,
        })
    }
}

// The names of the flags that are set, with commas between them.
#[derive(Clone, Copy)]
struct SetNames(MsFlags);

impl fmt::Display for SetNames {
    ghost output = { λ names. Some (set_names (bits_of names.0)) };

    fn fmt<W: fmt::Write>(&self, f: &mut fmt::Formatter<W>) -> fmt::Result {
        let mut separator = "";
        for row in flag_names() {
            if self.0.contains(row.flag) {
                write!(f, "{}{}", separator, row.name)?;
                separator = ",";
            }
        }
        Ok(())
    }
}

impl fmt::Display for Remount {
    ghost output = { λ change. Some (remount_text change) };

    #[tactic(auto, unfolding(crate::specs::BuilderTexts::remount_text))]
    fn fmt<W: fmt::Write>(&self, f: &mut fmt::Formatter<W>) -> fmt::Result {
        if !self.set.is_empty() {
            write!(f, "{} ", SetNames(self.set))?;
        }
        write!(f, "remount {}", Quoted(&self.path))
    }
}
