//! Flags of a mount, as Linux has them (`mount(2)`).
ghost use Rattle.std.specs.Prelude.{⊤, ◌≡◌, ◌==◌, [], ◌∷◌, codes};
ghost use Rattle.std.specs.Int.RustNames.{bit_and, bit_or};
ghost use Rattle.port_base.specs.Flags.{bits_of, flag_table, known_flags, without};

use bitflags::{Flag, Flags};

/// A set of mount flags.
#[derive(Clone, Copy, Debug, PartialEq, Eq, Hash)]
pub struct MsFlags {
    bits: u64,
}

impl MsFlags {
    /// Nothing may be written.
    pub const MS_RDONLY: MsFlags = MsFlags { bits: 1 };
    /// The set-user-id and set-group-id bits have no effect.
    pub const MS_NOSUID: MsFlags = MsFlags { bits: 2 };
    /// Device files can't be opened.
    pub const MS_NODEV: MsFlags = MsFlags { bits: 4 };
    /// Programs can't be run.
    pub const MS_NOEXEC: MsFlags = MsFlags { bits: 8 };
    /// Each write goes through to the device at once.
    pub const MS_SYNCHRONOUS: MsFlags = MsFlags { bits: 16 };
    /// Changes the flags of a mount that is there.
    pub const MS_REMOUNT: MsFlags = MsFlags { bits: 32 };
    /// Mandatory locks are allowed.
    pub const MS_MANDLOCK: MsFlags = MsFlags { bits: 64 };
    /// Each change of a directory goes through to the device at once.
    pub const MS_DIRSYNC: MsFlags = MsFlags { bits: 128 };
    /// Access times aren't kept.
    pub const MS_NOATIME: MsFlags = MsFlags { bits: 1024 };
    /// Access times of directories aren't kept.
    pub const MS_NODIRATIME: MsFlags = MsFlags { bits: 2048 };
    /// Shows a part of the tree at another place too.
    pub const MS_BIND: MsFlags = MsFlags { bits: 4096 };
    /// Moves a mount to another place.
    pub const MS_MOVE: MsFlags = MsFlags { bits: 8192 };
    /// With `MS_BIND`: the mounts below come along.
    pub const MS_REC: MsFlags = MsFlags { bits: 16384 };
    /// Access times are kept where they would be older than a change.
    pub const MS_RELATIME: MsFlags = MsFlags { bits: 2097152 };
    /// Access times are always kept.
    pub const MS_STRICTATIME: MsFlags = MsFlags { bits: 16777216 };

    const FLAGS: &'static [Flag<MsFlags>] = &[
        Flag {
            name: "MS_RDONLY",
            value: MsFlags::MS_RDONLY,
        },
        Flag {
            name: "MS_NOSUID",
            value: MsFlags::MS_NOSUID,
        },
        Flag {
            name: "MS_NODEV",
            value: MsFlags::MS_NODEV,
        },
        Flag {
            name: "MS_NOEXEC",
            value: MsFlags::MS_NOEXEC,
        },
        Flag {
            name: "MS_SYNCHRONOUS",
            value: MsFlags::MS_SYNCHRONOUS,
        },
        Flag {
            name: "MS_REMOUNT",
            value: MsFlags::MS_REMOUNT,
        },
        Flag {
            name: "MS_MANDLOCK",
            value: MsFlags::MS_MANDLOCK,
        },
        Flag {
            name: "MS_DIRSYNC",
            value: MsFlags::MS_DIRSYNC,
        },
        Flag {
            name: "MS_NOATIME",
            value: MsFlags::MS_NOATIME,
        },
        Flag {
            name: "MS_NODIRATIME",
            value: MsFlags::MS_NODIRATIME,
        },
        Flag {
            name: "MS_BIND",
            value: MsFlags::MS_BIND,
        },
        Flag {
            name: "MS_MOVE",
            value: MsFlags::MS_MOVE,
        },
        Flag {
            name: "MS_REC",
            value: MsFlags::MS_REC,
        },
        Flag {
            name: "MS_RELATIME",
            value: MsFlags::MS_RELATIME,
        },
        Flag {
            name: "MS_STRICTATIME",
            value: MsFlags::MS_STRICTATIME,
        },
    ];

    /// The bits.
    pub fn bits(&self) -> u64
        ensures { result ≡ bits_of self.now }
    {
        self.bits
    }

    /// The flags among these bits; bits that no flag names are dropped.
    pub fn from_bits_truncate(bits: u64) -> MsFlags
        ensures { bits_of result ≡ bit_and bits known_flags }
    {
        <MsFlags as Flags>::from_bits_truncate(bits)
    }

    /// The flags that either has.
    pub fn union(self, other: MsFlags) -> MsFlags
        ensures { bits_of result ≡ bit_or (bits_of self) (bits_of other) }
    {
        Flags::union(self, other)
    }

    /// The flags of this set that `other` doesn't have.
    pub fn difference(self, other: MsFlags) -> MsFlags
        ensures { bits_of result ≡ without (bits_of self) (bits_of other) }
    {
        Flags::difference(self, other)
    }

    /// Whether this set has every flag of `other`.
    pub fn contains(&self, other: MsFlags) -> bool
        ensures { result ≡ (bit_and (bits_of self.now) (bits_of other) == bits_of other) }
    {
        Flags::contains(self, other)
    }

    /// Whether no flag is set.
    pub fn is_empty(&self) -> bool
        ensures { result ≡ (bits_of self.now == 0) }
    {
        Flags::is_empty(self)
    }
}

impl Flags for MsFlags {
    type Bits = u64;

    ghost exact = { ⊤ };

    ghost table = { flag_table };

    ghost set_of = { bits_of };

    fn flags<'a>() -> &'a [Flag<MsFlags>] {
        MsFlags::FLAGS
    }

    fn bits(&self) -> u64 {
        self.bits
    }

    fn from_bits_retain(bits: u64) -> MsFlags {
        MsFlags { bits }
    }
}

#[cfg(test)]
mod tests {
    use super::*;

    #[test]
    fn flags_are_sets_of_bits(rt: HostRuntime) {
        let all = MsFlags::from_bits_truncate(u64::MAX);
        assert_eq!(rt; all.bits(), 18906367);
        assert_eq!(rt; MsFlags::from_bits_truncate(256 + 3).bits(), 3);
        let some = MsFlags::MS_NOSUID.union(MsFlags::MS_NODEV);
        assert_eq!(rt; some.bits(), 6);
        assert!(rt; some.contains(MsFlags::MS_NODEV));
        assert!(rt; !some.contains(MsFlags::MS_RDONLY));
        assert_eq!(rt; some.difference(MsFlags::MS_NOSUID).bits(), 4);
        assert!(rt; some.difference(all).is_empty());
        assert!(rt; !all.is_empty());
    }
}
