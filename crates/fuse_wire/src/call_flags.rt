//! Sets of flags that requests carry (Linux `fuse.h`).
ghost use Rattle.std.specs.Prelude.{⊤, ◌≡◌, ◌==◌, [], ◌∷◌, codes};
ghost use Rattle.std.specs.Int.RustNames.{bit_and, bit_or};
ghost use Rattle.bitflags.specs.Sets.{without};
ghost use Rattle.fuse_wire.specs.CallFlags.{getattr_bits, read_bits, copy_bits};

use crate::opcode::{FUSE_GETATTR_FH, FUSE_READ_LOCKOWNER};
use bitflags::{Flag, Flags};

/// The flags of a GETATTR, `getattr_flags` of `fuse.h`.
#[derive(Clone, Copy, Debug, PartialEq, Eq, Hash)]
pub struct GetattrFlags {
    bits: u32,
}

impl GetattrFlags {
    /// The attributes of the handle that is given are asked.
    pub const FUSE_GETATTR_FH: GetattrFlags = GetattrFlags {
        bits: FUSE_GETATTR_FH,
    };

    const FLAGS: &'static [Flag<GetattrFlags>] = &[Flag {
        name: "FUSE_GETATTR_FH",
        value: GetattrFlags::FUSE_GETATTR_FH,
    }];

    /// The bits.
    pub fn bits(&self) -> u32
        ensures { result ≡ getattr_bits self.now }
    {
        self.bits
    }

    /// The flags among these bits; bits that no flag names are dropped.
    pub fn from_bits_truncate(bits: u32) -> GetattrFlags
        ensures { getattr_bits result ≡ bit_and bits FUSE_GETATTR_FH }
    {
        <GetattrFlags as Flags>::from_bits_truncate(bits)
    }

    /// The flags that either has.
    pub fn union(self, other: GetattrFlags) -> GetattrFlags
        ensures { getattr_bits result ≡ bit_or (getattr_bits self) (getattr_bits other) }
    {
        Flags::union(self, other)
    }

    /// The flags of this set that `other` doesn't have.
    pub fn difference(self, other: GetattrFlags) -> GetattrFlags
        ensures { getattr_bits result ≡ without 32 (getattr_bits self) (getattr_bits other) }
    {
        Flags::difference(self, other)
    }

    /// Whether this set has every flag of `other`.
    pub fn contains(&self, other: GetattrFlags) -> bool
        ensures { result ≡ (bit_and (getattr_bits self.now) (getattr_bits other) == getattr_bits other) }
    {
        Flags::contains(self, other)
    }

    /// Whether no flag is set.
    pub fn is_empty(&self) -> bool
        ensures { result ≡ (getattr_bits self.now == 0) }
    {
        Flags::is_empty(self)
    }
}

impl Flags for GetattrFlags {
    ghost use Rattle.fuse_wire.specs.declared.opcode.TheConstants.{FUSE_GETATTR_FH};

    type Bits = u32;

    ghost exact = { ⊤ };

    ghost table = { (codes "FUSE_GETATTR_FH", FUSE_GETATTR_FH) ∷ [] };

    ghost set_of = { getattr_bits };

    fn flags<'a>() -> &'a [Flag<GetattrFlags>] {
        GetattrFlags::FLAGS
    }

    fn bits(&self) -> u32 {
        self.bits
    }

    fn from_bits_retain(bits: u32) -> GetattrFlags {
        GetattrFlags { bits }
    }
}

/// The flags of a READ or a READDIR, `read_flags` of `fuse.h`.
#[derive(Clone, Copy, Debug, PartialEq, Eq, Hash)]
pub struct ReadFlags {
    bits: u32,
}

impl ReadFlags {
    /// A lock's owner is given.
    pub const FUSE_READ_LOCKOWNER: ReadFlags = ReadFlags {
        bits: FUSE_READ_LOCKOWNER,
    };

    const FLAGS: &'static [Flag<ReadFlags>] = &[Flag {
        name: "FUSE_READ_LOCKOWNER",
        value: ReadFlags::FUSE_READ_LOCKOWNER,
    }];

    /// The bits.
    pub fn bits(&self) -> u32
        ensures { result ≡ read_bits self.now }
    {
        self.bits
    }

    /// The flags among these bits; bits that no flag names are dropped.
    pub fn from_bits_truncate(bits: u32) -> ReadFlags
        ensures { read_bits result ≡ bit_and bits FUSE_READ_LOCKOWNER }
    {
        <ReadFlags as Flags>::from_bits_truncate(bits)
    }

    /// The flags that either has.
    pub fn union(self, other: ReadFlags) -> ReadFlags
        ensures { read_bits result ≡ bit_or (read_bits self) (read_bits other) }
    {
        Flags::union(self, other)
    }

    /// The flags of this set that `other` doesn't have.
    pub fn difference(self, other: ReadFlags) -> ReadFlags
        ensures { read_bits result ≡ without 32 (read_bits self) (read_bits other) }
    {
        Flags::difference(self, other)
    }

    /// Whether this set has every flag of `other`.
    pub fn contains(&self, other: ReadFlags) -> bool
        ensures { result ≡ (bit_and (read_bits self.now) (read_bits other) == read_bits other) }
    {
        Flags::contains(self, other)
    }

    /// Whether no flag is set.
    pub fn is_empty(&self) -> bool
        ensures { result ≡ (read_bits self.now == 0) }
    {
        Flags::is_empty(self)
    }
}

impl Flags for ReadFlags {
    ghost use Rattle.fuse_wire.specs.declared.opcode.TheConstants.{FUSE_READ_LOCKOWNER};

    type Bits = u32;

    ghost exact = { ⊤ };

    ghost table = { (codes "FUSE_READ_LOCKOWNER", FUSE_READ_LOCKOWNER) ∷ [] };

    ghost set_of = { read_bits };

    fn flags<'a>() -> &'a [Flag<ReadFlags>] {
        ReadFlags::FLAGS
    }

    fn bits(&self) -> u32 {
        self.bits
    }

    fn from_bits_retain(bits: u32) -> ReadFlags {
        ReadFlags { bits }
    }
}

/// The flags of a COPY_FILE_RANGE, of which `fuse.h` names none.
#[derive(Clone, Copy, Debug, PartialEq, Eq, Hash)]
pub struct CopyFileRangeFlags {
    bits: u64,
}

impl CopyFileRangeFlags {
    const FLAGS: &'static [Flag<CopyFileRangeFlags>] = &[];

    /// The bits.
    pub fn bits(&self) -> u64
        ensures { result ≡ copy_bits self.now }
    {
        self.bits
    }

    /// The flags among these bits; bits that no flag names are dropped.
    pub fn from_bits_truncate(bits: u64) -> CopyFileRangeFlags
        ensures { copy_bits result ≡ 0 }
    {
        <CopyFileRangeFlags as Flags>::from_bits_truncate(bits)
    }

    /// The flags that either has.
    pub fn union(self, other: CopyFileRangeFlags) -> CopyFileRangeFlags
        ensures { copy_bits result ≡ bit_or (copy_bits self) (copy_bits other) }
    {
        Flags::union(self, other)
    }

    /// The flags of this set that `other` doesn't have.
    pub fn difference(self, other: CopyFileRangeFlags) -> CopyFileRangeFlags
        ensures { copy_bits result ≡ without 64 (copy_bits self) (copy_bits other) }
    {
        Flags::difference(self, other)
    }

    /// Whether this set has every flag of `other`.
    pub fn contains(&self, other: CopyFileRangeFlags) -> bool
        ensures { result ≡ (bit_and (copy_bits self.now) (copy_bits other) == copy_bits other) }
    {
        Flags::contains(self, other)
    }

    /// Whether no flag is set.
    pub fn is_empty(&self) -> bool
        ensures { result ≡ (copy_bits self.now == 0) }
    {
        Flags::is_empty(self)
    }
}

impl Flags for CopyFileRangeFlags {
    type Bits = u64;

    ghost exact = { ⊤ };

    ghost table = { [] };

    ghost set_of = { copy_bits };

    fn flags<'a>() -> &'a [Flag<CopyFileRangeFlags>] {
        CopyFileRangeFlags::FLAGS
    }

    fn bits(&self) -> u64 {
        self.bits
    }

    fn from_bits_retain(bits: u64) -> CopyFileRangeFlags {
        CopyFileRangeFlags { bits }
    }
}

#[cfg(test)]
mod tests {
    use super::*;

    #[test]
    fn flags_of_calls_are_sets_of_bits(rt: HostRuntime) {
        let shown = GetattrFlags::from_bits_truncate(u32::MAX);
        assert_eq!(rt; shown.bits(), 1);
        assert!(rt; shown.contains(GetattrFlags::FUSE_GETATTR_FH));
        assert!(rt; shown.difference(shown).is_empty());
        assert_eq!(rt; shown.difference(shown).union(shown).bits(), 1);
        let read = ReadFlags::from_bits_truncate(7);
        assert_eq!(rt; read.bits(), 2);
        assert!(rt; read.contains(ReadFlags::FUSE_READ_LOCKOWNER));
        assert!(rt; read.difference(read).is_empty());
        assert_eq!(rt; read.difference(read).union(read).bits(), 2);
        let copied = CopyFileRangeFlags::from_bits_truncate(u64::MAX);
        assert_eq!(rt; copied.bits(), 0);
        assert!(rt; copied.is_empty());
        assert!(rt; copied.contains(copied.union(copied.difference(copied))));
    }
}
