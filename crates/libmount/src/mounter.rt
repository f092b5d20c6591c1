//! What mounts.
ghost use Rattle.std.specs.Prelude.{◌≡◌, ◌≢◌, ℕ, IfOk, OnOk, OnErr, Err, Some, false};
ghost use Rattle.std.specs.Prelude.{option_copied};
ghost use Rattle.port_base.specs.Flags.{bits_of};
ghost use Rattle.libmount.specs.MountTables.{MountTable, has, mount, print_table, umount};
ghost use Rattle.libmount.specs.Mounters.{Calls, Caused, HasRoom, IsGoodTable, Leaves, is_remount};
ghost use Rattle.libmount.specs.declared.mounter.MountFault.TheVariants as mount_fault;

use port_base::flags::MsFlags;
use std::alloc::Global;
use std::fmt;

/// Why a call of a mounter fails.
#[derive(Clone, Copy, Debug, PartialEq, Eq)]
pub enum MountFault {
    /// The table refuses the call, with an error number of the system.
    Errno(u32),
    /// The mounter failed.
    Fault,
    NoMemory,
}

impl fmt::Display for MountFault {
    fn fmt<W: fmt::Write>(&self, f: &mut fmt::Formatter<W>) -> fmt::Result {
        match self {
            MountFault::Errno(errno) => write!(f, "errno {errno}"),
            MountFault::Fault => f.write_str("the mounter failed"),
            MountFault::NoMemory => f.write_str("no memory"),
        }
    }
}

impl std::error::Error for MountFault {}

/// A table of mounts, however it is kept. After an error the table is as it was. `Fault` comes
/// only where the count of faults rose, and never where the mounter is steady.
pub trait Mounter {
    /// The table.
    ghost table: { Self → MountTable };

    /// How many faults were counted, and whether no call faults.
    ghost calls: { Self → Calls };

    /// Mounts a source on a target (`mount(2)`): a change of flags with `MS_REMOUNT`, a part of
    /// the tree shown at another place too with `MS_BIND`, a move with `MS_MOVE`, else a new file
    /// system. `Errno` is the first refusal.
    fn mount(
        &mut self,
        source: Option<&[u8]>,
        target: &[u8],
        fstype: Option<&[u8]>,
        flags: MsFlags,
        options: Option<&[u8]>,
    ) -> Result<(), MountFault>
        requires room { is_remount (bits_of flags) ≡ false → HasRoom (table self.old) }
        ensures leaves { Leaves
            (mount
            (record {
              source = option_copied source.entry;
              target = target.now;
              fstype =
                  option_copied fstype.entry;
              flags = bits_of flags;
              options =
                  option_copied options.entry;
            }) (table self.old))
            (table self.old) (table self.new) result }
        ensures caused { Caused (calls self.old) (calls self.new) result };

    /// Takes the last mount at the target away (`umount(2)`). EINVAL where there is none, EBUSY
    /// where another is mounted on it. It takes no memory.
    fn umount(&mut self, target: &[u8]) -> Result<(), MountFault>
        ensures leaves { Leaves (umount target.now (table self.old)) (table self.old)
            (table self.new) result }
        ensures memory { result ≢ Err mount_fault.NoMemory }
        ensures caused { Caused (calls self.old) (calls self.new) result };

    /// The table as `/proc/self/mountinfo` has it. There is no `Errno`.
    fn print(&mut self, alloc: Global) -> Result<Vec<u8>, MountFault>
        ensures text { IfOk result (λ text. text.items ≡ print_table (table self.old)) }
        ensures table { table self.new ≡ table self.old }
        ensures errno { (errno : ℕ) → result ≢ Err (mount_fault.Errno errno) }
        ensures caused { Caused (calls self.old) (calls self.new) result };

    /// The table is good at every moment.
    ghost good: { (m : Self) → IsGoodTable (table m) };
}
