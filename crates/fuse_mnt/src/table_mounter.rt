//! A mounter in memory.
ghost use Rattle.std.specs.Prelude.{◌≡◌, ◌≢◌, ◌↔◌, ◌++◌, ◌∷◌, [], ℕ, Err, IfOk, OnOk, OnErr};
ghost use Rattle.std.specs.Prelude.{IsTrue, false, option_copied};
ghost use Rattle.std.specs.List.{AllZip};
ghost use Rattle.port_base.specs.Failing.{after_call, first_calls, is_due};
ghost use Rattle.port_base.specs.Flags.{bits_of};
ghost use Rattle.libmount.specs.declared.mounter.MountFault.TheVariants as mount_fault;
ghost use Rattle.libmount.specs.Items.{items};
ghost use Rattle.libmount.specs.MountTables.{first_table, mount, print_table, umount};
ghost use Rattle.libmount.specs.Mounters.{Caused, HasRoom, Leaves, is_remount};
ghost use Rattle.libmount.specs.ReadBack.{IsItemOf};
ghost use Rattle.libmount.specs.Scripts.{calls_of};
ghost use Rattle.fuse_mnt.specs.Kept.{IsKept, IsKept-prop, good_from_kept};

use crate::table::Table;
use libmount::mounter::{MountFault, Mounter};
use libmount::script_probe::strikes;
use port_base::failing::FailingCalls;
use port_base::flags::MsFlags;
use port_base::sink::NoMemory;
use std::alloc::Global;

/// A table of mounts in memory, whose calls fault where `fail_at` lists them.
#[derive(Drop)]
pub struct TableMounter {
    table: Table,
    failing: FailingCalls,
    ghost kept: { IsKept table } by { IsKept-prop table },
}

impl TableMounter {
    /// A table of the root file system alone, at `/`, in which no call faults. Where mounting isn't
    /// permitted, each mount at a path that is there is refused with EPERM.
    pub fn new(alloc: Global, permitted: bool) -> Result<TableMounter, NoMemory>
        ensures table { IfOk result (λ m. m.table ≡ first_table permitted) }
        ensures calls { IfOk result (λ m. m.failing ≡ first_calls []) }
    {
        Ok(TableMounter {
            table: Table::new(alloc, permitted)?,
            failing: FailingCalls::none(alloc),
        })
    }

    /// There is something at the path, so that it can be mounted on or bound. The path `/` is there
    /// from the beginning.
    pub fn add_present(&mut self, path: &[u8]) -> Result<(), NoMemory>
        ensures added { OnOk result
            (self.new.table ≡ record self.old.table {
              present = self.old.table.present ++ path.now ∷ [];
            }) }
        ensures kept { OnErr result (self.new.table ≡ self.old.table) }
        ensures calls { self.new.failing ≡ self.old.failing }
    {
        self.table.add_present(path)
    }

    /// The calls of `Mounter` with these numbers, from 0 on, fault too.
    pub fn fail_at(&mut self, fails: &[u64]) -> Result<(), NoMemory>
        ensures more { OnOk result
            (self.new.failing.script.numbers ≡ self.old.failing.script.numbers ++ fails.now) }
        ensures refused { OnErr result (self.new.failing ≡ self.old.failing) }
        ensures made { self.new.failing.script.calls ≡ self.old.failing.script.calls }
        ensures faults { self.new.failing.faults ≡ self.old.failing.faults }
        ensures table { self.new.table ≡ self.old.table }
    {
        self.failing.fail_at(fails)
    }

    /// Whether numbers are left for a mount, also for one that copies all rows.
    pub fn has_room(&self) -> bool
        ensures { IsTrue result → HasRoom self.now.table }
    {
        self.table.has_room()
    }
}

impl Mounter for TableMounter {
    ghost table = { λ m. m.table };

    ghost calls = { λ m. calls_of m.failing };

    fn mount(
        &mut self,
        source: Option<&[u8]>,
        target: &[u8],
        fstype: Option<&[u8]>,
        flags: MsFlags,
        options: Option<&[u8]>,
    ) -> Result<(), MountFault>
        requires room { is_remount (bits_of flags) ≡ false → HasRoom self.old.table }
        ensures leaves { Leaves
            (mount
            (record {
              source = option_copied source.entry;
              target = target.now;
              fstype = option_copied fstype.entry;
              flags = bits_of flags;
              options = option_copied options.entry;
            }) self.old.table)
            self.old.table self.new.table result }
        ensures caused { Caused (calls_of self.old.failing) (calls_of self.new.failing) result }
        ensures fails { (result ≡ Err mount_fault.Fault) ↔ IsTrue
            (is_due self.old.failing.script) }
        ensures script { self.new.failing.script ≡ after_call self.old.failing.script }
    {
        if strikes(&mut self.failing) {
            return Err(MountFault::Fault);
        }
        self.table.mount(source, target, fstype, flags, options)
    }

    fn umount(&mut self, target: &[u8]) -> Result<(), MountFault>
        ensures leaves { Leaves (umount target.now self.old.table) self.old.table self.new.table
            result }
        ensures memory { result ≢ Err mount_fault.NoMemory }
        ensures caused { Caused (calls_of self.old.failing) (calls_of self.new.failing) result }
        ensures fails { (result ≡ Err mount_fault.Fault) ↔ IsTrue
            (is_due self.old.failing.script) }
        ensures script { self.new.failing.script ≡ after_call self.old.failing.script }
    {
        if strikes(&mut self.failing) {
            return Err(MountFault::Fault);
        }
        self.table.umount(target)
    }

    fn print(&mut self, alloc: Global) -> Result<Vec<u8>, MountFault>
        ensures text { IfOk result (λ text. text.items ≡ print_table self.old.table) }
        ensures read_back { IfOk result (λ text. (place : ℕ)
            → AllZip IsItemOf self.old.table.rows (items (place, text.items))) }
        ensures table { self.new.table ≡ self.old.table }
        ensures errno { (errno : ℕ) → result ≢ Err (mount_fault.Errno errno) }
        ensures caused { Caused (calls_of self.old.failing) (calls_of self.new.failing) result }
        ensures fails { (result ≡ Err mount_fault.Fault) ↔ IsTrue
            (is_due self.old.failing.script) }
        ensures script { self.new.failing.script ≡ after_call self.old.failing.script }
    {
        if strikes(&mut self.failing) {
            return Err(MountFault::Fault);
        }
        self.table.print(alloc).map_err(|_| MountFault::NoMemory)
    }

    ghost good = { λ m. good_from_kept m.table m.kept };
}
