// A table of mounts, and the steps on it.
ghost use Rattle.std.specs.Prelude.{◌≡◌, ◌≢◌, ◌<◌, ◌-◌, ◌^◌, IfOk, OnOk, OnErr, Err, length};
ghost use Rattle.std.specs.Prelude.{slice_index_or, Some, Ok, option_copied, ℕ, false};
ghost use Rattle.libmount.specs.declared.mounter.MountFault.TheVariants as mount_fault;
ghost use Rattle.port_base.specs.Flags.{bits_of};
ghost use Rattle.libmount.specs.Mounters.{HasRoom, Leaves, is_remount};
ghost use Rattle.libmount.specs.MountTables.{MountCall, add_row, bind, cover, mount, move_mount};
ghost use Rattle.libmount.specs.MountTables.{new_mount, print_table, remount, root_mount, umount};
ghost use Rattle.libmount.specs.MountTables.{bound, copy_row, first_table, is_below};
ghost use Rattle.std.specs.Prelude.{◌+◌, ◌++◌, ◌∷◌, [], ◌≤◌, IsTrue, filter, take};
ghost use Rattle.std.specs.List.{fold};
ghost use Rattle.libmount.specs.MountTables.{bound_all, bound_row, by_flags, is_empty_text};
ghost use Rattle.libmount.specs.MountTables.{moved_row, new_row};
ghost use Rattle.fuse_mnt.specs.Tables.{IsGrown, IsLastAt};

use crate::lookups::{cover, cover_id, is_below, is_busy, is_there, last_at};
use crate::moving::relocated;
use crate::paths::moved_path;
use crate::rows::{MountRow, push_row, shown, super_options_of};
use libmount::mounter::MountFault;
use port_base::buffer::push;
use port_base::errno::{EBUSY, EINVAL, ENOENT, EPERM};
use port_base::flags::MsFlags;
use port_base::paths::{path_starts_with, same_path};
use port_base::sink::NoMemory;
use std::alloc::Global;
use std::marker::Model;

// The rows in order, the paths that are there, whether mounting is permitted, and the numbers that
// come next.
#[derive(Drop)]
pub(crate) struct Table {
    alloc: Global,
    rows: Vec<MountRow>,
    present: Vec<Vec<u8>>,
    permitted: bool,
    next_id: u64,
    next_minor: u64,
}

impl Model for Table {
    ghost use Rattle.port_base.specs.Words.{words_of};
    ghost use Rattle.libmount.specs.MountTables.{MountTable};

    ghost Value = { MountTable };

    ghost view = { λ t. record {
      rows = t.rows.items;
      present = words_of t.present.items;
      permitted = t.permitted;
      next_id = t.next_id;
      next_minor = t.next_minor;
    } };
}

impl Table {
    // A table of the root alone.
    pub(crate) fn new(alloc: Global, permitted: bool) -> Result<Table, NoMemory>
        ensures { IfOk result (λ table. table ≡ first_table permitted) }
    {
        let mut table = Table {
            alloc,
            rows: Vec::new(alloc),
            present: Vec::new(alloc),
            permitted,
            next_id: 2,
            next_minor: 2,
        };
        push_row(&mut table.rows, MountRow::root(alloc)?)?;
        table.add_present(b"/")?;
        Ok(table)
    }

    // There is something at the path.
    pub(crate) fn add_present(&mut self, path: &[u8]) -> Result<(), NoMemory>
        ensures added { OnOk result
            (self.new ≡ record self.old { present = self.old.present ++ path.now ∷ [] }) }
        ensures kept { OnErr result (self.new ≡ self.old) }
    {
        let path = path.to_vec(self.alloc).map_err(|_| NoMemory)?;
        self.present.push(path).map_err(|_| NoMemory)
    }

    // Whether numbers are left for a mount, also for one that copies all rows.
    pub(crate) fn has_room(&self) -> bool
        ensures { IsTrue result → HasRoom self.now }
    {
        self.next_minor < u64::MAX && (self.rows.len() as u64) < u64::MAX - self.next_id
    }

    // Changes the flags of the last row at the target.
    fn remount(&mut self, target: &[u8], flags: MsFlags) -> Result<(), MountFault>
        ensures leaves { (call : MountCall) → call.target ≡ target.now → call.flags ≡ bits_of flags
            → Leaves (remount call self.old) self.old self.new result }
        ensures fault { result ≢ Err mount_fault.Fault }
    {
        match last_at(&self.rows, target) {
            Some(at) => {
                let row = &mut self.rows[at];
                row.flags = shown(flags);
                Ok(())
            }
            None => Err(MountFault::Errno(EINVAL)),
        }
    }

    // Takes the last row at the target away.
    pub(crate) fn umount(&mut self, target: &[u8]) -> Result<(), MountFault>
        ensures leaves { Leaves (umount target.now self.old) self.old self.new result }
        ensures memory { result ≢ Err mount_fault.NoMemory }
        ensures fault { result ≢ Err mount_fault.Fault }
    {
        match last_at(&self.rows, target) {
            Some(at) => {
                if is_busy(&self.rows, at) {
                    return Err(MountFault::Errno(EBUSY));
                }
                self.rows.remove(at);
                Ok(())
            }
            None => Err(MountFault::Errno(EINVAL)),
        }
    }

    // Adds a row behind the others, with the next number, below the mount that covers its point.
    fn add_row(&mut self, mut row: MountRow) -> Result<(), NoMemory>
        requires { self.old.next_id < 2 ^ 64 - 1 }
        ensures added { OnOk result (self.new ≡ add_row row self.old) }
        ensures kept { OnErr result (self.new ≡ self.old) }
    {
        row.id = self.next_id;
        row.parent = cover_id(&self.rows, &row.point);
        push_row(&mut self.rows, row)?;
        self.next_id += 1;
        Ok(())
    }

    // A row that shows the part of the tree at the source at the target too.
    fn bound_row(&self, source: &[u8], target: &[u8]) -> Result<MountRow, NoMemory>
        requires { 0 < length self.now.rows }
        ensures { IfOk result (λ row. row ≡ bound_row source.now target.now self.now) }
    {
        let shown = cover(&self.rows, source);
        let root = moved_path(self.alloc, &shown.point, &shown.root, source)?;
        let point = target.to_vec(self.alloc).map_err(|_| NoMemory)?;
        shown.copy_at(self.alloc, root, point)
    }

    // A row that shows a mount below the source below the target too.
    fn copied_row(&self, source: &[u8], target: &[u8], at: usize) -> Result<MountRow, NoMemory>
        requires { at < length self.now.rows }
        ensures { IfOk result (λ row. row ≡ moved_row source.now target.now
            (slice_index_or self.now.rows at root_mount)) }
    {
        let row = &self.rows[at];
        let root = row.root.to_vec(self.alloc).map_err(|_| NoMemory)?;
        let point = moved_path(self.alloc, source, target, &row.point)?;
        row.copy_at(self.alloc, root, point)
    }

    // Adds the row that shows the part of the tree at the source at the target too.
    fn add_bound(&mut self, source: &[u8], target: &[u8]) -> Result<(), NoMemory>
        requires rows { 0 < length self.old.rows }
        requires room { self.old.next_id < 2 ^ 64 - 1 }
        ensures added { OnOk result (self.new ≡ bound source.now target.now self.old) }
        ensures kept { OnErr result (self.new ≡ self.old) }
    {
        let row = self.bound_row(source, target)?;
        self.add_row(row)
    }

    // Adds copies of those of the first rows that are below the source.
    fn add_copies(&mut self, source: &[u8], target: &[u8], count: usize) -> Result<(), NoMemory>
        requires rows { count ≤ length self.old.rows }
        requires room { self.old.next_id + count < 2 ^ 64 }
        ensures added { OnOk result
            (self.new ≡ fold (copy_row source.now target.now) self.old
            (filter (is_below source.now) (take count self.old.rows))) }
        ensures grown { IsGrown count self.old self.new }
    {
        for at in 0..count {
            if is_below(source, &self.rows[at]) {
                let row = self.copied_row(source, target, at)?;
                self.add_row(row)?;
            }
        }
        Ok(())
    }

    // The first rows alone, with the number that came next then.
    fn shrink(&mut self, count: usize, next_id: u64)
        ensures { self.new ≡ record self.old { rows = take count self.old.rows; next_id = next_id } }
    {
        self.rows.truncate(count);
        self.next_id = next_id;
    }

    // Binds the source to the target, with copies of the rows below the source.
    fn bind_all(&mut self, source: &[u8], target: &[u8]) -> Result<(), NoMemory>
        requires rows { 0 < length self.old.rows }
        requires room { HasRoom self.old }
        ensures added { OnOk result (self.new ≡ bound_all source.now target.now self.old) }
        ensures kept { OnErr result (self.new ≡ self.old) }
    {
        let count = self.rows.len();
        let next_id = self.next_id;
        self.add_bound(source, target)?;
        match self.add_copies(source, target, count) {
            Ok(()) => Ok(()),
            Err(_) => {
                self.shrink(count, next_id);
                Err(NoMemory)
            }
        }
    }

    // Shows the part of the tree at the source at the target too.
    fn bind(&mut self, source: &[u8], target: &[u8], flags: MsFlags) -> Result<(), MountFault>
        requires rows { 0 < length self.old.rows }
        requires room { HasRoom self.old }
        ensures leaves { (call : MountCall) → call.target ≡ target.now → call.flags ≡ bits_of flags
            → Leaves (bind source.now call self.old) self.old self.new result }
        ensures fault { result ≢ Err mount_fault.Fault }
    {
        if !is_there(&self.present, source) {
            return Err(MountFault::Errno(ENOENT));
        }
        let added = if flags.contains(MsFlags::MS_REC) {
            self.bind_all(source, target)
        } else {
            self.add_bound(source, target)
        };
        added.map_err(|_| MountFault::NoMemory)
    }

    // Moves a mount at the source, and those below it, to the target.
    fn move_row(&mut self, at: usize, source: &[u8], target: &[u8]) -> Result<(), MountFault>
        requires { IsLastAt source.now self.old.rows (Some at) }
        ensures leaves { (call : MountCall) → call.target ≡ target.now
            → Leaves (move_mount source.now call self.old) self.old self.new result }
        ensures fault { result ≢ Err mount_fault.Fault }
    {
        if same_path(source, b"/") || path_starts_with(target, source) {
            return Err(MountFault::Errno(EINVAL));
        }
        let top = self.rows[at].id;
        match relocated(self.alloc, &self.rows, top, source, target) {
            Ok(rows) => {
                self.rows = rows;
                Ok(())
            }
            Err(_) => Err(MountFault::NoMemory),
        }
    }

    // Moves the last mount at the source, and those below it, to the target.
    fn move_mount(&mut self, source: &[u8], target: &[u8]) -> Result<(), MountFault>
        ensures leaves { (call : MountCall) → call.target ≡ target.now
            → Leaves (move_mount source.now call self.old) self.old self.new result }
        ensures fault { result ≢ Err mount_fault.Fault }
    {
        match last_at(&self.rows, source) {
            Some(at) => self.move_row(at, source, target),
            None => Err(MountFault::Errno(EINVAL)),
        }
    }

    // The rows as lines of mountinfo.
    #[tactic(auto, unfolding(libmount::specs::MountTables::print_table))]
    pub(crate) fn print(&self, alloc: Global) -> Result<Vec<u8>, NoMemory>
        ensures { IfOk result (λ text. text.items ≡ print_table self.now) }
    {
        let mut out = Vec::new(alloc);
        for row in &self.rows {
            row.push_text(alloc, &mut out)?;
            push(&mut out, b"\n")?;
        }
        Ok(out)
    }

    // A row of a new file system, which has no number of its own yet.
    fn new_row(
        &self,
        source: Option<&[u8]>,
        target: &[u8],
        fstype: &[u8],
        flags: MsFlags,
        options: Option<&[u8]>,
    ) -> Result<MountRow, NoMemory>
        ensures { (call : MountCall) → call.source ≡ option_copied source.entry
            → call.target ≡ target.now → call.flags ≡ bits_of flags
            → call.options ≡ option_copied options.entry
            → IfOk result (λ row. row ≡ new_row fstype.now call self.now) }
    {
        let source = source.unwrap_or(b"none");
        let options = options.unwrap_or(b"");
        Ok(MountRow {
            id: 0,
            parent: 0,
            minor: self.next_minor,
            root: b"/".to_vec(self.alloc).map_err(|_| NoMemory)?,
            point: target.to_vec(self.alloc).map_err(|_| NoMemory)?,
            flags: shown(flags),
            fstype: fstype.to_vec(self.alloc).map_err(|_| NoMemory)?,
            source: source.to_vec(self.alloc).map_err(|_| NoMemory)?,
            super_options: super_options_of(self.alloc, flags, options)?,
        })
    }

    // Adds a new file system.
    fn add_new(
        &mut self,
        source: Option<&[u8]>,
        target: &[u8],
        fstype: &[u8],
        flags: MsFlags,
        options: Option<&[u8]>,
    ) -> Result<(), NoMemory>
        requires { HasRoom self.old }
        ensures added { (call : MountCall) → call.source ≡ option_copied source.entry
            → call.target ≡ target.now → call.flags ≡ bits_of flags
            → call.options ≡ option_copied options.entry
            → OnOk result (new_mount fstype.now call self.old ≡ Ok self.new) }
        ensures kept { OnErr result (self.new ≡ self.old) }
    {
        let row = self.new_row(source, target, fstype, flags, options)?;
        self.add_row(row)?;
        self.next_minor += 1;
        Ok(())
    }

    // Mounts a new file system.
    fn mount_new(
        &mut self,
        source: Option<&[u8]>,
        target: &[u8],
        fstype: &[u8],
        flags: MsFlags,
        options: Option<&[u8]>,
    ) -> Result<(), MountFault>
        requires { HasRoom self.old }
        ensures leaves { (call : MountCall) → call.source ≡ option_copied source.entry
            → call.target ≡ target.now → call.flags ≡ bits_of flags
            → call.options ≡ option_copied options.entry
            → Leaves (new_mount fstype.now call self.old) self.old self.new result }
        ensures fault { result ≢ Err mount_fault.Fault }
    {
        match self.add_new(source, target, fstype, flags, options) {
            Ok(()) => Ok(()),
            Err(_) => Err(MountFault::NoMemory),
        }
    }

    // Mounts by the first of the flags.
    fn mount_by_flags(
        &mut self,
        source: Option<&[u8]>,
        target: &[u8],
        fstype: Option<&[u8]>,
        flags: MsFlags,
        options: Option<&[u8]>,
    ) -> Result<(), MountFault>
        requires rows { 0 < length self.old.rows }
        requires room { is_remount (bits_of flags) ≡ false → HasRoom self.old }
        ensures leaves { (call : MountCall) → call.source ≡ option_copied source.entry
            → call.target ≡ target.now → call.fstype ≡ option_copied fstype.entry
            → call.flags ≡ bits_of flags → call.options ≡ option_copied options.entry
            → Leaves (by_flags call self.old) self.old self.new result }
        ensures fault { result ≢ Err mount_fault.Fault }
    {
        if flags.contains(MsFlags::MS_REMOUNT) {
            return self.remount(target, flags);
        }
        if flags.contains(MsFlags::MS_BIND) {
            return match source {
                Some(source) => self.bind(source, target, flags),
                None => Err(MountFault::Errno(EINVAL)),
            };
        }
        if flags.contains(MsFlags::MS_MOVE) {
            return match source {
                Some(source) => self.move_mount(source, target),
                None => Err(MountFault::Errno(EINVAL)),
            };
        }
        match fstype {
            Some(fstype) => self.mount_new(source, target, fstype, flags, options),
            None => Err(MountFault::Errno(EINVAL)),
        }
    }

    // A mount, or the first refusal.
    pub(crate) fn mount(
        &mut self,
        source: Option<&[u8]>,
        target: &[u8],
        fstype: Option<&[u8]>,
        flags: MsFlags,
        options: Option<&[u8]>,
    ) -> Result<(), MountFault>
        requires rows { 0 < length self.old.rows }
        requires room { is_remount (bits_of flags) ≡ false → HasRoom self.old }
        ensures leaves { Leaves
            (mount
            (record {
              source = option_copied source.entry;
              target = target.now;
              fstype = option_copied fstype.entry;
              flags = bits_of flags;
              options = option_copied options.entry;
            }) self.old)
            self.old self.new result }
        ensures fault { result ≢ Err mount_fault.Fault }
    {
        if !is_there(&self.present, target) {
            return Err(MountFault::Errno(ENOENT));
        }
        if !self.permitted {
            return Err(MountFault::Errno(EPERM));
        }
        if is_empty_text(source) || is_empty_text(fstype) {
            return Err(MountFault::Errno(EINVAL));
        }
        self.mount_by_flags(source, target, fstype, flags, options)
    }
}

fn is_empty_text(text: Option<&[u8]>) -> bool
    ensures { result ≡ is_empty_text (option_copied text.entry) }
{
    match text {
        Some(text) => text.is_empty(),
        None => false,
    }
}
