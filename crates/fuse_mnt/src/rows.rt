// The rows of a table.
ghost use Rattle.std.specs.Prelude.{◌≡◌, ◌++◌, ◌∷◌, [], IfOk, OnOk, OnErr, map};
ghost use Rattle.port_base.specs.Flags.{bits_of};
ghost use Rattle.libmount.specs.BuilderTexts.{Named};
ghost use Rattle.libmount.specs.MountOptions.{option_names, shown_flags, shown_names};
ghost use Rattle.libmount.specs.MountTables.{print_row, read_or_write, spaced_field};
ghost use Rattle.libmount.specs.MountTables.{root_mount, super_options_of};
ghost use Rattle.std.specs.Int.RustNames.{bit_and};
ghost use Rattle.std.specs.String.{string_bytes};
ghost use Rattle.fuse_mnt.specs.Tables.{named, row_numbers};

use port_base::buffer::push;
use port_base::escapes::push_escaped;
use port_base::flags::MsFlags;
use port_base::sink::NoMemory;
use std::alloc::Global;
use std::marker::Model;

// A mounted file system.
#[derive(Debug, Drop)]
pub(crate) struct MountRow {
    pub(crate) id: u64,
    pub(crate) parent: u64,
    pub(crate) minor: u64,
    pub(crate) root: Vec<u8>,
    pub(crate) point: Vec<u8>,
    pub(crate) flags: MsFlags,
    pub(crate) fstype: Vec<u8>,
    pub(crate) source: Vec<u8>,
    pub(crate) super_options: Vec<u8>,
}

impl Model for MountRow {
    ghost use Rattle.port_base.specs.Flags.{bits_of};
    ghost use Rattle.libmount.specs.MountTables.{Mount};

    ghost Value = { Mount };

    ghost view = { λ r. record {
      id = r.id;
      parent = r.parent;
      minor = r.minor;
      root = r.root.items;
      point = r.point.items;
      flags = bits_of r.flags;
      fstype = r.fstype.items;
      source = r.source.items;
      super_options = r.super_options.items;
    } };
}

// An option that a row shows, and its flag.
#[derive(Clone, Copy)]
struct ShownName {
    flag: MsFlags,
    name: &'static [u8],
}

const SHOWN_NAMES: [ShownName; 10] = [
    ShownName {
        flag: MsFlags::MS_NOSUID,
        name: b"nosuid",
    },
    ShownName {
        flag: MsFlags::MS_NODEV,
        name: b"nodev",
    },
    ShownName {
        flag: MsFlags::MS_NOEXEC,
        name: b"noexec",
    },
    ShownName {
        flag: MsFlags::MS_SYNCHRONOUS,
        name: b"sync",
    },
    ShownName {
        flag: MsFlags::MS_DIRSYNC,
        name: b"dirsync",
    },
    ShownName {
        flag: MsFlags::MS_MANDLOCK,
        name: b"mand",
    },
    ShownName {
        flag: MsFlags::MS_NOATIME,
        name: b"noatime",
    },
    ShownName {
        flag: MsFlags::MS_NODIRATIME,
        name: b"nodiratime",
    },
    ShownName {
        flag: MsFlags::MS_RELATIME,
        name: b"relatime",
    },
    ShownName {
        flag: MsFlags::MS_STRICTATIME,
        name: b"strictatime",
    },
];

const SHOWN_FLAGS: u64 = 18877663;

fn shown_names() -> &'static [ShownName]
    ensures { map named result.now ≡ shown_names }
{
    &SHOWN_NAMES
}

// Those of the flags that a row shows.
#[tactic(auto, using(crate::proofs::RowLemmas::shown_known))]
pub(crate) fn shown(flags: MsFlags) -> MsFlags
    ensures { bits_of result ≡ bit_and (bits_of flags) shown_flags }
{
    MsFlags::from_bits_truncate(flags.bits() & SHOWN_FLAGS)
}

// `ro` or `rw`.
fn read_or_write(flags: MsFlags) -> &'static [u8]
    ensures { result.now ≡ read_or_write (bits_of flags) }
{
    if flags.contains(MsFlags::MS_RDONLY) {
        b"ro"
    } else {
        b"rw"
    }
}

// The options that a row shows.
fn options_of(alloc: Global, flags: MsFlags) -> Result<Vec<u8>, NoMemory>
    ensures { IfOk result (λ text. text.items ≡ option_names (bits_of flags)) }
{
    let mut out = Vec::new(alloc);
    push(&mut out, read_or_write(flags))?;
    for shown in shown_names() {
        if flags.contains(shown.flag) {
            push(&mut out, b",")?;
            push(&mut out, shown.name)?;
        }
    }
    Ok(out)
}

// What a new file system shows of itself: `ro` or `rw`, and its options behind a comma.
pub(crate) fn super_options_of(
    alloc: Global,
    flags: MsFlags,
    options: &[u8],
) -> Result<Vec<u8>, NoMemory>
    ensures { IfOk result (λ text. text.items ≡ super_options_of (bits_of flags) options.now) }
{
    let mut out = Vec::new(alloc);
    push(&mut out, read_or_write(flags))?;
    if !options.is_empty() {
        push(&mut out, b",")?;
        push(&mut out, options)?;
    }
    Ok(out)
}

fn push_field(out: &mut Vec<u8>, field: &[u8]) -> Result<(), NoMemory>
    ensures { OnOk result (out.new.items ≡ out.old.items ++ spaced_field field.now) }
{
    push_escaped(out, field)?;
    push(out, b" ")
}

impl MountRow {
    // The row of the root file system.
    pub(crate) fn root(alloc: Global) -> Result<MountRow, NoMemory>
        ensures { IfOk result (λ row. row ≡ root_mount) }
    {
        Ok(MountRow {
            id: 1,
            parent: 1,
            minor: 1,
            root: b"/".to_vec(alloc).map_err(|_| NoMemory)?,
            point: b"/".to_vec(alloc).map_err(|_| NoMemory)?,
            flags: MsFlags::from_bits_truncate(0),
            fstype: b"rootfs".to_vec(alloc).map_err(|_| NoMemory)?,
            source: b"rootfs".to_vec(alloc).map_err(|_| NoMemory)?,
            super_options: b"rw".to_vec(alloc).map_err(|_| NoMemory)?,
        })
    }

    // A row of the same file system that shows another part of it at another place.
    pub(crate) fn copy_at(
        &self,
        alloc: Global,
        root: Vec<u8>,
        point: Vec<u8>,
    ) -> Result<MountRow, NoMemory>
        ensures { IfOk result
            (λ row. row ≡ record self.now { root = root.items; point = point.items }) }
    {
        Ok(MountRow {
            id: self.id,
            parent: self.parent,
            minor: self.minor,
            root,
            point,
            flags: self.flags,
            fstype: self.fstype.to_vec(alloc).map_err(|_| NoMemory)?,
            source: self.source.to_vec(alloc).map_err(|_| NoMemory)?,
            super_options: self.super_options.to_vec(alloc).map_err(|_| NoMemory)?,
        })
    }

    pub(crate) fn try_clone(&self, alloc: Global) -> Result<MountRow, NoMemory>
        ensures { IfOk result (λ row. row ≡ self.now) }
    {
        let root = self.root.to_vec(alloc).map_err(|_| NoMemory)?;
        let point = self.point.to_vec(alloc).map_err(|_| NoMemory)?;
        self.copy_at(alloc, root, point)
    }

    // The three numbers, with a space behind each.
    fn numbers(&self, alloc: Global) -> Result<String, NoMemory>
        ensures { IfOk result (λ text. string_bytes text ≡ row_numbers self.now) }
    {
        format!(in alloc; "{} {} 0:{} ", self.id, self.parent, self.minor).map_err(|_| NoMemory)
    }

    // The row as a line of mountinfo, without its line feed.
    #[tactic(auto, using(crate::proofs::RowLemmas::text_whole))]
    pub(crate) fn push_text(&self, alloc: Global, out: &mut Vec<u8>) -> Result<(), NoMemory>
        ensures { OnOk result (out.new.items ≡ out.old.items ++ print_row self.now) }
    {
        push(out, self.numbers(alloc)?.as_bytes())?;
        push_field(out, &self.root)?;
        push_field(out, &self.point)?;
        let options = options_of(alloc, self.flags)?;
        push_field(out, &options)?;
        push(out, b"- ")?;
        push_field(out, &self.fstype)?;
        push_field(out, &self.source)?;
        push_escaped(out, &self.super_options)
    }
}

// Adds a row behind the others.
pub(crate) fn push_row(rows: &mut Vec<MountRow>, row: MountRow) -> Result<(), NoMemory>
    ensures added { OnOk result (rows.new.items ≡ rows.old.items ++ row ∷ []) }
    ensures kept { OnErr result (rows.new.items ≡ rows.old.items) }
{
    rows.push(row).map_err(|_| NoMemory)
}

// Adds rows behind the others.
pub(crate) fn append_rows(rows: &mut Vec<MountRow>, mut more: Vec<MountRow>) -> Result<(), NoMemory>
    ensures { OnOk result (rows.new.items ≡ rows.old.items ++ more.items) }
{
    rows.append(&mut more).map_err(|_| NoMemory)
}
