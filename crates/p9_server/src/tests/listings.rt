// Directories that are listed page by page, by the bytes of the messages, and entry by entry.
ghost use Rattle.std.specs.Prelude.{◌≡◌, ◌<◌, IfOk};
ghost use Rattle.std.specs.FinMap as map;
ghost use Rattle.tree_host.specs.Holds.{hold_count};
ghost use Rattle.tree_host.specs.TreeHosts.{holds};

use super::{check, server_of, small_host};
use crate::{DirEntry, FileType, read_dir};
use port_base::names::name_fault;
use std::alloc::Global;
use std::test::Fail;
use tree_host::{Host, NewItem, TreeHost};

const LISTINGS: [(&[u8], &[u8]); 37] = [
    // an attach of fid 1
    (
        b"\x17\0\0\0h\0\0\x01\0\0\0\xff\xff\xff\xff\0\0\0\0\0\0\0\0",
        b"\x14\0\0\0i\0\0\x80\0\x10\x5e\x5f\x01\0\0\0\0\0\0\0",
    ),
    // the directories `subdir` and `subdir/nested`, and fid 2 for the first
    (
        b"\x1b\0\0\0H\x01\0\x01\0\0\0\x06\0subdir\xed\x01\0\0\0\0\0\0",
        b"\x14\0\0\0I\x01\0\x80\0\xf1Se\x02\0\0\0\0\0\0\0",
    ),
    (
        b"\x19\0\0\0n\x02\0\x01\0\0\0\x02\0\0\0\x01\0\x06\0subdir",
        b"\x16\0\0\0o\x02\0\x01\0\x80\0\xf1Se\x02\0\0\0\0\0\0\0",
    ),
    (
        b"\x1b\0\0\0H\x03\0\x02\0\0\0\x06\0nested\xed\x01\0\0\0\0\0\0",
        b"\x14\0\0\0I\x03\0\x80\0\xf1Se\x03\0\0\0\0\0\0\0",
    ),
    // fid 3 becomes a new file at the top, fid 4 the file `b` in `subdir`
    (
        b"\x11\0\0\0n\x04\0\x01\0\0\0\x03\0\0\0\0\0",
        b"\x09\0\0\0o\x04\0\0\0",
    ),
    (
        b"\x23\0\0\0\x0e\x05\0\x03\0\0\0\x0a\0\xe4\xb8\x96\xe7\x95\x8c\x2etxt\x02\0\0\0\xa4\x01\0\0\0\0\0\0",
        b"\x18\0\0\0\x0f\x05\0\0\0\xf1Se\x04\0\0\0\0\0\0\0\0\0\0\0",
    ),
    (
        b"\x11\0\0\0n\x06\0\x02\0\0\0\x04\0\0\0\0\0",
        b"\x09\0\0\0o\x06\0\0\0",
    ),
    (
        b"\x1a\0\0\0\x0e\x07\0\x04\0\0\0\x01\0b\x02\0\0\0\xa4\x01\0\0\0\0\0\0",
        b"\x18\0\0\0\x0f\x07\0\0\0\xf1Se\x05\0\0\0\0\0\0\0\0\0\0\0",
    ),
    (
        b"\x24\0\0\0v\x08\0\x04\0\0\0\0\0\0\0\0\0\0\0\x0d\0\0\0hello, world!",
        b"\x0b\0\0\0w\x08\0\x0d\0\0\0",
    ),
    // a second `b` is not made, and no directory is opened to be written
    (
        b"\x1a\0\0\0\x0e\x09\0\x02\0\0\0\x01\0b\x02\0\0\0\xa4\x01\0\0\0\0\0\0",
        b"\x0b\0\0\0\x07\x09\0\x11\0\0\0",
    ),
    (
        b"\x0f\0\0\0\x0c\x0a\0\x02\0\0\0\x01\0\0\0",
        b"\x0b\0\0\0\x07\x0a\0\x15\0\0\0",
    ),
    // what isn't open is not listed, nor is a file, open or not, nor what is no fid
    (
        b"\x17\0\0\0\x28\x0b\0\x02\0\0\0\0\0\0\0\0\0\0\0\0\x10\0\0",
        b"\x0b\0\0\0\x07\x0b\0\x09\0\0\0",
    ),
    (
        b"\x17\0\0\0\x28\x0c\0\x04\0\0\0\0\0\0\0\0\0\0\0\0\x10\0\0",
        b"\x0b\0\0\0\x07\x0c\0\x14\0\0\0",
    ),
    (
        b"\x17\0\0\0\x28\x0d\0\x09\0\0\0\0\0\0\0\0\0\0\0\0\x10\0\0",
        b"\x0b\0\0\0\x07\x0d\0\x09\0\0\0",
    ),
    // fid 5 is the top, open: all its entries, as a walk tells them
    (
        b"\x11\0\0\0n\x0e\0\x01\0\0\0\x05\0\0\0\0\0",
        b"\x09\0\0\0o\x0e\0\0\0",
    ),
    (
        b"\x0f\0\0\0\x0c\x0f\0\x05\0\0\0\0\0\0\0",
        b"\x18\0\0\0\x0d\x0f\0\x80\0\xf1Se\x01\0\0\0\0\0\0\0\0\0\0\0",
    ),
    (
        b"\x17\0\0\0\x28\x10\0\x05\0\0\0\0\0\0\0\0\0\0\0\0\x10\0\0",
        b"K\0\0\0\x29\x10\0\x40\0\0\0\x80\0\xf1Se\x02\0\0\0\0\0\0\0\x01\0\0\0\0\0\0\0\x04\x06\0subdir\0\0\xf1Se\x04\0\0\0\0\0\0\0\x02\0\0\0\0\0\0\0\x08\x0a\0\xe4\xb8\x96\xe7\x95\x8c.txt",
    ),
    (
        b"\x1d\0\0\0n\x11\0\x01\0\0\0\x06\0\0\0\x01\0\x0a\0\xe4\xb8\x96\xe7\x95\x8c.txt",
        b"\x16\0\0\0o\x11\0\x01\0\0\0\xf1Se\x04\0\0\0\0\0\0\0",
    ),
    // as many as are asked for and fit whole; those behind an offset; none behind the last
    (
        b"\x17\0\0\0\x28\x12\0\x05\0\0\0\0\0\0\0\0\0\0\0\x3f\0\0\0",
        b"\x29\0\0\0\x29\x12\0\x1e\0\0\0\x80\0\xf1Se\x02\0\0\0\0\0\0\0\x01\0\0\0\0\0\0\0\x04\x06\0subdir",
    ),
    (
        b"\x17\0\0\0\x28\x13\0\x05\0\0\0\0\0\0\0\0\0\0\0\x1d\0\0\0",
        b"\x0b\0\0\0\x29\x13\0\0\0\0\0",
    ),
    (
        b"\x17\0\0\0\x28\x14\0\x05\0\0\0\x01\0\0\0\0\0\0\0\x22\0\0\0",
        b"\x2d\0\0\0\x29\x14\0\x22\0\0\0\0\0\xf1Se\x04\0\0\0\0\0\0\0\x02\0\0\0\0\0\0\0\x08\x0a\0\xe4\xb8\x96\xe7\x95\x8c.txt",
    ),
    (
        b"\x17\0\0\0\x28\x15\0\x05\0\0\0\x02\0\0\0\0\0\0\0\0\x10\0\0",
        b"\x0b\0\0\0\x29\x15\0\0\0\0\0",
    ),
    // `subdir` has a directory and a file
    (
        b"\x0f\0\0\0\x0c\x16\0\x02\0\0\0\0\0\0\0",
        b"\x18\0\0\0\x0d\x16\0\x80\0\xf1Se\x02\0\0\0\0\0\0\0\0\0\0\0",
    ),
    (
        b"\x17\0\0\0\x28\x17\0\x02\0\0\0\0\0\0\0\0\0\0\0\0\x10\0\0",
        b"B\0\0\0\x29\x17\0\x37\0\0\0\x80\0\xf1Se\x03\0\0\0\0\0\0\0\x01\0\0\0\0\0\0\0\x04\x06\0nested\0\0\xf1Se\x05\0\0\0\0\0\0\0\x02\0\0\0\0\0\0\0\x08\x01\0b",
    ),
    // `nested` is empty
    (
        b"\x19\0\0\0n\x18\0\x02\0\0\0\x07\0\0\0\x01\0\x06\0nested",
        b"\x16\0\0\0o\x18\0\x01\0\x80\0\xf1Se\x03\0\0\0\0\0\0\0",
    ),
    (
        b"\x0f\0\0\0\x0c\x19\0\x07\0\0\0\0\0\0\0",
        b"\x18\0\0\0\x0d\x19\0\x80\0\xf1Se\x03\0\0\0\0\0\0\0\0\0\0\0",
    ),
    (
        b"\x17\0\0\0\x28\x1a\0\x07\0\0\0\0\0\0\0\0\0\0\0\0\x10\0\0",
        b"\x0b\0\0\0\x29\x1a\0\0\0\0\0",
    ),
    // `b` from some offsets
    (
        b"\x17\0\0\0t\x1b\0\x04\0\0\0\0\0\0\0\0\0\0\0\0\x10\0\0",
        b"\x18\0\0\0u\x1b\0\x0d\0\0\0hello\x2c\x20world!",
    ),
    (
        b"\x17\0\0\0t\x1c\0\x04\0\0\0\x07\0\0\0\0\0\0\0\0\x10\0\0",
        b"\x11\0\0\0u\x1c\0\x06\0\0\0world\x21",
    ),
    (
        b"\x17\0\0\0t\x1d\0\x04\0\0\0\x0c\0\0\0\0\0\0\0\0\x10\0\0",
        b"\x0c\0\0\0u\x1d\0\x01\0\0\0\x21",
    ),
    (
        b"\x17\0\0\0t\x1e\0\x04\0\0\0\x0d\0\0\0\0\0\0\0\0\x10\0\0",
        b"\x0b\0\0\0u\x1e\0\0\0\0\0",
    ),
    // through a fid that appends, bytes go to the end
    (
        b"\x14\0\0\0n\x1f\0\x02\0\0\0\x08\0\0\0\x01\0\x01\0b",
        b"\x16\0\0\0o\x1f\0\x01\0\0\0\xf1Se\x05\0\0\0\0\0\0\0",
    ),
    (
        b"\x0f\0\0\0\x0c\x20\0\x08\0\0\0\x01\x04\0\0",
        b"\x18\0\0\0\x0d\x20\0\0\0\xf1Se\x05\0\0\0\0\0\0\0\0\0\0\0",
    ),
    (
        b"\x19\0\0\0v\x21\0\x08\0\0\0\0\0\0\0\0\0\0\0\x02\0\0\0!!",
        b"\x0b\0\0\0w\x21\0\x02\0\0\0",
    ),
    (
        b"\x17\0\0\0t\x22\0\x04\0\0\0\x0c\0\0\0\0\0\0\0\0\x10\0\0",
        b"\x0e\0\0\0u\x22\0\x03\0\0\0\x21\x21\x21",
    ),
    // a fid that is gone has no attributes
    (b"\x0b\0\0\0x\x23\0\x01\0\0\0", b"\x07\0\0\0y\x23\0"),
    (
        b"\x13\0\0\0\x18\x24\0\x01\0\0\0\xff\x07\0\0\0\0\0\0",
        b"\x0b\0\0\0\x07\x24\0\x09\0\0\0",
    ),
];

#[test]
fn directories_are_listed(rt: HostRuntime) -> Result<(), Fail> {
    let alloc = rt.alloc();
    let host = small_host(alloc)?;
    check(alloc, &mut server_of(alloc, host, 4096)?, &LISTINGS)
}

// The one entry of a directory.
fn only_entry<H: Host>(alloc: Global, host: &mut H, dir: u64) -> Result<DirEntry, Fail>
    requires { 0 < hold_count (H.holds host.old) dir }
{
    let mut entries = read_dir(host, dir, 0);
    let Some(first) = entries.next(alloc) else {
        return Err(Fail::from("no entry"));
    };
    if entries.next(alloc).is_some() {
        return Err(Fail::from("another entry"));
    }
    match first {
        Ok(entry) => Ok(entry),
        Err(_) => Err(Fail::from("no entry is told")),
    }
}

// A hold of the top of a host of which nothing is held.
fn hold_top(host: &mut TreeHost) -> Result<u64, Fail>
    requires { holds host.old ≡ map.empty }
    ensures { IfOk result (λ top. 0 < hold_count (holds host.new) top) }
{
    match host.attach_path(b"/") {
        Ok(top) => Ok(top),
        Err(_) => Err(Fail::from("no top")),
    }
}

#[test]
fn entries_are_read_one_by_one(rt: HostRuntime) -> Result<(), Fail> {
    let alloc = rt.alloc();
    let mut host = small_host(alloc)?;
    if name_fault(b"sub").is_some() {
        return Err(Fail::from("no name"));
    }
    let directory = NewItem::Dir {
        mode: 0o755,
        uid: 0,
        gid: 0,
    };
    host.add(1, b"sub", directory)?;
    let top = hold_top(&mut host)?;
    let entry = only_entry(alloc, &mut host, top)?;
    assert_eq!(rt; (entry.ino, entry.offset, entry.kind_), (2, 1, 4));
    assert!(rt; entry.name.eq_text("sub"));
    assert_eq!(rt; FileType::from_mode(0o040755), FileType::Directory);
    assert_eq!(rt; FileType::from_mode(0o100644), FileType::Regular);
    assert_eq!(rt; FileType::from_mode(0o120777), FileType::Other);
    Ok(())
}
