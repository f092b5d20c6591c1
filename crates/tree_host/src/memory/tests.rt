ghost use Rattle.std.specs.Prelude.{◌≡◌, ◌<◌};
ghost use Rattle.tree_host.specs.TreeHosts.{IsGoodItem, IsStoredItem, tree, holds};

use super::{NewItem, TreeHost};
use port_base::errno::{EEXIST, EFBIG, ENOTDIR, EPERM};
use port_base::names::name_fault;
use std::process::Abort;
use std::test::Fail;
use tree_model::{Attr, HostError, Kind, Limits, Stamp};

pub(super) const BORN: Stamp = Stamp { sec: 7, nsec: 3 };

pub(super) const MOMENT: Stamp = Stamp { sec: 9, nsec: 0 };

pub(super) const LIMITS: Limits = Limits {
    file: 8,
    entries: 4,
    links: 2,
};

fn put(
    rt: &impl Abort,
    host: &mut TreeHost,
    dir: u64,
    name: &[u8],
    item: NewItem<'_>,
) -> Result<u64, HostError>
    requires item { IsGoodItem item }
    requires there { IsStoredItem (tree host.old).records item }
    ensures { holds host.new ≡ holds host.old }
{
    assert!(rt; name_fault(name).is_none());
    assert!(rt; host.nodes.contains_key(dir));
    host.add(dir, name, item)
}

fn put_hard(
    rt: &impl Abort,
    host: &mut TreeHost,
    dir: u64,
    name: &[u8],
    ino: u64,
) -> Result<u64, HostError> {
    assert!(rt; host.nodes.contains_key(ino));
    put(rt, host, dir, name, NewItem::Hard { ino })
}

pub(super) fn put_directory(
    rt: &impl Abort,
    host: &mut TreeHost,
    dir: u64,
    name: &[u8],
) -> Result<u64, HostError>
    ensures { holds host.new ≡ holds host.old }
{
    let item = NewItem::Dir {
        mode: 0o755,
        uid: 1,
        gid: 2,
    };
    put(rt, host, dir, name, item)
}

pub(super) fn put_link(
    rt: &impl Abort,
    host: &mut TreeHost,
    dir: u64,
    name: &[u8],
) -> Result<u64, HostError>
    ensures { holds host.new ≡ holds host.old }
{
    let item = NewItem::Link {
        uid: 7,
        gid: 8,
        target: b"d/f",
    };
    put(rt, host, dir, name, item)
}

// What is told of an inode that was added before the tree is served.
fn attr(ino: u64, kind: Kind, links: u64, size: u64) -> Attr {
    let (mode, uid, gid) = match kind {
        Kind::Directory => (0o755, 1, 2),
        Kind::File => (0o600, 3, 4),
        Kind::Link => (0o777, 7, 8),
    };
    Attr {
        ino,
        kind,
        mode,
        uid,
        gid,
        links,
        size,
        atime: BORN,
        mtime: BORN,
        ctime: BORN,
    }
}

fn put_file(
    rt: &impl Abort,
    host: &mut TreeHost,
    dir: u64,
    name: &[u8],
    bytes: &[u8],
) -> Result<u64, HostError> {
    let item = NewItem::File {
        mode: 0o600,
        uid: 3,
        gid: 4,
        bytes,
    };
    put(rt, host, dir, name, item)
}

#[test]
fn every_item_is_added(rt: HostRuntime) -> Result<(), Fail> {
    let mut host = TreeHost::new(rt.alloc(), LIMITS, MOMENT, BORN, 0o755, 1, 2)?;
    assert_eq!(rt; put_directory(&rt, &mut host, 1, b"d"), Ok(2));
    assert_eq!(rt; put_file(&rt, &mut host, 2, b"f", b"abc"), Ok(3));
    assert_eq!(rt; put_hard(&rt, &mut host, 1, b"g", 3), Ok(3));
    assert_eq!(rt; put_link(&rt, &mut host, 1, b"l"), Ok(4));
    let told = [
        attr(1, Kind::Directory, 2, 0),
        attr(2, Kind::Directory, 2, 0),
        attr(3, Kind::File, 2, 3),
        attr(4, Kind::Link, 1, 3),
    ];
    for (before, attr) in told.iter().enumerate() {
        assert_eq!(rt; host.record_after(before as u64), Some(*attr));
    }
    assert_eq!(rt; host.record_after(4), None);
    Ok(())
}

#[test]
fn items_are_refused(rt: HostRuntime) -> Result<(), Fail> {
    let mut host = TreeHost::new(rt.alloc(), LIMITS, MOMENT, BORN, 0o755, 1, 2)?;
    assert_eq!(rt; put_directory(&rt, &mut host, 1, b"d"), Ok(2));
    let files: [(u64, &[u8], &[u8], Result<u64, HostError>); 4] = [
        (1, b"d", b"", Err(HostError::Errno(EEXIST))),
        (2, b"long", b"123456789", Err(HostError::Errno(EFBIG))),
        (2, b"f", b"12345678", Ok(3)),
        (3, b"x", b"", Err(HostError::Errno(ENOTDIR))),
    ];
    for (dir, name, bytes, want) in files {
        assert_eq!(rt; put_file(&rt, &mut host, dir, name, bytes), want);
    }
    let refused = put_hard(&rt, &mut host, 2, b"h", 2);
    assert_eq!(rt; refused, Err(HostError::Errno(EPERM)));
    Ok(())
}

#[test]
fn paths_are_found(rt: HostRuntime) -> Result<(), Fail> {
    let mut host = TreeHost::new(rt.alloc(), LIMITS, MOMENT, BORN, 0o755, 1, 2)?;
    assert_eq!(rt; put_directory(&rt, &mut host, 1, b"d"), Ok(2));
    assert_eq!(rt; put_link(&rt, &mut host, 2, b"l"), Ok(3));
    let paths: [(&[u8], Option<u64>); 7] = [
        (b"/", Some(1)),
        (b"/d", Some(2)),
        (b"//d", None),
        (b"/d/", None),
        (b"/d/l", Some(3)),
        (b"/d/l/x", None),
        (b"/D", None),
    ];
    for (path, want) in paths {
        assert_eq!(rt; host.find(path), want);
    }
    Ok(())
}
