use crate::bind::BindMount;
use crate::flag_change::Remount;
use crate::move_mount::Move;
use crate::overlay::Overlay;
use crate::path_list::{PathError, PathList};
use crate::tmpfs::Tmpfs;
use port_base::flags::MsFlags;
use std::alloc::Global;
use std::test::Fail;

fn paths(alloc: Global, all: &[&[u8]]) -> Result<PathList, Fail> {
    let mut list = PathList::new(alloc);
    for path in all {
        list.push(path)?;
    }
    Ok(list)
}

#[test]
fn binds_and_moves_print_their_paths(rt: HostRuntime) -> Result<(), Fail> {
    let alloc = rt.alloc();
    let bind = BindMount::new(alloc, b"/a", b"/b\n")?.readonly(true);
    let text = format!(in alloc; "{}", bind.try_clone(alloc)?)?;
    assert_eq!(rt; text.as_str(), "recursive bind mount \"/a\" -> \"/b\\n\"");
    let text = format!(in alloc; "{}", bind.recursive(false))?;
    assert_eq!(rt; text.as_str(), "bind mount \"/a\" -> \"/b\\n\"");
    let text = format!(in alloc; "{}", Move::new(alloc, b"/a", b"/b")?.try_clone(alloc)?)?;
    assert_eq!(rt; text.as_str(), "move \"/a\" -> \"/b\"");
    let refused = BindMount::new(alloc, b"/a", b"/b\0").err();
    assert_eq!(rt; refused, Some(PathError::NulInPath));
    Ok(())
}

#[test]
fn file_systems_in_memory_print_their_options(rt: HostRuntime) -> Result<(), Fail> {
    let alloc = rt.alloc();
    let tmpfs = Tmpfs::new(alloc, b"/tmp")?
        .size_blocks(1)
        .size_bytes(1048576)
        .nr_inodes(1024)
        .mode(0o1777)
        .uid(1000)
        .gid(1000);
    let text = format!(in alloc; "{}", tmpfs.try_clone(alloc)?)?;
    assert_eq!(rt;
        text.as_str(),
        "tmpfs size=1048576,nr_inodes=1024,mode=01777,uid=1000,gid=1000 -> \"/tmp\""
    );
    let text = format!(in alloc; "{}", Tmpfs::new(alloc, b"/tmp")?)?;
    assert_eq!(rt; text.as_str(), "tmpfs  -> \"/tmp\"");
    Ok(())
}

#[test]
fn overlays_escape_their_paths(rt: HostRuntime) -> Result<(), Fail> {
    let alloc = rt.alloc();
    let dirs = paths(alloc, &[b"/a:b", b"/c,d"])?;
    let overlay = Overlay::readonly(alloc, dirs, b"/t")?.try_clone(alloc)?;
    assert_eq!(rt;
        overlay.options(alloc)?.as_slice(),
        b"lowerdir=/a\\:b:/c\\,d".as_slice()
    );
    let dirs = paths(alloc, &[b"/l"])?;
    let overlay = Overlay::writable(alloc, dirs, b"/w/u", b"/w", b"/t")?;
    let text = format!(in alloc; "{overlay}")?;
    assert_eq!(rt;
        text.as_str(),
        "overlayfs \"/l\",upperdir=\"/w/u\",workdir=\"/w\" -> \"/t\""
    );
    Ok(())
}

fn with_all(change: Remount, flag: bool) -> Remount {
    change
        .bind(flag)
        .readonly(flag)
        .nodev(flag)
        .noexec(flag)
        .nosuid(flag)
        .noatime(flag)
        .nodiratime(flag)
        .relatime(flag)
        .strictatime(flag)
        .dirsync(flag)
        .synchronous(flag)
        .mandlock(flag)
}

#[test]
fn only_named_flags_change(rt: HostRuntime) -> Result<(), Fail> {
    let alloc = rt.alloc();
    let none = MsFlags::from_bits_truncate(0);
    let change = Remount::new(alloc, b"/")?;
    assert_eq!(rt; change.apply_to_flags(MsFlags::MS_NOSUID).bits(), 2);
    let set = with_all(change.try_clone(alloc)?, true);
    let all = set.apply_to_flags(none);
    assert_eq!(rt; all.bits(), 18881759);
    assert_eq!(rt; with_all(set, false).apply_to_flags(all).bits(), 0);
    let text = format!(in alloc; "{}", change.nodev(true).readonly(true))?;
    assert_eq!(rt; text.as_str(), "ro,nodev remount \"/\"");
    Ok(())
}
