use crate::table_mounter::TableMounter;
use libmount::bind::BindMount;
use libmount::errors::Failure;
use libmount::flag_change::Remount;
use libmount::mounter::{MountFault, Mounter};
use libmount::mountinfo::Parser;
use libmount::move_mount::Move;
use libmount::overlay::Overlay;
use libmount::path_list::PathList;
use libmount::probe::User;
use libmount::script_probe::ScriptProbe;
use libmount::tmpfs::Tmpfs;
use std::alloc::Global;
use std::test::Fail;

#[derive(Clone, Copy)]
enum Step<'a> {
    Tmpfs(usize, &'a [u8]),
    Bind(&'a [u8], &'a [u8]),
    ReadOnlyBind(&'a [u8], &'a [u8]),
    RecursiveBind(&'a [u8], &'a [u8]),
    Move(&'a [u8], &'a [u8]),
    Remount(&'a [u8]),
    Overlay(&'a [u8], &'a [u8]),
}

// A mounter and a probe to which the same paths are there.
fn system(alloc: Global, paths: &[&[u8]]) -> Result<(TableMounter, ScriptProbe), Fail> {
    let mut mounts = TableMounter::new(alloc, true)?;
    let mut probe = ScriptProbe::new(alloc, User::RootIdentity, b"/")?;
    for path in paths {
        mounts.add_present(path)?;
        probe.add(path, 1)?;
    }
    Ok((mounts, probe))
}

fn told(alloc: Global, outcome: Result<(), Failure>) -> Result<String, Fail> {
    let text = match outcome {
        Ok(()) => format!(in alloc; "ok")?,
        Err(failure) => format!(in alloc; "{failure}")?,
    };
    Ok(text)
}

// What a step comes to, as text.
fn play(
    alloc: Global,
    mounts: &mut TableMounter,
    probe: &mut ScriptProbe,
    step: &Step<'_>,
) -> Result<String, Fail> {
    if !mounts.has_room() {
        return told(alloc, Ok(()));
    }
    let result = match step {
        Step::Tmpfs(size, path) => Tmpfs::new(alloc, path)?
            .size_bytes(*size)
            .mount(alloc, mounts, probe),
        Step::Bind(source, target) => BindMount::new(alloc, source, target)?
            .recursive(false)
            .mount(alloc, mounts, probe),
        Step::ReadOnlyBind(source, target) => BindMount::new(alloc, source, target)?
            .recursive(false)
            .readonly(true)
            .mount(alloc, mounts, probe),
        Step::RecursiveBind(source, target) => {
            BindMount::new(alloc, source, target)?.mount(alloc, mounts, probe)
        }
        Step::Move(source, target) => {
            Move::new(alloc, source, target)?.move_mountpoint(alloc, mounts, probe)
        }
        Step::Remount(path) => Remount::new(alloc, path)?
            .readonly(true)
            .remount(alloc, mounts, probe),
        Step::Overlay(lower, target) => {
            let mut dirs = PathList::new(alloc);
            dirs.push(lower)?;
            Overlay::readonly(alloc, dirs, target)?.mount(alloc, mounts, probe)
        }
    };
    told(alloc, result)
}

// What the steps come to, a line each, and then the table.
fn played(
    alloc: Global,
    mounts: &mut TableMounter,
    probe: &mut ScriptProbe,
    steps: &[Step<'_>],
) -> Result<Vec<u8>, Fail> {
    let mut out = Vec::new(alloc);
    for step in steps {
        let text = play(alloc, mounts, probe, step)?;
        out.extend_from_slice(text.as_bytes())?;
        out.push(b'\n')?;
    }
    out.extend_from_slice(&mounts.print(alloc)?)?;
    Ok(out)
}

#[test]
fn a_list_of_mounts_is_played(rt: HostRuntime) -> Result<(), Fail> {
    let alloc = rt.alloc();
    let (mut mounts, mut probe) = system(alloc, &[b"/a", b"/a/b"])?;
    let steps = [
        Step::Tmpfs(4096, b"/a"),
        Step::Tmpfs(4096, b"/a/b"),
        Step::Tmpfs(8192, b"/a"),
        Step::Bind(b"/nope", b"/a"),
    ];
    let text = played(alloc, &mut mounts, &mut probe, &steps)?;
    assert_eq!(rt;
        text.as_slice(),
        b"ok
ok
ok
bind mount \"/nope\" -> \"/a\": errno 2 (source: missing, target: exists, superuser)
1 1 0:1 / / rw - rootfs rootfs rw
2 1 0:2 / /a rw,nosuid,nodev - tmpfs tmpfs rw,size=4096
3 2 0:3 / /a/b rw,nosuid,nodev - tmpfs tmpfs rw,size=4096
4 2 0:4 / /a rw,nosuid,nodev - tmpfs tmpfs rw,size=8192
"
            .as_slice()
    );
    Ok(())
}

#[test]
fn binds_show_a_tree_at_another_place(rt: HostRuntime) -> Result<(), Fail> {
    let alloc = rt.alloc();
    let (mut mounts, mut probe) = system(alloc, &[b"/a", b"/a/x", b"/b c"])?;
    let steps = [
        Step::Tmpfs(1, b"/a"),
        Step::Tmpfs(2, b"/a/x"),
        Step::RecursiveBind(b"/a", b"/b c"),
        Step::ReadOnlyBind(b"/a/x", b"/a"),
    ];
    let text = played(alloc, &mut mounts, &mut probe, &steps)?;
    assert_eq!(rt;
        text.as_slice(),
        b"ok
ok
ok
ok
1 1 0:1 / / rw - rootfs rootfs rw
2 1 0:2 / /a rw,nosuid,nodev - tmpfs tmpfs rw,size=1
3 2 0:3 / /a/x rw,nosuid,nodev - tmpfs tmpfs rw,size=2
4 1 0:2 / /b\\040c rw,nosuid,nodev - tmpfs tmpfs rw,size=1
5 4 0:3 / /b\\040c/x rw,nosuid,nodev - tmpfs tmpfs rw,size=2
6 2 0:3 / /a ro,nosuid,nodev - tmpfs tmpfs rw,size=2
"
            .as_slice()
    );
    assert_eq!(rt; mounts.umount(b"/b c"), Err(MountFault::Errno(16)));
    assert_eq!(rt; mounts.umount(b"/b c/x/"), Ok(()));
    assert_eq!(rt; mounts.umount(b"/b c"), Ok(()));
    assert_eq!(rt; mounts.umount(b"/b c"), Err(MountFault::Errno(22)));
    assert_eq!(rt; mounts.umount(b"/a"), Ok(()));
    assert_eq!(rt; mounts.umount(b"/"), Err(MountFault::Errno(16)));
    let text = mounts.print(alloc)?;
    assert_eq!(rt;
        text.as_slice(),
        b"1 1 0:1 / / rw - rootfs rootfs rw
2 1 0:2 / /a rw,nosuid,nodev - tmpfs tmpfs rw,size=1
3 2 0:3 / /a/x rw,nosuid,nodev - tmpfs tmpfs rw,size=2
"
            .as_slice()
    );
    Ok(())
}

#[test]
fn mounts_move_with_those_below_them(rt: HostRuntime) -> Result<(), Fail> {
    let alloc = rt.alloc();
    let (mut mounts, mut probe) = system(alloc, &[b"/a", b"/a/x", b"/b c", b"/o"])?;
    let steps = [
        Step::Tmpfs(1, b"/a"),
        Step::Tmpfs(2, b"/a/x"),
        Step::Overlay(b"/a", b"/o"),
        Step::Move(b"/a", b"/b c"),
        Step::Move(b"/a", b"/b c"),
        Step::Remount(b"b c"),
        Step::Remount(b"/non-existent"),
    ];
    let text = played(alloc, &mut mounts, &mut probe, &steps)?;
    assert_eq!(rt;
        text.as_slice(),
        b"ok
ok
ok
ok
move \"/a\" -> \"/b c\": errno 22 (source: exists, target: exists)
ok
ro remount \"/non-existent\": Cannot find mount point: \"/non-existent\" (Cannot find mount point: \"/non-existent\", path: missing, superuser)
1 1 0:1 / / rw - rootfs rootfs rw
4 1 0:4 / /o rw - overlay overlay rw,lowerdir=/a
2 1 0:2 / /b\\040c ro,nosuid,nodev - tmpfs tmpfs rw,size=1
3 2 0:3 / /b\\040c/x rw,nosuid,nodev - tmpfs tmpfs rw,size=2
"
            .as_slice()
    );
    Ok(())
}

#[test]
fn the_listed_calls_fault_and_leave_the_table(rt: HostRuntime) -> Result<(), Fail> {
    let alloc = rt.alloc();
    let (mut mounts, mut probe) = system(alloc, &[b"/a"])?;
    mounts.fail_at(&[1, 2])?;
    let first = play(alloc, &mut mounts, &mut probe, &Step::Tmpfs(1, b"/a"))?;
    assert_eq!(rt; first.as_str(), "ok");
    let second = play(alloc, &mut mounts, &mut probe, &Step::Tmpfs(2, b"/a"))?;
    assert_eq!(rt;
        second.as_str(),
        "tmpfs size=2 -> \"/a\": errno 5 (target: exists, superuser)"
    );
    assert_eq!(rt; mounts.umount(b"/a"), Err(MountFault::Fault));
    let text = mounts.print(alloc)?;
    assert_eq!(rt;
        text.as_slice(),
        b"1 1 0:1 / / rw - rootfs rootfs rw
2 1 0:2 / /a rw,nosuid,nodev - tmpfs tmpfs rw,size=1
"
            .as_slice()
    );
    Ok(())
}

// The points and the flags of a table's rows, as its text tells them.
fn rows_read(alloc: Global, text: &[u8]) -> Result<Vec<u8>, Fail> {
    let mut out = Vec::new(alloc);
    for row in Parser::new(alloc, text) {
        let mount = row?;
        out.extend_from_slice(mount.mount_point.as_bytes())?;
        let flags = format!(in alloc; ":{}\n", mount.get_flags())?;
        out.extend_from_slice(flags.as_bytes())?;
    }
    Ok(out)
}

#[test]
fn a_printed_table_is_read_back(rt: HostRuntime) -> Result<(), Fail> {
    let alloc = rt.alloc();
    let (mut mounts, mut probe) = system(alloc, &[b"/mnt", b"/a\n\\b"])?;
    let steps = [
        Step::Tmpfs(1, b"/mnt"),
        Step::Remount(b"mnt"),
        Step::Bind(b"/mnt", b"/a\n\\b"),
    ];
    for step in &steps {
        let text = play(alloc, &mut mounts, &mut probe, step)?;
        assert_eq!(rt; text.as_str(), "ok");
    }
    let read = rows_read(alloc, &mounts.print(alloc)?)?;
    assert_eq!(rt; read.as_slice(), b"/:0\n/mnt:7\n/a\n\\b:7\n".as_slice());
    Ok(())
}

#[test]
fn mounting_has_to_be_permitted(rt: HostRuntime) -> Result<(), Fail> {
    let alloc = rt.alloc();
    let mut mounts = TableMounter::new(alloc, false)?;
    let mut probe = ScriptProbe::new(alloc, User::Regular, b"/")?;
    let text = play(alloc, &mut mounts, &mut probe, &Step::Tmpfs(1, b"/"))?;
    assert_eq!(rt;
        text.as_str(),
        "tmpfs size=1 -> \"/\": errno 1 (target: missing, regular-user)"
    );
    Ok(())
}
