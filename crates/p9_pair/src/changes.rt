//! Each call that changes the tree, or asks about it, is answered.
ghost use Rattle.std.specs.Prelude.{◌≡◌, ◌≤◌, ◌+◌, None, length};
ghost use Rattle.port_base.specs.Names.{name_fault};
ghost use Rattle.p9_wire.specs.Values.{TextSpells};
ghost use Rattle.p9_client.specs.Views.{IsRoomy};

use crate::tests::{attached, server_of_a_file};
use p9_client::{
    Device, create, fsync, link, mkdir, mknod, read_link, rename_at, set_attr, stat_fs, symlink,
    unlink_at, write,
};
use p9_server::Nine;
use p9_tmsg::Tsetattr;
use port_base::errno::{EACCES, EBADF, EINVAL};
use port_base::names::name_fault;
use std::alloc::Global;
use std::test::Fail;

// The refusals of calls on the names of the directory that is fid 1, in order.
#[tactic(auto, using(crate::proofs::Calling::roomy_after))]
fn of_names<N: Nine>(
    alloc: Global,
    nine: &mut N,
    name: &[u8],
    other: &[u8],
) -> Result<[Option<u32>; 7], Fail>
    requires roomy { IsRoomy (N.at nine.old).state }
    requires named { name_fault name.now ≡ None }
    requires other_named { name_fault other.now ≡ None }
{
    let device = Device { major: 1, minor: 3 };
    let made = mkdir(alloc, nine, 1, name, 0o755)?.err();
    let moved = rename_at(alloc, nine, 1, name, 1, other)?.err();
    let gone = unlink_at(alloc, nine, 1, other, 0x200)?.err();
    let linked = link(alloc, nine, 1, 9, name)?.err();
    let special = mknod(alloc, nine, 1, name, 0o020600, device)?.err();
    let target = read_link(alloc, nine, 1)?.err();
    let sizes = stat_fs(alloc, nine, 1)?.err();
    Ok([made, moved, gone, linked, special, target, sizes])
}

#[test]
fn names_are_made_moved_and_taken_away(rt: HostRuntime) -> Result<(), Fail> {
    let alloc = rt.alloc();
    let mut server = server_of_a_file(alloc)?;
    if name_fault(b"d").is_some() || name_fault(b"e").is_some() {
        return Err(Fail::from("no name"));
    }
    assert!(rt; server.msize() >= 4352);
    attached(alloc, &mut server)?;
    let got = of_names(alloc, &mut server, b"d", b"e")?;
    let want = [
        None,
        None,
        None,
        Some(EBADF),
        Some(EACCES),
        Some(EINVAL),
        None,
    ];
    assert_eq!(rt; got, want);
    Ok(())
}

// The refusals of calls on a file that is made in the directory that is fid 1, in order.
#[tactic(auto, using(crate::proofs::Calling::roomy_after))]
fn of_a_file<N: Nine>(alloc: Global, nine: &mut N, name: &[u8]) -> Result<[Option<u32>; 4], Fail>
    requires roomy { IsRoomy (N.at nine.old).state }
    requires named { name_fault name.now ≡ None }
{
    let change = Tsetattr {
        fid: 1,
        valid: 1,
        mode: 0o600,
        uid: 0,
        gid: 0,
        size: 0,
        atime_sec: 0,
        atime_nsec: 0,
        mtime_sec: 0,
        mtime_nsec: 0,
    };
    let made = create(alloc, nine, 1, name, 2, 0o644)?.err();
    let written = write(alloc, nine, 1, 0, b"abc")?.err();
    let kept = fsync(alloc, nine, 1)?.err();
    let set = set_attr(alloc, nine, change)?.err();
    Ok([made, written, kept, set])
}

#[test]
fn a_file_is_made_and_written(rt: HostRuntime) -> Result<(), Fail> {
    let alloc = rt.alloc();
    let mut server = server_of_a_file(alloc)?;
    if name_fault(b"n").is_some() {
        return Err(Fail::from("no name"));
    }
    assert!(rt; server.msize() >= 4352);
    attached(alloc, &mut server)?;
    let got = of_a_file(alloc, &mut server, b"n")?;
    assert_eq!(rt; got, [None, None, None, None]);
    Ok(())
}

// A link that is asked for in the directory that is fid 1.
fn of_a_link<N: Nine>(alloc: Global, nine: &mut N, name: &[u8]) -> Result<Option<u32>, Fail>
    requires roomy { IsRoomy (N.at nine.old).state }
    requires named { name_fault name.now ≡ None }
{
    Ok(symlink(alloc, nine, 1, name, name)?.err())
}

#[test]
fn a_link_is_refused(rt: HostRuntime) -> Result<(), Fail> {
    let alloc = rt.alloc();
    let mut server = server_of_a_file(alloc)?;
    if name_fault(b"n").is_some() {
        return Err(Fail::from("no name"));
    }
    assert!(rt; server.msize() >= 4352);
    attached(alloc, &mut server)?;
    assert_eq!(rt; of_a_link(alloc, &mut server, b"n")?, Some(EACCES));
    Ok(())
}
