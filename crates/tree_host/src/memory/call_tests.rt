ghost use Rattle.std.specs.Prelude.{◌≡◌, ◌≤◌, ◌<◌, ◌+◌, ℕ, IfOk};
ghost use Rattle.tree_host.specs.Holds.{hold_count};
ghost use Rattle.tree_host.specs.TreeHosts.{holds};

use super::TreeHost;
use super::tests::{BORN, LIMITS, MOMENT, put_directory};
use crate::holds::{count, is_held};
use crate::host::Host;
use port_base::errno::{
    EEXIST, EFBIG, EINVAL, EISDIR, EMLINK, ENOENT, ENOSPC, ENOTDIR, ENOTEMPTY, EPERM,
};
use port_base::names::name_fault;
use std::alloc::Global;
use std::process::Abort;
use std::test::Fail;
use tree_model::{HostError, TimeSet};

#[derive(Clone, Copy)]
enum Call {
    Create(u64, &'static [u8]),
    Mkdir(u64, &'static [u8]),
    Unlink(u64, &'static [u8]),
    Rmdir(u64, &'static [u8]),
    Link(u64, u64, &'static [u8]),
    Rename(u64, &'static [u8], u64, &'static [u8]),
    SetMode(u64),
    SetOwner(u64),
    SetTimes(u64),
    Touch(u64),
    SetLen(u64, u64),
    Write(u64, u64),
    Read(u64),
    Stat(u64),
    Open(u64),
    EntryAfter(u64, u64),
    Readlink(u64),
    Statfs(u64),
    Sync(u64),
    HoldAgain(u64),
    Release(u64),
}

// A call that names an entry; tells the inode that is new.
fn name_entry(
    rt: &impl Abort,
    host: &mut TreeHost,
    call: Call,
    dir: u64,
    name: &[u8],
) -> Result<u64, HostError> {
    assert!(rt; name_fault(name).is_none());
    assert!(rt; is_held(&host.holds, dir));
    match call {
        Call::Create(_, _) => host.create(dir, name, 0o100644),
        Call::Mkdir(_, _) => Ok(host.mkdir(dir, name, 0o40755)?.ino),
        Call::Rmdir(_, _) => host.rmdir(dir, name).map(|_| 0),
        _ => host.unlink(dir, name).map(|_| 0),
    }
}

fn link(
    rt: &impl Abort,
    host: &mut TreeHost,
    ino: u64,
    dir: u64,
    name: &[u8],
) -> Result<u64, HostError> {
    assert!(rt; name_fault(name).is_none());
    assert!(rt; is_held(&host.holds, ino));
    assert!(rt; is_held(&host.holds, dir));
    host.link(ino, dir, name).map(|_| 0)
}

fn rename(
    rt: &impl Abort,
    host: &mut TreeHost,
    (olddir, oldname): (u64, &[u8]),
    (newdir, newname): (u64, &[u8]),
) -> Result<u64, HostError> {
    assert!(rt; name_fault(oldname).is_none());
    assert!(rt; name_fault(newname).is_none());
    assert!(rt; is_held(&host.holds, olddir));
    assert!(rt; is_held(&host.holds, newdir));
    host.rename(olddir, oldname, newdir, newname).map(|_| 0)
}

// A call that changes an inode; tells how many bytes were written.
fn change(rt: &impl Abort, host: &mut TreeHost, call: Call, ino: u64) -> Result<u64, HostError> {
    assert!(rt; is_held(&host.holds, ino));
    match call {
        Call::SetMode(_) => host.set_mode(ino, 0o600).map(|_| 0),
        Call::SetOwner(_) => host.set_owner(ino, Some(3), None).map(|_| 0),
        Call::SetTimes(_) => host.set_times(ino, TimeSet::Now, TimeSet::Keep).map(|_| 0),
        Call::SetLen(_, len) => host.set_len(ino, len).map(|_| 0),
        Call::Write(_, offset) => host.write_at(ino, offset, b"xyz").map(|count| count as u64),
        _ => host.touch_ctime(ino).map(|_| 0),
    }
}

// A call that reads; tells a length, a cookie or a limit.
fn read(rt: &impl Abort, host: &mut TreeHost, call: Call, ino: u64) -> Result<u64, HostError> {
    assert!(rt; is_held(&host.holds, ino));
    let mut buf = [0; 4];
    match call {
        Call::Read(_) => host.read_at(ino, 0, &mut buf).map(|count| count as u64),
        Call::Stat(_) => host.stat(ino).map(|attr| attr.size),
        Call::Open(_) => host.open_check(ino, 0).map(|_| 0),
        Call::Readlink(_) => host.readlink(ino).map(|target| target.len() as u64),
        Call::Statfs(_) => host.statfs(ino).map(|statfs| statfs.files),
        _ => host.sync(ino).map(|_| 0),
    }
}

fn entry_after(
    rt: &impl Abort,
    host: &mut TreeHost,
    dir: u64,
    cookie: u64,
) -> Result<u64, HostError> {
    assert!(rt; is_held(&host.holds, dir));
    match host.entry_after(dir, cookie)? {
        Some(entry) => Ok(entry.cookie),
        None => Ok(0),
    }
}

// One hold more, or one less.
fn hold(rt: &impl Abort, host: &mut TreeHost, call: Call, ino: u64) -> Result<u64, HostError> {
    let held = count(&host.holds, ino);
    assert!(rt; held > 0 && held < u64::MAX);
    match call {
        Call::Release(_) => host.release(ino),
        _ => host.hold_again(ino)?,
    }
    Ok(0)
}

fn run(rt: &impl Abort, host: &mut TreeHost, call: Call) -> Result<u64, HostError> {
    match call {
        Call::Create(dir, name) => name_entry(rt, host, call, dir, name),
        Call::Mkdir(dir, name) => name_entry(rt, host, call, dir, name),
        Call::Unlink(dir, name) => name_entry(rt, host, call, dir, name),
        Call::Rmdir(dir, name) => name_entry(rt, host, call, dir, name),
        Call::Link(ino, dir, name) => link(rt, host, ino, dir, name),
        Call::Rename(olddir, old, newdir, new) => rename(rt, host, (olddir, old), (newdir, new)),
        Call::SetMode(ino) => change(rt, host, call, ino),
        Call::SetOwner(ino) => change(rt, host, call, ino),
        Call::SetTimes(ino) => change(rt, host, call, ino),
        Call::Touch(ino) => change(rt, host, call, ino),
        Call::SetLen(ino, _) => change(rt, host, call, ino),
        Call::Write(ino, _) => change(rt, host, call, ino),
        Call::EntryAfter(dir, cookie) => entry_after(rt, host, dir, cookie),
        Call::HoldAgain(ino) => hold(rt, host, call, ino),
        Call::Release(ino) => hold(rt, host, call, ino),
        Call::Read(ino) => read(rt, host, call, ino),
        Call::Stat(ino) => read(rt, host, call, ino),
        Call::Open(ino) => read(rt, host, call, ino),
        Call::Readlink(ino) => read(rt, host, call, ino),
        Call::Statfs(ino) => read(rt, host, call, ino),
        Call::Sync(ino) => read(rt, host, call, ino),
    }
}

// Looks a directory up, where so many were held before.
fn enter(
    rt: &impl Abort,
    host: &mut TreeHost,
    dir: u64,
    name: &[u8],
    held: u64,
) -> Result<u64, HostError>
    requires low { held < 8 }
    requires few { (i : ℕ) → hold_count (holds host.old) i ≤ held }
    ensures { (i : ℕ) → hold_count (holds host.new) i ≤ held + 1 }
{
    assert!(rt; name_fault(name).is_none());
    assert!(rt; is_held(&host.holds, dir));
    host.lookup(dir, name)
}

// A host whose calls with these numbers fault, with the directories `/a` and `/a/b`, 2 and 3.
fn started(rt: &impl Abort, alloc: Global, fails: &[u64]) -> Result<TreeHost, Fail>
    ensures { IfOk result (λ host. (i : ℕ) → hold_count (holds host) i ≤ 0) }
{
    let mut host = TreeHost::new(alloc, LIMITS, MOMENT, BORN, 0o755, 1, 2)?;
    host.fail_at(fails)?;
    put_directory(rt, &mut host, 1, b"a")?;
    put_directory(rt, &mut host, 2, b"b")?;
    Ok(host)
}

// The top and both directories are held then; these are calls 0 to 2.
fn held(rt: &impl Abort, host: &mut TreeHost) -> Result<(), HostError>
    requires { (i : ℕ) → hold_count (holds host.old) i ≤ 0 }
{
    host.attach_path(b"/")?;
    enter(rt, host, 1, b"a", 1)?;
    enter(rt, host, 2, b"b", 2)?;
    Ok(())
}

type Step = (Call, Result<u64, HostError>);

fn play(rt: &impl Abort, alloc: Global, steps: &[Step]) -> Result<(), Fail> {
    let mut host = started(rt, alloc, &[])?;
    held(rt, &mut host)?;
    for (call, want) in steps {
        assert_eq!(rt; run(rt, &mut host, *call), *want);
    }
    Ok(())
}

const fn refused(errno: u32) -> Result<u64, HostError> {
    Err(HostError::Errno(errno))
}

#[test]
fn a_directory_stays_above_itself(rt: HostRuntime) -> Result<(), Fail> {
    play(
        &rt,
        rt.alloc(),
        &[
            (Call::Rename(1, b"a", 2, b"c"), refused(EINVAL)),
            (Call::Rename(1, b"a", 3, b"c"), refused(EINVAL)),
            (Call::Rename(2, b"b", 1, b"c"), Ok(0)),
            (Call::Rename(1, b"a", 3, b"d"), Ok(0)),
        ],
    )
}

#[test]
fn directories_with_entries_stay(rt: HostRuntime) -> Result<(), Fail> {
    play(
        &rt,
        rt.alloc(),
        &[
            (Call::Rmdir(1, b"a"), refused(ENOTEMPTY)),
            (Call::Unlink(1, b"a"), refused(EISDIR)),
            (Call::Rmdir(2, b"b"), Ok(0)),
            (Call::Rmdir(1, b"a"), Ok(0)),
            (Call::Rmdir(1, b"a"), refused(ENOENT)),
            (Call::Create(2, b"f"), refused(ENOENT)),
        ],
    )
}

#[test]
fn files_end_by_their_limit(rt: HostRuntime) -> Result<(), Fail> {
    play(
        &rt,
        rt.alloc(),
        &[
            (Call::Create(1, b"f"), Ok(4)),
            (Call::Write(4, 6), Ok(2)),
            (Call::Stat(4), Ok(8)),
            (Call::Write(4, 8), refused(EFBIG)),
            (Call::SetLen(4, 9), refused(EFBIG)),
            (Call::SetLen(4, 3), Ok(0)),
            (Call::Write(2, 0), refused(EISDIR)),
            (Call::Read(4), Ok(3)),
        ],
    )
}

#[test]
fn an_unlinked_file_goes_with_its_last_hold(rt: HostRuntime) -> Result<(), Fail> {
    let mut host = started(&rt, rt.alloc(), &[])?;
    held(&rt, &mut host)?;
    let steps = [
        (Call::Create(1, b"f"), Ok(4)),
        (Call::Write(4, 0), Ok(3)),
        (Call::HoldAgain(4), Ok(0)),
        (Call::Unlink(1, b"f"), Ok(0)),
        (Call::Release(4), Ok(0)),
        (Call::Read(4), Ok(3)),
        (Call::Link(4, 1, b"g"), refused(ENOENT)),
        (Call::Release(4), Ok(0)),
    ];
    for (call, want) in steps {
        assert_eq!(rt; run(&rt, &mut host, call), want);
    }
    assert_eq!(rt; host.record_after(3), None);
    Ok(())
}

#[test]
fn names_are_given_and_listed(rt: HostRuntime) -> Result<(), Fail> {
    play(
        &rt,
        rt.alloc(),
        &[
            (Call::Link(2, 1, b"g"), refused(EPERM)),
            (Call::Create(1, b"f"), Ok(4)),
            (Call::Create(1, b"f"), refused(EEXIST)),
            (Call::Mkdir(4, b"d"), refused(ENOTDIR)),
            (Call::Link(4, 1, b"g"), Ok(0)),
            (Call::Link(4, 1, b"h"), refused(EMLINK)),
            (Call::EntryAfter(1, 1), Ok(2)),
            (Call::Unlink(1, b"g"), Ok(0)),
            (Call::Mkdir(1, b"h"), Ok(5)),
            (Call::EntryAfter(1, 2), Ok(4)),
            (Call::EntryAfter(1, 4), Ok(0)),
            (Call::Create(1, b"i"), Ok(6)),
            (Call::Create(1, b"j"), refused(ENOSPC)),
            (Call::EntryAfter(1, 4), Ok(5)),
            (Call::Rename(1, b"f", 1, b"h"), refused(EISDIR)),
            (Call::Rename(1, b"h", 1, b"f"), refused(ENOTDIR)),
            (Call::Rename(1, b"f", 1, b"i"), Ok(0)),
            (Call::EntryAfter(1, 5), Ok(6)),
        ],
    )
}

// ---- calls that fail

const SCRIPT: [Call; 24] = [
    Call::Create(1, b"f"),
    Call::Mkdir(1, b"d"),
    Call::Write(4, 3),
    Call::Link(4, 1, b"g"),
    Call::Stat(4),
    Call::Rename(1, b"g", 3, b"h"),
    Call::EntryAfter(1, 0),
    Call::Open(4),
    Call::Read(4),
    Call::SetMode(4),
    Call::SetOwner(4),
    Call::SetTimes(4),
    Call::Touch(1),
    Call::SetLen(4, 2),
    Call::Readlink(4),
    Call::Statfs(1),
    Call::Sync(4),
    Call::HoldAgain(4),
    Call::Create(1, b"e"),
    Call::Rename(1, b"e", 3, b"h"),
    Call::Unlink(1, b"f"),
    Call::Rmdir(1, b"d"),
    Call::Write(6, 0),
    Call::Unlink(3, b"h"),
];

// What an inode has, and the bytes of a file.
fn bytes_of(host: &TreeHost, ino: u64, buf: &mut [u8]) -> usize {
    match host.nodes.get(ino) {
        Some(node) => node.read(0, buf),
        None => 0,
    }
}

fn assert_same_entries(rt: &impl Abort, host: &TreeHost, other: &TreeHost, dir: u64) {
    for cookie in 0..8u64 {
        let entry = entry_at(host, dir, cookie);
        assert_eq!(rt; entry, entry_at(other, dir, cookie));
    }
}

fn entry_at(host: &TreeHost, dir: u64, cookie: u64) -> Option<(u64, u64, &[u8])> {
    match host.nodes.get(dir) {
        Some(node) => match node.entry_above(cookie) {
            Some(entry) => Some((entry.cookie(), entry.ino(), entry.name())),
            None => None,
        },
        None => None,
    }
}

fn assert_same(rt: &impl Abort, host: &TreeHost, other: &TreeHost) {
    for ino in 0..8u64 {
        assert_eq!(rt; host.record_after(ino), other.record_after(ino));
        assert_eq!(rt; count(&host.holds, ino), count(&other.holds, ino));
        let mut bytes = [0; 8];
        let mut others = [0; 8];
        assert_eq!(rt;
            bytes_of(host, ino, &mut bytes),
            bytes_of(other, ino, &mut others)
        );
        assert_eq!(rt; bytes, others);
        assert_same_entries(rt, host, other, ino);
    }
    assert_eq!(rt; host.next_ino(), other.next_ino());
}

// Plays the calls up to one that fails, and tells its number.
fn play_to_fault(rt: &impl Abort, host: &mut TreeHost) -> usize {
    for (number, call) in SCRIPT.iter().enumerate() {
        if run(rt, host, *call) == Err(HostError::Fault) {
            return number;
        }
    }
    SCRIPT.len()
}

#[test]
fn a_failing_call_changes_nothing(rt: HostRuntime) -> Result<(), Fail> {
    for number in 0..SCRIPT.len() {
        let mut host = started(&rt, rt.alloc(), &[number as u64 + 3])?;
        let mut other = started(&rt, rt.alloc(), &[])?;
        held(&rt, &mut host)?;
        held(&rt, &mut other)?;
        assert_eq!(rt; play_to_fault(&rt, &mut host), number);
        for call in SCRIPT.iter().take(number) {
            assert!(rt; run(&rt, &mut other, *call) != Err(HostError::Fault));
        }
        assert_same(&rt, &host, &other);
    }
    Ok(())
}
