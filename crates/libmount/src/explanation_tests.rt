use crate::bind::BindMount;
use crate::errors::{IoCause, MountError, OSError, RemountError};
use crate::explanation::{Explainable, exists, user};
use crate::flag_change::Remount;
use crate::move_mount::Move;
use crate::operation::Operation;
use crate::overlay::Overlay;
use crate::path_list::PathList;
use crate::probe::{Probe, User};
use crate::script_probe::ScriptProbe;
use crate::tmpfs::Tmpfs;
use std::test::Fail;

#[test]
fn explanations_tell_paths_and_the_user(rt: HostRuntime) -> Result<(), Fail> {
    let alloc = rt.alloc();
    let mut probe = ScriptProbe::new(alloc, User::RootIdentity, b"/home")?;
    probe.add(b"/a", 1)?;
    let bind = BindMount::new(alloc, b"/a/", b"/b")?;
    assert_eq!(rt;
        bind.explain(alloc, &mut probe)?.as_slice(),
        b"source: exists, target: missing, superuser".as_slice()
    );
    let relocation = Move::new(alloc, b"/b", b"/a")?;
    assert_eq!(rt;
        relocation.explain(alloc, &mut probe)?.as_slice(),
        b"source: missing, target: exists".as_slice()
    );
    let tmpfs = Tmpfs::new(alloc, b"/a")?;
    assert_eq!(rt;
        tmpfs.explain(alloc, &mut probe)?.as_slice(),
        b"target: exists, superuser".as_slice()
    );
    let change = Remount::new(alloc, b"/b")?;
    assert_eq!(rt;
        change.explain(alloc, &mut probe)?.as_slice(),
        b"path: missing, superuser".as_slice()
    );
    Ok(())
}

#[test]
fn a_probe_faults_where_its_script_says(rt: HostRuntime) -> Result<(), Fail> {
    let alloc = rt.alloc();
    let mut probe = ScriptProbe::new(alloc, User::RootMapped, b"/home")?;
    probe.add(b"/a", 1)?;
    probe.add(b"/a", 2)?;
    probe.fail_at(&[1, 3])?;
    assert_eq!(rt; exists(&mut probe, b"/a"), "exists");
    assert_eq!(rt; exists(&mut probe, b"/a"), "missing");
    assert_eq!(rt; probe.device(b"/a"), Some(2));
    assert!(rt; probe.current_dir(alloc).is_err());
    assert_eq!(rt; probe.current_dir(alloc)?.as_slice(), b"/home".as_slice());
    assert_eq!(rt; user(&mut probe), "mapped-root");
    Ok(())
}

#[test]
fn overlays_tell_their_directories(rt: HostRuntime) -> Result<(), Fail> {
    let alloc = rt.alloc();
    let mut probe = ScriptProbe::new(alloc, User::RootIdentity, b"/")?;
    let there: [&[u8]; 4] = [b"/l", b"/w/u", b"/w", b"/t"];
    for path in there {
        probe.add(path, 7)?;
    }
    let mut dirs = PathList::new(alloc);
    dirs.push(b"/l")?;
    let overlay = Overlay::writable(alloc, dirs.try_clone(alloc)?, b"/w/u", b"/w", b"/t")?;
    assert_eq!(rt;
        overlay.explain(alloc, &mut probe)?.as_slice(),
        b"\"/l\": exists, upperdir: exists, workdir: exists, same-fs, workdir-prefix-of-upperdir, target: exists, superuser".as_slice()
    );
    let overlay = Overlay::readonly(alloc, dirs, b"/t")?;
    assert_eq!(rt;
        Operation::Overlay(overlay)
            .explain(alloc, &mut probe)?
            .as_slice(),
        b"\"/l\": exists, single-lowerdir, superuser".as_slice()
    );
    Ok(())
}

#[test]
fn errors_of_a_remount_are_explained(rt: HostRuntime) -> Result<(), Fail> {
    let alloc = rt.alloc();
    let mut probe = ScriptProbe::new(alloc, User::RootIdentity, b"/")?;
    let cases: [(RemountError, &str); 2] = [
        (
            RemountError::UnknownMountPoint(b"/no".to_vec(alloc)?),
            "remount \"/no\": Cannot find mount point: \"/no\" (Cannot find mount point: \"/no\", path: missing, superuser)",
        ),
        (
            RemountError::Io(IoCause::MountInfo),
            "remount \"/no\": errno 5 (Cannot read file: \"/proc/self/mountinfo\", path: missing, superuser)",
        ),
    ];
    for (error, want) in cases {
        let change = Remount::new(alloc, b"/no")?;
        let failed = OSError(MountError::Remount(error), Operation::Remount(change));
        let text = match failed.explain(alloc, &mut probe) {
            Ok(error) => format!(in alloc; "{error}")?,
            Err(error) => format!(in alloc; "{error}")?,
        };
        assert_eq!(rt; text.as_str(), want);
    }
    Ok(())
}
