//! The examples of README.md.

use crate::bind::BindMount;
use crate::errors::{MountError, OSError};
use crate::mountinfo::{ParseError, Parser};
use crate::operation::Operation;
use crate::probe::User;
use crate::script_probe::ScriptProbe;
use port_base::flags::MsFlags;
use std::alloc::Global;

fn read_only_mounts(alloc: Global, table: &[u8]) -> Result<usize, ParseError> {
    let mut count: usize = 0;
    for row in Parser::new(alloc, table) {
        let mount = row?;
        if mount.get_mount_flags().contains(MsFlags::MS_RDONLY) {
            count = count.saturating_add(1);
        }
    }
    Ok(count)
}

fn explained(alloc: Global, errno: u32) -> Option<String> {
    let bind = BindMount::new(alloc, b"/srv", b"/mnt").ok()?;
    let failed = OSError(MountError::Io(errno), Operation::Bind(bind));
    let mut probe = ScriptProbe::new(alloc, User::Regular, b"/").ok()?;
    probe.add(b"/srv", 1).ok()?;
    let error = failed.explain(alloc, &mut probe).ok()?;
    format!(in alloc; "{error}").ok()
}

#[test]
fn read_only_mounts_are_counted(rt: HostRuntime) {
    let count = read_only_mounts(
        rt.alloc(),
        b"1 1 0:1 / /a ro - t s rw\n2 1 0:1 / /b rw - t s rw",
    );
    assert_eq!(rt; count.ok().expect(&rt, "memory"), 1);
}

#[test]
fn an_error_is_explained(rt: HostRuntime) {
    let text = explained(rt.alloc(), 2).expect(&rt, "memory");
    assert_eq!(rt;
        text.as_str(),
        "recursive bind mount \"/srv\" -> \"/mnt\": errno 2 (source: exists, target: missing, regular-user)"
    );
}
