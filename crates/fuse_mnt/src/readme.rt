//! The example of README.md.

use crate::table_mounter::TableMounter;
use libmount::bind::BindMount;
use libmount::probe::User;
use libmount::script_probe::ScriptProbe;
use std::alloc::Global;
use std::test::Fail;

fn explained(alloc: Global) -> Result<String, Fail> {
    let mut mounts = TableMounter::new(alloc, true)?;
    mounts.add_present(b"/srv")?;
    let mut probe = ScriptProbe::new(alloc, User::Regular, b"/")?;
    probe.add(b"/srv", 1)?;
    let bind = BindMount::new(alloc, b"/srv", b"/mnt")?;
    Ok(match bind.mount(alloc, &mut mounts, &mut probe) {
        Ok(()) => format!(in alloc; "mounted")?,
        Err(failure) => format!(in alloc; "{failure}")?,
    })
}

#[test]
fn a_failed_bind_is_explained(rt: HostRuntime) -> Result<(), Fail> {
    assert_eq!(rt;
        explained(rt.alloc())?.as_str(),
        "recursive bind mount \"/srv\" -> \"/mnt\": errno 2 (source: exists, target: missing, regular-user)"
    );
    Ok(())
}
