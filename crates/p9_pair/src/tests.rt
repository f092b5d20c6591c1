//! A file is found, its fid copied, opened and read.
ghost use Rattle.std.specs.Prelude.{◌≡◌, ◌+◌, ◌<◌, ◌≤◌, ℕ, true, None, IfOk};
ghost use Rattle.std.specs.FinMap as map;
ghost use Rattle.port_base.specs.Names.{name_fault};
ghost use Rattle.tree_host.specs.TreeHosts.{holds};
ghost use Rattle.fid_model.specs.Moments.{Keeps};
ghost use Rattle.p9_client.specs.Opening.{is_readable_at};
ghost use Rattle.p9_client.specs.Views.{IsRoomy};
ghost use Rattle.p9_pair.specs.Named.{HasFids};

use p9_client::{attach, copy_fid, open, read, walk_one};
use p9_server::{Config, Nine, Server};
use p9_wire::data::Data;
use port_base::names::name_fault;
use std::alloc::Global;
use std::test::Fail;
use tree_host::{NewItem, TreeHost};
use tree_model::{Limits, Stamp};

// The root is fid 1.
pub(crate) fn attached<N: Nine>(alloc: Global, nine: &mut N) -> Result<(), Fail>
    requires roomy { IsRoomy (N.at nine.old).state }
    requires none { (N.at nine.old).state.fids ≡ map.empty }
    ensures fids { IfOk result (λ _. HasFids 1 (N.at nine.new).state.fids) }
    ensures kept { Keeps (N.at nine.old) (N.at nine.new) }
{
    match attach(alloc, nine, 1)? {
        Ok(_) => Ok(()),
        Err(_) => Err(Fail::from("not attached")),
    }
}

// The file of this name is fid 2.
fn walked<N: Nine>(alloc: Global, nine: &mut N, name: &[u8]) -> Result<(), Fail>
    requires roomy { IsRoomy (N.at nine.old).state }
    requires fids { HasFids 1 (N.at nine.old).state.fids }
    requires below { 1 < (N.at nine.old).state.settings.limit }
    requires named { name_fault name.now ≡ None }
    ensures fids { IfOk result (λ _. HasFids 2 (N.at nine.new).state.fids) }
    ensures kept { Keeps (N.at nine.old) (N.at nine.new) }
{
    match walk_one(alloc, nine, 1, 2, name)? {
        Ok(_) => Ok(()),
        Err(_) => Err(Fail::from("not found")),
    }
}

// Fid 3 is a copy of fid 2.
fn copied<N: Nine>(alloc: Global, nine: &mut N) -> Result<(), Fail>
    requires roomy { IsRoomy (N.at nine.old).state }
    requires fids { HasFids 2 (N.at nine.old).state.fids }
    requires below { 2 < (N.at nine.old).state.settings.limit }
    ensures fids { IfOk result (λ _. HasFids 3 (N.at nine.new).state.fids) }
    ensures kept { Keeps (N.at nine.old) (N.at nine.new) }
{
    match copy_fid(alloc, nine, 2, 3)? {
        Ok(()) => Ok(()),
        Err(_) => Err(Fail::from("not copied")),
    }
}

// Fid 3 is opened to be read.
fn opened<N: Nine>(alloc: Global, nine: &mut N) -> Result<(), Fail>
    requires roomy { IsRoomy (N.at nine.old).state }
    requires fids { HasFids 3 (N.at nine.old).state.fids }
    ensures readable { IfOk result (λ _. is_readable_at (map.get (N.at nine.new).state.fids 3)
        ≡ true) }
    ensures kept { Keeps (N.at nine.old) (N.at nine.new) }
{
    match open(alloc, nine, 3, 0)? {
        Ok(_) => Ok(()),
        Err(_) => Err(Fail::from("not opened")),
    }
}

// Three bytes from 1 on of a file of the root, by a copied fid.
fn three_bytes<N: Nine>(alloc: Global, nine: &mut N, name: &[u8]) -> Result<Data, Fail>
    requires roomy { IsRoomy (N.at nine.old).state }
    requires none { (N.at nine.old).state.fids ≡ map.empty }
    requires below { 2 < (N.at nine.old).state.settings.limit }
    requires named { name_fault name.now ≡ None }
{
    attached(alloc, nine)?;
    walked(alloc, nine, name)?;
    copied(alloc, nine)?;
    opened(alloc, nine)?;
    match read(alloc, nine, 3, 1, 3)? {
        Ok(bytes) => Ok(bytes),
        Err(_) => Err(Fail::from("not read")),
    }
}

// A server of a host with the one file `f`, with the bytes `hello`.
pub(crate) fn server_of_a_file(alloc: Global) -> Result<Server<TreeHost>, Fail>
    ensures none { IfOk result (λ s. s.fids ≡ map.empty) }
{
    let limits = Limits {
        file: 1048576,
        entries: 65536,
        links: 65000,
    };
    let born = Stamp {
        sec: 1600000000,
        nsec: 0,
    };
    let Ok(mut host) = TreeHost::new(alloc, limits, born, born, 0o755, 0, 0) else {
        return Err(Fail::from("out of memory"));
    };
    if name_fault(b"f").is_some() {
        return Err(Fail::from("no name"));
    }
    let item = NewItem::File {
        mode: 0o644,
        uid: 0,
        gid: 0,
        bytes: b"hello",
    };
    host.add(1, b"f", item)?;
    let Ok(config) = Config::standard(alloc) else {
        return Err(Fail::from("out of memory"));
    };
    match Server::with_config(alloc, host, config) {
        Ok(server) => Ok(server),
        Err(_) => Err(Fail::from("no server")),
    }
}

#[test]
fn a_file_is_read_by_a_copied_fid(rt: HostRuntime) -> Result<(), Fail> {
    let alloc = rt.alloc();
    let mut server = server_of_a_file(alloc)?;
    if name_fault(b"f").is_some() {
        return Err(Fail::from("no name"));
    }
    assert!(rt; server.msize() >= 4352);
    assert!(rt; server.fid_limit() >= 3);
    let bytes = three_bytes(alloc, &mut server, b"f")?;
    let want: &[u8] = b"ell";
    assert_eq!(rt; bytes.as_slice(), want);
    assert_eq!(rt; server.fid_count(), 3);
    Ok(())
}
