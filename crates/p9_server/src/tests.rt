//! A server of a small tree, by the bytes that it reads and writes.
ghost use Rattle.std.specs.Prelude.{◌≡◌, IfOk};
ghost use Rattle.std.specs.FinMap as map;
ghost use Rattle.tree_host.specs.TreeHosts.{holds};

mod configs;
mod directories;
mod files;
mod folding;
mod frames;
mod json;
mod listings;
mod opening;
mod sessions;

use crate::{Config, ConfigError, Nine, Refused, Server};
use port_base::memory::{MemSink, SliceSource};
use port_base::names::name_fault;
use std::alloc::Global;
use std::collections::BTreeMap;
use std::test::Fail;
use tree_host::{NewItem, TreeHost};
use tree_model::{Limits, Stamp};

fn small_host(alloc: Global) -> Result<TreeHost, Fail>
    ensures { IfOk result (λ host. holds host ≡ map.empty) }
{
    let limits = Limits {
        file: 1048576,
        entries: 65536,
        links: 65000,
    };
    let born = Stamp {
        sec: 1600000000,
        nsec: 0,
    };
    let moment = Stamp {
        sec: 1700000000,
        nsec: 5,
    };
    let Ok(host) = TreeHost::new(alloc, limits, moment, born, 0o755, 0, 0) else {
        return Err(Fail::from("out of memory"));
    };
    Ok(host)
}

// Roots and message sizes, and why they are refused.
const CONFIGURATIONS: [(&[u8], u32, Option<ConfigError>); 7] = [
    (b"/", 256, None),
    (b"/a/b", 65560, None),
    (b"", 255, Some(ConfigError::MsizeTooSmall)),
    (b"sub", 256, Some(ConfigError::BadRoot)),
    (b"//", 256, Some(ConfigError::BadRoot)),
    (b"/a/", 256, Some(ConfigError::BadRoot)),
    (b"/a//b", 256, Some(ConfigError::BadRoot)),
];

// The reply to a frame.
fn reply_to(alloc: Global, server: &mut Server<TreeHost>, frame: &[u8]) -> Result<MemSink, Fail> {
    let mut reply = MemSink::new(alloc);
    let mut source = SliceSource::new(frame);
    server.handle_message(&mut source, &mut reply)?;
    Ok(reply)
}

// Asks frame after frame; each has to be answered by the reply beside it.
fn check(
    alloc: Global,
    server: &mut Server<TreeHost>,
    table: &[(&[u8], &[u8])],
) -> Result<(), Fail> {
    for (frame, want) in table {
        let reply = reply_to(alloc, server, frame)?;
        if reply.as_bytes() != *want {
            return Err(Fail::from("another reply"));
        }
    }
    Ok(())
}

// A server of a host with the one file `f`, with these bytes, which is inode 2; frames have at
// most `msize` bytes.
fn server_of_a_file(alloc: Global, bytes: &[u8], msize: u32) -> Result<Server<TreeHost>, Fail> {
    let mut host = small_host(alloc)?;
    if name_fault(b"f").is_some() {
        return Err(Fail::from("no name"));
    }
    let item = NewItem::File {
        mode: 0o644,
        uid: 0,
        gid: 0,
        bytes,
    };
    host.add(1, b"f", item)?;
    server_of(alloc, host, msize)
}

// A server of a host with the one link `f`, which is inode 2.
fn server_of_a_link(alloc: Global) -> Result<Server<TreeHost>, Fail> {
    let mut host = small_host(alloc)?;
    if name_fault(b"f").is_some() {
        return Err(Fail::from("no name"));
    }
    let item = NewItem::Link {
        uid: 0,
        gid: 0,
        target: b"a/gh",
    };
    host.add(1, b"f", item)?;
    server_of(alloc, host, 256)
}

// A server of a host of which nothing is held; frames have at most `msize` bytes.
fn server_of(alloc: Global, host: TreeHost, msize: u32) -> Result<Server<TreeHost>, Fail>
    requires { holds host ≡ map.empty }
{
    let Ok(mut config) = Config::standard(alloc) else {
        return Err(Fail::from("out of memory"));
    };
    config.msize = msize;
    match Server::with_config(alloc, host, config) {
        Ok(server) => Ok(server),
        Err(_) => Err(Fail::from("no server")),
    }
}

#[test]
fn attributes_are_told(rt: HostRuntime) -> Result<(), Fail> {
    let alloc = rt.alloc();
    let host = small_host(alloc)?;
    let Ok(config) = Config::standard(alloc) else {
        return Err(Fail::from("out of memory"));
    };
    let Ok(mut server) = Server::with_config(alloc, host, config) else {
        return Err(Fail::from("no server"));
    };
    let _attached = reply_to(
        alloc,
        &mut server,
        b"\x17\0\0\0\x68\0\0\x01\0\0\0\xff\xff\xff\xff\0\0\0\0\0\0\0\0",
    )?;
    let reply = reply_to(
        alloc,
        &mut server,
        b"\x13\0\0\0\x18\x03\0\x01\0\0\0\xff\x07\0\0\0\0\0\0",
    )?;
    let head: &[u8] =
        b"\xa0\0\0\0\x19\x03\0\xff\x07\0\0\0\0\0\0\x80\0\x10\x5e\x5f\x01\0\0\0\0\0\0\0\xed\x41\0\0\0\0\0\0\0\0\0\0\x02\0\0\0\0\0\0\0";
    assert!(rt; reply.as_bytes().starts_with(head));
    assert_eq!(rt; reply.as_bytes().len(), 160);
    Ok(())
}

#[test]
fn a_directory_is_served_by_its_path(rt: HostRuntime) -> Result<(), Fail> {
    let alloc = rt.alloc();
    for (root, want) in [(b"/a".as_slice(), None), (b"a", Some(ConfigError::BadRoot))] {
        let host = small_host(alloc)?;
        let (uids, gids) = (BTreeMap::new(alloc), BTreeMap::new(alloc));
        let cause = match Server::new(alloc, host, root, uids, gids) {
            Ok(_server) => None,
            Err(Refused { host: _host, cause }) => Some(cause),
        };
        assert_eq!(rt; cause, want);
    }
    Ok(())
}

#[test]
fn a_configuration_is_refused(rt: HostRuntime) -> Result<(), Fail> {
    let alloc = rt.alloc();
    for (root, msize, want) in CONFIGURATIONS {
        let host = small_host(alloc)?;
        let Ok(standard) = Config::standard(alloc) else {
            return Err(Fail::from("out of memory"));
        };
        let Config {
            root: _root,
            msize: _,
            uid_map,
            gid_map,
            ascii_casefold,
            fid_limit,
        } = standard;
        let config = Config {
            root: Vec::from_slice(alloc, root)?,
            msize,
            uid_map,
            gid_map,
            ascii_casefold,
            fid_limit,
        };
        let cause = match Server::with_config(alloc, host, config) {
            Ok(_server) => None,
            Err(Refused { host: _host, cause }) => Some(cause),
        };
        assert_eq!(rt; cause, want);
    }
    Ok(())
}
