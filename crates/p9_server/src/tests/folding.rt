// Names that differ in case alone, by the bytes of the messages.
ghost use Rattle.std.specs.Prelude.{◌≡◌, IfOk};
ghost use Rattle.std.specs.FinMap as map;
ghost use Rattle.tree_host.specs.TreeHosts.{holds};

use super::{check, small_host};
use crate::{Config, Server};
use port_base::names::name_fault;
use std::test::Fail;
use tree_host::{NewItem, TreeHost};

// `README` is inode 2, and `readme` inode 3.
const FOLDED: [(&[u8], &[u8]); 6] = [
    // an attach of fid 1
    (
        b"\x17\0\0\0\x68\0\0\x01\0\0\0\xff\xff\xff\xff\0\0\0\0\0\0\0\0",
        b"\x14\0\0\0\x69\0\0\x80\0\x10\x5e\x5f\x01\0\0\0\0\0\0\0",
    ),
    // the exact names, and one that is neither: the first
    (
        b"\x19\0\0\0\x6e\x01\0\x01\0\0\0\x02\0\0\0\x01\0\x06\0README",
        b"\x16\0\0\0\x6f\x01\0\x01\0\0\0\x10\x5e\x5f\x02\0\0\0\0\0\0\0",
    ),
    (
        b"\x19\0\0\0\x6e\x02\0\x01\0\0\0\x03\0\0\0\x01\0\x06\0readme",
        b"\x16\0\0\0\x6f\x02\0\x01\0\0\0\x10\x5e\x5f\x03\0\0\0\0\0\0\0",
    ),
    (
        b"\x19\0\0\0\x6e\x03\0\x01\0\0\0\x04\0\0\0\x01\0\x06\0Readme",
        b"\x16\0\0\0\x6f\x03\0\x01\0\0\0\x10\x5e\x5f\x02\0\0\0\0\0\0\0",
    ),
    // another name, and a message that isn't a walk
    (
        b"\x19\0\0\0\x6e\x04\0\x01\0\0\0\x05\0\0\0\x01\0\x06\0reader",
        b"\x0b\0\0\0\x07\x04\0\x02\0\0\0",
    ),
    (
        b"\x17\0\0\0\x4c\x05\0\x01\0\0\0\x06\0Readme\0\0\0\0",
        b"\x0b\0\0\0\x07\x05\0\x02\0\0\0",
    ),
];

// One more empty file in the top directory.
fn with_file(mut host: TreeHost, name: &[u8]) -> Result<TreeHost, Fail>
    requires { holds host ≡ map.empty }
    ensures { IfOk result (λ host. holds host ≡ map.empty) }
{
    if name_fault(name).is_some() {
        return Err(Fail::from("no name"));
    }
    let item = NewItem::File {
        mode: 0o644,
        uid: 0,
        gid: 0,
        bytes: b"",
    };
    host.add(1, name, item)?;
    Ok(host)
}

#[test]
fn names_are_walked_in_any_case(rt: HostRuntime) -> Result<(), Fail> {
    let alloc = rt.alloc();
    let host = with_file(with_file(small_host(alloc)?, b"README")?, b"readme")?;
    let Ok(mut config) = Config::standard(alloc) else {
        return Err(Fail::from("out of memory"));
    };
    config.ascii_casefold = true;
    let Ok(mut server) = Server::with_config(alloc, host, config) else {
        return Err(Fail::from("no server"));
    };
    check(alloc, &mut server, &FOLDED)
}
