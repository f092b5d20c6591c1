//! A directory is opened and listed.
ghost use Rattle.fid_model.specs.Moments.{Keeps};
ghost use Rattle.p9_client.specs.Views.{IsRoomy};
ghost use Rattle.p9_pair.specs.Named.{HasFids};

use crate::tests::{attached, server_of_a_file};
use p9_client::{open, read_entries};
use p9_rmsg::Dirent;
use p9_server::Nine;
use std::alloc::Global;
use std::test::Fail;

// The root, which is fid 1, is opened to be read.
fn opened_root<N: Nine>(alloc: Global, nine: &mut N) -> Result<(), Fail>
    requires roomy { IsRoomy (N.at nine.old).state }
    requires fids { HasFids 1 (N.at nine.old).state.fids }
    ensures { Keeps (N.at nine.old) (N.at nine.new) }
{
    match open(alloc, nine, 1, 0)? {
        Ok(_) => Ok(()),
        Err(_) => Err(Fail::from("not opened")),
    }
}

// What a page of the root lists.
fn page<N: Nine>(alloc: Global, nine: &mut N, offset: u64) -> Result<Vec<Dirent>, Fail>
    requires { IsRoomy (N.at nine.old).state }
    ensures { Keeps (N.at nine.old) (N.at nine.new) }
{
    match read_entries(alloc, nine, 1, offset, 4096)? {
        Ok(entries) => Ok(entries),
        Err(_) => Err(Fail::from("not listed")),
    }
}

#[test]
fn a_directory_is_listed(rt: HostRuntime) -> Result<(), Fail> {
    let alloc = rt.alloc();
    let mut server = server_of_a_file(alloc)?;
    assert!(rt; server.msize() >= 4352);
    attached(alloc, &mut server)?;
    opened_root(alloc, &mut server)?;
    let whole = page(alloc, &mut server, 0)?;
    let behind = page(alloc, &mut server, 1)?;
    let [entry] = whole.as_slice() else {
        return Err(Fail::from("not one entry"));
    };
    assert!(rt; entry.name.eq_text("f"));
    assert_eq!(rt; entry.qid.path, 2);
    assert_eq!(rt; entry.offset, 1);
    assert_eq!(rt; entry.ty, 8);
    assert!(rt; behind.is_empty());
    Ok(())
}
