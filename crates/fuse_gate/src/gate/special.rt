// SYMLINK and MKNOD, which the server refuses.
ghost use Rattle.std.specs.Prelude.{◌≡◌, IfOk, OnErr};
ghost use Rattle.std.specs.List.{list_any};
ghost use Rattle.fuse_wire.specs.Layouts.{is_zero};
ghost use Rattle.fuse_wire.specs.Request.{symlink, mknod};
ghost use Rattle.tree_machine.specs.Naming.{target_fault};
ghost use Rattle.fid_model.specs.Moments.{Keeps, SameTree};
ghost use Rattle.fuse_gate.specs.Standing.{IsInStep};
ghost use Rattle.fuse_gate.specs.Replies.{reply_of};
ghost use Rattle.fuse_gate.specs.Steps.{ServesRequest};

use crate::gate::Gate;
use crate::gate::reply::Reply;
use fid_model::Nine;
use p9_client::{Device, mknod, symlink};
use port_base::errno::{EINVAL, ENAMETOOLONG, ENOENT, ESTALE};
use port_base::names::{is_utf8, name_fault};
use port_base::sink::NoMemory;
use tree_machine::limits::TARGET_LIMIT;

fn has_zero(bytes: &[u8]) -> bool
    ensures { result ≡ list_any is_zero bytes.now }
{
    bytes.iter().any(|byte| *byte == 0)
}

// The first fault of a link's target.
fn target_fault(target: &[u8]) -> Option<u32>
    ensures { result ≡ target_fault target.now }
{
    if target.is_empty() {
        return Some(ENOENT);
    }
    if target.len() > TARGET_LIMIT {
        return Some(ENAMETOOLONG);
    }
    if has_zero(target) || !is_utf8(target) {
        return Some(EINVAL);
    }
    None
}

// The numbers of a device, as Linux puts them into one.
fn device(rdev: u32) -> Device {
    Device {
        major: (rdev >> 8) & 0xfff,
        minor: (rdev & 0xff) | ((rdev >> 12) & 0xf_ff00),
    }
}

impl Gate {
    // Makes a symbolic link in a node, a directory.
    pub(super) fn symlink<N: Nine>(
        &mut self,
        nine: &mut N,
        node: u64,
        name: &[u8],
        target: &[u8],
    ) -> Result<Reply, NoMemory>
        requires { IsInStep self.old (N.at nine.old).state }
        ensures served { IfOk result (λ reply. ServesRequest node (symlink name.now target.now)
            (self.old, N.at nine.old) (self.new, N.at nine.new) (reply_of reply)) }
        ensures unfinished { OnErr result (SameTree (N.at nine.old) (N.at nine.new)) }
        ensures kept { Keeps (N.at nine.old) (N.at nine.new) }
    {
        if !self.nodes.contains_key(node) {
            return Ok(Reply::Refused(ESTALE));
        }
        if let Some(errno) = name_fault(name) {
            return Ok(Reply::Refused(errno));
        }
        if let Some(errno) = target_fault(target) {
            return Ok(Reply::Refused(errno));
        }
        let told = symlink(self.alloc, nine, node as u32, name, target)?;
        self.count_message();
        match told {
            Ok(_) => Ok(Reply::Done),
            Err(errno) => Ok(Reply::Refused(errno)),
        }
    }

    // Makes a special file in a node, a directory.
    pub(super) fn mknod<N: Nine>(
        &mut self,
        nine: &mut N,
        node: u64,
        mode: u32,
        rdev: u32,
        name: &[u8],
    ) -> Result<Reply, NoMemory>
        requires { IsInStep self.old (N.at nine.old).state }
        ensures served { IfOk result (λ reply. ServesRequest node (mknod mode rdev name.now)
            (self.old, N.at nine.old) (self.new, N.at nine.new) (reply_of reply)) }
        ensures unfinished { OnErr result (SameTree (N.at nine.old) (N.at nine.new)) }
        ensures kept { Keeps (N.at nine.old) (N.at nine.new) }
    {
        if !self.nodes.contains_key(node) {
            return Ok(Reply::Refused(ESTALE));
        }
        if let Some(errno) = name_fault(name) {
            return Ok(Reply::Refused(errno));
        }
        let told = mknod(self.alloc, nine, node as u32, name, mode, device(rdev))?;
        self.count_message();
        match told {
            Ok(_) => Ok(Reply::Done),
            Err(errno) => Ok(Reply::Refused(errno)),
        }
    }
}
