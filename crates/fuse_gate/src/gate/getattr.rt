// GETATTR.
ghost use Rattle.std.specs.Prelude.{◌≡◌, IfOk, OnErr};
ghost use Rattle.fuse_wire.specs.Request.{getattr};
ghost use Rattle.fid_model.specs.Moments.{Keeps, SameTree};
ghost use Rattle.fuse_gate.specs.Standing.{IsInStep};
ghost use Rattle.fuse_gate.specs.Desks.{attributes_told};
ghost use Rattle.fuse_gate.specs.Steps.{ServesRequest};
ghost use Rattle.fuse_gate.specs.Changes.{IsSubject};

use crate::gate::Gate;
use crate::gate::desk::VALID;
use fid_model::Nine;
use fuse_wire::answers::{FsFail, GetAttrResponse};
use fuse_wire::ids::Errno;
use port_base::errno::{EBADF, ESTALE};

impl Gate {
    // The fid of a handle that is given, else that of the node, or the refusal.
    pub(super) fn subject<N: Nine>(
        &self,
        nine: &N,
        node: u64,
        handle: Option<u64>,
    ) -> Result<u32, u32>
        requires { IsInStep self.now (N.at nine.now).state }
        ensures { IsSubject self.now (N.at nine.now).state node handle result }
    {
        match handle {
            Some(handle) => {
                if self.handles.contains_key(handle) {
                    Ok(handle as u32)
                } else {
                    Err(EBADF)
                }
            }
            None => {
                if self.nodes.contains_key(node) {
                    Ok(node as u32)
                } else {
                    Err(ESTALE)
                }
            }
        }
    }

    // The attributes of a handle's file, or of a node.
    pub(super) fn getattr<N: Nine>(
        &mut self,
        nine: &mut N,
        node: u64,
        handle: Option<u64>,
    ) -> Result<GetAttrResponse, FsFail>
        requires { IsInStep self.old (N.at nine.old).state }
        ensures served { IfOk (attributes_told result) (λ reply. ServesRequest node (getattr handle)
            (self.old, N.at nine.old) (self.new, N.at nine.new) reply) }
        ensures valid { IfOk result (λ told. told.ttl ≡ VALID) }
        ensures unfinished { OnErr (attributes_told result) (SameTree (N.at nine.old) (N.at nine.new)) }
        ensures kept { Keeps (N.at nine.old) (N.at nine.new) }
    {
        let fid = match self.subject(nine, node, handle) {
            Ok(fid) => fid,
            Err(errno) => return Err(FsFail::Errno(Errno(errno))),
        };
        match self.show(nine, fid)? {
            Ok(attr) => Ok(GetAttrResponse::new(VALID, attr)),
            Err(errno) => Err(FsFail::Errno(Errno(errno))),
        }
    }
}
