// LOOKUP.
ghost use Rattle.std.specs.Prelude.{◌≡◌, IfOk, OnErr};
ghost use Rattle.p9_wire.specs.Qids.{qid_of};
ghost use Rattle.fuse_wire.specs.Request.{lookup};
ghost use Rattle.fid_model.specs.Moments.{Keeps, SameTree};
ghost use Rattle.fuse_gate.specs.Standing.{IsInStep};
ghost use Rattle.fuse_gate.specs.Desks.{entry_told, IsValidEntry};
ghost use Rattle.fuse_gate.specs.Steps.{ServesRequest};
ghost use Rattle.fuse_gate.specs.Changes.{HasFresh, ServesEntry};

use crate::gate::Gate;
use crate::gate::desk::VALID;
use fid_model::Nine;
use fuse_wire::answers::{FsFail, LookupResponse};
use fuse_wire::attr::FileAttr;
use fuse_wire::ids::{Errno, Generation, INodeNo};
use p9_client::{clunk, walk_one};
use p9_wire::qid::Qid;
use port_base::errno::{ENFILE, ESTALE};
use port_base::names::name_fault;

// A node and its attributes.
fn entry(node: u64, attr: FileAttr) -> LookupResponse
    ensures node { result.node.0 ≡ node }
    ensures attributes { result.attr ≡ attr }
    ensures valid { IsValidEntry result }
{
    LookupResponse::new(VALID, attr, Generation(0)).with_node(INodeNo(node))
}

impl Gate {
    // The entry of an inode that the next number names as a fid: it becomes a node, or goes where
    // the inode has one.
    fn enter<N: Nine>(&mut self, nine: &mut N, qid: Qid) -> Result<LookupResponse, FsFail>
        requires { HasFresh self.old (N.at nine.old).state qid.path (qid_of qid) }
        ensures served { IfOk (entry_told result) (λ reply. ServesEntry qid.path
            (self.old, N.at nine.old) (self.new, N.at nine.new) reply) }
        ensures valid { IfOk result IsValidEntry }
        ensures unfinished { OnErr (entry_told result) (SameTree (N.at nine.old) (N.at nine.new)) }
        ensures kept { Keeps (N.at nine.old) (N.at nine.new) }
    {
        let fresh = self.next;
        match self.show(nine, fresh)? {
            Ok(attr) => match self.ids.get(qid.path).copied() {
                Some(node) => {
                    clunk(self.alloc, nine, fresh)?;
                    self.count_message();
                    self.count_up(node);
                    Ok(entry(node, attr))
                }
                None => {
                    self.add_node(qid.path, qid.ty)?;
                    Ok(entry(fresh as u64, attr))
                }
            },
            Err(errno) => {
                clunk(self.alloc, nine, fresh)?;
                self.count_message();
                Err(FsFail::Errno(Errno(errno)))
            }
        }
    }

    // Looks a name up in a directory.
    pub(super) fn lookup<N: Nine>(
        &mut self,
        nine: &mut N,
        node: u64,
        name: &[u8],
    ) -> Result<LookupResponse, FsFail>
        requires { IsInStep self.old (N.at nine.old).state }
        ensures served { IfOk (entry_told result) (λ reply. ServesRequest node (lookup name.now)
            (self.old, N.at nine.old) (self.new, N.at nine.new) reply) }
        ensures valid { IfOk result IsValidEntry }
        ensures unfinished { OnErr (entry_told result) (SameTree (N.at nine.old) (N.at nine.new)) }
        ensures kept { Keeps (N.at nine.old) (N.at nine.new) }
    {
        if !self.nodes.contains_key(node) {
            return Err(FsFail::Errno(Errno(ESTALE)));
        }
        if let Some(errno) = name_fault(name) {
            return Err(FsFail::Errno(Errno(errno)));
        }
        if self.is_full(nine) {
            return Err(FsFail::Errno(Errno(ENFILE)));
        }
        let walked = walk_one(self.alloc, nine, node as u32, self.next, name)?;
        self.count_message();
        match walked {
            Ok(qid) => self.enter(nine, qid),
            Err(errno) => Err(FsFail::Errno(Errno(errno))),
        }
    }
}
