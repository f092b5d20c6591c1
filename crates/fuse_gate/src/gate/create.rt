// CREATE.
ghost use Rattle.std.specs.Prelude.{◌≡◌, ◌<◌, ◌^◌, IfOk, OnErr};
ghost use Rattle.p9_wire.specs.Qids.{qid_of};
ghost use Rattle.fuse_wire.specs.Request.{create};
ghost use Rattle.tree_machine.specs.Creating.{lacks_two};
ghost use Rattle.fid_model.specs.Moments.{Keeps, SameTree};
ghost use Rattle.fuse_gate.specs.Standing.{IsInStep, machine_of};
ghost use Rattle.fuse_gate.specs.Replies.{reply_of};
ghost use Rattle.fuse_gate.specs.Steps.{ServesRequest, LeavesPartOf};
ghost use Rattle.fuse_gate.specs.Creation.{HasOpen, ServesOpenEntry, MayCreate, ServesCreation};
ghost use Rattle.fuse_gate.specs.Creation.{LeavesCreation, open_by};

use crate::gate::reply::Reply;
use crate::gate::{Gate, Handle, Node};
use fid_model::Nine;
use p9_client::{clunk, copy_fid, create};
use p9_wire::qid::Qid;
use port_base::errno::{ENFILE, ESTALE};
use port_base::names::name_fault;
use port_base::oflag::{O_APPEND, access_mode, has_flag};
use port_base::sink::NoMemory;
use tree_machine::limits::NUMBER_LIMIT;

// The handle of a file of this qid that is open by these flags.
fn open_by(qid: Qid, flags: u32) -> Handle
    ensures { result ≡ open_by qid.path qid.ty flags }
{
    Handle {
        ino: qid.path,
        access: access_mode(flags),
        append: has_flag(flags, O_APPEND),
        kind: qid.ty,
    }
}

impl Gate {
    // Whether no two further numbers can be drawn.
    fn lacks_two<N: Nine>(&self, nine: &N) -> bool
        requires { IsInStep self.now (N.at nine.now).state }
        ensures full { result ≡ lacks_two (N.at nine.now).state.settings
            (machine_of self.now (N.at nine.now).state) }
        ensures small { (N.at nine.now).state.settings.limit < 2 ^ 32 }
    {
        (nine.fid_limit() as u64) < self.used + 2 || NUMBER_LIMIT - 2 < self.next
    }

    // The entry of a new file that the number after the next one names as an open fid: it becomes
    // a handle, and the file a node of the next number.
    fn enter_open<N: Nine>(&mut self, nine: &mut N, qid: Qid, flags: u32) -> Result<Reply, NoMemory>
        requires { HasOpen self.old (N.at nine.old).state qid.path (qid_of qid) flags }
        ensures served { IfOk result (λ reply. ServesOpenEntry qid.path flags
            (self.old, N.at nine.old) (self.new, N.at nine.new) (reply_of reply)) }
        ensures unfinished { OnErr result (SameTree (N.at nine.old) (N.at nine.new)) }
        ensures kept { Keeps (N.at nine.old) (N.at nine.new) }
    {
        let fresh = self.next;
        let handle = fresh + 1;
        let copied = copy_fid(self.alloc, nine, handle, fresh)?;
        self.count_message();
        if let Err(errno) = copied {
            clunk(self.alloc, nine, handle)?;
            self.count_message();
            return Ok(Reply::Refused(errno));
        }
        match self.show(nine, fresh)? {
            Ok(attr) => {
                self.add_node(qid.path, qid.ty)?;
                self.add_handle(open_by(qid, flags))?;
                Ok(Reply::Created {
                    node: fresh as u64,
                    attr,
                    handle: handle as u64,
                })
            }
            Err(errno) => {
                clunk(self.alloc, nine, fresh)?;
                self.count_message();
                clunk(self.alloc, nine, handle)?;
                self.count_message();
                Ok(Reply::Refused(errno))
            }
        }
    }

    // Makes a file by a copy of a directory's fid under the number after the next one, which then
    // names the file and is open; where that is refused, the copy goes again.
    fn create_in<N: Nine>(
        &mut self,
        nine: &mut N,
        id: u32,
        node: Node,
        name: &[u8],
        flags: u32,
        mode: u32,
    ) -> Result<Reply, NoMemory>
        requires { MayCreate self.old (N.at nine.old).state id node name.now }
        ensures served { IfOk result (λ reply. ServesCreation node name.now flags mode
            (self.old, N.at nine.old) (self.new, N.at nine.new) (reply_of reply)) }
        ensures unfinished { OnErr result (LeavesCreation node name.now flags mode
            (self.old, N.at nine.old) (N.at nine.new).state.tree) }
        ensures kept { Keeps (N.at nine.old) (N.at nine.new) }
    {
        let handle = self.next + 1;
        let copied = copy_fid(self.alloc, nine, id, handle)?;
        self.count_message();
        if let Err(errno) = copied {
            return Ok(Reply::Refused(errno));
        }
        let made = create(self.alloc, nine, handle, name, flags, mode)?;
        self.count_message();
        match made {
            Ok(qid) => self.enter_open(nine, qid, flags),
            Err(errno) => {
                clunk(self.alloc, nine, handle)?;
                self.count_message();
                Ok(Reply::Refused(errno))
            }
        }
    }

    // Makes a file in a node, a directory, and opens it.
    pub(super) fn create<N: Nine>(
        &mut self,
        nine: &mut N,
        node: u64,
        flags: u32,
        mode: u32,
        name: &[u8],
    ) -> Result<Reply, NoMemory>
        requires { IsInStep self.old (N.at nine.old).state }
        ensures served { IfOk result (λ reply. ServesRequest node (create flags mode name.now)
            (self.old, N.at nine.old) (self.new, N.at nine.new) (reply_of reply)) }
        ensures unfinished { OnErr result (LeavesPartOf node (create flags mode name.now)
            (self.old, N.at nine.old) (N.at nine.new)) }
        ensures kept { Keeps (N.at nine.old) (N.at nine.new) }
    {
        let Some(found) = self.nodes.get(node).copied() else {
            return Ok(Reply::Refused(ESTALE));
        };
        if let Some(errno) = name_fault(name) {
            return Ok(Reply::Refused(errno));
        }
        if self.lacks_two(nine) {
            return Ok(Reply::Refused(ENFILE));
        }
        self.create_in(nine, node as u32, found, name, flags, mode)
    }
}
