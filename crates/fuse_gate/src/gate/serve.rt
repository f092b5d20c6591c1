// One request.
ghost use Rattle.std.specs.Prelude.{◌≡◌, ◌≤◌, length, IfOk, OnErr};
ghost use Rattle.fuse_wire.specs.Body.{plain};
ghost use Rattle.fuse_wire.specs.Head.{head_of};
ghost use Rattle.tree_machine.specs.Step.{is_in_turn};
ghost use Rattle.fid_model.specs.Moments.{Keeps};
ghost use Rattle.fuse_gate.specs.Standing.{IsInStep, phase_of};
ghost use Rattle.fuse_gate.specs.Replies.{reply_of};
ghost use Rattle.fuse_gate.specs.Steps.{ServesRequest, LeavesPartOf, ServesFrame};
ghost use Rattle.fuse_gate.specs.Steps.{LeavesPartOfFrame};

use crate::gate::desk::Desk;
use crate::gate::reply::{Reply, attributes_reply, bytes_reply, entry_reply};
use crate::gate::{Gate, Phase};
use fid_model::Nine;
use fuse_wire::context::RequestContext;
use fuse_wire::filesystem::AsyncFilesystem;
use fuse_wire::head::{Head, IN_HEADER_SIZE};
use fuse_wire::ids::{FileHandle, INodeNo, LockOwner, OpenFlags};
use fuse_wire::listing::{DirEntListBuilder, ReplyDirectory};
use fuse_wire::opcode::FUSE_INIT;
use fuse_wire::protocol::MAX_READ;
use fuse_wire::request::{Body, FuseRequest};
use port_base::errno::EPROTO;
use port_base::sink::NoMemory;

// Whether a request is in turn: INIT begins a session, and comes once.
fn is_in_turn(phase: Phase, opcode: u32) -> bool
    ensures { result ≡ is_in_turn (phase_of phase) opcode }
{
    match phase {
        Phase::New => opcode == FUSE_INIT,
        Phase::Started => opcode != FUSE_INIT,
        Phase::Over => false,
    }
}

impl Gate {
    // What a request asks of a node, in turn.
    fn serve<N: Nine>(
        &mut self,
        nine: &mut N,
        context: &RequestContext,
        node: u64,
        body: Body<'_>,
    ) -> Result<Reply, NoMemory>
        requires { IsInStep self.old (N.at nine.old).state }
        ensures served { IfOk result (λ reply. ServesRequest node (plain body.entry)
            (self.old, N.at nine.old) (self.new, N.at nine.new) (reply_of reply)) }
        ensures unfinished { OnErr result (LeavesPartOf node (plain body.entry)
            (self.old, N.at nine.old) (N.at nine.new)) }
        ensures kept { Keeps (N.at nine.old) (N.at nine.new) }
    {
        match body {
            Body::Init {
                major,
                minor,
                max_readahead,
                ..
            } => Ok(self.init(major, minor, max_readahead)),
            Body::Lookup { name } => {
                entry_reply(Desk::new(self, nine).lookup(context, INodeNo(node), name))
            }
            Body::GetAttr { handle } => {
                let handle = handle.map(FileHandle);
                attributes_reply(Desk::new(self, nine).getattr(context, INodeNo(node), handle))
            }
            Body::SetAttr(asked) => self.setattr(nine, node, asked),
            Body::OpenFile { flags } => self.open(nine, node, flags),
            Body::Read {
                fh,
                offset,
                size,
                flags,
                lock,
            } => {
                let mut bytes = Vec::new(self.alloc);
                let told = Desk::new(self, nine).read(
                    context,
                    INodeNo(node),
                    FileHandle(fh),
                    offset,
                    size,
                    OpenFlags(flags),
                    lock.map(LockOwner),
                    &mut bytes,
                );
                bytes_reply(told, bytes)
            }
            Body::Write { fh, offset, bytes } => self.write(nine, fh, offset, bytes),
            Body::OpenDir { .. } => self.opendir(nine, node),
            Body::ReleaseDir { fh } => self.release(nine, fh),
            Body::Unlink { name } => self.unlink(nine, node, name),
            Body::RmDir { name } => self.rmdir(nine, node, name),
            Body::Rename { newdir, old, new } => self.rename(nine, node, newdir, old, new),
            Body::Rename2 {
                newdir,
                flags,
                old,
                new,
            } => self.rename2(nine, node, newdir, flags, old, new),
            Body::Symlink { name, target } => self.symlink(nine, node, name, target),
            Body::MkNod { mode, rdev, name } => self.mknod(nine, node, mode, rdev, name),
            Body::MkDir { mode, name } => self.mkdir(nine, node, mode, name),
            Body::Link { old, name } => self.link(nine, node, old, name),
            Body::Create { flags, mode, name } => self.create(nine, node, flags, mode, name),
            Body::ReadLink => self.readlink(nine, node),
            Body::StatFs => self.statfs(nine, node),
            Body::ReadDir {
                fh,
                offset,
                size,
                ..
            } => {
                let mut listing = ReplyDirectory::new(self.alloc, size.min(MAX_READ))?;
                let told = Desk::new(self, nine).readdir(
                    context,
                    INodeNo(node),
                    FileHandle(fh),
                    offset,
                    &mut DirEntListBuilder::new(&mut listing),
                );
                bytes_reply(told, listing.into_bytes())
            }
            Body::Flush { fh } => Ok(self.flush(fh)),
            Body::Release { fh } => self.release(nine, fh),
            Body::FSync { fh, .. } => self.fsync(nine, fh),
            Body::FSyncDir { fh, .. } => self.fsync(nine, fh),
            Body::Interrupt => Ok(Reply::Done),
            Body::Destroy => Ok(self.destroy()),
            Body::Forget { nlookup } => {
                self.forget(nine, node, nlookup)?;
                Ok(Reply::Done)
            }
            Body::BatchForget { pairs } => {
                self.forget_all(nine, pairs)?;
                Ok(Reply::Done)
            }
        }
    }

    // What a frame asks, whose head was read.
    pub(super) fn serve_frame<N: Nine>(
        &mut self,
        nine: &mut N,
        head: Head,
        frame: &[u8],
    ) -> Result<Reply, NoMemory>
        requires long { IN_HEADER_SIZE ≤ length frame.now }
        requires read { head ≡ head_of frame.now }
        requires stands { IsInStep self.old (N.at nine.old).state }
        ensures served { IfOk result (λ reply. ServesFrame frame.now
            (self.old, N.at nine.old) (self.new, N.at nine.new) (reply_of reply)) }
        ensures unfinished { OnErr result (LeavesPartOfFrame frame.now
            (self.old, N.at nine.old) (N.at nine.new)) }
        ensures kept { Keeps (N.at nine.old) (N.at nine.new) }
    {
        if !is_in_turn(self.phase, head.opcode) {
            return Ok(Reply::Refused(EPROTO));
        }
        match FuseRequest::read_behind(head, frame) {
            Ok(request) => {
                let context = RequestContext::from_head(&head);
                self.serve(nine, &context, head.nodeid, request.body)
            }
            Err(errno) => Ok(Reply::Refused(errno.0)),
        }
    }
}
