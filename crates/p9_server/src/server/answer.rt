//! Messages and their replies.
ghost use Rattle.std.specs.Prelude.{◌≡◌, Ok};
ghost use Rattle.p9_wire.specs.Frames.{result_view};
ghost use Rattle.p9_tmsg.specs.Messages.{message_of};
ghost use Rattle.p9_server.specs.Steps.{moment_of};
ghost use Rattle.p9_server.specs.Answering.{Answered};

use super::Server;
use crate::replies::directories::{
    link_reply, mkdir_reply, readdir_reply, rename_reply, unlink_reply,
};
use crate::replies::{
    attach_reply, clunk_reply, create_reply, flush_reply, fsync_reply, getattr_reply,
    getlock_reply, lock_reply, open_reply, read_reply, readlink_reply, refused, setattr_reply,
    sizes_reply, version_reply, walk_reply, write_reply,
};
use p9_rmsg::Rmessage;
use p9_tmsg::Tmessage;
use p9_wire::error::WireError;
use port_base::errno::{EACCES, EINVAL, EOPNOTSUPP};
use tree_host::Host;

impl<H: Host> Server<H> {
    // Answers a message; those that no server of a tree serves are refused.
    fn answer_message(&mut self, message: Tmessage) -> Result<Rmessage, WireError>
        ensures answered { Answered (Ok (message_of message))
            (moment_of (H.tree self.old.host) (H.calls self.old.host)
            self.old.fids self.old.msize self.old.share self.old.asked)
            (moment_of (H.tree self.new.host) (H.calls self.new.host)
            self.new.fids self.new.msize self.new.share self.new.asked) result }
        ensures steady { (H.calls self.new.host).steady ≡ (H.calls self.old.host).steady }
        ensures asked { self.new.asked ≡ self.old.asked }
    {
        match message {
            Tmessage::Attach(m) => attach_reply(self.attach(m.fid)),
            Tmessage::Walk(m) => walk_reply(self.walk(m.fid, m.newfid, &m.wnames)),
            Tmessage::GetAttr(m) => getattr_reply(self.get_attr(m.fid)),
            Tmessage::Clunk(m) => clunk_reply(self.clunk(m.fid)),
            Tmessage::Lopen(m) => open_reply(self.open(m.fid, m.flags)),
            Tmessage::Read(m) => read_reply(self.read(m.fid, m.offset, m.count), self.msize),
            Tmessage::Statfs(m) => sizes_reply(self.statfs(m.fid)),
            Tmessage::Lcreate(m) => {
                create_reply(self.create(m.fid, m.name.as_bytes(), m.flags, m.mode))
            }
            Tmessage::Symlink(_) => Ok(refused(EACCES)),
            Tmessage::Mknod(_) => Ok(refused(EACCES)),
            Tmessage::Rename(_) => Ok(refused(EOPNOTSUPP)),
            Tmessage::Readlink(m) => readlink_reply(self.read_link(m.fid), self.msize),
            Tmessage::SetAttr(m) => setattr_reply(self.set_attr(&m)),
            Tmessage::XattrWalk(_) => Ok(refused(EOPNOTSUPP)),
            Tmessage::XattrCreate(_) => Ok(refused(EOPNOTSUPP)),
            Tmessage::Readdir(m) => {
                readdir_reply(self.read_directory(m.fid, m.offset, m.count), self.msize)
            }
            Tmessage::Fsync(m) => fsync_reply(self.fsync(m)),
            Tmessage::Lock(m) => lock_reply(self.lock(m)),
            Tmessage::GetLock(m) => getlock_reply(self.get_lock(m), self.msize),
            Tmessage::Link(m) => link_reply(self.link(m.dfid, m.fid, m.name.as_bytes())),
            Tmessage::Mkdir(m) => {
                mkdir_reply(self.make_directory(m.dfid, m.name.as_bytes(), m.mode))
            }
            Tmessage::RenameAt(m) => rename_reply(self.rename(
                m.olddirfid,
                m.oldname.as_bytes(),
                m.newdirfid,
                m.newname.as_bytes(),
            )),
            Tmessage::UnlinkAt(m) => {
                unlink_reply(self.unlink(m.dirfd, m.name.as_bytes(), m.flags))
            }
            Tmessage::Version(m) => version_reply(self.version(m.msize, &m.version)),
            Tmessage::Auth(_) => Ok(refused(EOPNOTSUPP)),
            Tmessage::Flush(_) => Ok(flush_reply()),
            Tmessage::Write(m) => write_reply(self.write(m.fid, m.offset, &m.payload.0)),
            Tmessage::Remove(_) => Ok(refused(EOPNOTSUPP)),
        }
    }

    // Answers what the body of a frame says; a malformed one is EINVAL.
    pub(super) fn answer(
        &mut self,
        body: Result<Tmessage, WireError>,
    ) -> Result<Rmessage, WireError>
        ensures answered { Answered (result_view message_of body)
            (moment_of (H.tree self.old.host) (H.calls self.old.host)
            self.old.fids self.old.msize self.old.share self.old.asked)
            (moment_of (H.tree self.new.host) (H.calls self.new.host)
            self.new.fids self.new.msize self.new.share self.new.asked) result }
        ensures steady { (H.calls self.new.host).steady ≡ (H.calls self.old.host).steady }
        ensures asked { self.new.asked ≡ self.old.asked }
    {
        match body {
            Ok(message) => self.answer_message(message),
            Err(_) => Ok(refused(EINVAL)),
        }
    }
}
