//! Tstatfs, Tfsync and Treadlink: sizes, what was written, and the targets of links.
ghost use Rattle.std.specs.Prelude.{◌≡◌, ◌+◌, ◌≤◌, length, IfOk};
ghost use Rattle.p9_wire.specs.declared.protocol.TheConstants.{RREADLINK_HEADER_SIZE};
ghost use Rattle.p9_tmsg.specs.Messages.Message.{statfs, fsync, readlink};
ghost use Rattle.p9_rmsg.specs.Replies.Reply.{fsync as synced, readlink as target_told};
ghost use Rattle.fid_model.specs.Files.{statfs_reply};
ghost use Rattle.p9_server.specs.Steps.{moment_of, server_state, Steps};

use super::Server;
use p9_tmsg::Tfsync;
use p9_wire::protocol::RREADLINK_HEADER_SIZE;
use p9_wire::text::P9String;
use port_base::errno::ENAMETOOLONG;
use tree_host::Host;
use tree_model::{HostError, Statfs};

impl<H: Host> Server<H> {
    // How much the tree of a fid may have.
    pub(super) fn statfs(&mut self, fid: u32) -> Result<Statfs, HostError>
        ensures step { Steps (statfs fid) statfs_reply
            (moment_of (H.tree self.old.host) (H.calls self.old.host)
            self.old.fids self.old.msize self.old.share self.old.asked)
            (moment_of (H.tree self.new.host) (H.calls self.new.host)
            self.new.fids self.new.msize self.new.share self.new.asked) result }
        ensures steady { (H.calls self.new.host).steady ≡ (H.calls self.old.host).steady }
        ensures fixed { (self.new.msize ≡ self.old.msize) × (self.new.share ≡ self.old.share) }
        ensures asked { self.new.asked ≡ self.old.asked }
    {
        let ino = self.ino_of(fid)?;
        self.host.statfs(ino)
    }

    // Keeps what a fid that is open has written, and all else of its file.
    pub(super) fn fsync(&mut self, m: Tfsync) -> Result<(), HostError>
        ensures step { Steps (fsync m.fid m.datasync) (λ _. synced)
            (moment_of (H.tree self.old.host) (H.calls self.old.host)
            self.old.fids self.old.msize self.old.share self.old.asked)
            (moment_of (H.tree self.new.host) (H.calls self.new.host)
            self.new.fids self.new.msize self.new.share self.new.asked) result }
        ensures steady { (H.calls self.new.host).steady ≡ (H.calls self.old.host).steady }
        ensures fixed { (self.new.msize ≡ self.old.msize) × (self.new.share ≡ self.old.share) }
        ensures asked { self.new.asked ≡ self.old.asked }
    {
        let ino = self.open_ino(m.fid)?;
        self.host.sync(ino)
    }

    // The target of a link, where a frame has room for it.
    pub(super) fn read_link(&mut self, fid: u32) -> Result<P9String, HostError>
        ensures step { Steps (readlink fid) (λ target. target_told target)
            (moment_of (H.tree self.old.host) (H.calls self.old.host)
            self.old.fids self.old.msize self.old.share self.old.asked)
            (moment_of (H.tree self.new.host) (H.calls self.new.host)
            self.new.fids self.new.msize self.new.share self.new.asked) result }
        ensures fits { IfOk result (λ target. RREADLINK_HEADER_SIZE + length target
            ≤ self.old.msize) }
        ensures same { server_state (H.tree self.new.host)
            self.new.fids self.new.msize self.new.share ≡ server_state (H.tree self.old.host)
            self.old.fids self.old.msize self.old.share }
        ensures steady { (H.calls self.new.host).steady ≡ (H.calls self.old.host).steady }
        ensures asked { self.new.asked ≡ self.old.asked }
    {
        let ino = self.ino_of(fid)?;
        let target = self.host.readlink(ino)?;
        if (self.msize as usize) < RREADLINK_HEADER_SIZE as usize + target.len() {
            return Err(HostError::Errno(ENAMETOOLONG));
        }
        match P9String::new(self.alloc, &target) {
            Ok(text) => Ok(text),
            // The target of a link is a text.
            Err(_) => Err(HostError::NoMemory),
        }
    }
}
