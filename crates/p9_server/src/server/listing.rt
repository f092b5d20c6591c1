//! Treaddir: the entries of a directory, page by page.
ghost use Rattle.std.specs.Prelude.{◌≡◌, ◌+◌, ◌≤◌, length, IfOk};
ghost use Rattle.p9_tmsg.specs.Messages.Message.{readdir};
ghost use Rattle.p9_rmsg.specs.Replies.Reply.{readdir as was_listed};
ghost use Rattle.p9_server.specs.Steps.{moment_of, server_state, Steps};

use super::Server;
use crate::pages::list_page;
use p9_wire::protocol::RREAD_HEADER_SIZE;
use tree_host::Host;
use tree_model::HostError;

impl<H: Host> Server<H> {
    // Lists the entries above an offset of a directory that a fid has open, whole, as many as are
    // asked for and fit a reply. What is no directory is refused first, open or not.
    pub(super) fn read_directory(
        &mut self,
        fid: u32,
        offset: u64,
        count: u32,
    ) -> Result<Vec<u8>, HostError>
        ensures step { Steps (readdir fid offset count) (λ v. was_listed v.items)
            (moment_of (H.tree self.old.host) (H.calls self.old.host)
            self.old.fids self.old.msize self.old.share self.old.asked)
            (moment_of (H.tree self.new.host) (H.calls self.new.host)
            self.new.fids self.new.msize self.new.share self.new.asked) result }
        ensures fits { IfOk result (λ v. length v.items + RREAD_HEADER_SIZE ≤ self.old.msize) }
        ensures same { server_state (H.tree self.new.host)
            self.new.fids self.new.msize self.new.share ≡ server_state (H.tree self.old.host)
            self.old.fids self.old.msize self.old.share }
        ensures steady { (H.calls self.new.host).steady ≡ (H.calls self.old.host).steady }
        ensures asked { self.new.asked ≡ self.old.asked }
    {
        let ino = self.ino_of(fid)?;
        let room = count.min(self.msize - RREAD_HEADER_SIZE) as usize;
        let bytes = list_page(self.alloc, &mut self.host, ino, offset, room)?;
        self.open_ino(fid)?;
        Ok(bytes)
    }
}
