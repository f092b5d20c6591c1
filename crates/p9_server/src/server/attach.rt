//! Tattach: a new fid for the root of the share.
ghost use Rattle.std.specs.Prelude.{◌≡◌, []};
ghost use Rattle.std.specs.FinMap as map;
ghost use Rattle.p9_wire.specs.Qids.{qid_of};
ghost use Rattle.p9_tmsg.specs.Messages.Message.{attach};
ghost use Rattle.p9_rmsg.specs.Replies.Reply.{attach as attached};
ghost use Rattle.p9_server.specs.Steps.{moment_of, Steps, attach_refused};

use super::Server;
use crate::fids::name_by_fid;
use crate::paths::attach_path;
use crate::qids::qid_of;
use p9_wire::qid::Qid;
use port_base::errno::{EBADF, ENFILE};
use tree_host::Host;
use tree_model::HostError;

impl<H: Host> Server<H> {
    // Why a fid can't be new.
    fn attach_refused(&self, fid: u32) -> Option<u32>
        ensures { result ≡ attach_refused self.now.fids self.now.share.limit fid }
    {
        if self.fids.contains_key(fid as u64) {
            return Some(EBADF);
        }
        if self.fids.len() >= self.share.fid_limit() as usize {
            return Some(ENFILE);
        }
        None
    }

    // Names the root of the share by a new fid.
    pub(super) fn attach(&mut self, fid: u32) -> Result<Qid, HostError>
        ensures step { Steps (attach fid 0 [] [] 0) (λ q. attached (qid_of q))
            (moment_of (H.tree self.old.host) (H.calls self.old.host)
            self.old.fids self.old.msize self.old.share self.old.asked)
            (moment_of (H.tree self.new.host) (H.calls self.new.host)
            self.new.fids self.new.msize self.new.share self.new.asked) result }
        ensures steady { (H.calls self.new.host).steady ≡ (H.calls self.old.host).steady }
        ensures fixed { (self.new.msize ≡ self.old.msize) × (self.new.share ≡ self.old.share) }
        ensures asked { self.new.asked ≡ self.old.asked }
    {
        if let Some(e) = self.attach_refused(fid) {
            return Err(HostError::Errno(e));
        }
        let attr = attach_path(&mut self.host, self.share.root())?;
        name_by_fid(&mut self.host, &mut self.fids, fid, attr.ino)?;
        Ok(qid_of(&attr))
    }
}
