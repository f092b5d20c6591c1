//! Twalk: a fid for what a path of names leads to.
ghost use Rattle.std.specs.Prelude.{◌≡◌, ◌≢◌, ◌≤◌, ◌⊎◌, [], length, map, IfOk, IfErr};
ghost use Rattle.std.specs.List.{AllByRecursion};
ghost use Rattle.p9_wire.specs.Values.{QidSpells};
ghost use Rattle.p9_wire.specs.Qids.{qid_of};
ghost use Rattle.p9_tmsg.specs.Messages.Message.{walk};
ghost use Rattle.p9_rmsg.specs.Replies.Reply.{walk as walked};
ghost use Rattle.p9_server.specs.Steps.{moment_of, Steps, walk_start};

use super::Server;
use crate::fids::name_by_fid;
use crate::paths::reach;
use p9_wire::protocol::P9_MAXWELEM;
use p9_wire::qid::Qid;
use p9_wire::text::P9String;
use port_base::errno::{EBADF, EINVAL, ENFILE};
use tree_host::Host;
use tree_model::HostError;

// What a walk tells that didn't come to its end: the qids so far, or why it has none.
fn told_so_far(qids: Vec<Qid>, e: HostError) -> Result<Vec<Qid>, HostError>
    ensures told { IfOk result (λ q. (q ≡ qids) × (1 ≤ length qids.items)
        × (e ≢ HostError.NoMemory)) }
    ensures error { IfErr result (λ d. (d ≡ e) × ((qids.items ≡ []) ⊎ (e ≡ HostError.NoMemory))) }
{
    if e == HostError::NoMemory || qids.is_empty() {
        Err(e)
    } else {
        Ok(qids)
    }
}

impl<H: Host> Server<H> {
    // The inode that a walk of so many names begins at, or why it can't begin.
    fn walk_start(&self, fid: u32, newfid: u32, count: usize) -> Result<u64, u32>
        ensures { result ≡ walk_start self.now.fids self.now.share.limit fid newfid count }
    {
        let is_other = newfid != fid;
        if is_other && self.fids.contains_key(newfid as u64) {
            return Err(EBADF);
        }
        let Some(state) = self.fids.get(fid as u64) else {
            return Err(EBADF);
        };
        if is_other && self.fids.len() >= self.share.fid_limit() as usize {
            return Err(ENFILE);
        }
        if count > P9_MAXWELEM {
            return Err(EINVAL);
        }
        Ok(state.ino())
    }

    // Names what the names lead to by the new fid, or tells the qids so far.
    pub(super) fn walk(
        &mut self,
        fid: u32,
        newfid: u32,
        names: &[P9String],
    ) -> Result<Vec<Qid>, HostError>
        ensures step { Steps (walk fid newfid names.now) (λ qids. walked (map qid_of qids.items))
            (moment_of (H.tree self.old.host) (H.calls self.old.host)
            self.old.fids self.old.msize self.old.share self.old.asked)
            (moment_of (H.tree self.new.host) (H.calls self.new.host)
            self.new.fids self.new.msize self.new.share self.new.asked) result }
        ensures few { IfOk result (λ qids. length qids.items ≤ 16) }
        ensures spells { IfOk result (λ qids. AllByRecursion QidSpells (map qid_of qids.items)) }
        ensures steady { (H.calls self.new.host).steady ≡ (H.calls self.old.host).steady }
        ensures fixed { (self.new.msize ≡ self.old.msize) × (self.new.share ≡ self.old.share) }
        ensures asked { self.new.asked ≡ self.old.asked }
    {
        let start = match self.walk_start(fid, newfid, names.len()) {
            Ok(start) => start,
            Err(e) => return Err(HostError::Errno(e)),
        };
        let mut qids = Vec::with_capacity(self.alloc, names.len())?;
        let at = match reach(&mut self.host, &self.share, start, names, &mut qids) {
            Ok(at) => at,
            Err(e) => return told_so_far(qids, e),
        };
        name_by_fid(&mut self.host, &mut self.fids, newfid, at)?;
        Ok(qids)
    }
}
