//! Tlopen and Tread: a fid is opened, and a file's bytes are read.
ghost use Rattle.std.specs.Prelude.{◌≡◌, ◌+◌, ◌<◌, ◌≤◌, length, IfOk};
ghost use Rattle.std.specs.FinMap as map;
ghost use Rattle.p9_wire.specs.Qids.{qid_of};
ghost use Rattle.p9_tmsg.specs.Messages.Message.{lopen, read};
ghost use Rattle.p9_rmsg.specs.Replies.Reply.{lopen as opened, read as was_read};
ghost use Rattle.tree_host.specs.Holds.{hold_count};
ghost use Rattle.p9_server.specs.Walking.{Counts};
ghost use Rattle.p9_server.specs.Steps.{moment_of, server_state, Steps, readable_told};
ghost use Rattle.tree_host.specs.Host.{Leaves};
ghost use Rattle.fid_model.specs.Answers.{emptied};
ghost use Rattle.p9_server.specs.Opening.{Opens};

use super::Server;
use crate::fid_state::FidState;
use crate::qids::qid_of;
use p9_wire::protocol::RREAD_HEADER_SIZE;
use p9_wire::qid::Qid;
use port_base::errno::EBADF;
use port_base::oflag::{O_TRUNC, has_flag};
use tree_host::Host;
use tree_model::{Attr, HostError};

impl<H: Host> Server<H> {
    // The inode of a fid that is open to be read.
    fn readable_ino(&self, fid: u32) -> Result<u64, HostError>
        ensures { result ≡ readable_told (map.get self.now.fids fid) }
    {
        let Some(state) = self.fids.get(fid as u64) else {
            return Err(HostError::Errno(EBADF));
        };
        if !state.is_readable() {
            return Err(HostError::Errno(EBADF));
        }
        Ok(state.ino())
    }

    // Opens a fid by the flags of `open(2)`, also where it is open already. With `O_TRUNC` its
    // file is emptied.
    pub(super) fn open(&mut self, fid: u32, flags: u32) -> Result<Qid, HostError>
        ensures step { Steps (lopen fid flags) (λ q. opened (qid_of q) 0)
            (moment_of (H.tree self.old.host) (H.calls self.old.host)
            self.old.fids self.old.msize self.old.share self.old.asked)
            (moment_of (H.tree self.new.host) (H.calls self.new.host)
            self.new.fids self.new.msize self.new.share self.new.asked) result }
        ensures steady { (H.calls self.new.host).steady ≡ (H.calls self.old.host).steady }
        ensures fixed { (self.new.msize ≡ self.old.msize) × (self.new.share ≡ self.old.share) }
        ensures asked { self.new.asked ≡ self.old.asked }
    {
        let ino = self.ino_of(fid)?;
        let attr = open_inode(&mut self.host, ino, flags)?;
        self.fids.replace(fid as u64, FidState::opened(ino, flags));
        Ok(qid_of(&attr))
    }

    // Reads the bytes of a fid that is open to be read, as many as there are, are asked for, and
    // fit a reply.
    pub(super) fn read(&mut self, fid: u32, offset: u64, count: u32) -> Result<Vec<u8>, HostError>
        ensures step { Steps (read fid offset count) (λ v. was_read v.items)
            (moment_of (H.tree self.old.host) (H.calls self.old.host)
            self.old.fids self.old.msize self.old.share self.old.asked)
            (moment_of (H.tree self.new.host) (H.calls self.new.host)
            self.new.fids self.new.msize self.new.share self.new.asked) result }
        ensures fits { IfOk result (λ v. length v.items + RREAD_HEADER_SIZE ≤ self.old.msize) }
        ensures same { server_state (H.tree self.new.host)
            self.new.fids self.new.msize self.new.share ≡ server_state (H.tree self.old.host)
            self.old.fids self.old.msize self.old.share }
        ensures steady { (H.calls self.new.host).steady ≡ (H.calls self.old.host).steady }
        ensures asked { self.new.asked ≡ self.old.asked }
    {
        let ino = self.readable_ino(fid)?;
        let most = count.min(self.msize - RREAD_HEADER_SIZE) as usize;
        let mut bytes = vec![in self.alloc; 0u8; most]?;
        let count = self.host.read_at(ino, offset, &mut bytes)?;
        bytes.truncate(count);
        Ok(bytes)
    }
}

// Empties a file that is opened with `O_TRUNC`.
fn empty_where<H: Host>(host: &mut H, ino: u64, flags: u32) -> Result<(), HostError>
    requires { 0 < hold_count (H.holds host.old) ino }
    ensures leaves { Leaves (emptied (H.tree host.old) ino flags) (H.tree host.old)
        (H.tree host.new) result }
    ensures holds { H.holds host.new ≡ H.holds host.old }
    ensures cause { Counts (H.calls host.old) (H.calls host.new) result }
    ensures steady { (H.calls host.new).steady ≡ (H.calls host.old).steady }
{
    if !has_flag(flags, O_TRUNC) {
        return Ok(());
    }
    host.set_len(ino, 0)
}

// Opens an inode, if it may be opened so, and tells what it is then.
fn open_inode<H: Host>(host: &mut H, ino: u64, flags: u32) -> Result<Attr, HostError>
    requires { 0 < hold_count (H.holds host.old) ino }
    ensures answer { Opens (H.tree host.old) (H.tree host.new) ino flags result }
    ensures holds { H.holds host.new ≡ H.holds host.old }
    ensures cause { Counts (H.calls host.old) (H.calls host.new) result }
    ensures steady { (H.calls host.new).steady ≡ (H.calls host.old).steady }
{
    host.open_check(ino, flags)?;
    empty_where(host, ino, flags)?;
    host.stat(ino)
}
