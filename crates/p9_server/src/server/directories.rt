//! Tmkdir, Tlink, Trenameat and Tunlinkat: entries of directories are made, linked, moved and
//! taken away.
ghost use Rattle.std.specs.Prelude.{◌≡◌, ℕ, Ok};
ghost use Rattle.std.specs.FinMap as map;
ghost use Rattle.p9_wire.specs.Qids.{qid_of};
ghost use Rattle.p9_tmsg.specs.Messages.Message.{link, mkdir, renameat, unlinkat};
ghost use Rattle.p9_rmsg.specs.Replies.Reply.{link as linked, mkdir as made, renameat as moved};
ghost use Rattle.p9_rmsg.specs.Replies.Reply.{unlinkat as unlinked};
ghost use Rattle.tree_host.specs.Host.{as_errno};
ghost use Rattle.fid_model.specs.TreeCalls.{at_fid, unless_fault};
ghost use Rattle.p9_server.specs.Steps.{moment_of, Steps};

use super::Server;
use crate::qids::qid_of;
use fid_model::unlinkat::P9_AT_REMOVEDIR;
use p9_wire::qid::Qid;
use port_base::errno::EINVAL;
use port_base::names::name_fault;
use tree_host::Host;
use tree_model::HostError;

// A name without a fault, or its fault.
fn check_name(name: &[u8]) -> Result<(), HostError>
    ensures { result ≡ as_errno (unless_fault name.now (Ok tt)) }
{
    match name_fault(name) {
        Some(e) => Err(HostError::Errno(e)),
        None => Ok(()),
    }
}

impl<H: Host> Server<H> {
    // The inode of a fid, for a name that has no fault.
    fn ino_for(&self, fid: u32, name: &[u8]) -> Result<u64, HostError>
        ensures { result
            ≡ as_errno
            (at_fid (map.get self.now.fids fid) (λ ino. unless_fault name.now (Ok ino))) }
    {
        let ino = self.ino_of(fid)?;
        check_name(name)?;
        Ok(ino)
    }

    // Makes a directory. Its group isn't looked at.
    pub(super) fn make_directory(
        &mut self,
        dfid: u32,
        name: &[u8],
        mode: u32,
    ) -> Result<Qid, HostError>
        ensures step { (gid : ℕ) → Steps (mkdir dfid name.now mode gid) (λ q. made (qid_of q))
            (moment_of (H.tree self.old.host) (H.calls self.old.host)
            self.old.fids self.old.msize self.old.share self.old.asked)
            (moment_of (H.tree self.new.host) (H.calls self.new.host)
            self.new.fids self.new.msize self.new.share self.new.asked) result }
        ensures steady { (H.calls self.new.host).steady ≡ (H.calls self.old.host).steady }
        ensures fixed { (self.new.msize ≡ self.old.msize) × (self.new.share ≡ self.old.share) }
        ensures asked { self.new.asked ≡ self.old.asked }
    {
        let dir = self.ino_for(dfid, name)?;
        let attr = self.host.mkdir(dir, name, mode)?;
        Ok(qid_of(&attr))
    }

    // Gives the file of a fid one more name, in the directory of another.
    pub(super) fn link(&mut self, dfid: u32, fid: u32, name: &[u8]) -> Result<(), HostError>
        ensures step { Steps (link dfid fid name.now) (λ _. linked)
            (moment_of (H.tree self.old.host) (H.calls self.old.host)
            self.old.fids self.old.msize self.old.share self.old.asked)
            (moment_of (H.tree self.new.host) (H.calls self.new.host)
            self.new.fids self.new.msize self.new.share self.new.asked) result }
        ensures steady { (H.calls self.new.host).steady ≡ (H.calls self.old.host).steady }
        ensures fixed { (self.new.msize ≡ self.old.msize) × (self.new.share ≡ self.old.share) }
        ensures asked { self.new.asked ≡ self.old.asked }
    {
        let ino = self.ino_of(fid)?;
        let dir = self.ino_for(dfid, name)?;
        self.host.link(ino, dir, name)
    }

    // Moves a name from the directory of a fid to that of another.
    pub(super) fn rename(
        &mut self,
        olddirfid: u32,
        oldname: &[u8],
        newdirfid: u32,
        newname: &[u8],
    ) -> Result<(), HostError>
        ensures step { Steps (renameat olddirfid oldname.now newdirfid newname.now) (λ _. moved)
            (moment_of (H.tree self.old.host) (H.calls self.old.host)
            self.old.fids self.old.msize self.old.share self.old.asked)
            (moment_of (H.tree self.new.host) (H.calls self.new.host)
            self.new.fids self.new.msize self.new.share self.new.asked) result }
        ensures steady { (H.calls self.new.host).steady ≡ (H.calls self.old.host).steady }
        ensures fixed { (self.new.msize ≡ self.old.msize) × (self.new.share ≡ self.old.share) }
        ensures asked { self.new.asked ≡ self.old.asked }
    {
        let olddir = self.ino_of(olddirfid)?;
        let newdir = self.ino_for(newdirfid, oldname)?;
        check_name(newname)?;
        self.host.rename(olddir, oldname, newdir, newname)
    }

    // Takes a name away: with no flags that of a file or a link, with `P9_AT_REMOVEDIR` that of a
    // directory.
    pub(super) fn unlink(&mut self, dirfd: u32, name: &[u8], flags: u32) -> Result<(), HostError>
        ensures step { Steps (unlinkat dirfd name.now flags) (λ _. unlinked)
            (moment_of (H.tree self.old.host) (H.calls self.old.host)
            self.old.fids self.old.msize self.old.share self.old.asked)
            (moment_of (H.tree self.new.host) (H.calls self.new.host)
            self.new.fids self.new.msize self.new.share self.new.asked) result }
        ensures steady { (H.calls self.new.host).steady ≡ (H.calls self.old.host).steady }
        ensures fixed { (self.new.msize ≡ self.old.msize) × (self.new.share ≡ self.old.share) }
        ensures asked { self.new.asked ≡ self.old.asked }
    {
        let dir = self.ino_for(dirfd, name)?;
        if flags == 0 {
            return self.host.unlink(dir, name);
        }
        if flags == P9_AT_REMOVEDIR {
            return self.host.rmdir(dir, name);
        }
        Err(HostError::Errno(EINVAL))
    }
}
