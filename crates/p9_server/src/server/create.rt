//! Tlcreate: a fid of a directory becomes that of a new file, which is open.
ghost use Rattle.std.specs.Prelude.{◌≡◌, ◌≢◌, ◌<◌, ℕ, Err, IfOk, OnErr};
ghost use Rattle.p9_wire.specs.Qids.{qid_of};
ghost use Rattle.p9_tmsg.specs.Messages.Message.{lcreate};
ghost use Rattle.p9_rmsg.specs.Replies.Reply.{lcreate as created};
ghost use Rattle.tree_model.specs.Tree.{body_at, is_directory_at};
ghost use Rattle.tree_model.specs.Opening.{unless};
ghost use Rattle.tree_host.specs.Holds.{hold_count};
ghost use Rattle.tree_host.specs.Host.{Answers};
ghost use Rattle.fid_model.specs.Files.{new_file_refused};
ghost use Rattle.p9_server.specs.Holding.{IsMore, IsSame};
ghost use Rattle.p9_server.specs.Walking.{Counts};
ghost use Rattle.p9_server.specs.Creating.{Creates, is_directory_kind};
ghost use Rattle.p9_server.specs.Steps.{moment_of, Steps};

use super::Server;
use crate::fid_state::FidState;
use crate::paths::told_of;
use crate::qids::qid_of;
use p9_wire::qid::Qid;
use port_base::errno::{EINVAL, ENOTDIR};
use port_base::names::name_fault;
use port_base::oflag::{O_ACCMODE, access_mode};
use tree_host::Host;
use tree_model::{Attr, HostError, Kind};

// Why no file is made by an open in something of a kind.
fn new_file_refused(kind: Kind, name: &[u8], flags: u32) -> Option<u32>
    ensures { result ≡ new_file_refused (is_directory_kind kind) name.now flags }
{
    if kind != Kind::Directory {
        return Some(ENOTDIR);
    }
    if let Some(fault) = name_fault(name) {
        return Some(fault);
    }
    if access_mode(flags) == O_ACCMODE {
        return Some(EINVAL);
    }
    None
}

// Whether an open may make a file of this name.
fn check_new_file<H: Host>(host: &mut H, dir: u64, name: &[u8], flags: u32) -> Result<(), HostError>
    requires { 0 < hold_count (H.holds host.old) dir }
    ensures answer { Answers
        (unless (new_file_refused (is_directory_at (body_at (H.tree host.old).records dir))
        name.now flags)) result }
    ensures tree { H.tree host.new ≡ H.tree host.old }
    ensures holds { H.holds host.new ≡ H.holds host.old }
    ensures memory { result ≢ Err HostError.NoMemory }
    ensures cause { Counts (H.calls host.old) (H.calls host.new) result }
    ensures steady { (H.calls host.new).steady ≡ (H.calls host.old).steady }
{
    let attr = host.stat(dir)?;
    match new_file_refused(attr.kind, name, flags) {
        Some(e) => Err(HostError::Errno(e)),
        None => Ok(()),
    }
}

// Makes a file in a directory, and takes a hold of it.
fn create_file<H: Host>(
    host: &mut H,
    dir: u64,
    name: &[u8],
    flags: u32,
    mode: u32,
) -> Result<Attr, HostError>
    requires held { 0 < hold_count (H.holds host.old) dir }
    ensures answer { Creates (H.tree host.old) (H.tree host.new) dir name.now flags mode result }
    ensures held { IfOk result (λ a. IsMore (H.holds host.old) (H.holds host.new) a.ino) }
    ensures refused { OnErr result (IsSame (H.holds host.old) (H.holds host.new)) }
    ensures cause { Counts (H.calls host.old) (H.calls host.new) result }
    ensures steady { (H.calls host.new).steady ≡ (H.calls host.old).steady }
{
    check_new_file(host, dir, name, flags)?;
    let ino = host.create(dir, name, mode)?;
    told_of(host, ino)
}

impl<H: Host> Server<H> {
    // Makes a file in the directory of a fid, which names the file then, and is open by the flags
    // of `open(2)`. Its group isn't looked at.
    pub(super) fn create(
        &mut self,
        fid: u32,
        name: &[u8],
        flags: u32,
        mode: u32,
    ) -> Result<Qid, HostError>
        ensures step { (gid : ℕ) → Steps (lcreate fid name.now flags mode gid)
            (λ q. created (qid_of q) 0)
            (moment_of (H.tree self.old.host) (H.calls self.old.host)
            self.old.fids self.old.msize self.old.share self.old.asked)
            (moment_of (H.tree self.new.host) (H.calls self.new.host)
            self.new.fids self.new.msize self.new.share self.new.asked) result }
        ensures steady { (H.calls self.new.host).steady ≡ (H.calls self.old.host).steady }
        ensures fixed { (self.new.msize ≡ self.old.msize) × (self.new.share ≡ self.old.share) }
        ensures asked { self.new.asked ≡ self.old.asked }
    {
        let dir = self.ino_of(fid)?;
        let attr = create_file(&mut self.host, dir, name, flags, mode)?;
        self.fids
            .replace(fid as u64, FidState::opened(attr.ino, flags));
        self.host.release(dir);
        Ok(qid_of(&attr))
    }
}
