//! A server of a host's tree.
ghost use Rattle.std.specs.Prelude.{◌≡◌};
ghost use Rattle.std.specs.FinMap as map;
ghost use Rattle.p9_server.specs.Holding.{IsSound};

mod answer;
mod attach;
mod attributes;
mod create;
mod directories;
mod files;
mod listing;
mod nine;
mod open;
mod session;
mod setup;
mod walk;
mod write;

use crate::fid_state::FidState;
use crate::share::Share;
use port_base::errno::EBADF;
use port_base::table::Table;
use std::alloc::Global;
use tree_host::Host;
use tree_model::{Attr, HostError};

/// A server of the tree of a host, which holds each inode once for each fid that names it.
#[derive(Drop)]
pub struct Server<H: Host> {
    alloc: Global,
    host: H,
    fids: Table<FidState>,
    msize: u32,
    share: Share,
    asked: u64,
    ghost sound: { IsSound (H.holds host) fids msize share },
}

impl<H: Host> Server<H> {
    ghost use Rattle.p9_tmsg.specs.Messages.Message.{clunk, getattr};
    ghost use Rattle.p9_rmsg.specs.Replies.Reply.{clunk as clunked, getattr as got};
    ghost use Rattle.fid_model.specs.Answers.{attributes_of};
    ghost use Rattle.p9_server.specs.Steps.{moment_of, Steps, ino_told};

    // The inode that a fid names.
    fn ino_of(&self, fid: u32) -> Result<u64, HostError>
        ensures { result ≡ ino_told (map.get self.now.fids fid) }
    {
        let Some(state) = self.fids.get(fid as u64) else {
            return Err(HostError::Errno(EBADF));
        };
        Ok(state.ino())
    }

    // Takes a fid away, with its hold.
    fn clunk(&mut self, fid: u32) -> Result<(), HostError>
        ensures step { Steps (clunk fid) (λ _. clunked)
            (moment_of (H.tree self.old.host) (H.calls self.old.host)
            self.old.fids self.old.msize self.old.share self.old.asked)
            (moment_of (H.tree self.new.host) (H.calls self.new.host)
            self.new.fids self.new.msize self.new.share self.new.asked) result }
        ensures steady { (H.calls self.new.host).steady ≡ (H.calls self.old.host).steady }
        ensures fixed { (self.new.msize ≡ self.old.msize) × (self.new.share ≡ self.old.share) }
        ensures asked { self.new.asked ≡ self.old.asked }
    {
        let Some(gone) = self.fids.remove(fid as u64) else {
            return Err(HostError::Errno(EBADF));
        };
        self.host.release(gone.ino());
        Ok(())
    }

    // What is shown of the inode that a fid names.
    fn get_attr(&mut self, fid: u32) -> Result<Attr, HostError>
        ensures step { Steps (getattr fid 0) (λ a. got (attributes_of a))
            (moment_of (H.tree self.old.host) (H.calls self.old.host)
            self.old.fids self.old.msize self.old.share self.old.asked)
            (moment_of (H.tree self.new.host) (H.calls self.new.host)
            self.new.fids self.new.msize self.new.share self.new.asked) result }
        ensures steady { (H.calls self.new.host).steady ≡ (H.calls self.old.host).steady }
        ensures fixed { (self.new.msize ≡ self.old.msize) × (self.new.share ≡ self.old.share) }
        ensures asked { self.new.asked ≡ self.old.asked }
    {
        let ino = self.ino_of(fid)?;
        let attr = self.host.stat(ino)?;
        Ok(self.share.shown(&attr))
    }
}
