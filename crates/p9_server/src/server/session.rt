//! Tversion, Tlock and Tgetlock: how a session begins, and its locks, which are always free.
ghost use Rattle.std.specs.Prelude.{◌≡◌, ◌+◌, ◌≤◌, length, IfOk, IfErr};
ghost use Rattle.std.specs.FinMap as map;
ghost use Rattle.p9_wire.specs.declared.protocol.TheConstants.{RGETLOCK_HEADER_SIZE};
ghost use Rattle.p9_tmsg.specs.Messages.Message.{version, lock, getlock};
ghost use Rattle.p9_rmsg.specs.Replies.Reply.{version as agreed, lock as locked, getlock as free};
ghost use Rattle.fid_model.specs.Fids.{is_open};
ghost use Rattle.fid_model.specs.Sessions.{spoken};
ghost use Rattle.p9_server.specs.Steps.{moment_of, Steps, open_told};

use super::Server;
use crate::fids::release_all;
use p9_rmsg::{Rgetlock, Rlock, Rversion};
use p9_tmsg::{Tgetlock, Tlock};
use p9_wire::protocol::{MIN_MESSAGE_SIZE, RGETLOCK_HEADER_SIZE};
use p9_wire::text::P9String;
use port_base::errno::{EBADF, EINVAL, ENAMETOOLONG};
use std::alloc::Global;
use tree_host::Host;
use tree_model::HostError;

/// The protocol that is spoken.
const PROTOCOL: &[u8] = b"9P2000.L";

/// What is said where a client speaks another protocol.
const UNKNOWN_PROTOCOL: &[u8] = b"unknown";

/// The status of a lock that is had (`P9_LOCK_SUCCESS`).
const P9_LOCK_SUCCESS: u8 = 0;

/// The kind of a lock that stands in no way (`P9_LOCK_TYPE_UNLCK`).
const P9_LOCK_TYPE_UNLCK: u8 = 2;

// The protocol that is spoken with a client, or that none is.
fn spoken(alloc: Global, protocol: &P9String) -> Result<P9String, HostError>
    ensures text { IfOk result (λ s. s ≡ spoken protocol.now) }
    ensures memory { IfErr result (λ e. e ≡ HostError.NoMemory) }
{
    let text = if protocol.as_bytes() == PROTOCOL {
        PROTOCOL
    } else {
        UNKNOWN_PROTOCOL
    };
    P9String::new(alloc, text).map_err(|_| HostError::NoMemory)
}

impl<H: Host> Server<H> {
    // Begins a session: no fid is left, and frames are as large as both sides take.
    pub(super) fn version(&mut self, msize: u32, protocol: &P9String) -> Result<Rversion, HostError>
        ensures step { Steps (version msize protocol.now) (λ v. agreed v.msize v.version)
            (moment_of (H.tree self.old.host) (H.calls self.old.host)
            self.old.fids self.old.msize self.old.share self.old.asked)
            (moment_of (H.tree self.new.host) (H.calls self.new.host)
            self.new.fids self.new.msize self.new.share self.new.asked) result }
        ensures short { IfOk result (λ v. length v.version ≤ 8) }
        ensures steady { (H.calls self.new.host).steady ≡ (H.calls self.old.host).steady }
        ensures sized { self.new.msize ≤ self.old.msize }
        ensures fixed { self.new.share ≡ self.old.share }
        ensures asked { self.new.asked ≡ self.old.asked }
    {
        if msize < MIN_MESSAGE_SIZE {
            return Err(HostError::Errno(EINVAL));
        }
        let version = spoken(self.alloc, protocol)?;
        release_all(&mut self.host, &mut self.fids);
        self.msize = self.msize.min(msize);
        Ok(Rversion {
            msize: self.msize,
            version,
        })
    }

    // The inode of a fid that is open.
    pub(super) fn open_ino(&self, fid: u32) -> Result<u64, HostError>
        ensures { result ≡ open_told is_open (map.get self.now.fids fid) }
    {
        let Some(state) = self.fids.get(fid as u64) else {
            return Err(HostError::Errno(EBADF));
        };
        if !state.is_open() {
            return Err(HostError::Errno(EBADF));
        }
        Ok(state.ino())
    }

    // Locks the file of a fid that is open, at once.
    pub(super) fn lock(&self, m: Tlock) -> Result<Rlock, HostError>
        ensures step { Steps (lock m.fid m.kind_ m.flags m.start m.length m.proc_id m.client_id)
            (λ r. locked r.status)
            (moment_of (H.tree self.now.host) (H.calls self.now.host)
            self.now.fids self.now.msize self.now.share self.now.asked)
            (moment_of (H.tree self.now.host) (H.calls self.now.host)
            self.now.fids self.now.msize self.now.share self.now.asked) result }
    {
        self.open_ino(m.fid)?;
        Ok(Rlock {
            status: P9_LOCK_SUCCESS,
        })
    }

    // Tells that no lock stands in the way of a fid that is open.
    pub(super) fn get_lock(&self, m: Tgetlock) -> Result<Rgetlock, HostError>
        ensures step { Steps (getlock m.fid m.kind_ m.start m.length m.proc_id m.client_id)
            (λ r. free r.kind_ r.start r.length r.proc_id r.client_id)
            (moment_of (H.tree self.now.host) (H.calls self.now.host)
            self.now.fids self.now.msize self.now.share self.now.asked)
            (moment_of (H.tree self.now.host) (H.calls self.now.host)
            self.now.fids self.now.msize self.now.share self.now.asked) result }
        ensures fits { IfOk result (λ r. RGETLOCK_HEADER_SIZE + length r.client_id
            ≤ self.now.msize) }
    {
        self.open_ino(m.fid)?;
        if (self.msize as usize) < RGETLOCK_HEADER_SIZE as usize + m.client_id.len() {
            return Err(HostError::Errno(ENAMETOOLONG));
        }
        Ok(Rgetlock {
            kind_: P9_LOCK_TYPE_UNLCK,
            start: m.start,
            length: m.length,
            proc_id: m.proc_id,
            client_id: m.client_id,
        })
    }
}
