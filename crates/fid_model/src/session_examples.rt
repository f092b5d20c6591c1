//! Sessions, locks, sizes and links, computed on a small server: fid 7 names the top directory,
//! and where `hello` is open, fid 8 names it. In the tree with a link, fid 8 names that.
ghost use Rattle.std.specs.Prelude.{◌≡◌, [], codes, replicate, Ok, Err};
ghost use Rattle.std.specs.FinMap.{empty};
ghost use Rattle.port_base.specs.declared.errno.TheConstants.{EBADF, EINVAL, ENAMETOOLONG};
ghost use Rattle.port_base.specs.declared.errno.TheConstants.{EOPNOTSUPP};
ghost use Rattle.p9_tmsg.specs.Messages.Message.{auth, flush, fsync, getlock, lock, readlink};
ghost use Rattle.p9_tmsg.specs.Messages.Message.{remove, rename, statfs, version, xattrcreate};
ghost use Rattle.p9_tmsg.specs.Messages.Message.{xattrwalk};
ghost use Rattle.p9_rmsg.specs.Replies.Reply.{flush as flushed, fsync as synced, getlock as free};
ghost use Rattle.p9_rmsg.specs.Replies.Reply.{lerror, lock as locked, readlink as target};
ghost use Rattle.p9_rmsg.specs.Replies.Reply.{statfs as sizes, version as agreed};
ghost use Rattle.fid_model.specs.Answers.{core};
ghost use Rattle.fid_model.specs.Samples.{server, with_open, with_link};

/// A session of the protocol, in frames as large as both sides take; of another; and one whose
/// frames are too small.
pub fn beginning_sessions()
    ensures spoken { core with_open (version 8192 (codes "9P2000.L"))
        ≡ (agreed 256 (codes "9P2000.L"), record with_open { fids = empty }) }
    ensures smaller { core (record server { msize = 8192 }) (version 256 (codes "9P2000.L"))
        ≡ (agreed 256 (codes "9P2000.L"), record server { fids = empty }) }
    ensures other { core server (version 256 (codes "9P2000.u"))
        ≡ (agreed 256 (codes "unknown"), record server { fids = empty }) }
    ensures small { core server (version 255 (codes "9P2000.L")) ≡ (lerror EINVAL, server) }
{}

/// What is answered at once, whatever the server has.
pub fn answering_at_once()
    ensures flushed { core server (flush 5) ≡ (flushed, server) }
    ensures auth { core server (auth 9 [] [] 0) ≡ (lerror EOPNOTSUPP, server) }
    ensures remove { core server (remove 7) ≡ (lerror EOPNOTSUPP, server) }
    ensures rename { core server (rename 7 7 (codes "b")) ≡ (lerror EOPNOTSUPP, server) }
    ensures attribute { core server (xattrwalk 7 9 (codes "user.b")) ≡ (lerror EOPNOTSUPP, server) }
    ensures new_attribute { core server (xattrcreate 7 (codes "user.b") 1 0)
        ≡ (lerror EOPNOTSUPP, server) }
{}

/// Locks of a fid that is open, of one that isn't, and of one that isn't there.
#[tactic(auto, using(crate::proofs::SessionSampling::lock_had, crate::proofs::SessionSampling::lock_closed, crate::proofs::SessionSampling::lock_unknown, crate::proofs::SessionSampling::lock_free, crate::proofs::SessionSampling::lock_of_long_name, crate::proofs::SessionSampling::no_lock_told))]
pub fn locking()
    ensures had { core with_open (lock 8 1 0 0 9 77 (codes "me")) ≡ (locked 0, with_open) }
    ensures closed { core server (lock 7 1 0 0 9 77 (codes "me")) ≡ (lerror EBADF, server) }
    ensures unknown { core server (lock 9 1 0 0 9 77 (codes "me")) ≡ (lerror EBADF, server) }
    ensures free { core with_open (getlock 8 1 3 9 77 (codes "me"))
        ≡ (free 2 3 9 77 (codes "me"), with_open) }
    ensures long_name { core with_open (getlock 8 1 3 9 77 (replicate 227 109))
        ≡ (lerror ENAMETOOLONG, with_open) }
    ensures none { core server (getlock 7 1 3 9 77 (codes "me")) ≡ (lerror EBADF, server) }
{}

/// The sizes of a tree whose files have up to 8 bytes, and whose directories have two entries;
/// what is kept of an open file.
#[tactic(auto, using(crate::proofs::SessionSampling::sizes_told, crate::proofs::SessionSampling::sizes_unknown, crate::proofs::SessionSampling::synced_open, crate::proofs::SessionSampling::synced_closed))]
pub fn telling_sizes()
    ensures told { core server (statfs 7) ≡ (sizes 0 4096 1 1 1 2 2 0 255, server) }
    ensures unknown { core server (statfs 9) ≡ (lerror EBADF, server) }
    ensures synced { core with_open (fsync 8 0) ≡ (synced, with_open) }
    ensures closed { core server (fsync 7 1) ≡ (lerror EBADF, server) }
{}

/// The target of a link, where a frame has room for it; a directory has none.
#[tactic(auto, using(crate::proofs::SessionSampling::target_read, crate::proofs::SessionSampling::target_long, crate::proofs::SessionSampling::no_target, crate::proofs::SessionSampling::target_unknown))]
pub fn reading_links()
    ensures read { core with_link (readlink 8) ≡ (target (codes "world"), with_link) }
    ensures long { core (record with_link { msize = 13 }) (readlink 8)
        ≡ (lerror ENAMETOOLONG, record with_link { msize = 13 }) }
    ensures directory { core server (readlink 7) ≡ (lerror EINVAL, server) }
    ensures unknown { core server (readlink 9) ≡ (lerror EBADF, server) }
{}
