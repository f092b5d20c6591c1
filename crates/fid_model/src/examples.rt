//! The fid machine, computed on a small server: fid 7 names the top directory, in which `hello` is
//! a file.
ghost use Rattle.std.specs.Prelude.{◌≡◌, [], ◌∷◌, true, false, Some, None, codes};
ghost use Rattle.std.specs.FinMap.{insert, remove};
ghost use Rattle.port_base.specs.declared.errno.TheConstants.{EBADF, EINVAL, EIO, EISDIR, ELOOP};
ghost use Rattle.port_base.specs.declared.errno.TheConstants.{ENFILE, ENOENT};
ghost use Rattle.p9_tmsg.specs.Messages.Message.{attach as t_attach, clunk as t_clunk};
ghost use Rattle.p9_tmsg.specs.Messages.Message.{getattr as t_getattr, lopen as t_lopen};
ghost use Rattle.p9_tmsg.specs.Messages.Message.{read as t_read, walk as t_walk};
ghost use Rattle.p9_tmsg.specs.Messages.Message.{setattr as t_setattr, version as t_version};
ghost use Rattle.p9_tmsg.specs.Messages.Message.{flush as t_flush};
ghost use Rattle.p9_rmsg.specs.Replies.Reply.{attach as r_attach, clunk as r_clunk};
ghost use Rattle.p9_rmsg.specs.Replies.Reply.{lerror as r_lerror, lopen as r_lopen};
ghost use Rattle.p9_rmsg.specs.Replies.Reply.{read as r_read, walk as r_walk};
ghost use Rattle.tree_model.specs.Samples.{hello};
ghost use Rattle.fid_model.specs.Fids.{closed};
ghost use Rattle.fid_model.specs.Fids.OpenState.{Opened};
ghost use Rattle.fid_model.specs.Answers.{core};
ghost use Rattle.tree_model.specs.Tree.Body.{File, Directory, Link};
ghost use Rattle.tree_model.specs.Samples.{born, sample};
ghost use Rattle.tree_model.specs.Attributing.{with_changed, remoded, touch_ctime_of};
ghost use Rattle.tree_model.specs.declared.attributes.TimeSet.TheVariants.{Keep, Now, At};
ghost use Rattle.fid_model.specs.Fids.OpenState.{Closed};
ghost use Rattle.fid_model.specs.Setattr.{changes, is_open_to_read_alone, steps};
ghost use Rattle.fid_model.specs.Parts.{IsPartDone};
ghost use Rattle.fid_model.specs.Handling.{IsHurtReply};
ghost use Rattle.fid_model.specs.Samples.{server, with_open, top_qid, file_qid};

/// A new fid for the root, while there is room for one.
#[tactic(auto, using(crate::proofs::Sampling::attach_new, crate::proofs::Sampling::attach_used, crate::proofs::Sampling::attach_full))]
pub fn attaching()
    ensures new { core server (t_attach 8 4294967295 [] [] 0)
        ≡ (r_attach top_qid, record server { fids = insert server.fids 8 (closed 1) }) }
    ensures used { core server (t_attach 7 4294967295 [] [] 0) ≡ (r_lerror EBADF, server) }
    ensures full { core with_open (t_attach 9 4294967295 [] [] 0) ≡ (r_lerror ENFILE, with_open) }
{}

/// Walks by one name, by none and by two; a walk that is refused at a later name tells the qids so
/// far.
#[tactic(auto, using(crate::proofs::Sampling::walk_found, crate::proofs::Sampling::walk_copied, crate::proofs::Sampling::walk_part, crate::proofs::Sampling::walk_missing, crate::proofs::Sampling::walk_above, crate::proofs::Sampling::walk_unknown))]
pub fn walking()
    ensures found { core server (t_walk 7 8 (hello ∷ []))
        ≡ (r_walk (file_qid ∷ []), record server { fids = insert server.fids 8 (closed 2) }) }
    ensures copied { core server (t_walk 7 8 [])
        ≡ (r_walk [], record server { fids = insert server.fids 8 (closed 1) }) }
    ensures below_file { core server (t_walk 7 8 (hello ∷ hello ∷ []))
        ≡ (r_walk (file_qid ∷ []), server) }
    ensures missing { core server (t_walk 7 8 (codes "..." ∷ [])) ≡ (r_lerror ENOENT, server) }
    ensures above { core server (t_walk 7 8 (codes ".." ∷ [])) ≡ (r_lerror EINVAL, server) }
    ensures unknown { core server (t_walk 9 8 []) ≡ (r_lerror EBADF, server) }
{}

/// Opens of the directory, to be read, to be written, and to be emptied.
#[tactic(auto, using(crate::proofs::Sampling::open_read, crate::proofs::Sampling::open_written, crate::proofs::Sampling::open_emptied, crate::proofs::Sampling::open_unknown))]
pub fn opening()
    ensures to_read { core server (t_lopen 7 0)
        ≡ (
          r_lopen top_qid 0,
          record server {
            fids =
                insert server.fids 7 (record { ino = 1; open_state = Opened 0 false });
          },
        ) }
    ensures to_write { core server (t_lopen 7 1) ≡ (r_lerror EISDIR, server) }
    ensures emptied { core server (t_lopen 7 512) ≡ (r_lerror EISDIR, server) }
    ensures unknown { core server (t_lopen 9 0) ≡ (r_lerror EBADF, server) }
{}

/// Reads of the open file, as many bytes as are asked for, are there and fit a frame; and of a fid
/// that isn't open.
#[tactic(auto, using(crate::proofs::Sampling::read_part, crate::proofs::Sampling::read_small, crate::proofs::Sampling::read_closed))]
pub fn reading()
    ensures part { core with_open (t_read 8 1 3) ≡ (r_read (codes "orl"), with_open) }
    ensures small { (core (record with_open { msize = 13 }) (t_read 8 0 8)).0
        ≡ r_read (codes "wo") }
    ensures closed { core server (t_read 7 0 8) ≡ (r_lerror EBADF, server) }
{}

/// A fid ends; one that isn't there.
#[tactic(auto, using(crate::proofs::Sampling::clunk_known, crate::proofs::Sampling::clunk_unknown, crate::proofs::Sampling::getattr_unknown))]
pub fn ending()
    ensures known { core with_open (t_clunk 8)
        ≡ (r_clunk, record with_open { fids = remove with_open.fids 8 }) }
    ensures unknown { core server (t_clunk 9) ≡ (r_lerror EBADF, server) }
    ensures no_attributes { core server (t_getattr 9 0) ≡ (r_lerror EBADF, server) }
{}

/// What is open to be read alone, and what a Tsetattr sets: the change of the attributes is told by
/// itself only where no other bit that has a name is set.
pub fn setting()
    ensures to_read { is_open_to_read_alone (Opened 0 false) ≡ true }
    ensures to_write { is_open_to_read_alone (Opened 1 false) ≡ false }
    ensures closed { is_open_to_read_alone Closed ≡ false }
    ensures alone { steps (changes 576 0 0 0 0 0 0 0 0) (closed 1) ≡ (λ t. touch_ctime_of t 1)
        ∷ [] }
    ensures beside { steps (changes 192 0 0 0 0 0 0 0 0) (closed 1) ≡ [] }
{}

/// What a fault leaves of a Tsetattr of mode and size: the tree as it was, or with the new mode,
/// since the size of a directory is refused. No fault is told of a Tversion, a Tflush or a Tclunk.
#[tactic(auto, using(crate::proofs::Sampling::mode_done))]
pub fn failing()
    ensures before { IsPartDone server (t_setattr 7 9 448 0 0 0 0 0 0 0) sample }
    ensures mode { IsPartDone server (t_setattr 7 9 448 0 0 0 0 0 0 0)
        (with_changed (remoded 448 born) 1 sample) }
    ensures version { ¬ IsHurtReply server (t_version 0 []) (r_lerror EIO) }
    ensures flush { ¬ IsHurtReply server (t_flush 0) (r_lerror EIO) }
    ensures clunk { ¬ IsHurtReply server (t_clunk 7) (r_lerror EIO) }
{}
