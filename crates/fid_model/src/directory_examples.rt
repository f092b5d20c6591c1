//! What is done to the entries of directories, computed on a small server: fid 7 names the top
//! directory, in which `hello` is a file; where that is open, fid 8 names it.
ghost use Rattle.std.specs.Prelude.{◌≡◌, [], ◌∷◌, ◌++◌, codes};
ghost use Rattle.port_base.specs.declared.errno.TheConstants.{EACCES, EBADF, EEXIST, EINVAL};
ghost use Rattle.port_base.specs.declared.errno.TheConstants.{ENOENT, ENOTDIR, EPERM};
ghost use Rattle.tree_model.specs.Tree.{keep};
ghost use Rattle.tree_model.specs.Samples.{born, hello, sample};
ghost use Rattle.tree_model.specs.Creating.{empty_directory, with_name, with_new};
ghost use Rattle.tree_model.specs.Unlinking.{without_entry};
ghost use Rattle.tree_model.specs.Renaming.{with_moved};
ghost use Rattle.p9_tmsg.specs.Messages.Message.{link, mkdir, mknod, readdir, renameat, symlink};
ghost use Rattle.p9_tmsg.specs.Messages.Message.{unlinkat};
ghost use Rattle.p9_rmsg.specs.Replies.Reply.{lerror, link as linked, mkdir as made};
ghost use Rattle.p9_rmsg.specs.Replies.Reply.{readdir as listed, renameat as moved};
ghost use Rattle.p9_rmsg.specs.Replies.Reply.{unlinkat as unlinked};
ghost use Rattle.fid_model.specs.Fids.{is_held};
ghost use Rattle.fid_model.specs.Answers.{core};
ghost use Rattle.fid_model.specs.Samples.{server, with_closed, with_listing, with_open};

/// A directory that is made, beside a name that is there, a name with a fault, and a fid that
/// isn't there.
#[tactic(auto, using(crate::proofs::Entries::directory_made, crate::proofs::Entries::directory_there, crate::proofs::Entries::directory_above, crate::proofs::Entries::made_nowhere))]
pub fn making_directories()
    ensures made { core server (mkdir 7 (codes "b") 493 0)
        ≡ (
          made (128, (7, 3)),
          record server {
            tree =
                with_new sample 1 (codes "b") (empty_directory born 493 1);
          },
        ) }
    ensures there { core server (mkdir 7 hello 493 0) ≡ (lerror EEXIST, server) }
    ensures above { core server (mkdir 7 (codes "..") 493 0) ≡ (lerror EINVAL, server) }
    ensures unknown { core server (mkdir 9 (codes "..") 493 0) ≡ (lerror EBADF, server) }
{}

/// One more name of the file; a directory gets none. Each fid has to be there, and the name
/// without fault.
#[tactic(auto, using(crate::proofs::Entries::file_linked, crate::proofs::Entries::directory_not_linked, crate::proofs::Entries::linked_above, crate::proofs::Entries::none_linked, crate::proofs::Entries::linked_nowhere))]
pub fn linking()
    ensures file { core with_open (link 7 8 (codes "b"))
        ≡ (linked, record with_open { tree = with_name sample 1 (codes "b") 2 }) }
    ensures directory { core server (link 7 7 (codes "b")) ≡ (lerror EPERM, server) }
    ensures above { core server (link 7 7 (codes "..")) ≡ (lerror EINVAL, server) }
    ensures unknown { core server (link 7 9 (codes "..")) ≡ (lerror EBADF, server) }
    ensures nowhere { core server (link 9 7 (codes "..")) ≡ (lerror EBADF, server) }
{}

/// A name that moves, one that stays, and what is refused: fids first, then the old name, then the
/// new one.
#[tactic(auto, using(crate::proofs::Entries::name_moved, crate::proofs::Entries::name_kept, crate::proofs::Entries::empty_not_moved, crate::proofs::Entries::not_moved_above, crate::proofs::Entries::moved_from_nowhere, crate::proofs::Entries::moved_to_nowhere))]
pub fn moving()
    ensures moves { core server (renameat 7 hello 7 (codes "b"))
        ≡ (
          moved,
          record server {
            tree =
                keep (is_held server.fids) (with_moved sample 1 hello 1 (codes "b") 2);
          },
        ) }
    ensures stays { core server (renameat 7 hello 7 hello) ≡ (moved, server) }
    ensures empty { core server (renameat 7 [] 7 (codes "..")) ≡ (lerror ENOENT, server) }
    ensures above { core server (renameat 7 hello 7 (codes "..")) ≡ (lerror EINVAL, server) }
    ensures from_nowhere { core server (renameat 9 [] 7 hello) ≡ (lerror EBADF, server) }
    ensures to_nowhere { core server (renameat 7 [] 9 hello) ≡ (lerror EBADF, server) }
{}

/// A name of a file that goes; it is no directory's. A fault of the name is looked at before the
/// flags.
#[tactic(auto, using(crate::proofs::Entries::file_unlinked, crate::proofs::Entries::file_not_removed, crate::proofs::Entries::other_flags, crate::proofs::Entries::none_unlinked, crate::proofs::Entries::unlinked_nowhere))]
pub fn unlinking()
    ensures file { core server (unlinkat 7 hello 0)
        ≡ (
          unlinked,
          record server {
            tree =
                keep (is_held server.fids) (without_entry sample 1 hello 2);
          },
        ) }
    ensures no_directory { core server (unlinkat 7 hello 512) ≡ (lerror ENOTDIR, server) }
    ensures flags { core server (unlinkat 7 hello 1) ≡ (lerror EINVAL, server) }
    ensures empty { core server (unlinkat 7 [] 1) ≡ (lerror ENOENT, server) }
    ensures unknown { core server (unlinkat 9 [] 1) ≡ (lerror EBADF, server) }
{}

/// Symbolic links and special files aren't made, whatever is asked for.
pub fn refusing()
    ensures link { core server (symlink 9 hello hello 0) ≡ (lerror EACCES, server) }
    ensures special { core server (mknod 7 hello 420 1 3 0) ≡ (lerror EACCES, server) }
{}

/// The entries of a directory that is open: all, those that so few bytes have room for, and those
/// behind an offset; of one that isn't open, of what is no directory, and of no fid.
#[tactic(auto, using(crate::proofs::ListingSampling::listed_whole, crate::proofs::ListingSampling::listed_short, crate::proofs::ListingSampling::listed_past, crate::proofs::ListingSampling::listed_closed, crate::proofs::ListingSampling::listed_file, crate::proofs::ListingSampling::listed_nowhere))]
pub fn listing_directories()
    ensures whole { core with_listing (readdir 8 0 29)
        ≡ (
          listed
              ((0 ∷ 7 ∷ 0 ∷ 0 ∷ 0 ∷ 2 ∷ 0 ∷ 0 ∷ 0 ∷ 0 ∷ 0 ∷ 0 ∷ 0 ∷ [])
              ++ ((1 ∷ 0 ∷ 0 ∷ 0 ∷ 0 ∷ 0 ∷ 0 ∷ 0 ∷ []) ++ ((8 ∷ 5 ∷ 0 ∷ []) ++ hello))),
          with_listing,
        ) }
    ensures short { core with_listing (readdir 8 0 28) ≡ (listed [], with_listing) }
    ensures past { core with_listing (readdir 8 1 256) ≡ (listed [], with_listing) }
    ensures closed { core server (readdir 7 0 256) ≡ (lerror EBADF, server) }
    ensures file { core with_closed (readdir 8 0 256) ≡ (lerror ENOTDIR, with_closed) }
    ensures unknown { core server (readdir 9 0 256) ≡ (lerror EBADF, server) }
{}
