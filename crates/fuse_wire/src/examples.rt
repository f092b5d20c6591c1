//! Requests, replies and cuts, byte for byte. Each function makes no call: its contract is the
//! example.
ghost use Rattle.std.specs.Prelude.{◌≡◌, ◌++◌, [], ◌∷◌, replicate, codes, Some, None, Ok, Err};
ghost use Rattle.fuse_wire.specs.Request.{request_of};
ghost use Rattle.fuse_wire.specs.Request.Request.{init, lookup, getattr, open_file, read, flush};
ghost use Rattle.fuse_wire.specs.Request.Request.{release, forget, batch_forget, unlink, opendir};
ghost use Rattle.fuse_wire.specs.Request.Request.{readdir, releasedir, rmdir, rename, rename2};
ghost use Rattle.fuse_wire.specs.Request.Request.{symlink, mknod, readlink, statfs, fsync};
ghost use Rattle.fuse_wire.specs.Request.Request.{fsyncdir, interrupt, destroy, mkdir, setattr};
ghost use Rattle.fuse_wire.specs.Request.Request.{write, link, create};
ghost use Rattle.fuse_wire.specs.Listing.{dirent_bytes};
ghost use Rattle.fuse_wire.specs.Reply.{u32s, u64s, reply, entry_body, attr_body, init_body};
ghost use Rattle.fuse_wire.specs.Reply.{opened_body, written_body};
ghost use Rattle.fuse_wire.specs.Samples.{file, framed, least, init_bytes, entry_bytes, attr_reply};
ghost use Rattle.fuse_wire.specs.Cuts.{cut};
ghost use Rattle.fuse_wire.specs.Cuts.End.{done, turns_spent, torn, bad_length};

use crate::attr::FileType;

/// Replies to INIT, LOOKUP and GETATTR of a small file, and a refusal with ENOENT.
#[tactic(auto, using(crate::proofs::Sampling::begun, crate::proofs::Sampling::entered, crate::proofs::Sampling::shown, crate::proofs::Sampling::refused))]
pub fn replies()
    ensures begun { reply 1 0 (init_body 31 131072) ≡ init_bytes }
    ensures entered { reply 2 0 (entry_body 2 file) ≡ entry_bytes }
    ensures shown { reply 3 0 (attr_body file) ≡ attr_reply }
    ensures refused { reply 7 2 [] ≡ 16 ∷ 0 ∷ 0 ∷ 0 ∷ 254 ∷ 255 ∷ 255 ∷ 255 ∷ 7 ∷ 0 ∷ 0 ∷ 0 ∷ 0 ∷ 0
        ∷ 0 ∷ 0 ∷ [] }
{}

/// What frames ask.
#[tactic(auto, using(crate::proofs::Sampling::asks_init, crate::proofs::Sampling::asks_lookup, crate::proofs::Sampling::asks_lookup_empty, crate::proofs::Sampling::asks_getattr, crate::proofs::Sampling::asks_getattr_of_handle))]
pub fn requests()
    ensures init { request_of (framed 26 (u32s (7 ∷ 31 ∷ 131072 ∷ 3 ∷ []) ++ replicate 48 0))
        ≡ Ok (init 7 31 131072 3) }
    ensures named { request_of (framed 1 (codes "hello" ++ 0 ∷ [])) ≡ Ok (lookup (codes "hello")) }
    ensures unnamed { request_of (framed 1 (0 ∷ [])) ≡ Ok (lookup []) }
    ensures node { request_of (framed 3 (replicate 8 0 ++ u64s (5 ∷ []))) ≡ Ok (getattr None) }
    ensures handle { request_of (framed 3 (u32s (1 ∷ 0 ∷ []) ++ u64s (5 ∷ [])))
        ≡ Ok (getattr (Some 5)) }
{}

/// What frames ask on open files, and what forgets ask.
#[tactic(auto, using(crate::proofs::Sampling::asks_open, crate::proofs::Sampling::asks_read, crate::proofs::Sampling::asks_flush, crate::proofs::Sampling::asks_release, crate::proofs::Sampling::asks_forget, crate::proofs::Sampling::asks_batch_forget, crate::proofs::Sampling::batch_too_short, crate::proofs::Sampling::opened))]
pub fn files_and_forgets()
    ensures open { request_of (framed 14 (u32s (32768 ∷ 0 ∷ []))) ≡ Ok (open_file 32768) }
    ensures read { request_of (framed 15 (u64s (2 ∷ 4 ∷ [])
        ++ (u32s (9 ∷ 2 ∷ []) ++ (u64s (7 ∷ []) ++ u32s (1 ∷ 0 ∷ [])))))
        ≡ Ok (read 2 4 9 1 (Some 7)) }
    ensures flush { request_of (framed 25 (u64s (2 ∷ 0 ∷ 0 ∷ []))) ≡ Ok (flush 2) }
    ensures release { request_of (framed 18 (u64s (2 ∷ 0 ∷ 0 ∷ []))) ≡ Ok (release 2) }
    ensures forget { request_of (framed 2 (u64s (3 ∷ []))) ≡ Ok (forget 3) }
    ensures batch { request_of (framed 42 (u32s (1 ∷ 0 ∷ []) ++ u64s (2 ∷ 3 ∷ [])))
        ≡ Ok (batch_forget (u64s (2 ∷ 3 ∷ []))) }
    ensures short { request_of (framed 42 (u32s (2 ∷ 0 ∷ []) ++ u64s (2 ∷ 3 ∷ []))) ≡ Err 22 }
    ensures opened { reply 4 0 (opened_body 2) ≡ 32 ∷ 0 ∷ 0 ∷ 0 ∷ 0 ∷ 0 ∷ 0 ∷ 0 ∷ 4 ∷ 0 ∷ 0 ∷ 0 ∷ 0
        ∷ 0 ∷ 0 ∷ 0 ∷ 2 ∷ 0 ∷ 0 ∷ 0 ∷ 0 ∷ 0 ∷ 0 ∷ 0 ∷ 0 ∷ 0 ∷ 0 ∷ 0 ∷ 0 ∷ 0 ∷ 0 ∷ 0 ∷ [] }
{}

/// What frames ask of names that go, move or are made.
#[tactic(auto, using(crate::proofs::Sampling::asks_rmdir, crate::proofs::Sampling::asks_rename, crate::proofs::Sampling::asks_rename2, crate::proofs::Sampling::asks_symlink, crate::proofs::Sampling::asks_mknod, crate::proofs::Sampling::asks_mkdir, crate::proofs::Sampling::asks_link, crate::proofs::Sampling::asks_create))]
pub fn names()
    ensures rmdir { request_of (framed 11 (codes "d" ++ 0 ∷ [])) ≡ Ok (rmdir (codes "d")) }
    ensures rename { request_of (framed 12
        (u64s (7 ∷ []) ++ (codes "a" ++ 0 ∷ codes "b" ++ 0 ∷ [])))
        ≡ Ok (rename 7 (codes "a") (codes "b")) }
    ensures rename2 { request_of (framed 45
        (u64s (7 ∷ []) ++ (u32s (1 ∷ 0 ∷ []) ++ (codes "a" ++ 0 ∷ codes "b" ++ 0 ∷ []))))
        ≡ Ok (rename2 7 1 (codes "a") (codes "b")) }
    ensures symlink { request_of (framed 6 (codes "l" ++ 0 ∷ codes "a/b" ++ 0 ∷ []))
        ≡ Ok (symlink (codes "l") (codes "a/b")) }
    ensures mknod { request_of (framed 8
        (u32s (4516 ∷ 259 ∷ 18 ∷ 0 ∷ []) ++ (codes "p" ++ 0 ∷ [])))
        ≡ Ok (mknod 4516 259 (codes "p")) }
    ensures mkdir { request_of (framed 9 (u32s (493 ∷ 18 ∷ []) ++ (codes "d" ++ 0 ∷ [])))
        ≡ Ok (mkdir 493 (codes "d")) }
    ensures link { request_of (framed 13 (u64s (7 ∷ []) ++ (codes "l" ++ 0 ∷ [])))
        ≡ Ok (link 7 (codes "l")) }
    ensures create { request_of (framed 35
        (u32s (577 ∷ 420 ∷ 18 ∷ 0 ∷ []) ++ (codes "f" ++ 0 ∷ [])))
        ≡ Ok (create 577 420 (codes "f")) }
{}

/// What frames ask that change a file, and bodies that are too short; how much was written.
#[tactic(auto, using(crate::proofs::Sampling::asks_setattr, crate::proofs::Sampling::setattr_too_short, crate::proofs::Sampling::asks_write, crate::proofs::Sampling::write_too_short, crate::proofs::Sampling::written))]
pub fn changes_of_files()
    ensures setattr { request_of (framed 4 (u32s (217 ∷ 0 ∷ [])
        ++ (u64s (4 ∷ 6 ∷ 7 ∷ 8 ∷ 9 ∷ 10 ∷ []) ++ u32s (1 ∷ 2 ∷ 3 ∷ 420 ∷ 0 ∷ 5 ∷ 11 ∷ 0 ∷ []))))
        ≡ Ok (setattr (record {
          valid = 217;
          fh = 4;
          size = 6;
          lock_owner = 7;
          atime = 8;
          mtime = 9;
          ctime = 10;
          atimensec = 1;
          mtimensec = 2;
          ctimensec = 3;
          mode = 420;
          uid = 5;
          gid = 11;
        })) }
    ensures short { request_of (framed 4 (replicate 87 0)) ≡ Err 22 }
    ensures write { request_of (framed 16 (u64s (2 ∷ 4 ∷ []) ++ (u32s (2 ∷ 0 ∷ [])
        ++ (u64s (7 ∷ []) ++ (u32s (1 ∷ 0 ∷ []) ++ codes "hi")))))
        ≡ Ok (write 2 4 (codes "hi")) }
    ensures fewer { request_of (framed 16 (u64s (2 ∷ 4 ∷ []) ++ (u32s (3 ∷ 0 ∷ [])
        ++ (u64s (7 ∷ []) ++ (u32s (1 ∷ 0 ∷ []) ++ codes "hi"))))) ≡ Err 22 }
    ensures written { reply 4 0 (written_body 258) ≡ 24 ∷ 0 ∷ 0 ∷ 0 ∷ 0 ∷ 0 ∷ 0 ∷ 0 ∷ 4 ∷ 0 ∷ 0 ∷ 0 ∷ 0
        ∷ 0 ∷ 0 ∷ 0 ∷ 2 ∷ 1 ∷ 0 ∷ 0 ∷ 0 ∷ 0 ∷ 0 ∷ 0 ∷ [] }
{}

/// What frames ask that change no tree.
#[tactic(auto, using(crate::proofs::Sampling::asks_readlink, crate::proofs::Sampling::asks_statfs, crate::proofs::Sampling::statfs_too_long, crate::proofs::Sampling::asks_fsync, crate::proofs::Sampling::asks_fsyncdir, crate::proofs::Sampling::asks_interrupt, crate::proofs::Sampling::asks_destroy))]
pub fn links_sizes_and_ends()
    ensures readlink { request_of (framed 5 []) ≡ Ok readlink }
    ensures statfs { request_of (framed 17 []) ≡ Ok statfs }
    ensures long { request_of (framed 17 (0 ∷ [])) ≡ Err 22 }
    ensures fsync { request_of (framed 20 (u64s (2 ∷ []) ++ u32s (1 ∷ 0 ∷ []))) ≡ Ok (fsync 2 1) }
    ensures fsyncdir { request_of (framed 30 (u64s (2 ∷ []) ++ u32s (0 ∷ 0 ∷ [])))
        ≡ Ok (fsyncdir 2 0) }
    ensures interrupt { request_of (framed 36 (u64s (2 ∷ []))) ≡ Ok interrupt }
    ensures destroy { request_of (framed 38 []) ≡ Ok destroy }
{}

/// What frames ask of directories, by bodies of exactly their length.
#[tactic(auto, using(crate::proofs::Sampling::asks_unlink, crate::proofs::Sampling::asks_opendir, crate::proofs::Sampling::asks_readdir, crate::proofs::Sampling::asks_releasedir, crate::proofs::Sampling::readdir_too_short, crate::proofs::Sampling::opendir_too_long))]
pub fn directories()
    ensures unlink { request_of (framed 10 (codes "hello" ++ 0 ∷ []))
        ≡ Ok (unlink (codes "hello")) }
    ensures opendir { request_of (framed 27 (u32s (65536 ∷ 0 ∷ []))) ≡ Ok (opendir 65536) }
    ensures readdir { request_of (framed 28 (u64s (2 ∷ 4 ∷ [])
        ++ (u32s (4096 ∷ 0 ∷ []) ++ (u64s (7 ∷ []) ++ u32s (65536 ∷ 0 ∷ [])))))
        ≡ Ok (readdir 2 4 4096 65536 None) }
    ensures releasedir { request_of (framed 29 (u64s (2 ∷ 0 ∷ 0 ∷ []))) ≡ Ok (releasedir 2) }
    ensures short { request_of (framed 28 (replicate 39 0)) ≡ Err 22 }
    ensures long { request_of (framed 27 (replicate 9 0)) ≡ Err 22 }
{}

/// Entries of a listing: one that ends by three zero bytes, and one that has none.
#[tactic(auto, using(crate::proofs::Sampling::entry_padded, crate::proofs::Sampling::entry_whole))]
pub fn entries()
    ensures padded { dirent_bytes 2 1 FileType.Directory (codes "hello") ≡
        2 ∷ 0 ∷ 0 ∷ 0 ∷ 0 ∷ 0 ∷ 0 ∷ 0 ∷ 1 ∷ 0 ∷ 0 ∷ 0 ∷ 0 ∷ 0 ∷ 0 ∷ 0 ∷ 5 ∷ 0 ∷ 0 ∷ 0 ∷ 4 ∷ 0 ∷ 0 ∷ 0
        ∷ 104 ∷ 101 ∷ 108 ∷ 108 ∷ 111 ∷ 0 ∷ 0 ∷ 0 ∷ [] }
    ensures whole { dirent_bytes 3 258 FileType.Symlink (codes "hellohel") ≡
        3 ∷ 0 ∷ 0 ∷ 0 ∷ 0 ∷ 0 ∷ 0 ∷ 0 ∷ 2 ∷ 1 ∷ 0 ∷ 0 ∷ 0 ∷ 0 ∷ 0 ∷ 0 ∷ 8 ∷ 0 ∷ 0 ∷ 0 ∷ 10 ∷ 0 ∷ 0 ∷ 0
        ∷ 104 ∷ 101 ∷ 108 ∷ 108 ∷ 111 ∷ 104 ∷ 101 ∷ 108 ∷ [] }
{}

/// A name without its zero byte, one with a zero byte inside and a body that is too long are
/// EINVAL; an opcode that
/// isn't served is ENOSYS.
#[tactic(auto, using(crate::proofs::Sampling::name_unended, crate::proofs::Sampling::name_ended_twice, crate::proofs::Sampling::getattr_too_long, crate::proofs::Sampling::unserved))]
pub fn refused_requests()
    ensures unended { request_of (framed 1 (codes "hello")) ≡ Err 22 }
    ensures twice { request_of (framed 1 (codes "hel" ++ (0 ∷ (codes "lo" ++ 0 ∷ [])))) ≡ Err 22 }
    ensures long { request_of (framed 3 (replicate 17 0)) ≡ Err 22 }
    ensures unserved { request_of (framed 77 []) ≡ Err 38 }
{}

/// How the cut of an input ends: within a frame, at a frame's end, at the last turn, or at a
/// length that no frame has.
#[tactic(auto, using(crate::proofs::Sampling::ends_torn, crate::proofs::Sampling::ends_short, crate::proofs::Sampling::ends_done, crate::proofs::Sampling::ends_spent, crate::proofs::Sampling::ends_bad))]
pub fn cuts()
    ensures torn { cut 9 (least ++ 1 ∷ 2 ∷ 3 ∷ []) ≡ record { frames = least ∷ []; end = torn } }
    ensures short { cut 9 (least ++ (46 ∷ replicate 44 0))
        ≡ record { frames = least ∷ []; end = torn } }
    ensures done { cut 9 (least ++ least) ≡ record { frames = least ∷ least ∷ []; end = done } }
    ensures spent { cut 1 (least ++ 1 ∷ []) ≡ record { frames = least ∷ []; end = turns_spent } }
    ensures bad { cut 9 (39 ∷ replicate 38 0) ≡ record { frames = []; end = bad_length } }
{}
