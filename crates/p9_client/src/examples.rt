//! Opens, reads and listings as those that ask are told them, computed on a small server: fid 7
//! names the top directory, and fid 8 the file `hello`, which is open to be read; where it is
//! listed, fid 8 is the top directory.
ghost use Rattle.std.specs.Prelude.{◌≡◌, ℕ, true, false, [], ◌∷◌, Ok, Err, Some, None, codes};
ghost use Rattle.std.specs.FinMap.{insert};
ghost use Rattle.port_base.specs.declared.errno.TheConstants.{EBADF, EEXIST, EIO, EISDIR};
ghost use Rattle.p9_rmsg.specs.Replies.Reply.{lerror as r_lerror, link as r_link};
ghost use Rattle.fid_model.specs.Fids.{closed};
ghost use Rattle.fid_model.specs.Fids.OpenState.{Opened};
ghost use Rattle.tree_model.specs.Samples.{hello};
ghost use Rattle.fid_model.specs.Samples.{server, with_listing, with_open, top_qid};
ghost use Rattle.fid_model.specs.Setattr.{changes};
ghost use Rattle.p9_client.specs.Opening.{created, emptied_by, opened_told, is_readable_at};
ghost use Rattle.p9_client.specs.Opening.{read_told};
ghost use Rattle.p9_client.specs.Changing.{changed, done, set_by};
ghost use Rattle.p9_client.specs.Listing.{entries_told};

/// The directory, opened to be read; to be written it isn't.
#[tactic(auto, using(crate::proofs::Sampling::open_read, crate::proofs::Sampling::open_written))]
pub fn opening()
    ensures to_read { opened_told server 7 (closed 1) 0
        ≡ (
          Ok top_qid,
          record server {
            fids =
                insert server.fids 7 (record { ino = 1; open_state = Opened 0 false });
          },
        ) }
    ensures to_write { opened_told server 7 (closed 1) 1 ≡ (Err EISDIR, server) }
    ensures readable { is_readable_at (Some (record { ino = 2; open_state = Opened 0 false }))
        ≡ true }
    ensures writable { is_readable_at (Some (record { ino = 2; open_state = Opened 1 false }))
        ≡ false }
    ensures unknown { is_readable_at None ≡ false }
{}

/// Bytes of the file, as many as are asked for, are there and fit a message; a directory has none.
#[tactic(auto, using(crate::proofs::Sampling::read_part, crate::proofs::Sampling::read_small, crate::proofs::Sampling::read_directory))]
pub fn reading()
    ensures part { read_told with_open 2 1 3 ≡ (Ok (codes "orl"), with_open) }
    ensures small { (read_told (record with_open { msize = 13 }) 2 0 8).0 ≡ Ok (codes "wo") }
    ensures directory { read_told server 1 0 8 ≡ (Err EISDIR, server) }
{}

/// The entries of the directory that have room: the file's qid, the offset behind it, its type and
/// its name; in too little room there are none.
#[tactic(auto, using(crate::proofs::Sampling::listed_whole, crate::proofs::Sampling::listed_short))]
pub fn listing_directories()
    ensures whole { entries_told with_listing 8 0 29
        ≡ Ok (((0, (7, 2)), (1, (8, hello))) ∷ []) }
    ensures short { entries_told with_listing 8 0 28 ≡ Ok [] }
{}

/// A change that is refused leaves the server as it is; a reply without fields says that all was
/// done.
pub fn changing()
    ensures refused { changed {A = ℕ} server (λ n. n) (Err EEXIST) ≡ (Err EEXIST, server) }
    ensures not_made { created server 7 0 (Err EEXIST) ≡ (Err EEXIST, server) }
    ensures no_fid { set_by server (changes 1 384 0 0 0 0 0 0 0) None ≡ (Err EBADF, server) }
    ensures failed { done (r_lerror EIO) ≡ Err EIO }
    ensures all_done { done r_link ≡ Ok tt }
    ensures not_opened { emptied_by server 9 512 None ≡ (Err EBADF, server) }
{}
