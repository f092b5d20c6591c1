//! Files that are emptied, made, written and given attributes, computed on a small server: fid 7
//! names the top directory, and where `hello` is open, fid 8 names it.
ghost use Rattle.std.specs.Prelude.{◌≡◌, codes, true, false};
ghost use Rattle.std.specs.FinMap.{insert};
ghost use Rattle.port_base.specs.declared.errno.TheConstants.{EBADF, EEXIST, EINVAL, EISDIR};
ghost use Rattle.port_base.specs.declared.errno.TheConstants.{ENOTDIR};
ghost use Rattle.p9_tmsg.specs.Messages.Message.{lcreate, lopen, setattr, write};
ghost use Rattle.p9_rmsg.specs.Replies.Reply.{lcreate as created, lerror, lopen as was_opened};
ghost use Rattle.p9_rmsg.specs.Replies.Reply.{setattr as were_set, write as written};
ghost use Rattle.tree_model.specs.Samples.{born, hello, sample};
ghost use Rattle.tree_model.specs.Attributing.{overwritten_at, remoded, resized, rewritten_at};
ghost use Rattle.tree_model.specs.Attributing.{with_changed};
ghost use Rattle.tree_model.specs.Creating.{empty_file, with_new};
ghost use Rattle.fid_model.specs.Fids.OpenState.{Opened};
ghost use Rattle.fid_model.specs.Answers.{core};
ghost use Rattle.fid_model.specs.Samples.{server, with_open, with_writer, file_qid};

/// A file is emptied where it is opened so, and is open to be written then.
#[tactic(auto, using(crate::proofs::FileSampling::file_emptied))]
pub fn emptying()
    ensures { core with_open (lopen 8 513)
        ≡ (
          was_opened file_qid 0,
          record with_open {
            tree =
                with_changed (rewritten_at born (resized 0)) 2 sample;
            fids =
                insert with_open.fids 8 (record { ino = 2; open_state = Opened 1 false });
          },
        ) }
{}

/// A new file, which the fid names then; in what is no directory, with a bad name, with an access
/// that there isn't, of a name that is there, and by a fid that isn't.
#[tactic(auto, using(crate::proofs::FileSampling::file_made, crate::proofs::FileSampling::made_in_file, crate::proofs::FileSampling::made_above, crate::proofs::FileSampling::made_for_nothing, crate::proofs::FileSampling::made_again, crate::proofs::FileSampling::made_nowhere))]
pub fn creating()
    ensures made { core server (lcreate 7 (codes "...") 1 420 0)
        ≡ (
          created (0, (7, 3)) 0,
          record server {
            tree =
                with_new sample 1 (codes "...") (empty_file born 420);
            fids =
                insert server.fids 7 (record { ino = 3; open_state = Opened 1 false });
          },
        ) }
    ensures in_file { core with_open (lcreate 8 (codes "..") 3 420 0)
        ≡ (lerror ENOTDIR, with_open) }
    ensures above { core server (lcreate 7 (codes "..") 0 420 0) ≡ (lerror EINVAL, server) }
    ensures no_access { core server (lcreate 7 (codes "...") 3 420 0) ≡ (lerror EINVAL, server) }
    ensures there { core server (lcreate 7 hello 0 420 0) ≡ (lerror EEXIST, server) }
    ensures unknown { core server (lcreate 9 (codes "..") 3 420 0) ≡ (lerror EBADF, server) }
{}

/// Bytes go where they are told to, or to the file's end; as many are written as end by the limit
/// of 8. A fid that is open to be read, or isn't open, writes none.
#[tactic(auto, using(crate::proofs::FileSampling::written_within, crate::proofs::FileSampling::written_behind, crate::proofs::FileSampling::written_part, crate::proofs::FileSampling::written_read_only, crate::proofs::FileSampling::written_closed))]
pub fn writing()
    ensures within { core (with_writer false) (write 8 1 (codes "xy"))
        ≡ (
          written 2,
          record (with_writer false) {
            tree =
                with_changed (overwritten_at born 1 (codes "xy")) 2 sample;
          },
        ) }
    ensures behind { core (with_writer true) (write 8 1 (codes "xy"))
        ≡ (
          written 2,
          record (with_writer true) {
            tree =
                with_changed (overwritten_at born 5 (codes "xy")) 2 sample;
          },
        ) }
    ensures part { core (with_writer false) (write 8 7 (codes "xy"))
        ≡ (
          written 1,
          record (with_writer false) {
            tree =
                with_changed (overwritten_at born 7 (codes "x")) 2 sample;
          },
        ) }
    ensures to_read { core with_open (write 8 1 (codes "xy")) ≡ (lerror EBADF, with_open) }
    ensures closed { core server (write 7 1 (codes "xy")) ≡ (lerror EBADF, server) }
{}

/// A mode and a size of a directory: the mode is set, and stays where the size is refused; no bits
/// change nothing.
#[tactic(auto, using(crate::proofs::FileSampling::mode_set_alone, crate::proofs::FileSampling::nothing_set, crate::proofs::FileSampling::set_nowhere))]
pub fn setting_attributes()
    ensures mode_alone { core server (setattr 7 9 448 0 0 0 0 0 0 0)
        ≡ (lerror EISDIR, record server { tree = with_changed (remoded 448 born) 1 sample }) }
    ensures nothing { core server (setattr 7 0 448 0 0 0 0 0 0 0) ≡ (were_set, server) }
    ensures unknown { core server (setattr 9 9 448 0 0 0 0 0 0 0) ≡ (lerror EBADF, server) }
{}
