//! The definitions of this crate at examples. Each function makes no call: its contract is the
//! example.
ghost use Rattle.std.specs.Prelude.{◌≡◌, ℕ, List, [], ◌∷◌, codes, Some, None, Ok, Err, true, false};
ghost use Rattle.tree_model.specs.declared.attributes.Kind.{Kind};
ghost use Rattle.tree_model.specs.declared.attributes.Stamp.{Stamp};
ghost use Rattle.std.specs.FinMap as map;
ghost use Rattle.mount9_run.specs.Command.{command, owners_of, with_owner};
ghost use Rattle.mount9_run.specs.Header.{header};
ghost use Rattle.mount9_run.specs.HeaderLines.{present_at};
ghost use Rattle.mount9_run.specs.HeaderRecords.{file_at};
ghost use Rattle.mount9_run.specs.HeaderRecords.Item.{file};
ghost use Rattle.mount9_run.specs.Outcome.{outcome};
ghost use Rattle.mount9_run.specs.declared.run.Status.TheVariants as status;
ghost use Rattle.mount9_run.specs.ReportLines.{entry_line, directory_line, stamp_text};

/// A share of the whole tree at `/mnt`, with and without numbers; a message size of 255 is refused.
#[tactic(auto, using(crate::proofs::ByComputing::command_example, crate::proofs::ByComputing::numbers_example, crate::proofs::ByComputing::msize_refused, crate::proofs::ByComputing::owners_example, crate::proofs::ByComputing::owner_example, crate::proofs::ByComputing::again_example))]
pub fn a_share_at_mnt()
    ensures plain { command (codes "serve" ∷ codes "target=/mnt" ∷ codes "root=/" ∷ [])
        ≡ Some
        (record {
          target = codes "/mnt";
          root = codes "/";
          msize = 65560;
          turns = 4096;
          ids = 1024;
          uid_map = map.empty;
          gid_map = map.empty;
          casefold = false;
        }) }
    ensures numbers { command (codes "serve" ∷ codes "ids=0" ∷ codes "root=/" ∷ codes "msize=4352"
        ∷ codes "target=/" ∷ codes "casefold=true" ∷ [])
        ≡ Some (record {
          target = codes "/";
          root = codes "/";
          msize = 4352;
          turns = 4096;
          ids = 0;
          uid_map = map.empty;
          gid_map = map.empty;
          casefold = true;
        }) }
    ensures short { command (codes "serve" ∷ codes "target=/" ∷ codes "root=/" ∷ codes "msize=255"
        ∷ []) ≡ None }
    ensures owners { owners_of (codes "1000:0") ≡ Some (1000, 0) }
    ensures owner { with_owner map.empty (Some (1000, 0)) ≡ Some (map.insert map.empty 1000 0) }
    ensures again { with_owner (map.insert map.empty 1000 0) (Some (1000, 5)) ≡ None }
{}

/// A header whose second line tells no nanoseconds is refused at that line.
#[tactic(auto, using(crate::proofs::ByComputing::header_example))]
pub fn a_header_without_nanoseconds()
    ensures { header (codes "mount9 1\nmoment 1700000000\nend\n") ≡ Err 2 }
{}

/// Text without a line `end` is no header.
#[tactic(auto, using(crate::proofs::ByComputing::endless_example))]
pub fn a_header_without_end()
    ensures { header (codes "mount9 1\nending\nend") ≡ Err 0 }
{}

/// A directory with a blank in its name, as the header's sixth line tells it.
#[tactic(auto, using(crate::proofs::HeaderExamples::blank_example))]
pub fn a_path_with_an_escaped_blank()
    ensures { present_at 6 [] (codes "present /a\\040b") ≡ Ok (Some (codes "/a b" ∷ [])) }
{}

/// A backslash that begins no escape is refused.
#[tactic(auto, using(crate::proofs::HeaderExamples::backslash_example))]
pub fn a_path_with_a_raw_backslash()
    ensures { present_at 6 [] (codes "present /a\\b") ≡ Err 6 }
{}

/// A letter has no escape, so three digits that would tell one are refused.
#[tactic(auto, using(crate::proofs::HeaderExamples::other_byte_example))]
pub fn a_path_with_an_escaped_letter()
    ensures { present_at 6 [] (codes "present /\\141") ≡ Err 6 }
{}

/// A file with a blank in its name.
#[tactic(auto, using(crate::proofs::HeaderExamples::file_example))]
pub fn a_file_with_an_escaped_blank()
    ensures { file_at 7 (codes "0644 0 0 - /a\\040b") ≡ Ok (record {
      item = file (record { mode = 420; uid = 0; gid = 0; bytes = [] });
      path = codes "/a b";
    }) }
{}

/// A blank in a file's path has to be escaped.
#[tactic(auto, using(crate::proofs::HeaderExamples::raw_blank_example))]
pub fn a_file_with_a_raw_blank()
    ensures { file_at 7 (codes "0644 0 0 - /a b") ≡ Err 7 }
{}

/// The line of a directory's entry, with the blank in its name escaped.
#[tactic(auto, using(crate::proofs::ByComputing::entry_example))]
pub fn an_entry_with_a_blank()
    ensures { entry_line 1 1 2 (codes "my file") ≡ codes "in 1 1 2 my\\040file\n" }
{}

/// The line of a directory.
#[tactic(auto, using(crate::proofs::ByComputing::directory_example))]
pub fn a_directory_of_one_entry()
    ensures { (kind : Kind) (born : Stamp) → stamp_text born ≡ codes "1600000000.000000005"
        → directory_line
        (record {
          ino = 1;
          kind = kind;
          mode = 493;
          uid = 0;
          gid = 0;
          links = 2;
          size = 0;
          atime =
              born;
          mtime = born;
          ctime = born;
        }) 1 2
        ≡ codes
        "dir 1 0755 0 0 2 1600000000.000000005 1600000000.000000005 1600000000.000000005 1 2\n" }
{}

/// Nanoseconds have nine digits.
#[tactic(auto, using(crate::proofs::ByComputing::stamp_example))]
pub fn a_moment_of_five_nanoseconds()
    ensures { stamp_text (record { sec = 1600000000; nsec = 5 }) ≡ codes "1600000000.000000005" }
{}

/// Words without a root are refused, whatever the input.
#[tactic(auto, using(crate::proofs::ByComputing::words_outcome))]
pub fn words_without_a_root()
    ensures { (bytes : List ℕ) → outcome (codes "serve" ∷ codes "target=/mnt" ∷ []) bytes
        ≡ (status.Words, codes "words\n") }
{}

/// A run on a header that is refused tells the line.
#[tactic(auto, using(crate::proofs::ByComputing::header_outcome))]
pub fn a_run_on_a_refused_header()
    ensures { outcome (codes "serve" ∷ codes "target=/mnt" ∷ codes "root=/" ∷ [])
        (codes "mount9 1\nmoment 1700000000\nend\n") ≡ (status.Header, codes "header 2\n") }
{}
