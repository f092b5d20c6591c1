//! Definitions computed on a small tree: a top directory with the file `hello`, inode 2, of five
//! bytes.
ghost use Rattle.std.specs.Prelude.{◌≡◌, ◌/◌, ℕ, Bool, true, false, Ok, Err, Some, None, [], ◌∷◌};
ghost use Rattle.std.specs.Prelude.{codes};
ghost use Rattle.std.specs.FinMap.{insert, empty};
ghost use Rattle.port_base.specs.declared.errno.TheConstants.{EPERM, ENOENT, EEXIST, ENOTDIR};
ghost use Rattle.port_base.specs.declared.errno.TheConstants.{EISDIR, EINVAL, EFBIG, ENOTEMPTY};
ghost use Rattle.port_base.specs.declared.errno.TheConstants.{ELOOP, EOPNOTSUPP};
ghost use Rattle.tree_model.specs.declared.attributes.Kind.TheVariants as kind;
ghost use Rattle.tree_model.specs.Samples.{born, alone, sample, hello, alike, world};
ghost use Rattle.tree_model.specs.Tree.{keep};
ghost use Rattle.tree_model.specs.Tree.Body.{File, Directory, Link};
ghost use Rattle.tree_model.specs.Making.{top_record, joined_by, file_record};
ghost use Rattle.tree_model.specs.Finding.{find, lookup_of, root_of, ino_among};
ghost use Rattle.tree_model.specs.Finding.{folded_name_among};
ghost use Rattle.tree_model.specs.Reading.{above_of, entry_after_of, next_cookie_of};
ghost use Rattle.tree_model.specs.Settings.{mapped};
ghost use Rattle.tree_model.specs.Pages.{front_within, last_cookie, page_of};
ghost use Rattle.tree_model.specs.Placing.{add_directory_of, add_link_of, add_hard_of};
ghost use Rattle.tree_model.specs.Placing.{with_record, with_link, directory_record, link_record};
ghost use Rattle.tree_model.specs.Attributing.{resized, written, fitting, set_len_of, write_of};
ghost use Rattle.tree_model.specs.Attributing.{set_times_of, refused_for_link, with_changed};
ghost use Rattle.tree_model.specs.Attributing.{retimed, rewritten_at, set_mode_of, remoded};
ghost use Rattle.tree_model.specs.Attributing.{set_owner_of, owned_by, touch_ctime_of, restamped};
ghost use Rattle.tree_model.specs.AttributeSteps.{new_owner, new_time, size_refused};
ghost use Rattle.tree_model.specs.declared.attributes.TheConstants.{UNCHANGED_ID};
ghost use Rattle.tree_model.specs.declared.attributes.TimeSet.TheVariants.{Keep, Now, At};
ghost use Rattle.tree_model.specs.Opening.{open_check_of, open_refused, read_of, readlink_of};
ghost use Rattle.tree_model.specs.Opening.{readlink_body, found_at};
ghost use Rattle.tree_model.specs.Attributes.{attr_of, entry_type, qid_of, statfs_of, stat_of};
ghost use Rattle.tree_model.specs.Attributes.{type_bits};
ghost use Rattle.tree_model.specs.Creating.{stamped, with_new, with_name, empty_file};
ghost use Rattle.tree_model.specs.Creating.{empty_directory, create_of, mkdir_of, link_of};
ghost use Rattle.tree_model.specs.Unlinking.{without, parted_by, links_left, without_entry};
ghost use Rattle.tree_model.specs.Unlinking.{unless_directory, if_empty, unlink_of, rmdir_of};
ghost use Rattle.tree_model.specs.Renaming.{climbs_past, is_at_or_below, place_refused};
ghost use Rattle.tree_model.specs.Renaming.{has_no_room, placed_below, with_moved, rename_of};

/// Opens of the file and of the directory, and the kinds that flags refuse.
pub fn opening()
    ensures to_read { open_check_of sample 2 0 ≡ Ok tt }
    ensures to_cut { open_check_of sample 2 513 ≡ Ok tt }
    ensures no_access { open_check_of sample 2 3 ≡ Err EINVAL }
    ensures exclusive { open_check_of sample 2 192 ≡ Err EEXIST }
    ensures no_directory { open_check_of sample 2 65536 ≡ Err ENOTDIR }
    ensures directory { open_check_of sample 1 65536 ≡ Ok tt }
    ensures written { open_check_of sample 1 1 ≡ Err EISDIR }
    ensures created { open_check_of sample 1 64 ≡ Err EISDIR }
    ensures link { open_refused 0 kind.Link ≡ Some ELOOP }
{}

/// Parts of the file's bytes, and what has none.
pub fn reading()
    ensures middle { read_of sample 2 1 3 ≡ Ok (codes "orl") }
    ensures end { read_of sample 2 4 8 ≡ Ok (codes "d") }
    ensures beyond { read_of sample 2 9 8 ≡ Ok [] }
    ensures directory { read_of sample 1 0 8 ≡ Err EISDIR }
    ensures no_link { readlink_of sample 2 ≡ Err EINVAL }
    ensures link { readlink_body (Link hello) ≡ Ok hello }
    ensures first { entry_after_of sample 1 0 ≡ Ok
        (Some (record {
          cookie = 1;
          name = hello;
          attr = record {
            ino = 2;
            kind = kind.File;
            mode = 420;
            uid = 5;
            gid = 6;
            links = 1;
            size = 5;
            atime =
                born;
            mtime = born;
            ctime = born;
          };
        })) }
    ensures none_after { entry_after_of sample 1 1 ≡ Ok None }
    ensures no_entries { entry_after_of sample 2 0 ≡ Err ENOTDIR }
    ensures bounds { statfs_of sample ≡ record { blocks = 1; files = 2 } }
{}

/// Pages of the directory, where an entry takes ten bytes.
#[tactic(auto, using(crate::proofs::PageSampling::page_with_room, crate::proofs::PageSampling::page_without_room, crate::proofs::PageSampling::page_past_first, crate::proofs::PageSampling::page_of_file))]
pub fn paging()
    ensures with_room { page_of (λ e. 10) 10 sample 1 0 ≡ (record {
      cookie = 1;
      name = hello;
      attr = attr_of 2 (file_record born world);
    }) ∷ [] }
    ensures without_room { page_of (λ e. 10) 9 sample 1 0 ≡ [] }
    ensures past_first { page_of (λ e. 10) 10 sample 1 1 ≡ [] }
    ensures of_file { page_of (λ e. 10) 10 sample 2 0 ≡ [] }
    ensures fits { front_within (λ n. n) 10 (3 ∷ 4 ∷ 5 ∷ 1 ∷ []) ≡ 3 ∷ 4 ∷ [] }
    ensures last { last_cookie 7 [] ≡ 7 }
    ensures file_type { entry_type kind.File ≡ type_bits kind.File / 4096 }
    ensures directory_type { entry_type kind.Directory ≡ type_bits kind.Directory / 4096 }
    ensures link_type { entry_type kind.Link ≡ type_bits kind.Link / 4096 }
{}

/// What stands at the end of a path, whatever its kind.
pub fn finding()
    ensures file { found_at sample (hello ∷ []) ≡ Some 2 }
    ensures top { found_at sample [] ≡ Some 1 }
    ensures missing { found_at sample (codes "Hello" ∷ []) ≡ None }
    ensures below { found_at sample (hello ∷ hello ∷ []) ≡ None }
{}

/// Names with and without regard to case, the root of a share, and what a directory knows of
/// itself.
#[tactic(auto, using(crate::proofs::Sampling::found, crate::proofs::Sampling::not_found, crate::proofs::Telling::folded_case, crate::proofs::Telling::root_top, crate::proofs::Telling::root_file, crate::proofs::Telling::root_missing, crate::proofs::Telling::above_top, crate::proofs::Telling::next_in_top, crate::proofs::Telling::next_in_file))]
pub fn looking_up()
    ensures exact { lookup_of sample 1 hello ≡ Ok 2 }
    ensures other_case { lookup_of sample 1 (codes "Hello") ≡ Err ENOENT }
    ensures folded { find true sample 1 (codes "Hello") ≡ Ok 2 }
    ensures root { root_of sample [] ≡ Ok 1 }
    ensures root_file { root_of sample (hello ∷ []) ≡ Err ENOTDIR }
    ensures root_missing { root_of sample (codes "b" ∷ []) ≡ Err ENOENT }
    ensures above { above_of sample 1 ≡ 1 }
    ensures next_cookie { next_cookie_of sample 1 ≡ 2 }
    ensures no_cookie { next_cookie_of sample 2 ≡ 0 }
{}

/// Of names that differ in case alone: the exact one, then the first in the order of cookies.
pub fn folding()
    ensures first { ino_among true (codes "README") (Some alike) ≡ Ok 2 }
    ensures second { ino_among true (codes "readme") (Some alike) ≡ Ok 3 }
    ensures neither { ino_among true (codes "Readme") (Some alike) ≡ Ok 2 }
    ensures exactly { ino_among false (codes "Readme") (Some alike) ≡ Err ENOENT }
    ensures other { ino_among true (codes "Reader") (Some alike) ≡ Err ENOENT }
    ensures written { folded_name_among (codes "Readme") (Some alike) ≡ Ok (codes "README") }
{}

/// What is told of the file: by `stat`, as a qid, and with the owner that a map gives.
#[tactic(auto, using(crate::proofs::Sampling::told, crate::proofs::Telling::owner_mapped, crate::proofs::Telling::owner_stays))]
pub fn telling()
    ensures told { stat_of sample 2 ≡ Ok (record {
      ino = 2;
      kind = kind.File;
      mode = 420;
      uid = 5;
      gid = 6;
      links = 1;
      size = 5;
      atime =
          born;
      mtime = born;
      ctime = born;
    }) }
    ensures qid { qid_of (record {
      ino = 2;
      kind = kind.Directory;
      mode = 420;
      uid = 5;
      gid = 6;
      links = 1;
      size = 5;
      atime = born;
      mtime = record { sec = 4294967303; nsec = 1 };
      ctime =
          born;
    }) ≡ (128, (7, 2)) }
    ensures mapped { mapped (insert empty 5 50) 5 ≡ 50 }
    ensures unmapped { mapped empty 5 ≡ 5 }
{}

/// Modes, owners and ctimes that are set, and what isn't there.
#[tactic(auto, using(crate::proofs::Telling::mode_set, crate::proofs::Telling::mode_missing, crate::proofs::Telling::owner_set, crate::proofs::Telling::owner_missing, crate::proofs::Telling::ctime_set, crate::proofs::Telling::ctime_missing))]
pub fn stamping()
    ensures mode { remoded 33206 (record { sec = 9; nsec = 0 }) (top_record born 493 1 2) ≡ record
        (top_record born 493 1 2) { mode = 438; ctime = record { sec = 9; nsec = 0 } } }
    ensures file_mode { set_mode_of sample 2 384 ≡ Ok
        (tt, with_changed (remoded 384 born) 2 sample) }
    ensures missing_mode { set_mode_of sample 3 384 ≡ Err ENOENT }
    ensures owner { owned_by (Some 8) None (record { sec = 9; nsec = 0 }) (top_record born 493 1 2)
        ≡ record (top_record born 493 1 2) { uid = 8; ctime = record { sec = 9; nsec = 0 } } }
    ensures file_owner { set_owner_of sample 2 None (Some 8) ≡ Ok
        (tt, with_changed (owned_by None (Some 8) born) 2 sample) }
    ensures missing_owner { set_owner_of sample 3 None None ≡ Err ENOENT }
    ensures ctime { restamped (record { sec = 9; nsec = 0 }) (top_record born 493 1 2) ≡ record
        (top_record born 493 1 2) { ctime = record { sec = 9; nsec = 0 } } }
    ensures file_ctime { touch_ctime_of sample 2 ≡ Ok (tt, with_changed (restamped born) 2 sample) }
    ensures missing_ctime { touch_ctime_of sample 3 ≡ Err ENOENT }
{}

/// Records and names that are added beside the file, and what is refused.
pub fn adding()
    ensures directory { add_directory_of born sample 1 (codes "d") 493 0 0 ≡ Ok
        (3, with_record sample 1 (codes "d") (directory_record born 493 0 0 1)) }
    ensures link { add_link_of born sample 1 (codes "l") 0 0 hello ≡ Ok
        (3, with_record sample 1 (codes "l") (link_record born 0 0 hello)) }
    ensures there { add_directory_of born sample 1 hello 493 0 0 ≡ Err EEXIST }
    ensures below_file { add_directory_of born sample 2 (codes "d") 493 0 0 ≡ Err ENOTDIR }
    ensures name { add_hard_of sample 1 (codes "b") 2 ≡ Ok (2, with_link sample 1 (codes "b") 2) }
    ensures name_there { add_hard_of sample 1 hello 2 ≡ Err EEXIST }
    ensures name_of_directory { add_hard_of sample 1 (codes "b") 1 ≡ Err EPERM }
{}

/// Bytes that are cut, filled and written over, and what is refused.
pub fn changing()
    ensures cut { resized 2 (codes "hello") ≡ codes "he" }
    ensures filled { resized 4 (codes "hi") ≡ 104 ∷ 105 ∷ 0 ∷ 0 ∷ [] }
    ensures over { written 1 (codes "XY") (codes "hello") ≡ codes "hXYlo" }
    ensures gap { written 3 (codes "z") (codes "a") ≡ 97 ∷ 0 ∷ 0 ∷ 122 ∷ [] }
    ensures long { set_len_of sample 2 9 ≡ Err EFBIG }
    ensures directory { set_len_of sample 1 0 ≡ Err EISDIR }
    ensures link { refused_for_link (Link hello) ≡ Some EOPNOTSUPP }
    ensures beyond { write_of sample 2 8 (codes "z") ≡ Err EFBIG }
    ensures nothing { write_of sample 2 9 [] ≡ Ok (0, sample) }
    ensures fits { fitting 8 6 (codes "xyz") ≡ codes "xy" }
    ensures over_file { write_of sample 2 6 (codes "xyz") ≡ Ok
        (2, with_changed (rewritten_at born (written 6 (codes "xy"))) 2 sample) }
    ensures onto_directory { write_of sample 1 0 (codes "z") ≡ Err EISDIR }
    ensures times { set_times_of sample 2 Keep Now ≡ Ok
        (tt, with_changed (retimed Keep Now born) 2 sample) }
    ensures late { set_times_of sample 2 Keep (At (record { sec = 0; nsec = 1000000000 })) ≡ Err
        EINVAL }
{}

/// Names that are taken away, whatever is held, and what is refused.
pub fn unlinking()
    ensures rest { without hello (record { cookie = 1; name = hello; ino = 2 } ∷ record
        { cookie = 2; name = codes "b"; ino = 3 } ∷ []) ≡ record
        { cookie = 2; name = codes "b"; ino = 3 } ∷ [] }
    ensures file { (held : ℕ → Bool) → unlink_of held sample 1 hello ≡ Ok
        (tt, keep held (without_entry sample 1 hello 2)) }
    ensures missing { (held : ℕ → Bool) → unlink_of held sample 1 (codes "b") ≡ Err ENOENT }
    ensures below_file { (held : ℕ → Bool) → unlink_of held sample 2 hello ≡ Err ENOTDIR }
    ensures directory { unless_directory sample.records (Ok 1) ≡ Err EISDIR }
{}

/// What is created, made or linked beside the file, and what is refused.
pub fn creating()
    ensures file { create_of sample 1 (codes "b") 33261 ≡ Ok
        (3, with_new sample 1 (codes "b") (empty_file born 493)) }
    ensures there { create_of sample 1 hello 420 ≡ Err EEXIST }
    ensures below_file { create_of sample 2 (codes "b") 420 ≡ Err ENOTDIR }
    ensures directory { mkdir_of sample 1 (codes "d") 493 ≡ Ok (
      record {
        ino = 3;
        kind = kind.Directory;
        mode = 493;
        uid = 0;
        gid = 0;
        links = 2;
        size =
            0;
        atime = born;
        mtime = born;
        ctime = born;
      },
      with_new sample 1 (codes "d")
          (empty_directory born 493 1),
    ) }
    ensures directory_there { mkdir_of sample 1 hello 493 ≡ Err EEXIST }
    ensures name { link_of sample 2 1 (codes "b") ≡ Ok (tt, with_name sample 1 (codes "b") 2) }
    ensures name_there { link_of sample 2 1 hello ≡ Err EEXIST }
    ensures name_of_directory { link_of sample 1 1 (codes "b") ≡ Err EPERM }
    ensures stamps { stamped (record { sec = 9; nsec = 0 }) (top_record born 493 1 2) ≡ record
        (top_record born 493 1 2) {
          mtime = record { sec = 9; nsec = 0 };
          ctime = record
              { sec = 9; nsec = 0 };
        } }
{}

/// Directories that are taken away, whatever is held, and what is refused.
pub fn removing()
    ensures empty { if_empty alone.records (Ok 1) ≡ Ok 1 }
    ensures filled { if_empty sample.records (Ok 1) ≡ Err ENOTEMPTY }
    ensures file { (held : ℕ → Bool) → rmdir_of held sample 1 hello ≡ Err ENOTDIR }
    ensures missing { (held : ℕ → Bool) → rmdir_of held sample 1 (codes "b") ≡ Err ENOENT }
    ensures below_file { (held : ℕ → Bool) → rmdir_of held sample 2 hello ≡ Err ENOTDIR }
    ensures directory_links { links_left (Directory [] 1 1) 2 ≡ 0 }
    ensures file_links { links_left (Link hello) 2 ≡ 1 }
{}

/// Names that move, whatever is held, and what is refused.
pub fn renaming()
    ensures file { (held : ℕ → Bool) → rename_of held sample 1 hello 1 (codes "b") ≡ Ok
        (tt, keep held (with_moved sample 1 hello 1 (codes "b") 2)) }
    ensures new_cookie { (joined_by (codes "b") 2
        (parted_by hello born (joined_by hello 2 (top_record born 493 1 2)))).body ≡ Directory
        (record { cookie = 2; name = codes "b"; ino = 2 } ∷ []) 3 1 }
    ensures same { (held : ℕ → Bool) → rename_of held sample 1 hello 1 hello ≡ Ok (tt, sample) }
    ensures missing { (held : ℕ → Bool) → rename_of held sample 1 (codes "b") 1 hello ≡ Err ENOENT }
    ensures from_file { (held : ℕ → Bool) → rename_of held sample 2 hello 1 hello ≡ Err ENOTDIR }
    ensures into_file { (held : ℕ → Bool) → rename_of held sample 1 hello 2 hello ≡ Err ENOTDIR }
    ensures into_itself { is_at_or_below sample 1 1 ≡ true }
    ensures file_is_nowhere { is_at_or_below sample 2 1 ≡ false }
    ensures climb { climbs_past sample.records 2 1 1 ≡ true }
    ensures onto_file { place_refused (Some (Directory [] 1 1)) (Some (File [])) ≡ Some ENOTDIR }
    ensures onto_directory { place_refused (Some (File [])) (Some (Directory [] 1 1))
        ≡ Some EISDIR }
    ensures onto_filled { place_refused (Some (Directory [] 1 1))
        (Some (Directory (record { cookie = 1; name = hello; ino = 2 } ∷ []) 2 1))
        ≡ Some ENOTEMPTY }
    ensures onto_empty { place_refused (Some (Directory [] 1 1)) (Some (Directory [] 1 1)) ≡ None }
    ensures full { has_no_room 0 true (Directory [] 1 1) ≡ true }
    ensures as_many { has_no_room 0 false (Directory [] 1 1) ≡ false }
    ensures below { placed_below 7 (Directory [] 1 1) ≡ Directory [] 1 7 }
{}

/// Attributes that are set: who owns a file, what becomes of a time, and what refuses a size.
pub fn new_attributes()
    ensures owner { new_owner true 5 ≡ Some 5 }
    ensures same_owner { new_owner true UNCHANGED_ID ≡ None }
    ensures no_owner { new_owner false 5 ≡ None }
    ensures kept { new_time false true born ≡ Keep }
    ensures moment { new_time true false born ≡ Now }
    ensures given { new_time true true born ≡ At born }
    ensures to_read { size_refused true (File []) ≡ Some EINVAL }
    ensures to_write { size_refused false (File []) ≡ None }
    ensures directory { size_refused false (Directory [] 1 1) ≡ Some EISDIR }
    ensures link { size_refused false (Link []) ≡ Some ELOOP }
{}
