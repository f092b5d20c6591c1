//! What a host in memory goes by, computed: holds, walks along paths, changes of a record and
//! items that are added. The tree is a top directory with the file `hello`, inode 2, of five
//! bytes.
ghost use Rattle.std.specs.Prelude.{◌≡◌, true, false, Ok, Err, Some, None, [], ◌∷◌, codes};
ghost use Rattle.std.specs.FinMap.{empty};
ghost use Rattle.port_base.specs.declared.errno.TheConstants.{EEXIST, EFBIG, ENOENT, ENOTDIR};
ghost use Rattle.port_base.specs.declared.errno.TheConstants.{EOPNOTSUPP, EPERM};
ghost use Rattle.tree_model.specs.Samples.{born, sample, hello};
ghost use Rattle.tree_model.specs.Tree.Body.{File, Link};
ghost use Rattle.tree_model.specs.Placing.{with_record, with_link, directory_record};
ghost use Rattle.tree_model.specs.Attributing.{with_changed};
ghost use Rattle.tree_host.specs.Holds.{hold_count, is_held, held_more, held_less};
ghost use Rattle.tree_host.specs.NamePlaces.{place_among};
ghost use Rattle.tree_host.specs.Walking.{walk_of};
ghost use Rattle.tree_host.specs.Changing.{change_of, change_refused, changed_by, is_small};
ghost use Rattle.tree_host.specs.TreeHosts.{add_of};
ghost use Rattle.tree_host.specs.declared.change.Change.TheVariants.{Mode, Len};
ghost use Rattle.tree_host.specs.declared.memory.NewItem.TheVariants.{Dir, Hard};

/// An inode is held as often as it was, less what was given back; the last hold takes it away.
#[tactic(auto, using(crate::proofs::Sampling::none_held, crate::proofs::Sampling::held_once, crate::proofs::Sampling::held_twice, crate::proofs::Sampling::one_left, crate::proofs::Sampling::none_left, crate::proofs::Sampling::not_held))]
pub fn holding()
    ensures none { hold_count empty 2 ≡ 0 }
    ensures once { hold_count (held_more empty 2) 2 ≡ 1 }
    ensures twice { hold_count (held_more (held_more empty 2) 2) 2 ≡ 2 }
    ensures one_left { hold_count (held_less (held_more (held_more empty 2) 2) 2) 2 ≡ 1 }
    ensures none_left { is_held (held_less (held_more empty 2) 2) 2 ≡ false }
    ensures another { is_held (held_more empty 2) 3 ≡ false }
{}

/// Directories at the ends of paths; parts between slashes that are empty lead nowhere else.
#[tactic(auto, using(crate::proofs::Sampling::to_top, crate::proofs::Sampling::to_file, crate::proofs::Sampling::to_none, crate::proofs::Sampling::below_file))]
pub fn walking()
    ensures top { walk_of sample.records (codes "//") ≡ Ok 1 }
    ensures file { walk_of sample.records (codes "/hello/") ≡ Err ENOTDIR }
    ensures missing { walk_of sample.records (codes "/b") ≡ Err ENOENT }
    ensures below { walk_of sample.records (codes "/hello/b") ≡ Err ENOTDIR }
    ensures place { place_among (codes "b") (record { cookie = 1; name = hello; ino = 2 }
        ∷ record { cookie = 2; name = codes "b"; ino = 3 } ∷ []) ≡ Some 1 }
    ensures no_place { place_among (codes "B") (record { cookie = 2; name = codes "b"; ino = 3 }
        ∷ []) ≡ None }
{}

/// Changes of the file's record, and what refuses them.
#[tactic(auto, using(crate::proofs::Sampling::mode_changed, crate::proofs::Sampling::too_long))]
pub fn changing()
    ensures mode { change_of (Mode 384) sample 2
        ≡ Ok (tt, with_changed (changed_by (Mode 384) born) 2 sample) }
    ensures long { change_of (Len 9) sample 2 ≡ Err EFBIG }
    ensures long_body { change_refused (Len 9) 8 (File hello) ≡ Some EFBIG }
    ensures link { change_refused (Mode 384) 8 (Link hello) ≡ Some EOPNOTSUPP }
    ensures small { is_small (Mode 384) ≡ true }
    ensures large { is_small (Len 4) ≡ false }
{}

/// A directory beside the file, a further name of the file, and what is refused.
#[tactic(auto, using(crate::proofs::Sampling::directory_added, crate::proofs::Sampling::name_added, crate::proofs::Sampling::name_there, crate::proofs::Sampling::of_directory))]
pub fn adding()
    ensures directory { add_of born sample 1 (codes "d") (Dir 493 0 0)
        ≡ Ok (3, with_record sample 1 (codes "d") (directory_record born 493 0 0 1)) }
    ensures name { add_of born sample 1 (codes "b") (Hard 2)
        ≡ Ok (2, with_link sample 1 (codes "b") 2) }
    ensures there { add_of born sample 1 hello (Hard 2) ≡ Err EEXIST }
    ensures of_directory { add_of born sample 1 (codes "b") (Hard 1) ≡ Err EPERM }
{}
