//! The table of mounts at examples. Each function makes no call: its contract is the example.
ghost use Rattle.std.specs.Prelude.{◌≡◌, codes};
ghost use Rattle.libmount.specs.MountTables.{mount, umount};
ghost use Rattle.libmount.specs.WorkedTables.{call, lines_of_bind, lines_of_change, lines_of_first};
ghost use Rattle.libmount.specs.WorkedTables.{lines_of_mounts, lines_of_move, places, printed};
ghost use Rattle.libmount.specs.WorkedTables.{then_step, two_mounts};

/// New file systems, and the refusals of a table.
#[tactic(auto, using(crate::proofs::ComputedTables::mounted, crate::proofs::ComputedTables::not_there, crate::proofs::ComputedTables::busy, crate::proofs::ComputedTables::unmounted))]
pub fn tables_of_new_mounts()
    ensures mounted { printed two_mounts ≡ lines_of_mounts }
    ensures missing { printed (mount (call 0 (codes "t") (codes "/d")) places) ≡ codes "errno 2" }
    ensures busy { printed (then_step two_mounts (umount (codes "/a"))) ≡ codes "errno 16" }
    ensures unmounted { printed (then_step two_mounts (umount (codes "/a/x/"))) ≡ lines_of_first }
{}

/// A bind that copies the mounts below its source, a move, and a change of flags.
#[tactic(auto, using(crate::proofs::ComputedTables::bound_with_all, crate::proofs::ComputedTables::moved, crate::proofs::ComputedTables::changed))]
pub fn tables_of_binds_and_moves()
    ensures bound { printed (then_step two_mounts (mount (call 20480 (codes "/a") (codes "/b c"))))
        ≡ lines_of_bind }
    ensures moved { printed (then_step two_mounts (mount (call 8192 (codes "/a") (codes "/b c"))))
        ≡ lines_of_move }
    ensures changed { printed (then_step two_mounts (mount (call 41 (codes "none") (codes "/a"))))
        ≡ lines_of_change }
{}
