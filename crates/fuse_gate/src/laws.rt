//! Laws over gates and the trees below them. Each function makes no call: its contract is the law.
ghost use Rattle.std.specs.Prelude.{◌≡◌, ◌||◌, ℕ, List, is_some};
ghost use Rattle.std.specs.FinMap as map;
ghost use Rattle.tree_model.specs.Tree.{Tree, linked, is_linked};
ghost use Rattle.tree_model.specs.Finding.{root_of};
ghost use Rattle.tree_machine.specs.State.{is_named};
ghost use Rattle.fid_model.specs.Fids.{ServerState, IsGoodServer};
ghost use Rattle.tree_machine.specs.Kinds.{KeepsKinds};
ghost use Rattle.fuse_gate.specs.Standing.{ArePaired, IsInStep, machine_of};
ghost use Rattle.fuse_gate.specs.declared.gate.Gate.{Gate};

/// A path leads to the same directory in a tree and in what is linked of it.
pub fn roots_are_linked()
    ensures { (t : Tree) (names : List (List ℕ)) → root_of (linked t) names ≡ root_of t names }
{}

/// Where a gate and a server stand for a state, a record is stored exactly where it is linked, or
/// a node or a handle names it.
pub fn stored_are_linked_or_named()
    ensures { (g : Gate) (s : ServerState) → IsInStep g s → IsGoodServer s → (i : ℕ) →
        is_some (map.get s.tree.records i)
        ≡ (is_linked s.tree.records i
        || is_named (machine_of g s).nodes (machine_of g s).handles i) }
{}

/// A change of the tree alone that keeps what is stored of its kind leaves a gate and a server
/// paired.
pub fn changed_trees_stay_paired()
    ensures { (g : Gate) (s : ServerState) (u : Tree) → IsInStep g s → KeepsKinds s.tree u →
        ArePaired g (record s { tree = u }) }
{}
