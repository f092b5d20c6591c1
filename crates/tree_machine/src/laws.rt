//! Laws over runs of the machine. Each function makes no call: its contract is the law.
ghost use Rattle.std.specs.Prelude.{◌≡◌, ◌+◌, ◌-◌, ◌<◌, ◌≤◌, min, ℕ, List, [], ◌∷◌, length, take};
ghost use Rattle.std.specs.Prelude.{drop, Ok};
ghost use Rattle.tree_model.specs.Tree.{Tree};
ghost use Rattle.tree_model.specs.Good.{IsGoodTree};
ghost use Rattle.tree_model.specs.Finding.{root_of};
ghost use Rattle.tree_model.specs.Settings.{Settings};
ghost use Rattle.tree_machine.specs.State.{MachineState, begun, kept_state};
ghost use Rattle.tree_machine.specs.Forgetting.{forgotten, all_forgotten, pair_of, pairs_of};
ghost use Rattle.tree_machine.specs.Messages.{pieces, gone};
ghost use Rattle.tree_machine.specs.Step.{step, core_step};
ghost use Rattle.tree_machine.specs.Play.{play, play_from, core_play, IsCoreRequest};
ghost use Rattle.tree_machine.specs.Play.{AreCoreRequests};
ghost use Rattle.tree_machine.specs.Good.{IsGoodMachine};
ghost use Rattle.tree_machine.specs.Faults.{Hurt};

/// A step from a good state leads to a good state.
pub fn steps_stay_good()
    ensures { (s : Settings) (m : MachineState) (frame : List ℕ) →
        IsGoodMachine s m → IsGoodMachine s (step s m frame).1 }
{}

/// Each state of a run is good that begins with a good tree, whose root is an inode, and a limit
/// of at least 1.
pub fn plays_stay_good()
    ensures { (s : Settings) (t : Tree) (root : ℕ) (frames : List (List ℕ)) →
        IsGoodTree t → root_of t s.root ≡ Ok root → 1 ≤ s.limit →
        IsGoodMachine s (play_from s (begun t root) frames).1 }
{}

/// On core requests the machine that answers every request takes the steps of the one that answers
/// core requests alone, and so plays the same.
#[tactic(auto, using(crate::proofs::Cores::core_steps, crate::proofs::Cores::core_whole_plays))]
pub fn core_requests_are_answered_alike()
    ensures step { (s : Settings) (m : MachineState) (frame : List ℕ) →
        IsCoreRequest frame → core_step s m frame ≡ step s m frame }
    ensures play { (s : Settings) (t : Tree) (root : ℕ) (frames : List (List ℕ)) →
        AreCoreRequests frames → core_play s t root frames ≡ play s t root frames }
{}

/// A run in which no request met a fault is the machine's: its replies and its last state.
pub fn unhurt_runs_are_plays()
    ensures { (s : Settings) (m last : MachineState) (frames : List (List ℕ)) (replies : List ℕ) →
        Hurt s m frames 0 replies last →
        (replies ≡ (play_from s m frames).0) × (last ≡ (play_from s m frames).1) }
{}

/// How many pieces a reading takes: a piece that is short, or that is all that is left to be asked
/// for, is the last; a full piece is followed by those of the rest.
#[tactic(auto, using(crate::proofs::Pieces::last_short, crate::proofs::Pieces::last_whole, crate::proofs::Pieces::one_more))]
pub fn pieces_are_counted_one_by_one()
    ensures short { (piece size there : ℕ) → there < min size piece → pieces piece size there ≡ 1 }
    ensures whole { (piece size there : ℕ) →
        1 ≤ piece → size ≤ piece → there ≡ size → pieces piece size there ≡ 1 }
    ensures more { (piece size there : ℕ) →
        1 ≤ piece → piece < size → piece ≤ there → there ≤ size →
        pieces piece size there ≡ 1 + pieces piece (size - piece) (there - piece) }
{}

/// The nodes that go with a batch are those of its first pair and those of the others; and the
/// records that nothing names may go before the pairs, too: the same is left.
#[tactic(auto, using(crate::proofs::Forgetting::gone_then, crate::proofs::Batches::kept_between, crate::proofs::Batches::gone_between))]
pub fn batches_go_pair_by_pair()
    ensures counted { (m : MachineState) (p : ℕ × ℕ) (ps : List (ℕ × ℕ)) →
        let one = forgotten m p.0 p.1 in
        gone m (all_forgotten m (p ∷ ps)) ≡ gone m one + gone one (all_forgotten one ps) }
    ensures kept { (m : MachineState) (ps : List (ℕ × ℕ)) → IsGoodTree m.tree →
        kept_state (all_forgotten (kept_state m) ps) ≡ kept_state (all_forgotten m ps) }
    ensures kept_counted { (m : MachineState) (ps : List (ℕ × ℕ)) →
        gone (kept_state m) (all_forgotten (kept_state m) ps) ≡ gone m (all_forgotten m ps) }
{}

/// The pairs of a batch: none in fewer than 16 bytes; else that of the first 16, and those of the
/// rest.
#[tactic(auto, using(crate::proofs::Pairs::no_pair, crate::proofs::Pairs::one_pair))]
pub fn batches_hold_pairs()
    ensures none { (bytes : List ℕ) → length bytes < 16 → pairs_of bytes ≡ [] }
    ensures more { (bytes : List ℕ) →
        16 ≤ length bytes → pairs_of bytes ≡ pair_of (take 16 bytes) ∷ pairs_of (drop 16 bytes) }
{}
