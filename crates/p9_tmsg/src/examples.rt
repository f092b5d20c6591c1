//! Frames as bytes, computed. Each function makes no call: its contract is the example.
ghost use Rattle.std.specs.Prelude.{◌≡◌, [], ◌∷◌};
ghost use Rattle.p9_tmsg.specs.Messages.Message.{walk, clunk};
ghost use Rattle.p9_tmsg.specs.Frames.{message_frame};

/// A walk from fid 1 by the name `a`, which is to be fid 2, under tag 3.
#[tactic(auto, using(crate::proofs::ByComputing::twalk_example))]
pub fn walk_to_one_name()
    ensures { message_frame 3 (walk 1 2 ((97 ∷ []) ∷ [])) ≡ 20 ∷ 0 ∷ 0 ∷ 0 ∷ 110 ∷ 3 ∷ 0 ∷ 1 ∷ 0
        ∷ 0 ∷ 0 ∷ 2 ∷ 0 ∷ 0 ∷ 0 ∷ 1 ∷ 0 ∷ 1 ∷ 0 ∷ 97 ∷ [] }
{}

/// Fid 5 is let go, under tag 258.
#[tactic(auto, using(crate::proofs::ByComputing::tclunk_example))]
pub fn clunk_of_one_fid()
    ensures { message_frame 258 (clunk 5) ≡ 11 ∷ 0 ∷ 0 ∷ 0 ∷ 120 ∷ 2 ∷ 1 ∷ 5 ∷ 0 ∷ 0 ∷ 0 ∷ [] }
{}
