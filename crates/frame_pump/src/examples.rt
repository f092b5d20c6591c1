//! Counts of a session, and the first frames of an input, computed.
ghost use Rattle.std.specs.Prelude.{◌≡◌, ◌-◌, ◌^◌, ◌++◌, [], ◌∷◌, Some, None};
ghost use Rattle.fuse_wire.specs.Samples.{least};
ghost use Rattle.frame_pump.specs.Sessions.{Counted, Met};
ghost use Rattle.frame_pump.specs.Turns.{AreFirst};

/// A count goes up by what is counted, and stays at its greatest once there.
#[tactic(auto, using(crate::proofs::Sampling::not_less))]
fn counting()
    ensures up { Counted 2 3 5 }
    ensures not_less { Counted 2 3 4 → ⊥ }
    ensures to_greatest { Counted (2 ^ 64 - 2) 5 (2 ^ 64 - 1) }
    ensures stays { Counted (2 ^ 64 - 1) 1 (2 ^ 64 - 1) }
    ensures met { Met 2 1 3 }
    ensures met_more { Met 2 1 4 }
    ensures met_at_greatest { Met (2 ^ 64 - 1) 1 (2 ^ 64 - 1) }
{}

/// The first of two frames of an input; where an input doesn't tell its bytes, nothing is said.
#[tactic(auto, using(crate::proofs::Sampling::first_frame, crate::proofs::Sampling::first_of_one_turn))]
fn first_frames()
    ensures none { AreFirst (Some (least ++ least)) 9 [] }
    ensures first { AreFirst (Some (least ++ least)) 9 (least ∷ []) }
    ensures one_turn { AreFirst (Some (least ++ 1 ∷ [])) 1 (least ∷ []) }
    ensures untold { AreFirst None 9 (least ∷ []) }
{}
