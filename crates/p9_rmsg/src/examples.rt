//! Frames as bytes, computed. Each function makes no call: its contract is the example.
ghost use Rattle.std.specs.Prelude.{◌≡◌, [], ◌∷◌};
ghost use Rattle.p9_rmsg.specs.Replies.Reply.{lerror, walk};
ghost use Rattle.p9_rmsg.specs.Frames.{reply_frame};

/// ENOENT, under tag 258.
#[tactic(auto, using(crate::proofs::ByComputing::rlerror_example))]
pub fn refused_with_enoent()
    ensures { reply_frame 258 (lerror 2) ≡ 11 ∷ 0 ∷ 0 ∷ 0 ∷ 7 ∷ 2 ∷ 1 ∷ 2 ∷ 0 ∷ 0 ∷ 0 ∷ [] }
{}

/// One directory was walked to, inode 2 in version 1, under tag 3.
#[tactic(auto, using(crate::proofs::ByComputing::rwalk_example))]
pub fn walked_to_one_directory()
    ensures { reply_frame 3 (walk ((128, (1, 2)) ∷ [])) ≡ 22 ∷ 0 ∷ 0 ∷ 0 ∷ 111 ∷ 3 ∷ 0 ∷ 1 ∷ 0
        ∷ 128 ∷ 1 ∷ 0 ∷ 0 ∷ 0 ∷ 2 ∷ 0 ∷ 0 ∷ 0 ∷ 0 ∷ 0 ∷ 0 ∷ 0 ∷ [] }
{}
