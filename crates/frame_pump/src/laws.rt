//! Laws over frames that were answered. Each function makes no call: its contract is the law.
ghost use Rattle.std.specs.Prelude.{◌≡◌, ◌<◌, ◌-◌, ◌^◌, ◌++◌, ◌∷◌, [], ℕ, List};
ghost use Rattle.tree_machine.specs.Play.{play_from};
ghost use Rattle.tree_machine.specs.Messages.{messages_from};
ghost use Rattle.frame_pump.specs.Sessions.{Session, Counted, Answers, Answered};

/// Where no fault was counted, the replies to frames, the state behind them and the number of
/// messages are the machine's.
pub fn unfailing_runs_are_plays()
    ensures { (s0 s1 : Session) (frames : List (List ℕ)) (replies : List ℕ) →
        Answered s0 s1 frames replies → s1.faults ≡ s0.faults → s0.faults < 2 ^ 64 - 1 →
        (replies ≡ (play_from s0.settings s0.state frames).0)
        × (s1.state ≡ (play_from s0.settings s0.state frames).1)
        × Counted s0.sent (messages_from s0.piece s0.settings s0.state frames) s1.sent
        × Counted s0.asked (messages_from s0.piece s0.settings s0.state frames) s1.asked }
{}

/// A frame that is answered behind others is one of them.
pub fn one_more_is_answered()
    ensures { (s0 s1 s2 : Session) (frames : List (List ℕ)) (last : List ℕ)
        (replies bytes : List ℕ) →
        Answered s0 s1 frames replies → Answers s1 s2 last bytes →
        Answered s0 s2 (frames ++ last ∷ []) (replies ++ bytes) }
{}
