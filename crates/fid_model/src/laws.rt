//! Laws over the fid machine. Each function makes no call: its contract is the law.
ghost use Rattle.std.specs.Prelude.{◌≡◌, ◌⊎◌, ℕ, List, false};
ghost use Rattle.std.specs.declared.option.Option.{Option};
ghost use Rattle.port_base.specs.Faults.{Rose};
ghost use Rattle.p9_wire.specs.Reading.{Found};
ghost use Rattle.p9_tmsg.specs.Messages.{Message};
ghost use Rattle.p9_rmsg.specs.Replies.{Reply};
ghost use Rattle.fid_model.specs.Fids.{ServerState};
ghost use Rattle.fid_model.specs.Answers.{answer};
ghost use Rattle.fid_model.specs.Parts.{changes_tree};
ghost use Rattle.fid_model.specs.Handling.{Replied, Outcome, IsHurtReply};
ghost use Rattle.fid_model.specs.Serving.{serve};

/// Where no fault was counted, what was replied, and the state, are those of the machine on bytes.
pub fn replied_is_served()
    ensures { (s0 s1 : ServerState) (f0 f1 : ℕ) (left0 left1 : Option (List ℕ)) (bytes : List ℕ) →
        Replied s0 s1 f0 f1 left0 left1 bytes → ¬ Rose f0 f1 → Found (serve s0) left0 left1 (bytes, s1) }
{}

/// A fault of a message that changes no tree leaves the state as it was.
pub fn fault_leaves_state()
    ensures { (s : ServerState) (m : Message) (reply : Reply) (s1 : ServerState) (f0 f1 : ℕ) →
        changes_tree m ≡ false → Outcome s m reply s1 f0 f1 →
        ((reply, s1) ≡ answer s m) ⊎ (Rose f0 f1 × IsHurtReply s m reply × (s1 ≡ s)) }
{}
