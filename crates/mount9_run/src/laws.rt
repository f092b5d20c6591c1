//! What the definitions of this crate imply. Each function makes no call: its contract is the law.
ghost use Rattle.std.specs.Prelude.{◌≡◌, ◌↔◌, ◌⊎◌, ℕ, List, ◌∷◌, ◌++◌, Option, Some};
ghost use Rattle.std.specs.Prelude.{None};
ghost use Rattle.port_base.specs.Faults.{Faulted};
ghost use Rattle.mount9_run.specs.Causes.{IsValidInput, IsStoppedInput, IsRefusedHeader};
ghost use Rattle.mount9_run.specs.Command.{command};
ghost use Rattle.mount9_run.specs.Outcome.{outcome};
ghost use Rattle.mount9_run.specs.Running.{Ran};
ghost use Rattle.mount9_run.specs.declared.run.Status.{Status};
ghost use Rattle.mount9_run.specs.declared.run.Status.TheVariants as status;

/// Neighbouring words after the first may change places, so their order doesn't matter.
#[tactic(auto, using(crate::proofs::WordOrder::command_swap))]
pub fn words_in_any_order()
    ensures { (first one other : List ℕ) (before after : List (List ℕ))
        → command (first ∷ (before ++ (one ∷ other ∷ after)))
        ≡ command (first ∷ (before ++ (other ∷ one ∷ after))) }
{}

/// A run answers that it served exactly where the input is valid: words and header are accepted,
/// the mount is let in, and the frames end at the input's end.
pub fn valid_input_is_served()
    ensures { (words : List (List ℕ)) (bytes : List ℕ)
        → (((outcome words bytes).0 ≡ status.Served) ↔ IsValidInput words bytes) }
{}

/// It answers that it stopped exactly where words and header are accepted, and the mount is
/// refused or the input doesn't end at a frame's end.
pub fn stopped_input_is_told()
    ensures { (words : List (List ℕ)) (bytes : List ℕ)
        → (((outcome words bytes).0 ≡ status.Stopped) ↔ IsStoppedInput words bytes) }
{}

/// It answers that the words are refused exactly where they are.
#[tactic(auto, using(crate::proofs::Causes::words_exactly))]
pub fn refused_words_are_told()
    ensures { (words : List (List ℕ)) (bytes : List ℕ)
        → (((outcome words bytes).0 ≡ status.Words) ↔ (command words ≡ None)) }
{}

/// It answers that the header is refused exactly where the words are accepted and the header is
/// not.
pub fn refused_headers_are_told()
    ensures { (words : List (List ℕ)) (bytes : List ℕ)
        → (((outcome words bytes).0 ≡ status.Header) ↔ IsRefusedHeader words bytes) }
{}

/// A run on known bytes in which neither stream failed gives that answer, or wants memory.
#[tactic(auto, using(crate::proofs::Causes::answers_alike))]
pub fn quiet_runs_answer_by_the_input()
    ensures { (words : List (List ℕ)) (bytes : List ℕ) (sent0 sent1 : Option (List ℕ))
        (in0 in1 out0 out1 : ℕ) (s : Status) →
        (Faulted in0 in1 → ⊥) → (Faulted out0 out1 → ⊥) → Ran (outcome words) (Some bytes) sent0
        sent1 in0 in1 out0 out1 s → (s ≡ (outcome words bytes).0) ⊎ (s ≡ status.Memory) }
{}
