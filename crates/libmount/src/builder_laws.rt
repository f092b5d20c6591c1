//! What the definitions of the builders come to.
ghost use Rattle.std.specs.Prelude.{◌≡◌, ◌<◌, ◌^◌, ℕ};
ghost use Rattle.std.specs.Int.{bit_at};
ghost use Rattle.libmount.specs.Builders.{FlagChange, apply_to_flags};

/// A change of flags made twice is the change made once. A flag that is set is there afterwards,
/// one that is cleared and not set isn't, and one that no setter named is as it was.
#[tactic(auto, using(crate::proofs::FlagLaws::twice_is_once, crate::proofs::FlagLaws::set_is_there, crate::proofs::FlagLaws::cleared_is_gone, crate::proofs::FlagLaws::other_is_kept))]
pub fn changes_of_flags_are_exact()
    ensures twice { (change : FlagChange) (flags : ℕ)
        → apply_to_flags change (apply_to_flags change flags) ≡ apply_to_flags change flags }
    ensures set { (change : FlagChange) (flags i : ℕ) → bit_at change.set i ≡ 1
        → bit_at (apply_to_flags change flags) i ≡ 1 }
    ensures cleared { (change : FlagChange) (flags i : ℕ) → change.cleared < 2 ^ 64 → i < 64
        → bit_at change.cleared i ≡ 1 → bit_at change.set i ≡ 0
        → bit_at (apply_to_flags change flags) i ≡ 0 }
    ensures kept { (change : FlagChange) (flags i : ℕ) → change.cleared < 2 ^ 64 → i < 64
        → bit_at change.cleared i ≡ 0 → bit_at change.set i ≡ 0
        → bit_at (apply_to_flags change flags) i ≡ bit_at flags i }
{}
