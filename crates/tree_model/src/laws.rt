//! Laws over trees. Each function makes no call: its contract is the law.
ghost use Rattle.std.specs.Prelude.{◌≡◌, ◌↔◌, ℕ, ◌+◌, ◌<◌, List, Bool, true, Option, Ok, Some};
ghost use Rattle.std.specs.Prelude.{None};
ghost use Rattle.std.specs.FinMap as map;
ghost use Rattle.port_base.specs.Names.{name_fault};
ghost use Rattle.tree_model.specs.declared.attributes.TheConstants.{TOP};
ghost use Rattle.tree_model.specs.Chains.{Leads};
ghost use Rattle.tree_model.specs.Tree.{Tree, Records, Record, body_at, is_directory_at};
ghost use Rattle.tree_model.specs.Tree.{is_linked, name_count, names_in, weight, linked, keep};
ghost use Rattle.tree_model.specs.Good.{IsGoodTree, IsGoodLimits, IsGoodStamp, IsGoodTarget};
ghost use Rattle.tree_model.specs.Sound.{IsCounted, AreStored};
ghost use Rattle.tree_model.specs.Making.{new_tree, NewFile, add_file_of};
ghost use Rattle.tree_model.specs.Placing.{add_directory_of, add_link_of, add_hard_of};
ghost use Rattle.tree_model.specs.Attributes.{stat_of};
ghost use Rattle.tree_model.specs.Attributing.{set_mode_of, set_owner_of, touch_ctime_of};
ghost use Rattle.tree_model.specs.Attributing.{set_times_of, set_len_of, write_of};
ghost use Rattle.tree_model.specs.Unlinking.{unlink_of, rmdir_of};
ghost use Rattle.tree_model.specs.Renaming.{climbs_past, is_at_or_below, rename_of};
ghost use Rattle.tree_model.specs.Creating.{create_of, mkdir_of, link_of};
ghost use Rattle.tree_model.specs.Reading.{above_of, record_after_of};
ghost use Rattle.tree_model.specs.declared.attributes.Attr.{Attr};
ghost use Rattle.tree_model.specs.declared.attributes.Stamp.{Stamp};
ghost use Rattle.tree_model.specs.declared.attributes.TimeSet.{TimeSet};
ghost use Rattle.tree_model.specs.declared.attributes.Limits.{Limits};

/// After one record changed, the entries that name an inode are those that did, but for those of
/// that
/// record.
pub fn count_after_change()
    ensures { (rs : Records) (k i : ℕ) (r : Record) →
        name_count (map.insert rs k r) i + weight (names_in i) (map.get rs k) ≡ name_count rs i +
        names_in i r }
{}

/// In a good tree links are counted, and what is named is stored.
pub fn good_trees_are_counted()
    ensures { (t : Tree) (held : ℕ → Bool) → IsGoodTree t → AreStored t.records held → IsCounted
        t.records t.next held }
{}

/// A tree of the top directory alone is good.
pub fn new_trees_are_good()
    ensures { (limits : Limits) (moment born : Stamp) (mode uid gid : ℕ) →
        IsGoodLimits limits → IsGoodStamp moment → IsGoodStamp born → mode < 4096 →
        IsGoodTree (new_tree limits moment born mode uid gid) }
{}

/// What is kept of a good tree is good, whatever is held.
pub fn kept_trees_are_good()
    ensures { (t : Tree) (held : ℕ → Bool) → IsGoodTree t → IsGoodTree (keep held t) }
{}

/// What is linked of a good tree is a good tree.
pub fn linked_trees_are_good()
    ensures { (t : Tree) → IsGoodTree t → IsGoodTree (linked t) }
{}

/// A good tree stays good where a file is added.
pub fn trees_with_a_file_are_good()
    ensures { (t : Tree) (born : Stamp) (dir : ℕ) (name : List ℕ) (f : NewFile) (ino : ℕ)
        (u : Tree) →
        IsGoodTree t → IsGoodStamp born → name_fault name ≡ None → f.mode < 4096 →
        add_file_of born t dir name f ≡ Ok (ino, u) → IsGoodTree u }
{}

/// A good tree stays good where a directory is added.
pub fn trees_with_a_directory_are_good()
    ensures { (t : Tree) (born : Stamp) (dir : ℕ) (name : List ℕ) (mode uid gid ino : ℕ) (u : Tree)
        →
        IsGoodTree t → IsGoodStamp born → name_fault name ≡ None → mode < 4096 →
        add_directory_of born t dir name mode uid gid ≡ Ok (ino, u) → IsGoodTree u }
{}

/// A good tree stays good where a symbolic link is added.
pub fn trees_with_a_link_are_good()
    ensures { (t : Tree) (born : Stamp) (dir : ℕ) (name target : List ℕ) (uid gid ino : ℕ)
        (u : Tree) →
        IsGoodTree t → IsGoodStamp born → name_fault name ≡ None → IsGoodTarget target →
        add_link_of born t dir name uid gid target ≡ Ok (ino, u) → IsGoodTree u }
{}

/// A good tree stays good where a file or a link gets one more name.
pub fn trees_with_one_more_name_are_good()
    ensures { (t : Tree) (dir ino : ℕ) (name : List ℕ) (n : ℕ) (u : Tree) →
        IsGoodTree t → name_fault name ≡ None → add_hard_of t dir name ino ≡ Ok (n, u) → IsGoodTree
        u }
{}

/// A good tree stays good where a mode changes.
pub fn trees_with_another_mode_are_good()
    ensures { (t u : Tree) (ino mode : ℕ) → IsGoodTree t → set_mode_of t ino mode ≡ Ok (tt, u) →
        IsGoodTree u }
{}

/// A good tree stays good where owners change.
pub fn trees_with_other_owners_are_good()
    ensures { (t u : Tree) (ino : ℕ) (uid gid : Option ℕ) → IsGoodTree t → set_owner_of t ino uid
        gid ≡ Ok (tt, u) → IsGoodTree u }
{}

/// A good tree stays good where a ctime is stamped.
pub fn trees_with_another_ctime_are_good()
    ensures { (t u : Tree) (ino : ℕ) → IsGoodTree t → touch_ctime_of t ino ≡ Ok (tt, u) →
        IsGoodTree u }
{}

/// A good tree stays good where times change.
pub fn trees_with_other_times_are_good()
    ensures { (t u : Tree) (ino : ℕ) (atime mtime : TimeSet) → IsGoodTree t → set_times_of t ino
        atime mtime ≡ Ok (tt, u) → IsGoodTree u }
{}

/// A good tree stays good where a file is cut or filled.
pub fn trees_with_another_length_are_good()
    ensures { (t u : Tree) (ino len : ℕ) → IsGoodTree t → set_len_of t ino len ≡ Ok (tt, u) →
        IsGoodTree u }
{}

/// A good tree stays good where bytes are written.
pub fn trees_with_written_bytes_are_good()
    ensures { (t u : Tree) (ino offset count : ℕ) (new : List ℕ) → IsGoodTree t → write_of t ino
        offset new ≡ Ok (count, u) → IsGoodTree u }
{}

/// A good tree stays good where a name of a file or a link is taken away, whatever is held.
pub fn trees_without_a_name_are_good()
    ensures { (held : ℕ → Bool) (t u : Tree) (dir : ℕ) (name : List ℕ) → IsGoodTree t → unlink_of
        held t dir name ≡ Ok (tt, u) → IsGoodTree u }
{}

/// A good tree stays good where an empty directory is taken away, whatever is held.
pub fn trees_without_a_directory_are_good()
    ensures { (held : ℕ → Bool) (t u : Tree) (dir : ℕ) (name : List ℕ) → IsGoodTree t → rmdir_of
        held t dir name ≡ Ok (tt, u) → IsGoodTree u }
{}

/// A good tree stays good where a file is created.
pub fn trees_with_a_created_file_are_good()
    ensures { (t u : Tree) (dir : ℕ) (name : List ℕ) (mode ino : ℕ) → IsGoodTree t → name_fault
        name ≡ None → create_of t dir name mode ≡ Ok (ino, u) → IsGoodTree u }
{}

/// A good tree stays good where a directory is made.
pub fn trees_with_a_made_directory_are_good()
    ensures { (t u : Tree) (dir : ℕ) (name : List ℕ) (mode : ℕ) (a : Attr) → IsGoodTree t →
        name_fault name ≡ None → mkdir_of t dir name mode ≡ Ok (a, u) → IsGoodTree u }
{}

/// A good tree stays good where a file or a link is linked once more.
pub fn trees_with_one_more_link_are_good()
    ensures { (t u : Tree) (dir ino : ℕ) (name : List ℕ) → IsGoodTree t → name_fault name ≡ None →
        link_of t ino dir name ≡ Ok (tt, u) → IsGoodTree u }
{}

/// A good tree stays good where a name moves, whatever is held.
pub fn trees_with_another_name_are_good()
    ensures { (held : ℕ → Bool) (t u : Tree) (olddir newdir : ℕ) (oldname newname : List ℕ) →
        IsGoodTree t → name_fault newname ≡ None → rename_of held t olddir oldname newdir newname ≡
        Ok (tt, u) → IsGoodTree u }
{}

/// In a good tree a climb that comes to the top has fewer steps than there are numbers.
pub fn climbs_are_short()
    ensures { (t : Tree) (ino steps dir : ℕ) → IsGoodTree t → climbs_past t.records ino steps dir ≡
        true → climbs_past t.records ino t.next dir ≡ true }
{}

/// In a good tree the top directory is above itself.
#[tactic(auto, using(crate::proofs::Chains::top_above_top))]
pub fn the_top_is_above_itself()
    ensures { (t : Tree) → IsGoodTree t → above_of t TOP ≡ 1 }
{}

/// In a good tree a linked directory is at or below an inode exactly where a chain of entries
/// leads from
/// the inode down to it.
#[tactic(auto, using(crate::proofs::Chains::below_is_led, crate::proofs::Chains::led_is_below))]
pub fn what_is_below_is_led_to()
    ensures { (t : Tree) (ino dir : ℕ) → IsGoodTree t →
        is_directory_at (body_at t.records dir) ≡ true → is_linked t.records dir ≡ true →
        ((is_at_or_below t ino dir ≡ true) ↔ ∥ ((n : ℕ) × Leads t.records n ino dir) ∥₁) }
{}

/// The record that is told next is stored under its number, which is above the one asked for.
pub fn next_records_are_stored()
    ensures { (t : Tree) (i : ℕ) (a : Attr) → record_after_of t i ≡ Some a →
        (stat_of t a.ino ≡ Ok a) × (i < a.ino) }
{}
