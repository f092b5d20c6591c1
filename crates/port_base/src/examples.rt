//! The definitions of this crate at examples. Each function makes no call: its contract is the
//! example.
ghost use Rattle.std.specs.Prelude.{◌≡◌, ◌∷◌, ◌++◌, ◌^◌, ◌-◌, [], codes, replicate, true, false};
ghost use Rattle.std.specs.Prelude.{None, Some};
ghost use Rattle.port_base.specs.Escapes.{escaped};
ghost use Rattle.port_base.specs.Failing.{counted};
ghost use Rattle.port_base.specs.Flags.{known_flags, without};
ghost use Rattle.port_base.specs.Names.{name_fault};
ghost use Rattle.port_base.specs.Paths.{components, path_starts_with, same_path, strip};
ghost use Rattle.port_base.specs.Quoting.{quoted};

/// An empty name is ENOENT (2), and one of 256 bytes ENAMETOOLONG (36).
#[tactic(auto, using(crate::proofs::ByComputing::name_empty, crate::proofs::ByComputing::name_long))]
pub fn names_of_a_wrong_length()
    ensures empty { name_fault [] ≡ Some 2 }
    ensures long { name_fault (replicate 256 97) ≡ Some 36 }
{}

/// A slash, a zero byte, a dot and two dots are EINVAL (22).
pub fn names_that_are_misspelled()
    ensures slash { name_fault (codes "a/b") ≡ Some 22 }
    ensures zero { name_fault (codes "a" ++ 0 ∷ []) ≡ Some 22 }
    ensures dot { name_fault (codes ".") ≡ Some 22 }
    ensures dots { name_fault (codes "..") ≡ Some 22 }
{}

/// Names without a fault: a word, and three dots.
#[tactic(auto, using(crate::proofs::ByComputing::name_word, crate::proofs::ByComputing::name_three_dots))]
pub fn names_without_a_fault()
    ensures word { name_fault (codes "hello") ≡ None }
    ensures three_dots { name_fault (codes "...") ≡ None }
{}

/// The components of a path from the top, of one that begins with a dot, and of one with a dot
/// inside.
#[tactic(auto, using(crate::proofs::ByComputing::components_from_the_top, crate::proofs::ByComputing::components_behind_a_dot, crate::proofs::ByComputing::components_around_a_dot, crate::proofs::ByComputing::components_of_nothing))]
pub fn components_of_paths()
    ensures from_the_top { components (codes "/a//./b/") ≡ codes "/" ∷ codes "a" ∷ codes "b" ∷ [] }
    ensures behind_a_dot { components (codes "./a") ≡ codes "." ∷ codes "a" ∷ [] }
    ensures around_a_dot { components (codes "a/./b") ≡ codes "a" ∷ codes "b" ∷ [] }
    ensures of_nothing { components [] ≡ [] }
{}

/// Two spellings of one path, and paths that differ.
#[tactic(auto, using(crate::proofs::ByComputing::same_spelled_twice, crate::proofs::ByComputing::same_not_from_the_top, crate::proofs::ByComputing::same_not_behind_a_dot))]
pub fn paths_that_are_the_same_or_not()
    ensures spelled_twice { same_path (codes "//proc/./") (codes "/proc") ≡ true }
    ensures not_from_the_top { same_path (codes "/proc") (codes "proc") ≡ false }
    ensures not_behind_a_dot { same_path (codes "./proc") (codes "proc") ≡ false }
{}

/// A path below a base, and one whose first component only begins like it.
#[tactic(auto, using(crate::proofs::ByComputing::starts_below, crate::proofs::ByComputing::starts_not_inside_a_name, crate::proofs::ByComputing::stripped, crate::proofs::ByComputing::not_stripped))]
pub fn paths_that_begin_with_a_base()
    ensures below { path_starts_with (codes "/a/b") (codes "/a/") ≡ true }
    ensures not_inside_a_name { path_starts_with (codes "/ab") (codes "/a") ≡ false }
    ensures stripped { strip (codes "a" ∷ codes "b" ∷ []) (codes "a" ∷ []) ≡ Some (codes "b" ∷ []) }
    ensures not_stripped { strip (codes "a" ∷ []) (codes "a" ∷ codes "b" ∷ []) ≡ None }
{}

/// A quote, a backslash, a line feed and other bytes as they stand between quotes.
#[tactic(auto, using(crate::proofs::ByComputing::quoted_marks, crate::proofs::ByComputing::quoted_line_feed, crate::proofs::ByComputing::quoted_zero, crate::proofs::ByComputing::quoted_27, crate::proofs::ByComputing::quoted_127, crate::proofs::ByComputing::quoted_255))]
pub fn quoted_texts()
    ensures marks { quoted (codes "a\"b\\") ≡ codes "\"a\\\"b\\\\\"" }
    ensures line_feed { quoted (10 ∷ []) ≡ codes "\"\\n\"" }
    ensures zero { quoted (0 ∷ []) ≡ codes "\"\\0\"" }
    ensures low { quoted (1 ∷ 27 ∷ []) ≡ codes "\"\\u{1}\\u{1b}\"" }
    ensures delete { quoted (127 ∷ []) ≡ codes "\"\\u{7f}\"" }
    ensures high { quoted (255 ∷ []) ≡ codes "\"\\xFF\"" }
{}

/// A space and a backslash as octal escapes, then a tab, a line feed and a carriage return.
#[tactic(auto, using(crate::proofs::ByComputing::escaped_space, crate::proofs::ByComputing::escaped_breaks))]
pub fn escaped_texts()
    ensures space { escaped (codes "a b\\") ≡ codes "a\\040b\\134" }
    ensures breaks { escaped (9 ∷ 10 ∷ 13 ∷ []) ≡ codes "\\011\\012\\015" }
{}

/// All flags of mounts together; a set without some of its flags.
#[tactic(auto, using(crate::proofs::ByComputing::flags_known, crate::proofs::ByComputing::flags_taken))]
pub fn sets_of_flags()
    ensures known { known_flags ≡ 18906367 }
    ensures taken { without 7 18 ≡ 5 }
{}

/// A call is counted, up to 2^64 - 1.
#[tactic(auto, using(crate::proofs::ByComputing::counted_one, crate::proofs::ByComputing::counted_at_the_end))]
pub fn counted_calls()
    ensures one { counted 6 ≡ 7 }
    ensures at_the_end { counted (2 ^ 64 - 1) ≡ 2 ^ 64 - 1 }
{}
