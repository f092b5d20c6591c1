//! The definitions of this crate at examples. Each function makes no call: its contract is the
//! example.
ghost use Rattle.std.specs.Prelude.{◌≡◌, ◌∷◌, ◌++◌, ◌^◌, ◌-◌, ℕ, List, [], map, codes, true};
ghost use Rattle.std.specs.Prelude.{false, None, Some, Ok, Err};
ghost use Rattle.libmount.specs.declared.mountinfo.errors.ParseError.TheVariants as parse_error;
ghost use Rattle.libmount.specs.declared.mountinfo.errors.RowError.{RowError};
ghost use Rattle.libmount.specs.declared.mountinfo.numbers.NumberFault.TheVariants as number_fault;
ghost use Rattle.libmount.specs.declared.errors.RemountError.TheVariants as remount_error;
ghost use Rattle.libmount.specs.Cuts.{colon, cut, dash, space, without_leading_spaces};
ghost use Rattle.libmount.specs.Cuts.{without_trailing_spaces};
ghost use Rattle.libmount.specs.ErrorTexts.{parse_error_text, remount_error_text};
ghost use Rattle.libmount.specs.Escapes.{has_escape, decoded};
ghost use Rattle.libmount.specs.Items.{items, lines};
ghost use Rattle.libmount.specs.Lookup.{flags_in};
ghost use Rattle.libmount.specs.Numbers.{number_at, number_field, number_of};
ghost use Rattle.libmount.specs.Options.{comma, flag_of, flags_of};
ghost use Rattle.libmount.specs.Parts.{parts};
ghost use Rattle.libmount.specs.Reading.{bad_number, field_at};
ghost use Rattle.libmount.specs.Rows.{borrowed, optional_at, owned, row, text_at, text_of};
ghost use Rattle.libmount.specs.Texts.{shown};
ghost use Rattle.libmount.specs.Worked.{alike_fields, alike_line, all_options, mounted_twice};
ghost use Rattle.libmount.specs.Worked.{option_words, returned_line, short_fields, short_line};
ghost use Rattle.libmount.specs.Worked.{small_table};
ghost use Rattle.port_base.specs.Flags.{flag_table};

/// A text is cut at a dash and a space, and not at a dash alone.
#[tactic(auto, using(crate::proofs::ByComputing::cut_at_dash, crate::proofs::ByComputing::cut_nowhere))]
pub fn a_text_cut_at_its_dash()
    ensures there { cut dash (codes "shared:1 - ext4 s") ≡ (codes "shared:1 ", codes "ext4 s") }
    ensures nowhere { cut dash (codes "a-b") ≡ (codes "a-b", []) }
{}

/// Spaces before a text, and behind it.
#[tactic(auto, using(crate::proofs::ByComputing::leading, crate::proofs::ByComputing::trailing))]
pub fn a_text_between_spaces()
    ensures leading { without_leading_spaces (codes "  a b ") ≡ codes "a b " }
    ensures trailing { without_trailing_spaces (codes " a b  ") ≡ codes " a b" }
{}

/// A field begins behind spaces and ends at its mark, in a text that begins at place 10; where
/// nothing is left, fields are missing.
#[tactic(auto, using(crate::proofs::ByComputing::field_there, crate::proofs::ByComputing::field_missing))]
pub fn a_field_and_none()
    ensures there { field_at space (10, codes "  a  b") ≡ Ok ((12, codes "a"), (14, codes " b")) }
    ensures missing { field_at space (10, []) ≡ Err (codes "Expected more fields") }
{}

/// A backslash and three octal digits are an escape, and the byte of a number from 256 on is its
/// low one.
#[tactic(auto, using(crate::proofs::ByComputing::escape_seen, crate::proofs::ByComputing::escape_not_seen, crate::proofs::ByComputing::escapes_meant, crate::proofs::ByComputing::escape_of_256))]
pub fn escapes_in_a_text()
    ensures seen { has_escape (codes "/a\\040b") ≡ true }
    ensures not_seen { has_escape (codes "/proc\\1\\08") ≡ false }
    ensures meant { decoded (codes "/a\\040b\\\\134\\08") ≡ codes "/a b\\\\\\08" }
    ensures low { decoded (codes "\\400") ≡ 0 ∷ [] }
{}

/// A text field is owned where it has an escape, and is else that very part of the row, with the
/// place where it begins.
#[tactic(auto, using(crate::proofs::ByComputing::text_owned, crate::proofs::ByComputing::text_borrowed, crate::proofs::ByComputing::text_before_space, crate::proofs::ByComputing::optional_before_dash))]
pub fn texts_of_fields()
    ensures owned { text_of (10, codes "a\\040b") ≡ owned (codes "a b") }
    ensures borrowed { text_of (10, codes "a\\4b") ≡ borrowed (10, codes "a\\4b") }
    ensures at_space { text_at (10, codes " /p rw")
        ≡ Ok (borrowed (11, codes "/p"), (14, codes "rw")) }
    ensures at_dash { optional_at (10, codes "shared:12 master:1 - proc")
        ≡ Ok (borrowed (10, codes "shared:12 master:1"), (31, codes "proc")) }
{}

/// Numbers, and texts that are none.
#[tactic(auto, using(crate::proofs::ByComputing::number_plus, crate::proofs::ByComputing::number_greatest, crate::proofs::ByComputing::number_empty, crate::proofs::ByComputing::number_lone_plus, crate::proofs::ByComputing::number_letter, crate::proofs::ByComputing::number_large))]
pub fn texts_as_numbers()
    ensures plus { number_of (codes "+19") ≡ Ok 19 }
    ensures greatest { number_of (codes "18446744073709551615") ≡ Ok (2 ^ 64 - 1) }
    ensures empty { number_of [] ≡ Err number_fault.Empty }
    ensures lone_plus { number_of (codes "+") ≡ Err number_fault.InvalidDigit }
    ensures letter { number_of (codes "18446744073709551615x") ≡ Err number_fault.InvalidDigit }
    ensures large { number_of (codes "18446744073709551616x") ≡ Err number_fault.TooLarge }
{}

/// Numbers in fields. What follows a space in a field is passed over.
#[tactic(auto, using(crate::proofs::ByComputing::number_before_space, crate::proofs::ByComputing::number_before_colon, crate::proofs::ByComputing::number_missing))]
pub fn numbers_in_fields()
    ensures at_space { number_at (10, codes " 76 24") ≡ Ok (76, (14, codes "24")) }
    ensures at_colon { number_field colon (10, codes "8 7:6") ≡ Ok (8, (14, codes "6")) }
    ensures missing { number_field colon (10, codes " :4") ≡ Err (codes "Expected more fields") }
{}

/// What is said of a field that is no number.
#[tactic(auto, using(crate::proofs::ByComputing::told_empty, crate::proofs::ByComputing::told_digit, crate::proofs::ByComputing::told_large))]
pub fn messages_of_bad_numbers()
    ensures empty { bad_number [] number_fault.Empty ≡ codes "Cannot parse integer \"\": empty" }
    ensures digit { bad_number (codes "24b") number_fault.InvalidDigit
        ≡ codes "Cannot parse integer \"24b\": invalid digit" }
    ensures large { bad_number (codes "9") number_fault.TooLarge
        ≡ codes "Cannot parse integer \"9\": number too large" }
{}

/// The parts between commas; one comma more than parts with nothing in them.
#[tactic(auto, using(crate::proofs::ByComputing::parts_there, crate::proofs::ByComputing::parts_of_nothing))]
pub fn parts_between_commas()
    ensures there { parts comma (Some (codes "a,,b")) ≡ codes "a" ∷ [] ∷ codes "b" ∷ [] }
    ensures of_nothing { parts comma None ≡ [] }
{}

/// The flag of each option that names one, of another option, of all together; and the numbers of
/// all fifteen flags.
#[tactic(auto, using(crate::proofs::ByComputing::flag_each, crate::proofs::ByComputing::flag_unknown, crate::proofs::ByComputing::flags_all, crate::proofs::ByComputing::flags_known))]
pub fn flags_of_options()
    ensures each { map flag_of option_words ≡ 1 ∷ 2 ∷ 4 ∷ 8 ∷ 64 ∷ 16 ∷ 128 ∷ 1024 ∷ 2048 ∷ 2097152
        ∷ 16777216 ∷ [] }
    ensures unknown { flag_of (codes "rw") ≡ 0 }
    ensures all { flags_of all_options ≡ 18877663 }
    ensures known { map (λ (flag : List ℕ × ℕ). flag.1) flag_table ≡ 1 ∷ 2 ∷ 4 ∷ 8 ∷ 16 ∷ 32 ∷ 64
        ∷ 128 ∷ 1024 ∷ 2048 ∷ 4096 ∷ 8192 ∷ 16384 ∷ 2097152 ∷ 16777216 ∷ [] }
{}

/// Lines with their numbers and the places where they begin: a last one without a line feed
/// repeats the number before it.
#[tactic(auto, using(crate::proofs::ByComputing::lines_ended, crate::proofs::ByComputing::lines_open))]
pub fn numbers_of_lines()
    ensures ended { lines (10, codes "ab\nc\n") ≡ (1, (10, codes "ab")) ∷ (2, (13, codes "c"))
        ∷ (2, (15, [])) ∷ [] }
    ensures open { lines (10, codes "ab\nc") ≡ (1, (10, codes "ab")) ∷ (1, (13, codes "c")) ∷ [] }
{}

/// Rows that are passed over, a row that ends in a carriage return, one with equal fields, and
/// refused ones.
#[tactic(auto, using(crate::proofs::ByComputing::row_comment, crate::proofs::ByComputing::row_return, crate::proofs::ByComputing::row_returned, crate::proofs::ByComputing::row_alike, crate::proofs::ByComputing::row_spaces, crate::proofs::ByComputing::row_short))]
pub fn rows_of_lines()
    ensures comment { row (0, 9 ∷ codes " # More") ≡ Ok None }
    ensures lone_return { row (0, 13 ∷ []) ≡ Ok None }
    ensures returned { row (0, returned_line) ≡ Ok (Some (short_fields 0)) }
    ensures alike { row (0, alike_line) ≡ Ok (Some alike_fields) }
    ensures spaces { row (0, codes "  ") ≡ Err (codes "Cannot parse integer \"\": empty") }
    ensures short { row (0, codes "19 24 0:4 / /proc rw,relatime shared:12 - proc proc")
        ≡ Err (codes "Expected more fields") }
{}

/// A table of a comment, a row and a bad last line. The row begins at place 7.
#[tactic(auto, using(crate::proofs::ByComputing::items_small))]
pub fn items_of_a_table()
    ensures { items (0, small_table) ≡ Ok (short_fields 7)
        ∷ Err (record {
          message = codes "Cannot parse integer \"bad\": invalid digit";
          number =
              2;
          row = codes "bad";
        }) ∷ [] }
{}

/// Flags come from the last row of a path; a bad line counts only behind it.
#[tactic(auto, using(crate::proofs::ByComputing::flags_last, crate::proofs::ByComputing::flags_bad_first, crate::proofs::ByComputing::flags_bad_last, crate::proofs::ByComputing::flags_none))]
pub fn flags_of_a_path()
    ensures last { flags_in (codes "/tmp") mounted_twice ≡ Ok (Some 6) }
    ensures bad_first { flags_in (codes "//tmp/.") (codes "bad\n" ++ mounted_twice) ≡ Ok (Some 6) }
    ensures bad_last { flags_in (codes "/tmp") (mounted_twice ++ codes "bad\n")
        ≡ Err (codes "Cannot parse integer \"bad\": invalid digit") }
    ensures none { flags_in (codes "/") mounted_twice ≡ Ok None }
{}

/// Bytes from 0x80 on are printed in base 16.
#[tactic(auto, using(crate::proofs::ByComputing::shown_bytes))]
pub fn a_byte_that_is_no_ascii()
    ensures { shown (codes "/" ++ 250 ∷ []) ≡ codes "/\\xFA" }
{}

/// What an error prints.
#[tactic(auto, using(crate::proofs::ByComputing::parse_error_printed, crate::proofs::ByComputing::parse_memory_printed, crate::proofs::ByComputing::remount_memory_printed))]
pub fn texts_of_errors()
    ensures row { (error : RowError) → error.row_num ≡ 12 → error.message.items ≡ codes "m"
        → error.row.items ≡ short_line → parse_error_text (parse_error.Row error)
        ≡ codes "Parse error at line 12: m\n1 2 0:4 / /p ro - t s rw" }
    ensures no_memory { parse_error_text parse_error.NoMemory ≡ codes "out of memory" }
    ensures no_remount_memory { remount_error_text remount_error.NoMemory ≡ codes "no memory" }
{}
