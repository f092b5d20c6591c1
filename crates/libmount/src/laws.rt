//! What the definitions of a mountinfo row come to.
ghost use Rattle.std.specs.Prelude.{◌≡◌, ◌++◌, ◌^◌, ◌<◌, ◌∷◌, ℕ, List, Ok, Some};
ghost use Rattle.std.specs.Borrow.{Bor};
ghost use Rattle.std.specs.Fmt.{decimal};
ghost use Rattle.std.specs.declared.option.Option.{Option};
ghost use Rattle.std.specs.declared.result.Result.{Result};
ghost use Rattle.port_base.specs.Escapes.{escaped};
ghost use Rattle.libmount.specs.declared.mountinfo.errors.ParseError.{ParseError};
ghost use Rattle.libmount.specs.declared.mountinfo.rows.MountPoint.{MountPoint};
ghost use Rattle.libmount.specs.CutLaws.{IsCut};
ghost use Rattle.libmount.specs.Cuts.{cut, space};
ghost use Rattle.libmount.specs.Escapes.{decoded};
ghost use Rattle.libmount.specs.Numbers.{number_of};
ghost use Rattle.libmount.specs.Parsers.{ItemLiesInRest};
ghost use Rattle.libmount.specs.Rows.{row};
ghost use Rattle.libmount.specs.Slices.{LiesIn, StaysIn};
ghost use Rattle.libmount.specs.Worked.{worked_fields, worked_line};

/// A worked row, whose mount point has escapes.
pub fn worked_row()
    ensures { row (0, worked_line) ≡ Ok (Some worked_fields) }
{}

/// A text is cut at the first place where the mark stands, and at its end where it stands nowhere.
pub fn cuts_end_at_the_first_mark()
    ensures { (mark bytes : List ℕ) → IsCut mark bytes (cut mark bytes) }
{}

/// A number's decimal text is read as that number, also after a plus.
pub fn decimal_texts_are_numbers()
    ensures plain { (n : ℕ) → n < 2 ^ 64 → number_of (decimal n) ≡ Ok n }
    ensures plus { (n : ℕ) → n < 2 ^ 64 → number_of (43 ∷ decimal n) ≡ Ok n }
{}

/// A part of a part of a text is a part of it. So each call of a parser keeps what is left within
/// the whole table, and a borrowed field of any item lies in that table.
pub fn parts_of_parts_are_parts()
    ensures part { (whole middle part : Bor (List ℕ)) → LiesIn whole middle → LiesIn middle part
        → LiesIn whole part }
    ensures rest { (first middle last : Option (Bor (List ℕ))) → StaysIn first middle
        → StaysIn middle last → StaysIn first last }
    ensures item { (first later : Option (Bor (List ℕ))) (item : Result MountPoint ParseError)
        → StaysIn first later → ItemLiesInRest later item → ItemLiesInRest first item }
{}

/// The decoding of a mountinfo field undoes the escapes of a printed table, whatever the text is.
#[tactic(auto, using(crate::proofs::PrintedTexts::decoded_escaped))]
pub fn escaped_texts_are_decoded()
    ensures { (text : List ℕ) → decoded (escaped text) ≡ text }
{}

/// A printed field is cut at the space behind it, whatever the text is: it has no space in it.
#[tactic(auto, using(crate::proofs::PrintedFields::printed_field_cut))]
pub fn printed_fields_are_cut()
    ensures { (text rest : List ℕ) → cut space (escaped text ++ (space ++ rest))
        ≡ (escaped text, rest) }
{}
