// The parts of a text between bytes of one kind, as lines or options are.
ghost use Rattle.std.specs.Prelude.{◌≡◌, ◌<◌, ◌+◌, ◌++◌, ◌∷◌, [], length, option_copied, position};
ghost use Rattle.std.specs.Prelude.{IfSome, Some};
ghost use Rattle.libmount.specs.Parts.{is_mark, parts, EndsPart};
ghost use Rattle.libmount.specs.Slices.{LiesIn, StaysIn};

fn first_mark(text: &[u8], mark: u8) -> Option<usize>
    ensures { result ≡ position (is_mark mark) text.now }
{
    text.iter().position(|byte| *byte == mark)
}

/// The part before the first mark, and what follows that mark, where there is one.
pub(crate) fn first_part(text: &[u8], mark: u8) -> (&[u8], Option<&[u8]>)
    ensures parts { parts mark (Some text.now) ≡ result.0.now
        ∷ parts mark (option_copied result.1) }
    ensures shorter { IfSome result.1 (λ rest. length rest.now < length text.now) }
    ensures front { LiesIn text.entry result.0 }
    ensures front_place { result.0.ref_ptr.1 ≡ text.entry.ref_ptr.1 }
    ensures rest_place { IfSome result.1 (λ rest. rest.ref_ptr.1 ≡ text.entry.ref_ptr.1
        + (length result.0.now + 1)) }
    ensures rest { StaysIn (Some text.entry) result.1 }
{
    match first_mark(text, mark) {
        Some(at) => (&text[..at], Some(&text[at + 1..])),
        None => (text, None),
    }
}

fn last_mark(text: &[u8], mark: u8) -> Option<usize>
    ensures { EndsPart mark text.now result }
{
    let mut at = text.len();
    'bytes: while at > 0 {
        at -= 1;
        if text[at] == mark {
            return Some(at);
        }
    }
    None
}

/// The part after the last mark, and what stands before that mark, where there is one.
pub(crate) fn last_part(text: &[u8], mark: u8) -> (Option<&[u8]>, &[u8])
    ensures parts { parts mark (Some text.now) ≡ parts mark (option_copied result.0)
        ++ result.1.now ∷ [] }
    ensures shorter { IfSome result.0 (λ front. length front.now < length text.now) }
{
    match last_mark(text, mark) {
        Some(at) => (Some(&text[..at]), &text[at + 1..]),
        None => (None, text),
    }
}
