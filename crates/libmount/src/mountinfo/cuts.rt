// What stands before a mark and after it.
ghost use Rattle.std.specs.Prelude.{◌≡◌, ◌<◌, ◌≤◌, ◌-◌, IfOk, length};
ghost use Rattle.std.specs.List.{prefix_len, suffix_len};
ghost use Rattle.libmount.specs.Cuts.{cut_at, is_space, last_of, without_leading_spaces};
ghost use Rattle.libmount.specs.Cuts.{without_trailing_spaces};
ghost use Rattle.libmount.specs.Reading.{field_at, Gives};
ghost use Rattle.libmount.specs.Slices.{LiesIn, placed};

use crate::mountinfo::refusals::Refusal;

/// What stands before the first such mark, and what follows it: all, and nothing, where there is
/// none.
fn cut<'a>(bytes: &'a [u8], mark: &[u8]) -> (&'a [u8], &'a [u8])
    ensures value { (placed result.0, placed result.1) ≡ cut_at mark.now (placed bytes.entry) }
    ensures front { LiesIn bytes.entry result.0 }
    ensures rest { LiesIn bytes.entry result.1 }
{
    for at in 0..bytes.len() {
        let here = &bytes[at..];
        if here.starts_with(mark) {
            return (&bytes[..at], &here[mark.len()..]);
        }
    }
    (bytes, &bytes[bytes.len()..])
}

fn leading_spaces(bytes: &[u8]) -> usize
    ensures count { result ≡ prefix_len is_space bytes.now }
    ensures within { result ≤ length bytes.now }
{
    bytes.iter().take_while(|byte| **byte == b' ').count()
}

fn trailing_spaces(bytes: &[u8]) -> usize
    ensures count { result ≡ suffix_len is_space bytes.now }
    ensures within { result ≤ length bytes.now }
{
    bytes.iter().rev().take_while(|byte| **byte == b' ').count()
}

fn without_leading_spaces(bytes: &[u8]) -> &[u8]
    ensures value { placed result ≡ last_of (placed bytes.entry)
        (without_leading_spaces bytes.now) }
    ensures part { LiesIn bytes.entry result }
{
    &bytes[leading_spaces(bytes)..]
}

/// A field up to a mark, after leading spaces, and what follows the mark.
#[tactic(auto, unfolding(crate::specs::Reading::field_at))]
pub(crate) fn field<'a>(mark: &[u8], bytes: &'a [u8]) -> Result<(&'a [u8], &'a [u8]), Refusal<'a>>
    ensures value { Gives (λ field. (placed field.0, placed field.1)) result
        (field_at mark.now (placed bytes.entry)) }
    ensures parts { IfOk result (λ field. LiesIn bytes.entry field.0 × LiesIn bytes.entry field.1) }
{
    if bytes.is_empty() {
        return Err(Refusal::MoreFields);
    }
    Ok(cut(without_leading_spaces(bytes), mark))
}

/// A field without its trailing spaces.
pub(crate) fn without_trailing_spaces(field: &[u8]) -> &[u8]
    ensures value { placed result ≡ (field.entry.ref_ptr.1, without_trailing_spaces field.now) }
    ensures part { LiesIn field.entry result }
{
    &field[..field.len() - trailing_spaces(field)]
}
