//! The escapes of names and paths in texts, which are those of fstab(5).
ghost use Rattle.std.specs.Prelude.{◌≡◌, ◌++◌, ℕ, List, IfOk, OnOk, option_map};
ghost use Rattle.port_base.specs.Escapes.{is_escaped, escaped_byte, escaped, unescaped};
ghost use Rattle.port_base.specs.Escapes.{IsUnescaped, BeginsWith};

use crate::buffer::push;
use crate::sink::NoMemory;
use std::alloc::Global;

// Whether the byte stands as an escape: a space, a tab, a line feed, a carriage return or a
// backslash.
fn is_special(byte: u8) -> bool
    ensures { result ≡ is_escaped byte }
{
    matches!(byte, b' ' | b'\t' | b'\n' | b'\r' | b'\\')
}

#[tactic(auto, unfolding(crate::specs::Escapes::escaped))]
fn push_escaped_byte(out: &mut Vec<u8>, byte: u8) -> Result<(), NoMemory>
    ensures { OnOk result (out.new.items ≡ out.old.items ++ escaped_byte byte) }
{
    match byte {
        b' ' => push(out, b"\\040"),
        b'\t' => push(out, b"\\011"),
        b'\n' => push(out, b"\\012"),
        b'\r' => push(out, b"\\015"),
        b'\\' => push(out, b"\\134"),
        other => push(out, &[other]),
    }
}

/// Appends the escaped text of the bytes. After an `Err` a front of it may be there.
#[tactic(auto, unfolding(crate::specs::Escapes::escaped))]
pub fn push_escaped(out: &mut Vec<u8>, bytes: &[u8]) -> Result<(), NoMemory>
    ensures { OnOk result (out.new.items ≡ out.old.items ++ escaped bytes.now) }
{
    for byte in bytes {
        push_escaped_byte(out, *byte)?;
    }
    Ok(())
}

/// The bytes with exactly spaces, tabs, line feeds, carriage returns and backslashes as a
/// backslash and three octal digits.
pub fn escaped(alloc: Global, bytes: &[u8]) -> Result<Vec<u8>, NoMemory>
    ensures { IfOk result (λ text. text.items ≡ escaped bytes.now) }
{
    let mut out = Vec::new(alloc);
    push_escaped(&mut out, bytes)?;
    Ok(out)
}

// The byte that the field begins with, and how many bytes it takes there.
fn first_byte(field: &[u8]) -> Option<(u8, usize)>
    ensures { BeginsWith field.now result }
{
    match field {
        [b'\\', b'0', b'4', b'0', ..] => Some((b' ', 4)),
        [b'\\', b'0', b'1', b'1', ..] => Some((b'\t', 4)),
        [b'\\', b'0', b'1', b'2', ..] => Some((b'\n', 4)),
        [b'\\', b'0', b'1', b'5', ..] => Some((b'\r', 4)),
        [b'\\', b'1', b'3', b'4', ..] => Some((b'\\', 4)),
        [byte, ..] if !is_special(*byte) => Some((*byte, 1)),
        _ => None,
    }
}

// The text that the escapes of a field stand for.
fn text_of(alloc: Global, field: &[u8]) -> Result<Option<Vec<u8>>, NoMemory>
    ensures { IfOk result (λ text. IsUnescaped field.now (option_map (λ v. v.items) text)) }
{
    let mut out = Vec::new(alloc);
    let mut rest = field;
    while !rest.is_empty() {
        let Some((byte, width)) = first_byte(rest) else {
            return Ok(None);
        };
        push(&mut out, &[byte])?;
        rest = &rest[width..];
    }
    Ok(Some(out))
}

/// The one text whose escaped text is the field, or `None` exactly where there is none.
#[tactic(auto, using(crate::proofs::Unescaping::only_unescaped))]
pub fn unescaped(alloc: Global, field: &[u8]) -> Result<Option<Vec<u8>>, NoMemory>
    ensures { IfOk result (λ text. option_map (λ v. v.items) text ≡ unescaped field.now) }
{
    text_of(alloc, field)
}

/// What is read is the one text whose escaped text is the field, and nothing exactly where there
/// is none.
#[tactic(auto, using(crate::proofs::Unescaping::reading_is_unescaped))]
pub fn what_is_read_is_escaped_as_the_field()
    ensures { (field : List ℕ) → IsUnescaped field (unescaped field) }
{}

#[cfg(test)]
mod tests {
    use super::*;
    use std::test::Fail;

    #[test]
    fn escaped_texts_are_read_back(rt: HostRuntime) -> Result<(), Fail> {
        let cases: [(&[u8], &[u8]); 4] = [
            (b"", b""),
            (b"/a b", b"/a\\040b"),
            (b" \t\n\r\\", b"\\040\\011\\012\\015\\134"),
            (b"\\040\xff\0", b"\\134040\xff\0"),
        ];
        for (text, field) in cases {
            assert_eq!(rt; escaped(rt.alloc(), text)?.as_slice(), field);
            let again = unescaped(rt.alloc(), field)?;
            assert_eq!(rt; again.as_ref().map(|t| t.as_slice()), Some(text));
        }
        let none: [&[u8]; 8] = [
            b" ",
            b"a\t",
            b"\\",
            b"\\04",
            b"\\041",
            b"\\0400\\",
            b"\\1",
            b"a\\13x",
        ];
        for field in none {
            assert!(rt; unescaped(rt.alloc(), field)?.is_none(), "{field:?}");
        }
        Ok(())
    }
}
