//! Bytes between double quotes.
ghost use Rattle.std.specs.Prelude.{◌≡◌, ◌<◌, ◌++◌, ◌∷◌, [], IfOk, OnOk};
ghost use Rattle.port_base.specs.Quoting.{hex_digit, quoted, quoted_byte, upper_hex_digit};

use crate::buffer::push;
use crate::sink::NoMemory;
use std::alloc::Global;

// A digit of a number in base 16, with lower-case letters.
fn hex_digit(digit: u8) -> u8
    requires { digit < 16 }
    ensures { result ≡ hex_digit digit }
{
    if digit < 10 {
        b'0' + digit
    } else {
        b'a' + (digit - 10)
    }
}

// A digit of a number in base 16, with capital letters.
fn upper_hex_digit(digit: u8) -> u8
    requires { digit < 16 }
    ensures { result ≡ upper_hex_digit digit }
{
    if digit < 10 {
        b'0' + digit
    } else {
        b'A' + (digit - 10)
    }
}

#[tactic(auto, unfolding(crate::specs::Quoting::quoted_byte))]
fn push_quoted(out: &mut Vec<u8>, byte: u8) -> Result<(), NoMemory>
    ensures { OnOk result (out.new.items ≡ out.old.items ++ quoted_byte byte) }
{
    match byte {
        b'"' => push(out, b"\\\""),
        b'\\' => push(out, b"\\\\"),
        b'\t' => push(out, b"\\t"),
        b'\n' => push(out, b"\\n"),
        b'\r' => push(out, b"\\r"),
        0 => push(out, b"\\0"),
        1..=0xf => push(out, &[b'\\', b'u', b'{', hex_digit(byte), b'}']),
        0x10..=0x1f | 0x7f => push(
            out,
            &[
                b'\\',
                b'u',
                b'{',
                hex_digit(byte / 16),
                hex_digit(byte % 16),
                b'}',
            ],
        ),
        0x20..=0x7e => push(out, &[byte]),
        0x80..=0xff => push(
            out,
            &[
                b'\\',
                b'x',
                upper_hex_digit(byte / 16),
                upper_hex_digit(byte % 16),
            ],
        ),
    }
}

/// The bytes between double quotes, as printable ASCII: `\"`, `\\`, `\t`, `\n`, `\r` and `\0` for
/// these bytes, `\u{h}` with lower-case digits for other bytes below 0x20 and for 0x7f, `\xHH`
/// with capital digits for bytes from 0x80 on, and each other byte as it is.
#[tactic(auto, unfolding(crate::specs::Quoting::quoted))]
pub fn quoted(alloc: Global, path: &[u8]) -> Result<Vec<u8>, NoMemory>
    ensures { IfOk result (λ text. text.items ≡ quoted path.now) }
{
    let mut out = Vec::new(alloc);
    push(&mut out, b"\"")?;
    for byte in path {
        push_quoted(&mut out, *byte)?;
    }
    push(&mut out, b"\"")?;
    Ok(out)
}

#[cfg(test)]
mod tests {
    use super::*;
    use std::test::Fail;

    #[test]
    fn quoted_bytes_are_printable(rt: HostRuntime) -> Result<(), Fail> {
        let cases: [(&[u8], &[u8]); 6] = [
            (b"", b"\"\""),
            (b"/a b", b"\"/a b\""),
            (b"\"\\\t\n\r\0", b"\"\\\"\\\\\\t\\n\\r\\0\""),
            (
                b"\x01\x0f\x1b\x1f\x7f",
                b"\"\\u{1}\\u{f}\\u{1b}\\u{1f}\\u{7f}\"",
            ),
            (b"\x20\x7e", b"\" ~\""),
            (b"\x80\xe9\xff", b"\"\\x80\\xE9\\xFF\""),
        ];
        for (path, want) in cases {
            assert_eq!(rt; quoted(rt.alloc(), path)?.as_slice(), want);
        }
        Ok(())
    }
}
