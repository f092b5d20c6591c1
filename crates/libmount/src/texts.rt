// Bytes as printed text.
ghost use Rattle.std.specs.Prelude.{◌≡◌, ◌<◌, ◌++◌, Some, codes};
ghost use Rattle.std.specs.Fmt.{WritesOnOk};
ghost use Rattle.std.specs.List.{flat_map};
ghost use Rattle.port_base.specs.Quoting.{hex_digit, hex_number, quoted, quoted_byte};
ghost use Rattle.port_base.specs.Quoting.{upper_hex_digit};
ghost use Rattle.libmount.specs.Texts.{shown_byte};

use std::fmt;

/// Bytes that print as they are below 0x80, and as `\xHH` from 0x80 on.
#[derive(Clone, Copy)]
pub(crate) struct Shown<'a>(pub(crate) &'a [u8]);

// A digit of a number in base 16, with lower-case letters.
fn hex_digit(digit: u8) -> char
    requires { digit < 16 }
    ensures value { result ≡ hex_digit digit }
    ensures ascii { result < 128 }
{
    if digit < 10 {
        char::from(b'0' + digit)
    } else {
        char::from(b'a' + (digit - 10))
    }
}

// A digit of a number in base 16, with capital letters.
fn upper_hex_digit(digit: u8) -> char
    requires { digit < 16 }
    ensures value { result ≡ upper_hex_digit digit }
    ensures ascii { result < 128 }
{
    if digit < 10 {
        char::from(b'0' + digit)
    } else {
        char::from(b'A' + (digit - 10))
    }
}

fn write_byte<W: fmt::Write>(f: &mut fmt::Formatter<W>, byte: u8) -> fmt::Result
    ensures { WritesOnOk W.write_str_gives f.old result (shown_byte byte) f.new }
{
    if byte < 0x80 {
        return f.write_char(char::from(byte));
    }
    f.write_str("\\x")?;
    f.write_char(upper_hex_digit(byte / 16))?;
    f.write_char(upper_hex_digit(byte % 16))
}

impl fmt::Display for Shown<'_> {
    ghost output = { λ shown. Some (flat_map shown_byte shown.0.now) };

    fn fmt<W: fmt::Write>(&self, f: &mut fmt::Formatter<W>) -> fmt::Result {
        for byte in self.0 {
            write_byte(f, *byte)?;
        }
        Ok(())
    }
}

// A byte below 0x20, or 0x7f, by its number.
fn write_control<W: fmt::Write>(f: &mut fmt::Formatter<W>, byte: u8) -> fmt::Result
    ensures { WritesOnOk W.write_str_gives f.old result
        (codes "\\u{" ++ hex_number byte ++ codes "}") f.new }
{
    f.write_str("\\u{")?;
    if byte >= 16 {
        f.write_char(hex_digit(byte / 16))?;
    }
    f.write_char(hex_digit(byte % 16))?;
    f.write_str("}")
}

#[tactic(auto, unfolding(port_base::specs::Quoting::quoted_byte))]
fn write_quoted<W: fmt::Write>(f: &mut fmt::Formatter<W>, byte: u8) -> fmt::Result
    ensures { WritesOnOk W.write_str_gives f.old result (quoted_byte byte) f.new }
{
    match byte {
        b'"' => f.write_str("\\\""),
        b'\\' => f.write_str("\\\\"),
        b'\t' => f.write_str("\\t"),
        b'\n' => f.write_str("\\n"),
        b'\r' => f.write_str("\\r"),
        0 => f.write_str("\\0"),
        1..=0x1f | 0x7f => write_control(f, byte),
        0x20..=0x7e | 0x80..=0xff => write_byte(f, byte),
    }
}

/// Bytes that print between double quotes, as `port_base::quoting::quoted` writes them.
#[derive(Clone, Copy)]
pub(crate) struct Quoted<'a>(pub(crate) &'a [u8]);

impl fmt::Display for Quoted<'_> {
    ghost output = { λ text. Some (quoted text.0.now) };

    #[tactic(auto, unfolding(port_base::specs::Quoting::quoted))]
    fn fmt<W: fmt::Write>(&self, f: &mut fmt::Formatter<W>) -> fmt::Result {
        f.write_str("\"")?;
        for byte in self.0 {
            write_quoted(f, *byte)?;
        }
        f.write_str("\"")
    }
}
