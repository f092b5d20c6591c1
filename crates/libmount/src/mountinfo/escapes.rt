// Texts in which a backslash and three octal digits are one byte.
ghost use Rattle.std.specs.Prelude.{◌≡◌, ◌<◌, ◌≤◌, IsTrue, IfOk, length};
ghost use Rattle.libmount.specs.Escapes.{has_escape, is_octal, octal_value, starts_with_escape};
ghost use Rattle.libmount.specs.Escapes.{decoded, TakesByte};
ghost use Rattle.libmount.specs.Slices.{FieldLiesIn, placed};
ghost use Rattle.libmount.specs.Views.{text, GivesText};
ghost use Rattle.libmount.specs.Rows.{text_bytes, text_of};

use crate::mountinfo::refusals::Refusal;
use port_base::sink::NoMemory;
use std::alloc::Global;

/// A text field of a row: where no escape stands in it, that very part of the row, and else its
/// decoded bytes.
#[derive(Debug, Drop)]
pub enum Field<'a> {
    Borrowed(&'a [u8]),
    Owned(Vec<u8>),
}

impl Field<'_> {
    /// The bytes that are meant.
    pub fn as_bytes(&self) -> &[u8]
        ensures { result.now ≡ text_bytes (text self.now) }
    {
        match self {
            Field::Borrowed(bytes) => bytes,
            Field::Owned(bytes) => bytes.as_slice(),
        }
    }
}

fn is_octal(byte: u8) -> bool
    ensures { result ≡ is_octal byte }
{
    byte >= b'0' && byte <= b'7'
}

// Whether a backslash and three octal digits stand at the front.
fn starts_with_escape(text: &[u8]) -> bool
    ensures value { result ≡ starts_with_escape text.now }
    ensures long { IsTrue result → 4 ≤ length text.now }
{
    text.len() >= 4
        && text[0] == b'\\'
        && is_octal(text[1])
        && is_octal(text[2])
        && is_octal(text[3])
}

fn has_escape(text: &[u8]) -> bool
    ensures { result ≡ has_escape text.now }
{
    for at in 0..text.len() {
        if starts_with_escape(&text[at..]) {
            return true;
        }
    }
    false
}

// The byte that three octal digits stand for; of a number from 256 on it is the low byte.
fn octal_value(high: u8, middle: u8, low: u8) -> u8
    ensures { result ≡ octal_value high middle low }
{
    let high = u16::from(high.saturating_sub(b'0'));
    let middle = u16::from(middle.saturating_sub(b'0'));
    let low = u16::from(low.saturating_sub(b'0'));
    ((64 * high + 8 * middle + low) % 256) as u8
}

// The first byte that is meant, and what follows it.
fn first_byte(text: &[u8]) -> (u8, &[u8])
    requires { 0 < length text.now }
    ensures { TakesByte text.now result.0 result.1.now }
{
    if starts_with_escape(text) {
        (octal_value(text[1], text[2], text[3]), &text[4..])
    } else {
        (text[0], &text[1..])
    }
}

fn decode(alloc: Global, text: &[u8]) -> Result<Vec<u8>, NoMemory>
    ensures { IfOk result (λ bytes. bytes.items ≡ decoded text.now) }
{
    let Ok(mut bytes) = Vec::with_capacity(alloc, text.len()) else {
        return Err(NoMemory);
    };
    let mut rest = text;
    'bytes: while !rest.is_empty() {
        let (byte, after) = first_byte(rest);
        if bytes.push(byte).is_err() {
            return Err(NoMemory);
        }
        rest = after;
    }
    Ok(bytes)
}

/// A field as a text: borrowed where no escape stands in it.
pub(crate) fn text_of<'a>(alloc: Global, field: &'a [u8]) -> Result<Field<'a>, Refusal<'a>>
    ensures value { GivesText result (text_of (placed field.entry)) }
    ensures part { IfOk result (FieldLiesIn field.entry) }
{
    if !has_escape(field) {
        return Ok(Field::Borrowed(field));
    }
    match decode(alloc, field) {
        Ok(bytes) => Ok(Field::Owned(bytes)),
        Err(_) => Err(Refusal::NoMemory),
    }
}
