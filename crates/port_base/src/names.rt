//! The rules of file names.
ghost use Rattle.std.specs.Prelude.{◌≡◌};
ghost use Rattle.std.specs.List.{list_any};
ghost use Rattle.std.specs.Str.{is_utf8};
ghost use Rattle.port_base.specs.Names.{name_fault, is_dots, is_misspelled, is_separator};

use crate::errno::{EINVAL, ENAMETOOLONG, ENOENT};

/// The greatest length of a name, in bytes.
pub const NAME_LIMIT: usize = 255;

fn has_separator(name: &[u8]) -> bool
    ensures { result ≡ list_any is_separator name.now }
{
    name.iter().any(|b| *b == b'/' || *b == 0)
}

fn is_dots(name: &[u8]) -> bool
    ensures { result ≡ is_dots name.now }
{
    name == b".".as_slice() || name == b"..".as_slice()
}

/// Whether these bytes are text in UTF-8.
pub fn is_utf8(bytes: &[u8]) -> bool
    ensures { result ≡ is_utf8 bytes.now }
{
    match std::str::from_utf8(bytes) {
        Ok(_) => true,
        Err(_) => false,
    }
}

fn is_misspelled(name: &[u8]) -> bool
    ensures { result ≡ is_misspelled name.now }
{
    has_separator(name) || is_dots(name) || !is_utf8(name)
}

/// The first fault of a name, as an error number: ENOENT for an empty name, ENAMETOOLONG for more
/// than 255 bytes, EINVAL for a slash, a zero byte, `.`, `..`, or bytes that aren't UTF-8.
pub fn name_fault(name: &[u8]) -> Option<u32>
    ensures { result ≡ name_fault name.now }
{
    if name.is_empty() {
        return Some(ENOENT);
    }
    if name.len() > NAME_LIMIT {
        return Some(ENAMETOOLONG);
    }
    if is_misspelled(name) {
        return Some(EINVAL);
    }
    None
}

#[cfg(test)]
mod tests {
    use super::*;

    #[test]
    fn names_have_their_first_fault(rt: HostRuntime) {
        let long = [b'x'; 256];
        let most = [b'x'; 255];
        let cases: [(&[u8], Option<u32>); 12] = [
            (b"hello", None),
            (b"...", None),
            (&most, None),
            (b"", Some(2)),
            (&long, Some(36)),
            (b".", Some(22)),
            (b"..", Some(22)),
            (b"a/b", Some(22)),
            (b"a\0b", Some(22)),
            (b"caf\xe9", Some(22)),
            (b"\xed\xa0\x80", Some(22)),
            (b"caf\xc3\xa9", None),
        ];
        for (name, want) in cases {
            assert_eq!(rt; name_fault(name), want);
        }
    }
}
