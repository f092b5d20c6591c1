//! The text of a header: the bytes of the input up to the first line `end`.
ghost use Rattle.std.specs.Prelude.{◌≡◌, ◌≤◌, length, bytes_eq, codes};
ghost use Rattle.mount9_run.specs.HeaderViews.{TakesText, Scans};

use port_base::source::{Source, read_full};

/// The greatest length of a header, in bytes, its line `end` included.
pub const HEADER_LIMIT: usize = 16777216;

/// Why no header was taken.
#[derive(Clone, Copy, Debug, PartialEq, Eq)]
pub enum TextError {
    /// No line `end` ends within the limit.
    NoEnd,
    /// The source failed.
    Read,
    NoMemory,
}

fn is_end(line: &[u8]) -> bool
    ensures { result ≡ bytes_eq line.now (codes "end") }
{
    line == b"end".as_slice()
}

// Adds a byte: `None` where it ends the line `end`, else the start of the line that goes on.
#[tactic(auto, unfolding(crate::specs::Header::text_from))]
fn scan(text: &mut Vec<u8>, start: usize, byte: u8) -> Result<Option<usize>, TextError>
    requires { start ≤ length text.old.items }
    ensures { Scans text.old.items start byte text.new.items result }
{
    let last = is_end(&text[start..]);
    if text.push(byte).is_err() {
        return Err(TextError::NoMemory);
    }
    if byte != b'\n' {
        return Ok(Some(start));
    }
    if last {
        return Ok(None);
    }
    Ok(Some(text.len()))
}

/// Takes the bytes up to the first line `end`, and no byte after it.
pub fn take_text<S: Source>(source: &mut S, text: &mut Vec<u8>) -> Result<(), TextError>
    ensures takes { TakesText (S.left source.old) (S.left source.new) (S.faults source.old)
        (S.faults source.new) text.new.items result }
    ensures kept { S.kept source.new ≡ S.kept source.old }
    ensures lender { S.lender source.new ≡ S.lender source.old }
{
    text.clear();
    let mut start = 0;
    'bytes: for _ in 0..HEADER_LIMIT {
        let mut next = [0u8; 1];
        match read_full(source, &mut next) {
            Ok(n) => {
                if n == 0 {
                    return Err(TextError::NoEnd);
                }
            }
            Err(_) => return Err(TextError::Read),
        }
        match scan(text, start, next[0])? {
            None => return Ok(()),
            Some(more) => start = more,
        }
    }
    Err(TextError::NoEnd)
}
