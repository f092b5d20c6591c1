//! Paths of a header's lines, which are written with escapes.
ghost use Rattle.std.specs.Prelude.{◌≡◌, ◌<◌, length, true, None, IfOk, IfSome};
ghost use Rattle.std.specs.Path.{rfind_below};
ghost use Rattle.port_base.specs.Escapes.{unescaped};
ghost use Rattle.port_base.specs.Names.{name_fault};
ghost use Rattle.mount9_run.specs.Reading.{Gives, or_refused};
ghost use Rattle.mount9_run.specs.HeaderRecords.{directory_path, is_record_path};
ghost use Rattle.mount9_run.specs.Paths.{split_last};

use crate::header::error::HeaderError;
use port_base::escapes::unescaped;
use std::alloc::Global;

/// The path that is written as this field of the line.
pub fn path_of_field(alloc: Global, at: u64, field: &[u8]) -> Result<Vec<u8>, HeaderError>
    ensures { Gives (λ path. path.items) result (or_refused at (unescaped field.now)) }
{
    match unescaped(alloc, field)? {
        Some(path) => Ok(path),
        None => Err(HeaderError::Line(at)),
    }
}

// The place of the last slash.
fn last_slash(path: &[u8]) -> Option<usize>
    ensures value { result ≡ rfind_below 47 path.now (length path.now) }
    ensures within { IfSome result (λ i. i < length path.now) }
{
    let mut end = path.len();
    'bytes: while end > 0 {
        end -= 1;
        if path[end] == b'/' {
            return Some(end);
        }
    }
    None
}

/// The path of the directory, of what stands before the last slash of a path below it.
pub fn directory_path(front: &[u8]) -> &[u8]
    ensures { result.now ≡ directory_path front.now }
{
    if front.is_empty() { b"/" } else { front }
}

/// What stands before the last slash of a record's path, and its name behind it.
#[tactic(auto, unfolding(crate::specs::Paths::split_last))]
pub fn split_path(at: u64, path: &[u8]) -> Result<(&[u8], &[u8]), HeaderError>
    requires { is_record_path path.now ≡ true }
    ensures value { Gives (λ x. (x.0.now, x.1.now)) result (or_refused at (split_last path.now)) }
    ensures named { IfOk result (λ x. name_fault x.1.now ≡ None) }
{
    match last_slash(path) {
        Some(i) => Ok((&path[..i], &path[i + 1..])),
        None => Err(HeaderError::Line(at)),
    }
}
