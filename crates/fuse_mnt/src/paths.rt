// Paths by their names.
ghost use Rattle.std.specs.Prelude.{◌≡◌, ◌≤◌, ◌++◌, IfOk, OnOk, drop, is_some, length, position};
ghost use Rattle.std.specs.List.{after_first, before_first, flat_map};
ghost use Rattle.std.specs.Option.{option_map};
ghost use Rattle.port_base.specs.Paths.{FirstName, components, is_name, is_slash, lead, names};
ghost use Rattle.libmount.specs.MountTables.{moved_path};
ghost use Rattle.fuse_mnt.specs.Tables.{behind_slash, or_top};

use port_base::buffer::push;
use port_base::sink::NoMemory;
use std::alloc::Global;

fn first_slash(path: &[u8]) -> Option<usize>
    ensures { result ≡ position is_slash path.now }
{
    path.iter().position(|byte| *byte == b'/')
}

// What stands before the first slash, and what follows it.
fn first_part(path: &[u8]) -> (&[u8], &[u8])
    ensures part { result.0.now ≡ before_first is_slash path.now }
    ensures rest { result.1.now ≡ after_first is_slash path.now }
{
    match first_slash(path) {
        Some(at) => (&path[..at], &path[at + 1..]),
        None => (path, &path[path.len()..]),
    }
}

fn is_name(part: &[u8]) -> bool
    ensures { result ≡ is_name part.now }
{
    !part.is_empty() && part != b".".as_slice()
}

// The first name of a path, and what follows it.
fn first_name(path: &[u8]) -> Option<(&[u8], &[u8])>
    ensures { FirstName path.now (option_map (λ found. (found.0.now, found.1.now)) result) }
{
    let mut rest = path;
    'parts: while !rest.is_empty() {
        let (part, after) = first_part(rest);
        if is_name(part) {
            return Some((part, after));
        }
        rest = after;
    }
    None
}

// How many names a path has.
fn name_count(path: &[u8]) -> usize
    ensures count { result ≡ length (names path.now) }
    ensures small { result ≤ length path.now }
{
    let mut rest = path;
    let mut count: usize = 0;
    'names: while let Some((_, after)) = first_name(rest) {
        count += 1;
        rest = after;
    }
    count
}

// Whether a path begins with a slash, or is a relative one that begins with the part `.`.
fn has_lead(path: &[u8]) -> bool
    ensures { result ≡ is_some (lead path.now) }
{
    if !path.is_empty() && path[0] == b'/' {
        return true;
    }
    let (part, _) = first_part(path);
    part == b".".as_slice()
}

// How many components a path has.
#[tactic(auto, using(crate::proofs::PathLemmas::counted_with, crate::proofs::PathLemmas::counted_without))]
pub(crate) fn component_count(path: &[u8]) -> usize
    ensures { result ≡ length (components path.now) }
{
    let count = name_count(path);
    if has_lead(path) { count + 1 } else { count }
}

// What a path has behind as many names as another path has.
fn behind_names<'a>(path: &'a [u8], other: &[u8]) -> &'a [u8]
    ensures { names result.now ≡ drop (length (names other.now)) (names path.now) }
{
    let mut rest = path;
    let mut left = other;
    'names: while let Some((_, others)) = first_name(left) {
        left = others;
        if let Some((_, after)) = first_name(rest) {
            rest = after;
        }
    }
    rest
}

// The names of a path, each behind a slash.
fn push_names(out: &mut Vec<u8>, path: &[u8]) -> Result<(), NoMemory>
    ensures { OnOk result (out.new.items ≡ out.old.items ++ flat_map behind_slash (names path.now)) }
{
    let mut rest = path;
    'names: while let Some((name, after)) = first_name(rest) {
        push(out, b"/")?;
        push(out, name)?;
        rest = after;
    }
    Ok(())
}

// The path that names make, where there are none the top.
fn end_path(out: &mut Vec<u8>) -> Result<(), NoMemory>
    ensures { OnOk result (out.new.items ≡ or_top out.old.items) }
{
    if out.is_empty() {
        push(out, b"/")
    } else {
        Ok(())
    }
}

// A path, with what it has below one place put below another.
pub(crate) fn moved_path(
    alloc: Global,
    from: &[u8],
    to: &[u8],
    path: &[u8],
) -> Result<Vec<u8>, NoMemory>
    ensures { IfOk result (λ moved. moved.items ≡ moved_path from.now to.now path.now) }
{
    let mut out = Vec::new(alloc);
    push_names(&mut out, to)?;
    push_names(&mut out, behind_names(path, from))?;
    end_path(&mut out)?;
    Ok(out)
}
