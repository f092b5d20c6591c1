//! Paths by their components.
ghost use Rattle.std.specs.Prelude.{◌≡◌, ◌<◌, ◌↔◌, IsTrue, true, length, bytes_eq, position};
ghost use Rattle.std.specs.Option.{option_map};
ghost use Rattle.std.specs.List.{before_first, after_first};
ghost use Rattle.std.specs.Iterator.{YieldsFirstRef, item_count};
ghost use Rattle.port_base.specs.Paths.{are_joined_names, is_rooted_path, components};
ghost use Rattle.port_base.specs.Paths.{components_left, is_name, is_slash, lead, names};
ghost use Rattle.port_base.specs.Paths.{path_starts_with, same_path, strip, FirstName, TakesLead};

use crate::names::name_fault;

fn first_slash(path: &[u8]) -> Option<usize>
    ensures { result ≡ position is_slash path.now }
{
    path.iter().position(|byte| *byte == b'/')
}

// What stands before the first slash, and what follows it.
fn first_part(path: &[u8]) -> (&[u8], &[u8])
    ensures part { result.0.now ≡ before_first is_slash path.now }
    ensures rest { result.1.now ≡ after_first is_slash path.now }
{
    match first_slash(path) {
        Some(at) => (&path[..at], &path[at + 1..]),
        None => (path, &path[path.len()..]),
    }
}

fn is_name(part: &[u8]) -> bool
    ensures { result ≡ is_name part.now }
{
    !part.is_empty() && part != b".".as_slice()
}

// The first name of a path, and what follows it.
fn first_name(path: &[u8]) -> Option<(&[u8], &[u8])>
    ensures { FirstName path.now (option_map (λ found. (found.0.now, found.1.now)) result) }
{
    let mut rest = path;
    'parts: while !rest.is_empty() {
        let (part, after) = first_part(rest);
        if is_name(part) {
            return Some((part, after));
        }
        rest = after;
    }
    None
}

// The slash that a path begins with, or the `.` that is the first part of a relative one.
fn lead(path: &[u8]) -> Option<&[u8]>
    ensures { option_map (λ part. part.now) result ≡ lead path.now }
{
    if !path.is_empty() && path[0] == b'/' {
        return Some(b"/");
    }
    let (part, _) = first_part(path);
    if part == b".".as_slice() {
        return Some(b".");
    }
    None
}

// The components of a path, one at a time.
#[derive(Drop)]
struct Components<'a> {
    rest: &'a [u8],
    begun: bool,
}

impl<'a> Components<'a> {
    fn new(path: &'a [u8]) -> Components<'a>
        ensures { components_left result ≡ components path.now }
    {
        Components {
            rest: path,
            begun: false,
        }
    }

    // The leading component, the first time.
    fn take_lead(&mut self) -> Option<&'a [u8]>
        ensures lead { TakesLead (components_left self.old) (components_left self.new)
            (option_map (λ part. part.now) result) }
        ensures begun { self.new.begun ≡ true }
    {
        if self.begun {
            return None;
        }
        self.begun = true;
        lead(self.rest)
    }

    // The first of the names that are left.
    fn take_name(&mut self) -> Option<&'a [u8]>
        requires { self.old.begun ≡ true }
        ensures { YieldsFirstRef components_left self.old result self.new }
    {
        match first_name(self.rest) {
            Some((name, rest)) => {
                self.rest = rest;
                Some(name)
            }
            None => None,
        }
    }
}

impl<'a> Iterator for Components<'a> {
    type Item = &'a [u8];

    ghost next_gives = { YieldsFirstRef components_left };

    ghost remaining = { item_count components_left };

    fn next(&mut self) -> Option<&'a [u8]> {
        match self.take_lead() {
            Some(first) => Some(first),
            None => self.take_name(),
        }
    }
}

// What follows the components of a base, where a path begins with them.
fn strip<'a>(mut path: Components<'a>, mut base: Components<'_>) -> Option<Components<'a>>
    ensures { option_map components_left result ≡ strip (components_left path.entry)
        (components_left base.entry) }
{
    'parts: while let Some(part) = base.next() {
        match path.next() {
            Some(own) => {
                if part != own {
                    return None;
                }
            }
            None => return None,
        }
    }
    Some(path)
}

/// Whether two paths have the same components, as Rust's `Path` compares them: empty parts and `.`
/// parts are passed over, but for a `.` that a relative path begins with, and the slash that an
/// absolute path begins with counts.
pub fn same_path(a: &[u8], b: &[u8]) -> bool
    ensures value { result ≡ same_path a.now b.now }
    ensures components { IsTrue result ↔ (components a.now ≡ components b.now) }
{
    match strip(Components::new(b), Components::new(a)) {
        Some(mut rest) => rest.next().is_none(),
        None => false,
    }
}

/// Whether the components of a path begin with those of a base.
pub fn path_starts_with(path: &[u8], base: &[u8]) -> bool
    ensures { result ≡ path_starts_with path.now base.now }
{
    strip(Components::new(path), Components::new(base)).is_some()
}

// Whether a path is names without fault, joined by single slashes.
fn are_joined_names(path: &[u8]) -> bool
    ensures { result ≡ are_joined_names path.now }
{
    path.split(|byte| *byte == b'/')
        .all(|part| name_fault(part).is_none())
}

/// Whether a path is `/`, or `/` and names without fault joined by single slashes.
pub fn is_rooted_path(path: &[u8]) -> bool
    ensures { result ≡ is_rooted_path path.now }
{
    !path.is_empty() && path[0] == b'/' && (path.len() == 1 || are_joined_names(&path[1..]))
}

#[cfg(test)]
mod tests {
    use super::*;

    #[test]
    fn paths_are_compared_by_components(rt: HostRuntime) {
        let cases: [(&[u8], &[u8], bool, bool); 16] = [
            (b"/proc", b"/proc/", true, true),
            (b"/proc", b"//proc/./", true, true),
            (b"/proc/", b"proc", false, false),
            (b"./proc", b"proc", false, false),
            (b"./proc", b"./proc/.", true, true),
            (b"proc/./self", b"proc//self", true, true),
            (b"", b"", true, true),
            (b"/", b"", false, true),
            (b".", b"", false, true),
            (b".", b"./", true, true),
            (b"/./a", b"/a", true, true),
            (b"/a/../b", b"/b", false, false),
            (b"/a/b", b"/a", false, true),
            (b"/ab", b"/a", false, false),
            (b"/a", b"/a/b", false, false),
            (b"/\xff", b"/\xff/", true, true),
        ];
        for (a, b, same, starts) in cases {
            assert_eq!(rt; same_path(a, b), same);
            assert_eq!(rt; same_path(b, a), same);
            assert_eq!(rt; path_starts_with(a, b), starts);
        }
    }
}
