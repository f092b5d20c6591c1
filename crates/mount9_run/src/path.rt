//! Paths of directories.
ghost use Rattle.std.specs.Prelude.{◌≡◌, ◌==◌, ◌<◌, length};
ghost use Rattle.std.specs.List.{list_any, list_all, slice_split};
ghost use Rattle.mount9_run.specs.Paths.{is_part, is_rooted, is_path, is_root};

use port_base::paths::is_rooted_path;

/// The greatest length of a path, in bytes.
pub const PATH_LIMIT: usize = 4095;

fn is_part(part: &[u8]) -> bool
    ensures { result ≡ is_part part.now }
{
    !(part.is_empty() || part == b".".as_slice() || part == b"..".as_slice())
}

fn has_zero(path: &[u8]) -> bool
    ensures { result ≡ list_any (λ b. b == 0) path.now }
{
    path.iter().any(|b| *b == 0)
}

fn are_parts(path: &[u8]) -> bool
    ensures { result ≡ list_all is_part (slice_split (λ b. b == 47) path.now) }
{
    path.split(|b| *b == b'/').all(|part| is_part(part))
}

fn is_rooted(path: &[u8]) -> bool
    ensures { result ≡ is_rooted path.now }
{
    !path.is_empty() && path[0] == b'/' && (path.len() == 1 || are_parts(&path[1..]))
}

/// Whether this is `/`, or `/` and names joined by single slashes, each without fault: at most
/// 4095 bytes.
pub fn is_root(path: &[u8]) -> bool
    ensures { result ≡ is_root path.now }
{
    path.len() <= PATH_LIMIT && is_rooted_path(path)
}

/// Whether this is `/`, or `/` and parts joined by `/`: no part empty, `.` or `..`, no zero byte,
/// at most 4095 bytes.
#[tactic(auto, unfolding(crate::specs::Paths::is_path))]
pub fn is_path(path: &[u8]) -> bool
    ensures { result ≡ is_path path.now }
{
    path.len() <= PATH_LIMIT && !has_zero(path) && is_rooted(path)
}
