// Rows of a table by their paths.
ghost use Rattle.std.specs.Prelude.{◌≡◌, ◌<◌, length, ◌&&◌, ◌||◌, ◌==◌, slice_index_or};
ghost use Rattle.std.specs.Prelude.{if◌then◌else◌};
ghost use Rattle.std.specs.List.{list_any};
ghost use Rattle.port_base.specs.Paths.{same_path};
ghost use Rattle.port_base.specs.Words.{words_of};
ghost use Rattle.libmount.specs.MountTables.{cover, is_absolute, is_among, is_below, is_parent_of};
ghost use Rattle.libmount.specs.MountTables.{nearer, root_mount};
ghost use Rattle.fuse_mnt.specs.Tables.{IsLastAt, cover_id};

use crate::paths::component_count;
use crate::rows::MountRow;
use port_base::paths::{path_starts_with, same_path};

// Whether an absolute path is among those that are there.
pub(crate) fn is_there(present: &[Vec<u8>], path: &[u8]) -> bool
    ensures { result ≡ (is_absolute path.now && list_any (same_path path.now) (words_of present.now)) }
{
    if path.first() != Some(&b'/') {
        return false;
    }
    for there in present {
        if same_path(path, there) {
            return true;
        }
    }
    false
}

// Whether a row's mount point is the longer front of a path, or as long as the best one.
fn is_nearer(path: &[u8], best: &MountRow, row: &MountRow) -> bool
    ensures { nearer path.now best.now row.now ≡ (if result then row.now else best.now) }
{
    path_starts_with(path, &row.point)
        && component_count(&row.point) >= component_count(&best.point)
}

// The mount that shows a path.
pub(crate) fn cover<'a>(rows: &'a [MountRow], path: &[u8]) -> &'a MountRow
    requires { 0 < length rows.now }
    ensures { result.now ≡ cover path.now rows.now }
{
    let mut best = &rows[0];
    for row in rows {
        if is_nearer(path, best, row) {
            best = row;
        }
    }
    best
}

// The number of the mount that shows a path.
#[tactic(auto, unfolding(crate::specs::Tables::cover_id))]
pub(crate) fn cover_id(rows: &[MountRow], path: &[u8]) -> u64
    ensures { result ≡ cover_id path.now rows.now }
{
    if rows.is_empty() {
        return 1;
    }
    cover(rows, path).id
}

// Where the last row at a path stands.
pub(crate) fn last_at(rows: &[MountRow], path: &[u8]) -> Option<usize>
    ensures { IsLastAt path.now rows.now result }
{
    let mut at = rows.len();
    'rows: while at > 0 {
        at -= 1;
        let row = &rows[at];
        if same_path(&row.point, path) {
            return Some(at);
        }
    }
    None
}

// Whether another row is mounted on a row.
fn is_parent(rows: &[MountRow], row: &MountRow) -> bool
    ensures { result ≡ list_any (is_parent_of row.now) rows.now }
{
    for other in rows {
        if other.parent == row.id && other.id != row.id {
            return true;
        }
    }
    false
}

// Whether a row is the root or has another one on it, and so stays.
pub(crate) fn is_busy(rows: &[MountRow], at: usize) -> bool
    requires { at < length rows.now }
    ensures { result ≡ (((slice_index_or rows.now at root_mount).id == 1)
        || list_any (is_parent_of (slice_index_or rows.now at root_mount)) rows.now) }
{
    let row = &rows[at];
    row.id == 1 || is_parent(rows, row)
}

// Whether a row's mount point is strictly below a path.
pub(crate) fn is_below(path: &[u8], row: &MountRow) -> bool
    ensures { result ≡ is_below path.now row.now }
{
    path_starts_with(&row.point, path) && !same_path(&row.point, path)
}
