// Mounts that go to another place.
ghost use Rattle.std.specs.Prelude.{◌≡◌, ◌++◌, ◌∷◌, [], ◌==◌, IfOk, OnOk, filter, map};
ghost use Rattle.std.specs.List.{fold, list_any};
ghost use Rattle.libmount.specs.MountTables.{is_among, moved_row, relocated, stays_among};
ghost use Rattle.libmount.specs.MountTables.{with_child, with_parent};

use crate::lookups::cover_id;
use crate::paths::moved_path;
use crate::rows::{MountRow, append_rows, push_row};
use port_base::sink::NoMemory;
use std::alloc::Global;

fn has_id(ids: &[u64], id: u64) -> bool
    ensures { result ≡ list_any (λ own. own == id) ids.now }
{
    for own in ids {
        if *own == id {
            return true;
        }
    }
    false
}

// Adds the number of a row whose parent is among those of the numbers.
fn add_child(ids: &mut Vec<u64>, row: &MountRow) -> Result<(), NoMemory>
    ensures { OnOk result (ids.new.items ≡ with_child ids.old.items row.now) }
{
    if has_id(ids, row.parent) {
        ids.insert(0, row.id).map_err(|_| NoMemory)?;
    }
    Ok(())
}

// The numbers of a mount and of those below it, by their parents.
fn ids_below(alloc: Global, rows: &[MountRow], top: u64) -> Result<Vec<u64>, NoMemory>
    ensures { IfOk result (λ ids. ids.items ≡ fold with_child (top ∷ []) rows.now) }
{
    let mut ids = Vec::new(alloc);
    ids.push(top).map_err(|_| NoMemory)?;
    for row in rows {
        add_child(&mut ids, row)?;
    }
    Ok(ids)
}

// Adds a row that stays where it is.
fn push_other(
    alloc: Global,
    out: &mut Vec<MountRow>,
    row: &MountRow,
    ids: &[u64],
) -> Result<(), NoMemory>
    ensures { OnOk result
        (out.new.items ≡ out.old.items ++ filter (stays_among ids.now) (row.now ∷ [])) }
{
    if !has_id(ids, row.id) {
        push_row(out, row.try_clone(alloc)?)?;
    }
    Ok(())
}

// The rows that stay where they are.
#[tactic(auto, using(crate::proofs::MovingLemmas::filter_more))]
fn others(alloc: Global, rows: &[MountRow], ids: &[u64]) -> Result<Vec<MountRow>, NoMemory>
    ensures { IfOk result (λ others. others.items ≡ filter (stays_among ids.now) rows.now) }
{
    let mut others = Vec::new(alloc);
    for row in rows {
        push_other(alloc, &mut others, row, ids)?;
    }
    Ok(others)
}

// Adds a row at its new place.
fn push_at(
    alloc: Global,
    out: &mut Vec<MountRow>,
    row: &MountRow,
    source: &[u8],
    target: &[u8],
) -> Result<(), NoMemory>
    ensures { OnOk result
        (out.new.items ≡ out.old.items ++ moved_row source.now target.now row.now ∷ []) }
{
    let point = moved_path(alloc, source, target, &row.point)?;
    let root = row.root.to_vec(alloc).map_err(|_| NoMemory)?;
    push_row(out, row.copy_at(alloc, root, point)?)
}

// Adds a row that goes to another place.
fn push_moved(
    alloc: Global,
    out: &mut Vec<MountRow>,
    row: &MountRow,
    ids: &[u64],
    source: &[u8],
    target: &[u8],
) -> Result<(), NoMemory>
    ensures { OnOk result
        (out.new.items ≡ out.old.items
        ++ map (moved_row source.now target.now) (filter (is_among ids.now) (row.now ∷ []))) }
{
    if has_id(ids, row.id) {
        push_at(alloc, out, row, source, target)?;
    }
    Ok(())
}

// The rows that go to another place.
#[tactic(auto, using(crate::proofs::MovingLemmas::map_filter_more))]
fn moved(
    alloc: Global,
    rows: &[MountRow],
    ids: &[u64],
    source: &[u8],
    target: &[u8],
) -> Result<Vec<MountRow>, NoMemory>
    ensures { IfOk result
        (λ moved. moved.items ≡ map (moved_row source.now target.now)
        (filter (is_among ids.now) rows.now)) }
{
    let mut moved = Vec::new(alloc);
    for row in rows {
        push_moved(alloc, &mut moved, row, ids, source, target)?;
    }
    Ok(moved)
}

// The first row gets a parent.
fn set_parent(rows: &mut [MountRow], parent: u64)
    ensures { rows.new ≡ with_parent parent rows.old }
{
    if let Some(first) = rows.first_mut() {
        first.parent = parent;
    }
}

// The rows after a move: the mount and those below it are at the end, below the target.
pub(crate) fn relocated(
    alloc: Global,
    rows: &[MountRow],
    top: u64,
    source: &[u8],
    target: &[u8],
) -> Result<Vec<MountRow>, NoMemory>
    ensures { IfOk result
        (λ found. found.items ≡ relocated source.now target.now top rows.now) }
{
    let ids = ids_below(alloc, rows, top)?;
    let mut all = others(alloc, rows, &ids)?;
    let mut moved = moved(alloc, rows, &ids, source, target)?;
    set_parent(&mut moved, cover_id(&all, target));
    append_rows(&mut all, moved)?;
    Ok(all)
}
