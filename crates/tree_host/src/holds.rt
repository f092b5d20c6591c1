//! Counts of holds, kept in a table.
ghost use Rattle.std.specs.Prelude.{◌≡◌, ◌-◌, ◌^◌, ◌<◌, OnOk, OnErr, IsOk, IsSome, Some, ℕ};
ghost use Rattle.std.specs.FinMap as map;
ghost use Rattle.tree_host.specs.Holds.{hold_count, held_more, held_less, is_held};

use port_base::table::Table;
use std::alloc::AllocError;

/// How often an inode is held.
pub fn count(holds: &Table<u64>, ino: u64) -> u64
    ensures { result ≡ hold_count holds.now ino }
{
    holds.get(ino).copied().unwrap_or(0)
}

/// One hold more. An inode that is held takes no memory.
pub fn hold(holds: &mut Table<u64>, ino: u64) -> Result<(), AllocError>
    requires { hold_count holds.old ino < 2 ^ 64 - 1 }
    ensures ok { OnOk result (holds.new ≡ held_more holds.old ino) }
    ensures err { OnErr result (holds.new ≡ holds.old) }
    ensures present { 0 < hold_count holds.old ino → IsOk result }
{
    let held = count(holds, ino);
    holds.insert(ino, held + 1)
}

/// One hold less.
pub fn lower(holds: &mut Table<u64>, ino: u64)
    requires { 0 < hold_count holds.old ino }
    ensures { holds.new ≡ held_less holds.old ino }
{
    let held = count(holds, ino);
    if held > 1 {
        holds.replace(ino, held - 1);
    } else {
        holds.remove(ino);
    }
}

/// Whether an inode is held.
pub fn is_held(holds: &Table<u64>, ino: u64) -> bool
    ensures { result ≡ is_held holds.now ino }
{
    count(holds, ino) > 0
}
