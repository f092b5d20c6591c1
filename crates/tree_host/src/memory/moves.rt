//! Names of a tree in memory that move.
ghost use Rattle.std.specs.Prelude.{◌≡◌};
ghost use Rattle.tree_model.specs.Renaming.{same_ino};

use super::TreeHost;
use crate::nodes::{
    Move, Place, find_in, found, has_no_links, is_directory, move_entry, move_refusal,
    sweep_replaced,
};
use port_base::errno::{ENOENT, ENOTDIR};
use tree_model::HostError;

fn is_same(there: Option<u64>, ino: u64) -> bool
    ensures { result ≡ same_ino ino there }
{
    match there {
        Some(other) => other == ino,
        None => false,
    }
}

impl TreeHost {
    ghost use Rattle.std.specs.Prelude.{◌≡◌, ◌≢◌, Ok, Err, None, not, true, false, IfErr, OnOk};
    ghost use Rattle.port_base.specs.Names.{name_fault};
    ghost use Rattle.tree_model.specs.Tree.{body_at, is_directory_at, is_linked, keep};
    ghost use Rattle.tree_model.specs.Finding.{lookup_of};
    ghost use Rattle.std.specs.Result.{result_ok};
    ghost use Rattle.tree_model.specs.Renaming.{move_refused, with_moved, without_replaced};
    ghost use Rattle.tree_model.specs.Renaming.{move_to, rename_of};
    ghost use Rattle.tree_host.specs.Holds.{is_held};
    ghost use Rattle.tree_host.specs.Host.{Leaves};
    ghost use Rattle.tree_host.specs.TreeHosts.{tree, holds, KeepsRest};

    // Moves an entry that nothing refuses to move, and what it replaces goes.
    fn move_free(&mut self, moved: Move<'_>) -> Result<(), HostError>
        requires named { name_fault moved.to.name.now ≡ None }
        requires old { lookup_of (tree self.old) moved.from.dir moved.from.name.now
            ≡ Ok moved.ino }
        requires new { moved.there ≡ result_ok (lookup_of (tree self.old) moved.to.dir
            moved.to.name.now) }
        requires directory { is_directory_at
            (body_at (tree self.old).records moved.to.dir) ≡ true }
        requires live { is_linked (tree self.old).records moved.to.dir ≡ true }
        requires other { same_ino moved.ino moved.there ≡ false }
        requires free { move_refused (tree self.old) moved.from.dir moved.to.dir
            moved.ino moved.there ≡ None }
        ensures ok { OnOk result (tree self.new ≡ keep (is_held (holds self.old))
            (with_moved (without_replaced (tree self.old) moved.entry.to.dir
            moved.entry.to.name.now moved.entry.there) moved.entry.from.dir
            moved.entry.from.name.now moved.entry.to.dir moved.entry.to.name.now
            moved.entry.ino)) }
        ensures err { IfErr result (λ e. (e ≡ HostError.NoMemory) ×
            (tree self.new ≡ tree self.old)) }
        ensures rest { KeepsRest self.old self.new }
    {
        move_entry(self.alloc, &mut self.nodes, moved, self.moment)?;
        let holds = &self.holds;
        sweep_replaced(&mut self.nodes, holds, moved.there);
        Ok(())
    }

    // Moves an entry, or tells why it can't be moved.
    fn move_found(&mut self, from: Place<'_>, to: Place<'_>, ino: u64) -> Result<(), HostError>
        requires named { name_fault to.name.now ≡ None }
        requires old { lookup_of (tree self.old) from.dir from.name.now ≡ Ok ino }
        requires directory { is_directory_at (body_at (tree self.old).records to.dir)
            ≡ true }
        requires live { is_linked (tree self.old).records to.dir ≡ true }
        ensures leaves { Leaves (move_to (is_held (holds self.old)) (tree self.old) from.entry.dir
            from.entry.name.now to.entry.dir to.entry.name.now ino
            (result_ok (lookup_of (tree self.old) to.entry.dir to.entry.name.now)))
            (tree self.old) (tree self.new) result }
        ensures fault { result ≢ Err HostError.Fault }
        ensures rest { KeepsRest self.old self.new }
    {
        let there = found(&self.nodes, to.dir, to.name);
        if is_same(there, ino) {
            return Ok(());
        }
        let moved = Move {
            from,
            to,
            ino,
            there,
        };
        if let Some(errno) = move_refusal(&self.nodes, moved, self.next, self.limits) {
            return Err(HostError::Errno(errno));
        }
        self.move_free(moved)
    }

    fn is_unlinked(&self, dir: u64) -> bool
        requires { is_directory_at (body_at (tree self.now).records dir) ≡ true }
        ensures { result ≡ not (is_linked (tree self.now).records dir) }
    {
        has_no_links(&self.nodes, dir)
    }

    pub(super) fn rename_entry(
        &mut self,
        olddir: u64,
        oldname: &[u8],
        newdir: u64,
        newname: &[u8],
    ) -> Result<(), HostError>
        requires { name_fault newname.now ≡ None }
        ensures leaves { Leaves (rename_of (is_held (holds self.old)) (tree self.old) olddir
            oldname.now newdir newname.now) (tree self.old) (tree self.new) result }
        ensures fault { result ≢ Err HostError.Fault }
        ensures rest { KeepsRest self.old self.new }
    {
        let from_directory = is_directory(&self.nodes, olddir);
        let to_directory = is_directory(&self.nodes, newdir);
        if !from_directory || !to_directory {
            return Err(HostError::Errno(ENOTDIR));
        }
        let ino = find_in(&self.nodes, olddir, oldname)?;
        if self.is_unlinked(newdir) {
            return Err(HostError::Errno(ENOENT));
        }
        let from = Place {
            dir: olddir,
            name: oldname,
        };
        let to = Place {
            dir: newdir,
            name: newname,
        };
        self.move_found(from, to, ino)
    }
}
