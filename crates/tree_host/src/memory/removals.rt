//! Names that a tree in memory loses.
use super::TreeHost;
use crate::nodes::{remove_entry, sweep};

impl TreeHost {
    ghost use Rattle.std.specs.Prelude.{◌≡◌, Ok, true};
    ghost use Rattle.tree_model.specs.Tree.{body_at, keep};
    ghost use Rattle.tree_model.specs.Finding.{lookup_of};
    ghost use Rattle.tree_model.specs.Unlinking.{is_empty_at, without_entry};
    ghost use Rattle.tree_host.specs.Holds.{is_held};
    ghost use Rattle.tree_host.specs.TreeHosts.{tree, holds, KeepsRest};

    // An entry that was found goes, and what no entry and no hold names then.
    pub(super) fn remove(&mut self, dir: u64, name: &[u8], ino: u64)
        requires found { lookup_of (tree self.old) dir name.now ≡ Ok ino }
        requires empty { is_empty_at (body_at (tree self.old).records ino) ≡ true }
        ensures tree { tree self.new ≡ keep (is_held (holds self.old))
            (without_entry (tree self.old) dir name.now ino) }
        ensures rest { KeepsRest self.old self.new }
    {
        remove_entry(&mut self.nodes, dir, name, ino, self.moment);
        let holds = &self.holds;
        sweep(&mut self.nodes, holds, ino);
    }
}
