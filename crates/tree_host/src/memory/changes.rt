//! What changes one record of a tree in memory while it is served.
use super::TreeHost;
use crate::change::Change;
use crate::nodes::change_node;
use tree_model::HostError;

impl TreeHost {
    ghost use Rattle.std.specs.Prelude.{◌≡◌, ◌≢◌, IsTrue, Err};
    ghost use Rattle.tree_host.specs.Changing.{change_of, is_small};
    ghost use Rattle.tree_host.specs.Host.{Leaves};
    ghost use Rattle.tree_host.specs.Calls.{Caused};
    ghost use Rattle.tree_host.specs.TreeHosts.{tree, holds, calls};

    // A call that makes a change.
    pub(super) fn change(&mut self, ino: u64, wanted: Change) -> Result<(), HostError>
        ensures leaves { Leaves (change_of wanted (tree self.old) ino)
            (tree self.old) (tree self.new) result }
        ensures holds { holds self.new ≡ holds self.old }
        ensures memory { IsTrue (is_small wanted) → result ≢ Err HostError.NoMemory }
        ensures caused { Caused (calls self.old) (calls self.new) result }
    {
        if self.failing.count() {
            return Err(HostError::Fault);
        }
        change_node(&mut self.nodes, ino, wanted, self.moment, self.limits.file)
    }
}
