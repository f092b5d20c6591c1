//! Bytes that are written to a file of a tree in memory.
use super::TreeHost;
use crate::node::fitting;
use crate::nodes::write_node;
use tree_model::HostError;

impl TreeHost {
    ghost use Rattle.std.specs.Prelude.{◌≡◌};
    ghost use Rattle.tree_model.specs.Attributing.{write_of};
    ghost use Rattle.tree_host.specs.Host.{Leaves};
    ghost use Rattle.tree_host.specs.Calls.{Caused};
    ghost use Rattle.tree_host.specs.TreeHosts.{tree, holds, calls};

    // A call that writes, and how many bytes.
    pub(super) fn write(&mut self, ino: u64, offset: u64, bytes: &[u8]) -> Result<usize, HostError>
        ensures leaves { Leaves (write_of (tree self.old) ino offset bytes.now)
            (tree self.old) (tree self.new) result }
        ensures holds { holds self.new ≡ holds self.old }
        ensures caused { Caused (calls self.old) (calls self.new) result }
    {
        if self.failing.count() {
            return Err(HostError::Fault);
        }
        let count = fitting(bytes, offset, self.limits.file).len();
        match write_node(
            &mut self.nodes,
            ino,
            offset,
            bytes,
            self.moment,
            self.limits.file,
        ) {
            Ok(()) => Ok(count),
            Err(error) => Err(error),
        }
    }
}
