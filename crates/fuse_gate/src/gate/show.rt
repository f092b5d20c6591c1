// What is shown of a fid's inode.
ghost use Rattle.std.specs.Prelude.{◌≡◌, ◌≤◌, IfOk, OnOk, OnErr, IsSome};
ghost use Rattle.std.specs.FinMap as map;
ghost use Rattle.fid_model.specs.Moments.{FidAnswered, Keeps, SameTree, Untouched};
ghost use Rattle.fuse_gate.specs.Replies.{attributes_shown};
ghost use Rattle.fuse_gate.specs.Changes.{one_sent};

use crate::gate::reply::file_attr;
use crate::gate::{Gate, LEAST_MSIZE};
use fid_model::Nine;
use fuse_wire::attr::FileAttr;
use p9_client::get_attr;
use port_base::sink::NoMemory;

impl Gate {
    // The attributes of a fid's inode.
    pub(super) fn show<N: Nine>(
        &mut self,
        nine: &mut N,
        fid: u32,
    ) -> Result<Result<FileAttr, u32>, NoMemory>
        requires roomy { LEAST_MSIZE ≤ (N.at nine.old).state.msize }
        requires known { IsSome (map.get (N.at nine.old).state.fids fid) }
        ensures answer { IfOk result (λ r. FidAnswered
            (λ s f. attributes_shown s f.ino) Untouched fid r (N.at nine.old) (N.at nine.new)) }
        ensures counted { OnOk result (self.new ≡ one_sent self.old) }
        ensures unfinished { OnErr result (SameTree (N.at nine.old) (N.at nine.new)) }
        ensures kept { Keeps (N.at nine.old) (N.at nine.new) }
    {
        let told = get_attr(self.alloc, nine, fid)?;
        self.count_message();
        match told {
            Ok(attr) => Ok(Ok(file_attr(&attr))),
            Err(errno) => Ok(Err(errno)),
        }
    }
}
