// FORGET and BATCH_FORGET.
ghost use Rattle.std.specs.Prelude.{OnOk, OnErr};
ghost use Rattle.tree_machine.specs.State.{kept_state};
ghost use Rattle.tree_machine.specs.Forgetting.{forgotten, all_forgotten, pairs_of};
ghost use Rattle.tree_machine.specs.Messages.{gone};
ghost use Rattle.tree_machine.specs.Faults.{IsEither, IsAfterFront};
ghost use Rattle.fid_model.specs.Moments.{Keeps};
ghost use Rattle.fuse_gate.specs.Standing.{IsInStep, machine_of};
ghost use Rattle.fuse_gate.specs.Steps.{LetsGo};

use crate::gate::Gate;
use fid_model::Nine;
use fuse_wire::protocol::FUSE_ROOT_ID;
use fuse_wire::request::{FORGET_ONE_SIZE, ForgetOne};
use p9_client::clunk;
use port_base::sink::NoMemory;

impl Gate {
    // A node counts less by so many, and goes where that leaves none; the root and an unknown node
    // are passed over.
    pub(super) fn forget<N: Nine>(
        &mut self,
        nine: &mut N,
        id: u64,
        number: u64,
    ) -> Result<(), NoMemory>
        requires { IsInStep self.old (N.at nine.old).state }
        ensures gone { OnOk result (let m = machine_of self.old (N.at nine.old).state in
            LetsGo (forgotten m id number) (gone m (forgotten m id number))
            (self.old, N.at nine.old) (self.new, N.at nine.new)) }
        ensures unfinished { OnErr result (let m = machine_of self.old (N.at nine.old).state in
            IsEither m.tree (kept_state (forgotten m id number)).tree (N.at nine.new).state.tree) }
        ensures kept { Keeps (N.at nine.old) (N.at nine.new) }
    {
        if id == FUSE_ROOT_ID {
            return Ok(());
        }
        let Some(node) = self.nodes.get(id).copied() else {
            return Ok(());
        };
        if node.count > number {
            self.count_down(id, node, number);
            return Ok(());
        }
        clunk(self.alloc, nine, id as u32)?;
        self.count_message();
        self.remove_node(id, node.ino);
        Ok(())
    }

    // The same, pair by pair.
    pub(super) fn forget_all<N: Nine>(&mut self, nine: &mut N, pairs: &[u8]) -> Result<(), NoMemory>
        requires { IsInStep self.old (N.at nine.old).state }
        ensures gone { OnOk result (let m = machine_of self.old (N.at nine.old).state in
            LetsGo (all_forgotten m (pairs_of pairs.now)) (gone m (all_forgotten m (pairs_of pairs.now)))
            (self.old, N.at nine.old) (self.new, N.at nine.new)) }
        ensures unfinished { OnErr result (let m = machine_of self.old (N.at nine.old).state in
            IsAfterFront (λ ps. (kept_state (all_forgotten m ps)).tree) (pairs_of pairs.now)
            (N.at nine.new).state.tree) }
        ensures kept { Keeps (N.at nine.old) (N.at nine.new) }
    {
        let mut rest = pairs;
        while rest.len() >= FORGET_ONE_SIZE {
            let (pair, others) = rest.split_at(FORGET_ONE_SIZE);
            let one = ForgetOne::read(pair);
            self.forget(nine, one.nodeid, one.nlookup)?;
            rest = others;
        }
        Ok(())
    }
}
