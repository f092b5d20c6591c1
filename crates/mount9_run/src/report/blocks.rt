//! A report that is written in blocks, each by one call of the sink below.
ghost use Rattle.std.specs.Prelude.{◌≡◌};
ghost use Rattle.tree_model.specs.Tree.{linked};
ghost use Rattle.tree_host.specs.TreeHosts.{tree};
ghost use Rattle.mount9_run.specs.Verdicts.{IsReported};
ghost use Rattle.mount9_run.specs.Wrote.{Wrote, at_sink, joined_faults};
ghost use Rattle.mount9_run.specs.Report.{report};
ghost use Rattle.mount9_run.specs.Outcome.{mount_table};

use crate::report::verdict::Verdict;
use crate::report::write_report;
use crate::report::writing::write_replies;
use port_base::blocks::Blocks;
use port_base::sink::{Sink, SinkFault};
use std::alloc::Global;
use tree_host::TreeHost;

// The fault that is told of a writing and of what follows it: a failed sink before no memory.
fn joined_faults(first: Result<(), SinkFault>, last: Result<(), SinkFault>) -> Result<(), SinkFault>
    ensures { result ≡ joined_faults first last }
{
    match first {
        Ok(()) => last,
        Err(SinkFault::Failed) => Err(SinkFault::Failed),
        Err(SinkFault::NoMemory) => match last {
            Ok(()) => Err(SinkFault::NoMemory),
            Err(fault) => Err(fault),
        },
    }
}

// A whole report. After an `Err` the sink was sent a front of it.
#[tactic(auto, unfolding(crate::specs::Report::report))]
fn write_whole<K: Sink>(
    alloc: Global,
    out: &mut K,
    replies: &[u8],
    verdict: &Verdict,
    host: &TreeHost,
) -> Result<(), SinkFault>
    requires { IsReported verdict.now }
    ensures { Wrote (at_sink (K.sent out.old) (K.faults out.old) (K.kept out.old))
        (at_sink (K.sent out.new) (K.faults out.new) (K.kept out.new))
        (report replies.now verdict.now (linked (tree host.now)) mount_table) result }
{
    write_replies(alloc, out, replies)?;
    let mounts = b"1 1 0:1 / / rw - rootfs rootfs rw\n";
    write_report(alloc, host, mounts, verdict, out)
}

/// Writes a whole report in blocks. After an `Err` the sink was sent a front of it.
pub(crate) fn write_in_blocks<K: Sink>(
    alloc: Global,
    out: &mut K,
    replies: &[u8],
    verdict: &Verdict,
    host: &TreeHost,
) -> Result<(), SinkFault>
    requires { IsReported verdict.now }
    ensures { Wrote (at_sink (K.sent out.old) (K.faults out.old) (K.kept out.old))
        (at_sink (K.sent out.new) (K.faults out.new) (K.kept out.new))
        (report replies.now verdict.now (linked (tree host.now)) mount_table) result }
{
    let mut buffer = Vec::new(alloc);
    let mut blocks = Blocks::new(out, &mut buffer);
    let written = write_whole(alloc, &mut blocks, replies, verdict, host);
    let finished = blocks.finish();
    joined_faults(written, finished)
}
