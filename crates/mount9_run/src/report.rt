//! The report: the replies, the verdict, the tree and the mounts, in lines of text.
ghost use Rattle.std.specs.Prelude.{◌≡◌, ◌++◌};
ghost use Rattle.tree_model.specs.Tree.{linked};
ghost use Rattle.tree_host.specs.TreeHosts.{tree};
ghost use Rattle.mount9_run.specs.Verdicts.{IsReported, nine_frames_of};
ghost use Rattle.mount9_run.specs.Wrote.{Wrote, at_sink};
ghost use Rattle.mount9_run.specs.ReportLines.{verdict_line};
ghost use Rattle.mount9_run.specs.Report.{tree_text, closing};

pub(crate) mod blocks;
mod fields;
mod lines;
pub mod verdict;
mod walk;
pub mod writing;

use port_base::sink::{Sink, SinkFault};
use std::alloc::Global;
use tree_host::TreeHost;
use verdict::Verdict;
use walk::write_tree;
use writing::{write_closing, write_verdict};

/// Writes all lines of a report after the replies: how the run ended, the linked records of the
/// host's tree, the table of mounts as it is printed, and the number of 9P messages. After an
/// `Err` the sink was sent a front of it.
pub fn write_report<K: Sink>(
    alloc: Global,
    host: &TreeHost,
    mounts: &[u8],
    verdict: &Verdict,
    sink: &mut K,
) -> Result<(), SinkFault>
    requires { IsReported verdict.now }
    ensures { Wrote (at_sink (K.sent sink.old) (K.faults sink.old) (K.kept sink.old))
        (at_sink (K.sent sink.new) (K.faults sink.new) (K.kept sink.new))
        (verdict_line verdict.now
        ++ (tree_text (linked (tree host.now)) ++ closing mounts.now (nine_frames_of verdict.now)))
        result }
{
    write_verdict(alloc, sink, verdict)?;
    write_tree(alloc, sink, host)?;
    write_closing(alloc, sink, mounts, verdict.nine_frames())
}

#[cfg(test)]
mod tests {
    use super::*;
    use crate::header::read_header;
    use crate::report::verdict::{BridgeError, Served, Stopped};
    use crate::report::writing::write_replies;
    use port_base::memory::MemSink;
    use std::test::Fail;

    const HEADER: &str = "mount9 1
moment 1700000000 5
born 1600000000 0
limits 1048576 65536 65000
permit yes
present /mnt
top 0755 0 0
file 0644 1000 1000 68656C6c6f0a /hello
file 0600 0 0 - /empty
end
";

    const TABLE: &str = "1 1 0:1 / / rw - rootfs rootfs rw\n";

    #[test]
    fn a_report_of_two_files(rt: HostRuntime) -> Result<(), Fail> {
        let alloc = rt.alloc();
        let header = read_header(alloc, HEADER.as_bytes())
            .ok()
            .expect(&rt, "accepted");
        let mut out = MemSink::new(alloc);
        write_replies(alloc, &mut out, &[0xabu8; 33])?;
        let verdict = Verdict::Done(Served {
            flags: 6,
            handled: 3,
            nine_frames: 4,
        });
        write_report(alloc, &header.host, TABLE.as_bytes(), &verdict, &mut out)?;
        let want = "replies
abababababababababababababababababababababababababababababababab
ab
served flags=6 handled=3
tree 4
dir 1 0755 0 0 2 1600000000.000000000 1600000000.000000000 1600000000.000000000 1 3
in 1 1 2 hello
in 1 2 3 empty
file 2 0644 1000 1000 1 1600000000.000000000 1600000000.000000000 1600000000.000000000 68656c6c6f0a
file 3 0600 0 0 1 1600000000.000000000 1600000000.000000000 1600000000.000000000 -
mounts
1 1 0:1 / / rw - rootfs rootfs rw
end
nine 4
";
        assert_eq!(rt; out.as_bytes(), want.as_bytes());
        Ok(())
    }

    #[test]
    fn verdicts_of_stopped_runs(rt: HostRuntime) -> Result<(), Fail> {
        let alloc = rt.alloc();
        let cases = [
            (BridgeError::Mount(2), 0, "stopped mount 2 handled=0\n"),
            (BridgeError::Attach(23), 0, "stopped attach 23 handled=0\n"),
            (BridgeError::Torn, 1, "stopped torn handled=1\n"),
            (BridgeError::BadLength, 2, "stopped length handled=2\n"),
            (BridgeError::TurnsSpent, 1, "stopped turns handled=1\n"),
            (BridgeError::MsizeTooSmall, 0, "stopped msize handled=0\n"),
        ];
        for (cause, handled, want) in cases {
            let mut out = MemSink::new(alloc);
            let stopped = Stopped {
                cause,
                handled,
                nine_frames: 0,
            };
            write_verdict(alloc, &mut out, &Verdict::Halted(stopped))?;
            assert_eq!(rt; out.as_bytes(), want.as_bytes());
        }
        Ok(())
    }
}
