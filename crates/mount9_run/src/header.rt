//! The header of the input: what the share is, in lines of text.
ghost use Rattle.std.specs.Prelude.{◌≡◌, ◌<◌, IfOk, Ok};
ghost use Rattle.tree_model.specs.Good.{IsGoodStamp, IsGoodLimits};
ghost use Rattle.tree_host.specs.TreeHosts.{tree};
ghost use Rattle.mount9_run.specs.Reading.{Gives, lines_of};
ghost use Rattle.mount9_run.specs.Header.{first_tree, header_of, header_alone};
ghost use Rattle.mount9_run.specs.HeaderViews.{header_view, IsFresh};

pub mod error;
mod lines;
pub(crate) mod numbers;
mod path;
mod present;
mod records;
mod start;
pub mod text;
mod tree;

use error::HeaderError;
use lines::{Place, next_line};
use port_base::memory::SliceSource;
use port_base::words::Words;
use present::present_lines;
use start::{Start, Top, start_lines, top_line};
use std::alloc::Global;
use text::{TextError, take_text};
use tree::add_lines;
use tree_host::TreeHost;

/// What a header says: the tree that is shared, whether mounting is permitted, and the directories
/// that mounts may stand on.
#[derive(Drop)]
pub struct Header {
    pub host: TreeHost,
    pub permitted: bool,
    pub present: Words,
}

// The host of the top directory alone.
fn new_host(alloc: Global, start: &Start, top: &Top) -> Result<TreeHost, HeaderError>
    requires moment { IsGoodStamp start.now.moment }
    requires born { IsGoodStamp start.now.born }
    requires limits { IsGoodLimits start.now.limits }
    requires mode { top.now.mode < 4096 }
    ensures tree { Gives (λ host. tree host) result (Ok (first_tree start.now top.now)) }
    ensures born { IfOk result (λ host. host.born ≡ start.now.born) }
    ensures fresh { IfOk result IsFresh }
{
    let host = TreeHost::new(
        alloc,
        start.limits,
        start.moment,
        start.born,
        top.mode,
        top.uid,
        top.gid,
    )?;
    Ok(host)
}

/// Reads the text of a header, which its line `end` ends.
#[tactic(auto, unfolding(crate::specs::Header::header_of))]
pub fn read_text(alloc: Global, text: &[u8]) -> Result<Header, HeaderError>
    ensures value { Gives header_view result (header_of (lines_of text.now)) }
    ensures fresh { IfOk result (λ header. IsFresh header.host) }
{
    let (start, at) = start_lines(Place {
        number: 1,
        rest: text,
    })?;
    let (present, at) = present_lines(alloc, at)?;
    let (line, after) = next_line(at)?;
    let top = top_line(at.number, line)?;
    let mut host = new_host(alloc, &start, &top)?;
    let _ = add_lines(alloc, &mut host, after)?;
    Ok(Header {
        host,
        permitted: start.permitted,
        present,
    })
}

/// Reads the header at the front of these bytes, whatever follows it.
pub fn read_header(alloc: Global, bytes: &[u8]) -> Result<Header, HeaderError>
    ensures value { Gives header_view result (header_alone bytes.now) }
    ensures fresh { IfOk result (λ header. IsFresh header.host) }
{
    let mut source = SliceSource::new(bytes);
    let mut text = Vec::new(alloc);
    match take_text(&mut source, &mut text) {
        Ok(()) => read_text(alloc, &text),
        Err(TextError::NoEnd) => Err(HeaderError::Line(0)),
        Err(TextError::NoMemory) => Err(HeaderError::NoMemory),
        Err(TextError::Read) => unreachable!(),
    }
}

#[cfg(test)]
mod tests {
    use super::*;
    use std::test::Fail;

    const START: &str =
        "mount9 1\nmoment 1700000000 5\nborn 1600000000 0\nlimits 1048576 65536 65000\npermit yes\n";

    #[test]
    fn a_header_is_read(rt: HostRuntime) -> Result<(), Fail> {
        let text = format!(in rt.alloc();
            "{START}present /mnt\\040a\ntop 0755 0 0\nfile 0644 1000 1001 68656C6c6f0a /a\\040b\nend\nrest"
        )?;
        let header = read_header(rt.alloc(), text.as_bytes())
            .ok()
            .expect(&rt, "accepted");
        assert_eq!(rt; header.permitted, true);
        assert_eq!(rt; header.present.len(), 1);
        assert_eq!(rt; header.present.get(0), Some(b"/mnt a".as_slice()));
        assert_eq!(rt; header.host.next_ino(), 3);
        let top = header.host.record_after(0).ok_or("no top")?;
        assert_eq!(rt; (top.ino, top.mode, top.links), (1, 0o755, 2));
        let file = header.host.record_after(1).ok_or("no file")?;
        assert_eq!(rt;
            (file.ino, file.mode, file.uid, file.gid, file.size),
            (2, 0o644, 1000, 1001, 6)
        );
        assert_eq!(rt; (file.mtime.sec, file.mtime.nsec), (1600000000, 0));
        assert_eq!(rt; header.host.record_after(2), None);
        assert_eq!(rt; header.host.find(b"/a b"), Some(2));
        assert_eq!(rt; header.host.find(b"/a\\040b"), None);
        Ok(())
    }

    #[test]
    fn the_first_refused_line_is_told(rt: HostRuntime) -> Result<(), Fail> {
        let cases = [
            ("top 0755 0 0\nend\n", None),
            (
                "top 0755 0 0\nfile 0644 0 0 - /a\nfile 0644 0 0 - /b\nend\nend\n",
                None,
            ),
            ("top 0755 0 0\nend", Some(0)),
            ("top 0755 0 0\n end\n", Some(0)),
            ("end\n", Some(6)),
            ("present /\npresent /a/b\nend\n", Some(8)),
            ("present /a \nend\n", Some(6)),
            ("present /a\\040\nend\n", Some(7)),
            ("present /a\\041\nend\n", Some(6)),
            ("present /a\\\nend\n", Some(6)),
            ("present /\\056\nend\n", Some(6)),
            ("present /a\\134040\ntop 0755 0 0\nend\n", None),
            ("present a\nend\n", Some(6)),
            ("top 755 0 0\nend\n", Some(6)),
            ("top 0855 0 0\nend\n", Some(6)),
            ("top 0755 00 0\nend\n", Some(6)),
            ("top 0755 4294967296 0\nend\n", Some(6)),
            ("top 0755 4294967295 0\nend\n", None),
            ("top 0755 0 0 0\nend\n", Some(6)),
            ("top 0755 0 0\ntop 0755 0 0\nend\n", Some(7)),
            ("top 0755 0 0\nfile 0644 0 0 /a\nend\n", Some(7)),
            ("top 0755 0 0\nfile 0644 0 0 6 /a\nend\n", Some(7)),
            ("top 0755 0 0\nfile 0644 0 0 6g /a\nend\n", Some(7)),
            ("top 0755 0 0\nfile 0644 0 0  /a\nend\n", Some(7)),
            ("top 0755 0 0\nfile 0644 0 0 - /\nend\n", Some(7)),
            ("top 0755 0 0\nfile 0644 0 0 - /..\nend\n", Some(7)),
            ("top 0755 0 0\nfile 0644 0 0 - /a/b\nend\n", Some(7)),
            ("top 0755 0 0\nfile 0644 0 0 - /a\\040b\nend\n", None),
            ("top 0755 0 0\nfile 0644 0 0 - /a b\nend\n", Some(7)),
            ("top 0755 0 0\nfile 0644 0 0 - /a\\b\nend\n", Some(7)),
            ("top 0755 0 0\nfile 0644 0 0 - /a\\04\nend\n", Some(7)),
            (
                "top 0755 0 0\nfile 0644 0 0 - /\\134040\nfile 0644 0 0 - /\\040\nend\n",
                None,
            ),
            (
                "top 0755 0 0\nfile 0644 0 0 - /\\011\nfile 0644 0 0 - /\\011\nend\n",
                Some(8),
            ),
            ("top 0755 0 0\nfile 0644 0 0 - /a\tb\nend\n", Some(7)),
            (
                "top 0755 0 0\nfile 0644 0 0 - /a\nfile 0644 0 0 - /a\nend\n",
                Some(8),
            ),
            ("top 0755 0 0\nnode 0755 0 0 /a\nend\n", Some(7)),
            (
                "top 0755 0 0\ndir 0755 0 0 /a\nfile 0644 0 0 - /a/f\nend\n",
                None,
            ),
            ("top 0755 0 0\ndir 0755 0 0 /a/\nend\n", Some(7)),
            ("top 0755 0 0\ndir 0755 0 0 //a\nend\n", Some(7)),
            (
                "top 0755 0 0\nfile 0644 0 0 - /a\nfile 0644 0 0 - /a/f\nend\n",
                Some(8),
            ),
            ("top 0755 0 0\nlink 0 0 a\\040b /l\nend\n", None),
            ("top 0755 0 0\nlink 0 0  /l\nend\n", Some(7)),
            (
                "top 0755 0 0\nlink 0 0 /a /l\ndir 0755 0 0 /l/d\nend\n",
                Some(8),
            ),
            ("top 0755 0 0\nfile 0644 0 0 - /a\nhard /a /b\nend\n", None),
            (
                "top 0755 0 0\nfile 0644 0 0 - /a\nhard /a /a\nend\n",
                Some(8),
            ),
            (
                "top 0755 0 0\nfile 0644 0 0 - /a\nhard /b /c\nend\n",
                Some(8),
            ),
            ("top 0755 0 0\ndir 0755 0 0 /a\nhard /a /b\nend\n", Some(8)),
        ];
        for (lines, want) in cases {
            let text = format!(in rt.alloc(); "{START}{lines}")?;
            let refused = match read_header(rt.alloc(), text.as_bytes()) {
                Ok(_) => None,
                Err(HeaderError::Line(n)) => Some(n),
                Err(HeaderError::NoMemory) => return Err(Fail::from("out of memory")),
            };
            assert_eq!(rt; refused, want, "{lines}");
        }
        Ok(())
    }

    #[test]
    fn first_lines_out_of_range_are_refused(rt: HostRuntime) -> Result<(), Fail> {
        let cases = [
            ("mount9 2\n", 1),
            ("mount9 1\nborn 0 0\n", 2),
            ("mount9 1\nmoment 0 1000000000\n", 2),
            ("mount9 1\nmoment 18446744073709551616 0\n", 2),
            ("mount9 1\nmoment 18446744073709551615 999999999\n", 3),
            ("mount9 1\nmoment 0 0\nborn +0 0\n", 3),
            ("mount9 1\nmoment 0 0\nborn 0 0\nlimits 1073741825 0 1\n", 4),
            ("mount9 1\nmoment 0 0\nborn 0 0\nlimits 0 1048577 1\n", 4),
            ("mount9 1\nmoment 0 0\nborn 0 0\nlimits 0 0 0\n", 4),
            ("mount9 1\nmoment 0 0\nborn 0 0\nlimits 0 0 65001\n", 4),
            (
                "mount9 1\nmoment 0 0\nborn 0 0\nlimits 0 0 1\npermit maybe\n",
                5,
            ),
            (
                "mount9 1\nmoment 0 0\nborn 0 0\nlimits 0 0 1\npermit no\ntop 0755 0 0\nfile 0644 0 0 - /a\n",
                7,
            ),
            (
                "mount9 1\nmoment 0 0\nborn 0 0\nlimits 0 1 1\npermit no\ntop 0755 0 0\nfile 0644 0 0 00 /a\n",
                7,
            ),
        ];
        for (lines, want) in cases {
            let text = format!(in rt.alloc(); "{lines}end\n")?;
            match read_header(rt.alloc(), text.as_bytes()) {
                Err(HeaderError::Line(n)) => assert_eq!(rt; n, want, "{lines}"),
                _ => return Err(Fail::from("not refused")),
            }
        }
        Ok(())
    }
}
