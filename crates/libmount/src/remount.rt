//! The flags of a mount, looked up in a mountinfo table.
ghost use Rattle.std.specs.Prelude.{◌≡◌};
ghost use Rattle.std.specs.Option.{option_map};
ghost use Rattle.port_base.specs.Flags.{bits_of};
ghost use Rattle.libmount.specs.Lookup.{flags_at, flags_in, verdict};
ghost use Rattle.libmount.specs.Views.{row_view, GivesFlags, GivesVerdict};

use crate::errors::RemountError;
use crate::mountinfo::parts::last_part;
use crate::mountinfo::{MountPoint, RowFault, parse_mount_point};
use port_base::flags::MsFlags;
use port_base::paths::same_path;
use std::alloc::Global;

// The flags of a mount where its mount point is the path.
fn flags_at(mount: &MountPoint<'_>, path: &[u8]) -> Option<MsFlags>
    ensures { option_map bits_of result ≡ flags_at path.now (row_view mount.now) }
{
    if same_path(mount.mount_point.as_bytes(), path) {
        Some(mount.get_mount_flags())
    } else {
        None
    }
}

// The flags of a line's row where its mount point is the path.
fn verdict(alloc: Global, line: &[u8], path: &[u8]) -> Result<Option<MsFlags>, RemountError>
    ensures { GivesVerdict result (verdict path.now line.now) }
{
    match parse_mount_point(alloc, line) {
        Ok(found) => match found {
            Some(mount) => Ok(flags_at(&mount, path)),
            None => Ok(None),
        },
        Err(fault) => match fault {
            RowFault::Row(error) => Err(RemountError::ParseMountInfo(error.0)),
            RowFault::NoMemory => Err(RemountError::NoMemory),
        },
    }
}

/// The flags of the last row of a table whose mount point is the path, compared by components. The
/// lines are read from the last one back; one that is refused before such a row is
/// `ParseMountInfo`, and the lines before the row aren't read.
pub fn flags_from(
    alloc: Global,
    content: &[u8],
    path: &[u8],
) -> Result<Option<MsFlags>, RemountError>
    ensures { GivesFlags result (flags_in path.now content.now) }
{
    let mut rest = Some(content);
    'lines: while let Some(text) = rest {
        let (before, line) = last_part(text, b'\n');
        match verdict(alloc, line, path)? {
            Some(flags) => return Ok(Some(flags)),
            None => rest = before,
        }
    }
    Ok(None)
}

#[cfg(test)]
mod tests {
    use super::*;
    use std::test::Fail;

    // The flags that a table gives a path, as text.
    fn describe(alloc: Global, content: &[u8], path: &[u8]) -> Result<String, Fail> {
        let text = match flags_from(alloc, content, path) {
            Ok(Some(flags)) => format!(in alloc; "{}", flags.bits())?,
            Ok(None) => format!(in alloc; "none")?,
            Err(error) => format!(in alloc; "{error}")?,
        };
        Ok(text)
    }

    #[test]
    fn flags_come_from_the_last_row(rt: HostRuntime) -> Result<(), Fail> {
        let two =
            b"11 18 0:4 / /tmp rw shared:28 - tmpfs tmpfs rw\n12 18 0:6 / /tmp rw,nosuid,nodev shared:29 - tmpfs tmpfs rw\n";
        let bad_first =
            b"bad\n11 18 0:4 / /tmp rw shared:28 - tmpfs tmpfs rw\n12 18 0:6 / /tmp rw,nosuid,nodev shared:29 - tmpfs tmpfs rw";
        let bad_last =
            b"11 18 0:4 / /tmp rw shared:28 - tmpfs tmpfs rw\n12 18 0:6 / /tmp rw,nosuid,nodev shared:29 - tmpfs tmpfs rw\nbad\n";
        let cases: [(&[u8], &[u8], &str); 9] = [
            (two, b"/tmp", "6"),
            (two, b"//tmp/.", "6"),
            (two, b"tmp", "none"),
            (two, b"/", "none"),
            (bad_first, b"/tmp", "6"),
            (
                bad_first,
                b"/",
                "Cannot parse integer \"bad\": invalid digit",
            ),
            (
                bad_last,
                b"/tmp",
                "Cannot parse integer \"bad\": invalid digit",
            ),
            (b"1 1 0:1 / /a\\040b ro - t s rw", b"/a b/", "1"),
            (b"", b"/", "none"),
        ];
        for (content, path, want) in cases {
            let got = describe(rt.alloc(), content, path)?;
            assert_eq!(rt; got.as_str(), want);
        }
        Ok(())
    }
}
