//! Whether the target may be mounted on.
ghost use Rattle.std.specs.Prelude.{◌≡◌};
ghost use Rattle.mount9_run.specs.HeaderViews.{header_view};
ghost use Rattle.mount9_run.specs.Outcome.{is_present, mount_refused};

use crate::header::Header;
use port_base::errno::{ENOENT, EPERM};
use port_base::paths::same_path;
use port_base::words::Words;

// Whether mounts may stand on a path: the top, or a path that the header names.
fn is_present(target: &[u8], present: &Words) -> bool
    ensures { result ≡ is_present target.now present.now }
{
    if same_path(target, b"/") {
        return true;
    }
    'paths: for i in 0..present.len() {
        let Some(path) = present.get(i) else {
            unreachable!()
        };
        if same_path(target, path) {
            return true;
        }
    }
    false
}

/// Why the target is not mounted on: ENOENT where it is not present, EPERM where mounts are not
/// permitted.
pub fn mount_refused(target: &[u8], header: &Header) -> Option<u32>
    ensures { result ≡ mount_refused target.now (header_view header.now) }
{
    if !is_present(target, &header.present) {
        return Some(ENOENT);
    }
    if !header.permitted {
        return Some(EPERM);
    }
    None
}
