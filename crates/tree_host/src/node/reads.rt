//! What is opened and read of a record.
ghost use Rattle.std.specs.Prelude.{◌≡◌, ◌≢◌, ℕ, IfErr, Err, length};
ghost use Rattle.std.specs.Result.{result_map_both};
ghost use Rattle.tree_model.specs.Attributes.{kind_of};
ghost use Rattle.tree_model.specs.Opening.{opens_to_change, kind_refused, open_refused, read_body};
ghost use Rattle.tree_model.specs.Opening.{readlink_body, target_of};
ghost use Rattle.tree_host.specs.Host.{Answers, Reads};

use super::{Node, Stored, copy_part};
use port_base::errno::{EEXIST, EINVAL, EISDIR, ELOOP, ENOTDIR};
use port_base::oflag::{
    O_ACCMODE, O_CREAT, O_DIRECTORY, O_EXCL, O_RDWR, O_TRUNC, O_WRONLY, access_mode, has_flag,
};
use std::alloc::Global;
use tree_model::{HostError, Kind};

fn opens_to_change(flags: u32) -> bool
    ensures { result ≡ opens_to_change flags }
{
    access_mode(flags) == O_WRONLY
        || access_mode(flags) == O_RDWR
        || has_flag(flags, O_TRUNC)
        || has_flag(flags, O_CREAT)
}

fn refusal_by_kind(flags: u32, kind: Kind) -> Option<u32>
    ensures { result ≡ kind_refused flags kind }
{
    match kind {
        Kind::File if has_flag(flags, O_DIRECTORY) => Some(ENOTDIR),
        Kind::File => None,
        Kind::Directory if opens_to_change(flags) => Some(EISDIR),
        Kind::Directory => None,
        Kind::Link => Some(ELOOP),
    }
}

impl Node {
    pub fn kind(&self) -> Kind
        ensures { result ≡ kind_of self.now.body }
    {
        match &self.body {
            Stored::Bytes(_) => Kind::File,
            Stored::Names { .. } => Kind::Directory,
            Stored::Target(_) => Kind::Link,
        }
    }

    /// The first refusal of an open with these flags.
    pub fn open_refusal(&self, flags: u32) -> Option<u32>
        ensures { result ≡ open_refused flags (kind_of self.now.body) }
    {
        if access_mode(flags) == O_ACCMODE {
            return Some(EINVAL);
        }
        if has_flag(flags, O_CREAT) && has_flag(flags, O_EXCL) {
            return Some(EEXIST);
        }
        refusal_by_kind(flags, self.kind())
    }

    /// Copies the bytes of a file from an offset on, as many as there are and fit, and returns how
    /// many.
    pub fn read_at(&self, offset: u64, buf: &mut [u8]) -> Result<usize, HostError>
        ensures answer { Reads (read_body offset (length buf.old) self.now.body) buf.old buf.new
            result }
        ensures errno { IfErr result (λ e. (n : ℕ) × (e ≡ HostError.Errno n)) }
    {
        match &self.body {
            Stored::Bytes(bytes) => Ok(copy_part(bytes, offset, buf)),
            Stored::Names { .. } => Err(HostError::Errno(EISDIR)),
            Stored::Target(_) => Err(HostError::Errno(EINVAL)),
        }
    }

    /// A copy of the target of a link.
    pub fn read_link(&self, alloc: Global) -> Result<Vec<u8>, HostError>
        ensures answer { Answers (readlink_body self.now.body)
            (result_map_both (λ target. target.items) (λ e. e) result) }
        ensures fault { result ≢ Err HostError.Fault }
    {
        let Stored::Target(target) = &self.body else {
            return Err(HostError::Errno(EINVAL));
        };
        Ok(Vec::from_slice(alloc, target)?)
    }

    /// The target of a link, none of what is no link.
    pub fn target(&self) -> &[u8]
        ensures { result.now ≡ target_of self.now.body }
    {
        match &self.body {
            Stored::Bytes(_) => &[],
            Stored::Names { .. } => &[],
            Stored::Target(target) => target,
        }
    }
}
