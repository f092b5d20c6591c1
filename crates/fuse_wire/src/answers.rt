//! What the calls of a file system tell.
ghost use Rattle.std.specs.Prelude.{◌≡◌};
ghost use Rattle.fuse_wire.specs.declared.answers.FsFail.TheVariants as fail;

use crate::attr::FileAttr;
use crate::ids::{Errno, Generation, INodeNo, Ttl};
use port_base::sink::NoMemory;
use std::fmt;

/// What a look-up tells: a node, its attributes and their generation, and how long that is valid.
#[derive(Clone, Copy, Debug, PartialEq, Eq)]
pub struct LookupResponse {
    pub node: INodeNo,
    pub ttl: Ttl,
    pub attr: FileAttr,
    pub generation: Generation,
}

impl LookupResponse {
    /// Attributes, with their inode's number as the node.
    pub fn new(ttl: Ttl, attr: FileAttr, generation: Generation) -> LookupResponse
        ensures node { result.node.0 ≡ attr.ino }
        ensures ttl { result.ttl ≡ ttl }
        ensures attributes { result.attr ≡ attr }
        ensures generation { result.generation ≡ generation }
    {
        LookupResponse {
            node: INodeNo(attr.ino),
            ttl,
            attr,
            generation,
        }
    }

    /// The same of another node.
    pub fn with_node(self, node: INodeNo) -> LookupResponse
        ensures { result ≡ record self { node = node } }
    {
        LookupResponse { node, ..self }
    }
}

/// What is told of attributes: they, and how long they are valid.
#[derive(Clone, Copy, Debug, PartialEq, Eq)]
pub struct GetAttrResponse {
    pub ttl: Ttl,
    pub attr: FileAttr,
}

impl GetAttrResponse {
    /// Attributes that are valid so long.
    pub fn new(ttl: Ttl, attr: FileAttr) -> GetAttrResponse
        ensures ttl { result.ttl ≡ ttl }
        ensures attributes { result.attr ≡ attr }
    {
        GetAttrResponse { ttl, attr }
    }
}

/// Why a file system's call fails.
#[derive(Clone, Copy, Debug, PartialEq, Eq)]
pub enum FsFail {
    /// It is refused, with an error number of the system.
    Errno(Errno),
    /// Out of memory.
    NoMemory,
}

impl fmt::Display for FsFail {
    fn fmt<W: fmt::Write>(&self, f: &mut fmt::Formatter<W>) -> fmt::Result {
        match self {
            FsFail::Errno(errno) => write!(f, "the request is refused: {errno}"),
            FsFail::NoMemory => f.write_str("no memory"),
        }
    }
}

impl std::error::Error for FsFail {}

impl From<NoMemory> for FsFail {
    ghost from_gives = { λ _ e. e ≡ fail.NoMemory };

    fn from(_error: NoMemory) -> FsFail {
        FsFail::NoMemory
    }
}

#[cfg(test)]
mod tests {
    use super::*;
    use std::test::Fail;

    const ATTR: FileAttr = FileAttr {
        ino: 7,
        size: 0,
        blocks: 0,
        atime: 0,
        mtime: 0,
        ctime: 0,
        atimensec: 0,
        mtimensec: 0,
        ctimensec: 0,
        mode: 0o100644,
        nlink: 1,
        uid: 0,
        gid: 0,
        rdev: 0,
        blksize: 4096,
        flags: 0,
    };

    #[test]
    fn answers_tell_attributes_and_how_long_they_are_valid(rt: HostRuntime) {
        let second = Ttl { secs: 1, nanos: 0 };
        let told = LookupResponse::new(second, ATTR, Generation(0));
        assert_eq!(rt; told.node, INodeNo(7));
        let entered = told.with_node(INodeNo(2));
        assert_eq!(rt; entered.node, INodeNo(2));
        assert_eq!(rt; entered.attr, ATTR);
        assert_eq!(rt; entered.generation, Generation(0));
        let shown = GetAttrResponse::new(second, ATTR);
        assert_eq!(rt; shown.ttl, entered.ttl);
        assert_eq!(rt; shown.attr, ATTR);
    }

    #[test]
    fn failures_say_why(rt: HostRuntime) -> Result<(), Fail> {
        let alloc = rt.alloc();
        let refused = format!(in alloc; "{}", FsFail::Errno(Errno(2)))?;
        assert_eq!(rt; refused.as_str(), "the request is refused: errno 2");
        let wanted = format!(in alloc; "{}", FsFail::from(NoMemory))?;
        assert_eq!(rt; wanted.as_str(), "no memory");
        Ok(())
    }
}
