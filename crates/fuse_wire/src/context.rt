//! Who asks.
ghost use Rattle.std.specs.Prelude.{◌≡◌};

use crate::head::Head;
use crate::ids::RequestId;

/// Who asks, as a request's head tells it.
#[derive(Clone, Copy, Debug, PartialEq, Eq)]
pub struct RequestContext {
    uid: u32,
    gid: u32,
    pid: u32,
    unique: u64,
}

impl RequestContext {
    /// Who sent the request with this head.
    pub fn from_head(head: &Head) -> RequestContext
        ensures user { result.uid ≡ head.now.uid }
        ensures group { result.gid ≡ head.now.gid }
        ensures process { result.pid ≡ head.now.pid }
        ensures request { result.unique ≡ head.now.unique }
    {
        RequestContext {
            uid: head.uid,
            gid: head.gid,
            pid: head.pid,
            unique: head.unique,
        }
    }

    /// The user that asks.
    pub fn user_id(&self) -> u32
        ensures { result ≡ self.now.uid }
    {
        self.uid
    }

    /// The group that asks.
    pub fn group_id(&self) -> u32
        ensures { result ≡ self.now.gid }
    {
        self.gid
    }

    /// The process that asks.
    pub fn process_id(&self) -> u32
        ensures { result ≡ self.now.pid }
    {
        self.pid
    }

    /// The request's number.
    pub fn request_id(&self) -> RequestId
        ensures { result.0 ≡ self.now.unique }
    {
        RequestId(self.unique)
    }
}

#[cfg(test)]
mod tests {
    use super::*;

    #[test]
    fn a_context_is_read_off_the_head(rt: HostRuntime) {
        let head = Head {
            len: 40,
            opcode: 3,
            unique: 9,
            nodeid: 1,
            uid: 1000,
            gid: 100,
            pid: 4242,
        };
        let context = RequestContext::from_head(&head);
        assert_eq!(rt; context.user_id(), 1000);
        assert_eq!(rt; context.group_id(), 100);
        assert_eq!(rt; context.process_id(), 4242);
        assert_eq!(rt; context.request_id(), RequestId(9));
    }
}
