//! The examples of README.md.

use p9_rmsg::{Rframe, Rmessage};
use p9_tmsg::{Tclunk, Tframe, Tmessage};
use p9_wire::{WireError, WireFormat};
use port_base::memory::{MemSink, SliceSource};
use std::alloc::Global;

fn clunk_frame(alloc: Global, fid: u32) -> Result<MemSink, WireError> {
    let frame = Tframe {
        tag: 1,
        msg: Ok(Tmessage::Clunk(Tclunk { fid })),
    };
    let mut sink = MemSink::new(alloc);
    frame.encode(&mut sink)?;
    Ok(sink)
}

fn refusal(alloc: Global, bytes: &[u8]) -> Result<Option<u32>, WireError> {
    let mut source = SliceSource::new(bytes);
    match Rframe::decode(alloc, &mut source)?.msg {
        Rmessage::Lerror(error) => Ok(Some(error.ecode)),
        _ => Ok(None),
    }
}

#[test]
fn a_clunk_is_spelled(rt: HostRuntime) {
    let sink = clunk_frame(rt.alloc(), 5).ok().expect(&rt, "memory");
    assert_eq!(rt;
        sink.as_bytes(),
        b"\x0b\0\0\0\x78\x01\0\x05\0\0\0".as_slice()
    );
}

#[test]
fn a_refusal_is_told(rt: HostRuntime) {
    let errno = refusal(rt.alloc(), b"\x0b\0\0\0\x07\x01\0\x02\0\0\0");
    assert_eq!(rt; errno.ok().expect(&rt, "memory"), Some(2));
}
