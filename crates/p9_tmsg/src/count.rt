// Frames in a buffer.
ghost use Rattle.std.specs.Prelude.{IfOk};
ghost use Rattle.p9_tmsg.specs.Counting.{HasFrames};

use crate::frame::Tframe;
use p9_wire::error::WireError;
use p9_wire::format::WireFormat;
use port_base::memory::SliceSource;
use port_base::sink::NoMemory;
use std::alloc::Global;
use std::mem;

/// How many frames stand at the front of the bytes, one after another, before the first that isn't
/// a whole frame.
///
/// A frame whose body is malformed is counted too.
pub fn tframe_decode(alloc: Global, bytes: &[u8]) -> Result<usize, NoMemory>
    ensures { IfOk result (HasFrames bytes.now) }
{
    let mut source = SliceSource::new(bytes);
    let mut count = 0;
    'frames: loop {
        match Tframe::decode(alloc, &mut source) {
            Ok(frame) => {
                mem::drop(frame);
                count += 1;
            }
            Err(fault) => match fault {
                WireError::NoMemory => return Err(NoMemory),
                _ => return Ok(count),
            },
        }
    }
}
