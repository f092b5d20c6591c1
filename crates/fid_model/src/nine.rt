//! What serves a tree of files by 9P2000.L.
ghost use Rattle.std.specs.Prelude.{◌≡◌};
ghost use Rattle.std.specs.FinMap as map;
ghost use Rattle.fid_model.specs.Fids.{IsGoodServer, cleared};
ghost use Rattle.fid_model.specs.Moments.{Moment, AskedOne, Keeps, Stays};
ghost use Rattle.fid_model.specs.Handling.{Handled};

use p9_wire::error::WireError;
use port_base::sink::Sink;
use port_base::source::Source;

/// A server of a tree of files, which answers as the fid machine does.
pub trait Nine {
    /// The tree, the fids, the greatest size of a frame, and the settings; how often what it
    /// stands on has failed, and how many messages it was handed, both up to 2^64 - 1; whether no
    /// call meets a fault.
    ghost at: { Self → Moment };

    /// Reads one frame and writes one reply. `InvalidData`: a size below 7 or above `msize`, after
    /// four bytes. `UnexpectedEof`: the reader ended before a whole frame; all that was left is
    /// taken. `Read`, `Write`: that object failed. `NoMemory`: no reply was written, and nothing
    /// changed but steps of a Tsetattr.
    fn handle_message<S: Source, K: Sink>(
        &mut self,
        reader: &mut S,
        writer: &mut K,
    ) -> Result<(), WireError>
        ensures handled { Handled (at self.old) (at self.new)
            (S.left reader.old) (S.left reader.new) (K.sent writer.old) (K.sent writer.new)
            (S.faults reader.old) (S.faults reader.new) (K.faults writer.old) (K.faults writer.new)
            result }
        ensures asked { AskedOne (at self.old) (at self.new) }
        ensures stays { Stays (at self.old) (at self.new) }
        ensures reader { S.kept reader.new ≡ S.kept reader.old }
        ensures lender { S.lender reader.new ≡ S.lender reader.old }
        ensures writer { K.kept writer.new ≡ K.kept writer.old };

    /// The greatest size of a frame, in bytes.
    fn msize(&self) -> u32
        ensures { result ≡ (at self.now).state.msize };

    /// How many fids there may be.
    fn fid_limit(&self) -> u32
        ensures { result ≡ (at self.now).state.settings.limit };

    /// How many fids there are.
    fn fid_count(&self) -> u32
        ensures { result ≡ map.len (at self.now).state.fids };

    /// Takes all fids away. It takes no memory.
    fn clear_fids(&mut self)
        ensures state { (at self.new).state ≡ cleared (at self.old).state }
        ensures faults { (at self.new).faults ≡ (at self.old).faults }
        ensures asked { (at self.new).asked ≡ (at self.old).asked }
        ensures kept { Keeps (at self.old) (at self.new) };

    ghost good: { (s : Self) → IsGoodServer (at s).state };
}
