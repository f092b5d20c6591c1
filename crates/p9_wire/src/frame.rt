// Messages behind their size, type and tag.
ghost use Rattle.std.specs.Prelude.{◌≡◌, ◌+◌, ◌<◌, ◌≤◌, ◌^◌, ◌↔◌, ℕ, List, length, drop};
ghost use Rattle.std.specs.Prelude.{slice_index, IsTrue, IfOk, IfErr, MatchResult};
ghost use Rattle.p9_wire.specs.Reading.{Reads, Decodes, EndsShort, TookOfFrame};
ghost use Rattle.p9_wire.specs.Values.{u32_at};
ghost use Rattle.p9_wire.specs.Sending.{Sends};
ghost use Rattle.p9_wire.specs.Frames.{frame, filling, body_of, body_reading, framed_reading};
ghost use Rattle.p9_wire.specs.Frames.{sound_reading, result_view, framed_view, sound_view};
ghost use Rattle.p9_wire.specs.Frames.{IsMalformed, Drains, FrameSpells, LawfulMessages};
ghost use Rattle.p9_wire.specs.declared.error.WireError.TheVariants.{NoMemory};

use crate::bytes::decode_bytes;
use crate::error::WireError;
use crate::fields::Fields;
use crate::format::WireFormat;
use crate::numbers::fill;
use port_base::memory::SliceSource;
use port_base::sink::{Sink, SinkFault};
use port_base::source::Source;
use std::alloc::Global;

/// The bytes of a frame before its message: size 4, type 1, tag 2.
pub const HEADER_LENGTH: u32 = 7;

/// The most bytes behind a size that are read without memory.
const SHORT_LENGTH: usize = 64;

/// Messages of several types, which are sent in frames.
pub trait Framed: Sized + Drop {
    /// The message without where it lies in memory.
    ghost Plain: { Type 0 };

    ghost view: { Self → Plain };

    /// The number of a message's type.
    ghost kind_of: { Plain → ℕ };

    /// Holds where the message has a spelling, however long.
    ghost Spells: { Plain → Type 0 };

    /// The bytes of the message's fields.
    ghost spelling: { Plain → List ℕ };

    /// Holds where a decoder accepts the message.
    ghost IsReadable: { Plain → Type 0 };

    /// How a message of a type is read.
    ghost reading: { ℕ → Reads Plain };

    /// The number of the message's type.
    fn kind(&self) -> u8
        ensures { result ≡ kind_of (view self.now) };

    /// Whether the fields have a spelling whose length fits a u32.
    fn body_fits(&self) -> bool
        ensures { IsTrue result ↔ (Spells (view self.now)
            × (length (spelling (view self.now)) < 2 ^ 32)) };

    /// How many bytes the fields have.
    fn body_size(&self) -> u32
        requires spells { Spells (view self.now) }
        requires short { length (spelling (view self.now)) < 2 ^ 32 }
        ensures { result ≡ length (spelling (view self.now)) };

    /// Sends the fields, without size, type and tag.
    fn send_body<K: Sink>(&self, sink: &mut K) -> Result<(), SinkFault>
        requires spells { Spells (view self.now) }
        requires short { length (spelling (view self.now)) < 2 ^ 32 }
        ensures sends { Sends (spelling (view self.now)) (K.sent sink.old) (K.sent sink.new)
            (K.room sink.old) (K.room sink.new) (K.faults sink.old) (K.faults sink.new) result }
        ensures kept { K.kept sink.new ≡ K.kept sink.old };

    /// Reads the fields of a message of this type. An unknown type is `InvalidData`.
    fn decode_body<S: Source>(alloc: Global, source: &mut S, kind: u8) -> Result<Self, WireError>
        ensures decodes { Decodes view (reading kind) (S.left source.old) (S.left source.new)
            (S.faults source.old) (S.faults source.new) result }
        ensures kept { S.kept source.new ≡ S.kept source.old }
        ensures lender { S.lender source.new ≡ S.lender source.old };

    ghost lawful: { LawfulMessages kind_of Spells spelling IsReadable reading };
}

// The fields of a message.
#[derive(Drop)]
struct Body<'a, M> {
    message: &'a M,
}

impl<M: Framed> Fields for Body<'_, M> {
    ghost Plain = { M.Plain };

    ghost view = { λ b. M.view b.message.now };

    ghost Spells = { M.Spells };

    ghost spelling = { M.spelling };

    fn fits(&self) -> bool {
        self.message.body_fits()
    }

    fn byte_size(&self) -> u32 {
        self.message.body_size()
    }

    fn send<K: Sink>(&self, sink: &mut K) -> Result<(), SinkFault> {
        self.message.send_body(sink)
    }
}

/// Whether the message fits a frame, whose size is a u32.
pub fn fits_frame<M: Framed>(message: &M) -> bool
    ensures { IsTrue result ↔ (M.Spells (M.view message.now)
        × (7 + length (M.spelling (M.view message.now)) < 2 ^ 32)) }
{
    if !message.body_fits() {
        return false;
    }
    message.body_size() <= u32::MAX - HEADER_LENGTH
}

/// How many bytes the message's frame has.
pub fn frame_size<M: Framed>(message: &M) -> u32
    requires spells { M.Spells (M.view message.now) }
    requires short { 7 + length (M.spelling (M.view message.now)) < 2 ^ 32 }
    ensures { result ≡ 7 + length (M.spelling (M.view message.now)) }
{
    HEADER_LENGTH + message.body_size()
}

/// Sends the message in a frame with this tag.
#[tactic(auto, unfolding(crate::specs::Frames::frame))]
pub fn send_frame<M: Framed, K: Sink>(message: &M, tag: u16, sink: &mut K) -> Result<(), SinkFault>
    requires spells { M.Spells (M.view message.now) }
    requires short { 7 + length (M.spelling (M.view message.now)) < 2 ^ 32 }
    ensures sends { Sends (frame (M.kind_of (M.view message.now)) tag
        (M.spelling (M.view message.now))) (K.sent sink.old) (K.sent sink.new) (K.room sink.old)
        (K.room sink.new) (K.faults sink.old) (K.faults sink.new) result }
    ensures kept { K.kept sink.new ≡ K.kept sink.old }
{
    let size = frame_size(message);
    let kind = message.kind();
    (&size, (&kind, (&tag, Body { message }))).send(sink)
}

// The message that fills the bytes, or the first fault of them.
fn message_in<M: Framed>(
    alloc: Global,
    kind: u8,
    bytes: &[u8],
) -> Result<Result<M, WireError>, WireError>
    ensures message { MatchResult result (λ msg. result_view M.view msg
        ≡ filling (M.reading kind bytes.now)) (λ e. e ≡ NoMemory) }
    ensures fault { IfOk result (λ msg. IfErr msg IsMalformed) }
{
    let mut source = SliceSource::new(bytes);
    match M::decode_body(alloc, &mut source, kind) {
        Ok(message) => {
            if source.is_at_end() {
                Ok(Ok(message))
            } else {
                Ok(Err(WireError::InvalidData))
            }
        }
        Err(WireError::NoMemory) => Err(WireError::NoMemory),
        Err(fault) => Ok(Err(fault)),
    }
}

// What the bytes behind a size say.
fn body_in<M: Framed>(alloc: Global, bytes: &[u8]) -> Result<(u16, Result<M, WireError>), WireError>
    requires { 3 ≤ length bytes.now }
    ensures body { MatchResult result (λ f. framed_view M.view f ≡ body_of M.reading bytes.now)
        (λ e. e ≡ NoMemory) }
    ensures fault { IfOk result (λ f. IfErr f.1 IsMalformed) }
{
    let tag = u16::from_le_bytes([bytes[1], bytes[2]]);
    let message = message_in(alloc, bytes[0], &bytes[3..])?;
    Ok((tag, message))
}

// The size in front of a frame.
fn decode_size<S: Source>(source: &mut S) -> Result<u32, WireError>
    ensures decodes { Decodes (λ n. n) u32_at (S.left source.old) (S.left source.new)
        (S.faults source.old)
        (S.faults source.new) result }
    ensures stop { IfErr result (EndsShort (S.left source.new)) }
    ensures kept { S.kept source.new ≡ S.kept source.old }
    ensures lender { S.lender source.new ≡ S.lender source.old }
{
    let mut bytes = [0; 4];
    fill(source, &mut bytes)?;
    Ok(u32::from_le_bytes(bytes))
}

// What the next bytes say, of which there are few. They take no memory.
fn decode_short<M: Framed, S: Source>(
    alloc: Global,
    source: &mut S,
    length: usize,
) -> Result<(u16, Result<M, WireError>), WireError>
    requires long { 3 ≤ length }
    requires short { length ≤ SHORT_LENGTH }
    ensures decodes { Decodes (framed_view M.view) (body_reading M.reading length)
        (S.left source.old)
        (S.left source.new) (S.faults source.old) (S.faults source.new) result }
    ensures fault { IfOk result (λ f. IfErr f.1 IsMalformed) }
    ensures stop { IfErr result (EndsShort (S.left source.new)) }
    ensures kept { S.kept source.new ≡ S.kept source.old }
    ensures lender { S.lender source.new ≡ S.lender source.old }
{
    let mut bytes = [0; SHORT_LENGTH];
    let bytes = &mut bytes[..length];
    fill(source, bytes)?;
    body_in(alloc, bytes)
}

// What the next bytes say.
fn decode_long<M: Framed, S: Source>(
    alloc: Global,
    source: &mut S,
    length: usize,
) -> Result<(u16, Result<M, WireError>), WireError>
    requires { 3 ≤ length }
    ensures decodes { Decodes (framed_view M.view) (body_reading M.reading length)
        (S.left source.old)
        (S.left source.new) (S.faults source.old) (S.faults source.new) result }
    ensures fault { IfOk result (λ f. IfErr f.1 IsMalformed) }
    ensures stop { IfErr result (EndsShort (S.left source.new)) }
    ensures kept { S.kept source.new ≡ S.kept source.old }
    ensures lender { S.lender source.new ≡ S.lender source.old }
{
    let bytes = decode_bytes(alloc, source, length)?;
    body_in(alloc, bytes.as_slice())
}

// What the next bytes say, which the source has in memory. They aren't copied.
fn decode_buffered<M: Framed, S: Source>(
    alloc: Global,
    source: &mut S,
    count: usize,
) -> Result<(u16, Result<M, WireError>), WireError>
    requires long { 3 ≤ count }
    requires buffered { count ≤ length (S.buffered source.old) }
    ensures decodes { Decodes (framed_view M.view) (body_reading M.reading count)
        (S.left source.old)
        (S.left source.new) (S.faults source.old) (S.faults source.new) result }
    ensures fault { IfOk result (λ f. IfErr f.1 IsMalformed) }
    ensures stop { IfErr result (EndsShort (S.left source.new)) }
    ensures kept { S.kept source.new ≡ S.kept source.old }
    ensures lender { S.lender source.new ≡ S.lender source.old }
{
    let body = body_in(alloc, &source.buffer()[..count]);
    source.consume(count);
    body
}

// What the bytes behind a frame's size say.
fn decode_rest<M: Framed, S: Source>(
    alloc: Global,
    source: &mut S,
    count: usize,
) -> Result<(u16, Result<M, WireError>), WireError>
    requires { 3 ≤ count }
    ensures decodes { Decodes (framed_view M.view) (body_reading M.reading count)
        (S.left source.old)
        (S.left source.new) (S.faults source.old) (S.faults source.new) result }
    ensures fault { IfOk result (λ f. IfErr f.1 IsMalformed) }
    ensures stop { IfErr result (EndsShort (S.left source.new)) }
    ensures kept { S.kept source.new ≡ S.kept source.old }
    ensures lender { S.lender source.new ≡ S.lender source.old }
{
    if count <= source.buffer().len() {
        decode_buffered(alloc, source, count)
    } else if count <= SHORT_LENGTH {
        decode_short(alloc, source, count)
    } else {
        decode_long(alloc, source, count)
    }
}

/// Reads a frame of at most `limit` bytes to its end: its tag, and its message or the first fault
/// of the body.
///
/// `InvalidData`: a size below 7 or above `limit`, whose four bytes were taken. `UnexpectedEof`:
/// the source ended before the frame did, and all its bytes were taken.
pub fn decode_frame<M: Framed, S: Source>(
    alloc: Global,
    source: &mut S,
    limit: u32,
) -> Result<(u16, Result<M, WireError>), WireError>
    ensures decodes { Decodes (framed_view M.view) (framed_reading M.reading limit)
        (S.left source.old)
        (S.left source.new) (S.faults source.old) (S.faults source.new) result }
    ensures fault { IfOk result (λ f. IfErr f.1 IsMalformed) }
    ensures took { IfErr result (TookOfFrame (S.left source.old) (S.left source.new)) }
    ensures kept { S.kept source.new ≡ S.kept source.old }
    ensures lender { S.lender source.new ≡ S.lender source.old }
{
    let size = decode_size(source)?;
    if size < HEADER_LENGTH || size > limit {
        return Err(WireError::InvalidData);
    }
    decode_rest(alloc, source, size as usize - 4)
}

/// Reads a frame of at most `limit` bytes whose body is well formed.
///
/// A malformed body is `InvalidInput`, `InvalidData` or `UnexpectedEof`, and then too the frame is
/// read to its end. Of another frame is taken what `decode_frame` takes.
pub fn decode_sound_frame<M: Framed, S: Source>(
    alloc: Global,
    source: &mut S,
    limit: u32,
) -> Result<(u16, M), WireError>
    ensures decodes { Decodes (sound_view M.view) (sound_reading M.reading limit)
        (S.left source.old)
        (S.left source.new) (S.faults source.old) (S.faults source.new) result }
    ensures drains { IfErr result (Drains M.reading limit (S.left source.old) (S.left source.new)) }
    ensures kept { S.kept source.new ≡ S.kept source.old }
    ensures lender { S.lender source.new ≡ S.lender source.old }
{
    let (tag, body) = decode_frame(alloc, source, limit)?;
    Ok((tag, body?))
}
