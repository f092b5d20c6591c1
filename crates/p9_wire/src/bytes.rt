// Bytes whose number is told before they come.
ghost use Rattle.std.specs.Prelude.{◌≡◌, ◌+◌, ◌≤◌, ◌++◌, ℕ, List, length, take, IfOk, IfErr, OnOk};
ghost use Rattle.p9_wire.specs.Reading.{Decodes, EndsShort, bytes_at};

use crate::error::WireError;
use crate::numbers::fill;
use port_base::source::Source;
use std::alloc::Global;

/// The most bytes that a buffer takes room for at once, so that it is never much longer than what
/// came in.
const ROOM_LENGTH: usize = 65536;

/// How many bytes are read at once.
const PIECE_LENGTH: usize = 1024;

// A copy of the next n bytes, which the source has in memory.
fn copy_buffered<S: Source>(alloc: Global, source: &mut S, n: usize) -> Result<Vec<u8>, WireError>
    requires { n ≤ length (S.buffered source.old) }
    ensures decodes { Decodes (λ v. v.items) (bytes_at n) (S.left source.old) (S.left source.new)
        (S.faults source.old) (S.faults source.new) result }
    ensures stop { IfErr result (EndsShort (S.left source.new)) }
    ensures kept { S.kept source.new ≡ S.kept source.old }
    ensures lender { S.lender source.new ≡ S.lender source.old }
    ensures len { IfOk result (λ v. length v.items ≡ n) }
{
    let bytes = source.buffer()[..n].to_vec(alloc)?;
    source.consume(n);
    Ok(bytes)
}

// Reads the next n bytes a piece at a time.
fn read_pieces<S: Source>(alloc: Global, source: &mut S, n: usize) -> Result<Vec<u8>, WireError>
    ensures decodes { Decodes (λ v. v.items) (bytes_at n) (S.left source.old) (S.left source.new)
        (S.faults source.old) (S.faults source.new) result }
    ensures stop { IfErr result (EndsShort (S.left source.new)) }
    ensures kept { S.kept source.new ≡ S.kept source.old }
    ensures lender { S.lender source.new ≡ S.lender source.old }
    ensures len { IfOk result (λ v. length v.items ≡ n) }
{
    let mut bytes = Vec::new(alloc);
    bytes.reserve(n.min(ROOM_LENGTH))?;
    let mut piece = [0; PIECE_LENGTH];
    while bytes.len() < n {
        let missing = n - bytes.len();
        let count = missing.min(PIECE_LENGTH);
        fill(source, &mut piece[..count])?;
        bytes.extend_from_slice(&piece[..count])?;
    }
    Ok(bytes)
}

/// Reads the next n bytes: by one copy where the source has them in memory, or else into a buffer
/// that grows with what comes in.
///
/// `UnexpectedEof`: the source ended before, and all its bytes were taken.
pub fn decode_bytes<S: Source>(
    alloc: Global,
    source: &mut S,
    n: usize,
) -> Result<Vec<u8>, WireError>
    ensures decodes { Decodes (λ v. v.items) (bytes_at n) (S.left source.old) (S.left source.new)
        (S.faults source.old) (S.faults source.new) result }
    ensures stop { IfErr result (EndsShort (S.left source.new)) }
    ensures kept { S.kept source.new ≡ S.kept source.old }
    ensures lender { S.lender source.new ≡ S.lender source.old }
    ensures len { IfOk result (λ v. length v.items ≡ n) }
{
    if n <= source.buffer().len() {
        copy_buffered(alloc, source, n)
    } else {
        read_pieces(alloc, source, n)
    }
}
