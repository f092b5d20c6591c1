//! Frames of a source.
ghost use Rattle.std.specs.Prelude.{◌≡◌, ◌<◌, ◌≤◌, ◌↔◌, IsTrue, OnOk, OnErr, Err};
ghost use Rattle.fuse_wire.specs.Cuts.{is_allowed};
ghost use Rattle.fuse_wire.specs.Taking.{Takes, Fills, TakesPiece};

use crate::fields::u32_at;
use crate::head::IN_HEADER_SIZE;
use port_base::source::{Source, read_full};
use std::fmt;

/// The greatest length of a frame, in bytes. The least is that of its head.
pub const FRAME_LIMIT: usize = 69632;

/// How many bytes are read at once.
const PIECE: usize = 4096;

/// What stands at the front of a source.
#[derive(Clone, Copy, Debug, PartialEq, Eq)]
pub enum Next {
    /// A whole frame.
    Frame,
    /// Nothing more.
    AtEnd,
    /// A part of a frame, before the end.
    Part,
    /// A length that no frame has, of which just these four bytes were taken.
    OddLength,
}

/// Why no frame was taken.
#[derive(Clone, Copy, Debug, PartialEq, Eq)]
pub enum NextError {
    /// The source failed.
    Read,
    /// Out of memory.
    NoMemory,
}

impl fmt::Display for NextError {
    fn fmt<W: fmt::Write>(&self, f: &mut fmt::Formatter<W>) -> fmt::Result {
        f.write_str(match self {
            NextError::Read => "reading FUSE frames failed; see the source's own error",
            NextError::NoMemory => "out of memory at a FUSE frame; free memory and start again",
        })
    }
}

#[tactic(auto, unfolding(crate::specs::Cuts::is_allowed))]
fn is_allowed(len: usize) -> bool
    ensures value { result ≡ is_allowed len }
    ensures range { IsTrue result ↔ ((IN_HEADER_SIZE ≤ len) × (len ≤ FRAME_LIMIT)) }
{
    len >= IN_HEADER_SIZE && len <= FRAME_LIMIT
}

// Makes the buffer a frame's first bytes.
fn begin(frame: &mut Vec<u8>, head: &[u8]) -> Result<(), NextError>
    ensures ok { OnOk result (frame.new.items ≡ head.now) }
    ensures err { OnErr result (result ≡ Err NextError.NoMemory) }
{
    frame.clear();
    match frame.extend_from_slice(head) {
        Ok(()) => Ok(()),
        Err(_) => Err(NextError::NoMemory),
    }
}

// Puts the next bytes of the source behind those in the buffer, and returns how many there were.
fn take_piece<S: Source>(
    source: &mut S,
    frame: &mut Vec<u8>,
    count: usize,
) -> Result<usize, NextError>
    requires some { 0 < count }
    requires most { count ≤ PIECE }
    ensures piece { TakesPiece (S.left source.old) (S.left source.new) (S.faults source.old)
        (S.faults source.new) frame.old.items frame.new.items count result }
    ensures kept { S.kept source.new ≡ S.kept source.old }
    ensures lender { S.lender source.new ≡ S.lender source.old }
{
    match frame.reserve(count) {
        Ok(()) => {}
        Err(_) => return Err(NextError::NoMemory),
    }
    let mut piece = [0; PIECE];
    match read_full(source, &mut piece[..count]) {
        Ok(n) => match frame.extend_from_slice(&piece[..n]) {
            Ok(()) => Ok(n),
            Err(_) => unreachable!(),
        },
        Err(_) => Err(NextError::Read),
    }
}

// Puts the bytes that are missing behind those in the buffer, a piece at a time; false where the
// source ends before.
fn fill<S: Source>(source: &mut S, frame: &mut Vec<u8>, missing: usize) -> Result<bool, NextError>
    requires { 0 < missing }
    ensures fills { Fills (S.left source.old) (S.left source.new) (S.faults source.old)
        (S.faults source.new) frame.old.items frame.new.items missing result }
    ensures kept { S.kept source.new ≡ S.kept source.old }
    ensures lender { S.lender source.new ≡ S.lender source.old }
{
    let mut rest = missing;
    while rest > 0 {
        let count = rest.min(PIECE);
        let n = take_piece(source, frame, count)?;
        if n < count {
            return Ok(false);
        }
        rest -= count;
    }
    Ok(true)
}

/// Takes the frame at the front of a source into a buffer, if a whole one stands there. The buffer
/// grows with what comes in, and never by a length that was only told.
pub fn next_frame<S: Source>(source: &mut S, frame: &mut Vec<u8>) -> Result<Next, NextError>
    ensures takes { Takes (S.left source.old) (S.left source.new) (S.faults source.old)
        (S.faults source.new) frame.new.items result }
    ensures kept { S.kept source.new ≡ S.kept source.old }
    ensures lender { S.lender source.new ≡ S.lender source.old }
{
    let mut head = [0; 4];
    match read_full(source, &mut head) {
        Ok(n) => {
            if n == 0 {
                return Ok(Next::AtEnd);
            }
            if n < 4 {
                return Ok(Next::Part);
            }
        }
        Err(_) => return Err(NextError::Read),
    }
    let len = u32_at(&head, 0) as usize;
    if !is_allowed(len) {
        return Ok(Next::OddLength);
    }
    begin(frame, &head)?;
    if fill(source, frame, len - 4)? {
        Ok(Next::Frame)
    } else {
        Ok(Next::Part)
    }
}
