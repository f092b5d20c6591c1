//! A sink that collects bytes into blocks.
ghost use Rattle.std.specs.Prelude.{◌≡◌, ◌++◌, ◌+◌, ◌-◌, ◌^◌, ◌≤◌, ◌<◌, [], min, take, drop};
ghost use Rattle.std.specs.Prelude.{length, vec_len, vec_capacity, OnOk, OnErr, Err};
ghost use Rattle.std.specs.Io.KnownBytes.{Appends};
ghost use Rattle.port_base.specs.Faults.{SinkCause};
ghost use Rattle.port_base.specs.Streams.{SentFront};
ghost use Rattle.port_base.specs.Blocks.{sent_with, sent_before, room_beside, Passes, Readies};

use crate::sink::{NoMemory, Sink, SinkFault, write_all, write_counted};

/// How many bytes a block has.
pub const BLOCK_LENGTH: usize = 65536;

/// Collects what it is sent into blocks of 64 KiB, each of which it writes to the sink below at
/// once. What it was sent is what that sink was sent and what waits for it. `finish` writes what
/// still waits.
pub struct Blocks<'a, K> {
    inner: &'a mut K,
    waiting: &'a mut Vec<u8>,
    // How many of the bytes that wait the sink below has taken.
    gone: usize,
    // How many bytes the sink below has taken in all.
    passed: u64,
    ghost within: { gone ≤ vec_len waiting.now },
    ghost countable: { passed + (vec_len waiting.now - gone) < 2 ^ 64 },
}

impl<'a, K: Sink> Blocks<'a, K> {
    /// A sink over this one, in which nothing waits. The buffer, whose contents are of no use
    /// before and after, holds what waits. It takes no memory yet.
    pub fn new(inner: &'a mut K, buffer: &'a mut Vec<u8>) -> Blocks<'a, K>
        ensures same_reference { result.inner.ghost_name ≡ inner.entry.ghost_name }
        ensures inner { result.inner.now ≡ inner.old }
        ensures waiting { result.waiting.now.items ≡ [] }
        ensures gone { result.gone ≡ 0 }
        ensures passed { result.passed ≡ 0 }
    {
        buffer.clear();
        Blocks {
            inner,
            waiting: buffer,
            gone: 0,
            passed: 0,
        }
    }

    // Writes what waits to the sink below.
    fn pass_on(&mut self) -> Result<(), SinkFault>
        ensures passes { Passes (K.sent self.old.inner.now) (K.sent self.new.inner.now)
            self.old.waiting.now.items self.new.waiting.now.items self.old.gone self.new.gone
            self.old.passed self.new.passed
            (K.room self.old.inner.now) (K.room self.new.inner.now)
            (K.faults self.old.inner.now) (K.faults self.new.inner.now) result }
        ensures empty { OnOk result (self.new.waiting.now.items ≡ []) }
        ensures capacity { vec_capacity self.new.waiting.now ≡ vec_capacity self.old.waiting.now }
        ensures reference { self.new.inner.ghost_name ≡ self.old.inner.ghost_name }
        ensures kept { K.kept self.new.inner.now ≡ K.kept self.old.inner.now }
    {
        match write_counted(self.inner, &self.waiting[self.gone..]) {
            Ok(()) => {
                self.passed += (self.waiting.len() - self.gone) as u64;
                self.gone = 0;
                self.waiting.clear();
                Ok(())
            }
            Err(part) => {
                self.passed += part.count as u64;
                self.gone += part.count;
                Err(part.fault)
            }
        }
    }

    // Makes place for a byte in the block, and for it to be counted.
    fn make_place(&mut self) -> Result<(), SinkFault>
        ensures readies { Readies
            (sent_with (K.sent self.old.inner.now) self.old.waiting.now.items self.old.gone)
            (sent_with (K.sent self.new.inner.now) self.new.waiting.now.items self.new.gone)
            (room_beside (vec_capacity self.old.waiting.now) (K.room self.old.inner.now)
            (vec_len self.old.waiting.now - self.old.gone) self.old.passed)
            (room_beside (vec_capacity self.new.waiting.now) (K.room self.new.inner.now)
            (vec_len self.new.waiting.now - self.new.gone) self.new.passed)
            (K.faults self.old.inner.now) (K.faults self.new.inner.now) result }
        ensures before { sent_before (K.sent self.new.inner.now) self.new.passed
            ≡ sent_before (K.sent self.old.inner.now) self.old.passed }
        ensures place { OnOk result (vec_len self.new.waiting.now < BLOCK_LENGTH) }
        ensures block { OnOk result (BLOCK_LENGTH ≤ vec_capacity self.new.waiting.now) }
        ensures reference { self.new.inner.ghost_name ≡ self.old.inner.ghost_name }
        ensures kept { K.kept self.new.inner.now ≡ K.kept self.old.inner.now }
    {
        if self.waiting.capacity() < BLOCK_LENGTH {
            return self
                .waiting
                .reserve(BLOCK_LENGTH)
                .map_err(|_| SinkFault::NoMemory);
        }
        if self.waiting.len() < BLOCK_LENGTH {
            return Ok(());
        }
        self.pass_on()
    }

    // How many bytes of a piece the block has place for, and can be counted.
    fn count_of(&self, piece: &[u8]) -> usize
        requires { vec_len self.now.waiting.now < BLOCK_LENGTH }
        ensures { result
            ≡ min (min (length piece.now) (BLOCK_LENGTH - vec_len self.now.waiting.now))
            (2 ^ 64 - 1 - (self.now.passed + (vec_len self.now.waiting.now - self.now.gone))) }
    {
        let left = (self.waiting.len() - self.gone) as u64;
        let countable = u64::MAX - (self.passed + left);
        piece
            .len()
            .min(BLOCK_LENGTH - self.waiting.len())
            .min(countable as usize)
    }

    // Adds a front of a piece to the block.
    fn collect(&mut self, piece: &[u8], count: usize)
        requires within { count ≤ length piece.now }
        requires place { vec_len self.old.waiting.now + count ≤ BLOCK_LENGTH }
        requires block { BLOCK_LENGTH ≤ vec_capacity self.old.waiting.now }
        requires countable { self.old.passed + (vec_len self.old.waiting.now - self.old.gone)
            + count < 2 ^ 64 }
        ensures waiting { self.new.waiting.now.items ≡ self.old.waiting.now.items
            ++ take count piece.now }
        ensures capacity { vec_capacity self.old.waiting.now ≤ vec_capacity self.new.waiting.now }
        ensures gone { self.new.gone ≡ self.old.gone }
        ensures passed { self.new.passed ≡ self.old.passed }
        ensures inner { self.new.inner.now ≡ self.old.inner.now }
        ensures reference { self.new.inner.ghost_name ≡ self.old.inner.ghost_name }
    {
        if self.waiting.extend_from_slice(&piece[..count]).is_err() {
            unreachable!()
        }
    }

    /// Writes what still waits to the sink below. After an error a front of it was written.
    pub fn finish(self) -> Result<(), SinkFault>
        ensures ok { OnOk result (Appends (K.sent self.entry.inner.now) (K.sent self.exit.0.now)
            (drop self.entry.gone self.entry.waiting.now.items)) }
        ensures err { OnErr result (SentFront (K.sent self.entry.inner.now) (K.sent self.exit.0.now)
            (drop self.entry.gone self.entry.waiting.now.items)) }
        ensures memory { result ≡ Err SinkFault.NoMemory →
            K.room self.entry.inner.now < vec_len self.entry.waiting.now - self.entry.gone }
        ensures cause { SinkCause (K.faults self.entry.inner.now) (K.faults self.exit.0.now)
            result }
        ensures kept { K.kept self.exit.0.now ≡ K.kept self.entry.inner.now }
    {
        let Blocks {
            inner,
            waiting,
            gone,
            passed: _,
        } = self;
        write_all(inner, &waiting[gone..])
    }
}

impl<K: Sink> Sink for Blocks<'_, K> {
    ghost use Rattle.std.specs.Prelude.{List, ℕ};
    ghost use Rattle.std.specs.declared.option.Option.{Option};
    ghost use Rattle.std.specs.Borrow.{GName};
    ghost use Rattle.port_base.specs.Blocks.{sent_with, sent_before, room_beside};

    ghost sent = { λ s. sent_with (K.sent s.inner.now) s.waiting.now.items s.gone };

    ghost room = { λ s. room_beside (vec_capacity s.waiting.now) (K.room s.inner.now)
        (vec_len s.waiting.now - s.gone) s.passed };

    ghost faults = { λ s. K.faults s.inner.now };

    // The sink below, what it was sent before this one began, and what no call of it changes.
    ghost Kept = { GName × (Option (List ℕ) × K.Kept) };

    ghost kept = { λ s.
        (s.inner.ghost_name, (sent_before (K.sent s.inner.now) s.passed, K.kept s.inner.now)) };

    fn reserve(&mut self, n: usize) -> Result<(), NoMemory> {
        if self.waiting.capacity() < BLOCK_LENGTH && self.waiting.reserve(BLOCK_LENGTH).is_err() {
            return Err(NoMemory);
        }
        let left = self.waiting.len() - self.gone;
        if n as u64 > u64::MAX - (self.passed + left as u64) {
            return Err(NoMemory);
        }
        match n.checked_add(left) {
            Some(room) => self.inner.reserve(room),
            None => Err(NoMemory),
        }
    }

    fn write(&mut self, piece: &[u8]) -> Result<usize, SinkFault> {
        if piece.is_empty() {
            return Ok(0);
        }
        self.make_place()?;
        let count = self.count_of(piece);
        if count == 0 {
            return Err(SinkFault::NoMemory);
        }
        self.collect(piece, count);
        Ok(count)
    }
}

#[cfg(test)]
mod tests {
    use super::*;
    use crate::failing::FailSink;
    use crate::memory::MemSink;
    use std::test::Fail;

    #[test]
    fn what_waits_comes_at_the_end(rt: HostRuntime) -> Result<(), Fail> {
        let mut inner = MemSink::new(rt.alloc());
        let mut buffer = Vec::new(rt.alloc());
        {
            let mut blocks = Blocks::new(&mut inner, &mut buffer);
            assert!(rt; blocks.reserve(5).is_ok());
            assert!(rt; write_all(&mut blocks, b"he").is_ok());
            assert!(rt; write_all(&mut blocks, b"llo").is_ok());
            assert!(rt; blocks.finish().is_ok());
        }
        assert_eq!(rt; inner.as_bytes(), b"hello".as_slice());
        Ok(())
    }

    #[test]
    fn a_full_block_is_written_at_once(rt: HostRuntime) -> Result<(), Fail> {
        let mut inner = FailSink::new(rt.alloc(), &[1])?;
        let mut buffer = Vec::new(rt.alloc());
        let block = vec![in rt.alloc(); 7; BLOCK_LENGTH]?;
        {
            let mut blocks = Blocks::new(&mut inner, &mut buffer);
            assert!(rt; write_all(&mut blocks, &block).is_ok());
            assert!(rt; write_all(&mut blocks, b"more").is_ok());
            assert_eq!(rt; blocks.finish(), Err(SinkFault::Failed));
        }
        assert_eq!(rt; inner.as_bytes().len(), BLOCK_LENGTH);
        Ok(())
    }
}
