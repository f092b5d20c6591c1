//! Sources and sinks in memory that fail in the calls that a test names.
ghost use Rattle.std.specs.Prelude.{◌≡◌, ◌-◌, ◌^◌, ◌<◌, ◌↔◌, ◌++◌, ◌∷◌, ℕ, List, length, [], true};
ghost use Rattle.std.specs.Prelude.{false};
ghost use Rattle.std.specs.Prelude.{Some, IfOk, OnOk, OnErr, IsErr, IsTrue, IsNone, Err};
ghost use Rattle.std.specs.Prelude.{if◌then◌else◌, vec_len, vec_capacity};
ghost use Rattle.std.specs.Borrow.{GName};
ghost use Rattle.std.specs.Io.{ReadsAtMost, WritesAtMost};
ghost use Rattle.std.specs.Io.KnownBytes.{ReadConsumes, WriteAppends};
ghost use Rattle.port_base.specs.Faults.{Faulted, ReadCause, SinkCause};
ghost use Rattle.port_base.specs.Streams.{RoomAfter};
ghost use Rattle.port_base.specs.Failing.{counted, is_due, after_call, is_quiet, first_calls};

use crate::memory::SliceSource;
use crate::sink::{NoMemory, Sink, SinkFault};
use crate::source::{ReadFault, Source};
use std::alloc::Global;
use std::marker::Model;

/// Which calls fail, by their numbers from 0, how many there were, and how many failed.
///
/// Both counts stand at 2^64 - 1 once they are there, and that number names no call.
#[derive(Drop)]
pub struct FailingCalls {
    numbers: Vec<u64>,
    calls: u64,
    faults: u64,
}

impl Model for FailingCalls {
    ghost use Rattle.port_base.specs.Failing.{CountedCalls};

    ghost Value = { CountedCalls };

    ghost view = { λ a. record {
      script = record { numbers = a.numbers.items; calls = a.calls };
      faults = a.faults;
    } };
}

impl FailingCalls {
    /// No call fails, and none was made yet.
    pub fn none(alloc: Global) -> Self
        ensures { result ≡ first_calls [] }
    {
        FailingCalls {
            numbers: Vec::new(alloc),
            calls: 0,
            faults: 0,
        }
    }

    /// The calls with these numbers fail. None was made yet.
    pub fn new(alloc: Global, fails: &[u64]) -> Result<Self, NoMemory>
        ensures { IfOk result (λ calls. calls ≡ first_calls fails.now) }
    {
        let numbers = fails.to_vec(alloc).map_err(|_| NoMemory)?;
        Ok(FailingCalls {
            numbers,
            calls: 0,
            faults: 0,
        })
    }

    /// Counts a call, and says whether it fails; a call that fails is counted as a fault too.
    pub fn count(&mut self) -> bool
        ensures fails { result ≡ is_due self.old.script }
        ensures script { self.new.script ≡ after_call self.old.script }
        ensures faults { self.new.faults ≡
            (if result then counted self.old.faults else self.old.faults) }
        ensures cause { IsTrue result → Faulted self.old.faults self.new.faults }
    {
        let call = self.calls;
        self.calls = call.saturating_add(1);
        let fails = call < u64::MAX && self.numbers.contains(&call);
        if fails {
            self.faults = self.faults.saturating_add(1);
        }
        fails
    }

    /// The calls with these numbers fail too.
    pub fn fail_at(&mut self, numbers: &[u64]) -> Result<(), NoMemory>
        ensures more { OnOk result
            (self.new.script.numbers ≡ self.old.script.numbers ++ numbers.now) }
        ensures calls { self.new.script.calls ≡ self.old.script.calls }
        ensures faults { self.new.faults ≡ self.old.faults }
        ensures refused { OnErr result (self.new ≡ self.old) }
    {
        self.numbers
            .extend_from_slice(numbers)
            .map_err(|_| NoMemory)
    }

    /// Whether no call is to fail.
    pub fn is_quiet(&self) -> bool
        ensures { result ≡ is_quiet self.now.script }
    {
        self.numbers.is_empty()
    }
}

/// The bytes of a slice, but for the reads that fail.
#[derive(Drop)]
pub struct FailSource<'a> {
    source: SliceSource<'a>,
    failing: FailingCalls,
}

impl<'a> FailSource<'a> {
    /// A source of these bytes, whose reads with these numbers, from 0, fail.
    pub fn new(alloc: Global, bytes: &'a [u8], fails: &[u64]) -> Result<Self, NoMemory>
        ensures bytes { IfOk result (λ s. s.source.rest.now ≡ bytes.now) }
        ensures failing { IfOk result (λ s. s.failing ≡ first_calls fails.now) }
    {
        let failing = FailingCalls::new(alloc, fails)?;
        Ok(FailSource {
            source: SliceSource::new(bytes),
            failing,
        })
    }
}

impl Source for FailSource<'_> {
    ghost left = { λ s. Some s.source.rest.now };

    ghost faults = { λ s. s.failing.faults };

    ghost Kept = { List ℕ };

    ghost kept = { λ s. s.failing.script.numbers };

    ghost lender = { λ s. 0 };

    ghost buffered = { λ s. [] };

    fn read(&mut self, buf: &mut [u8]) -> Result<usize, ReadFault>
        ensures bound { ReadsAtMost result buf.new }
        ensures bytes { ReadConsumes
            (Some self.old.source.rest.now) (Some self.new.source.rest.now) result buf.new }
        ensures cause { ReadCause self.old.failing.faults self.new.failing.faults result }
        ensures silent { IsNone (Some self.old.source.rest.now)
            → IsNone (Some self.new.source.rest.now) }
        ensures kept { self.new.failing.script.numbers ≡ self.old.failing.script.numbers }
        ensures lender { ◌≡◌ {A = GName} 0 0 }
        ensures fails { IsErr result ↔ IsTrue (is_due self.old.failing.script) }
        ensures script { self.new.failing.script ≡ after_call self.old.failing.script }
    {
        if self.failing.count() {
            return Err(ReadFault);
        }
        self.source.read(buf)
    }

    fn buffer(&self) -> &[u8] {
        let _failing = &self.failing;
        &[]
    }

    fn consume(&mut self, _n: usize) {}
}

/// Bytes in memory, but for the writes that fail.
#[derive(Drop)]
pub struct FailSink {
    bytes: Vec<u8>,
    failing: FailingCalls,
}

impl FailSink {
    /// A sink that was sent nothing, whose writes with these numbers, from 0, fail.
    pub fn new(alloc: Global, fails: &[u64]) -> Result<Self, NoMemory>
        ensures bytes { IfOk result (λ s. s.bytes.items ≡ []) }
        ensures failing { IfOk result (λ s. s.failing ≡ first_calls fails.now) }
    {
        let failing = FailingCalls::new(alloc, fails)?;
        Ok(FailSink {
            bytes: Vec::new(alloc),
            failing,
        })
    }

    /// What it was sent.
    pub fn as_bytes(&self) -> &[u8]
        ensures { result.now ≡ self.now.bytes.items }
    {
        &self.bytes
    }
}

impl Sink for FailSink {
    ghost sent = { λ s. Some s.bytes.items };

    ghost room = { λ s. vec_capacity s.bytes - vec_len s.bytes };

    ghost faults = { λ s. s.failing.faults };

    ghost Kept = { List ℕ };

    ghost kept = { λ s. s.failing.script.numbers };

    fn reserve(&mut self, n: usize) -> Result<(), NoMemory> {
        self.bytes.reserve(n).map_err(|_| NoMemory)
    }

    fn write(&mut self, piece: &[u8]) -> Result<usize, SinkFault>
        ensures bound { WritesAtMost result piece.now }
        ensures some { IfOk result (λ n. 0 < length piece.now → 0 < n) }
        ensures bytes { WriteAppends
            (Some self.old.bytes.items) (Some self.new.bytes.items) result piece.now }
        ensures silent { IsNone (Some self.old.bytes.items) → IsNone (Some self.new.bytes.items) }
        ensures room { RoomAfter
            (vec_capacity self.old.bytes - vec_len self.old.bytes)
            (vec_capacity self.new.bytes - vec_len self.new.bytes) result }
        ensures memory { result ≡ Err SinkFault.NoMemory →
            vec_capacity self.old.bytes - vec_len self.old.bytes < length piece.now }
        ensures cause { SinkCause self.old.failing.faults self.new.failing.faults result }
        ensures kept { self.new.failing.script.numbers ≡ self.old.failing.script.numbers }
        ensures fails { (result ≡ Err SinkFault.Failed) ↔ IsTrue (is_due self.old.failing.script) }
        ensures script { self.new.failing.script ≡ after_call self.old.failing.script }
    {
        if self.failing.count() {
            return Err(SinkFault::Failed);
        }
        self.bytes
            .extend_from_slice(piece)
            .map_err(|_| SinkFault::NoMemory)?;
        Ok(piece.len())
    }
}

// The listed calls fail, from number 0 on; the greatest count of calls names no call.
#[cfg(test)]
fn due_calls()
    ensures first { is_due (record { numbers = 0 ∷ 2 ∷ []; calls = 0 }) ≡ true }
    ensures second { is_due (record { numbers = 0 ∷ 2 ∷ []; calls = 1 }) ≡ false }
    ensures third { is_due (record { numbers = 0 ∷ 2 ∷ []; calls = 2 }) ≡ true }
    ensures last { is_due (record { numbers = (2 ^ 64 - 1) ∷ []; calls = 2 ^ 64 - 1 }) ≡ false }
    ensures calls { (after_call (record { numbers = []; calls = 6 })).calls ≡ 7 }
    ensures quiet { is_quiet (record { numbers = []; calls = 6 }) ≡ true }
    ensures loud { is_quiet (record { numbers = 9 ∷ []; calls = 6 }) ≡ false }
{}

#[cfg(test)]
mod tests {
    use super::*;
    use crate::sink::write_all;
    use crate::source::read_full;
    use std::test::Fail;

    #[test]
    fn the_listed_calls_fail(rt: HostRuntime) -> Result<(), Fail> {
        let alloc = rt.alloc();
        let mut source = FailSource::new(alloc, b"hello", &[1, 18446744073709551615])?;
        let mut front = [0; 2];
        assert_eq!(rt; source.read(&mut front), Ok(2));
        assert_eq!(rt; source.read(&mut front), Err(ReadFault));
        assert_eq!(rt; read_full(&mut source, &mut front), Ok(2));
        assert_eq!(rt; front, *b"ll");
        let mut sink = FailSink::new(alloc, &[1])?;
        assert!(rt; write_all(&mut sink, b"he").is_ok());
        assert_eq!(rt; write_all(&mut sink, b"llo"), Err(SinkFault::Failed));
        assert!(rt; write_all(&mut sink, b"y").is_ok());
        assert_eq!(rt; sink.as_bytes(), b"hey".as_slice());
        Ok(())
    }
}
