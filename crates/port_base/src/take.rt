//! A front of a source.
ghost use Rattle.std.specs.Prelude.{◌≡◌, ℕ, List, take, drop, min};
ghost use Rattle.std.specs.declared.option.Option.{Option};
ghost use Rattle.std.specs.Option.{option_map};
ghost use Rattle.std.specs.Borrow.{GName};

use crate::source::{ReadFault, Source};

/// At most so many bytes of a source, which goes on after them.
#[derive(Drop)]
pub struct Take<'a, S> {
    source: &'a mut S,
    rest: u64,
}

impl<'a, S: Source> Take<'a, S> {
    /// The next n bytes of a source.
    pub fn new(source: &'a mut S, n: u64) -> Take<'a, S>
        ensures same_reference { result.source.ghost_name ≡ source.entry.ghost_name }
        ensures inner { result.source.now ≡ source.old }
        ensures rest { result.rest ≡ n }
    {
        Take { source, rest: n }
    }

    /// How many bytes it may still take.
    pub fn rest(&self) -> u64
        ensures { result ≡ self.now.rest }
    {
        self.rest
    }
}

// The smaller number.
fn at_most(len: usize, rest: u64) -> usize
    ensures { result ≡ min len rest }
{
    if rest < len as u64 {
        rest as usize
    } else {
        len
    }
}

impl<S: Source> Source for Take<'_, S> {
    ghost left = { λ t. option_map (take t.rest) (S.left t.source.now) };

    ghost faults = { λ t. S.faults t.source.now };

    ghost Kept = { Option (List ℕ) × (GName × S.Kept) };

    ghost kept = { λ t. (
      option_map (drop t.rest) (S.left t.source.now),
      (S.lender t.source.now, S.kept t.source.now),
    ) };

    ghost lender = { λ t. t.source.ghost_name };

    ghost buffered = { λ t. take t.rest (S.buffered t.source.now) };

    fn read(&mut self, buf: &mut [u8]) -> Result<usize, ReadFault> {
        let most = at_most(buf.len(), self.rest);
        let n = self.source.read(&mut buf[..most])?;
        self.rest -= n as u64;
        Ok(n)
    }

    fn buffer(&self) -> &[u8] {
        let buffer = self.source.buffer();
        &buffer[..at_most(buffer.len(), self.rest)]
    }

    fn consume(&mut self, n: usize) {
        self.source.consume(n);
        self.rest -= n as u64;
    }
}

#[cfg(test)]
mod tests {
    use super::*;
    use crate::memory::SliceSource;
    use crate::source::read_full;

    #[test]
    fn a_front_ends_before_its_source(rt: HostRuntime) {
        let mut source = SliceSource::new(b"hello");
        let mut buffer = [0; 8];
        {
            let mut front = Take::new(&mut source, 3);
            assert_eq!(rt; read_full(&mut front, &mut buffer), Ok(3));
            assert_eq!(rt; front.rest(), 0);
        }
        assert_eq!(rt; read_full(&mut source, &mut buffer), Ok(2));
        assert_eq!(rt; buffer[..2], *b"lo".as_slice());
    }
}
