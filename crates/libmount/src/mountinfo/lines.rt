// The lines of a text with their numbers.
ghost use Rattle.std.specs.Prelude.{◌≡◌, ◌+◌, ◌<◌, ◌^◌, [], length, None, IsSome, is_some};
ghost use Rattle.std.specs.Prelude.{if◌then◌else◌};
ghost use Rattle.std.specs.Option.{ForSome};

use crate::mountinfo::parts::first_part;

// How many line feeds stand before the rest, where there is one.
fn line_feeds(before: usize, rest: Option<&[u8]>) -> usize
    requires { IsSome rest → before + 1 < 2 ^ 64 }
    ensures { result ≡ (if is_some rest.entry then before + 1 else before) }
{
    match rest {
        Some(_) => before + 1,
        None => before,
    }
}

/// Lines with their numbers: one that a line feed ends is numbered from 1, and a last one without
/// has the number of line feeds before it.
#[derive(Debug, Drop)]
pub(crate) struct Lines<'a> {
    rest: Option<&'a [u8]>,
    line_feeds: usize,
    ghost counted: { ForSome rest (λ text. line_feeds + length text.now < 2 ^ 64) },
}

impl<'a> Lines<'a> {
    ghost use Rattle.std.specs.Prelude.{◌≡◌, [], None, Some};
    ghost use Rattle.libmount.specs.Items.{lines, lines_left};
    ghost use Rattle.libmount.specs.Slices.{placed};

    pub(crate) fn new(text: &'a [u8]) -> Lines<'a>
        ensures lines { lines_left result ≡ lines (placed text.entry) }
        ensures rest { result.rest ≡ Some text.entry }
    {
        Lines {
            rest: Some(text),
            line_feeds: 0,
        }
    }

    /// Gives up the lines that are left.
    pub(crate) fn end(&mut self)
        ensures lines { lines_left self.new ≡ [] }
        ensures rest { self.new.rest ≡ None }
    {
        self.rest = None;
    }
}

impl<'a> Iterator for Lines<'a> {
    ghost use Rattle.std.specs.Iterator.{item_count};
    ghost use Rattle.libmount.specs.Items.{lines_left, NextLine};

    type Item = (usize, &'a [u8]);

    ghost next_gives = { NextLine };

    ghost remaining = { item_count lines_left };

    fn next(&mut self) -> Option<(usize, &'a [u8])> {
        let text = self.rest?;
        let (line, rest) = first_part(text, b'\n');
        self.line_feeds = line_feeds(self.line_feeds, rest);
        self.rest = rest;
        Some((self.line_feeds, line))
    }
}
