// The rows of a table in order.
ghost use Rattle.std.specs.Prelude.{◌≡◌, IfSome, Some};
ghost use Rattle.std.specs.Iterator.{item_count};
ghost use Rattle.libmount.specs.Items.{item_of, items};
ghost use Rattle.libmount.specs.Parsers.{items_left, text_left, ItemLiesIn, ItemLiesInRest};
ghost use Rattle.libmount.specs.Parsers.{NextItem, TakesItem};
ghost use Rattle.libmount.specs.Slices.{StaysIn, placed};
ghost use Rattle.libmount.specs.Views.{GivesItem, IsRefused};

use crate::mountinfo::errors::{ParseError, RowError, RowFault};
use crate::mountinfo::lines::Lines;
use crate::mountinfo::rows::{MountPoint, parse_mount_point};
use std::alloc::Global;

// A refused row, with its number.
fn refused(alloc: Global, fault: RowFault, number: usize, line: &[u8]) -> ParseError
    ensures { IsRefused fault number line.now result }
{
    match fault {
        RowFault::Row(error) => match Vec::from_slice(alloc, line) {
            Ok(row) => ParseError::Row(RowError {
                message: error.0,
                row_num: number,
                row,
            }),
            Err(_) => ParseError::NoMemory,
        },
        RowFault::NoMemory => ParseError::NoMemory,
    }
}

// What a line says, where it isn't passed over.
fn item_of<'a>(
    alloc: Global,
    number: usize,
    line: &'a [u8],
) -> Option<Result<MountPoint<'a>, ParseError>>
    ensures value { GivesItem result (item_of (number, placed line.entry)) }
    ensures parts { IfSome result (ItemLiesIn line.entry) }
{
    match parse_mount_point(alloc, line) {
        Ok(found) => match found {
            Some(mount_point) => Some(Ok(mount_point)),
            None => None,
        },
        Err(fault) => Some(Err(refused(alloc, fault, number, line))),
    }
}

/// The rows of a table in order, as an iterator. Rows that are passed over give no item, and after
/// the last row or `NoMemory` it ends.
#[derive(Debug, Drop)]
pub struct Parser<'a> {
    alloc: Global,
    lines: Lines<'a>,
}

impl<'a> Parser<'a> {
    /// A parser of the whole text of a table.
    pub fn new(alloc: Global, text: &'a [u8]) -> Parser<'a>
        ensures items { items_left result ≡ items (placed text.entry) }
        ensures text { text_left result ≡ Some text.entry }
    {
        Parser {
            alloc,
            lines: Lines::new(text),
        }
    }

    // The first of the items that are left.
    fn take_item(&mut self) -> Option<Result<MountPoint<'a>, ParseError>>
        ensures items { TakesItem (items_left self.old) result (items_left self.new) }
        ensures part { IfSome result (ItemLiesInRest (text_left self.old)) }
        ensures text { StaysIn (text_left self.old) (text_left self.new) }
    {
        'lines: while let Some((number, line)) = self.lines.next() {
            match item_of(self.alloc, number, line) {
                Some(item) => return Some(item),
                None => {}
            }
        }
        None
    }
}

impl<'a> Iterator for Parser<'a> {
    type Item = Result<MountPoint<'a>, ParseError>;

    ghost next_gives = { NextItem };

    ghost remaining = { item_count items_left };

    fn next(&mut self) -> Option<Result<MountPoint<'a>, ParseError>> {
        match self.take_item() {
            Some(Ok(mount_point)) => Some(Ok(mount_point)),
            Some(Err(ParseError::Row(error))) => Some(Err(ParseError::Row(error))),
            Some(Err(ParseError::NoMemory)) => {
                self.lines.end();
                Some(Err(ParseError::NoMemory))
            }
            None => None,
        }
    }
}
