// Rows of a mountinfo table.
ghost use Rattle.std.specs.Prelude.{◌≡◌, ◌≤◌, length, IfOk, IfSome, Ok, None, OnErr};
ghost use Rattle.std.specs.Option.{option_map};
ghost use Rattle.std.specs.List.{prefix_len};
ghost use Rattle.std.specs.Str.Lines.{strip_carriage_return};
ghost use Rattle.libmount.specs.Cuts.{dash};
ghost use Rattle.libmount.specs.Reading.{Gives};
ghost use Rattle.libmount.specs.Rows.{fields_of, is_blank, is_skipped, optional_at, row, row_of};
ghost use Rattle.libmount.specs.Rows.{text_at};
ghost use Rattle.libmount.specs.Slices.{FieldLiesIn, LiesIn, RowLiesIn, placed};
ghost use Rattle.libmount.specs.Views.{row_view, text, GivesRow};

use crate::mountinfo::cuts::{field, without_trailing_spaces};
use crate::mountinfo::errors::RowFault;
use crate::mountinfo::escapes::{Field, text_of};
use crate::mountinfo::numbers::{number_at, number_field};
use crate::mountinfo::refusals::Refusal;
use std::alloc::Global;

/// A mounted file system, as a row of the table shows it (`proc(5)`).
#[derive(Debug, Drop)]
pub struct MountPoint<'a> {
    /// The number of the mount.
    pub mount_id: u64,
    /// The number of the mount that it is mounted on.
    pub parent_id: u64,
    /// The major number of its device.
    pub major: u64,
    /// The minor number of its device.
    pub minor: u64,
    /// Which directory of the file system is shown.
    pub root: Field<'a>,
    /// Where it is mounted.
    pub mount_point: Field<'a>,
    /// Options of the mount, with commas between them.
    pub mount_options: Field<'a>,
    /// Tags, with spaces between them.
    pub optional_fields: Field<'a>,
    /// The type of the file system.
    pub fstype: Field<'a>,
    /// What is mounted, as a device.
    pub mount_source: Field<'a>,
    /// Options of the file system, with commas between them.
    pub super_options: Field<'a>,
}

// A text up to a space, and what follows it.
#[tactic(auto, unfolding(crate::specs::Rows::text_at))]
fn text_at(alloc: Global, bytes: &[u8]) -> Result<(Field<'_>, &[u8]), Refusal<'_>>
    ensures value { Gives (λ found. (text found.0, placed found.1)) result
        (text_at (placed bytes.entry)) }
    ensures parts { IfOk result (λ found. FieldLiesIn bytes.entry found.0
        × LiesIn bytes.entry found.1) }
{
    let (field, rest) = field(b" ", bytes)?;
    let text = text_of(alloc, field)?;
    Ok((text, rest))
}

// The optional fields, and what follows their dash.
#[tactic(auto, unfolding(crate::specs::Rows::optional_at))]
fn optional_at(alloc: Global, bytes: &[u8]) -> Result<(Field<'_>, &[u8]), Refusal<'_>>
    ensures value { Gives (λ found. (text found.0, placed found.1)) result
        (optional_at (placed bytes.entry)) }
    ensures parts { IfOk result (λ found. FieldLiesIn bytes.entry found.0
        × LiesIn bytes.entry found.1) }
{
    let (field, rest) = field(b"- ", bytes)?;
    let text = text_of(alloc, without_trailing_spaces(field))?;
    Ok((text, rest))
}

// The eleven fields of a row.
#[tactic(auto, unfolding(crate::specs::Rows::fields_of))]
fn fields_of(alloc: Global, row: &[u8]) -> Result<MountPoint<'_>, Refusal<'_>>
    ensures value { Gives row_view result (fields_of (placed row.entry)) }
    ensures parts { IfOk result (RowLiesIn row.entry) }
{
    let (mount_id, rest) = number_at(row)?;
    let (parent_id, rest) = number_at(rest)?;
    let (major, rest) = number_field(b":", rest)?;
    let (minor, rest) = number_field(b" ", rest)?;
    let (root, rest) = text_at(alloc, rest)?;
    let (mount_point, rest) = text_at(alloc, rest)?;
    let (mount_options, rest) = text_at(alloc, rest)?;
    let (optional_fields, rest) = optional_at(alloc, rest)?;
    let (fstype, rest) = text_at(alloc, rest)?;
    let (mount_source, rest) = text_at(alloc, rest)?;
    let (super_options, _) = text_at(alloc, rest)?;
    Ok(MountPoint {
        mount_id,
        parent_id,
        major,
        minor,
        root,
        mount_point,
        mount_options,
        optional_fields,
        fstype,
        mount_source,
        super_options,
    })
}

fn blanks(row: &[u8]) -> usize
    ensures count { result ≡ prefix_len is_blank row.now }
    ensures within { result ≤ length row.now }
{
    row.iter()
        .take_while(|byte| **byte == b' ' || **byte == b'\t')
        .count()
}

// Whether a row is empty, or spaces and tabs and then a number sign.
fn is_skipped(row: &[u8]) -> bool
    ensures { result ≡ is_skipped row.now }
{
    let rest = &row[blanks(row)..];
    row.is_empty() || (!rest.is_empty() && rest[0] == b'#')
}

fn without_return(line: &[u8]) -> &[u8]
    ensures value { placed result ≡ (line.entry.ref_ptr.1, strip_carriage_return line.now) }
    ensures part { LiesIn line.entry result }
{
    if !line.is_empty() && line[line.len() - 1] == b'\r' {
        &line[..line.len() - 1]
    } else {
        line
    }
}

// What a row without its carriage return says.
#[tactic(auto, unfolding(crate::specs::Rows::row_of))]
fn row_of(alloc: Global, row: &[u8]) -> Result<Option<MountPoint<'_>>, Refusal<'_>>
    ensures gives { Gives (option_map row_view) result (row_of (placed row.entry)) }
    ensures not_skipped { OnErr result (row_of (placed row.entry) ≡ Ok None → ⊥) }
    ensures parts { IfOk result (λ found. IfSome found (RowLiesIn row.entry)) }
{
    if is_skipped(row) {
        return Ok(None);
    }
    let fields = fields_of(alloc, row)?;
    Ok(Some(fields))
}

/// What one line of the table says, without its line feed: `None` where it is passed over, as an
/// empty row is, and spaces and tabs and then a number sign.
#[tactic(auto, unfolding(crate::specs::Rows::row))]
pub fn parse_mount_point(alloc: Global, line: &[u8]) -> Result<Option<MountPoint<'_>>, RowFault>
    ensures value { GivesRow result (row (placed line.entry)) }
    ensures parts { IfOk result (λ found. IfSome found (RowLiesIn line.entry)) }
{
    match row_of(alloc, without_return(line)) {
        Ok(found) => Ok(found),
        Err(refusal) => Err(refusal.tell(alloc)),
    }
}
