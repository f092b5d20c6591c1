//! Attributes and bytes of a record that change.
ghost use Rattle.std.specs.Prelude.{◌≡◌, ◌≢◌, ◌++◌, take, drop, replicate, ◌<◌, ◌≤◌, ◌+◌, ◌-◌};
ghost use Rattle.std.specs.Prelude.{◌^◌, IsTrue, IsOk, OnOk, OnErr, Err, if◌then◌else◌, length};
ghost use Rattle.std.specs.Prelude.{None, Some, not, ◌==◌, ◌&&◌, nat_le, nat_lt};
ghost use Rattle.tree_model.specs.Attributing.{is_timely, time_after, times_refused, retimed};
ghost use Rattle.tree_model.specs.Attributing.{restamped, remoded, owned_by, refused_for_link};
ghost use Rattle.tree_model.specs.Attributing.{refused_unless_file, len_refused, resized, written};
ghost use Rattle.tree_model.specs.Attributing.{rewritten_at, fitting, overwritten_at};
ghost use Rattle.tree_model.specs.Attributing.{write_refused};
ghost use Rattle.tree_host.specs.Changing.{change_refused, changed_by, is_small, Makes};

use super::{Node, Stored};
use crate::change::Change;
use port_base::errno::{EFBIG, EINVAL, EISDIR, EOPNOTSUPP};
use std::alloc::AllocError;
use tree_model::{HostError, Stamp, TimeSet};

const SECOND: u32 = 1_000_000_000;

fn is_timely(time: TimeSet) -> bool
    ensures { result ≡ is_timely time }
{
    match time {
        TimeSet::Keep => true,
        TimeSet::Now => true,
        TimeSet::At(stamp) => stamp.nsec < SECOND,
    }
}

fn time_after(time: TimeSet, moment: Stamp, old: Stamp) -> Stamp
    ensures { result ≡ time_after time moment old }
{
    match time {
        TimeSet::Keep => old,
        TimeSet::Now => moment,
        TimeSet::At(stamp) => stamp,
    }
}

/// The bytes that end by a limit.
pub fn fitting(new: &[u8], offset: u64, limit: u64) -> &[u8]
    ensures { result.now ≡ fitting limit offset new.now }
{
    let room = limit.saturating_sub(offset) as usize;
    &new[..new.len().min(room)]
}

// EFBIG for a length above the limit.
fn length_refusal(len: u64, limit: u64) -> Option<u32>
    ensures { result ≡ (if nat_lt limit len then Some EFBIG else None) }
{
    if len > limit { Some(EFBIG) } else { None }
}

// EFBIG where there are bytes to write, and none of them ends by the limit.
fn end_refusal(new: &[u8], offset: u64, limit: u64) -> Option<u32>
    ensures { result ≡ (if not (length new.now == 0) && nat_le limit offset
        then Some EFBIG else None) }
{
    if !new.is_empty() && limit <= offset {
        Some(EFBIG)
    } else {
        None
    }
}

// Fills up to a length with zeros. What is as long stays, and without memory nothing changes.
fn lengthen(bytes: &mut Vec<u8>, len: usize) -> Result<(), AllocError>
    ensures ok { OnOk result (bytes.new.items ≡ bytes.old.items ++ replicate
        (len - length bytes.old.items) 0) }
    ensures err { OnErr result (bytes.new.items ≡ bytes.old.items) }
{
    if len <= bytes.len() {
        return Ok(());
    }
    bytes.resize(len, 0)
}

fn put_at(bytes: &mut [u8], offset: usize, new: &[u8])
    requires { offset + length new.now ≤ length bytes.old }
    ensures { bytes.new ≡ take offset bytes.old ++ new.now ++ drop (offset + length new.now)
        bytes.old }
{
    let end = offset + new.len();
    bytes[offset..end].copy_from_slice(new);
}

// Writes bytes over others from an offset on; a gap is zeros. Without memory nothing changes.
fn write_over(bytes: &mut Vec<u8>, offset: usize, new: &[u8]) -> Result<(), AllocError>
    requires { offset + length new.now < 2 ^ 64 }
    ensures ok { OnOk result (bytes.new.items ≡ written offset new.now bytes.old.items) }
    ensures err { OnErr result (bytes.new.items ≡ bytes.old.items) }
{
    lengthen(bytes, offset + new.len())?;
    put_at(bytes, offset, new);
    Ok(())
}

impl Node {
    // Why the bytes of a file can't change: it is no file, or they would be too many.
    fn bytes_refusal(&self, too_many: Option<u32>) -> Option<u32>
        ensures { result ≡ refused_unless_file too_many self.now.body }
    {
        match &self.body {
            Stored::Bytes(_) => too_many,
            Stored::Names { .. } => Some(EISDIR),
            Stored::Target(_) => Some(EINVAL),
        }
    }

    fn mode_refusal(&self) -> Option<u32>
        ensures { result ≡ refused_for_link self.now.body }
    {
        match &self.body {
            Stored::Bytes(_) => None,
            Stored::Names { .. } => None,
            Stored::Target(_) => Some(EOPNOTSUPP),
        }
    }

    fn change_refusal(&self, change: Change, limit: u64) -> Option<u32>
        ensures { result ≡ change_refused change limit self.now.body }
    {
        match change {
            Change::Ctime => None,
            Change::Mode(_) => self.mode_refusal(),
            Change::Owner(_, _) => None,
            Change::Times(atime, mtime) if is_timely(atime) && is_timely(mtime) => None,
            Change::Times(_, _) => Some(EINVAL),
            Change::Len(len) => self.bytes_refusal(length_refusal(len, limit)),
        }
    }

    fn resize(&mut self, len: u64, moment: Stamp) -> Result<(), AllocError>
        ensures ok { OnOk result (self.new ≡ rewritten_at moment (resized len) self.old) }
        ensures err { OnErr result (self.new ≡ self.old) }
    {
        if let Stored::Bytes(bytes) = &mut self.body {
            bytes.resize(len as usize, 0)?;
        }
        self.mtime = moment;
        self.ctime = moment;
        Ok(())
    }

    fn make(&mut self, change: Change, moment: Stamp) -> Result<(), AllocError>
        ensures ok { OnOk result (self.new ≡ changed_by change moment self.old) }
        ensures err { OnErr result (self.new ≡ self.old) }
        ensures small { IsTrue (is_small change) → IsOk result }
    {
        match change {
            Change::Ctime => self.ctime = moment,
            Change::Mode(mode) => {
                self.mode = mode % 4096;
                self.ctime = moment;
            }
            Change::Owner(uid, gid) => {
                self.uid = uid.unwrap_or(self.uid);
                self.gid = gid.unwrap_or(self.gid);
                self.ctime = moment;
            }
            Change::Times(atime, mtime) => {
                self.atime = time_after(atime, moment, self.atime);
                self.mtime = time_after(mtime, moment, self.mtime);
                self.ctime = moment;
            }
            Change::Len(len) => return self.resize(len, moment),
        }
        Ok(())
    }

    /// Makes a change, where nothing refuses it.
    pub fn change(&mut self, change: Change, moment: Stamp, limit: u64) -> Result<(), HostError>
        ensures made { Makes (change_refused change limit self.old.body)
            (changed_by change moment self.old) self.old self.new result }
        ensures small { IsTrue (is_small change) → result ≢ Err HostError.NoMemory }
    {
        if let Some(errno) = self.change_refusal(change, limit) {
            return Err(HostError::Errno(errno));
        }
        self.make(change, moment)?;
        Ok(())
    }

    // Bytes that are written, where there are some.
    fn overwrite(&mut self, offset: usize, new: &[u8], moment: Stamp) -> Result<(), AllocError>
        requires { offset + length new.now < 2 ^ 64 }
        ensures ok { OnOk result (self.new ≡ overwritten_at moment offset new.now self.old) }
        ensures err { OnErr result (self.new ≡ self.old) }
    {
        if new.is_empty() {
            return Ok(());
        }
        if let Stored::Bytes(bytes) = &mut self.body {
            write_over(bytes, offset, new)?;
        }
        self.mtime = moment;
        self.ctime = moment;
        Ok(())
    }

    /// Writes the bytes of a file that end by the limit over its own.
    pub fn write(
        &mut self,
        offset: u64,
        new: &[u8],
        moment: Stamp,
        limit: u64,
    ) -> Result<(), HostError>
        ensures { Makes (write_refused limit offset new.now self.old.body)
            (overwritten_at moment offset (fitting limit offset new.now) self.old) self.old
            self.new result }
    {
        if let Some(errno) = self.bytes_refusal(end_refusal(new, offset, limit)) {
            return Err(HostError::Errno(errno));
        }
        self.overwrite(offset as usize, fitting(new, offset, limit), moment)?;
        Ok(())
    }
}
