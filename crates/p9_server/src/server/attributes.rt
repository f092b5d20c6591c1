//! Tsetattr: mode, owners, size, times and ctime of what a fid names, in this order.
ghost use Rattle.std.specs.Prelude.{◌≡◌, ◌-◌, ◌^◌, ◌<◌, min, Ok};
ghost use Rattle.port_base.specs.OpenFlags.{has_flag};
ghost use Rattle.p9_tmsg.specs.Messages.Message.{setattr};
ghost use Rattle.p9_rmsg.specs.Replies.Reply.{setattr as were_set};
ghost use Rattle.tree_host.specs.Holds.{hold_count};
ghost use Rattle.tree_model.specs.AttributeSteps.{ctime_steps, mode_steps, new_owner, new_time};
ghost use Rattle.tree_model.specs.AttributeSteps.{owner_steps, size_steps, times_steps};
ghost use Rattle.fid_model.specs.Setattr.{is_open_to_read_alone, new_attributes, steps};
ghost use Rattle.p9_server.specs.Setting.{Runs, changes_of, kind_size_refused};
ghost use Rattle.p9_server.specs.Walking.{Counts};
ghost use Rattle.p9_server.specs.Steps.{moment_of, Steps};

use super::Server;
use crate::fid_state::FidState;
use fid_model::setattr::{
    P9_SETATTR_ATIME, P9_SETATTR_ATIME_SET, P9_SETATTR_CTIME, P9_SETATTR_GID, P9_SETATTR_MODE,
    P9_SETATTR_MTIME, P9_SETATTR_MTIME_SET, P9_SETATTR_NAMED, P9_SETATTR_SIZE, P9_SETATTR_UID,
};
use p9_tmsg::Tsetattr;
use port_base::errno::{EBADF, EINVAL, EISDIR, ELOOP};
use port_base::oflag::has_flag;
use tree_host::Host;
use tree_model::attributes::UNCHANGED_ID;
use tree_model::{HostError, Kind, Stamp, TimeSet};

// The owner that becomes that of the inode, if one is given that isn't to stay.
fn new_owner(valid: u32, bit: u32, id: u32) -> Option<u32>
    ensures { result ≡ new_owner (has_flag bit valid) id }
{
    if has_flag(valid, bit) && id != UNCHANGED_ID {
        Some(id)
    } else {
        None
    }
}

// A time as a host takes it. Nanoseconds of 2^32 or more are as bad as one less.
fn stamp(sec: u64, nsec: u64) -> Stamp
    ensures { result ≡ record { sec = sec; nsec = min nsec (2 ^ 32 - 1) } }
{
    Stamp {
        sec,
        nsec: nsec.min(u32::MAX as u64) as u32,
    }
}

// What becomes of a time: it stays, or becomes the moment, or the given one.
fn new_time(valid: u32, bit: u32, given_bit: u32, given: Stamp) -> TimeSet
    ensures { result ≡ new_time (has_flag bit valid) (has_flag given_bit valid) given }
{
    if !has_flag(valid, bit) {
        return TimeSet::Keep;
    }
    if has_flag(valid, given_bit) {
        TimeSet::At(given)
    } else {
        TimeSet::Now
    }
}

// Why what is of a kind gets no size through a fid.
fn size_refused(state: &FidState, kind: Kind) -> Option<u32>
    ensures { result ≡ kind_size_refused state.now.open_state kind }
{
    match kind {
        Kind::File => {
            if state.is_open_to_read_alone() {
                Some(EINVAL)
            } else {
                None
            }
        }
        Kind::Directory => Some(EISDIR),
        Kind::Link => Some(ELOOP),
    }
}

fn set_mode<H: Host>(host: &mut H, state: &FidState, m: &Tsetattr) -> Result<(), HostError>
    requires { 0 < hold_count (H.holds host.old) state.now.ino }
    ensures ran { Runs (mode_steps state.now.ino (new_attributes (changes_of m.now))) (H.tree host.old)
        (H.tree host.new) result }
    ensures holds { H.holds host.new ≡ H.holds host.old }
    ensures cause { Counts (H.calls host.old) (H.calls host.new) result }
    ensures steady { (H.calls host.new).steady ≡ (H.calls host.old).steady }
{
    if !has_flag(m.valid, P9_SETATTR_MODE) {
        return Ok(());
    }
    host.set_mode(state.ino(), m.mode)
}

fn set_owner<H: Host>(host: &mut H, state: &FidState, m: &Tsetattr) -> Result<(), HostError>
    requires { 0 < hold_count (H.holds host.old) state.now.ino }
    ensures ran { Runs (owner_steps state.now.ino (new_attributes (changes_of m.now))) (H.tree host.old)
        (H.tree host.new) result }
    ensures holds { H.holds host.new ≡ H.holds host.old }
    ensures cause { Counts (H.calls host.old) (H.calls host.new) result }
    ensures steady { (H.calls host.new).steady ≡ (H.calls host.old).steady }
{
    if !has_flag(m.valid, P9_SETATTR_UID) && !has_flag(m.valid, P9_SETATTR_GID) {
        return Ok(());
    }
    let uid = new_owner(m.valid, P9_SETATTR_UID, m.uid);
    let gid = new_owner(m.valid, P9_SETATTR_GID, m.gid);
    host.set_owner(state.ino(), uid, gid)
}

fn set_size<H: Host>(host: &mut H, state: &FidState, m: &Tsetattr) -> Result<(), HostError>
    requires { 0 < hold_count (H.holds host.old) state.now.ino }
    ensures ran { Runs (size_steps (is_open_to_read_alone state.now.open_state) state.now.ino
        (new_attributes (changes_of m.now))) (H.tree host.old)
        (H.tree host.new) result }
    ensures holds { H.holds host.new ≡ H.holds host.old }
    ensures cause { Counts (H.calls host.old) (H.calls host.new) result }
    ensures steady { (H.calls host.new).steady ≡ (H.calls host.old).steady }
{
    if !has_flag(m.valid, P9_SETATTR_SIZE) {
        return Ok(());
    }
    let attr = host.stat(state.ino())?;
    if let Some(e) = size_refused(state, attr.kind) {
        return Err(HostError::Errno(e));
    }
    host.set_len(state.ino(), m.size)
}

fn set_times<H: Host>(host: &mut H, state: &FidState, m: &Tsetattr) -> Result<(), HostError>
    requires { 0 < hold_count (H.holds host.old) state.now.ino }
    ensures ran { Runs (times_steps state.now.ino (new_attributes (changes_of m.now))) (H.tree host.old)
        (H.tree host.new) result }
    ensures holds { H.holds host.new ≡ H.holds host.old }
    ensures cause { Counts (H.calls host.old) (H.calls host.new) result }
    ensures steady { (H.calls host.new).steady ≡ (H.calls host.old).steady }
{
    if !has_flag(m.valid, P9_SETATTR_ATIME) && !has_flag(m.valid, P9_SETATTR_MTIME) {
        return Ok(());
    }
    let atime = new_time(
        m.valid,
        P9_SETATTR_ATIME,
        P9_SETATTR_ATIME_SET,
        stamp(m.atime_sec, m.atime_nsec),
    );
    let mtime = new_time(
        m.valid,
        P9_SETATTR_MTIME,
        P9_SETATTR_MTIME_SET,
        stamp(m.mtime_sec, m.mtime_nsec),
    );
    host.set_times(state.ino(), atime, mtime)
}

fn touch_ctime<H: Host>(host: &mut H, state: &FidState, m: &Tsetattr) -> Result<(), HostError>
    requires { 0 < hold_count (H.holds host.old) state.now.ino }
    ensures ran { Runs (ctime_steps state.now.ino (new_attributes (changes_of m.now))) (H.tree host.old)
        (H.tree host.new) result }
    ensures holds { H.holds host.new ≡ H.holds host.old }
    ensures cause { Counts (H.calls host.old) (H.calls host.new) result }
    ensures steady { (H.calls host.new).steady ≡ (H.calls host.old).steady }
{
    if m.valid & P9_SETATTR_NAMED != P9_SETATTR_CTIME {
        return Ok(());
    }
    host.touch_ctime(state.ino())
}

// Sets what is given, step by step; a step that was done stays where a later one is refused.
fn set_attributes<H: Host>(host: &mut H, state: &FidState, m: &Tsetattr) -> Result<(), HostError>
    requires { 0 < hold_count (H.holds host.old) state.now.ino }
    ensures ran { Runs (steps (changes_of m.now) state.now) (H.tree host.old) (H.tree host.new)
        result }
    ensures holds { H.holds host.new ≡ H.holds host.old }
    ensures cause { Counts (H.calls host.old) (H.calls host.new) result }
    ensures steady { (H.calls host.new).steady ≡ (H.calls host.old).steady }
{
    set_mode(host, state, m)?;
    set_owner(host, state, m)?;
    set_size(host, state, m)?;
    set_times(host, state, m)?;
    touch_ctime(host, state, m)
}

impl<H: Host> Server<H> {
    // Sets attributes of what a fid names.
    pub(super) fn set_attr(&mut self, m: &Tsetattr) -> Result<(), HostError>
        ensures step { Steps
            (setattr m.now.fid m.now.valid m.now.mode m.now.uid m.now.gid m.now.size
            m.now.atime_sec m.now.atime_nsec m.now.mtime_sec m.now.mtime_nsec) (λ _. were_set)
            (moment_of (H.tree self.old.host) (H.calls self.old.host)
            self.old.fids self.old.msize self.old.share self.old.asked)
            (moment_of (H.tree self.new.host) (H.calls self.new.host)
            self.new.fids self.new.msize self.new.share self.new.asked) result }
        ensures steady { (H.calls self.new.host).steady ≡ (H.calls self.old.host).steady }
        ensures fixed { (self.new.msize ≡ self.old.msize) × (self.new.share ≡ self.old.share) }
        ensures asked { self.new.asked ≡ self.old.asked }
    {
        let Some(state) = self.fids.get(m.fid as u64) else {
            return Err(HostError::Errno(EBADF));
        };
        set_attributes(&mut self.host, state, m)
    }
}
