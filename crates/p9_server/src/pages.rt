//! Pages of a directory: its entries as Rreaddir has them, one after another.
ghost use Rattle.std.specs.Prelude.{◌≡◌, ◌≤◌, ◌<◌, ◌^◌, ◌++◌, length, IfOk, OnOk};
ghost use Rattle.std.specs.Result.{result_map_both};
ghost use Rattle.tree_model.specs.Attributes.{entry_type};
ghost use Rattle.tree_host.specs.Holds.{hold_count};
ghost use Rattle.tree_host.specs.Host.{Answers};
ghost use Rattle.p9_wire.specs.Values.{qid_spelling};
ghost use Rattle.p9_wire.specs.Qids.{qid_of as qid_plain};
ghost use Rattle.p9_rmsg.specs.Dirents.{dirent_spelling};
ghost use Rattle.fid_model.specs.Listings.{entry_told};
ghost use Rattle.p9_server.specs.Paging.{page_told, Takes};
ghost use Rattle.p9_server.specs.Walking.{Counts};

use crate::qids::qid_of;
use p9_wire::protocol::DIRENT_HEADER_SIZE;
use p9_wire::qid::Qid;
use std::alloc::{AllocError, Global};
use tree_host::{Entry, Host};
use tree_model::attributes::{DT_DIR, DT_LNK, DT_REG};
use tree_model::{HostError, Kind};

/// The type of an entry of a listing, as `d_type` of readdir(3) has it.
pub fn entry_type(kind: Kind) -> u8
    ensures { result ≡ entry_type kind }
{
    match kind {
        Kind::File => DT_REG,
        Kind::Directory => DT_DIR,
        Kind::Link => DT_LNK,
    }
}

// Adds a qid: type, version and path.
fn push_qid(bytes: &mut Vec<u8>, qid: Qid) -> Result<(), AllocError>
    ensures { OnOk result (bytes.new.items ≡ bytes.old.items ++ qid_spelling (qid_plain qid)) }
{
    bytes.push(qid.ty)?;
    bytes.extend_from_slice(&qid.version.to_le_bytes())?;
    bytes.extend_from_slice(&qid.path.to_le_bytes())
}

// Adds an entry: its qid, the cookie to read on from, its type, and its name behind its length.
fn push_entry(bytes: &mut Vec<u8>, entry: &Entry) -> Result<(), AllocError>
    requires { length entry.now.name < 2 ^ 16 }
    ensures { OnOk result (bytes.new.items ≡ bytes.old.items
        ++ dirent_spelling (entry_told entry.now)) }
{
    push_qid(bytes, qid_of(&entry.attr))?;
    bytes.extend_from_slice(&entry.cookie.to_le_bytes())?;
    bytes.push(entry_type(entry.attr.kind))?;
    bytes.extend_from_slice(&(entry.name.len() as u16).to_le_bytes())?;
    bytes.extend_from_slice(&entry.name)?;
    Ok(())
}

// The first entry of a directory above a cookie, if so many bytes have room for it.
fn fitting_entry<H: Host>(
    host: &mut H,
    dir: u64,
    cookie: u64,
    room: usize,
) -> Result<Option<Entry>, HostError>
    requires { 0 < hold_count (H.holds host.old) dir }
    ensures takes { Takes (H.tree host.old) dir cookie room result }
    ensures tree { H.tree host.new ≡ H.tree host.old }
    ensures holds { H.holds host.new ≡ H.holds host.old }
    ensures cause { Counts (H.calls host.old) (H.calls host.new) result }
    ensures steady { (H.calls host.new).steady ≡ (H.calls host.old).steady }
{
    let Some(entry) = host.entry_after(dir, cookie)? else {
        return Ok(None);
    };
    if room < DIRENT_HEADER_SIZE as usize + entry.name.len() {
        return Ok(None);
    }
    Ok(Some(entry))
}

/// The entries of a directory above an offset, whole, as many as fit so many bytes. ENOTDIR for
/// what is no directory.
pub fn list_page<H: Host>(
    alloc: Global,
    host: &mut H,
    dir: u64,
    offset: u64,
    room: usize,
) -> Result<Vec<u8>, HostError>
    requires { 0 < hold_count (H.holds host.old) dir }
    ensures answer { Answers (page_told (H.tree host.old) dir offset room)
        (result_map_both (λ v. v.items) (λ e. e) result) }
    ensures fits { IfOk result (λ v. length v.items ≤ room) }
    ensures tree { H.tree host.new ≡ H.tree host.old }
    ensures holds { H.holds host.new ≡ H.holds host.old }
    ensures cause { Counts (H.calls host.old) (H.calls host.new) result }
    ensures steady { (H.calls host.new).steady ≡ (H.calls host.old).steady }
{
    let mut bytes = Vec::with_capacity(alloc, room)?;
    let mut cookie = offset;
    'entries: while let Some(entry) = fitting_entry(host, dir, cookie, room - bytes.len())? {
        push_entry(&mut bytes, &entry)?;
        cookie = entry.cookie;
    }
    Ok(bytes)
}
