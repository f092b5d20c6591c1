//! What a directory lists, read page by page.
ghost use Rattle.std.specs.Prelude.{◌≡◌, ◌≤◌, List, map, IfOk, Ok};
ghost use Rattle.p9_wire.specs.declared.data.TheConstants.{MAX_DATA_LENGTH};
ghost use Rattle.p9_rmsg.specs.Dirents.{Entry, dirent_at, dirent_of};
ghost use Rattle.fid_model.specs.Listings.{readdir_told};
ghost use Rattle.p9_client.specs.Views.{IsRoomy, bytes_answer};
ghost use Rattle.p9_client.specs.Changing.{Shows};
ghost use Rattle.p9_client.specs.Listing.{AreSpelled, BeginsWithEntry, IsListing};
ghost use Rattle.p9_client.specs.Listing.{entries_answer, entries_told};

use crate::exchange::exchange;
use fid_model::Nine;
use p9_rmsg::{Dirent, Rmessage};
use p9_tmsg::{Tmessage, Treaddir};
use p9_wire::data::Data;
use p9_wire::error::WireError;
use p9_wire::format::WireFormat;
use port_base::memory::SliceSource;
use port_base::sink::NoMemory;
use std::alloc::Global;

// A page as the reply has it: the entries' bytes, one after another.
fn read_page<N: Nine>(
    alloc: Global,
    nine: &mut N,
    fid: u32,
    offset: u64,
    count: u32,
) -> Result<Result<Data, u32>, NoMemory>
    requires roomy { IsRoomy (N.at nine.old).state }
    requires few { count ≤ MAX_DATA_LENGTH }
    ensures { Shows bytes_answer (λ s. readdir_told s fid offset count) result
        (N.at nine.old) (N.at nine.new) }
{
    let message = Tmessage::Readdir(Treaddir { fid, offset, count });
    match exchange(alloc, nine, &message)? {
        Rmessage::Readdir(reply) => Ok(Ok(reply.payload)),
        Rmessage::Lerror(reply) => Ok(Err(reply.ecode)),
        _ => unreachable!(),
    }
}

// Takes the entry that stands first.
fn take_entry(alloc: Global, source: &mut SliceSource<'_>) -> Result<Dirent, NoMemory>
    requires { BeginsWithEntry source.old.rest.now }
    ensures { IfOk result (λ d. dirent_at source.old.rest.now
        ≡ Ok (dirent_of d, source.new.rest.now)) }
{
    match Dirent::decode(alloc, source) {
        Ok(entry) => Ok(entry),
        Err(fault) => match fault {
            WireError::NoMemory => Err(NoMemory),
            _ => unreachable!(),
        },
    }
}

// The entries that a page spells, one after another.
fn entries_in(alloc: Global, page: &[u8]) -> Result<Vec<Dirent>, NoMemory>
    requires { IsListing page.now }
    ensures { (es : List Entry) → AreSpelled es page.now →
        IfOk result (λ ds. map dirent_of ds.items ≡ es) }
{
    let mut source = SliceSource::new(page);
    let mut entries = Vec::new(alloc);
    'entries: while !source.is_at_end() {
        let entry = take_entry(alloc, &mut source)?;
        match entries.push(entry) {
            Ok(()) => {}
            Err(_) => return Err(NoMemory),
        }
    }
    Ok(entries)
}

/// The entries of a directory that a fid has open, above an offset: as many as together have at
/// most `count` bytes, as `Dirent` spells them, and fit a frame, each of them whole. An entry's own
/// offset is where to read on behind it.
pub fn read_entries<N: Nine>(
    alloc: Global,
    nine: &mut N,
    fid: u32,
    offset: u64,
    count: u32,
) -> Result<Result<Vec<Dirent>, u32>, NoMemory>
    requires roomy { IsRoomy (N.at nine.old).state }
    requires few { count ≤ MAX_DATA_LENGTH }
    ensures { Shows entries_answer (λ s. entries_told s fid offset count) result
        (N.at nine.old) (N.at nine.new) }
{
    match read_page(alloc, nine, fid, offset, count)? {
        Ok(page) => {
            let entries = entries_in(alloc, &page.0)?;
            Ok(Ok(entries))
        }
        Err(e) => Ok(Err(e)),
    }
}
