// READDIR.
ghost use Rattle.std.specs.Prelude.{◌≡◌, ◌≤◌, ℕ, min, [], None, IfOk, OnErr, map as each};
ghost use Rattle.fuse_wire.specs.Request.{readdir};
ghost use Rattle.p9_rmsg.specs.Dirents.{dirent_of};
ghost use Rattle.fid_model.specs.Moments.{Keeps, SameTree};
ghost use Rattle.fuse_gate.specs.Standing.{IsInStep};
ghost use Rattle.fuse_wire.specs.Answers.{listed_by, rest_of};
ghost use Rattle.fuse_gate.specs.Listings.{type_by, directory_at, ListsDirectory, AddsFront};
ghost use Rattle.fuse_gate.specs.Listings.{ServesListing};
ghost use Rattle.fuse_gate.specs.Desks.{AddsListed, IsFrontOf, bytes_told, listing_of, room_of};
ghost use Rattle.fuse_gate.specs.Steps.{ServesRequest};

use crate::gate::{GREATEST_MSIZE, Gate};
use fid_model::Nine;
use fuse_wire::answers::FsFail;
use fuse_wire::attr::FileType;
use fuse_wire::ids::{Errno, INodeNo};
use fuse_wire::listing::DirEntListBuilder;
use fuse_wire::protocol::MAX_READ;
use p9_client::read_entries;
use p9_rmsg::Dirent;
use p9_wire::protocol::RREAD_HEADER_SIZE;
use port_base::errno::{EBADF, ENOTDIR};
use tree_model::attributes::{DT_DIR, DT_LNK, QTDIR};

// What a type byte of an entry tells, a number of `d_type` of readdir(3).
fn file_type(ty: u8) -> FileType
    ensures { result ≡ type_by ty }
{
    match ty {
        DT_DIR => FileType::Directory,
        DT_LNK => FileType::Symlink,
        _ => FileType::RegularFile,
    }
}

// Adds entries to a listing, and tells where to read on; nowhere, where one has no room.
fn add_entries(builder: &mut DirEntListBuilder<'_>, entries: &[Dirent]) -> Option<u64>
    ensures added { AddsFront builder.old.end (listed_by builder.old.entries.now)
        (listed_by builder.new.entries.now) (each dirent_of entries.now) result }
    ensures end { builder.new.end ≡ builder.old.end }
    ensures same_reference { builder.new.entries.ghost_name ≡ builder.old.entries.ghost_name }
{
    let mut cookie = 0;
    for entry in entries {
        let kind = file_type(entry.ty);
        let name = entry.name.as_bytes();
        if builder.add(INodeNo(entry.qid.path), entry.offset, kind, name) {
            return None;
        }
        cookie = entry.offset;
    }
    Some(cookie)
}

impl Gate {
    // Adds the entries of a fid's directory above a cookie, message by message: until nothing
    // comes, or an entry has no room. After an error some were added.
    fn list_pages<N: Nine>(
        &mut self,
        nine: &mut N,
        fid: u32,
        offset: u64,
        builder: &mut DirEntListBuilder<'_>,
    ) -> Result<(), FsFail>
        requires stands { IsInStep self.old (N.at nine.old).state }
        requires opened { ListsDirectory (N.at nine.old).state fid
            (directory_at (N.at nine.old).state fid) }
        ensures served { IfOk (bytes_told (rest_of (listed_by builder.old.entries.now)
            (listed_by builder.new.entries.now)) result)
            (λ reply. ServesListing fid offset (room_of builder.old)
            (self.old, N.at nine.old) (self.new, N.at nine.new) reply) }
        ensures added { AddsListed builder.old.entries.now builder.new.entries.now }
        ensures same_reference { builder.new.entries.ghost_name ≡ builder.old.entries.ghost_name }
        ensures front { OnErr result (IsFrontOf (rest_of (listed_by builder.old.entries.now)
            (listed_by builder.new.entries.now))
            (listing_of (N.at nine.old).state fid offset (room_of builder.old))) }
        ensures unfinished { OnErr (bytes_told [] result)
            (SameTree (N.at nine.old) (N.at nine.new)) }
        ensures kept { Keeps (N.at nine.old) (N.at nine.new) }
    {
        let piece = nine.msize().min(GREATEST_MSIZE) - RREAD_HEADER_SIZE;
        let mut cookie = offset;
        'pages: loop {
            let told = read_entries(self.alloc, nine, fid, cookie, piece)?;
            self.count_message();
            let entries = match told {
                Ok(entries) => entries,
                Err(errno) => return Err(FsFail::Errno(Errno(errno))),
            };
            if entries.is_empty() {
                return Ok(());
            }
            match add_entries(builder, &entries) {
                Some(next) => cookie = next,
                None => return Ok(()),
            }
        }
    }

    // Adds what is listed of a handle's directory. After an error some of it was added.
    pub(super) fn readdir<N: Nine>(
        &mut self,
        nine: &mut N,
        handle: u64,
        offset: u64,
        builder: &mut DirEntListBuilder<'_>,
    ) -> Result<(), FsFail>
        requires { IsInStep self.old (N.at nine.old).state }
        ensures served { (size : ℕ) → room_of builder.old ≡ min size MAX_READ →
            IfOk (bytes_told (rest_of (listed_by builder.old.entries.now)
            (listed_by builder.new.entries.now)) result)
            (λ reply. ServesRequest 0 (readdir handle offset size 0 None)
            (self.old, N.at nine.old) (self.new, N.at nine.new) reply) }
        ensures added { AddsListed builder.old.entries.now builder.new.entries.now }
        ensures same_reference { builder.new.entries.ghost_name ≡ builder.old.entries.ghost_name }
        ensures front { OnErr result (IsFrontOf (rest_of (listed_by builder.old.entries.now)
            (listed_by builder.new.entries.now))
            (listing_of (N.at nine.old).state handle offset (room_of builder.old))) }
        ensures unfinished { OnErr (bytes_told [] result)
            (SameTree (N.at nine.old) (N.at nine.new)) }
        ensures kept { Keeps (N.at nine.old) (N.at nine.new) }
    {
        let Some(found) = self.handles.get(handle).copied() else {
            return Err(FsFail::Errno(Errno(EBADF)));
        };
        if found.kind != QTDIR {
            return Err(FsFail::Errno(Errno(ENOTDIR)));
        }
        self.list_pages(nine, handle as u32, offset, builder)
    }
}
