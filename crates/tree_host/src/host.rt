//! What serves a tree of files.
ghost use Rattle.std.specs.Prelude.{◌≡◌, ◌≢◌, ◌-◌, ◌^◌, ◌<◌, ℕ, Bool, true, Option, length, IfOk};
ghost use Rattle.std.specs.Prelude.{IfErr, OnErr, None, Ok, Err};
ghost use Rattle.port_base.specs.Names.{name_fault};
ghost use Rattle.port_base.specs.Paths.{is_rooted_path};
ghost use Rattle.tree_model.specs.Tree.{Tree, keep};
ghost use Rattle.tree_model.specs.Good.{IsGoodTree};
ghost use Rattle.tree_model.specs.Finding.{root_of, path_names, lookup_of};
ghost use Rattle.std.specs.Result.{result_map_both};
ghost use Rattle.tree_model.specs.Attributes.{stat_of, statfs_of};
ghost use Rattle.tree_model.specs.Attributing.{touch_ctime_of, set_mode_of, set_owner_of};
ghost use Rattle.tree_model.specs.Attributing.{set_times_of, set_len_of, write_of};
ghost use Rattle.tree_model.specs.Reading.{entry_after_of};
ghost use Rattle.tree_model.specs.Creating.{create_of, mkdir_of, link_of};
ghost use Rattle.tree_model.specs.Unlinking.{unlink_of, rmdir_of};
ghost use Rattle.tree_model.specs.Renaming.{rename_of};
ghost use Rattle.tree_model.specs.Opening.{open_check_of, read_of, readlink_of};
ghost use Rattle.tree_host.specs.Holds.{Holds, hold_count, is_held, held_more, held_less};
ghost use Rattle.tree_host.specs.Calls.{Calls, Caused};
ghost use Rattle.tree_host.specs.Host.{IsHeldIn, Answers, Leaves, Reads};

use crate::entry::Entry;
use tree_model::{Attr, HostError, Statfs, TimeSet};

/// A tree of files, however it is kept. Callers name inodes by number, and hold each that they go
/// on to name: a record stays as long as an entry or a hold names it. After an error the tree and
/// the holds are as they were. `Fault` comes only where the count of faults rose, and never where
/// the host is steady. A host may tell a script: then the calls that it lists fault, and no other.
pub trait Host {
    /// The tree.
    ghost tree: { Self → Tree };

    /// How often each inode is held.
    ghost holds: { Self → Holds };

    /// How many faults were counted, whether no call faults, and, where it is told, which calls do.
    ghost calls: { Self → Calls };

    /// The directory at the end of a rooted path, which gets a hold. ENOTDIR where the record so
    /// far, or the last, is no directory; ENOENT where it has no such entry.
    fn attach_path(&mut self, path: &[u8]) -> Result<u64, HostError>
        requires rooted { is_rooted_path path.now ≡ true }
        requires room { (i : ℕ) → hold_count (holds self.old) i < 2 ^ 64 - 1 }
        ensures answer { Answers (root_of (tree self.old) (path_names path.now)) result }
        ensures tree { tree self.new ≡ tree self.old }
        ensures held { IfOk result (λ ino. holds self.new ≡ held_more (holds self.old) ino) }
        ensures refused { OnErr result (holds self.new ≡ holds self.old) }
        ensures caused { Caused (calls self.old) (calls self.new) result };

    /// The inode that a name of a directory names, which gets a hold. ENOTDIR for what is no
    /// directory, ENOENT where no entry has the name.
    fn lookup(&mut self, dir: u64, name: &[u8]) -> Result<u64, HostError>
        requires held { 0 < hold_count (holds self.old) dir }
        requires named { name_fault name.now ≡ None }
        requires room { (i : ℕ) → hold_count (holds self.old) i < 2 ^ 64 - 1 }
        ensures answer { Answers (lookup_of (tree self.old) dir name.now) result }
        ensures tree { tree self.new ≡ tree self.old }
        ensures held { IfOk result (λ ino. holds self.new ≡ held_more (holds self.old) ino) }
        ensures refused { OnErr result (holds self.new ≡ holds self.old) }
        ensures caused { Caused (calls self.old) (calls self.new) result };

    /// One more hold of an inode that is held. It takes no memory, and its only error is `Fault`.
    fn hold_again(&mut self, ino: u64) -> Result<(), HostError>
        requires held { 0 < hold_count (holds self.old) ino }
        requires room { hold_count (holds self.old) ino < 2 ^ 64 - 1 }
        ensures tree { tree self.new ≡ tree self.old }
        ensures held { IfOk result (λ _. holds self.new ≡ held_more (holds self.old) ino) }
        ensures refused { OnErr result (holds self.new ≡ holds self.old) }
        ensures fault { IfErr result (λ e. e ≡ HostError.Fault) }
        ensures caused { Caused (calls self.old) (calls self.new) result };

    /// Takes a hold away. A record that no entry and no hold names is gone then. It takes no
    /// memory.
    fn release(&mut self, ino: u64)
        requires { 0 < hold_count (holds self.old) ino }
        ensures holds { holds self.new ≡ held_less (holds self.old) ino }
        ensures tree { tree self.new ≡ keep (is_held (holds self.new)) (tree self.old) }
        ensures calls { calls self.new ≡ calls self.old };

    /// What is told of an inode. It takes no memory.
    fn stat(&mut self, ino: u64) -> Result<Attr, HostError>
        requires { 0 < hold_count (holds self.old) ino }
        ensures answer { Answers (stat_of (tree self.old) ino) result }
        ensures tree { tree self.new ≡ tree self.old }
        ensures holds { holds self.new ≡ holds self.old }
        ensures memory { result ≢ Err HostError.NoMemory }
        ensures caused { Caused (calls self.old) (calls self.new) result };

    /// Whether an inode may be opened with these flags, which are those of `open(2)`: EINVAL for
    /// access 3, EEXIST for O_CREAT with O_EXCL, ELOOP for a link, ENOTDIR for a file with
    /// O_DIRECTORY, EISDIR for a directory that is opened to write, with O_TRUNC or with O_CREAT.
    /// It takes no memory.
    fn open_check(&mut self, ino: u64, flags: u32) -> Result<(), HostError>
        requires { 0 < hold_count (holds self.old) ino }
        ensures answer { Answers (open_check_of (tree self.old) ino flags) result }
        ensures tree { tree self.new ≡ tree self.old }
        ensures holds { holds self.new ≡ holds self.old }
        ensures memory { result ≢ Err HostError.NoMemory }
        ensures caused { Caused (calls self.old) (calls self.new) result };

    /// Reads a file's bytes from an offset on, as many as there are and fit, into the front of
    /// `buf`, whose rest stays. EISDIR for a directory, EINVAL for a link. After an error `buf` is
    /// as it was. It takes no memory.
    fn read_at(&mut self, ino: u64, offset: u64, buf: &mut [u8]) -> Result<usize, HostError>
        requires { 0 < hold_count (holds self.old) ino }
        ensures answer { Reads (read_of (tree self.old) ino offset (length buf.old))
            buf.old buf.new result }
        ensures tree { tree self.new ≡ tree self.old }
        ensures holds { holds self.new ≡ holds self.old }
        ensures memory { result ≢ Err HostError.NoMemory }
        ensures caused { Caused (calls self.old) (calls self.new) result };

    /// Writes bytes over those of a file from an offset on, as many as end by the limit of a file,
    /// and tells how many; a gap before them becomes zeros, and mtime and ctime the moment. No
    /// bytes change nothing. EISDIR for a directory, EINVAL for a link, EFBIG where there are
    /// bytes and none ends by the limit.
    fn write_at(&mut self, ino: u64, offset: u64, bytes: &[u8]) -> Result<usize, HostError>
        requires { 0 < hold_count (holds self.old) ino }
        ensures leaves { Leaves (write_of (tree self.old) ino offset bytes.now)
            (tree self.old) (tree self.new) result }
        ensures holds { holds self.new ≡ holds self.old }
        ensures caused { Caused (calls self.old) (calls self.new) result };

    /// Cuts a file to a length, or fills it up with zeros; mtime and ctime become the moment.
    /// EISDIR for a directory, EINVAL for a link, EFBIG above the limit of a file.
    fn set_len(&mut self, ino: u64, len: u64) -> Result<(), HostError>
        requires { 0 < hold_count (holds self.old) ino }
        ensures leaves { Leaves (set_len_of (tree self.old) ino len)
            (tree self.old) (tree self.new) result }
        ensures holds { holds self.new ≡ holds self.old }
        ensures caused { Caused (calls self.old) (calls self.new) result };

    /// Gives an inode the permission bits `mode` modulo 4096; ctime becomes the moment. EOPNOTSUPP
    /// for a link. It takes no memory.
    fn set_mode(&mut self, ino: u64, mode: u32) -> Result<(), HostError>
        requires { 0 < hold_count (holds self.old) ino }
        ensures leaves { Leaves (set_mode_of (tree self.old) ino mode)
            (tree self.old) (tree self.new) result }
        ensures holds { holds self.new ≡ holds self.old }
        ensures memory { result ≢ Err HostError.NoMemory }
        ensures caused { Caused (calls self.old) (calls self.new) result };

    /// Gives an inode the owners that are given; ctime becomes the moment. It takes no memory.
    fn set_owner(&mut self, ino: u64, uid: Option<u32>, gid: Option<u32>) -> Result<(), HostError>
        requires { 0 < hold_count (holds self.old) ino }
        ensures leaves { Leaves (set_owner_of (tree self.old) ino uid gid)
            (tree self.old) (tree self.new) result }
        ensures holds { holds self.new ≡ holds self.old }
        ensures memory { result ≢ Err HostError.NoMemory }
        ensures caused { Caused (calls self.old) (calls self.new) result };

    /// Sets the times of an inode; ctime becomes the moment. EINVAL for a given time whose
    /// nanoseconds are a second or more. It takes no memory.
    fn set_times(&mut self, ino: u64, atime: TimeSet, mtime: TimeSet) -> Result<(), HostError>
        requires { 0 < hold_count (holds self.old) ino }
        ensures leaves { Leaves (set_times_of (tree self.old) ino atime mtime)
            (tree self.old) (tree self.new) result }
        ensures holds { holds self.new ≡ holds self.old }
        ensures memory { result ≢ Err HostError.NoMemory }
        ensures caused { Caused (calls self.old) (calls self.new) result };

    /// An inode's ctime becomes the moment. It takes no memory.
    fn touch_ctime(&mut self, ino: u64) -> Result<(), HostError>
        requires { 0 < hold_count (holds self.old) ino }
        ensures leaves { Leaves (touch_ctime_of (tree self.old) ino)
            (tree self.old) (tree self.new) result }
        ensures holds { holds self.new ≡ holds self.old }
        ensures memory { result ≢ Err HostError.NoMemory }
        ensures caused { Caused (calls self.old) (calls self.new) result };

    /// The first entry of a directory whose cookie is above the given one, if there is one.
    /// ENOTDIR for what is no directory.
    fn entry_after(&mut self, dir: u64, cookie: u64) -> Result<Option<Entry>, HostError>
        requires { 0 < hold_count (holds self.old) dir }
        ensures answer { Answers (entry_after_of (tree self.old) dir cookie) result }
        ensures tree { tree self.new ≡ tree self.old }
        ensures holds { holds self.new ≡ holds self.old }
        ensures caused { Caused (calls self.old) (calls self.new) result };

    /// An empty file of the owners 0 and 0 and the permission bits `mode` modulo 4096, with an
    /// entry for it and a hold; its times, and the directory's mtime and ctime, become the moment.
    /// ENOTDIR for what is no directory, ENOENT for a directory that no entry names, EEXIST for a
    /// name that is there, ENOSPC where the directory is full or no number or cookie is left.
    fn create(&mut self, dir: u64, name: &[u8], mode: u32) -> Result<u64, HostError>
        requires held { 0 < hold_count (holds self.old) dir }
        requires named { name_fault name.now ≡ None }
        ensures leaves { Leaves (create_of (tree self.old) dir name.now mode)
            (tree self.old) (tree self.new) result }
        ensures held { IfOk result (λ ino. holds self.new ≡ held_more (holds self.old) ino) }
        ensures refused { OnErr result (holds self.new ≡ holds self.old) }
        ensures caused { Caused (calls self.old) (calls self.new) result };

    /// An empty directory of the owners 0 and 0 and the permission bits `mode` modulo 4096, with
    /// an entry for it, and what is told of it; its times, and the mtime and ctime of the
    /// directory above, become the moment. The refusals are those of `create`.
    fn mkdir(&mut self, dir: u64, name: &[u8], mode: u32) -> Result<Attr, HostError>
        requires held { 0 < hold_count (holds self.old) dir }
        requires named { name_fault name.now ≡ None }
        ensures leaves { Leaves (mkdir_of (tree self.old) dir name.now mode)
            (tree self.old) (tree self.new) result }
        ensures holds { holds self.new ≡ holds self.old }
        ensures caused { Caused (calls self.old) (calls self.new) result };

    /// One more name of a file or a link, whose ctime, with the directory's mtime and ctime,
    /// becomes the moment. ENOTDIR for what is no directory, EPERM for the name of a directory,
    /// ENOENT where the directory or the inode has no link, EEXIST for a name that is there,
    /// EMLINK where there are as many links as there may be, ENOSPC where the directory is full or
    /// no cookie is left.
    fn link(&mut self, ino: u64, dir: u64, name: &[u8]) -> Result<(), HostError>
        requires held { 0 < hold_count (holds self.old) ino }
        requires above { 0 < hold_count (holds self.old) dir }
        requires named { name_fault name.now ≡ None }
        ensures leaves { Leaves (link_of (tree self.old) ino dir name.now)
            (tree self.old) (tree self.new) result }
        ensures holds { holds self.new ≡ holds self.old }
        ensures caused { Caused (calls self.old) (calls self.new) result };

    /// Takes the entry of a name away; what it names has a link less, its ctime becomes the
    /// moment, and so do the directory's mtime and ctime. What no entry and no hold names is gone
    /// then. ENOTDIR for what is no directory, ENOENT where no entry has the name, EISDIR where it
    /// names a directory. It takes no memory.
    fn unlink(&mut self, dir: u64, name: &[u8]) -> Result<(), HostError>
        requires held { 0 < hold_count (holds self.old) dir }
        requires named { name_fault name.now ≡ None }
        ensures leaves { Leaves (unlink_of (is_held (holds self.old)) (tree self.old) dir name.now)
            (tree self.old) (tree self.new) result }
        ensures holds { holds self.new ≡ holds self.old }
        ensures memory { result ≢ Err HostError.NoMemory }
        ensures caused { Caused (calls self.old) (calls self.new) result };

    /// Takes the entry of an empty directory away, which has no links then; its ctime becomes the
    /// moment, and so do the mtime and ctime of the directory above. What no entry and no hold
    /// names is gone then. ENOTDIR for what is no directory, ENOENT where no entry has the name,
    /// ENOTDIR where it names no directory, ENOTEMPTY where that has entries. It takes no memory.
    fn rmdir(&mut self, dir: u64, name: &[u8]) -> Result<(), HostError>
        requires held { 0 < hold_count (holds self.old) dir }
        requires named { name_fault name.now ≡ None }
        ensures leaves { Leaves (rmdir_of (is_held (holds self.old)) (tree self.old) dir name.now)
            (tree self.old) (tree self.new) result }
        ensures holds { holds self.new ≡ holds self.old }
        ensures memory { result ≢ Err HostError.NoMemory }
        ensures caused { Caused (calls self.old) (calls self.new) result };

    /// Moves an entry to a new name, which gets the next cookie of its directory; what had that
    /// name goes. What is moved and what is replaced get the moment as ctime, both directories as
    /// mtime and ctime. Nothing changes where both names name one inode. ENOTDIR where either
    /// directory is none; ENOENT where no entry has the old name, or no entry names the new
    /// directory; EINVAL for a directory into itself or below; ENOTDIR for a directory onto what
    /// is none; EISDIR for what is no directory onto one; ENOTEMPTY onto one with entries; ENOSPC
    /// where the new directory is full and gets an entry more, or no cookie is left.
    fn rename(
        &mut self,
        olddir: u64,
        oldname: &[u8],
        newdir: u64,
        newname: &[u8],
    ) -> Result<(), HostError>
        requires from { 0 < hold_count (holds self.old) olddir }
        requires to { 0 < hold_count (holds self.old) newdir }
        requires old { name_fault oldname.now ≡ None }
        requires new { name_fault newname.now ≡ None }
        ensures leaves { Leaves
            (rename_of (is_held (holds self.old)) (tree self.old)
            olddir oldname.now newdir newname.now)
            (tree self.old) (tree self.new) result }
        ensures holds { holds self.new ≡ holds self.old }
        ensures caused { Caused (calls self.old) (calls self.new) result };

    /// The target of a link. EINVAL for what is no link.
    fn readlink(&mut self, ino: u64) -> Result<Vec<u8>, HostError>
        requires { 0 < hold_count (holds self.old) ino }
        ensures answer { Answers (readlink_of (tree self.old) ino)
            (result_map_both (λ target. target.items) (λ e. e) result) }
        ensures tree { tree self.new ≡ tree self.old }
        ensures holds { holds self.new ≡ holds self.old }
        ensures caused { Caused (calls self.old) (calls self.new) result };

    /// How much a file and a directory may have. It takes no memory.
    fn statfs(&mut self, ino: u64) -> Result<Statfs, HostError>
        requires { 0 < hold_count (holds self.old) ino }
        ensures answer { Answers (Ok (statfs_of (tree self.old))) result }
        ensures tree { tree self.new ≡ tree self.old }
        ensures holds { holds self.new ≡ holds self.old }
        ensures memory { result ≢ Err HostError.NoMemory }
        ensures caused { Caused (calls self.old) (calls self.new) result };

    /// What was written is kept. It takes no memory, and its only error is `Fault`.
    fn sync(&mut self, ino: u64) -> Result<(), HostError>
        requires { 0 < hold_count (holds self.old) ino }
        ensures answer { Answers (Ok tt) result }
        ensures tree { tree self.new ≡ tree self.old }
        ensures holds { holds self.new ≡ holds self.old }
        ensures memory { result ≢ Err HostError.NoMemory }
        ensures caused { Caused (calls self.old) (calls self.new) result };

    /// The tree is good at every moment.
    ghost good: { (h : Self) → IsGoodTree (tree h) };

    /// What is stored is what an entry or a hold names.
    ghost stored: { (h : Self) → IsHeldIn (tree h) (holds h) };
}
