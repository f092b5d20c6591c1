//! Looks names up, by their exact bytes or without regard to the case of ASCII letters.
ghost use Rattle.std.specs.Prelude.{◌≡◌, ◌-◌, ◌^◌, ◌<◌, ℕ, true, None, Err, IfOk, OnErr};
ghost use Rattle.std.specs.Result.{result_map_both};
ghost use Rattle.port_base.specs.Names.{name_fault};
ghost use Rattle.port_base.specs.declared.errno.TheConstants.{ENOENT};
ghost use Rattle.tree_model.specs.Finding.{find, lookup_of, folded_name_of};
ghost use Rattle.tree_host.specs.Holds.{hold_count, held_more};
ghost use Rattle.tree_host.specs.Host.{Answers};
ghost use Rattle.p9_server.specs.Walking.{Counts};

use crate::share::Share;
use port_base::errno::ENOENT;
use tree_host::Host;
use tree_model::HostError;

// The first name of a directory, in the order of cookies, that is the same but for the case of
// ASCII letters, as the directory has it.
fn folded_name<H: Host>(host: &mut H, dir: u64, name: &[u8]) -> Result<Vec<u8>, HostError>
    requires { 0 < hold_count (H.holds host.old) dir }
    ensures answer { Answers (folded_name_of (H.tree host.old) dir name.now)
        (result_map_both (λ found. found.items) (λ e. e) result) }
    ensures named { IfOk result (λ found. name_fault found.items ≡ None) }
    ensures tree { H.tree host.new ≡ H.tree host.old }
    ensures holds { H.holds host.new ≡ H.holds host.old }
    ensures cause { Counts (H.calls host.old) (H.calls host.new) result }
    ensures steady { (H.calls host.new).steady ≡ (H.calls host.old).steady }
{
    let mut cookie = 0;
    while let Some(entry) = host.entry_after(dir, cookie)? {
        if entry.name.eq_ignore_ascii_case(name) {
            return Ok(entry.name);
        }
        cookie = entry.cookie;
    }
    Err(HostError::Errno(ENOENT))
}

// The inode of the first name that is the same but for case, where the exact one isn't there.
fn find_folded<H: Host>(host: &mut H, dir: u64, name: &[u8]) -> Result<u64, HostError>
    requires held { 0 < hold_count (H.holds host.old) dir }
    requires missing { lookup_of (H.tree host.old) dir name.now ≡ Err ENOENT }
    requires room { (i : ℕ) → hold_count (H.holds host.old) i < 2 ^ 64 - 1 }
    ensures answer { Answers (find true (H.tree host.old) dir name.now) result }
    ensures tree { H.tree host.new ≡ H.tree host.old }
    ensures held { IfOk result (λ ino. H.holds host.new ≡ held_more (H.holds host.old) ino) }
    ensures refused { OnErr result (H.holds host.new ≡ H.holds host.old) }
    ensures cause { Counts (H.calls host.old) (H.calls host.new) result }
    ensures steady { (H.calls host.new).steady ≡ (H.calls host.old).steady }
{
    let found = folded_name(host, dir, name)?;
    host.lookup(dir, &found)
}

/// The inode that a name of a directory names, which gets a hold: by the exact name, and where that
/// is missing and the share folds case, by the first that is the same but for it.
pub fn find<H: Host>(host: &mut H, share: &Share, dir: u64, name: &[u8]) -> Result<u64, HostError>
    requires held { 0 < hold_count (H.holds host.old) dir }
    requires named { name_fault name.now ≡ None }
    requires room { (i : ℕ) → hold_count (H.holds host.old) i < 2 ^ 64 - 1 }
    ensures answer { Answers (find share.now.casefold (H.tree host.old) dir name.now) result }
    ensures tree { H.tree host.new ≡ H.tree host.old }
    ensures held { IfOk result (λ ino. H.holds host.new ≡ held_more (H.holds host.old) ino) }
    ensures refused { OnErr result (H.holds host.new ≡ H.holds host.old) }
    ensures cause { Counts (H.calls host.old) (H.calls host.new) result }
    ensures steady { (H.calls host.new).steady ≡ (H.calls host.old).steady }
{
    match host.lookup(dir, name) {
        Ok(ino) => Ok(ino),
        Err(e) => {
            if e == HostError::Errno(ENOENT) && share.folds_case() {
                return find_folded(host, dir, name);
            }
            Err(e)
        }
    }
}
