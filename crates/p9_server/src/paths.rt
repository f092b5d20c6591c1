//! Walks over the tree of a host, and the holds that they take.
ghost use Rattle.std.specs.Prelude.{◌≡◌, ◌+◌, ◌-◌, ◌^◌, ◌<◌, ◌≤◌, ◌∷◌, ◌++◌, ℕ, [], map, length};
ghost use Rattle.std.specs.Prelude.{vec_capacity, Ok, true, false, IfOk, OnOk, OnErr};
ghost use Rattle.port_base.specs.Paths.{is_rooted_path};
ghost use Rattle.tree_model.specs.Sound.{IsKept};
ghost use Rattle.tree_model.specs.Finding.{root_of, path_names};
ghost use Rattle.tree_model.specs.Attributes.{stat_of};
ghost use Rattle.tree_host.specs.Holds.{hold_count, is_held, held_less};
ghost use Rattle.fid_model.specs.Answers.{step_to};
ghost use Rattle.p9_server.specs.Holding.{IsMore, IsSame};
ghost use Rattle.std.specs.List.{AllByRecursion};
ghost use Rattle.p9_wire.specs.Values.{QidSpells};
ghost use Rattle.p9_wire.specs.Qids.{qid_of as qid_plain};
ghost use Rattle.p9_server.specs.Walking.{Counts, Finds, Walks, own_hold};

use crate::lookup::find;
use crate::qids::qid_of;
use crate::share::Share;
use p9_wire::qid::Qid;
use p9_wire::text::P9String;
use port_base::names::name_fault;
use tree_host::Host;
use tree_model::{Attr, HostError};

/// What is told of an inode whose hold was taken; where nothing is told, the hold goes again.
pub fn told_of<H: Host>(host: &mut H, ino: u64) -> Result<Attr, HostError>
    requires { 0 < hold_count (H.holds host.old) ino }
    ensures told { IfOk result (λ a. stat_of (H.tree host.old) ino ≡ Ok a) }
    ensures held { OnOk result (H.holds host.new ≡ H.holds host.old) }
    ensures tree { OnOk result (H.tree host.new ≡ H.tree host.old) }
    ensures error { OnErr result (result ≡ Err HostError.Fault) }
    ensures released { OnErr result (H.holds host.new ≡ held_less (H.holds host.old) ino) }
    ensures kept { OnErr result (IsKept (H.tree host.old).records (is_held (H.holds host.new))
        → H.tree host.new ≡ H.tree host.old) }
    ensures cause { Counts (H.calls host.old) (H.calls host.new) result }
    ensures steady { (H.calls host.new).steady ≡ (H.calls host.old).steady }
{
    match host.stat(ino) {
        Ok(attr) => Ok(attr),
        Err(e) => {
            host.release(ino);
            Err(e)
        }
    }
}

/// The directory at the end of a rooted path, which gets a hold.
pub fn attach_path<H: Host>(host: &mut H, path: &[u8]) -> Result<Attr, HostError>
    requires rooted { is_rooted_path path.now ≡ true }
    requires room { (i : ℕ) → hold_count (H.holds host.old) i < 2 ^ 64 - 1 }
    ensures answer { Finds (H.tree host.old) (root_of (H.tree host.old) (path_names path.now))
        result }
    ensures tree { H.tree host.new ≡ H.tree host.old }
    ensures held { IfOk result (λ a. IsMore (H.holds host.old) (H.holds host.new) a.ino) }
    ensures refused { OnErr result (IsSame (H.holds host.old) (H.holds host.new)) }
    ensures cause { Counts (H.calls host.old) (H.calls host.new) result }
    ensures steady { (H.calls host.new).steady ≡ (H.calls host.old).steady }
{
    let ino = host.attach_path(path)?;
    told_of(host, ino)
}

// The inode that a name of a directory names, which gets a hold. A name with a fault isn't looked
// up.
fn step_to<H: Host>(host: &mut H, share: &Share, dir: u64, name: &[u8]) -> Result<Attr, HostError>
    requires held { 0 < hold_count (H.holds host.old) dir }
    requires room { (i : ℕ) → hold_count (H.holds host.old) i < 2 ^ 64 - 1 }
    ensures answer { Finds (H.tree host.old)
        (step_to share.now.casefold (H.tree host.old) dir name.now) result }
    ensures tree { H.tree host.new ≡ H.tree host.old }
    ensures held { IfOk result (λ a. IsMore (H.holds host.old) (H.holds host.new) a.ino) }
    ensures refused { OnErr result (IsSame (H.holds host.old) (H.holds host.new)) }
    ensures cause { Counts (H.calls host.old) (H.calls host.new) result }
    ensures steady { (H.calls host.new).steady ≡ (H.calls host.old).steady }
{
    if let Some(fault) = name_fault(name) {
        return Err(HostError::Errno(fault));
    }
    let ino = find(host, share, dir, name)?;
    told_of(host, ino)
}

// Lets the hold go that a walk of so many names took of the inode where it stands.
fn let_go<H: Host>(host: &mut H, walked: usize, at: u64)
    requires { 0 < hold_count (H.holds host.old) at }
    ensures released { (i : ℕ) → hold_count (H.holds host.new) i + own_hold walked at i
        ≡ hold_count (H.holds host.old) i }
    ensures kept { IsKept (H.tree host.old).records (is_held (H.holds host.new)) → H.tree host.new
        ≡ H.tree host.old }
    ensures calls { H.calls host.new ≡ H.calls host.old }
{
    if walked != 0 {
        host.release(at);
    }
}

// Adds a qid, for which there is room.
fn push_qid(qids: &mut Vec<Qid>, qid: Qid)
    requires room { length qids.old.items < vec_capacity qids.old }
    requires spells { AllByRecursion QidSpells (map qid_plain qids.old.items) }
    ensures items { map qid_plain qids.new.items ≡ map qid_plain qids.old.items ++ qid_plain qid
        ∷ [] }
    ensures spells { AllByRecursion QidSpells (map qid_plain qids.new.items) }
    ensures capacity { vec_capacity qids.old ≤ vec_capacity qids.new }
{
    match qids.push(qid) {
        Ok(()) => {}
        Err(_) => unreachable!(),
    }
}

// Walks from a directory, name by name, and adds the qids that it finds. The last inode gets a
// hold, if there is a name; after an error none is left.
fn walk<H: Host>(
    host: &mut H,
    share: &Share,
    start: u64,
    names: &[P9String],
    qids: &mut Vec<Qid>,
) -> Result<u64, HostError>
    requires held { 0 < hold_count (H.holds host.old) start }
    requires room { (i : ℕ) → hold_count (H.holds host.old) i + 1 < 2 ^ 64 - 1 }
    requires empty { qids.old.items ≡ [] }
    requires capacity { length names.now ≤ vec_capacity qids.old }
    ensures answer { Walks share.now.casefold (H.tree host.old) names.now start
        (map qid_plain qids.new.items) result }
    ensures count { length qids.new.items ≤ length names.now }
    ensures spells { AllByRecursion QidSpells (map qid_plain qids.new.items) }
    ensures tree { H.tree host.new ≡ H.tree host.old }
    ensures held { IfOk result (λ at. (i : ℕ) → hold_count (H.holds host.new) i
        ≡ hold_count (H.holds host.old) i + own_hold (length names.now) at i) }
    ensures refused { OnErr result (IsSame (H.holds host.old) (H.holds host.new)) }
    ensures cause { Counts (H.calls host.old) (H.calls host.new) result }
    ensures steady { (H.calls host.new).steady ≡ (H.calls host.old).steady }
{
    let mut at = start;
    for (walked, name) in names.iter().enumerate() {
        match step_to(host, share, at, name.as_bytes()) {
            Ok(attr) => {
                let_go(host, walked, at);
                push_qid(qids, qid_of(&attr));
                at = attr.ino;
            }
            Err(e) => {
                let_go(host, walked, at);
                return Err(e);
            }
        }
    }
    Ok(at)
}

/// Walks from an inode, name by name, and adds the qids that it finds. Where it ends gets a hold;
/// after an error none is left.
pub fn reach<H: Host>(
    host: &mut H,
    share: &Share,
    start: u64,
    names: &[P9String],
    qids: &mut Vec<Qid>,
) -> Result<u64, HostError>
    requires held { 0 < hold_count (H.holds host.old) start }
    requires room { (i : ℕ) → hold_count (H.holds host.old) i + 1 < 2 ^ 64 - 1 }
    requires empty { qids.old.items ≡ [] }
    requires capacity { length names.now ≤ vec_capacity qids.old }
    ensures answer { Walks share.now.casefold (H.tree host.old) names.now start
        (map qid_plain qids.new.items) result }
    ensures count { length qids.new.items ≤ length names.now }
    ensures spells { AllByRecursion QidSpells (map qid_plain qids.new.items) }
    ensures tree { H.tree host.new ≡ H.tree host.old }
    ensures held { IfOk result (λ at. IsMore (H.holds host.old) (H.holds host.new) at) }
    ensures refused { OnErr result (IsSame (H.holds host.old) (H.holds host.new)) }
    ensures cause { Counts (H.calls host.old) (H.calls host.new) result }
    ensures steady { (H.calls host.new).steady ≡ (H.calls host.old).steady }
{
    if !names.is_empty() {
        return walk(host, share, start, names, qids);
    }
    host.hold_again(start)?;
    Ok(start)
}
