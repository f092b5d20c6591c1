//! What the words of the command line say.
ghost use Rattle.std.specs.Prelude.{◌≡◌, drop, bytes_eq, codes, ◌&&◌, option_map, option_and_then};
ghost use Rattle.std.specs.Prelude.{Option};
ghost use Rattle.mount9_run.specs.Command.{once, text_in_form, number_in, with_word, with_words};
ghost use Rattle.mount9_run.specs.Command.{no_words, finished, is_serve, command, owner_of};
ghost use Rattle.mount9_run.specs.Command.{owners_of, with_owner};
ghost use Rattle.mount9_run.specs.CommandViews.{slot_view, ids_view, draft_view, share_view};
ghost use Rattle.mount9_run.specs.CommandViews.{serve_view, GivesWords};
ghost use Rattle.mount9_run.specs.Paths.{is_path, is_root};
ghost use Rattle.p9_server.specs.ConfigTexts.{boolean_of};

use crate::header::numbers::number_in;
use crate::path::{is_path, is_root};
use crate::text::split_once;
use p9_server::{ServerGidMap, ServerIdMap, ServerUidMap, boolean_of};
use port_base::words::Words;
use std::alloc::Global;
use std::collections::BTreeMap;
use std::error::Error;
use std::fmt;

/// The greatest size of a 9P message, in bytes, where the words don't tell it.
pub const MSIZE: u32 = 65560;

/// How many frames a run handles at most, where the words don't tell it.
pub const TURNS: u32 = 4096;

/// How many node ids and handles there are at most, where the words don't tell it.
pub const FID_LIMIT: u32 = 1024;

/// What is to be served, and how.
#[derive(Debug, Drop)]
pub struct ShareWords {
    /// The path to mount on.
    pub target: Vec<u8>,
    /// The path of the directory that is shared.
    pub root: Vec<u8>,
    /// The greatest size of a 9P message, in bytes.
    pub msize: u32,
    /// How many frames are handled at most.
    pub turns: u32,
    /// How many node ids and handles there are at most.
    pub ids: u32,
    /// The users that are shown for users of the tree; one without a pair stays.
    pub uid_map: ServerUidMap,
    /// The groups that are shown for groups of the tree; one without a pair stays.
    pub gid_map: ServerGidMap,
    /// Whether a name that differs in the case of ASCII letters alone is found.
    pub casefold: bool,
}

/// What the words command.
#[derive(Debug, Drop)]
pub enum Command {
    Serve(ShareWords),
}

impl Command {
    /// What is to be served, and how.
    pub fn share(&self) -> &ShareWords
        ensures { share_view result.now ≡ serve_view self.now }
    {
        match self {
            Command::Serve(share) => share,
        }
    }
}

/// Why words are refused.
#[derive(Clone, Copy, Debug, PartialEq, Eq)]
pub enum WordsError {
    /// They command nothing.
    Words,
    /// There was no memory.
    NoMemory,
}

impl fmt::Display for WordsError {
    fn fmt<W: fmt::Write>(&self, f: &mut fmt::Formatter<W>) -> fmt::Result {
        match self {
            WordsError::Words => write!(f, "the words command nothing; try `--help`"),
            WordsError::NoMemory => write!(f, "out of memory at the words"),
        }
    }
}

impl Error for WordsError {}

// What the words so far say.
#[derive(Drop)]
struct DraftWords {
    target: Option<Vec<u8>>,
    root: Option<Vec<u8>>,
    msize: Option<u32>,
    turns: Option<u32>,
    ids: Option<u32>,
    uid_map: ServerUidMap,
    gid_map: ServerGidMap,
    casefold: Option<bool>,
}

// A target, if it is in form.
fn target_in_form(value: &[u8]) -> Option<&[u8]>
    ensures { option_map (λ text. text.now) result ≡ text_in_form is_path value.now }
{
    if is_path(value) { Some(value) } else { None }
}

// A root, if it is in form.
fn root_in_form(value: &[u8]) -> Option<&[u8]>
    ensures { option_map (λ text. text.now) result ≡ text_in_form is_root value.now }
{
    if is_root(value) { Some(value) } else { None }
}

// Takes the value of a key that comes for the first time, if there is one.
fn take_text(
    alloc: Global,
    slot: &mut Option<Vec<u8>>,
    value: Option<&[u8]>,
) -> Result<(), WordsError>
    ensures { GivesWords (λ _. slot_view slot.new) result
        (once (slot_view slot.old) (option_map (λ text. text.now) value.entry)) }
{
    if slot.is_some() {
        return Err(WordsError::Words);
    }
    let Some(value) = value else {
        return Err(WordsError::Words);
    };
    let Ok(value) = Vec::from_slice(alloc, value) else {
        return Err(WordsError::NoMemory);
    };
    *slot = Some(value);
    Ok(())
}

// Takes the number of a key that comes for the first time, if it is from `low` to `high`.
fn take_number(slot: &mut Option<u32>, low: u32, high: u32, value: &[u8]) -> Result<(), WordsError>
    ensures { GivesWords (λ _. slot.new) result (once slot.old (number_in low high value.now)) }
{
    if slot.is_some() {
        return Err(WordsError::Words);
    }
    match number_in(low as u64, high as u64, value) {
        Some(n) => {
            *slot = Some(n as u32);
            Ok(())
        }
        None => Err(WordsError::Words),
    }
}

// Takes the value of a key that comes for the first time, if it is `true` or `false`.
fn take_boolean(slot: &mut Option<bool>, value: &[u8]) -> Result<(), WordsError>
    ensures { GivesWords (λ _. slot.new) result (once slot.old (boolean_of value.now)) }
{
    if slot.is_some() {
        return Err(WordsError::Words);
    }
    match boolean_of(value) {
        Some(b) => {
            *slot = Some(b);
            Ok(())
        }
        None => Err(WordsError::Words),
    }
}

// The number of an owner.
fn owner_of(text: &[u8]) -> Option<u32>
    ensures { result ≡ owner_of text.now }
{
    match number_in(0, u32::MAX as u64, text) {
        Some(id) => Some(id as u32),
        None => None,
    }
}

// An owner, and the one that is shown for it.
#[tactic(auto, unfolding(crate::specs::Command::owners_of))]
fn owners_of(value: &[u8]) -> Option<(u32, u32)>
    ensures { result ≡ owners_of value.now }
{
    let (id, shown) = split_once(value, b':')?;
    Some((owner_of(id)?, owner_of(shown)?))
}

// Takes an owner that comes for the first time, and the one that is shown for it.
fn take_owners(ids: &mut ServerIdMap<u32>, value: &[u8]) -> Result<(), WordsError>
    ensures { GivesWords (λ _. ids_view ids.new) result
        (with_owner (ids_view ids.old) (owners_of value.now)) }
{
    let Some((id, shown)) = owners_of(value) else {
        return Err(WordsError::Words);
    };
    if ids.contains_key(&id) {
        return Err(WordsError::Words);
    }
    match ids.insert(id, shown) {
        Ok(_) => Ok(()),
        Err(_) => Err(WordsError::NoMemory),
    }
}

#[tactic(auto, unfolding(crate::specs::Command::with_word))]
fn take_word(alloc: Global, draft: &mut DraftWords, word: &[u8]) -> Result<(), WordsError>
    ensures { GivesWords (λ _. draft_view draft.new) result
        (with_word (draft_view draft.old) word.now) }
{
    let Some((key, value)) = split_once(word, b'=') else {
        return Err(WordsError::Words);
    };
    if key == b"target".as_slice() {
        take_text(alloc, &mut draft.target, target_in_form(value))
    } else if key == b"root".as_slice() {
        take_text(alloc, &mut draft.root, root_in_form(value))
    } else if key == b"msize".as_slice() {
        take_number(&mut draft.msize, 256, 65560, value)
    } else if key == b"turns".as_slice() {
        take_number(&mut draft.turns, 1, 8192, value)
    } else if key == b"ids".as_slice() {
        take_number(&mut draft.ids, 0, 1000000, value)
    } else if key == b"uid".as_slice() {
        take_owners(&mut draft.uid_map, value)
    } else if key == b"gid".as_slice() {
        take_owners(&mut draft.gid_map, value)
    } else if key == b"casefold".as_slice() {
        take_boolean(&mut draft.casefold, value)
    } else {
        Err(WordsError::Words)
    }
}

// What the words after the first say.
fn read_keys(alloc: Global, words: &Words) -> Result<DraftWords, WordsError>
    ensures { GivesWords draft_view result (with_words no_words (drop 1 words.now)) }
{
    let mut draft = DraftWords {
        target: None,
        root: None,
        msize: None,
        turns: None,
        ids: None,
        uid_map: BTreeMap::new(alloc),
        gid_map: BTreeMap::new(alloc),
        casefold: None,
    };
    'words: for i in 1..words.len() {
        let Some(word) = words.get(i) else {
            unreachable!()
        };
        take_word(alloc, &mut draft, word)?;
    }
    Ok(draft)
}

fn finish(draft: DraftWords) -> Result<Command, WordsError>
    ensures { GivesWords serve_view result (finished (draft_view draft)) }
{
    let DraftWords {
        target,
        root,
        msize,
        turns,
        ids,
        uid_map,
        gid_map,
        casefold,
    } = draft;
    match target {
        Some(target) => match root {
            Some(root) => Ok(Command::Serve(ShareWords {
                target,
                root,
                msize: msize.unwrap_or(MSIZE),
                turns: turns.unwrap_or(TURNS),
                ids: ids.unwrap_or(FID_LIMIT),
                uid_map,
                gid_map,
                casefold: casefold.unwrap_or(false),
            })),
            None => Err(WordsError::Words),
        },
        None => Err(WordsError::Words),
    }
}

fn is_serve(words: &Words) -> bool
    ensures { result ≡ is_serve words.now }
{
    match words.get(0) {
        Some(first) => first == b"serve".as_slice(),
        None => false,
    }
}

/// What the words command: `serve`, and then in any order `target=PATH`, `root=PATH`, and if
/// wanted `msize=N` (256 to 65560), `turns=N` (1 to 8192), `ids=N` (0 to 1000000) and
/// `casefold=true` or `casefold=false`, each at most once, and `uid=H:C` and `gid=H:C`, where user
/// or group H of the tree is shown as C, at most once for each H.
#[tactic(auto, unfolding(crate::specs::Command::command))]
pub fn read_words(alloc: Global, words: &Words) -> Result<Command, WordsError>
    ensures { GivesWords serve_view result (command words.now) }
{
    if !is_serve(words) {
        return Err(WordsError::Words);
    }
    match read_keys(alloc, words) {
        Ok(draft) => finish(draft),
        Err(e) => Err(e),
    }
}

#[cfg(test)]
mod tests {
    use super::*;
    use std::test::Fail;

    // The words of one line, with a space between each two.
    fn words_of(alloc: Global, line: &str) -> Result<Words, Fail> {
        let mut words = Words::new(alloc);
        for word in line.split_whitespace() {
            words.push(word.as_bytes())?;
        }
        Ok(words)
    }

    #[test]
    fn words_are_read_or_refused(rt: HostRuntime) -> Result<(), Fail> {
        let words = words_of(rt.alloc(), "serve target=/mnt root=/")?;
        let Command::Serve(share) = read_words(rt.alloc(), &words).ok().expect(&rt, "accepted");
        assert_eq!(rt; share.target.as_slice(), b"/mnt".as_slice());
        assert_eq!(rt; share.root.as_slice(), b"/".as_slice());
        assert_eq!(rt; (share.msize, share.turns, share.ids), (65560, 4096, 1024));
        assert_eq!(rt;
            (share.uid_map.len(), share.gid_map.len(), share.casefold),
            (0, 0, false)
        );
        let cases = [
            ("serve root=/ target=/a/b", true),
            ("serve target=/ root=/", true),
            ("serve target=/... root=/", true),
            ("", false),
            ("serve", false),
            ("generate", false),
            ("target=/mnt root=/", false),
            ("serve target=/mnt", false),
            ("serve root=/", false),
            ("serve target=/mnt root=/ root=/", false),
            ("serve target=/mnt target=/mnt root=/", false),
            ("serve target=/mnt root=/a", true),
            ("serve target=/mnt root=/a/b", true),
            ("serve target=/mnt root=a", false),
            ("serve target=/mnt root=//", false),
            ("serve target=/mnt root=/a/", false),
            ("serve target=/mnt root=/a//b", false),
            ("serve target=/mnt root=/a/..", false),
            ("serve target=/mnt root=", false),
            ("serve target=mnt root=/", false),
            ("serve target=/mnt/ root=/", false),
            ("serve target=//mnt root=/", false),
            ("serve target=/a/../b root=/", false),
            ("serve target=/. root=/", false),
            ("serve target= root=/", false),
            ("serve ids=0 msize=256 target=/mnt turns=1 root=/", true),
            (
                "serve target=/mnt root=/ msize=65560 turns=8192 ids=1000000",
                true,
            ),
            ("serve target=/mnt root=/ msize=255", false),
            ("serve target=/mnt root=/ msize=65561", false),
            ("serve target=/mnt root=/ msize=04352", false),
            ("serve target=/mnt root=/ msize=", false),
            ("serve target=/mnt root=/ turns=0", false),
            ("serve target=/mnt root=/ turns=8193", false),
            ("serve target=/mnt root=/ turns=+1", false),
            ("serve target=/mnt root=/ ids=1000001", false),
            ("serve target=/mnt root=/ ids=1 ids=1", false),
            ("serve target=/mnt root=/ id=1", false),
            ("serve target=/mnt root=/ casefold=true", true),
            ("serve target=/mnt root=/ casefold=false", true),
            ("serve target=/mnt root=/ casefold=yes", false),
            ("serve target=/mnt root=/ casefold=", false),
            (
                "serve target=/mnt root=/ casefold=true casefold=true",
                false,
            ),
            ("serve uid=1000:0 target=/mnt root=/ uid=0:1000", true),
            ("serve target=/mnt root=/ uid=1:2 gid=1:2 gid=2:2", true),
            ("serve target=/mnt root=/ uid=1:2 uid=1:2", false),
            ("serve target=/mnt root=/ gid=1:2 gid=1:3", false),
            ("serve target=/mnt root=/ uid=4294967295:0", true),
            ("serve target=/mnt root=/ uid=4294967296:0", false),
            ("serve target=/mnt root=/ uid=0:4294967296", false),
            ("serve target=/mnt root=/ uid=1", false),
            ("serve target=/mnt root=/ uid=1:", false),
            ("serve target=/mnt root=/ uid=1:2:3", false),
            ("serve target=/mnt root=/ uid=01:2", false),
            ("serve target=/mnt root=/ more", false),
        ];
        for (line, accepted) in cases {
            let words = words_of(rt.alloc(), line)?;
            assert_eq!(rt; read_words(rt.alloc(), &words).is_ok(), accepted, "{line}");
        }
        Ok(())
    }
}
