//! The top call: words and a stream in, a report out.
ghost use Rattle.std.specs.Prelude.{◌≡◌, ◌⊎◌, ◌<◌, ◌≤◌, ◌^◌, ℕ, List, IfOk, IfSome, IsOk, IsTrue};
ghost use Rattle.std.specs.Prelude.{true, None, Ok, [], codes};
ghost use Rattle.std.specs.Io.KnownBytes.{IsAtEnd};
ghost use Rattle.port_base.specs.Paths.{is_rooted_path};
ghost use Rattle.port_base.specs.Faults.{Faulted};
ghost use Rattle.std.specs.FinMap as map;
ghost use Rattle.tree_model.specs.Tree.{linked};
ghost use Rattle.tree_host.specs.TreeHosts.{tree};
ghost use Rattle.p9_server.specs.Configs.{config_refused, settings_of};
ghost use Rattle.fuse_wire.specs.Cuts.{cut};
ghost use Rattle.mount9_run.specs.Header.{HeaderRead, header};
ghost use Rattle.mount9_run.specs.HeaderViews.{IsFresh, header_view};
ghost use Rattle.mount9_run.specs.Wrote.{Wrote, at_sink};
ghost use Rattle.mount9_run.specs.ReportLines.{number_line};
ghost use Rattle.mount9_run.specs.Report.{report};
ghost use Rattle.mount9_run.specs.Outcome.{share_settings, mount_table, refusal, root_given};
ghost use Rattle.mount9_run.specs.Outcome.{served, run_of, refused_words, outcome};
ghost use Rattle.mount9_run.specs.Running.{IsTold, Ran, Tells, after_text};
ghost use Rattle.mount9_run.specs.Taken.{Took, mounted_taken, served_taken, taken};
ghost use Rattle.mount9_run.specs.Verdicts.{is_reported, nine_frames_of, IsReported};
ghost use Rattle.mount9_run.specs.Serving.{Shares, reported, stopped_by, ending_of};
ghost use Rattle.mount9_run.specs.Statuses.{Exits, IsWholeTree, SendsPlayReport};
ghost use Rattle.mount9_run.specs.Causes.{IsValidInput};
ghost use Rattle.mount9_run.specs.Command.{command};
ghost use Rattle.mount9_run.specs.CommandViews.{share_view};
ghost use Rattle.mount9_run.specs.declared.run.Status.TheVariants as status;

use crate::command::{ShareWords, WordsError, read_words};
use crate::header::error::HeaderError;
use crate::header::text::{TextError, take_text};
use crate::header::{Header, read_text};
use crate::mount::mount_refused;
use crate::report::blocks::write_in_blocks;
use crate::report::verdict::{Served, Verdict};
use crate::report::writing::{write_number_line, write_text};
use frame_pump::outcome::{BridgeError, Pumped, Stopped};
use fuse_gate::gate::LEAST_MSIZE;
use fuse_gate::pump::pump;
use p9_server::{Config, Server, ServerIdMap};
use port_base::memory::MemSink;
use port_base::sink::{NoMemory, Sink, SinkFault};
use port_base::source::Source;
use port_base::words::Words;
use std::alloc::Global;
use tree_host::TreeHost;

/// The flags of the mount: `MS_NOSUID` and `MS_NODEV`.
pub const MOUNT_FLAGS: u64 = 6;

/// How a run went.
#[derive(Clone, Copy, Debug, PartialEq, Eq)]
pub enum Status {
    /// The input was read to its end, and every frame handled.
    Served,
    /// Messages are too short, the mount or the attach was refused, or the input didn't end at a
    /// frame's end.
    Stopped,
    /// The words are refused.
    Words,
    /// The header is refused.
    Header,
    /// There was no memory.
    Memory,
    /// The input failed.
    Input,
    /// The output failed.
    Output,
}

impl Status {
    ghost use Rattle.std.specs.Prelude.{◌≡◌};
    ghost use Rattle.mount9_run.specs.Statuses.{exit_code};

    /// The number that the program exits with.
    pub fn exit_code(self) -> u8
        ensures { result ≡ exit_code self }
    {
        match self {
            Status::Served => 0,
            Status::Stopped => 1,
            Status::Words => 2,
            Status::Header => 3,
            Status::Memory => 4,
            Status::Input => 5,
            Status::Output => 6,
        }
    }
}

// The answer after the text that goes with it.
fn after_text(status: Status, written: Result<(), SinkFault>) -> Status
    ensures { result ≡ after_text status written }
{
    match written {
        Ok(()) => status,
        Err(SinkFault::Failed) => Status::Output,
        Err(SinkFault::NoMemory) => Status::Memory,
    }
}

// A text, and the answer that goes with it.
fn tell<K: Sink>(out: &mut K, status: Status, text: &[u8]) -> Status
    ensures { Tells (at_sink (K.sent out.old) (K.faults out.old) (K.kept out.old))
        (at_sink (K.sent out.new) (K.faults out.new) (K.kept out.new))
        status text.now result }
{
    let written = write_text(out, text);
    after_text(status, written)
}

// The line that tells the first refused line of a header.
fn tell_line<K: Sink>(alloc: Global, out: &mut K, line: u64) -> Status
    ensures { Tells (at_sink (K.sent out.old) (K.faults out.old) (K.kept out.old))
        (at_sink (K.sent out.new) (K.faults out.new) (K.kept out.new))
        status.Header (number_line (codes "header") line) result }
{
    let written = write_number_line(alloc, out, b"header", line);
    after_text(Status::Header, written)
}

// What is reported of a run: its answer, and how it ended.
#[derive(Clone, Copy, Debug, PartialEq, Eq)]
struct Ending {
    status: Status,
    verdict: Verdict,
}

// A whole report, and the answer that goes with it.
fn tell_report<K: Sink>(
    alloc: Global,
    out: &mut K,
    ending: Ending,
    replies: &[u8],
    host: &TreeHost,
) -> Status
    requires { IsReported ending.verdict }
    ensures told { Tells (at_sink (K.sent out.old) (K.faults out.old) (K.kept out.old))
        (at_sink (K.sent out.new) (K.faults out.new) (K.kept out.new))
        ending.status (report replies.now ending.verdict (linked (tree host.now)) mount_table) result }
    ensures range { nine_frames_of ending.verdict < 2 ^ 64 }
{
    let written = write_in_blocks(alloc, out, replies, &ending.verdict, host);
    after_text(ending.status, written)
}

// The same owners.
fn copied(ids: &ServerIdMap<u32>) -> Result<ServerIdMap<u32>, NoMemory>
    ensures { IfOk result (λ copy. copy.entries ≡ ids.now.entries) }
{
    ids.clone().map_err(|_| NoMemory)
}

// How a share is set up.
fn share_config(alloc: Global, share: &ShareWords) -> Result<Config, NoMemory>
    requires long { LEAST_MSIZE ≤ share.now.msize }
    requires rooted { is_rooted_path share.now.root.items ≡ true }
    ensures settings { IfOk result (λ c. settings_of c ≡ share_settings (share_view share.now)) }
    ensures msize { IfOk result (λ c. c.msize ≡ share.now.msize) }
    ensures allowed { IfOk result (λ c. config_refused c.msize c.root.items ≡ None) }
{
    let root = Vec::from_slice(alloc, &share.root).map_err(|_| NoMemory)?;
    let uid_map = copied(&share.uid_map)?;
    let gid_map = copied(&share.gid_map)?;
    Ok(Config {
        root,
        msize: share.msize,
        uid_map,
        gid_map,
        ascii_casefold: share.casefold,
        fid_limit: share.ids,
    })
}

// What a share leaves.
#[derive(Drop)]
struct Shared {
    told: Result<Pumped, Stopped>,
    host: TreeHost,
    replies: MemSink,
}

// A tree is served to the requests of the input.
fn share<S: Source>(
    alloc: Global,
    words: &ShareWords,
    config: Config,
    host: TreeHost,
    input: &mut S,
) -> Shared
    requires fresh { IsFresh host }
    requires long { LEAST_MSIZE ≤ words.now.msize }
    requires settings { settings_of config ≡ share_settings (share_view words.now) }
    requires msize { config.msize ≡ words.now.msize }
    requires allowed { config_refused config.msize config.root.items ≡ None }
    ensures ended { IsOk result.told → IsAtEnd (S.left input.new) }
    ensures input { S.kept input.new ≡ S.kept input.old }
    ensures lender { S.lender input.new ≡ S.lender input.old }
    ensures shares { Shares (share_view words.now) (tree host) (S.left input.old)
        (S.faults input.old) (S.faults input.new) result.replies.bytes.items (tree result.host)
        result.told }
    ensures takes { IsOk (ending_of result.told) → IfSome (S.left input.old) (λ bytes.
        Took (served_taken (share_view words.now) (root_given (share_view words.now) (linked (tree host))) bytes)
        (S.left input.old) (S.left input.new)) }
{
    let Ok(mut server) = Server::with_config(alloc, host, config) else {
        unreachable!()
    };
    let mut replies = MemSink::new(alloc);
    let told = pump(alloc, &mut server, input, &mut replies, words.turns);
    let host = server.into_host();
    Shared {
        told,
        host,
        replies,
    }
}

// How a share that stopped ends a run; no mount is taken away yet.
fn stopped_by(stopped: Stopped) -> Result<Ending, Status>
    ensures by { result ≡ stopped_by stopped.handled stopped.nine_frames stopped.cause }
    ensures reported { IfOk result (λ ending. IsReported ending.verdict) }
{
    match stopped.cause {
        BridgeError::NoMemory => Err(Status::Memory),
        BridgeError::Read => Err(Status::Input),
        BridgeError::Write => Err(Status::Output),
        BridgeError::Unmount => Err(Status::Output),
        BridgeError::Torn => Ok(halted(stopped)),
        BridgeError::BadLength => Ok(halted(stopped)),
        BridgeError::TurnsSpent => Ok(halted(stopped)),
        BridgeError::MsizeTooSmall => Ok(halted(stopped)),
        BridgeError::Mount(_) => Ok(halted(stopped)),
        BridgeError::Attach(_) => Ok(halted(stopped)),
    }
}

// A run that stopped, and is reported.
fn halted(stopped: Stopped) -> Ending
    ensures { result ≡ reported stopped.cause stopped.handled stopped.nine_frames }
{
    Ending {
        status: Status::Stopped,
        verdict: Verdict::Halted(stopped),
    }
}

// How what a share told ends a run: by a report, or by an answer alone.
fn ending_of(told: Result<Pumped, Stopped>) -> Result<Ending, Status>
    ensures by { result ≡ ending_of told }
    ensures reported { IfOk result (λ ending. IsReported ending.verdict) }
{
    match told {
        Ok(pumped) => Ok(Ending {
            status: Status::Served,
            verdict: Verdict::Done(Served {
                flags: MOUNT_FLAGS,
                handled: pumped.handled,
                nine_frames: pumped.nine_frames,
            }),
        }),
        Err(stopped) => stopped_by(stopped),
    }
}

// A tree is served, and reported.
fn serve<S: Source, K: Sink>(
    alloc: Global,
    words: &ShareWords,
    host: TreeHost,
    input: &mut S,
    out: &mut K,
) -> Status
    requires fresh { IsFresh host }
    requires long { LEAST_MSIZE ≤ words.now.msize }
    requires rooted { is_rooted_path words.now.root.items ≡ true }
    ensures ended { result ≡ status.Served → IsAtEnd (S.left input.new) }
    ensures input { S.kept input.new ≡ S.kept input.old }
    ensures lender { S.lender input.new ≡ S.lender input.old }
    ensures output { K.kept out.new ≡ K.kept out.old }
    ensures takes { IsTold result → IfSome (S.left input.old) (λ bytes.
        Took (served_taken (share_view words.now) (root_given (share_view words.now) (linked (tree host))) bytes)
        (S.left input.old) (S.left input.new)) }
    ensures ran { Ran
        (λ bytes. served (share_view words.now) (linked (tree host)) (cut words.now.turns bytes))
        (S.left input.old) (K.sent out.old) (K.sent out.new) (S.faults input.old)
        (S.faults input.new) (K.faults out.old) (K.faults out.new) result }
{
    let Ok(config) = share_config(alloc, words) else {
        return Status::Memory;
    };
    let Shared {
        told,
        host,
        replies,
    } = share(alloc, words, config, host, input);
    match ending_of(told) {
        Ok(ending) => tell_report(alloc, out, ending, replies.as_bytes(), &host),
        Err(status) => status,
    }
}

// Why nothing is served, though words and header are accepted.
fn refusal(words: &ShareWords, header: &Header) -> Option<BridgeError>
    ensures why { result ≡ refusal (share_view words.now) (header_view header.now) }
    ensures reported { IfSome result (λ cause. IsTrue (is_reported cause)) }
{
    if words.msize < LEAST_MSIZE {
        return Some(BridgeError::MsizeTooSmall);
    }
    match mount_refused(&words.target, header) {
        Some(errno) => Some(BridgeError::Mount(errno)),
        None => None,
    }
}

// A tree is served and reported, or why it isn't.
fn mount<S: Source, K: Sink>(
    alloc: Global,
    words: &ShareWords,
    header: Header,
    input: &mut S,
    out: &mut K,
) -> Status
    requires fresh { IsFresh header.host }
    requires rooted { is_rooted_path words.now.root.items ≡ true }
    ensures ended { result ≡ status.Served → IsAtEnd (S.left input.new) }
    ensures input { S.kept input.new ≡ S.kept input.old }
    ensures lender { S.lender input.new ≡ S.lender input.old }
    ensures output { K.kept out.new ≡ K.kept out.old }
    ensures takes { IsTold result → IfSome (S.left input.old) (λ bytes.
        Took (mounted_taken (share_view words.now) (tree header.host) bytes
        (refusal (share_view words.now) (header_view header)))
        (S.left input.old) (S.left input.new)) }
    ensures ran { Ran (run_of (share_view words.now) (header_view header)) (S.left input.old)
        (K.sent out.old) (K.sent out.new) (S.faults input.old) (S.faults input.new)
        (K.faults out.old) (K.faults out.new) result }
{
    if let Some(cause) = refusal(words, &header) {
        let ending = halted(Stopped {
            cause,
            handled: 0,
            nine_frames: 0,
        });
        return tell_report(alloc, out, ending, &[], &header.host);
    }
    serve(alloc, words, header.host, input, out)
}

// Runs the program, and tells how by a word.
fn answer<S: Source, K: Sink>(alloc: Global, words: &Words, input: &mut S, out: &mut K) -> Status
    ensures ran { Ran (outcome words.now) (S.left input.old) (K.sent out.old) (K.sent out.new)
        (S.faults input.old) (S.faults input.new) (K.faults out.old) (K.faults out.new) result }
    ensures unread { command words.now ≡ None → input.new ≡ input.old }
    ensures refused { command words.now ≡ None → Ran refused_words (Some []) (K.sent out.old)
        (K.sent out.new) (S.faults input.old) (S.faults input.new) (K.faults out.old)
        (K.faults out.new) result }
    ensures headed { result ≡ status.Served → IfSome (S.left input.old)
        (λ bytes. (h : HeaderRead) (rest : List ℕ) →
        header bytes ≡ Ok (h, rest) → IsWholeTree h.tree) }
    ensures ended { result ≡ status.Served → IsAtEnd (S.left input.new) }
    ensures takes { IsTold result → IfSome (S.left input.old) (λ bytes.
        Took (taken words.now bytes) (S.left input.old) (S.left input.new)) }
    ensures input { S.kept input.new ≡ S.kept input.old }
    ensures lender { S.lender input.new ≡ S.lender input.old }
    ensures output { K.kept out.new ≡ K.kept out.old }
{
    let command = match read_words(alloc, words) {
        Ok(command) => command,
        Err(WordsError::Words) => return tell(out, Status::Words, b"words\n"),
        Err(WordsError::NoMemory) => return Status::Memory,
    };
    let mut text = Vec::new(alloc);
    match take_text(input, &mut text) {
        Ok(()) => {}
        Err(TextError::NoEnd) => return tell_line(alloc, out, 0),
        Err(TextError::Read) => return Status::Input,
        Err(TextError::NoMemory) => return Status::Memory,
    }
    match read_text(alloc, &text) {
        Ok(header) => mount(alloc, command.share(), header, input, out),
        Err(HeaderError::Line(line)) => tell_line(alloc, out, line),
        Err(HeaderError::NoMemory) => Status::Memory,
    }
}

/// Runs the program: `words` is the command line, `input` a header and the request frames behind
/// it. The answer is the exit status. What is written is the report, or `words` or `header N`
/// where these are refused; out of memory or after a failed stream a front of it.
///
/// 0: the input was read to its end, and every frame was handled. 1: messages are too short, the
/// mount or the attach was refused, or the input didn't end at a frame's end. 2: the words are
/// refused, and nothing was read. 3: the header is refused. 4: out of memory. 5: the input failed.
/// 6: the output failed.
pub fn run<S: Source, K: Sink>(alloc: Global, words: &Words, input: &mut S, out: &mut K) -> u8
    ensures exits { Exits (outcome words.now) (S.left input.old) (K.sent out.old) (K.sent out.new)
        (S.faults input.old) (S.faults input.new) (K.faults out.old) (K.faults out.new) result }
    ensures played { result ≡ 0 → IfSome (S.left input.old) (λ bytes.
        SendsPlayReport words.now bytes (K.sent out.old) (K.sent out.new)) }
    ensures valid { IfSome (S.left input.old) (λ bytes. IsValidInput words.now bytes →
        (Faulted (S.faults input.old) (S.faults input.new) → ⊥) →
        (Faulted (K.faults out.old) (K.faults out.new) → ⊥) → (result ≡ 0) ⊎ (result ≡ 4)) }
    ensures unread { command words.now ≡ None → input.new ≡ input.old }
    ensures refused { command words.now ≡ None → Exits refused_words (Some []) (K.sent out.old)
        (K.sent out.new)
        (S.faults input.old) (S.faults input.new) (K.faults out.old) (K.faults out.new) result }
    ensures ended { result ≡ 0 → IsAtEnd (S.left input.new) }
    ensures takes { result ≤ 3 → IfSome (S.left input.old) (λ bytes.
        Took (taken words.now bytes) (S.left input.old) (S.left input.new)) }
    ensures input { S.kept input.new ≡ S.kept input.old }
    ensures lender { S.lender input.new ≡ S.lender input.old }
    ensures output { K.kept out.new ≡ K.kept out.old }
{
    answer(alloc, words, input, out).exit_code()
}
