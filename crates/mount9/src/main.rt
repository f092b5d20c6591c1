//! The program: its words, standard input and standard output, handed to `run`.
#![tactic(auto)]

use mount9_run::run::{Status, run};
use port_base::sink::{NoMemory, SinkFault, write_all};
use port_base::std_io::{StdSink, StdSource};
use port_base::words::Words;
use std::env;
use std::io::{self, BufReader};
use std::process::ExitCode;

const HELP: &str = "\
usage: mount9 serve target=PATH root=PATH [KEY=VALUE ..] < INPUT

Reads a header that describes a tree of files, and FUSE request frames behind it, from standard
input. Serves the frames, and writes a report to standard output.

  target=PATH  where the share is mounted: / or a path that the header names
  root=PATH    the directory that is shared, by its path in that tree
  msize=N      the greatest size of a 9P message, 256 to 65560 bytes (65560); a session needs 4352
  turns=N      how many frames are handled at most, 1 to 8192 (4096)
  ids=N        how many node ids and handles there may be, 0 to 1000000 (1024)
  casefold=B   whether a name that differs in the case of ASCII letters alone is found where the
               exact name isn't there, true or false (false)
  uid=H:C      user H of the tree is shown as user C, two numbers below 2^32; any number of times,
               but once for each H
  gid=H:C      the same of groups

The status is 0 where the input was read to its end, 1 where the run stopped early, 2 for wrong
words, 3 for a wrong header, 4 out of memory, 5 where the input and 6 where the output failed.
";

const VERSION: &str = "mount9 0.1.0\n";

// The words of the command line. Where one isn't UTF-8 there are none, and `run` refuses these.
fn command_line(rt: &HostRuntime) -> Result<Words, NoMemory> {
    let mut words = Words::new(rt.alloc());
    match env::args(rt) {
        Ok(args) => {
            for arg in args.skip(1) {
                words.push(arg.as_bytes())?;
            }
            Ok(words)
        }
        Err(fault) if fault.kind() == io::ErrorKind::OutOfMemory => Err(NoMemory),
        Err(_) => Ok(words),
    }
}

// The text that a single word asks for.
fn about(words: &Words) -> Option<&'static str> {
    if words.len() != 1 {
        return None;
    }
    let word = words.get(0)?;
    if word == b"--help".as_slice() {
        Some(HELP)
    } else if word == b"--version".as_slice() {
        Some(VERSION)
    } else {
        None
    }
}

fn main(rt: HostRuntime) -> ExitCode {
    let alloc = rt.alloc();
    let Ok(words) = command_line(&rt) else {
        return ExitCode::from(Status::Memory.exit_code());
    };
    let mut output = StdSink::new(rt.stdout());
    if let Some(text) = about(&words) {
        let status = match write_all(&mut output, text.as_bytes()) {
            Ok(()) => Status::Served,
            Err(SinkFault::Failed) => Status::Output,
            Err(SinkFault::NoMemory) => Status::Memory,
        };
        return ExitCode::from(status.exit_code());
    }
    let Ok(reader) = BufReader::new(alloc, rt.stdin()) else {
        return ExitCode::from(Status::Memory.exit_code());
    };
    let mut input = StdSource::new(reader);
    ExitCode::from(run(alloc, &words, &mut input, &mut output))
}
