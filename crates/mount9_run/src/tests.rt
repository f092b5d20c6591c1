use crate::run::run;
use port_base::failing::{FailSink, FailSource};
use port_base::memory::{MemSink, SliceSource};
use port_base::words::Words;
use std::alloc::Global;
use std::test::Fail;

const HEADER: &[u8] = b"mount9 1
moment 1700000000 5
born 1600000000 0
limits 1048576 65536 65000
permit yes
present /mnt
top 0755 0 0
file 0644 1000 1000 68656c6c6f0a /hello
end
";

// INIT of minor number 22, then LOOKUP of `hello`.
const FRAMES: &[u8] =
    b"680000001a0000000100000000000000000000000000000000000000000000000000000000000000070000001600000000000200000000000000000000000000000000000000000000000000000000000000000000000000000000000000000000000000000000002e00000001000000020000000000000001000000000000000000000000000000000000000000000068656c6c6f00";

const TREE: &str = "tree 3
dir 1 0755 0 0 2 1600000000.000000000 1600000000.000000000 1600000000.000000000 1 2
in 1 1 2 hello
file 2 0644 1000 1000 1 1600000000.000000000 1600000000.000000000 1600000000.000000000 68656c6c6f0a
mounts
1 1 0:1 / / rw - rootfs rootfs rw
end
";

// Both requests are refused with EPROTO.
const REPLIES: &str = "10000000b9ffffff010000000000000010000000b9ffffff0200000000000000\n";

// A session that opens, reads and forgets.
const SESSION: [&[u8]; 13] = [
    // INIT of minor number 31.
    b"380000001a0000000100000000000000000000000000000000000000000000000000000000000000070000001f0000000000000000000000",
    // LOOKUP of `hello` in the root: node 2.
    b"2e00000001000000020000000000000001000000000000000000000000000000000000000000000068656c6c6f00",
    // OPEN of node 2 to read it: handle 3.
    b"300000000e00000003000000000000000200000000000000000000000000000000000000000000000000000000000000",
    // READ of 131072 bytes from 1 on.
    b"500000000f000000040000000000000002000000000000000000000000000000000000000000000003000000000000000100000000000000000002000000000000000000000000000000000000000000",
    // FLUSH of handle 3.
    b"40000000190000000500000000000000020000000000000000000000000000000000000000000000030000000000000000000000000000000000000000000000",
    // FORGET of node 2, which goes.
    b"300000000200000006000000000000000200000000000000000000000000000000000000000000000100000000000000",
    // READ of 9 bytes from 4 on: the handle still reads.
    b"500000000f000000070000000000000002000000000000000000000000000000000000000000000003000000000000000400000000000000090000000000000000000000000000000000000000000000",
    // RELEASE of handle 3.
    b"40000000120000000800000000000000020000000000000000000000000000000000000000000000030000000000000000000000000000000000000000000000",
    // READ by a handle that is gone.
    b"500000000f000000090000000000000002000000000000000000000000000000000000000000000003000000000000000000000000000000090000000000000000000000000000000000000000000000",
    // GETATTR of a node that is gone.
    b"38000000030000000a0000000000000002000000000000000000000000000000000000000000000000000000000000000000000000000000",
    // BATCH_FORGET of the root and of no node.
    b"500000002a0000000b0000000000000000000000000000000000000000000000000000000000000002000000000000000100000000000000090000000000000007000000000000000100000000000000",
    // OPEN of the root, a directory.
    b"300000000e0000000c000000000000000100000000000000000000000000000000000000000000000000000000000000",
    // OPEN to write.
    b"300000000e0000000d000000000000000100000000000000000000000000000000000000000000000100000000000000",
];

// What answers it; FORGET and BATCH_FORGET get no reply.
const SESSION_REPLIES: &str = "50000000000000000100000000000000070000001f0000000000000000000000
0c00090000000100010000000000000000000000000000000000000000000000
0000000000000000000000000000000090000000000000000200000000000000
0200000000000000000000000000000001000000000000000100000000000000
0000000000000000020000000000000006000000000000000100000000000000
00105e5f0000000000105e5f0000000000105e5f000000000000000000000000
00000000a481000001000000e8030000e8030000000000000010000000000000
2000000000000000030000000000000003000000000000000000000000000000
15000000000000000400000000000000656c6c6f0a1000000000000000050000
0000000000120000000000000007000000000000006f0a100000000000000008
0000000000000010000000f7ffffff0900000000000000100000008cffffff0a
0000000000000010000000ebffffff0c0000000000000010000000ebffffff0d
00000000000000
";

// The words of one line, with a space between each two.
fn words_of(alloc: Global, line: &str) -> Result<Words, Fail> {
    let mut words = Words::new(alloc);
    for word in line.split_whitespace() {
        words.push(word.as_bytes())?;
    }
    Ok(words)
}

#[test]
fn a_file_is_opened_read_and_forgotten(rt: HostRuntime) -> Result<(), Fail> {
    let alloc = rt.alloc();
    let words = words_of(alloc, "serve target=/mnt root=/")?;
    let mut bytes = Vec::from_slice(alloc, HEADER)?;
    for frame in SESSION {
        let frame = hex::decode(alloc, frame).ok().expect(&rt, "hex");
        bytes.extend_from_slice(&frame)?;
    }
    let mut input = SliceSource::new(&bytes);
    let mut out = MemSink::new(alloc);
    assert_eq!(rt; run(alloc, &words, &mut input, &mut out), 0);
    let ended = "served flags=6 handled=13\n";
    let want = format!(in alloc; "replies\n{SESSION_REPLIES}{ended}{TREE}nine 9\n")?;
    assert_eq!(rt; out.as_bytes(), want.as_bytes());
    Ok(())
}

#[test]
fn runs_that_stop(rt: HostRuntime) -> Result<(), Fail> {
    let alloc = rt.alloc();
    // The words, the bytes behind the header in hex, the replies and the ending, and the number of
    // messages.
    let cases: [(&str, &[u8], &str, u32); 7] = [
        (
            "serve target=/mnt root=/ msize=4351",
            b"",
            "stopped msize handled=0\n",
            0,
        ),
        (
            "serve target=/no root=/ msize=4351",
            b"",
            "stopped msize handled=0\n",
            0,
        ),
        (
            "serve target=/no root=/ msize=4352",
            b"",
            "stopped mount 2 handled=0\n",
            0,
        ),
        (
            "serve target=/mnt root=/ ids=0",
            b"",
            "stopped attach 23 handled=0\n",
            1,
        ),
        (
            "serve target=/mnt root=/",
            b"27000000",
            "stopped length handled=0\n",
            1,
        ),
        (
            "serve target=/mnt root=/",
            b"680000",
            "stopped torn handled=0\n",
            1,
        ),
        (
            "serve target=/mnt root=/ turns=1",
            FRAMES,
            "10000000b9ffffff0100000000000000\nstopped turns handled=1\n",
            1,
        ),
    ];
    for (line, frames, ended, nine) in cases {
        let words = words_of(alloc, line)?;
        let mut bytes = Vec::from_slice(alloc, HEADER)?;
        let frames = hex::decode(alloc, frames).ok().expect(&rt, "hex");
        bytes.extend_from_slice(&frames)?;
        let mut input = SliceSource::new(&bytes);
        let mut out = MemSink::new(alloc);
        assert_eq!(rt; run(alloc, &words, &mut input, &mut out), 1, "{line}");
        let want = format!(in alloc; "replies\n{ended}{TREE}nine {nine}\n")?;
        assert_eq!(rt; out.as_bytes(), want.as_bytes(), "{line}");
    }
    Ok(())
}

#[test]
fn a_stream_that_fails_at_once(rt: HostRuntime) -> Result<(), Fail> {
    let alloc = rt.alloc();
    let words = words_of(alloc, "serve target=/mnt root=/")?;
    let mut input = FailSource::new(alloc, HEADER, &[0])?;
    let mut out = MemSink::new(alloc);
    assert_eq!(rt; run(alloc, &words, &mut input, &mut out), 5);
    let mut input = SliceSource::new(HEADER);
    let mut out = FailSink::new(alloc, &[0])?;
    assert_eq!(rt; run(alloc, &words, &mut input, &mut out), 6);
    assert!(rt; out.as_bytes().is_empty());
    Ok(())
}

#[test]
fn runs_of_an_old_minor_number(rt: HostRuntime) -> Result<(), Fail> {
    let alloc = rt.alloc();
    let words = words_of(alloc, "serve target=/mnt root=/")?;
    let frames = hex::decode(alloc, FRAMES).ok().expect(&rt, "hex");
    // How many bytes of the frames are there, the answer, the replies, and how the run ended.
    let cases = [
        (0, 0u8, "", "served flags=6 handled=0\n"),
        (150, 0, REPLIES, "served flags=6 handled=2\n"),
        (3, 1, "", "stopped torn handled=0\n"),
    ];
    for (size, status, replies, verdict) in cases {
        let mut bytes = Vec::from_slice(alloc, HEADER)?;
        bytes.extend_from_slice(&frames[..frames.len().min(size)])?;
        let mut input = SliceSource::new(&bytes);
        let mut out = MemSink::new(alloc);
        assert_eq!(rt; run(alloc, &words, &mut input, &mut out), status);
        let want = format!(in alloc; "replies\n{replies}{verdict}{TREE}nine 1\n")?;
        assert_eq!(rt; out.as_bytes(), want.as_bytes());
    }
    Ok(())
}
