mod gates;
mod loading;
mod ranks;
mod results;
mod sample_runs;
mod samples;
mod scripts;
mod serving;

use crate::{Ended, command, plain_command};
use edges::{
    DoorEnds, MemDoor, MemSink, MemSource, OpenGate, QuietSink, QuietSource, Sink, Source,
};
use std::alloc::{AllocError, Global};
use std::process::Abort;
use std::sync::Wait;
use std::test::Fail;
use std::thread::Threads;

/// Three criteria of two levels, and two respondents.
const THREE: &[u8] = b"{\"criteria\":[{\"levels\":[\"high\",\"low\"],\"name\":\"price\"},\
    {\"levels\":[\"slow\",\"fast\"],\"name\":\"speed\"},{\"levels\":[\"loud\",\"quiet\"],\"name\":\"noise\"}],\
    \"degree\":3,\"respondents\":[{\"code\":\"k1\",\"name\":\"ana\"},{\"code\":\"k2\",\"name\":\"ben\"}]}\n";

/// A criterion of three levels and one of two.
const CARE: &[u8] = b"{\"criteria\":[{\"levels\":[\"poor\",\"fair\",\"good\"],\"name\":\"care\"},\
    {\"levels\":[\"far\",\"near\"],\"name\":\"place\"}],\"degree\":2,\"respondents\":[{\"code\":\"k1\",\"name\":\"ana\"}]}\n";

/// The line that words of no command get.
const USAGE: &[u8] =
    b"usage: paprika check | migrate | rank | sample SEED SHAPE | run [--eliminators N] [--sample SEED --shape SHAPE] | serve PORT [--eliminators N] [--connections K]\n";

/// Files after their first two lines, with what `check` writes of them.
const AFTER_MODEL: [(&[u8], &[u8]); 24] = [
    (b"", b"unfinished 3\n"),
    (b"end", b"valid\n"),
    (b"end\n", b"valid\n"),
    (b"end\n\n", b"invalid 4 form\n"),
    (b"end\nend", b"invalid 4 form\n"),
    (b"end ", b"unfinished 3\n"),
    (b"answer 2,1,0/1,2,0 left", b"unfinished 3\n"),
    (b"answer 2,1,0/1,2,0 left\n", b"unfinished 4\n"),
    (b"answer 2,1,0/1,2,0 left\nend\n", b"valid\n"),
    (
        b"answer 2,1,0/1,2,0 left\nanswer 2,1,0/1,2,0 right\nend",
        b"valid\n",
    ),
    (b"answer 2,1,0/1,2,0 left\n\nend\n", b"invalid 4 form\n"),
    (b"answer 1,2,0/2,1,0 left\n", b"invalid 3 class\n"),
    (b"answer 2,1,1/1,2,1 equal\n", b"invalid 3 class\n"),
    (b"answer 2,2,0/1,1,0 left\n", b"invalid 3 class\n"),
    (b"answer 25,1,0/1,2,0 left\n", b"invalid 3 class\n"),
    (b"answer 26,1,0/1,2,0 left\n", b"invalid 3 form\n"),
    (b"answer 02,1,0/1,2,0 left\n", b"invalid 3 form\n"),
    (b"answer 2,1/1,2 left\n", b"invalid 3 form\n"),
    (b"answer 2,1,0,/1,2,0 left\n", b"invalid 3 form\n"),
    (b"answer 2,1,0/1,2,0  left\n", b"invalid 3 form\n"),
    (b"answer 2,1,0/1,2,0 left \n", b"invalid 3 form\n"),
    (b"answer 2,1,0/1,2,0 Left\n", b"invalid 3 form\n"),
    (b"paprika claims 1\n", b"invalid 3 form\n"),
    (b"commit 1 1 left 1,1,1 1,1,1 1,1,1\n", b"invalid 3 form\n"),
];

/// Whole files, with what `check` writes of them.
const WHOLE: [(&[u8], &[u8]); 21] = [
    (b"", b"unfinished 1\n"),
    (b"end", b"unfinished 1\n"),
    (b"end\n", b"invalid 1 form\n"),
    (b"paprika claims 1", b"unfinished 1\n"),
    (b"paprika claims 1\n", b"unfinished 2\n"),
    (b"paprika claims 1\r\n", b"invalid 1 form\n"),
    (b"paprika claims 2\n", b"invalid 1 form\n"),
    (b"paprika claims 1\nend", b"unfinished 2\n"),
    (b"paprika claims 1\nend\n", b"invalid 2 form\n"),
    (
        b"paprika claims 1\nmodel 2,2,2 degree 4\n",
        b"invalid 2 model\n",
    ),
    (
        b"paprika claims 1\nmodel 2,1,2 degree 2\n",
        b"invalid 2 model\n",
    ),
    (
        b"paprika claims 1\nmodel 2,2,2 degree 0\n",
        b"invalid 2 model\n",
    ),
    (
        b"paprika claims 1\nmodel 999 degree 1\n",
        b"invalid 2 model\n",
    ),
    (
        b"paprika claims 1\nmodel 1000 degree 1\n",
        b"invalid 2 form\n",
    ),
    (
        b"paprika claims 1\nmodel 2,2,2 degree 03\n",
        b"invalid 2 form\n",
    ),
    (b"paprika claims 1\nmodel  degree 1\n", b"invalid 2 form\n"),
    (b"paprika claims 1\nmodel 25 degree 1\nend", b"valid\n"),
    (
        b"paprika claims 1\nmodel 2,2,2 degree 3\nanswer 2,1,0/1,2,0 left\nanswer 0,2,1/0,1,2 left\neliminate 1 2,0,1/1,0,2 left 1 0,0,0 1:1,2:1\n",
        b"unfinished 6\n",
    ),
    // Of equal answers any weight counts, and none makes a verdict left or right.
    (
        b"paprika claims 1\nmodel 2,2,2 degree 3\nanswer 2,1,0/1,2,0 equal\nanswer 2,0,1/1,0,2 equal\neliminate 1 0,2,1/0,1,2 left 1 0,0,0 1:-1,2:1\nend\n",
        b"invalid 5 strict\n",
    ),
    (
        b"paprika claims 1\nmodel 2,2,2 degree 3\nanswer 2,1,0/1,2,0 equal\nanswer 2,0,1/1,0,2 equal\neliminate 1 0,2,1/0,1,2 equal 1 0,0,0 1:-1,2:1\nend\n",
        b"valid\n",
    ),
    // An answer on a later line isn't there yet.
    (
        b"paprika claims 1\nmodel 2,2,2 degree 3\nanswer 2,1,0/1,2,0 left\neliminate 1 2,0,1/1,0,2 left 1 0,0,0 1:1,2:1\nanswer 0,2,1/0,1,2 left\nend\n",
        b"invalid 4 cite\n",
    ),
];

/// Fifth lines after `ANSWERS`, with what `check` writes of the file that ends after them.
const ELIMINATIONS: [(&[u8], &[u8]); 30] = [
    (b"1 2,0,1/1,0,2 left 1 0,0,0 1:1,2:1", b"valid\n"),
    (b"0 2,0,1/1,0,2 left 2 0,0,0 1:2,2:2", b"valid\n"),
    (
        b"16 2,0,1/1,0,2 left 79228162514264337593543950335 0,0,0 1:79228162514264337593543950335,2:79228162514264337593543950335",
        b"valid\n",
    ),
    (
        b"1 2,0,1/1,0,2 left 1 0,0,0 1:1,2:-1",
        b"invalid 5 weight\n",
    ),
    (b"1 2,0,1/1,0,2 left 0 0,0,0 -", b"invalid 5 scale\n"),
    (b"1 2,0,1/1,0,2 left 1 0,0,0 -", b"invalid 5 sum\n"),
    (b"1 2,0,1/1,0,2 right 1 0,0,0 1:1,2:1", b"invalid 5 sum\n"),
    (b"1 2,0,1/1,0,2 left 1 0,0,1 1:1,2:1", b"invalid 5 sum\n"),
    (
        b"1 2,0,1/1,0,2 equal 1 0,0,0 1:1,2:1",
        b"invalid 5 strict\n",
    ),
    (
        b"1 2,0,1/1,0,2 left 1 0,0,-1 1:1,2:1",
        b"invalid 5 increment\n",
    ),
    (
        b"1 2,0,1/1,0,2 left -1 0,0,-1 1:1,3:1",
        b"invalid 5 scale\n",
    ),
    (b"1 2,0,1/1,0,2 left 1 0,0,0 1:1,3:1", b"invalid 5 cite\n"),
    (b"1 1,0,2/2,0,1 right 1 0,0,0 1:1,2:1", b"invalid 5 class\n"),
    (b"17 2,0,1/1,0,2 left 1 0,0,0 1:1,2:1", b"invalid 5 form\n"),
    (b"1 2,0,1/1,0,2 left 1 0,0 1:1,2:1", b"invalid 5 form\n"),
    (b"1 2,0,1/1,0,2 left 1 0,0,0,0 1:1,2:1", b"invalid 5 form\n"),
    (
        b"1 2,0,1/1,0,2 left 79228162514264337593543950336 0,0,0 1:1,2:1",
        b"invalid 5 form\n",
    ),
    (
        b"1 2,0,1/1,0,2 left 1 0,0,0 1:79228162514264337593543950336,2:1",
        b"invalid 5 form\n",
    ),
    (
        b"1 2,0,1/1,0,2 left 1 0,0,-79228162514264337593543950336 1:1",
        b"invalid 5 form\n",
    ),
    (b"1 2,0,1/1,0,2 left 1 0,0,-0 1:1,2:1", b"invalid 5 form\n"),
    (b"1 2,0,1/1,0,2 left 1 0,0,0 1:-0,2:1", b"invalid 5 form\n"),
    (b"1 2,0,1/1,0,2 left 1 0,0,0 1:0,2:1", b"invalid 5 form\n"),
    (b"1 2,0,1/1,0,2 left 1 0,0,0 2:1,1:1", b"invalid 5 form\n"),
    (b"1 2,0,1/1,0,2 left 1 0,0,0 1:1,1:1", b"invalid 5 form\n"),
    (b"1 2,0,1/1,0,2 left 1 0,0,0 0:1,1:1", b"invalid 5 form\n"),
    (b"1 2,0,1/1,0,2 left 1 0,0,0 131073:1", b"invalid 5 form\n"),
    (b"1 2,0,1/1,0,2 left 1 0,0,0 1:1,2:1,", b"invalid 5 form\n"),
    (b"1 2,0,1/1,0,2 left 1 0,0,0", b"invalid 5 form\n"),
    (b"1 2,0,1/1,0,2 left +1 0,0,0 1:1,2:1", b"invalid 5 form\n"),
    (
        b"1 2,0,1/1,0,2 left 1 0,0,0 1:1,2:1,3:1,4:1,5:1,6:1,7:1,8:1,9:1,10:1,11:1,12:1,13:1,14:1,15:1,16:1,17:1,18:1,19:1,20:1,21:1,22:1,23:1,24:1,25:1",
        b"invalid 5 form\n",
    ),
];

/// The first four lines of a file, with two answers.
const ANSWERS: &[u8] =
    b"paprika claims 1\nmodel 2,2,2 degree 3\nanswer 2,1,0/1,2,0 left\nanswer 0,2,1/0,1,2 left\n";

/// The words of a line.
fn words_of(alloc: Global, line: &str) -> Result<Vec<String>, AllocError> {
    let mut words = Vec::new(alloc);
    for word in line.split(' ') {
        words.push(String::from_str(alloc, word)?)?;
    }
    Ok(words)
}

/// What comes of the command of a line of words, where nobody connects and no gate holds.
fn ended_by<R: Threads + Wait + Sync, S: Source, K: Sink>(
    rt: &R,
    alloc: Global,
    line: &str,
    source: &mut S,
    sink: &mut K,
) -> Result<Ended, AllocError> {
    let words = words_of(alloc, line)?;
    let mut door = MemDoor::new(DoorEnds::new(alloc));
    Ok(command(
        rt,
        alloc,
        words.as_slice(),
        source,
        sink,
        &mut door,
        &OpenGate,
    ))
}

/// Checks a text that comes in pieces, and compares the status and what is written.
fn expect_check(
    rt: &impl Abort,
    alloc: Global,
    text: &[u8],
    piece: usize,
    want: &[u8],
) -> Result<(), Fail> {
    let words = [format!(in alloc; "check")?];
    let mut source = MemSource::new(alloc, text, piece.max(1), &[])?;
    let mut sink = MemSink::new(alloc, 64, &[])?;
    let status = plain_command(alloc, &words, &mut source, &mut sink);
    assert!(rt; sink.bytes() == want);
    assert_eq!(rt; status, if want.starts_with(b"valid") { 0 } else { 1 });
    Ok(())
}

#[test]
fn broken_files_are_refused_by_line_and_part(rt: HostRuntime) -> Result<(), Fail> {
    for piece in [1, 7, 4_096] {
        for (text, want) in WHOLE {
            expect_check(&rt, rt.alloc(), text, piece, want)?;
        }
        for (rest, want) in AFTER_MODEL {
            let mut text = Vec::from_slice(
                rt.alloc(),
                b"paprika claims 1\nmodel 2,2,2 degree 3\n",
            )?;
            text.extend_from_slice(rest)?;
            expect_check(&rt, rt.alloc(), text.as_slice(), piece, want)?;
        }
    }
    Ok(())
}

#[test]
fn forged_eliminations_are_refused(rt: HostRuntime) -> Result<(), Fail> {
    for piece in [1, 7, 4_096] {
        for (line, want) in ELIMINATIONS {
            let mut text = Vec::from_slice(rt.alloc(), ANSWERS)?;
            text.extend_from_slice(b"eliminate ")?;
            text.extend_from_slice(line)?;
            text.extend_from_slice(b"\nend\n")?;
            expect_check(&rt, rt.alloc(), text.as_slice(), piece, want)?;
        }
    }
    Ok(())
}

#[test]
fn line_is_too_long_from_byte_4097_on(rt: HostRuntime) -> Result<(), Fail> {
    let long = vec![in rt.alloc(); b'a'; 4_097]?;
    expect_check(&rt, rt.alloc(), &long[..4_096], 7, b"unfinished 1\n")?;
    expect_check(&rt, rt.alloc(), &long, 7, b"invalid 1 form\n")
}

/// Checks a text whose source fails at one call, and compares what is written of a refused file.
fn expect_refusal(
    rt: &impl Abort,
    alloc: Global,
    text: &[u8],
    piece: usize,
    failing_call: u32,
    want: &[u8],
) -> Result<(), Fail> {
    let words = [format!(in alloc; "check")?];
    let mut source = MemSource::new(alloc, text, piece.max(1), &[failing_call])?;
    let mut sink = MemSink::new(alloc, 64, &[])?;
    assert_eq!(rt; plain_command(alloc, &words, &mut source, &mut sink), 1);
    assert!(rt; sink.bytes() == want);
    Ok(())
}

#[test]
fn long_line_is_refused_without_another_read(rt: HostRuntime) -> Result<(), Fail> {
    let long = vec![in rt.alloc(); b'a'; 5_000]?;
    // The call fails that would be the next one after byte 4,097.
    for (piece, call) in [(4_097, 2), (5_000, 2), (7, 587), (1, 4_098)] {
        expect_refusal(
            &rt,
            rt.alloc(),
            long.as_slice(),
            piece,
            call,
            b"invalid 1 form\n",
        )?;
    }
    Ok(())
}

/// A file of claims with the same answer, `answers` times.
fn claims_file(alloc: Global, answers: u32) -> Result<Vec<u8>, Fail> {
    let mut text = Vec::from_slice(alloc, b"paprika claims 1\nmodel 2,2 degree 2\n")?;
    for _ in 0..answers {
        text.extend_from_slice(b"answer 2,1/1,2 left\n")?;
    }
    text.extend_from_slice(b"end\n")?;
    Ok(text)
}

#[test]
fn claim_131073_is_over_the_limit(rt: HostRuntime) -> Result<(), Fail> {
    for (answers, want) in [
        (131_072, b"valid\n".as_slice()),
        (131_073, b"invalid 131075 limit\n"),
    ] {
        let text = claims_file(rt.alloc(), answers)?;
        expect_check(&rt, rt.alloc(), text.as_slice(), 4_096, want)?;
    }
    Ok(())
}

#[test]
fn ends_fail_at_once(rt: HostRuntime) -> Result<(), Fail> {
    let words = words_of(rt.alloc(), "check")?;
    let mut text = Vec::from_slice(rt.alloc(), ANSWERS)?;
    text.extend_from_slice(b"eliminate 1 2,0,1/1,0,2 left 1 0,0,0 1:1,2:1\nend\n")?;
    for (read, write, status, out) in [
        (1, 0, 3, b"".as_slice()),
        (0, 1, 4, b""),
        (0, 0, 0, b"valid\n"),
    ] {
        let mut source = MemSource::new(rt.alloc(), text.as_slice(), 100, &[read])?;
        let mut sink = MemSink::new(rt.alloc(), 64, &[write])?;
        assert_eq!(rt;
            plain_command(rt.alloc(), words.as_slice(), &mut source, &mut sink),
            status
        );
        assert!(rt; sink.bytes() == out);
    }
    Ok(())
}

/// Expects that the words are those of no command.
fn expect_usage(rt: &impl Abort, alloc: Global, words: &[String]) -> Result<(), Fail> {
    let mut source = QuietSource::new(alloc, b"")?;
    let mut sink = QuietSink::new(alloc, 256)?;
    assert_eq!(rt; plain_command(alloc, words, &mut source, &mut sink), 2);
    assert!(rt; sink.bytes() == USAGE);
    Ok(())
}

#[test]
fn other_words_are_usage(rt: HostRuntime) -> Result<(), Fail> {
    let words = [
        format!(in rt.alloc(); "check")?,
        format!(in rt.alloc(); "check")?,
    ];
    for count in [0, 2] {
        expect_usage(&rt, rt.alloc(), &words[..count])?;
    }
    for word in [
        "", "Check", "check ", "Migrate", "migrate ", "--help", "Rank", "sample", "run", "serve",
    ] {
        let words = [format!(in rt.alloc(); "{word}")?];
        expect_usage(&rt, rt.alloc(), &words)?;
    }
    Ok(())
}
