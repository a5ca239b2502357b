//! Sources and sinks that fail, give little or have little room, and lines over them.
ghost use Rattle.std.specs.Prelude.{◌≡◌, length, IfOk, IsTrue, false};
ghost use Rattle.edges.specs.Faults.{HasRisen};

use crate::standard_ends::{read_some, write_some};
use crate::{
    Failed, LineGot, Lines, MemSink, MemSource, NoMemory, QuietSink, QuietSource, Rest, Sink,
    Source, StdSink, StdSource, Text,
};
use std::alloc::Global;
use std::io::{Error, ErrorKind, Read, Write};
use std::process::Abort;
use std::test::Fail;

/// Reads all that a source has, and compares each answer and the line shown.
fn expect_lines<S: Source>(
    rt: &impl Abort,
    lines: &mut Lines,
    source: &mut S,
    want: &[(LineGot, &[u8])],
) {
    for (got, line) in want {
        let answer = lines.next_line(source);
        assert!(rt; answer == *got, "{answer:?}, not {got:?}");
        assert!(rt; lines.line() == *line);
    }
}

#[test]
fn pieces_of_any_size_give_the_same_lines(rt: HostRuntime) -> Result<(), Fail> {
    let text = b"one\n\nlonger line\nlast";
    for piece in [1, 7, 4_096] {
        let mut source = MemSource::new(rt.alloc(), text, piece.max(1), &[])?;
        let mut lines = Lines::reserve(rt.alloc(), 11)?;
        let want: [(LineGot, &[u8]); 5] = [
            (LineGot::Line, b"one"),
            (LineGot::Line, b""),
            (LineGot::Line, b"longer line"),
            (LineGot::Piece, b"last"),
            (LineGot::End, b""),
        ];
        expect_lines(&rt, &mut lines, &mut source, &want);
    }
    Ok(())
}

#[test]
fn a_line_is_too_long_from_its_first_byte_over(rt: HostRuntime) -> Result<(), Fail> {
    let table: [(&[u8], LineGot, &[u8]); 5] = [
        (b"four\n", LineGot::Line, b"four"),
        (b"fives\n", LineGot::TooLong, b""),
        (b"fives", LineGot::TooLong, b""),
        (b"four", LineGot::Piece, b"four"),
        (b"", LineGot::End, b""),
    ];
    for (text, got, line) in table {
        // The sixth call fails, so an answer that waits for a sixth byte is a fault.
        let mut source = MemSource::new(rt.alloc(), text, 1, &[6])?;
        let mut lines = Lines::reserve(rt.alloc(), 4)?;
        expect_lines(&rt, &mut lines, &mut source, &[(got, line)]);
    }
    Ok(())
}

#[test]
fn a_failing_call_loses_no_byte(rt: HostRuntime) -> Result<(), Fail> {
    let mut source = MemSource::new(rt.alloc(), b"first\nsecond\n", 4, &[2, 4])?;
    let mut lines = Lines::reserve(rt.alloc(), 6)?;
    let want: [(LineGot, &[u8]); 5] = [
        (LineGot::ReadFault, b""),
        (LineGot::Line, b"first"),
        (LineGot::ReadFault, b""),
        (LineGot::Line, b"second"),
        (LineGot::End, b""),
    ];
    expect_lines(&rt, &mut lines, &mut source, &want);
    let mut quiet = QuietSource::new(rt.alloc(), b"third\n")?;
    expect_lines(&rt, &mut lines, &mut quiet, &[(LineGot::Line, b"third")]);
    Ok(())
}

#[test]
fn the_rest_is_what_a_reader_kept_and_then_its_source(rt: HostRuntime) -> Result<(), Fail> {
    let mut source = MemSource::new(rt.alloc(), b"first\nsecond", 8, &[2])?;
    let mut lines = Lines::reserve(rt.alloc(), 6)?;
    expect_lines(&rt, &mut lines, &mut source, &[(LineGot::Line, b"first")]);
    let mut rest = Rest::of(&mut lines, &mut source);
    let pieces: [(Result<usize, Failed>, &[u8]); 4] = [
        (Ok(2), b"se"),
        (Err(Failed), b""),
        (Ok(4), b"cond"),
        (Ok(0), b""),
    ];
    for (taken, bytes) in pieces {
        let mut buf = [0; 8];
        assert_eq!(rt; rest.take(&mut buf), taken);
        assert!(rt; buf.starts_with(bytes));
    }
    Ok(())
}

/// A text of eight bytes.
fn eight_bytes(alloc: Global) -> Result<Text, NoMemory>
    ensures { IfOk result (λ text. length text.bytes ≡ 8) }
{
    let mut text = Text::reserve(alloc, 9)?;
    text.add(b"four");
    text.add(b"more");
    Ok(text)
}

#[test]
fn a_text_goes_out_as_far_as_there_is_room(rt: HostRuntime) -> Result<(), Fail> {
    let table: [(usize, &[u32], bool, &[u8]); 4] = [
        (8, &[], true, b"fourmore"),
        (5, &[], false, b"fourm"),
        (8, &[1], false, b""),
        (0, &[], false, b""),
    ];
    for (room, fails, is_written, kept) in table {
        let mut text = eight_bytes(rt.alloc())?;
        assert!(rt; text.free() == 1);
        let mut sink = MemSink::new(rt.alloc(), room, fails)?;
        assert!(rt; text.put_all(&mut sink).is_ok() == is_written);
        assert!(rt; sink.bytes() == kept);
        assert!(rt; text.bytes().is_empty());
    }
    let mut text = eight_bytes(rt.alloc())?;
    let mut quiet = QuietSink::new(rt.alloc(), 5)?;
    assert!(rt; text.put_all(&mut quiet).is_ok());
    assert!(rt; quiet.bytes() == b"fourm".as_slice());
    assert!(rt; quiet.dropped() == 3);
    Ok(())
}

/// An end of the system whose calls fail `times` times before it gives or takes a byte.
#[derive(Drop)]
struct Failing {
    times: u32,
    kind: ErrorKind,
}

impl Failing {
    fn call(&mut self) -> std::io::Result<usize>
        ensures { IfOk result (λ n. n ≡ 1) }
    {
        if self.times == 0 {
            return Ok(1);
        }
        self.times -= 1;
        Err(Error::new(self.kind, "no byte"))
    }
}

impl Read for Failing {
    fn read(&mut self, buf: &mut [u8]) -> std::io::Result<usize> {
        if buf.is_empty() {
            return Ok(0);
        }
        self.call()
    }
}

impl Write for Failing {
    fn write(&mut self, buf: &[u8]) -> std::io::Result<usize> {
        if buf.is_empty() {
            return Ok(0);
        }
        self.call()
    }

    fn flush(&mut self) -> std::io::Result<()> {
        Ok(())
    }
}

#[test]
fn an_interrupted_call_is_made_again_a_thousand_times_and_no_other(rt: HostRuntime) {
    let table = [
        (ErrorKind::Interrupted, 0, Ok(1)),
        (ErrorKind::Interrupted, 1_000, Ok(1)),
        (ErrorKind::Interrupted, 1_001, Err(Failed)),
        (ErrorKind::BrokenPipe, 1, Err(Failed)),
        (ErrorKind::WouldBlock, 1, Err(Failed)),
    ];
    for (kind, times, wanted) in table {
        let mut buf = [0u8; 4];
        let read = read_some(&mut Failing { times, kind }, &mut buf);
        assert!(rt; read == wanted);
        let written = write_some(&mut Failing { times, kind }, &buf);
        assert!(rt; written == wanted);
    }
    let never = ErrorKind::Other;
    let written = write_some(
        &mut Failing {
            times: 0,
            kind: never,
        },
        &[],
    );
    assert!(rt; written == Err(Failed));
}

#[test]
fn the_standard_ends_can_be_called(rt: HostRuntime) -> Result<(), Fail> {
    let mut source = StdSource::new(rt.stdin());
    let mut buf = [0u8; 4];
    if let Ok(n) = source.take(&mut buf) {
        assert!(rt; n <= 4);
    }
    let mut text = Text::reserve(rt.alloc(), 2)?;
    text.add(b".\n");
    let mut sink = StdSink::new(rt.stdout());
    assert!(rt; text.put_all(&mut sink).is_ok());
    Ok(())
}

/// Whether a call of the source fails.
fn fails_to_give<S: Source>(source: &mut S) -> bool
    ensures { IsTrue result → HasRisen (S.faults source.old) (S.faults source.new) }
{
    let mut byte = [0u8; 1];
    source.take(&mut byte).is_err()
}

/// Whether a call of the sink fails.
fn fails_to_take<K: Sink>(sink: &mut K) -> bool
    ensures { IsTrue result → HasRisen (K.faults sink.old) (K.faults sink.new) }
{
    sink.put(b"x").is_err()
}

/// A quiet end's count of faults can't rise: what a generic caller says of its failures shows
/// that there are none.
fn quiet_ends_fail(source: &mut QuietSource, sink: &mut QuietSink) -> bool
    ensures { result ≡ false }
{
    fails_to_give(source) || fails_to_take(sink)
}

#[test]
fn quiet_ends_never_fail(rt: HostRuntime) -> Result<(), Fail> {
    let mut source = QuietSource::new(rt.alloc(), b"x")?;
    let mut sink = QuietSink::new(rt.alloc(), 1)?;
    assert!(rt; !quiet_ends_fail(&mut source, &mut sink));
    Ok(())
}
