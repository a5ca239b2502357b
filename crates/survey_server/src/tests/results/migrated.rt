//! Results that are copied into the second format.
use super::{
    ASKED_AGAIN, ASKED_AGAIN_CHANGED, COMPLETE, COMPLETE_CHANGED, COMPLETE_FORGED, FORMS, PARTS,
    UNFINISHED, WITHDRAWN, WITHDRAWN_CHANGED, with_line,
};
use crate::plain_command;
use edges::{MemSink, MemSource};
use std::alloc::{AllocError, Global};
use std::process::Abort;
use std::test::Fail;

/// The first line of a copy.
const HEADING: &[u8] = b"paprika result 2\n";

/// How many reads find the end of `COMPLETE`, by pieces of one byte.
const READS: u32 = 347;

/// Whole files that aren't copied, with what is written of them.
const REFUSED: [(&[u8], &[u8]); 9] = [
    (b"", b"unfinished 1\n"),
    (b"paprika result 1", b"unfinished 1\n"),
    (b"paprika result 1\n", b"unfinished 2\n"),
    (b"paprika result 3\n", b"invalid 1 form\n"),
    // Cut.
    (b"paprika claims 1", b"unfinished 1\n"),
    // `check` calls this one unfinished.
    (b"paprika claims 1\n", b"invalid 1 form\n"),
    // And this one valid.
    (
        b"paprika claims 1\nmodel 2,2,2 degree 3\nanswer 2,1,0/1,2,0 left\nend\n",
        b"invalid 1 form\n",
    ),
    // The first line fails before the second.
    (
        b"paprika claims 1\nmodel 2,1,2 degree 3\n",
        b"invalid 1 form\n",
    ),
    (
        b"paprika result 2\nmodel 2,1,2 degree 3\n",
        b"invalid 2 model\n",
    ),
];

/// Copies from a source to a sink, and compares the status and what is written.
fn expect_migration(
    rt: &impl Abort,
    alloc: Global,
    source: MemSource,
    sink: MemSink,
    status: u8,
    want: &[u8],
) -> Result<(), Fail> {
    let words = [format!(in alloc; "migrate")?];
    let mut source = source;
    let mut sink = sink;
    assert_eq!(rt;
        plain_command(alloc, &words, &mut source, &mut sink),
        status
    );
    assert!(rt; sink.bytes() == want);
    Ok(())
}

/// Copies a text that comes in pieces.
fn expect_copy(
    rt: &impl Abort,
    alloc: Global,
    text: &[u8],
    status: u8,
    want: &[u8],
) -> Result<(), Fail> {
    for piece in [1, 7, 4_096] {
        let source = MemSource::new(alloc, text, piece, &[])?;
        let sink = MemSink::new(alloc, 4_096, &[])?;
        expect_migration(rt, alloc, source, sink, status, want)?;
    }
    Ok(())
}

#[test]
fn migrate(rt: HostRuntime) -> Result<(), Fail> {
    // The lines of each kind stay; a file that is of the second format is its own copy.
    for (file, number, line) in [
        (&COMPLETE[..], 11, b"end\n".as_slice()),
        (&COMPLETE[..], 11, b"end"),
        (&WITHDRAWN[..], 12, b"end\n"),
        (&WITHDRAWN[..], 12, b"end"),
        (&ASKED_AGAIN[..], 1, HEADING),
    ] {
        let text = with_line(rt.alloc(), file, number, line)?;
        let copy = with_line(rt.alloc(), file, 1, HEADING)?;
        expect_copy(&rt, rt.alloc(), text.as_slice(), 0, copy.as_slice())?;
    }
    for (text, want) in REFUSED {
        expect_copy(&rt, rt.alloc(), text, 1, want)?;
    }
    Ok(())
}

/// A valid text with the heading of a copy.
fn copy_of(alloc: Global, text: &[u8]) -> Result<Vec<u8>, AllocError> {
    let mut copy = Vec::from_slice(alloc, HEADING)?;
    for byte in text.iter().skip(HEADING.len()) {
        copy.push(*byte)?;
    }
    if !text.ends_with(b"\n") {
        copy.push(b'\n')?;
    }
    Ok(copy)
}

/// Copies a text of which `check` writes this line.
fn expect_as_checked(
    rt: &impl Abort,
    alloc: Global,
    text: &[u8],
    checked: &[u8],
) -> Result<(), Fail> {
    if text.starts_with(b"paprika claims 1\n") {
        return expect_copy(rt, alloc, text, 1, b"invalid 1 form\n");
    }
    if checked.starts_with(b"valid") {
        let copy = copy_of(alloc, text)?;
        return expect_copy(rt, alloc, text, 0, copy.as_slice());
    }
    expect_copy(rt, alloc, text, 1, checked)
}

/// Copies a base file with each of the changes.
fn expect_changes_copied(
    rt: &impl Abort,
    alloc: Global,
    file: &[&[u8]],
    changes: &[(usize, &[u8], &[u8])],
) -> Result<(), Fail> {
    for change in changes {
        let text = with_line(alloc, file, change.0, change.1)?;
        expect_as_checked(rt, alloc, text.as_slice(), change.2)?;
    }
    Ok(())
}

#[test]
fn what_check_refuses_is_not_migrated(rt: HostRuntime) -> Result<(), Fail> {
    for changes in [
        &COMPLETE_CHANGED[..],
        &COMPLETE_FORGED[..],
        &UNFINISHED[..],
        &FORMS[..],
        &PARTS[..],
    ] {
        expect_changes_copied(&rt, rt.alloc(), &COMPLETE, changes)?;
    }
    expect_changes_copied(&rt, rt.alloc(), &WITHDRAWN, &WITHDRAWN_CHANGED)?;
    expect_changes_copied(&rt, rt.alloc(), &ASKED_AGAIN, &ASKED_AGAIN_CHANGED)
}

#[test]
fn nothing_is_migrated_where_a_read_fails(rt: HostRuntime) -> Result<(), Fail> {
    let text = with_line(rt.alloc(), &COMPLETE, 11, b"end\n")?;
    let copy = with_line(rt.alloc(), &COMPLETE, 1, HEADING)?;
    for call in 1..=READS {
        let source = MemSource::new(rt.alloc(), text.as_slice(), 1, &[call])?;
        let sink = MemSink::new(rt.alloc(), 4_096, &[])?;
        expect_migration(&rt, rt.alloc(), source, sink, 3, b"")?;
    }
    let source = MemSource::new(rt.alloc(), text.as_slice(), 1, &[READS + 1])?;
    let sink = MemSink::new(rt.alloc(), 4_096, &[])?;
    expect_migration(&rt, rt.alloc(), source, sink, 0, copy.as_slice())
}

#[test]
fn a_prefix_is_migrated_where_a_write_fails(rt: HostRuntime) -> Result<(), Fail> {
    let text = with_line(rt.alloc(), &COMPLETE, 11, b"end\n")?;
    let copy = with_line(rt.alloc(), &COMPLETE, 1, HEADING)?;
    // The sink takes as much as it has room for, and then fails.
    for room in 0..copy.len() {
        let source = MemSource::new(rt.alloc(), text.as_slice(), 4_096, &[])?;
        let sink = MemSink::new(rt.alloc(), room, &[])?;
        expect_migration(&rt, rt.alloc(), source, sink, 4, &copy[..room])?;
    }
    let source = MemSource::new(rt.alloc(), text.as_slice(), 4_096, &[])?;
    let sink = MemSink::new(rt.alloc(), 4_096, &[1])?;
    expect_migration(&rt, rt.alloc(), source, sink, 4, b"")
}
