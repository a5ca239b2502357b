//! Results that are read up to their end line, by `load_result`.
use edges::{LineGot, Lines, MemSource};
use result_file::{
    Checked, Format, Loaded, MAX_LINE, Part, ResultFile, load_result, load_result_after_head,
};
use std::alloc::Global;
use std::process::Abort;
use std::test::Fail;

/// The first lines of a result, up to its second answer.
const TWO_ANSWERS: &[u8] =
    b"paprika result 2\nmodel 2,2,2 degree 3\nissue 1 2,1,0/1,2,0 2,1,1 1,2,1\nissue 1 2,0,1/1,0,2 2,1,1 1,1,2\nissue 1 0,2,1/0,1,2 1,2,1 1,1,2\ncommit 1 1 left 2,1,1 1,2,1 2,1,1\ncommit 1 3 left 3,2,1 3,1,2 3,2,1\n";

/// What follows them, what the result's point is, how many lines were read, and the line after it.
const AFTER_ANSWERS: [(&[u8], &[i128], u32, &[u8]); 6] = [
    (b"end\n", &[3, 2, 1], 8, b""),
    (b"end", &[3, 2, 1], 8, b""),
    (b"end\nend\n", &[3, 2, 1], 8, b"end"),
    (b"end\n\nx\n", &[3, 2, 1], 8, b""),
    // The last answer is withdrawn, then both.
    (b"withdraw 1 2\nend\nx", &[2, 1, 1], 9, b"x"),
    (
        b"withdraw 1 2\nwithdraw 1 1\nend\nx\n",
        &[1, 1, 1],
        10,
        b"x",
    ),
];

/// Texts that are refused after 7 lines of input, with the verdict.
const REFUSED: [(&[u8], Checked); 8] = [
    (b"", Checked::Unfinished { line: 8 }),
    (b"paprika result 1", Checked::Unfinished { line: 8 }),
    (
        b"paprika claims 1\nmodel 2,2,2 degree 3\nend\n",
        Checked::Invalid {
            line: 8,
            part: Part::Form,
        },
    ),
    (
        b"paprika result 3\nend\n",
        Checked::Invalid {
            line: 8,
            part: Part::Form,
        },
    ),
    (
        b"paprika result 1\nmodel 2,1,2 degree 3\nend\n",
        Checked::Invalid {
            line: 9,
            part: Part::Model,
        },
    ),
    (
        b"paprika result 1\nmodel 2,2,2 degree 3\nwithdraw 1 1\nend\n",
        Checked::Invalid {
            line: 10,
            part: Part::Form,
        },
    ),
    (
        b"paprika result 2\nmodel 2,2,2 degree 3\nwithdraw 1 1\nend\n",
        Checked::Invalid {
            line: 10,
            part: Part::Nothing,
        },
    ),
    (
        b"paprika result 2\nmodel 2,2,2 degree 3\nen",
        Checked::Unfinished { line: 10 },
    ),
];

/// Reads one result, and the line after it.
fn load(
    alloc: Global,
    text: &[u8],
    piece: usize,
    fails: &[u32],
) -> Result<(Loaded, Vec<u8>), Fail> {
    let mut source = MemSource::new(alloc, text, piece.max(1), fails)?;
    let mut lines = Lines::reserve(alloc, MAX_LINE)?;
    let loaded = load_result(alloc, &mut lines, 7, &mut source);
    let _got: LineGot = lines.next_line(&mut source);
    Ok((loaded, Vec::from_slice(alloc, lines.line())?))
}

/// Whether the result has this point, and this many lines were read.
fn is_file(file: &ResultFile, point: &[i128], lines: u32) -> bool {
    file.point().as_slice() == point && file.lines() == lines
}

#[test]
fn result_is_read_to_its_end_line(rt: HostRuntime) -> Result<(), Fail> {
    for (after, point, count, next) in AFTER_ANSWERS {
        let mut text = Vec::from_slice(rt.alloc(), TWO_ANSWERS)?;
        text.extend_from_slice(after)?;
        for piece in [1, 7, 4_096] {
            let (loaded, rest) = load(rt.alloc(), text.as_slice(), piece, &[])?;
            match loaded {
                Loaded::File(file) => assert!(rt; is_file(&file, point, count)),
                Loaded::Refused(_) => assert!(rt; false),
            }
            assert!(rt; rest.as_slice() == next);
        }
    }
    Ok(())
}

#[test]
fn other_texts_are_refused_by_line_and_part(rt: HostRuntime) -> Result<(), Fail> {
    for (text, want) in REFUSED {
        for piece in [1, 4_096] {
            match load(rt.alloc(), text, piece, &[])?.0 {
                Loaded::File(_) => assert!(rt; false),
                Loaded::Refused(verdict) => assert_eq!(rt; verdict, want),
            }
        }
    }
    Ok(())
}

#[test]
fn source_fails_at_each_call(rt: HostRuntime) -> Result<(), Fail> {
    let mut text = Vec::from_slice(rt.alloc(), TWO_ANSWERS)?;
    text.extend_from_slice(b"end\n")?;
    // The end line comes with the fifth call.
    for (call, is_read) in [
        (1, false),
        (2, false),
        (3, false),
        (4, false),
        (5, false),
        (6, true),
    ] {
        match load(rt.alloc(), text.as_slice(), 42, &[call])?.0 {
            Loaded::File(_) => assert!(rt; is_read),
            Loaded::Refused(verdict) => {
                assert!(rt; !is_read);
                assert_eq!(rt; verdict, Checked::ReadFault);
            }
        }
    }
    Ok(())
}

#[test]
fn result_after_its_first_line(rt: HostRuntime) -> Result<(), Fail> {
    for (format, line) in [(Format::One, b"form".as_slice()), (Format::Two, b"nothing")] {
        let text = b"model 2,2,2 degree 3\nwithdraw 1 1\nend\n";
        let mut source = MemSource::new(rt.alloc(), text, 7, &[])?;
        let mut lines = Lines::reserve(rt.alloc(), MAX_LINE)?;
        match load_result_after_head(rt.alloc(), &mut lines, 4, &mut source, format) {
            Loaded::Refused(Checked::Invalid { line: 6, part }) => assert!(rt; part.text() == line),
            _ => assert!(rt; false),
        }
    }
    Ok(())
}
