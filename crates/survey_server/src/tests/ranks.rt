//! Tables to be ranked, and what is refused of them.
use crate::plain_command;
use edges::{MemSink, MemSource};
use std::alloc::Global;
use std::process::Abort;
use std::test::Fail;

/// A definition of three criteria of two levels.
const THREE: &[u8] =
    b"{\"criteria\":[{\"levels\":[\"high\",\"low\"],\"name\":\"price\"},{\"levels\":[\"slow\",\"fast\"],\"name\":\"speed\"},{\"levels\":[\"loud\",\"quiet\"],\"name\":\"noise\"}],\"degree\":3,\"respondents\":[{\"code\":\"k1\",\"name\":\"ana\"}]}\n";

/// Values of it, with members that aren't read.
const VALUES: &[u8] =
    b"{\"values\":{\"levels\":[[\"0\",\"3\"],[\"0\",\"2\"],[\"0\",\"1\"]],\"vector\":[\"3\",\"2\",\"1\"],\"weights\":[5000,3333,1667]}}\n";

/// Tables, with what `rank` writes of them.
const TABLES: [(&[u8], &[u8]); 24] = [
    (
        b"name,price,speed,noise\nA,low,slow,loud\nB,high,fast,quiet\nC,low,fast,loud\n",
        b"rank,name,value\n1,C,5\n2,A,3\n2,B,3\n",
    ),
    (
        b"name,price,speed,noise\nA,cheap,slow,loud\nB,high,fast,quiet\nC,low,fast,loud\n",
        b"rank level 2 2\n",
    ),
    (
        b"name,price,speed,noise\nA,low,slow,loud\nB,high,fast\nC,low,fast,loud\n",
        b"rank row 3\n",
    ),
    // A level of another criterion is none of this one.
    (
        b"name,price,speed,noise\nA,low,low,loud\n",
        b"rank level 2 3\n",
    ),
    (
        b"name,price,speed,noise\nA,low,slow,fast\n",
        b"rank level 2 4\n",
    ),
    // Fields are counted before levels are looked at, and the first record that fails counts.
    (b"name,price,speed,noise\nA,cheap,slow\n", b"rank row 2\n"),
    (
        b"name,price,speed,noise\nA,low,slow,loud,x\n",
        b"rank row 2\n",
    ),
    (
        b"name,price,speed,noise\nA,low,slow,Loud\nB\n",
        b"rank level 2 4\n",
    ),
    (b"name,price,speed,noise\nA\n", b"rank row 2\n"),
    // Headers.
    (b"", b"rank header\n"),
    (b"\n\n", b"rank header\n"),
    (b"name,price,speed\n", b"rank header\n"),
    (b"name,price,speed,noise,\n", b"rank header\n"),
    (b"Name,price,speed,noise\n", b"rank header\n"),
    (b"name,speed,price,noise\n", b"rank header\n"),
    (b"name,price,speed,noise \n", b"rank header\n"),
    (b"name,price,speed,noise\n", b"rank,name,value\n"),
    (b"name,price,speed,noise", b"rank,name,value\n"),
    // Quotes, line ends of two bytes, a byte order mark, empty lines, and a last record without its line end.
    (
        b"\"name\",\"price\",speed,noise\r\n\"A, \"\"B\"\"\",\"low\",slow,loud\r\n",
        b"rank,name,value\n1,\"A, \"\"B\"\"\",3\n",
    ),
    (
        b"\xEF\xBB\xBFname,price,speed,noise\nA,low,fast,quiet\n",
        b"rank,name,value\n1,A,6\n",
    ),
    (
        b"\nname,price,speed,noise\n\nA,high,slow,loud",
        b"rank,name,value\n1,A,0\n",
    ),
    (
        b"name,price,speed,noise\n\"two\nlines\",low,fast,quiet\n,low,fast,quiet\n",
        b"rank,name,value\n1,\"two\nlines\",6\n1,,6\n",
    ),
    (
        b"name,price,speed,noise\nA, low,slow,loud\n",
        b"rank level 2 2\n",
    ),
    // Equal worths share a rank, and the next rank counts all before it.
    (
        b"name,price,speed,noise\nA,high,slow,loud\nB,high,slow,quiet\nC,high,slow,quiet\nA,high,slow,loud\nD,high,fast,loud\n",
        b"rank,name,value\n1,D,2\n2,B,1\n2,C,1\n4,A,0\n4,A,0\n",
    ),
];

/// Inputs, with what `rank` writes of them.
const INPUTS: [(&[u8], &[u8]); 12] = [
    (b"", b"definition form\n"),
    (b"{}", b"definition form\n"),
    (
        b"{\"criteria\":[],\"degree\":1,\"respondents\":[]}\n",
        b"definition criteria\n",
    ),
    (
        b"{\"criteria\":[{\"levels\":[\"a\",\"b\"],\"name\":\"p\"},{\"levels\":[\"a\"],\"name\":\"q\"}],\"degree\":1,\"respondents\":[]}\n",
        b"definition levels 2\n",
    ),
    (
        b"{\"criteria\":[{\"levels\":[\"1\",\"2\",\"3\",\"4\",\"5\",\"6\",\"7\",\"8\",\"9\",\"10\",\"11\",\"12\",\"13\"],\"name\":\"p\"},{\"levels\":[\"1\",\"2\",\"3\",\"4\",\"5\",\"6\",\"7\",\"8\",\"9\",\"10\",\"11\",\"12\",\"13\",\"14\"],\"name\":\"q\"}],\"degree\":2,\"respondents\":[]}\n",
        b"definition increments 25\n",
    ),
    (
        b"{\"criteria\":[{\"levels\":[\"a\",\"b\"],\"name\":\"p\"}],\"degree\":2,\"respondents\":[]}\n",
        b"definition degree\n",
    ),
    (
        b"{\"criteria\":[{\"levels\":[\"a\",\"b\"],\"name\":\"p\"}],\"degree\":1,\"respondents\":[]}\n",
        b"definition respondents\n",
    ),
    (
        b"{\"criteria\":[{\"levels\":[\"a\",\"\"],\"name\":\"p\"}],\"degree\":1,\"respondents\":[{\"code\":\"k\",\"name\":\"n\"}]}\n",
        b"definition name\n",
    ),
    (
        b"{\"criteria\":[{\"levels\":[\"a\",\"a\"],\"name\":\"p\"}],\"degree\":1,\"respondents\":[{\"code\":\"k\",\"name\":\"n\"}]}\n",
        b"definition twice\n",
    ),
    (
        b"{\"criteria\":[{\"levels\":[\"a\",\"b\"],\"name\":\"p\"}],\"degree\":1,\"respondents\":[{\"code\":\"k\",\"name\":\"n\"}]}\n",
        b"rank values\n",
    ),
    (
        b"{\"criteria\":[{\"levels\":[\"a\",\"b\"],\"name\":\"p\"}],\"degree\":1,\"respondents\":[{\"code\":\"k\",\"name\":\"n\"}]}\n{\"values\":{\"vector\":[\"0\"]}}\nname,p\n",
        b"rank values\n",
    ),
    (
        b"{\"criteria\":[{\"levels\":[\"a\",\"b\"],\"name\":\"p\"}],\"degree\":1,\"respondents\":[{\"code\":\"k\",\"name\":\"n\"}]}\n{\"values\":{\"vector\":[\"7\"]}}",
        b"rank header\n",
    ),
];

/// Ranks a text that comes in pieces, and compares the status and what is written.
fn expect_rank(
    rt: &impl Abort,
    alloc: Global,
    text: &[u8],
    piece: usize,
    want: &[u8],
) -> Result<(), Fail> {
    let words = [format!(in alloc; "rank")?];
    let mut source = MemSource::new(alloc, text, piece.max(1), &[])?;
    let mut sink = MemSink::new(alloc, 256, &[])?;
    let status = plain_command(alloc, &words, &mut source, &mut sink);
    assert!(rt; sink.bytes() == want);
    assert_eq!(rt; status, if want.starts_with(b"rank,") { 0 } else { 1 });
    Ok(())
}

/// A table after a definition line and a values line.
fn table_input(alloc: Global, table: &[u8]) -> Result<Vec<u8>, Fail> {
    let mut text = Vec::from_slice(alloc, THREE)?;
    text.extend_from_slice(VALUES)?;
    text.extend_from_slice(table)?;
    Ok(text)
}

#[test]
fn rank_table(rt: HostRuntime) -> Result<(), Fail> {
    for piece in [1, 7, 4_096] {
        for (table, want) in TABLES {
            let text = table_input(rt.alloc(), table)?;
            expect_rank(&rt, rt.alloc(), text.as_slice(), piece, want)?;
        }
    }
    Ok(())
}

#[test]
fn lines_before_a_table_are_refused_in_order(rt: HostRuntime) -> Result<(), Fail> {
    for piece in [1, 7, 4_096] {
        for (text, want) in INPUTS {
            expect_rank(&rt, rt.alloc(), text, piece, want)?;
        }
    }
    Ok(())
}

/// A header of 23 bytes, and then `lines` empty lines.
fn long_table(alloc: Global, lines: usize) -> Result<Vec<u8>, Fail> {
    let mut table = Vec::from_slice(alloc, b"name,price,speed,noise\n")?;
    let empty = vec![in alloc; b'\n'; lines]?;
    table.extend_from_slice(empty.as_slice())?;
    Ok(table)
}

#[test]
fn table_is_too_long_from_byte_1048577_on(rt: HostRuntime) -> Result<(), Fail> {
    for (lines, want) in [
        (1_048_553, b"rank,name,value\n".as_slice()),
        (1_048_554, b"rank long\n"),
    ] {
        let table = long_table(rt.alloc(), lines)?;
        let text = table_input(rt.alloc(), table.as_slice())?;
        expect_rank(&rt, rt.alloc(), text.as_slice(), 65_536, want)?;
    }
    Ok(())
}

#[test]
fn lines_are_too_long_by_their_bytes(rt: HostRuntime) -> Result<(), Fail> {
    let long = vec![in rt.alloc(); b'a'; 65_537]?;
    expect_rank(
        &rt,
        rt.alloc(),
        &long[..65_536],
        4_096,
        b"definition form\n",
    )?;
    expect_rank(
        &rt,
        rt.alloc(),
        long.as_slice(),
        4_096,
        b"definition long\n",
    )
}

#[test]
fn ends_that_fail_end_a_ranking(rt: HostRuntime) -> Result<(), Fail> {
    let words = [format!(in rt.alloc(); "rank")?];
    let text = table_input(rt.alloc(), b"name,price,speed,noise\n")?;
    for (reads, writes, want) in [([1], [9], 3), ([2], [9], 3), ([3], [9], 3), ([9], [1], 4)] {
        let mut source = MemSource::new(rt.alloc(), text.as_slice(), 300, &reads)?;
        let mut sink = MemSink::new(rt.alloc(), 64, &writes)?;
        assert_eq!(rt;
            plain_command(rt.alloc(), &words, &mut source, &mut sink),
            want
        );
        assert!(rt; sink.bytes().is_empty());
    }
    Ok(())
}
