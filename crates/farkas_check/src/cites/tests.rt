use super::*;
use std::test::Fail;

/// Which lists are cites, and what a list of cites shows.
#[test]
fn lists_of_cites(rt: HostRuntime) -> Result<(), Fail> {
    let first = Cite {
        answer: 1,
        weight: -5,
    };
    let second = Cite {
        answer: 9,
        weight: (1 << 96) - 1,
    };
    let cites = Cites::of(&[first, second]).ok_or("no list of cites")?;
    assert_eq!(rt; cites.len(), 2);
    assert_eq!(rt; cites.cite(2), second);
    assert!(rt; Cites::of(&[second, first]).is_none());
    assert!(rt; Cites::of(&[first, first]).is_none());
    Ok(())
}

/// Cites that no list takes.
#[test]
fn refused_cites(rt: HostRuntime) {
    for (answer, weight) in [(0, 1), (1, 0), (1, 1 << 96), (1, -1 << 96)] {
        assert!(rt; Cites::of(&[Cite { answer, weight }]).is_none());
    }
}
