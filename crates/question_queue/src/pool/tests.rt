ghost use Rattle.std.specs.Prelude.{◌≡◌, ◌≤◌, length};

use super::*;
use std::test::Fail;

/// The first classes, as marks come and go.
#[test]
fn firsts(rt: HostRuntime) -> Result<(), Fail> {
    let mut pool = Pool::new(rt.alloc(), 3)?;
    assert_eq!(rt; pool.first_unranked(), Some(1));
    assert_eq!(rt; pool.first_due(), Some(1));
    pool.mark_asked(1);
    assert_eq!(rt; pool.first_unranked(), Some(1));
    assert_eq!(rt; pool.first_due(), Some(2));
    pool.mark_ranked(2);
    assert_eq!(rt; pool.first_due(), Some(3));
    pool.mark_ranked(1);
    pool.mark_ranked(3);
    assert_eq!(rt; pool.first_unranked(), None);
    assert_eq!(rt; pool.first_due(), None);
    pool.unmark_ranked(1);
    assert_eq!(rt; pool.first_unranked(), Some(1));
    assert_eq!(rt; pool.first_due(), None);
    pool.unmark_ranked(2);
    assert_eq!(rt; pool.first_due(), Some(2));
    Ok(())
}

/// Jobs at two versions, and after a ranking was taken back.
#[test]
fn jobs(rt: HostRuntime) -> Result<(), Fail> {
    let mut pool = Pool::new(rt.alloc(), 3)?;
    assert_eq!(rt; pool.next_job(0), Some(1));
    pool.mark_ranked(2);
    assert_eq!(rt; pool.next_job(0), Some(3));
    assert_eq!(rt; pool.next_job(0), None);
    pool.unmark_ranked(2);
    assert_eq!(rt; pool.next_job(0), Some(2));
    assert_eq!(rt; pool.next_job(1), Some(1));
    assert_eq!(rt; pool.next_job(1), Some(2));
    Ok(())
}

/// Vectors, and how many answers they are known to meet.
#[test]
fn vectors(rt: HostRuntime) -> Result<(), Fail> {
    let plus = Vector::of(&[2, 1]);
    let minus = Vector::of(&[1, 2]);
    let mut pool = Pool::new(rt.alloc(), 2)?;
    assert!(rt; pool.kept(1).is_none());
    assert_eq!(rt; pool.met(1), 0);
    pool.keep_met(1, 7, plus, minus);
    pool.keep(2, minus, plus);
    assert!(rt; pool.kept(1) == Some((plus, minus)));
    assert!(rt; pool.kept(2) == Some((minus, plus)));
    assert_eq!(rt; pool.met(1), 7);
    pool.cut_met(9);
    assert_eq!(rt; pool.met(1), 7);
    pool.cut_met(5);
    assert_eq!(rt; pool.met(1), 5);
    assert_eq!(rt; pool.met(2), 0);
    Ok(())
}

// Marks that are counted.
fn counted<L: Ledger>(pool: &mut Pool, blank: Blank)
    requires ledger { (blank.name ≡ L.name) × (blank.parts ≡ L.parts) × (1 ≤ blank.parts) }
    requires two { 2 ≤ length pool.old.marks }
{
    let mut steps = Steps::<L>::new(blank);
    pool.mark_asked_in(1, &mut steps);
    pool.mark_ranked_in(2, &mut steps);
}

/// Marks that are counted are the marks that are not.
#[test]
fn counted_marks(rt: HostRuntime) -> Result<(), Fail> {
    let mut pool = Pool::new(rt.alloc(), 2)?;
    counted::<Brand>(&mut pool, Blank::new(1));
    assert_eq!(rt; pool.first_unranked(), Some(1));
    assert_eq!(rt; pool.first_due(), None);
    Ok(())
}
