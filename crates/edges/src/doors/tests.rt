//! A door over memory.
use super::*;
use std::test::Fail;

/// How many connections a door gives before it fails.
fn count_accepted<D: Door>(door: &mut D) -> u32
where
    D::In: Drop,
    D::Out: Drop,
{
    for count in 0..10 {
        if door.accept().is_err() {
            return count;
        }
    }
    10
}

#[test]
fn ends_until_none_is_left(rt: HostRuntime) -> Result<(), Fail> {
    let mut ends = DoorEnds::new(rt.alloc());
    for _ in 0..2 {
        let source = MemSource::new(rt.alloc(), b"one", 3, &[])?;
        let sink = MemSink::new(rt.alloc(), 8, &[])?;
        ends.push(source, sink)?;
    }
    let mut door = MemDoor::new(ends);
    assert!(rt; door.listen(7).is_ok());
    assert_eq!(rt; count_accepted(&mut door), 2);
    Ok(())
}
