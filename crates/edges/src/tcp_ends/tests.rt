use super::*;
use std::io::{Read, Write};
use std::test::Fail;

/// The port at which a door listens; the system chose it.
fn port_of(door: &TcpDoor<'_, HostRuntime>) -> io::Result<u16> {
    match &door.listener {
        Some(listener) => Ok(listener.local_addr()?.port()),
        None => Err(io::Error::from(ErrorKind::NotConnected)),
    }
}

/// What the peer sends comes in at the one end, what goes out at the other comes to the peer, and a peer that is gone is the end of
/// input.
#[test]
fn a_connection_carries_both_ways(rt: HostRuntime) -> Result<(), Fail> {
    let mut door = TcpDoor::new(&rt);
    assert!(rt; door.accept().is_err());
    door.listen(0)?;
    let mut peer = TcpStream::connect(&rt, (Ipv4Addr::LOCALHOST, port_of(&door)?))?;
    peer.write_all(b"question")?;
    let (mut source, mut sink) = door.accept()?;
    let mut buf = [0; 64];
    let taken = source.take(&mut buf)?;
    assert_eq!(rt; &buf[..taken], b"question".as_slice());
    let put = sink.put(b"reply")?;
    assert_eq!(rt; put, 5);
    let mut got = [0; 5];
    peer.read_exact(&mut got)?;
    assert_eq!(rt; got.as_slice(), b"reply".as_slice());
    drop(peer);
    assert_eq!(rt; source.take(&mut buf)?, 0);
    Ok(())
}

/// A port that is taken is a fault of the door.
#[test]
fn a_port_in_use_is_refused(rt: HostRuntime) -> Result<(), Fail> {
    let mut first = TcpDoor::new(&rt);
    first.listen(0)?;
    let mut second = TcpDoor::new(&rt);
    assert!(rt; second.listen(port_of(&first)?).is_err());
    assert_eq!(rt; second.faults, 1);
    Ok(())
}
