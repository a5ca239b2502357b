//! Connections over TCP. What they give and take is trusted; no clause knows the content.
ghost use Rattle.std.specs.Prelude.{◌≡◌, None};

use crate::doors::Door;
use crate::ends::{Failed, Sink, Source};
use crate::standard_ends::{MOST_CALLS, read_some, write_some};
use std::io::ErrorKind;
use std::marker::Model;
use std::net::{Ipv4Addr, Net, TcpListener, TcpStream};
use std::time::{Clock, Duration};
use std::{io, thread};

/// How many milliseconds a door waits before it accepts again, where the system has no file descriptor or memory left for a
/// connection.
const PAUSE: u64 = 100;

// By which numbers Linux says so: of the process, of the system, memory of the network, memory.
const EMFILE: i32 = 24;

const ENFILE: i32 = 23;

const ENOBUFS: i32 = 105;

const ENOMEM: i32 = 12;

/// A connection, as the source of what the peer sends or as the sink of what it is sent.
#[derive(Drop)]
pub struct TcpEnd {
    stream: TcpStream,
    faults: u64,
}

// Contracts see the count of faults.
impl Model for TcpEnd {
    ghost use Rattle.std.specs.Prelude.{ℕ};

    ghost Value = { ℕ };

    ghost view = { λ end. end.faults };
}

impl TcpEnd {
    /// An end of the connection, of which no call failed so far.
    pub fn new(stream: TcpStream) -> TcpEnd
        ensures { result ≡ 0 }
    {
        TcpEnd { stream, faults: 0 }
    }
}

impl Source for TcpEnd {
    ghost left = { λ _. None };

    ghost faults = { λ end. end };

    fn take(&mut self, buf: &mut [u8]) -> Result<usize, Failed> {
        let taken = read_some(&mut self.stream, buf);
        if taken.is_err() {
            self.faults = self.faults.saturating_add(1);
        }
        taken
    }
}

impl Sink for TcpEnd {
    ghost written = { λ _. None };

    ghost faults = { λ end. end };

    fn put(&mut self, buf: &[u8]) -> Result<usize, Failed> {
        let put = write_some(&mut self.stream, buf);
        if put.is_err() {
            self.faults = self.faults.saturating_add(1);
        }
        put
    }
}

/// A port of this machine, reached from this machine only. Where the system has nothing left for one more connection, those that
/// come wait until others have ended.
#[derive(Drop)]
pub struct TcpDoor<'a, R: Net<Listener = TcpListener, Stream = TcpStream> + Clock> {
    rt: &'a R,
    listener: Option<TcpListener>,
    faults: u64,
}

impl<'a, R: Net<Listener = TcpListener, Stream = TcpStream> + Clock> TcpDoor<'a, R> {
    /// A door that doesn't listen yet, of which no call failed so far.
    pub fn new(rt: &'a R) -> TcpDoor<'a, R>
        ensures { result.faults ≡ 0 }
    {
        TcpDoor {
            rt,
            listener: None,
            faults: 0,
        }
    }
}

impl<'a, R: Net<Listener = TcpListener, Stream = TcpStream> + Clock> Door for TcpDoor<'a, R> {
    type In = TcpEnd;

    type Out = TcpEnd;

    ghost ends = { λ _. None };

    ghost faults = { λ door. door.faults };

    fn listen(&mut self, port: u16) -> Result<(), Failed> {
        match TcpListener::bind(self.rt, (Ipv4Addr::LOCALHOST, port)) {
            Ok(listener) => {
                self.listener = Some(listener);
                Ok(())
            }
            Err(_) => {
                self.faults = self.faults.saturating_add(1);
                Err(Failed)
            }
        }
    }

    fn accept(&mut self) -> Result<(TcpEnd, TcpEnd), Failed> {
        let ends = match &self.listener {
            Some(listener) => ends_of_next(self.rt, listener),
            None => Err(Failed),
        };
        if ends.is_err() {
            self.faults = self.faults.saturating_add(1);
        }
        ends
    }
}

/// Both ends of the next connection. Waits, while the system has nothing left for it.
fn ends_of_next(clock: &impl Clock, listener: &TcpListener) -> Result<(TcpEnd, TcpEnd), Failed> {
    for _ in 0..u64::MAX {
        match try_next(listener) {
            Ok(ends) => return Ok(ends),
            Err(error) if is_exhaustion(&error) => {
                thread::sleep(clock, Duration::from_millis(PAUSE));
            },
            Err(_) => return Err(Failed),
        }
    }
    Err(Failed)
}

/// Both ends of the next connection. A call that was interrupted, or whose peer had gone, is made again.
///
/// # Errors
///
/// What the last call says. A connection that was accepted is closed then.
fn try_next(listener: &TcpListener) -> io::Result<(TcpEnd, TcpEnd)> {
    for _ in 0..MOST_CALLS {
        match listener.accept() {
            Ok((stream, _)) => return both_ends(stream),
            Err(error) => match error.kind() {
                ErrorKind::Interrupted | ErrorKind::ConnectionAborted => {}
                _ => return Err(error),
            },
        }
    }
    Err(io::Error::from(ErrorKind::Interrupted))
}

/// Whether the system had nothing left for a connection; there may be, once another has ended.
fn is_exhaustion(error: &io::Error) -> bool {
    matches!(
        error.raw_os_error(),
        Some(EMFILE | ENFILE | ENOBUFS | ENOMEM)
    )
}

/// Both ends of a connection. Each reply is sent at once, and none waits for more to be sent with it; where the system refuses
/// that, the connection works all the same.
fn both_ends(stream: TcpStream) -> io::Result<(TcpEnd, TcpEnd)> {
    let _at_once = stream.set_nodelay(true);
    let out = stream.try_clone()?;
    Ok((TcpEnd::new(stream), TcpEnd::new(out)))
}

#[cfg(test)]
mod tests;
