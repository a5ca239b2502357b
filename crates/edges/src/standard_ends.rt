//! Standard input and output. What they give and take is trusted; no clause knows the content.
ghost use Rattle.std.specs.Prelude.{◌≡◌, ◌≤◌, length, take, None, IfOk};

use crate::ends::{Failed, Sink, Source};
use std::io::{ErrorKind, Read, Stdin, Stdout, Write};
use std::marker::Model;

/// How often an interrupted call is made: once, and 1,000 times again.
pub(crate) const MOST_CALLS: u32 = 1_001;

/// Standard input.
#[derive(Drop)]
pub struct StdSource {
    stdin: Stdin,
    faults: u64,
}

// Contracts see the count of faults.
impl Model for StdSource {
    ghost use Rattle.std.specs.Prelude.{ℕ};

    ghost Value = { ℕ };

    ghost view = { λ source. source.faults };
}

impl StdSource {
    /// No call failed so far.
    pub fn new(stdin: Stdin) -> StdSource
        ensures { result ≡ 0 }
    {
        StdSource { stdin, faults: 0 }
    }
}

impl Source for StdSource {
    ghost left = { λ _. None };

    ghost faults = { λ source. source };

    fn take(&mut self, buf: &mut [u8]) -> Result<usize, Failed> {
        let taken = read_some(&mut self.stdin, buf);
        if taken.is_err() {
            self.faults = self.faults.saturating_add(1);
        }
        taken
    }
}

/// Standard output. No byte waits in a buffer.
#[derive(Drop)]
pub struct StdSink {
    stdout: Stdout,
    faults: u64,
}

// Contracts see the count of faults.
impl Model for StdSink {
    ghost use Rattle.std.specs.Prelude.{ℕ};

    ghost Value = { ℕ };

    ghost view = { λ sink. sink.faults };
}

impl StdSink {
    /// No call failed so far.
    pub fn new(stdout: Stdout) -> StdSink
        ensures { result ≡ 0 }
    {
        StdSink { stdout, faults: 0 }
    }
}

impl Sink for StdSink {
    ghost written = { λ _. None };

    ghost faults = { λ sink. sink };

    fn put(&mut self, buf: &[u8]) -> Result<usize, Failed> {
        let put = write_some(&mut self.stdout, buf);
        if put.is_err() {
            self.faults = self.faults.saturating_add(1);
        }
        put
    }
}

/// Reads once, and again where the call was interrupted.
pub(crate) fn read_some<R: Read>(reader: &mut R, buf: &mut [u8]) -> Result<usize, Failed>
    ensures { IfOk result (λ n. n ≤ length buf.old) }
{
    for _ in 0..MOST_CALLS {
        match reader.read(buf) {
            Ok(n) => return Ok(n),
            Err(error) => {
                if error.kind() != ErrorKind::Interrupted {
                    return Err(Failed);
                }
            }
        }
    }
    Err(Failed)
}

/// Writes once, and again where the call was interrupted. Where no byte is written, that is a
/// failure.
pub(crate) fn write_some<W: Write>(writer: &mut W, buf: &[u8]) -> Result<usize, Failed>
    ensures { IfOk result (λ n. (1 ≤ n) × (n ≤ length buf.now)) }
{
    for _ in 0..MOST_CALLS {
        match writer.write(buf) {
            Ok(0) => return Err(Failed),
            Ok(n) => return Ok(n),
            Err(error) => {
                if error.kind() != ErrorKind::Interrupted {
                    return Err(Failed);
                }
            }
        }
    }
    Err(Failed)
}
