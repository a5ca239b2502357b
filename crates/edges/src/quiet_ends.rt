//! A source and a sink that never fail.
ghost use Rattle.std.specs.Prelude.{◌≡◌, ◌+◌, ◌-◌, ◌^◌, ◌<◌, ◌≤◌, List, ◌++◌, length, take, drop, min, Some, IfOk, IsOk, OnOk, OnErr};
ghost use Rattle.edges.specs.Ends.{free_of, new_quiet_sink, told_bytes};
ghost use Rattle.edges.specs.Faults.{HasRisen, no_faults};
ghost use Rattle.edges.specs.Told.{Appends, IsAtEnd, Takes};

use crate::NoMemory;
use crate::ends::{Failed, Sink, Source};
use std::alloc::Global;
use std::marker::Model;

/// A source that gives bytes of memory and never fails.
#[derive(Drop)]
pub struct QuietSource {
    bytes: Vec<u8>,
    given: usize,
}

impl Model for QuietSource {
    ghost use Rattle.std.specs.Prelude.{ℕ, ◌≤◌, List, drop, length};

    ghost Value = { List ℕ };

    ghost view = { λ s. drop s.given s.bytes.items };

    ghost invariant = { λ s. s.given ≤ length s.bytes.items };
}

impl QuietSource {
    /// Gives `bytes`.
    pub fn new(alloc: Global, bytes: &[u8]) -> Result<QuietSource, NoMemory>
        ensures { IfOk result (λ source. source ≡ bytes.now) }
    {
        Ok(QuietSource {
            bytes: Vec::from_slice(alloc, bytes)?,
            given: 0,
        })
    }
}

impl Source for QuietSource {
    ghost left = { λ source. Some source };

    // No fault ever rises.
    ghost faults = { λ _. no_faults };

    fn take(&mut self, buf: &mut [u8]) -> Result<usize, Failed>
        requires { 0 < length buf.old }
        ensures within { IfOk result (λ n. n ≤ length buf.old) }
        ensures taken { IfOk result (λ n. Takes (Some self.old) (Some self.new) (take n buf.new)) }
        ensures ended { IfOk result (λ n. n ≡ 0 → IsAtEnd (Some self.new)) }
        ensures quiet { OnOk result (no_faults ≡ no_faults) }
        ensures failed { OnErr result (HasRisen no_faults no_faults) }
        ensures none_lost { OnErr result (Some self.new ≡ Some self.old) }

        // It never fails, and gives all that fits.
        ensures never { IsOk result }
        ensures count { IfOk result (λ n. n ≡ min (length buf.old) (length self.old)) }
    {
        let rest = &self.bytes[self.given..];
        let n = buf.len().min(rest.len());
        buf[..n].copy_from_slice(&rest[..n]);
        self.given += n;
        Ok(n)
    }
}

/// A sink that keeps the first bytes that are put, counts the others, and never fails.
#[derive(Drop)]
pub struct QuietSink {
    bytes: Vec<u8>,
    room: usize,
    dropped: u64,
}

impl Model for QuietSink {
    ghost use Rattle.std.specs.Prelude.{◌≡◌, ◌<◌, ◌≤◌, length, vec_capacity};
    ghost use Rattle.edges.specs.Ends.{QuietSinkView};

    ghost Value = { QuietSinkView };

    ghost view = { λ s. record { bytes = s.bytes.items; room = s.room; dropped = s.dropped } };

    ghost invariant = { λ s. (length s.bytes.items ≤ s.room) × (s.room ≤ vec_capacity s.bytes) };
}

impl QuietSink {
    /// Keeps the first `room` bytes.
    pub fn new(alloc: Global, room: usize) -> Result<QuietSink, NoMemory>
        ensures { IfOk result (λ sink. sink ≡ new_quiet_sink room) }
    {
        Ok(QuietSink {
            bytes: Vec::with_capacity(alloc, room)?,
            room,
            dropped: 0,
        })
    }

    /// The bytes that were kept.
    pub fn bytes(&self) -> &[u8]
        ensures { result.now ≡ self.now.bytes }
    {
        self.bytes.as_slice()
    }

    /// How many bytes were dropped, at most `u64::MAX`.
    pub fn dropped(&self) -> u64
        ensures { result ≡ self.now.dropped }
    {
        self.dropped
    }
}

impl Sink for QuietSink {
    // What was put, while nothing was dropped.
    ghost written = { told_bytes };

    // No fault ever rises.
    ghost faults = { λ _. no_faults };

    fn put(&mut self, buf: &[u8]) -> Result<usize, Failed>
        requires { 0 < length buf.now }
        ensures within { IfOk result (λ n. (1 ≤ n) × (n ≤ length buf.now)) }
        ensures appended { IfOk result (λ n. Appends (told_bytes self.old) (told_bytes self.new) (take n buf.now)) }
        ensures quiet { OnOk result (no_faults ≡ no_faults) }
        ensures failed { OnErr result (HasRisen no_faults no_faults) }
        ensures none_added { OnErr result (told_bytes self.new ≡ told_bytes self.old) }

        // It never fails, takes each piece whole, and keeps what it has room for.
        ensures never { result ≡ Ok (length buf.now) }
        ensures kept { self.new.bytes ≡ self.old.bytes ++ take (free_of self.old) buf.now }
        ensures dropped { self.new.dropped ≡ min (self.old.dropped + (length buf.now - free_of self.old)) (2 ^ 64 - 1) }
        ensures room { self.new.room ≡ self.old.room }
    {
        let n = buf.len().min(self.room - self.bytes.len());
        if self.bytes.extend_from_slice(&buf[..n]).is_err() {
            unreachable!()
        }
        self.dropped = self.dropped.saturating_add((buf.len() - n) as u64);
        Ok(buf.len())
    }
}
