//! A text that is put together in memory and then written to a sink.
ghost use Rattle.std.specs.Prelude.{◌≡◌, ◌+◌, ◌<◌, ◌≤◌, [], ◌++◌, length, IfOk, OnOk, OnErr};
ghost use Rattle.edges.specs.Faults.{HasRisen};
ghost use Rattle.edges.specs.Text.{new_text};
ghost use Rattle.edges.specs.Told.{Appends, AppendsPrefix};

use crate::NoMemory;
use crate::ends::{Failed, Sink};
use std::alloc::Global;
use std::marker::Model;

/// A buffer of bytes with a fixed room: only `reserve` takes memory.
#[derive(Drop)]
pub struct Text {
    bytes: Vec<u8>,
    room: u32,
}

impl Model for Text {
    ghost use Rattle.std.specs.Prelude.{◌≤◌, length, vec_capacity};
    ghost use Rattle.edges.specs.Text.{TextView};

    ghost Value = { TextView };

    ghost view = { λ t. record { bytes = t.bytes.items; room = t.room } };

    ghost invariant = { λ t. (length t.bytes.items ≤ t.room) × (t.room ≤ vec_capacity t.bytes) };
}

impl Text {
    /// An empty text with room for `room` bytes.
    pub fn reserve(alloc: Global, room: u32) -> Result<Text, NoMemory>
        ensures { IfOk result (λ text. text ≡ new_text room) }
    {
        Ok(Text {
            bytes: Vec::with_capacity(alloc, room as usize)?,
            room,
        })
    }

    /// Appends `bytes`.
    pub fn add(&mut self, bytes: &[u8])
        requires { length self.old.bytes + length bytes.now ≤ self.old.room }
        ensures bytes { self.new.bytes ≡ self.old.bytes ++ bytes.now }
        ensures room { self.new.room ≡ self.old.room }
        ensures grown { length self.new.bytes ≡ length self.old.bytes + length bytes.now }
    {
        if self.bytes.extend_from_slice(bytes).is_err() {
            unreachable!()
        }
    }

    /// How many bytes are free.
    pub fn free(&self) -> u32
        ensures { length self.now.bytes + result ≡ self.now.room }
    {
        self.room - self.bytes.len() as u32
    }

    /// The text so far.
    pub fn bytes(&self) -> &[u8]
        ensures { result.now ≡ self.now.bytes }
    {
        self.bytes.as_slice()
    }

    /// Writes the text in order. It is empty afterwards, also where the sink failed.
    pub fn put_all<K: Sink>(&mut self, sink: &mut K) -> Result<(), Failed>
        ensures written { OnOk result (Appends (K.written sink.old) (K.written sink.new) self.old.bytes) }
        ensures quiet { OnOk result (K.faults sink.new ≡ K.faults sink.old) }
        ensures prefix { OnErr result (AppendsPrefix (K.written sink.old) (K.written sink.new) self.old.bytes) }
        ensures failed { OnErr result (HasRisen (K.faults sink.old) (K.faults sink.new)) }
        ensures emptied { self.new.bytes ≡ [] }
        ensures room { self.new.room ≡ self.old.room }
    {
        let outcome = put_bytes(self.bytes.as_slice(), sink);
        self.bytes.clear();
        outcome
    }
}

/// Writes the bytes in order.
pub fn put_bytes<K: Sink>(bytes: &[u8], sink: &mut K) -> Result<(), Failed>
    ensures written { OnOk result (Appends (K.written sink.old) (K.written sink.new) bytes.now) }
    ensures quiet { OnOk result (K.faults sink.new ≡ K.faults sink.old) }
    ensures prefix { OnErr result (AppendsPrefix (K.written sink.old) (K.written sink.new) bytes.now) }
    ensures failed { OnErr result (HasRisen (K.faults sink.old) (K.faults sink.new)) }
{
    let mut done = 0;
    while done < bytes.len() {
        done += sink.put(&bytes[done..])?;
    }
    Ok(())
}
