//! Doors: where the ends of connections come from.
ghost use Rattle.std.specs.Prelude.{◌≡◌, ◌↔◌, ℕ, List, [], ◌∷◌, ◌++◌, Option, Some, IfOk, IsErr, OnOk, OnErr};
ghost use Rattle.edges.specs.Ends.{new_door};
ghost use Rattle.edges.specs.Faults.{HasRisen};
ghost use Rattle.edges.specs.Told.{TakesNext};

use crate::NoMemory;
use crate::ends::{Failed, Sink, Source};
use crate::memory_ends::{MemSink, MemSource};
use std::alloc::Global;
use std::collections::VecDeque;
use std::marker::Model;

/// Where connections come in.
pub trait Door {
    /// Where the bytes of a connection come from.
    type In: Source;

    /// Where they go.
    type Out: Sink;

    // The ends of the connections still to come, where they are known.
    ghost ends: { Self → Option (List (Self.In × Self.Out)) };

    // How many calls failed so far.
    ghost faults: { Self → ℕ };

    /// Begins to listen at a port.
    fn listen(&mut self, port: u16) -> Result<(), Failed>
        ensures same { ends self.new ≡ ends self.old }
        ensures quiet { OnOk result (faults self.new ≡ faults self.old) }
        ensures failed { OnErr result (HasRisen (faults self.old) (faults self.new)) };

    /// The ends of the next connection.
    fn accept(&mut self) -> Result<(Self::In, Self::Out), Failed>
        ensures next { IfOk result (λ accepted. TakesNext (ends self.old) (ends self.new) accepted) }
        ensures quiet { OnOk result (faults self.new ≡ faults self.old) }
        ensures failed { OnErr result (HasRisen (faults self.old) (faults self.new)) }
        ensures none_lost { OnErr result (ends self.new ≡ ends self.old) };
}

/// A list of ends over memory.
#[derive(Drop)]
pub struct DoorEnds {
    ends: VecDeque<(MemSource, MemSink)>,
}

impl Model for DoorEnds {
    ghost use Rattle.std.specs.Prelude.{List};
    ghost use Rattle.edges.specs.Ends.{MemSourceView, MemSinkView};

    ghost Value = { List (MemSourceView × MemSinkView) };

    ghost view = { λ d. d.ends.items };
}

impl DoorEnds {
    /// No ends.
    pub fn new(alloc: Global) -> DoorEnds
        ensures { result ≡ [] }
    {
        DoorEnds {
            ends: VecDeque::new(alloc),
        }
    }

    /// Appends the ends of a connection.
    pub fn push(&mut self, source: MemSource, sink: MemSink) -> Result<(), NoMemory>
        ensures pushed { OnOk result (self.new ≡ self.old ++ (source, sink) ∷ []) }
        ensures same { OnErr result (self.new ≡ self.old) }
    {
        self.ends.push_back((source, sink))?;
        Ok(())
    }
}

/// A door that gives ends over memory, in order, and fails where none is left.
#[derive(Drop)]
pub struct MemDoor {
    ends: DoorEnds,
    faults: u64,
}

impl Model for MemDoor {
    ghost use Rattle.edges.specs.Ends.{MemDoorView};

    ghost Value = { MemDoorView };

    ghost view = { λ d. record { ends = d.ends; faults = d.faults } };
}

impl MemDoor {
    /// Gives these ends.
    pub fn new(ends: DoorEnds) -> MemDoor
        ensures { result ≡ new_door ends }
    {
        MemDoor { ends, faults: 0 }
    }
}

impl Door for MemDoor {
    type In = MemSource;

    type Out = MemSink;

    ghost ends = { λ door. Some door.ends };

    ghost faults = { λ door. door.faults };

    /// Nothing is to be done: the ends are there.
    fn listen(&mut self, _port: u16) -> Result<(), Failed> {
        Ok(())
    }

    fn accept(&mut self) -> Result<(MemSource, MemSink), Failed>
        ensures next { IfOk result (λ accepted. TakesNext (Some self.old.ends) (Some self.new.ends) accepted) }
        ensures quiet { OnOk result (self.new.faults ≡ self.old.faults) }
        ensures failed { OnErr result (HasRisen self.old.faults self.new.faults) }
        ensures none_lost { OnErr result (Some self.new.ends ≡ Some self.old.ends) }

        // It fails exactly where no ends are left.
        ensures empty { IsErr result ↔ (self.old.ends ≡ []) }
    {
        match self.ends.ends.pop_front() {
            Some(accepted) => Ok(accepted),
            None => {
                self.faults = self.faults.saturating_add(1);
                Err(Failed)
            }
        }
    }
}

#[cfg(test)]
mod tests;
