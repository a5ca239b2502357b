//! Connections that are served in threads.
ghost use Rattle.std.specs.Thread.{IsSync};
ghost use Rattle.json_forms.specs.DefinitionViews.{DefinitionView};
ghost use Rattle.survey_hall.specs.Connections.{WasServed};
ghost use Rattle.survey_hall.specs.ConnectionThreads.{ServesFor};

use crate::connections::serve_connection;
use crate::halls::Hall;
use crate::served::Served;
use crate::served_places::ServedPlaces;
use edges::{Gate, Sink, Source};
use session_protocol::SessionEnd;
use std::alloc::Global;
use std::mem;
use std::snapshot::Snapshot;
use std::sync::Wait;
use std::thread::{Promise, PromisedHandle, Scope, Threads};

/// What the thread of a connection brings back, for contracts: that it was served over these ends.
#[derive(Drop)]
pub(crate) struct ConnectionPromise<I: Drop, O: Drop> {
    hall: Snapshot<Hall>,
    source: Snapshot<I>,
    sink: Snapshot<O>,
}

impl<I: Source + Drop, O: Sink + Drop> Promise<Served> for ConnectionPromise<I, O> {
    ghost use Rattle.survey_hall.specs.Connections.{WasServed};

    ghost kept_by = { λ p served. WasServed I.left I.faults O.written O.faults p.hall.value.definition p.source.value p.sink.value served };
}

/// A connection that is being served, or was.
#[derive(Drop)]
pub(crate) enum Connection<I: Source + Drop, O: Sink + Drop> {
    Thread(PromisedHandle<Served, ConnectionPromise<I, O>>),
    Done(Served),
}

/// Serves a connection, and then adds its place.
fn serve_and_tell<R: Wait + Sync, I: Source + Drop, O: Sink + Drop, G: Gate>(
    rt: &R,
    alloc: Global,
    hall: &Hall,
    mut source: I,
    mut sink: O,
    place: usize,
    ended: &ServedPlaces,
    gate: &G,
) -> Served
    ensures { WasServed I.left I.faults O.written O.faults hall.now.definition source sink result }
{
    let served = serve_connection(rt, alloc, hall, &mut source, &mut sink, gate);
    ended.add(rt, place);
    served
}

/// Serves a connection in a thread, or here where none can be made. Its place is added when it was served.
pub(crate) fn start_connection<
    's,
    E: 's,
    R: Wait + Sync,
    I: Source + Send + Drop + 's,
    O: Sink + Send + Drop + 's,
    G: Gate + Sync,
>(
    scope: &Scope<'s, E>,
    rt: &'s R,
    alloc: Global,
    hall: &'s Hall,
    source: I,
    sink: O,
    place: usize,
    ended: &'s ServedPlaces,
    gate: &'s G,
) -> Connection<I, O>
    ensures { ServesFor I.left I.faults O.written O.faults hall.now.definition source sink result }
{
    let promise = ConnectionPromise {
        hall: Snapshot::of(hall),
        source: Snapshot::of(&source),
        sink: Snapshot::of(&sink),
    };
    let task = move || -> Served
        requires { IsSync R.row }
        ensures { WasServed I.left I.faults O.written O.faults hall.entry.now.definition source sink result }
    { serve_and_tell(rt, alloc, hall, source, sink, place, ended, gate) };
    match scope.spawn_with(promise, task) {
        Ok(handle) => Connection::Thread(handle),
        Err(refused) => Connection::Done((refused.value)()),
    }
}

impl<I: Source + Drop, O: Sink + Drop> Connection<I, O> {
    /// Waits until it was served.
    pub(crate) fn finish<R: Threads>(self, rt: &R) -> Served
        ensures { (definition : DefinitionView) (source : I) (sink : O) → ServesFor I.left I.faults O.written O.faults definition source sink self
            → WasServed I.left I.faults O.written O.faults definition source sink result }
    {
        match self {
            Connection::Thread(handle) => handle.join(rt),
            Connection::Done(served) => served,
        }
    }

    /// Waits until it was served, and keeps what it was served. Its thread is gone then.
    pub(crate) fn settle<R: Threads>(&mut self, rt: &R)
        ensures { (definition : DefinitionView) (source : I) (sink : O) → ServesFor I.left I.faults O.written O.faults definition source sink self.old
            → ServesFor I.left I.faults O.written O.faults definition source sink self.new }
    {
        // No connection ends so: what is put in its place meanwhile can't pass for what it was served.
        let was = mem::replace(self, Connection::Done(Served::Early(SessionEnd::Bye)));
        *self = Connection::Done(was.finish(rt));
    }
}
