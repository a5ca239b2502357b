//! Serves connections from a door, beside eliminators.
ghost use Rattle.std.specs.Prelude.{◌≡◌, ◌≤◌, ◌<◌, ◌+◌, ◌-◌, List, [], Err, IfOk, OnErr, OnOk, Some, length, slice_get, vec_len, vec_capacity};
ghost use Rattle.std.specs.Thread.{IsSync};
ghost use Rattle.edges.specs.Faults.{CountsFaults, HasRisen};
ghost use Rattle.json_forms.specs.DefinitionViews.{DefinitionView};
ghost use Rattle.survey_hall.specs.declared.serving.TheConstants.{MAX_CONNECTIONS};
ghost use Rattle.survey_hall.specs.Rooms.{HasRooms};
ghost use Rattle.survey_hall.specs.Serving.{HasAccepted, HasServed, HasServedFewer, ServedEach, ServesEach};

use crate::connection_threads::{Connection, start_connection};
use crate::eliminator_seats::{EliminatorSeat, Start};
use crate::halls::Hall;
use crate::served::Served;
use crate::served_places::ServedPlaces;
use edges::{Door, Failed, Gate, Sink, Source};
use json_forms::NoMemory;
use std::alloc::Global;
use std::sync::Wait;
use std::thread;
use std::thread::{JoinHandle, Scope, Threads};

/// The most connections that a call serves.
pub const MAX_CONNECTIONS: u32 = 65_536;

/// Why a hall stopped serving.
#[derive(Clone, Copy, PartialEq, Eq, Debug)]
pub enum ServeStop {
    /// The door failed; the connections that it gave before were served.
    DoorFault,
    /// Out of memory: nothing was accepted.
    NoMemory,
}

/// What connections were served, in the order in which they were accepted.
#[derive(Drop)]
pub struct ServeEnd {
    pub(crate) list: Vec<Served>,
    ghost few: { vec_len list ≤ MAX_CONNECTIONS },
}

impl ServeEnd {
    /// How many connections were accepted.
    pub fn count(&self) -> u32
        ensures { result ≡ vec_len self.now.list }
    {
        self.list.len() as u32
    }

    /// What the connection with this number was served, counted from 1.
    pub fn served(&self, number: u32) -> &Served
        requires { (1 ≤ number) × (number ≤ vec_len self.now.list) }
        ensures { slice_get self.now.list.items (number - 1) ≡ Some result.now }
    {
        &self.list[number as usize - 1]
    }
}

/// What a call works with: all of it is taken before anything is accepted.
#[derive(Drop)]
struct Rooms<I: Source + Drop, O: Sink + Drop> {
    connections: Vec<Connection<I, O>>,
    served: Vec<Served>,
    working: Vec<(usize, JoinHandle<EliminatorSeat>)>,
}

/// For each eliminator, that nothing is known yet.
fn starts(alloc: Global, count: usize) -> Result<Vec<Start>, NoMemory>
    ensures { IfOk result (λ starts. vec_len starts ≡ count) }
{
    let mut starts = Vec::with_capacity(alloc, count)?;
    for _place in 0..count {
        starts.push_reserved(Start::new());
    }
    Ok(starts)
}

/// Serves connections from the door, a thread each, beside eliminators that no other call has at work.
///
/// Calls on one hall share a job line. At its end each sends a stop mark for each eliminator that it started, and any eliminator may
/// take it: the call that ends first may wait until the other ends too. Nothing is lost by that.
///
/// # Errors
///
/// The door failed; out of memory before anything was accepted.
pub fn serve<
    R: Threads + Wait + Sync,
    I: Source + Send + Drop,
    O: Sink + Send + Drop,
    D: Door<In = I, Out = O>,
    G: Gate + Sync,
>(
    rt: &R,
    alloc: Global,
    hall: &Hall,
    door: &mut D,
    connections: u32,
    workers: u32,
    gate: &G,
) -> Result<ServeEnd, ServeStop>
    requires connections { (1 ≤ connections) × (connections ≤ MAX_CONNECTIONS) }
    requires workers { workers ≤ hall.now.workers }
    ensures served { IfOk result (λ end. HasServed I.left I.faults O.written O.faults hall.now.definition (D.ends door.old) (D.ends door.new) end.list.items) }
    ensures count { IfOk result (λ end. vec_len end.list ≡ connections) }
    ensures cut { result ≡ Err ServeStop.DoorFault → HasServedFewer I.left I.faults O.written O.faults hall.now.definition (D.ends door.old) (D.ends door.new) connections }
    ensures untouched { result ≡ Err ServeStop.NoMemory → door.new ≡ door.old }
    ensures faults { CountsFaults (result ≡ Err ServeStop.DoorFault) (D.faults door.old) (D.faults door.new) }
{
    let (ended, starts, rooms) = match take_memory(alloc, connections, workers) {
        Ok(memory) => memory,
        Err(_) => return Err(ServeStop::NoMemory),
    };
    let (door, end) = serve_within(
        rt,
        alloc,
        hall,
        door,
        connections,
        &ended,
        &starts,
        rooms,
        gate,
    );
    take_back(door);
    match end {
        Ok(end) => Ok(end),
        Err(Failed) => Err(ServeStop::DoorFault),
    }
}

/// Takes the memory of a call: its lists.
///
/// # Errors
///
/// Out of memory.
fn take_memory<I: Source + Drop, O: Sink + Drop>(
    alloc: Global,
    connections: u32,
    workers: u32,
) -> Result<(ServedPlaces, Vec<Start>, Rooms<I, O>), NoMemory>
    ensures { IfOk result (λ memory. (vec_len memory.1 ≡ workers) × HasRooms memory.2 connections workers) }
{
    let ended = ServedPlaces::reserve(alloc, connections as usize)?;
    let starts = starts(alloc, workers as usize)?;
    let rooms = Rooms {
        connections: Vec::with_capacity(alloc, connections as usize)?,
        served: Vec::with_capacity(alloc, connections as usize)?,
        working: Vec::with_capacity(alloc, workers as usize)?,
    };
    Ok((ended, starts, rooms))
}

/// Does nothing, but this use of a reference that came back ties it to the one that was lent.
fn take_back<T>(door: &mut T)
    ensures { door.new ≡ door.old }
{}

/// Serves in a scope of threads. The door comes back.
///
/// # Errors
///
/// The door failed.
fn serve_within<
    'd,
    R: Threads + Wait + Sync,
    I: Source + Send + Drop,
    O: Sink + Send + Drop,
    D: Door<In = I, Out = O>,
    G: Gate + Sync,
>(
    rt: &R,
    alloc: Global,
    hall: &Hall,
    door: &'d mut D,
    connections: u32,
    ended: &ServedPlaces,
    starts: &[Start],
    rooms: Rooms<I, O>,
    gate: &G,
) -> (&'d mut D, Result<ServeEnd, Failed>)
    requires rooms { HasRooms rooms connections (length starts.now) }
    requires few { connections ≤ MAX_CONNECTIONS }
    ensures name { result.0.ghost_name ≡ door.entry.ghost_name }
    ensures served { IfOk result.1 (λ end. HasServed I.left I.faults O.written O.faults hall.now.definition (D.ends door.old) (D.ends result.0.now) end.list.items) }
    ensures count { IfOk result.1 (λ end. vec_len end.list ≡ connections) }
    ensures cut { OnErr result.1 (HasServedFewer I.left I.faults O.written O.faults hall.now.definition (D.ends door.old) (D.ends result.0.now) connections) }
    ensures quiet { OnOk result.1 (D.faults result.0.now ≡ D.faults door.old) }
    ensures failed { OnErr result.1 (HasRisen (D.faults door.old) (D.faults result.0.now)) }
{
    thread::scope(
        thread::scope_env(),
        rt,
        |scope| -> (&mut D, Result<ServeEnd, Failed>)
            requires { IsSync R.row × IsSync G.row × HasRooms rooms connections (length starts.now) × (connections ≤ MAX_CONNECTIONS) }
            ensures name { result.0.ghost_name ≡ door.entry.ghost_name }
            ensures served { IfOk result.1 (λ end. HasServed I.left I.faults O.written O.faults hall.entry.now.definition (D.ends door.entry.now) (D.ends result.0.now) end.list.items) }
            ensures count { IfOk result.1 (λ end. vec_len end.list ≡ connections) }
            ensures cut { OnErr result.1 (HasServedFewer I.left I.faults O.written O.faults hall.entry.now.definition (D.ends door.entry.now) (D.ends result.0.now) connections) }
            ensures quiet { OnOk result.1 (D.faults result.0.now ≡ D.faults door.entry.now) }
            ensures failed { OnErr result.1 (HasRisen (D.faults door.entry.now) (D.faults result.0.now)) }
        {
            let end = serve_in(
                scope,
                rt,
                alloc,
                hall,
                door,
                connections,
                ended,
                starts,
                rooms,
                gate,
            );
            (door, end)
        },
    )
}

/// Starts the eliminators, serves the connections, and then stops the eliminators.
///
/// # Errors
///
/// The door failed.
fn serve_in<
    's,
    E: 's,
    R: Threads + Wait + Sync,
    I: Source + Send + Drop + 's,
    O: Sink + Send + Drop + 's,
    D: Door<In = I, Out = O>,
    G: Gate + Sync,
>(
    scope: &Scope<'s, E>,
    rt: &'s R,
    alloc: Global,
    hall: &'s Hall,
    door: &mut D,
    count: u32,
    ended: &'s ServedPlaces,
    starts: &'s [Start],
    rooms: Rooms<I, O>,
    gate: &'s G,
) -> Result<ServeEnd, Failed>
    requires rooms { HasRooms rooms count (length starts.now) }
    requires few { count ≤ MAX_CONNECTIONS }
    ensures served { IfOk result (λ end. HasServed I.left I.faults O.written O.faults hall.now.definition (D.ends door.old) (D.ends door.new) end.list.items) }
    ensures count { IfOk result (λ end. vec_len end.list ≡ count) }
    ensures cut { OnErr result (HasServedFewer I.left I.faults O.written O.faults hall.now.definition (D.ends door.old) (D.ends door.new) count) }
    ensures quiet { OnOk result (D.faults door.new ≡ D.faults door.old) }
    ensures failed { OnErr result (HasRisen (D.faults door.old) (D.faults door.new)) }
{
    let Rooms {
        mut connections,
        served,
        working,
    } = rooms;
    let working = start_eliminators(scope, rt, alloc, hall, starts, gate, working);
    let takers = takers(rt, starts, &working);
    hall.begin_jobs(takers);
    let accepted = accept_all(
        scope,
        rt,
        alloc,
        hall,
        door,
        count as usize,
        ended,
        &mut connections,
        gate,
    );
    let served = finish_all(rt, connections, served);
    hall.end_jobs(rt, takers);
    join_eliminators(rt, hall, working);
    match accepted {
        Ok(()) => Ok(ServeEnd { list: served }),
        Err(Failed) => Err(Failed),
    }
}

/// Accepts `count` connections, and serves each in a thread.
///
/// # Errors
///
/// The door failed.
fn accept_all<
    's,
    E: 's,
    R: Threads + Wait + Sync,
    I: Source + Send + Drop + 's,
    O: Sink + Send + Drop + 's,
    D: Door<In = I, Out = O>,
    G: Gate + Sync,
>(
    scope: &Scope<'s, E>,
    rt: &'s R,
    alloc: Global,
    hall: &'s Hall,
    door: &mut D,
    count: usize,
    ended: &'s ServedPlaces,
    connections: &mut Vec<Connection<I, O>>,
    gate: &'s G,
) -> Result<(), Failed>
    requires room { (connections.old.items ≡ []) × (count ≤ vec_capacity connections.old) }
    ensures accepted { HasAccepted I.left I.faults O.written O.faults hall.now.definition (D.ends door.old) (D.ends door.new) connections.new.items }
    ensures count { OnOk result (vec_len connections.new ≡ count) }
    ensures few { vec_len connections.new ≤ count }
    ensures fewer { OnErr result (vec_len connections.new < count) }
    ensures quiet { OnOk result (D.faults door.new ≡ D.faults door.old) }
    ensures failed { OnErr result (HasRisen (D.faults door.old) (D.faults door.new)) }
{
    for place in 0..count {
        match door.accept() {
            Ok((source, sink)) => {
                settle_served(rt, connections, ended);
                connections.push_reserved(start_connection(
                    scope, rt, alloc, hall, source, sink, place, ended, gate,
                ));
            }
            Err(Failed) => return Err(Failed),
        }
    }
    Ok(())
}

/// Ends the threads of connections that were served since the last call. A thread takes memory of the system until it is joined.
fn settle_served<R: Threads + Wait, I: Source + Drop, O: Sink + Drop>(
    rt: &R,
    connections: &mut Vec<Connection<I, O>>,
    ended: &ServedPlaces,
)
    ensures each { (definition : DefinitionView) (accepted : List (I × O)) → ServesEach I.left I.faults O.written O.faults definition accepted connections.old.items
        → ServesEach I.left I.faults O.written O.faults definition accepted connections.new.items }
    ensures len { vec_len connections.new ≡ vec_len connections.old }
    ensures room { vec_capacity connections.new ≡ vec_capacity connections.old }
{
    for _look in 0..connections.len() {
        let Some(place) = ended.take(rt) else {
            return;
        };
        settle_at(rt, connections, place);
    }
}

/// Ends the thread of the connection at a place, if there is one.
fn settle_at<R: Threads, I: Source + Drop, O: Sink + Drop>(
    rt: &R,
    connections: &mut Vec<Connection<I, O>>,
    place: usize,
)
    ensures each { (definition : DefinitionView) (accepted : List (I × O)) → ServesEach I.left I.faults O.written O.faults definition accepted connections.old.items
        → ServesEach I.left I.faults O.written O.faults definition accepted connections.new.items }
    ensures len { vec_len connections.new ≡ vec_len connections.old }
    ensures room { vec_capacity connections.new ≡ vec_capacity connections.old }
{
    if place >= connections.len() {
        return;
    }
    connections[place].settle(rt);
}

/// Waits until all connections were served.
fn finish_all<R: Threads, I: Source + Drop, O: Sink + Drop>(
    rt: &R,
    connections: Vec<Connection<I, O>>,
    mut served: Vec<Served>,
) -> Vec<Served>
    requires room { (served.items ≡ []) × (vec_len connections ≤ vec_capacity served) }
    ensures each { (definition : DefinitionView) (accepted : List (I × O)) → ServesEach I.left I.faults O.written O.faults definition accepted connections.items
        → ServedEach I.left I.faults O.written O.faults definition accepted result.items }
    ensures len { vec_len result ≡ vec_len connections }
{
    for connection in connections {
        served.push_reserved(connection.finish(rt));
    }
    served
}

/// Starts the eliminators that no other call has at work.
fn start_eliminators<'s, E: 's, R: Threads + Wait + Sync, G: Gate + Sync>(
    scope: &Scope<'s, E>,
    rt: &'s R,
    alloc: Global,
    hall: &'s Hall,
    starts: &'s [Start],
    gate: &'s G,
    mut working: Vec<(usize, JoinHandle<EliminatorSeat>)>,
) -> Vec<(usize, JoinHandle<EliminatorSeat>)>
    requires { (working.items ≡ []) × (length starts.now ≤ vec_capacity working) }
{
    for place in 0..starts.len() {
        if let Some(seat) = hall.take_eliminator(rt, place) {
            match start_eliminator(scope, rt, alloc, seat, &starts[place], gate) {
                Ok(handle) => working.push_reserved((place, handle)),
                Err(seat) => hall.put_eliminator(rt, place, seat),
            }
        }
    }
    working
}

/// Starts an eliminator.
///
/// # Errors
///
/// No thread can be made: the eliminator comes back.
fn start_eliminator<'s, E: 's, R: Wait + Sync, G: Gate + Sync>(
    scope: &Scope<'s, E>,
    rt: &'s R,
    alloc: Global,
    seat: EliminatorSeat,
    start: &'s Start,
    gate: &'s G,
) -> Result<JoinHandle<EliminatorSeat>, EliminatorSeat> {
    let task = move || -> EliminatorSeat
        requires { IsSync R.row }
    { begin(rt, alloc, seat, start, gate) };
    match scope.spawn(task) {
        Ok(handle) => Ok(handle),
        Err(refused) => {
            start.leave_out();
            Err((refused.value)())
        }
    }
}

/// Lets an eliminator work, unless it was left out.
fn begin<R: Wait + Sync, G: Gate>(
    rt: &R,
    alloc: Global,
    seat: EliminatorSeat,
    start: &Start,
    gate: &G,
) -> EliminatorSeat {
    if start.is_left_out() {
        seat
    } else {
        seat.work(rt, alloc, start, gate)
    }
}

/// How many eliminators take jobs. Those that have a thread and no memory to begin don't.
fn takers<R: Wait>(
    rt: &R,
    starts: &[Start],
    working: &Vec<(usize, JoinHandle<EliminatorSeat>)>,
) -> u64 {
    let mut count = 0u64;
    for (place, _) in working {
        if let Some(start) = starts.get(*place) {
            if start.has_begun(rt) {
                count = count.saturating_add(1);
            }
        }
    }
    count
}

/// Waits for the eliminators, which were told to stop, and puts them to rest.
fn join_eliminators<R: Threads + Wait>(
    rt: &R,
    hall: &Hall,
    working: Vec<(usize, JoinHandle<EliminatorSeat>)>,
) {
    for (place, handle) in working {
        let seat = handle.join(rt);
        hall.put_eliminator(rt, place, seat);
    }
}
