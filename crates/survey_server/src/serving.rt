//! Serves the surveys of a definition at a port.
ghost use Rattle.std.specs.Prelude.{◌≡◌, ◌≢◌, ◌≤◌, IfErr, IfOk, IfSome};
ghost use Rattle.edges.specs.Faults.{CountsFaults};
ghost use Rattle.survey_server.specs.RankInput.{leading_definition};
ghost use Rattle.survey_server.specs.Serving.{IsServeOutcome, IsServeStop};

use crate::input_lines::{FirstLineStop, read_first_line};
use crate::script_runs::Stop;
use edges::{Door, Failed, Gate, Lines, Sink, Source};
use json_forms::{Definition, DefinitionFault, MAX_DEFINITION};
use std::alloc::Global;
use std::sync::Wait;
use std::thread::Threads;
use survey_core::MAX_WORKERS;
use survey_hall::{Hall, MAX_CONNECTIONS, ServeEnd, ServeStop, serve};

/// Serves the surveys of the definition that the first line of the source is to `connections` connections at a port, beside `workers`
/// eliminators. No more of the source is read. The surveys are made before the port is opened, so whoever can connect is served.
///
/// # Errors
///
/// The line is no definition, or the source failed: the port wasn't opened. The door failed: the connections that it gave before were
/// served. Out of memory: none was accepted.
pub(crate) fn serve_definition<
    R: Threads + Wait + Sync,
    S: Source,
    I: Source + Send + Drop,
    O: Sink + Send + Drop,
    D: Door<In = I, Out = O>,
    G: Gate + Sync,
>(
    rt: &R,
    alloc: Global,
    port: u16,
    connections: u32,
    workers: u32,
    source: &mut S,
    door: &mut D,
    gate: &G,
) -> Result<ServeEnd, Stop>
    requires connections { (1 ≤ connections) × (connections ≤ MAX_CONNECTIONS) }
    requires workers { workers ≤ MAX_WORKERS }
    ensures outcome { IsServeOutcome I.left I.faults O.written O.faults D.ends (S.left source.old) connections door.old door.new result }
    ensures stop { IfErr result IsServeStop }
    ensures read_faults { CountsFaults (result ≡ Err Stop.ReadFault) (S.faults source.old) (S.faults source.new) }
    ensures door_faults { CountsFaults (result ≡ Err Stop.DoorFault) (D.faults door.old) (D.faults door.new) }
{
    let definition = match first_definition(alloc, source) {
        Ok(definition) => definition,
        Err(stop) => return Err(stop),
    };
    let hall = match Hall::build(alloc, definition, workers) {
        Ok(hall) => hall,
        Err(_) => return Err(Stop::NoMemory),
    };
    match door.listen(port) {
        Ok(()) => {}
        Err(Failed) => return Err(Stop::DoorFault),
    }
    match serve(rt, alloc, &hall, door, connections, workers, gate) {
        Ok(end) => Ok(end),
        Err(ServeStop::DoorFault) => Err(Stop::DoorFault),
        Err(ServeStop::NoMemory) => Err(Stop::NoMemory),
    }
}

/// The definition that the first line of the source is.
fn first_definition<S: Source>(alloc: Global, source: &mut S) -> Result<Definition, Stop>
    ensures read { IfOk result (λ definition. IfSome (S.left source.old) (λ text. leading_definition text ≡ Ok definition)) }
    ensures refused { (fault : DefinitionFault) → result ≡ Err (Stop.Definition fault) → IfSome (S.left source.old) (λ text. leading_definition text ≡ Err fault) }
    ensures stop { IfErr result IsServeStop }
    ensures no_door { IfErr result (λ stop. stop ≢ Stop.DoorFault) }
    ensures faults { CountsFaults (result ≡ Err Stop.ReadFault) (S.faults source.old) (S.faults source.new) }
{
    let mut lines = match Lines::reserve(alloc, MAX_DEFINITION) {
        Ok(lines) => lines,
        Err(_) => return Err(Stop::NoMemory),
    };
    match read_first_line(alloc, &mut lines, source) {
        Ok(definition) => Ok(definition),
        Err(FirstLineStop::Refused(fault)) => Err(Stop::Definition(fault)),
        Err(FirstLineStop::ReadFault) => Err(Stop::ReadFault),
        Err(FirstLineStop::NoMemory) => Err(Stop::NoMemory),
    }
}
