//! Runs scripts.
ghost use Rattle.std.specs.Prelude.{◌≡◌, ◌⊎◌, ◌≤◌, IsOk};
ghost use Rattle.edges.specs.Faults.{CountsFaults, HasRisen};
ghost use Rattle.survey_script.specs.Scripts.{IsScript};
ghost use Rattle.survey_server.specs.ScriptRuns.{IsScriptOutcome, IsWriteFault, stop_by};

use crate::script_texts::write_replies;
use edges::{Failed, Gate, Sink, Source, Text};
use json_forms::DefinitionFault;
use result_file::MAX_LINE;
use std::alloc::Global;
use std::sync::Wait;
use std::thread::Threads;
use survey_core::MAX_WORKERS;
use survey_run::{RunEnd, run_sessions};
use survey_script::{ScriptPart, ScriptStop, read_script};

/// Why a call of the server didn't come to its end.
#[derive(Drop)]
pub enum Stop {
    /// The first line is no definition.
    Definition(DefinitionFault),
    /// The first line of a script that fails; the definition line is line 1.
    Script { line: u32, part: ScriptPart },
    /// The source failed.
    ReadFault,
    /// The sink failed at the replies of a run that left this.
    WriteFault(RunEnd),
    /// The door failed.
    DoorFault,
    /// Out of memory.
    NoMemory,
}

/// Runs the script that the source holds, beside `workers` eliminators, and then writes the replies to its lines in input order.
///
/// # Errors
///
/// The text is no script: nothing was run or written. The source failed, or out of memory: nothing was written. The sink failed: some first
/// bytes of the replies are out.
pub fn run_script<R: Threads + Wait + Sync, S: Source, K: Sink, G: Gate + Sync>(
    rt: &R,
    alloc: Global,
    workers: u32,
    source: &mut S,
    sink: &mut K,
    gate: &G,
) -> Result<RunEnd, Stop>
    requires { workers ≤ MAX_WORKERS }
    ensures outcome { IsScriptOutcome workers (S.left source.old) (S.left source.new) (K.written sink.old) (K.written sink.new) result }
    ensures read_faults { CountsFaults (result ≡ Err Stop.ReadFault) (S.faults source.old) (S.faults source.new) }
    ensures write_faults { CountsFaults (IsWriteFault result) (K.faults sink.old) (K.faults sink.new) }

    // A script is run and all is written where no fault came, or there was no memory.
    ensures done { IsScript (S.left source.old) → (¬ HasRisen (S.faults source.old) (S.faults source.new))
        → (¬ HasRisen (K.faults sink.old) (K.faults sink.new)) → IsOk result ⊎ (result ≡ Err Stop.NoMemory) }
{
    let script = match read_script(alloc, source) {
        Ok(script) => script,
        Err(stop) => return Err(stop_of(stop)),
    };
    let mut text = match Text::reserve(alloc, MAX_LINE) {
        Ok(text) => text,
        Err(_) => return Err(Stop::NoMemory),
    };
    let end = match run_sessions(rt, alloc, &script, workers, gate) {
        Ok(end) => end,
        Err(_) => return Err(Stop::NoMemory),
    };
    match write_replies(&script, &end, &mut text, sink) {
        Ok(()) => Ok(end),
        Err(Failed) => Err(Stop::WriteFault(end)),
    }
}

/// The stop of a script that wasn't read.
fn stop_of(stop: ScriptStop) -> Stop
    ensures { result ≡ stop_by stop }
{
    match stop {
        ScriptStop::Definition(fault) => Stop::Definition(fault),
        ScriptStop::Script { line, part } => Stop::Script { line, part },
        ScriptStop::ReadFault => Stop::ReadFault,
        ScriptStop::NoMemory => Stop::NoMemory,
    }
}
