//! All commands of the program.
ghost use Rattle.std.specs.Prelude.{◌≡◌, ◌≢◌, ◌↔◌, ◌⊎◌, ℕ, ◌≤◌, [], Some, None, IfErr};
ghost use Rattle.edges.specs.Faults.{CountsFaults, HasRisen};
ghost use Rattle.survey_server.specs.Command.{SamplesShape, Writes, command_in};
ghost use Rattle.survey_server.specs.RankTexts.{definition_fault_line};
ghost use Rattle.survey_server.specs.ScriptCommand.{AnswersScript, DoesPlainCommand, HasInputFor, IsPlainCommand, IsRunCommand, IsSampleRunCommand, RunsAndAnswers, script_line, script_part_text};
ghost use Rattle.survey_server.specs.ScriptRuns.{IsWriteFault};
ghost use Rattle.survey_server.specs.Serving.{AnswersServed, AnswersServing, IsServeCommand, IsServeStop, ServesAndAnswers, served_line};
ghost use Rattle.survey_words.specs.declared.commands.Command.{Command as Named};
ghost use Rattle.survey_words.specs.declared.shapes.Shape.{Shape};

use crate::plain_commands::{plain_command, write};
use crate::rank_texts::{ROOM, add_fault};
use crate::sample_runs::sample_beside;
use crate::script_runs::{Stop, run_script};
use crate::serving::serve_definition;
use crate::statuses::{DONE, DOOR_FAULT, NO_MEMORY, READ_FAULT, REFUSED, WRITE_FAULT};
use edges::{Door, Gate, Sink, Source, Text, put_bytes};
use itoa::Buffer;
use json_forms::DefinitionFault;
use std::alloc::Global;
use std::sync::Wait;
use std::thread::Threads;
use survey_hall::{MAX_CONNECTIONS, ServeEnd};
use survey_run::RunEnd;
use survey_script::ScriptPart;
use survey_words::{Command, MAX_ELIMINATORS, read_words};

/// What a command came to.
#[derive(Drop)]
pub struct Ended {
    /// The status of the program.
    pub status: u8,
    /// What the run of a script left, where one was run.
    pub run: Option<RunEnd>,
    /// What connections were served, where all were and that was written.
    pub served: Option<ServeEnd>,
}

/// Does what the words say: runs a script or a sample survey beside eliminators, serves the connections of a port, or does what
/// `plain_command` does.
///
/// To serve, the memory for the answer is taken first. Then the first line of the source is read, and no more of it; the surveys are
/// made; the door is asked once to listen; and it gives the connections, until there are as many as the words say.
pub fn command<
    R: Threads + Wait + Sync,
    S: Source,
    K: Sink,
    I: Source + Send + Drop,
    O: Sink + Send + Drop,
    D: Door<In = I, Out = O>,
    G: Gate + Sync,
>(
    rt: &R,
    alloc: Global,
    words: &[String],
    source: &mut S,
    sink: &mut K,
    door: &mut D,
    gate: &G,
) -> Ended
    ensures run { (eliminators : ℕ) → IsRunCommand words.now eliminators
        → RunsAndAnswers eliminators (S.left source.old) (S.left source.new) (K.written sink.old) (K.written sink.new) result }
    ensures sample_run { (seed : ℕ) (shape : Shape) (eliminators : ℕ) → IsSampleRunCommand words.now seed shape eliminators
        → SamplesShape seed shape (K.written sink.old) (K.written sink.new) result.status }
    ensures sample_unread { (seed : ℕ) (shape : Shape) (eliminators : ℕ) → IsSampleRunCommand words.now seed shape eliminators
        → source.new ≡ source.old }
    ensures serve { (port eliminators connections : ℕ) → IsServeCommand words.now port eliminators connections
        → ServesAndAnswers I.left I.faults O.written O.faults D.ends (S.left source.old) connections door.old door.new (K.written sink.old) (K.written sink.new) result }
    ensures plain { IsPlainCommand words.now
        → DoesPlainCommand words.now source.old source.new (S.left source.old) (S.left source.new) (K.written sink.old) (K.written sink.new) result.status }
    ensures no_run { ((eliminators : ℕ) → ¬ IsRunCommand words.now eliminators) → result.run ≡ None }
    ensures no_served { ((port eliminators connections : ℕ) → ¬ IsServeCommand words.now port eliminators connections)
        → (result.served ≡ None) × (door.new ≡ door.old) }
    ensures read_fault { CountsFaults (result.status ≡ 3) (S.faults source.old) (S.faults source.new) }
    ensures write_fault { CountsFaults (result.status ≡ 4) (K.faults sink.old) (K.faults sink.new) }
    ensures door_fault { CountsFaults (result.status ≡ 6) (D.faults door.old) (D.faults door.new) }

    // A command does its work where its input is right and no fault came, or there was no memory.
    ensures done { (named : Named) → command_in words.now ≡ Some named → HasInputFor named (S.left source.old)
        → (¬ HasRisen (S.faults source.old) (S.faults source.new)) → (¬ HasRisen (K.faults sink.old) (K.faults sink.new))
        → (¬ HasRisen (D.faults door.old) (D.faults door.new)) → (result.status ≡ 0) ⊎ (result.status ≡ 5) }
{
    match read_words(alloc, words) {
        Err(_) => with_status(NO_MEMORY),
        Ok(Some(Command::Run { eliminators })) => run(rt, alloc, eliminators, source, sink, gate),
        Ok(
            Some(
                Command::RunSample {
                    seed,
                    shape,
                    eliminators,
                },
            ),
        ) => with_status(sample_beside(rt, alloc, seed, &shape, eliminators, sink, gate)),
        Ok(
            Some(
                Command::Serve {
                    port,
                    eliminators,
                    connections,
                },
            ),
        ) => serve(
            rt,
            alloc,
            port,
            eliminators,
            connections,
            source,
            sink,
            door,
            gate,
        ),
        Ok(_) => with_status(plain_command(alloc, words, source, sink)),
    }
}

/// The end of a command that left only a status.
fn with_status(status: u8) -> Ended
    ensures { result ≡ record { status = status; run = None; served = None } }
{
    Ended {
        status,
        run: None,
        served: None,
    }
}

/// Runs the script of the source.
fn run<R: Threads + Wait + Sync, S: Source, K: Sink, G: Gate + Sync>(
    rt: &R,
    alloc: Global,
    eliminators: u8,
    source: &mut S,
    sink: &mut K,
    gate: &G,
) -> Ended
    requires { eliminators ≤ MAX_ELIMINATORS }
    ensures ran { RunsAndAnswers eliminators (S.left source.old) (S.left source.new) (K.written sink.old) (K.written sink.new) result }
    ensures no_served { result.served ≡ None }
    ensures read_fault { CountsFaults (result.status ≡ 3) (S.faults source.old) (S.faults source.new) }
    ensures no_door_fault { result.status ≢ 6 }
    ensures write_fault { CountsFaults (result.status ≡ 4) (K.faults sink.old) (K.faults sink.new) }
{
    let text = match Text::reserve(alloc, ROOM) {
        Ok(text) => text,
        Err(_) => return with_status(NO_MEMORY),
    };
    let outcome = run_script(rt, alloc, u32::from(eliminators), source, sink, gate);
    answer_script(text, outcome, sink)
}

/// Answers what came of a script: by the line of its refusal, in an empty text, and by its status.
fn answer_script<K: Sink>(text: Text, outcome: Result<RunEnd, Stop>, sink: &mut K) -> Ended
    requires no_door { outcome ≢ Err Stop.DoorFault }
    requires empty { text.bytes ≡ [] }
    requires room { text.room ≡ ROOM }
    ensures answered { AnswersScript outcome (K.written sink.old) (K.written sink.new) result }
    ensures no_served { result.served ≡ None }
    ensures read_fault { (result.status ≡ 3) ↔ (outcome ≡ Err Stop.ReadFault) }
    ensures no_door_fault { result.status ≢ 6 }
    ensures failed { IsWriteFault outcome → (result.status ≡ 4) × (K.faults sink.new ≡ K.faults sink.old) }
    ensures write_fault { (¬ IsWriteFault outcome) → CountsFaults (result.status ≡ 4) (K.faults sink.old) (K.faults sink.new) }
{
    match outcome {
        Ok(end) => Ended {
            status: DONE,
            run: Some(end),
            served: None,
        },
        Err(Stop::WriteFault(end)) => Ended {
            status: WRITE_FAULT,
            run: Some(end),
            served: None,
        },
        Err(Stop::Definition(fault)) => with_status(refuse_definition(text, fault, sink)),
        Err(Stop::Script { line, part }) => with_status(refuse_script(text, line, part, sink)),
        Err(Stop::ReadFault) => with_status(READ_FAULT),
        Err(Stop::NoMemory) => with_status(NO_MEMORY),
        Err(Stop::DoorFault) => unreachable!(),
    }
}

/// Answers a first line that is no definition, in an empty text.
fn refuse_definition<K: Sink>(mut text: Text, fault: DefinitionFault, sink: &mut K) -> u8
    requires empty { text.bytes ≡ [] }
    requires room { text.room ≡ ROOM }
    ensures written { Writes (definition_fault_line fault) 1 (K.written sink.old) (K.written sink.new) result }
    ensures no_read_fault { result ≢ 3 }
    ensures no_door_fault { result ≢ 6 }
    ensures write_fault { CountsFaults (result ≡ 4) (K.faults sink.old) (K.faults sink.new) }
{
    add_fault(&mut text, fault);
    write(text.bytes(), REFUSED, sink)
}

/// Answers a line of a script that fails, in an empty text.
fn refuse_script<K: Sink>(mut text: Text, line: u32, part: ScriptPart, sink: &mut K) -> u8
    requires empty { text.bytes ≡ [] }
    requires room { text.room ≡ ROOM }
    ensures written { Writes (script_line line part) 1 (K.written sink.old) (K.written sink.new) result }
    ensures no_read_fault { result ≢ 3 }
    ensures no_door_fault { result ≢ 6 }
    ensures write_fault { CountsFaults (result ≡ 4) (K.faults sink.old) (K.faults sink.new) }
{
    add_script_line(&mut text, line, part);
    write(text.bytes(), REFUSED, sink)
}

/// Adds the line of a script that fails to an empty text.
fn add_script_line(text: &mut Text, line: u32, part: ScriptPart)
    requires empty { text.old.bytes ≡ [] }
    requires room { text.old.room ≡ ROOM }
    ensures { text.new.bytes ≡ script_line line part }
{
    text.add(b"script ");
    text.add(Buffer::new().format(line).as_bytes());
    text.add(b" ");
    text.add(script_part_word(part));
    text.add(b"\n");
}

/// The word for what is wrong with a line of a script.
fn script_part_word(part: ScriptPart) -> &'static [u8]
    ensures { result.now ≡ script_part_text part }
{
    match part {
        ScriptPart::Long => b"long",
        ScriptPart::Lines => b"lines",
        ScriptPart::Hello => b"hello",
        ScriptPart::Sessions => b"sessions",
        ScriptPart::Name => b"name",
        ScriptPart::Code => b"code",
        ScriptPart::Desk => b"desk",
        ScriptPart::Bye => b"bye",
    }
}

/// Serves the surveys of the source's definition to `connections` connections at a port, beside `eliminators` eliminators.
fn serve<
    R: Threads + Wait + Sync,
    S: Source,
    K: Sink,
    I: Source + Send + Drop,
    O: Sink + Send + Drop,
    D: Door<In = I, Out = O>,
    G: Gate + Sync,
>(
    rt: &R,
    alloc: Global,
    port: u16,
    eliminators: u8,
    connections: u32,
    source: &mut S,
    sink: &mut K,
    door: &mut D,
    gate: &G,
) -> Ended
    requires eliminators { eliminators ≤ MAX_ELIMINATORS }
    requires connections { (1 ≤ connections) × (connections ≤ MAX_CONNECTIONS) }
    ensures served { ServesAndAnswers I.left I.faults O.written O.faults D.ends (S.left source.old) connections door.old door.new (K.written sink.old) (K.written sink.new) result }
    ensures no_run { result.run ≡ None }
    ensures read_fault { CountsFaults (result.status ≡ 3) (S.faults source.old) (S.faults source.new) }
    ensures write_fault { CountsFaults (result.status ≡ 4) (K.faults sink.old) (K.faults sink.new) }
    ensures door_fault { CountsFaults (result.status ≡ 6) (D.faults door.old) (D.faults door.new) }
{
    let text = match Text::reserve(alloc, ROOM) {
        Ok(text) => text,
        Err(_) => return with_status(NO_MEMORY),
    };
    let outcome = serve_definition(
        rt,
        alloc,
        port,
        connections,
        u32::from(eliminators),
        source,
        door,
        gate,
    );
    answer_serving(text, outcome, sink)
}

/// Answers what came of serving: by how many connections were served, by the line of its refusal, or by nothing, in an empty text, and
/// by its status.
fn answer_serving<K: Sink>(text: Text, outcome: Result<ServeEnd, Stop>, sink: &mut K) -> Ended
    requires stop { IfErr outcome IsServeStop }
    requires empty { text.bytes ≡ [] }
    requires room { text.room ≡ ROOM }
    ensures answered { AnswersServing outcome (K.written sink.old) (K.written sink.new) result }
    ensures no_run { result.run ≡ None }
    ensures read_fault { (result.status ≡ 3) ↔ (outcome ≡ Err Stop.ReadFault) }
    ensures door_fault { (result.status ≡ 6) ↔ (outcome ≡ Err Stop.DoorFault) }
    ensures write_fault { CountsFaults (result.status ≡ 4) (K.faults sink.old) (K.faults sink.new) }
{
    match outcome {
        Ok(end) => answer_served(text, end, sink),
        Err(Stop::Definition(fault)) => with_status(refuse_definition(text, fault, sink)),
        Err(Stop::ReadFault) => with_status(READ_FAULT),
        Err(Stop::DoorFault) => with_status(DOOR_FAULT),
        Err(Stop::NoMemory) => with_status(NO_MEMORY),
        Err(Stop::Script { .. }) | Err(Stop::WriteFault(_)) => unreachable!(),
    }
}

/// Answers the end of serving by how many connections were served, in an empty text, and by its status.
fn answer_served<K: Sink>(mut text: Text, end: ServeEnd, sink: &mut K) -> Ended
    requires empty { text.bytes ≡ [] }
    requires room { text.room ≡ ROOM }
    ensures answered { AnswersServed end (K.written sink.old) (K.written sink.new) result }
    ensures no_run { result.run ≡ None }
    ensures statuses { (result.status ≡ 0) ⊎ (result.status ≡ 4) }
    ensures write_fault { CountsFaults (result.status ≡ 4) (K.faults sink.old) (K.faults sink.new) }
{
    add_served(&mut text, end.count());
    match put_bytes(text.bytes(), sink) {
        Ok(()) => Ended {
            status: DONE,
            run: None,
            served: Some(end),
        },
        Err(_) => with_status(WRITE_FAULT),
    }
}

/// Adds how many connections were served to an empty text.
fn add_served(text: &mut Text, count: u32)
    requires empty { text.old.bytes ≡ [] }
    requires room { text.old.room ≡ ROOM }
    ensures { text.new.bytes ≡ served_line count }
{
    text.add(b"served ");
    text.add(Buffer::new().format(count).as_bytes());
    text.add(b"\n");
}
