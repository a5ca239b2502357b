//! Serves connections.
ghost use Rattle.std.specs.Prelude.{◌≡◌, ◌≤◌, [], Some, OnErr, OnOk};
ghost use Rattle.edges.specs.Faults.{CountsFaults, HasRisen};
ghost use Rattle.edges.specs.Lines.{ahead};
ghost use Rattle.edges.specs.Told.{Appends, AppendsPrefix, IsAtEnd};
ghost use Rattle.session_protocol.specs.Sessions.{IsOverlong};
ghost use Rattle.survey_hall.specs.ConnectionViews.{connection_view};
ghost use Rattle.survey_hall.specs.Connections.{IsServed, IsServedToBye, IsWholeConnection, ServedBy, end_of_connection, refusal_text};

use crate::greetings::{Greeting, greet};
use crate::halls::Hall;
use crate::served::Served;
use crate::texts::write_line;
use edges::{Failed, Gate, Lines, Sink, Source, Text};
use json_forms::{Reply, Word};
use result_file::MAX_LINE;
use session_protocol::SessionEnd;
use std::alloc::Global;
use std::sync::Wait;

/// Serves a connection: reads its hello, waits for the desk, welcomes and runs the session. The desk is free again afterwards.
///
/// If eliminators of a `serve` on this hall are at work when the desk is got, the session hands the hall's job line a job after each
/// answer that is accepted. Where that `serve` ends first, a job of the survey stays on the line until an eliminator of another takes it.
pub fn serve_connection<R: Wait + Sync, S: Source, K: Sink, G: Gate>(
    rt: &R,
    alloc: Global,
    hall: &Hall,
    source: &mut S,
    sink: &mut K,
    gate: &G,
) -> Served
    ensures served { IsServed hall.now.definition (connection_view (S.left source.old) (K.written sink.old))
        (connection_view (S.left source.new) (K.written sink.new)) result }
    ensures read_faults { CountsFaults (end_of_connection result ≡ Some SessionEnd.ReadFault) (S.faults source.old) (S.faults source.new) }
    ensures write_faults { CountsFaults (end_of_connection result ≡ Some SessionEnd.WriteFault) (K.faults sink.old) (K.faults sink.new) }

    // Where no fault came, a hello that passes its tests is served up to its bye, or there was no memory.
    ensures done { IsWholeConnection hall.now.definition (S.left source.old) → (¬ HasRisen (S.faults source.old) (S.faults source.new))
        → (¬ HasRisen (K.faults sink.old) (K.faults sink.new)) → IsServedToBye result }
{
    let Ok(mut lines) = Lines::reserve(alloc, MAX_LINE) else {
        return Served::Early(SessionEnd::NoMemory);
    };
    let Ok(mut text) = Text::reserve(alloc, MAX_LINE) else {
        return Served::Early(SessionEnd::NoMemory);
    };
    serve_lines(rt, alloc, hall, &mut lines, &mut text, source, sink, gate)
}

/// Serves a connection by these lines, and a text for what is written.
fn serve_lines<R: Wait + Sync, S: Source, K: Sink, G: Gate>(
    rt: &R,
    alloc: Global,
    hall: &Hall,
    lines: &mut Lines,
    text: &mut Text,
    source: &mut S,
    sink: &mut K,
    gate: &G,
) -> Served
    requires longest { lines.old.longest ≡ MAX_LINE }
    requires empty { text.old.bytes ≡ [] }
    requires room { MAX_LINE ≤ text.old.room }
    ensures served { ServedBy hall.now.definition lines.new.kept
        (connection_view (ahead lines.old (S.left source.old)) (K.written sink.old))
        (connection_view (ahead lines.new (S.left source.new)) (K.written sink.new)) result }
    ensures at_end { end_of_connection result ≡ Some SessionEnd.EndOfInput → IsAtEnd (ahead lines.new (S.left source.new)) }
    ensures too_long { end_of_connection result ≡ Some SessionEnd.LineTooLong → IsOverlong lines.new.kept }
    ensures read_faults { CountsFaults (end_of_connection result ≡ Some SessionEnd.ReadFault) (S.faults source.old) (S.faults source.new) }
    ensures write_faults { CountsFaults (end_of_connection result ≡ Some SessionEnd.WriteFault) (K.faults sink.old) (K.faults sink.new) }
{
    match greet(alloc, hall.definition(), lines, source) {
        Greeting::Admits(admitted) => {
            let run = hall.run_at(rt, alloc, admitted, lines, text, source, sink, gate);
            Served::Ran {
                began: run.began,
                front: run.front,
                replies: run.counted.replies,
                end: run.counted.end,
            }
        }
        Greeting::Refuses(word) => match refuse(hall, word, text, sink) {
            Ok(()) => Served::Refused(word),
            Err(Failed) => Served::Early(SessionEnd::WriteFault),
        },
        Greeting::Ends(SessionEnd::LineTooLong) => match refuse(hall, Word::Line, text, sink) {
            Ok(()) => Served::Early(SessionEnd::LineTooLong),
            Err(Failed) => Served::Early(SessionEnd::WriteFault),
        },
        Greeting::Ends(end) => Served::Early(end),
    }
}

/// Writes the line of a refusal.
///
/// # Errors
///
/// The sink failed; some first bytes of the line are out.
fn refuse<K: Sink>(hall: &Hall, word: Word, text: &mut Text, sink: &mut K) -> Result<(), Failed>
    requires empty { text.old.bytes ≡ [] }
    requires room { MAX_LINE ≤ text.old.room }
    ensures written { OnOk result (Appends (K.written sink.old) (K.written sink.new) (refusal_text word)) }
    ensures quiet { OnOk result (K.faults sink.new ≡ K.faults sink.old) }
    ensures prefix { OnErr result (AppendsPrefix (K.written sink.old) (K.written sink.new) (refusal_text word)) }
    ensures failed { OnErr result (HasRisen (K.faults sink.old) (K.faults sink.new)) }
{
    write_line(
        &Reply::Refused(word),
        &hall.definition().model(),
        text,
        sink,
    )
}
