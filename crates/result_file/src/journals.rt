//! Writes the journal of a survey as a result.
ghost use Rattle.std.specs.Prelude.{◌≡◌, ℕ, ◌+◌, ◌≤◌, List, [], ◌∷◌, ◌++◌, length, map, take, All, Option, Some, OnOk, OnErr};
ghost use Rattle.edges.specs.Faults.{HasRisen};
ghost use Rattle.edges.specs.Line.{line_end, unlines};
ghost use Rattle.edges.specs.Told.{Appends, AppendsPrefix};
ghost use Rattle.pair_enumeration.specs.Listed.{IsListed};
ghost use Rattle.survey_core.specs.declared.events.Event.{Event as SurveyEvent};
ghost use Rattle.survey_core.specs.Histories.{item_at};
ghost use Rattle.survey_core.specs.Legal.{IsLegal};
ghost use Rattle.survey_replies.specs.Calls.{Watches};
ghost use Rattle.result_file.specs.Events.{entry_on, as_entry, event_line, NamesClass};
ghost use Rattle.result_file.specs.Files.{file_text, result_of, IsRightFile, IsOut};
ghost use Rattle.result_file.specs.Numbers.{HasNumbers};

use crate::entries::Format;
use crate::kinds::Kind;
use crate::limits::MAX_LINE;
use crate::writing::{write_event, write_heading};
use criteria_model::{Model, Pair, Tuple};
use edges::{Failed, Sink, Text};
use survey_core::Event;
use survey_replies::Events;

/// Writes the first `count` events of the journal as a result in the second format. The text buffers what goes to the
/// sink: with more room the sink is called less often.
///
/// # Errors
///
/// The sink failed; a prefix of the result is out.
pub fn write_result<E: Events, K: Sink>(
    events: &mut E,
    count: u32,
    model: &Model,
    text: &mut Text,
    sink: &mut K,
) -> Result<(), Failed>
    requires waits { E.can_wait }
    requires within { count ≤ length (E.seen events.old).journal }
    requires model { model.now ≡ (E.listed (E.about events.old)).criteria }
    requires empty { text.old.bytes ≡ [] }
    requires room { MAX_LINE ≤ text.old.room }
    ensures written { OnOk result (Appends (K.written sink.old) (K.written sink.new)
        (file_text (result_of (E.listed (E.about events.old)) (take count (E.seen events.old).journal)))) }
    ensures right { OnOk result (IsRightFile (result_of (E.listed (E.about events.old)) (take count (E.seen events.old).journal))) }
    ensures quiet { OnOk result (K.faults sink.new ≡ K.faults sink.old) }
    ensures prefix { OnErr result (AppendsPrefix (K.written sink.old) (K.written sink.new)
        (file_text (result_of (E.listed (E.about events.old)) (take count (E.seen events.old).journal)))) }
    ensures failed { OnErr result (HasRisen (K.faults sink.old) (K.faults sink.new)) }
    ensures emptied { text.new.bytes ≡ [] }
    ensures room { text.new.room ≡ text.old.room }
    ensures watches { Watches (E.seen events.old) (E.seen events.new) }
    ensures same { E.about events.new ≡ E.about events.old }
{
    write_heading(model, text);
    write_events(events, count, text, sink)?;
    text.add(b"end\n");
    text.put_all(sink)
}

/// Writes the lines of the first `count` events after what is in the text.
fn write_events<E: Events, K: Sink>(
    events: &mut E,
    count: u32,
    text: &mut Text,
    sink: &mut K,
) -> Result<(), Failed>
    requires waits { E.can_wait }
    requires within { count ≤ length (E.seen events.old).journal }
    requires room { MAX_LINE ≤ text.old.room }
    ensures out { OnOk result (IsOut (K.written sink.old) (K.written sink.new) text.new.bytes
        (text.old.bytes ++ unlines (map (event_line (E.listed (E.about events.old)).classes) (take count (E.seen events.old).journal)))) }
    ensures free { OnOk result (length text.new.bytes + 4 ≤ text.new.room) }
    ensures numbers { OnOk result (All HasNumbers (take count (E.seen events.old).journal)) }
    ensures listed { IsListed (E.listed (E.about events.old)) }
    ensures legal { IsLegal (E.listed (E.about events.old)) (E.seen events.old).journal }
    ensures quiet { OnOk result (K.faults sink.new ≡ K.faults sink.old) }
    ensures prefix { OnErr result (AppendsPrefix (K.written sink.old) (K.written sink.new)
        (text.old.bytes ++ unlines (map (event_line (E.listed (E.about events.old)).classes) (take count (E.seen events.old).journal)))) }
    ensures failed { OnErr result (HasRisen (K.faults sink.old) (K.faults sink.new)) }
    ensures emptied { OnErr result (text.new.bytes ≡ []) }
    ensures room { text.new.room ≡ text.old.room }
    ensures watches { Watches (E.seen events.old) (E.seen events.new) }
    ensures same { E.about events.new ≡ E.about events.old }
{
    let _seen = events.length();
    make_room(text, sink)?;
    for place in 0..count {
        write_line(events, place + 1, text);
        make_room(text, sink)?;
    }
    Ok(())
}

/// Writes the line of the event at a place.
fn write_line<E: Events>(events: &mut E, place: u32, text: &mut Text)
    requires waits { E.can_wait }
    requires low { 1 ≤ place }
    requires high { place ≤ length (E.seen events.old).journal }
    requires class { (event : SurveyEvent) → item_at (E.seen events.old).journal place ≡ Some event → NamesClass (E.listed (E.about events.old)) event }
    requires room { length text.old.bytes + MAX_LINE ≤ text.old.room }
    ensures bytes { (event : SurveyEvent) → item_at (E.seen events.old).journal place ≡ Some event
        → text.new.bytes ≡ text.old.bytes ++ (event_line (E.listed (E.about events.old)).classes event ++ line_end ∷ []) }
    ensures numbers { (event : SurveyEvent) → item_at (E.seen events.old).journal place ≡ Some event → HasNumbers event }
    ensures room { text.new.room ≡ text.old.room }
    ensures watches { Watches (E.seen events.old) (E.seen events.new) }
    ensures same { E.about events.new ≡ E.about events.old }
{
    let event = events.event(place);
    let class = class_of(events, &event);
    write_event(&event, &class, text);
    text.add(b"\n");
}

/// The pair of an event's class, or any other where the event names no class.
fn class_of<E: Events>(events: &E, event: &Event) -> Pair
    requires { NamesClass (E.listed (E.about events.now)) event.now }
    ensures { entry_on result event.now ≡ as_entry (E.listed (E.about events.now)).classes event.now }
{
    match event {
        Event::Eliminate { place, .. } | Event::Issue { place, .. } => events.class_pair(*place),
        Event::Commit { .. } | Event::Close { .. } | Event::Withdraw { .. } => Pair {
            left: Tuple::of(&[0]),
            right: Tuple::of(&[0]),
        },
    }
}

/// Sends the text on where it has no room for a line.
fn make_room<K: Sink>(text: &mut Text, sink: &mut K) -> Result<(), Failed>
    requires { MAX_LINE ≤ text.old.room }
    ensures out { OnOk result ((before : Option (List ℕ)) (whole : List ℕ)
        → IsOut before (K.written sink.old) text.old.bytes whole → IsOut before (K.written sink.new) text.new.bytes whole) }
    ensures free { OnOk result (length text.new.bytes + MAX_LINE ≤ text.new.room) }
    ensures quiet { OnOk result (K.faults sink.new ≡ K.faults sink.old) }
    ensures prefix { OnErr result (AppendsPrefix (K.written sink.old) (K.written sink.new) text.old.bytes) }
    ensures failed { OnErr result (HasRisen (K.faults sink.old) (K.faults sink.new)) }
    ensures emptied { OnErr result (text.new.bytes ≡ []) }
    ensures room { text.new.room ≡ text.old.room }
{
    if text.free() >= MAX_LINE {
        return Ok(());
    }
    text.put_all(sink)
}
