//! The texts of replies.
ghost use Rattle.std.specs.Prelude.{◌≡◌, ℕ, ◌≤◌, [], All, length, map, OnErr, OnOk};
ghost use Rattle.std.specs.List.{concat};
ghost use Rattle.edges.specs.Faults.{HasRisen};
ghost use Rattle.edges.specs.Told.{Appends, AppendsPrefix};
ghost use Rattle.json_forms.specs.declared.replies.Reply.TheVariants.{Result as TheResult};
ghost use Rattle.json_forms.specs.Replies.{IsWritable};
ghost use Rattle.survey_replies.specs.Calls.{Watches};
ghost use Rattle.session_protocol.specs.Sessions.{CanBeWritten, text_of};

use criteria_model::Model;
use edges::{Failed, Sink, Text};
use json_forms::{Reply, write_reply};
use result_file::{MAX_LINE, write_result};
use survey_replies::Events;

/// Writes the texts of replies, one after another.
///
/// # Errors
///
/// The sink failed; some first bytes of the texts are out.
pub fn write_texts<E: Events, K: Sink>(
    events: &mut E,
    replies: &[Reply],
    model: &Model,
    text: &mut Text,
    sink: &mut K,
) -> Result<(), Failed>
    requires waits { E.can_wait }
    requires each { All (CanBeWritten (E.listed (E.about events.old)) (E.seen events.old).journal) replies.now }
    requires model { model.now ≡ (E.listed (E.about events.old)).criteria }
    requires empty { text.old.bytes ≡ [] }
    requires room { MAX_LINE ≤ text.old.room }
    ensures written { OnOk result (Appends (K.written sink.old) (K.written sink.new)
        (concat (map (text_of (E.listed (E.about events.old)) (E.seen events.old).journal) replies.now))) }
    ensures quiet { OnOk result (K.faults sink.new ≡ K.faults sink.old) }
    ensures prefix { OnErr result (AppendsPrefix (K.written sink.old) (K.written sink.new)
        (concat (map (text_of (E.listed (E.about events.old)) (E.seen events.old).journal) replies.now))) }
    ensures failed { OnErr result (HasRisen (K.faults sink.old) (K.faults sink.new)) }
    ensures emptied { text.new.bytes ≡ [] }
    ensures room { text.new.room ≡ text.old.room }
    ensures watches { Watches (E.seen events.old) (E.seen events.new) }
    ensures same { E.about events.new ≡ E.about events.old }
{
    for reply in replies {
        match write_text(events, reply, model, text, sink) {
            Ok(()) => {}
            Err(Failed) => return Err(Failed),
        }
    }
    Ok(())
}

/// Writes the text of a reply, which for `result` is that of the journal's first events.
///
/// # Errors
///
/// The sink failed; some first bytes of the text are out.
pub fn write_text<E: Events, K: Sink>(
    events: &mut E,
    reply: &Reply,
    model: &Model,
    text: &mut Text,
    sink: &mut K,
) -> Result<(), Failed>
    requires waits { E.can_wait }
    requires writable { IsWritable model.now.levels reply.now }
    requires within { (count : ℕ) → reply.now ≡ TheResult count → count ≤ length (E.seen events.old).journal }
    requires model { model.now ≡ (E.listed (E.about events.old)).criteria }
    requires empty { text.old.bytes ≡ [] }
    requires room { MAX_LINE ≤ text.old.room }
    ensures written { OnOk result (Appends (K.written sink.old) (K.written sink.new)
        (text_of (E.listed (E.about events.old)) (E.seen events.old).journal reply.now)) }
    ensures quiet { OnOk result (K.faults sink.new ≡ K.faults sink.old) }
    ensures prefix { OnErr result (AppendsPrefix (K.written sink.old) (K.written sink.new)
        (text_of (E.listed (E.about events.old)) (E.seen events.old).journal reply.now)) }
    ensures failed { OnErr result (HasRisen (K.faults sink.old) (K.faults sink.new)) }
    ensures emptied { text.new.bytes ≡ [] }
    ensures room { text.new.room ≡ text.old.room }
    ensures watches { Watches (E.seen events.old) (E.seen events.new) }
    ensures same { E.about events.new ≡ E.about events.old }
{
    if let Reply::Result { length } = reply {
        return write_result(events, *length, model, text, sink);
    }
    write_reply(reply, model, text);
    text.put_all(sink)
}
