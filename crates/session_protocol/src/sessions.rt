//! Whole sessions, from a source to a sink.
ghost use Rattle.std.specs.Prelude.{◌≡◌, ◌≢◌, ◌⊎◌, ℕ, ◌≤◌, List, [], ◌∷◌, ◌++◌, Option, OnOk, IfErr};
ghost use Rattle.std.specs.Io.KnownBytes.{prepend_known};
ghost use Rattle.edges.specs.Faults.{CountsFaults};
ghost use Rattle.edges.specs.Line.{line_end};
ghost use Rattle.edges.specs.Lines.{KeepsLimits, ahead};
ghost use Rattle.edges.specs.Told.{IsAtEnd};
ghost use Rattle.json_forms.specs.Replies.{json_line, refused_json};
ghost use Rattle.session_protocol.specs.Sessions.{EndsAfter, IsCountedSession, IsEndAtLine, IsLine, IsOverlong, IsSession, SessionGoesOn, refusals, session_view};

use crate::handling::handle;
use crate::writing::write_text;
use criteria_model::Model;
use edges::{Failed, LineGot, Lines, Sink, Source, Text};
use json_forms::{Reply, Word};
use result_file::MAX_LINE;
use std::alloc::Global;
use survey_replies::{Events, Respondent};

/// The most messages of a session.
pub const MAX_MESSAGES: u32 = 65_536;

/// How a session ended.
#[derive(Clone, Copy, PartialEq, Eq, Debug)]
pub enum SessionEnd {
    /// A bye was answered.
    Bye,
    /// Input ended before a bye; a piece of a line is dropped.
    EndOfInput,
    /// A line was too long.
    LineTooLong,
    /// As many messages as are allowed were answered, and none was a bye.
    Messages,
    /// The source failed.
    ReadFault,
    /// The sink failed.
    WriteFault,
    /// Out of memory before a message was read; nothing was recorded for it.
    NoMemory,
}

/// How a session ended, and how many replies were made.
#[derive(Clone, Copy, PartialEq, Eq, Debug)]
pub struct CountedEnd {
    /// How it ended.
    pub end: SessionEnd,
    /// How many messages got a reply; after a write fault the last one may be out in part.
    pub replies: u32,
}

/// Answers the lines of a session after the hello, up to its end.
pub fn session<R: Respondent, S: Source, K: Sink>(
    alloc: Global,
    respondent: &mut R,
    model: &Model,
    lines: &mut Lines,
    text: &mut Text,
    source: &mut S,
    sink: &mut K,
) -> SessionEnd
    requires waits { R.can_wait }
    requires model { model.now ≡ (R.listed (R.about respondent.old)).criteria }
    requires longest { lines.old.longest ≡ MAX_LINE }
    requires empty { text.old.bytes ≡ [] }
    requires room { MAX_LINE ≤ text.old.room }
    ensures session { IsSession (R.listed (R.about respondent.old)) (R.desk (R.about respondent.old))
        (session_view (R.seen respondent.old) (ahead lines.old (S.left source.old)) (K.written sink.old))
        (session_view (R.seen respondent.new) (ahead lines.new (S.left source.new)) (K.written sink.new)) MAX_MESSAGES result }
    ensures at_end { result ≡ SessionEnd.EndOfInput → IsAtEnd (ahead lines.new (S.left source.new)) }
    ensures too_long { result ≡ SessionEnd.LineTooLong → IsOverlong lines.new.kept }
    ensures read_faults { CountsFaults (result ≡ SessionEnd.ReadFault) (S.faults source.old) (S.faults source.new) }
    ensures write_faults { CountsFaults (result ≡ SessionEnd.WriteFault) (K.faults sink.old) (K.faults sink.new) }
    ensures limits { KeepsLimits lines.old lines.new }
    ensures emptied { text.new.bytes ≡ [] }
    ensures room { text.new.room ≡ text.old.room }
    ensures same { R.about respondent.new ≡ R.about respondent.old }
{
    session_counted(alloc, respondent, model, lines, text, source, sink).end
}

/// The same, with the number of replies.
pub fn session_counted<R: Respondent, S: Source, K: Sink>(
    alloc: Global,
    respondent: &mut R,
    model: &Model,
    lines: &mut Lines,
    text: &mut Text,
    source: &mut S,
    sink: &mut K,
) -> CountedEnd
    requires waits { R.can_wait }
    requires model { model.now ≡ (R.listed (R.about respondent.old)).criteria }
    requires longest { lines.old.longest ≡ MAX_LINE }
    requires empty { text.old.bytes ≡ [] }
    requires room { MAX_LINE ≤ text.old.room }
    ensures session { IsCountedSession (R.listed (R.about respondent.old)) (R.desk (R.about respondent.old))
        (session_view (R.seen respondent.old) (ahead lines.old (S.left source.old)) (K.written sink.old))
        (session_view (R.seen respondent.new) (ahead lines.new (S.left source.new)) (K.written sink.new)) MAX_MESSAGES result }
    ensures at_end { result.end ≡ SessionEnd.EndOfInput → IsAtEnd (ahead lines.new (S.left source.new)) }
    ensures too_long { result.end ≡ SessionEnd.LineTooLong → IsOverlong lines.new.kept }
    ensures read_faults { CountsFaults (result.end ≡ SessionEnd.ReadFault) (S.faults source.old) (S.faults source.new) }
    ensures write_faults { CountsFaults (result.end ≡ SessionEnd.WriteFault) (K.faults sink.old) (K.faults sink.new) }
    ensures limits { KeepsLimits lines.old lines.new }
    ensures emptied { text.new.bytes ≡ [] }
    ensures room { text.new.room ≡ text.old.room }
    ensures same { R.about respondent.new ≡ R.about respondent.old }
{
    for count in 0..MAX_MESSAGES {
        match answer_next(alloc, respondent, model, lines, text, source, sink) {
            Ok(()) => {}
            Err(ended) => return counted(ended.end, count + ended.replies),
        }
    }
    let end = refuse(
        respondent,
        Word::Messages,
        SessionEnd::Messages,
        model,
        text,
        sink,
    );
    counted(end, MAX_MESSAGES)
}

/// An end after so many replies.
fn counted(end: SessionEnd, replies: u32) -> CountedEnd
    ensures { result ≡ record { end = end; replies = replies } }
{
    CountedEnd { end, replies }
}

/// Reads and answers the next line.
///
/// # Errors
///
/// The session ends here.
fn answer_next<R: Respondent, S: Source, K: Sink>(
    alloc: Global,
    respondent: &mut R,
    model: &Model,
    lines: &mut Lines,
    text: &mut Text,
    source: &mut S,
    sink: &mut K,
) -> Result<(), CountedEnd>
    requires waits { R.can_wait }
    requires model { model.now ≡ (R.listed (R.about respondent.old)).criteria }
    requires longest { lines.old.longest ≡ MAX_LINE }
    requires empty { text.old.bytes ≡ [] }
    requires room { MAX_LINE ≤ text.old.room }
    ensures goes { OnOk result (SessionGoesOn (R.listed (R.about respondent.old)) (R.desk (R.about respondent.old))
        (session_view (R.seen respondent.old) (ahead lines.old (S.left source.old)) (K.written sink.old))
        (session_view (R.seen respondent.new) (ahead lines.new (S.left source.new)) (K.written sink.new)) 1) }
    ensures ends { IfErr result (IsCountedSession (R.listed (R.about respondent.old)) (R.desk (R.about respondent.old))
        (session_view (R.seen respondent.old) (ahead lines.old (S.left source.old)) (K.written sink.old))
        (session_view (R.seen respondent.new) (ahead lines.new (S.left source.new)) (K.written sink.new)) 1) }
    ensures more { IfErr result (λ ended. ended.end ≢ SessionEnd.Messages) }
    ensures few { IfErr result (λ ended. ended.replies ≤ 1) }
    ensures at_end { IfErr result (λ ended. ended.end ≡ SessionEnd.EndOfInput → IsAtEnd (ahead lines.new (S.left source.new))) }
    ensures too_long { IfErr result (λ ended. ended.end ≡ SessionEnd.LineTooLong → IsOverlong lines.new.kept) }
    ensures quiet_source { OnOk result (S.faults source.new ≡ S.faults source.old) }
    ensures read_faults { IfErr result (λ ended. CountsFaults (ended.end ≡ SessionEnd.ReadFault) (S.faults source.old) (S.faults source.new)) }
    ensures quiet_sink { OnOk result (K.faults sink.new ≡ K.faults sink.old) }
    ensures write_faults { IfErr result (λ ended. CountsFaults (ended.end ≡ SessionEnd.WriteFault) (K.faults sink.old) (K.faults sink.new)) }
    ensures limits { KeepsLimits lines.old lines.new }
    ensures emptied { text.new.bytes ≡ [] }
    ensures room { text.new.room ≡ text.old.room }
    ensures same { R.about respondent.new ≡ R.about respondent.old }
{
    match lines.next_line(source) {
        LineGot::Line => answer_line(alloc, respondent, model, lines.line(), text, sink),
        LineGot::Piece => Err(counted(SessionEnd::EndOfInput, 0)),
        LineGot::End => Err(counted(SessionEnd::EndOfInput, 0)),
        LineGot::TooLong => {
            let end = refuse(
                respondent,
                Word::Line,
                SessionEnd::LineTooLong,
                model,
                text,
                sink,
            );
            Err(counted(end, 0))
        }
        LineGot::ReadFault => Err(counted(SessionEnd::ReadFault, 0)),
    }
}

/// Answers a line.
///
/// # Errors
///
/// The session ends here.
fn answer_line<R: Respondent, K: Sink>(
    alloc: Global,
    respondent: &mut R,
    model: &Model,
    line: &[u8],
    text: &mut Text,
    sink: &mut K,
) -> Result<(), CountedEnd>
    requires waits { R.can_wait }
    requires model { model.now ≡ (R.listed (R.about respondent.old)).criteria }
    requires line { IsLine line.now }
    requires empty { text.old.bytes ≡ [] }
    requires room { MAX_LINE ≤ text.old.room }
    ensures goes { OnOk result ((rest : Option (List ℕ)) →
        SessionGoesOn (R.listed (R.about respondent.old)) (R.desk (R.about respondent.old))
        (session_view (R.seen respondent.old) (prepend_known (line.now ++ line_end ∷ []) rest) (K.written sink.old))
        (session_view (R.seen respondent.new) rest (K.written sink.new)) 1) }
    ensures ends { IfErr result (λ ended. (rest : Option (List ℕ)) →
        IsCountedSession (R.listed (R.about respondent.old)) (R.desk (R.about respondent.old))
        (session_view (R.seen respondent.old) (prepend_known (line.now ++ line_end ∷ []) rest) (K.written sink.old))
        (session_view (R.seen respondent.new) rest (K.written sink.new)) 1 ended) }
    ensures here { IfErr result (λ ended. IsEndAtLine ended.end) }
    ensures few { IfErr result (λ ended. ended.replies ≤ 1) }
    ensures quiet { OnOk result (K.faults sink.new ≡ K.faults sink.old) }
    ensures faults { IfErr result (λ ended. CountsFaults (ended.end ≡ SessionEnd.WriteFault) (K.faults sink.old) (K.faults sink.new)) }
    ensures emptied { text.new.bytes ≡ [] }
    ensures room { text.new.room ≡ text.old.room }
    ensures same { R.about respondent.new ≡ R.about respondent.old }
{
    let reply = match handle(alloc, respondent, line) {
        Ok(reply) => reply,
        Err(_) => return Err(counted(SessionEnd::NoMemory, 0)),
    };
    match write_text(respondent, &reply, model, text, sink) {
        Ok(()) => go_on(&reply),
        Err(Failed) => Err(counted(SessionEnd::WriteFault, 1)),
    }
}

/// Whether the session goes on after a reply: a bye ends it.
fn go_on(reply: &Reply) -> Result<(), CountedEnd>
    ensures goes { OnOk result (reply.now ≢ Reply.Bye) }
    ensures ends { IfErr result (λ ended. (ended ≡ record { end = SessionEnd.Bye; replies = 1 }) × (reply.now ≡ Reply.Bye)) }
{
    match reply {
        Reply::Bye => Err(counted(SessionEnd::Bye, 1)),
        _ => Ok(()),
    }
}

/// Writes the line of a refusal before the end that it tells of.
fn refuse<E: Events, K: Sink>(
    events: &mut E,
    word: Word,
    end: SessionEnd,
    model: &Model,
    text: &mut Text,
    sink: &mut K,
) -> SessionEnd
    requires waits { E.can_wait }
    requires refusal { refusals end ≡ json_line (refused_json word) ∷ [] }
    requires model { model.now ≡ (E.listed (E.about events.old)).criteria }
    requires empty { text.old.bytes ≡ [] }
    requires room { MAX_LINE ≤ text.old.room }
    ensures session { (desk most : ℕ) (ahead : Option (List ℕ)) → EndsAfter most end [] →
        IsCountedSession (E.listed (E.about events.old)) desk
        (session_view (E.seen events.old) ahead (K.written sink.old))
        (session_view (E.seen events.new) ahead (K.written sink.new)) most (record { end = result; replies = 0 }) }
    ensures end { (result ≡ end) ⊎ (result ≡ SessionEnd.WriteFault) }
    ensures faults { CountsFaults (result ≡ SessionEnd.WriteFault) (K.faults sink.old) (K.faults sink.new) }
    ensures emptied { text.new.bytes ≡ [] }
    ensures room { text.new.room ≡ text.old.room }
    ensures same { E.about events.new ≡ E.about events.old }
{
    match write_text(events, &Reply::Refused(word), model, text, sink) {
        Ok(()) => end,
        Err(Failed) => SessionEnd::WriteFault,
    }
}

#[cfg(test)]
mod tests;
