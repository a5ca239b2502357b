//! The texts of the replies to a script.
ghost use Rattle.std.specs.Prelude.{◌≡◌, ◌≤◌, [], All, OnErr, OnOk, map};
ghost use Rattle.std.specs.List.{concat};
ghost use Rattle.edges.specs.Faults.{HasRisen};
ghost use Rattle.edges.specs.Told.{Appends, AppendsPrefix};
ghost use Rattle.json_forms.specs.DefinitionViews.{model_of};
ghost use Rattle.row_laws.specs.Items.{item_at};
ghost use Rattle.session_protocol.specs.Sessions.{CanBeWritten, text_of};
ghost use Rattle.survey_server.specs.ScriptTexts.{AreWritable, EachHasReplies, replies_text, text_by_lines};

use criteria_model::{Model, Pair};
use edges::{Failed, Sink, Text};
use json_forms::Reply;
use pair_enumeration::Classes;
use result_file::MAX_LINE;
use session_protocol::write_texts;
use survey_core::Event;
use survey_replies::Events;
use survey_run::RunEnd;
use survey_script::{Script, ScriptSession};
use survey_state::State;

/// The journal of a state that is lent.
#[derive(Drop)]
struct LentJournal<'a> {
    state: &'a State,
}

impl<'a> Events for LentJournal<'a> {
    type About = Classes;

    ghost about = { λ lent. lent.state.now.listed };

    ghost listed = { λ about. about };

    ghost seen = { λ lent. record { journal = lent.state.now.journal; own = [] } };

    ghost can_wait = { Unit {0} };

    fn length(&self) -> u32 {
        self.state.length()
    }

    fn event(&mut self, place: u32) -> Event {
        self.state.event(place)
    }

    fn class_pair(&self, place: u32) -> Pair {
        self.state.core().class(place)
    }
}

/// Writes the texts of the replies to a script's lines, in input order.
///
/// # Errors
///
/// The sink failed; some first bytes of the texts are out.
pub(crate) fn write_replies<K: Sink>(
    script: &Script,
    end: &RunEnd,
    text: &mut Text,
    sink: &mut K,
) -> Result<(), Failed>
    requires able { EachHasReplies (model_of script.now.definition) end.now.states script.now.sessions end.now.replies }
    requires empty { text.old.bytes ≡ [] }
    requires room { MAX_LINE ≤ text.old.room }
    ensures written { OnOk result (Appends (K.written sink.old) (K.written sink.new)
        (text_by_lines end.now.states script.now.sessions end.now.replies)) }
    ensures quiet { OnOk result (K.faults sink.new ≡ K.faults sink.old) }
    ensures prefix { OnErr result (AppendsPrefix (K.written sink.old) (K.written sink.new)
        (text_by_lines end.now.states script.now.sessions end.now.replies)) }
    ensures failed { OnErr result (HasRisen (K.faults sink.old) (K.faults sink.new)) }
{
    let model = script.definition().model();
    let sessions = script.sessions();
    let mut replies = end.reply_list();
    for session in sessions {
        let (own, later) = replies.split_at(session.messages().len() + 1);
        match write_session(end, session, own, &model, text, sink) {
            Ok(()) => {}
            Err(Failed) => return Err(Failed),
        }
        replies = later;
    }
    Ok(())
}

/// Writes the texts of the replies to a session's lines.
fn write_session<K: Sink>(
    end: &RunEnd,
    session: &ScriptSession,
    replies: &[Reply],
    model: &Model,
    text: &mut Text,
    sink: &mut K,
) -> Result<(), Failed>
    requires able { AreWritable model.now (item_at end.now.states session.now.respondent) replies.now }
    requires empty { text.old.bytes ≡ [] }
    requires room { MAX_LINE ≤ text.old.room }
    ensures written { OnOk result (Appends (K.written sink.old) (K.written sink.new)
        (replies_text (item_at end.now.states session.now.respondent) replies.now)) }
    ensures quiet { OnOk result (K.faults sink.new ≡ K.faults sink.old) }
    ensures prefix { OnErr result (AppendsPrefix (K.written sink.old) (K.written sink.new)
        (replies_text (item_at end.now.states session.now.respondent) replies.now)) }
    ensures failed { OnErr result (HasRisen (K.faults sink.old) (K.faults sink.new)) }
    ensures emptied { text.new.bytes ≡ [] }
    ensures room { text.new.room ≡ text.old.room }
{
    write_of_state(end.state(session.respondent()), replies, model, text, sink)
}

/// Writes the texts of replies by the final state of their respondent's survey.
fn write_of_state<K: Sink>(
    state: &State,
    replies: &[Reply],
    model: &Model,
    text: &mut Text,
    sink: &mut K,
) -> Result<(), Failed>
    requires each { All (CanBeWritten state.now.listed state.now.journal) replies.now }
    requires model { model.now ≡ state.now.listed.criteria }
    requires empty { text.old.bytes ≡ [] }
    requires room { MAX_LINE ≤ text.old.room }
    ensures written { OnOk result (Appends (K.written sink.old) (K.written sink.new)
        (concat (map (text_of state.now.listed state.now.journal) replies.now))) }
    ensures quiet { OnOk result (K.faults sink.new ≡ K.faults sink.old) }
    ensures prefix { OnErr result (AppendsPrefix (K.written sink.old) (K.written sink.new)
        (concat (map (text_of state.now.listed state.now.journal) replies.now))) }
    ensures failed { OnErr result (HasRisen (K.faults sink.old) (K.faults sink.new)) }
    ensures emptied { text.new.bytes ≡ [] }
    ensures room { text.new.room ≡ text.old.room }
{
    let mut journal = LentJournal { state };
    write_texts(&mut journal, replies, model, text, sink)
}
