//! The replies to all lines of a script, in input order.
ghost use Rattle.std.specs.Prelude.{◌≡◌, ℕ, ◌+◌, ◌≤◌, List, [], ◌++◌, Some, length, map, flat_map, slice_get, vec_len, vec_capacity};
ghost use Rattle.json_forms.specs.DefinitionViews.{model_of};
ghost use Rattle.survey_script.specs.ScriptViews.{line_count};
ghost use Rattle.survey_run.specs.Collects.{run_at, runs_from};
ghost use Rattle.survey_run.specs.Each.{EachZipFrom};
ghost use Rattle.survey_run.specs.Ends.{DeskPart, EndAt};
ghost use Rattle.survey_run.specs.Runs.{count_of};
ghost use Rattle.survey_run.specs.Sessions.{IsRunOf, replies_of};
ghost use Rattle.survey_run.specs.Collecting.{AreEndsOf};

use crate::ends::SurveyEnd;
use json_forms::Reply;
use survey_script::{Script, ScriptSession};
use survey_state::State;

/// The replies to the lines of the session at a place of the script.
fn session_replies<'a>(
    ends: &'a [SurveyEnd],
    script: &Script,
    session: &ScriptSession,
    place: usize,
) -> &'a [Reply]
    requires ends { AreEndsOf script.now ends.now }
    requires session { slice_get script.now.sessions place ≡ Some session.now }
    ensures replies { (workers : ℕ) (parts : List (List DeskPart))
        → EachZipFrom (EndAt (model_of script.now.definition) workers script.now.sessions) 0 parts ends.now
        → (result.now ≡ replies_of (count_of (model_of script.now.definition)) (run_at parts session.now place)) × IsRunOf session.now (run_at parts session.now place) }
    ensures count { length result.now ≡ length session.now.messages + 1 }
{
    let end = &ends[session.respondent() as usize - 1];
    let told = &end.told[usize::from(session.desk()) - 1];
    told.sessions[place].as_slice()
}

/// Adds replies at the end.
fn add_replies(replies: &mut Vec<Reply>, more: &[Reply])
    requires { length replies.old.items + length more.now ≤ vec_capacity replies.old }
    ensures items { replies.new.items ≡ replies.old.items ++ more.now }
    ensures room { vec_capacity replies.new ≡ vec_capacity replies.old }
{
    for reply in more {
        replies.push_reserved(*reply);
    }
}

/// The replies to all lines, put into the room.
pub(crate) fn collect_replies(
    script: &Script,
    ends: &[SurveyEnd],
    mut replies: Vec<Reply>,
) -> Vec<Reply>
    requires ends { AreEndsOf script.now ends.now }
    requires room { (replies.items ≡ []) × (line_count script.now.sessions ≤ vec_capacity replies) }
    ensures replies { (workers : ℕ) (parts : List (List DeskPart))
        → EachZipFrom (EndAt (model_of script.now.definition) workers script.now.sessions) 0 parts ends.now
        → result.items ≡ flat_map (replies_of (count_of (model_of script.now.definition))) (runs_from parts 0 script.now.sessions) }
    ensures count { length result.items ≡ line_count script.now.sessions }
{
    let sessions = script.sessions();
    for place in 0..sessions.len() {
        let more = session_replies(ends, script, &sessions[place], place);
        add_replies(&mut replies, more);
    }
    replies
}

/// The states of the surveys, put into the room.
pub(crate) fn collect_states(ends: Vec<SurveyEnd>, mut states: Vec<State>) -> Vec<State>
    requires { (states.items ≡ []) × (vec_len ends ≤ vec_capacity states) }
    ensures { result.items ≡ map (λ end. end.state) ends.items }
{
    for end in ends {
        let SurveyEnd { state, told: _ } = end;
        states.push_reserved(state);
    }
    states
}
