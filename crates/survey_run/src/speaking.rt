//! What a desk says in its sessions.
ghost use Rattle.std.specs.Prelude.{◌≡◌, ◌+◌, ◌≤◌, [], length, vec_capacity, IfOk};
ghost use Rattle.std.specs.List.{AllZip};
ghost use Rattle.survey_run.specs.Desks.{HasSessionRoom, SaysAll, SaysOne, is_at, lists_of};

use json_forms::{NoMemory, Reply};
use session_protocol::handle_message;
use survey_replies::Respondent;
use survey_script::ScriptSession;

/// Whether the session is one of this respondent at this desk.
pub(crate) fn is_session_at(session: &ScriptSession, respondent: u32, desk: u8) -> bool
    ensures { result ≡ is_at respondent desk session.now }
{
    session.respondent() == respondent && session.desk() == desk
}

/// Answers the lines of a session: a welcome to the hello, and a reply to each message. They are put into the room.
///
/// # Errors
///
/// Out of memory.
fn answer_session<R: Respondent>(
    respondent: &mut R,
    session: &ScriptSession,
    classes: u32,
    mut room: Vec<Reply>,
) -> Result<Vec<Reply>, NoMemory>
    requires waits { R.can_wait }
    requires classes { classes ≡ length (R.listed (R.about respondent.old)).classes }
    requires desk { session.now.desk ≡ R.desk (R.about respondent.old) }
    requires room { (room.items ≡ []) × (length session.now.messages + 1 ≤ vec_capacity room) }
    ensures said { IfOk result (λ replies. SaysOne (R.listed (R.about respondent.old)) session.now.respondent session.now.desk
        (R.seen respondent.old) (R.seen respondent.new) session.now replies.items) }
    ensures same { R.about respondent.new ≡ R.about respondent.old }
{
    room.push_reserved(Reply::Welcome {
        classes,
        desk: session.desk(),
    });
    for message in session.messages() {
        let reply = handle_message(respondent, message)?;
        room.push_reserved(reply);
    }
    Ok(room)
}

/// The same where the session is the desk's; else nothing is said.
fn speak_in<R: Respondent>(
    respondent: &mut R,
    number: u32,
    desk: u8,
    session: &ScriptSession,
    classes: u32,
    room: Vec<Reply>,
) -> Result<Vec<Reply>, NoMemory>
    requires waits { R.can_wait }
    requires classes { classes ≡ length (R.listed (R.about respondent.old)).classes }
    requires desk { desk ≡ R.desk (R.about respondent.old) }
    requires room { HasSessionRoom number desk session.now room }
    ensures said { IfOk result (λ replies. SaysOne (R.listed (R.about respondent.old)) number desk
        (R.seen respondent.old) (R.seen respondent.new) session.now replies.items) }
    ensures same { R.about respondent.new ≡ R.about respondent.old }
{
    if !is_session_at(session, number, desk) {
        return Ok(room);
    }
    answer_session(respondent, session, classes, room)
}

/// Says what the desk says in the sessions, one after another. Each has a room for its replies.
///
/// # Errors
///
/// Out of memory. The later sessions weren't held.
pub(crate) fn speak_all<R: Respondent>(
    respondent: &mut R,
    number: u32,
    desk: u8,
    sessions: &[ScriptSession],
    classes: u32,
    rooms: Vec<Vec<Reply>>,
    mut told: Vec<Vec<Reply>>,
) -> Result<Vec<Vec<Reply>>, NoMemory>
    requires waits { R.can_wait }
    requires classes { classes ≡ length (R.listed (R.about respondent.old)).classes }
    requires desk { desk ≡ R.desk (R.about respondent.old) }
    requires rooms { AllZip (HasSessionRoom number desk) sessions.now rooms.items }
    requires told { (told.items ≡ []) × (length sessions.now ≤ vec_capacity told) }
    ensures said { IfOk result (λ told. SaysAll (R.listed (R.about respondent.old)) number desk
        (R.seen respondent.old) (R.seen respondent.new) sessions.now (lists_of told)) }
    ensures same { R.about respondent.new ≡ R.about respondent.old }
{
    for room in rooms {
        let session = &sessions[told.len()];
        told.push_reserved(speak_in(respondent, number, desk, session, classes, room)?);
    }
    Ok(told)
}
