//! What a run of a script comes to. Each function does nothing; its contract is the law.
ghost use Rattle.survey_run.specs.Laws.{AnswersStaySatisfiable, DeskReadsWhatItWrote, EachEliminateHasItsMaker, EachEventHasItsReply, EachReplyStands, EliminatedWereRanked, IssuedWereOpen, OneDeskRunsPlain};

/// At each point of the journal some values meet the answers that stand then.
pub fn answers_stay_satisfiable()
    ensures { AnswersStaySatisfiable }
{}

/// Each eliminated class is ranked as the elimination says by the answers before it.
pub fn eliminated_were_ranked()
    ensures { EliminatedWereRanked }
{}

/// The vectors of each question open its class by the answers before it, which leave the class open.
pub fn issued_were_open()
    ensures { IssuedWereOpen }
{}

/// Each reply is the right one in the final journal, at its place.
pub fn each_reply_stands()
    ensures { EachReplyStands }
{}

/// No reply of a desk is made before the last turn of an earlier one.
pub fn desk_reads_what_it_wrote()
    ensures { DeskReadsWhatItWrote }
{}

/// Each event that is no elimination belongs to exactly one reply.
pub fn each_event_has_its_reply()
    ensures { EachEventHasItsReply }
{}

/// Each elimination is by a session or by one of the eliminators.
pub fn each_eliminate_has_its_maker()
    ensures { EachEliminateHasItsMaker }
{}

/// Where all sessions are of one desk, eliminations change no reply.
pub fn one_desk_runs_plain()
    ensures { OneDeskRunsPlain }
{}
