//! A desk of a respondent's survey, for one connection at a time.
ghost use Rattle.std.specs.Prelude.{◌≡◌, ◌≤◌, [], IsTrue, OnErr, OnOk};
ghost use Rattle.std.specs.Arc.{arc_value};
ghost use Rattle.std.specs.Option.{ForSome};
ghost use Rattle.edges.specs.Faults.{CountsFaults, HasRisen};
ghost use Rattle.edges.specs.Lines.{ahead};
ghost use Rattle.edges.specs.Told.{Appends, AppendsPrefix, IsAtEnd};
ghost use Rattle.survey_core.specs.Legal.{IsDesk};
ghost use Rattle.session_protocol.specs.Sessions.{IsCountedSession, IsOverlong, session_view};
ghost use Rattle.shared_survey.specs.Passes.{IsPassOf, StaysPass, desk_of, pass_seen, survey_listed};
ghost use Rattle.survey_hall.specs.ConnectionViews.{connection_view};
ghost use Rattle.survey_hall.specs.Visits.{IsVisit, OwnsSeenPlaces, welcome_text};

use crate::texts::write_line;
use criteria_model::Model;
use edges::{Failed, Gate, Lines, Sink, Source, Text};
use eliminators::JobEnd;
use json_forms::Reply;
use result_file::MAX_LINE;
use session_protocol::{CountedEnd, MAX_MESSAGES, SessionEnd, session_counted};
use shared_survey::{Desk, Front, Pass, Survey};
use std::alloc::Global;
use std::sync::{Arc, Wait};

/// A desk while no connection is at it: its pass, beside the survey that it is one of.
#[derive(Drop)]
pub(crate) struct DeskSeat {
    survey: Arc<Survey>,
    pass: Pass,
    model: Model,
    // An end of the job line, and the survey's number on it.
    jobs: JobEnd,
    number: u32,
    ghost of: { IsPassOf (arc_value survey) pass },
    ghost of_desk: { IsDesk (desk_of pass) },
    ghost of_model: { (survey_listed (arc_value survey)).criteria ≡ model },
    ghost numbered: { (1 ≤ number) × (number ≤ jobs.surveys) },
    ghost owned: { OwnsSeenPlaces (pass_seen pass) },
}

/// What became of a connection at its desk.
#[derive(Drop)]
pub(crate) struct Visit {
    /// How many events the desk had seen when it was got.
    pub(crate) began: u32,
    /// All that it had seen at the end.
    pub(crate) front: Front,
    pub(crate) counted: CountedEnd,
}

impl DeskSeat {
    /// A desk at which nobody was.
    pub(crate) fn new(
        survey: Arc<Survey>,
        pass: Pass,
        model: Model,
        jobs: JobEnd,
        number: u32,
    ) -> DeskSeat
        requires pass { IsPassOf (arc_value survey) pass × IsDesk (desk_of pass) }
        requires fresh { (pass_seen pass).own ≡ [] }
        requires model { (survey_listed (arc_value survey)).criteria ≡ model }
        requires number { (1 ≤ number) × (number ≤ jobs.surveys) }
    {
        DeskSeat {
            survey,
            pass,
            model,
            jobs,
            number,
        }
    }

    /// Whether it is this desk of this respondent's survey, under this model.
    pub(crate) fn is_at(&self, respondent: u32, desk: u8, model: &Model) -> bool
        ensures { IsTrue result → (desk_of self.now.pass ≡ desk) × (self.now.model ≡ model.now) }
    {
        self.number == respondent && self.pass.desk() == desk && self.model == *model
    }

    /// Welcomes a connection, and runs its session. With `sends_jobs` the desk hands the job line a job after each answer
    /// that is accepted.
    pub(crate) fn serve<R: Wait + Sync, S: Source, K: Sink, G: Gate>(
        &mut self,
        rt: &R,
        alloc: Global,
        sends_jobs: bool,
        lines: &mut Lines,
        text: &mut Text,
        source: &mut S,
        sink: &mut K,
        gate: &G,
    ) -> Visit
        requires longest { lines.old.longest ≡ MAX_LINE }
        requires empty { text.old.bytes ≡ [] }
        requires room { MAX_LINE ≤ text.old.room }
        ensures run { IsVisit self.old.model (desk_of self.old.pass)
            (connection_view (ahead lines.old (S.left source.old)) (K.written sink.old))
            (connection_view (ahead lines.new (S.left source.new)) (K.written sink.new)) result.began result.front result.counted }
        ensures at_end { result.counted.end ≡ SessionEnd.EndOfInput → IsAtEnd (ahead lines.new (S.left source.new)) }
        ensures too_long { result.counted.end ≡ SessionEnd.LineTooLong → IsOverlong lines.new.kept }
        ensures read_faults { CountsFaults (result.counted.end ≡ SessionEnd.ReadFault) (S.faults source.old) (S.faults source.new) }
        ensures write_faults { CountsFaults (result.counted.end ≡ SessionEnd.WriteFault) (K.faults sink.old) (K.faults sink.new) }
    {
        let began = self.pass.front().length;
        match self.welcome(text, sink) {
            Ok(()) => {
                let counted = talk(
                    rt,
                    alloc,
                    &self.survey,
                    &mut self.pass,
                    lent_if(&self.jobs, sends_jobs),
                    self.number,
                    &self.model,
                    lines,
                    text,
                    source,
                    sink,
                    gate,
                );
                Visit {
                    began,
                    front: self.pass.front(),
                    counted,
                }
            }
            Err(Failed) => Visit {
                began,
                front: self.pass.front(),
                counted: cut_welcome(),
            },
        }
    }

    /// Writes the welcome.
    ///
    /// # Errors
    ///
    /// The sink failed; some first bytes of the line are out.
    fn welcome<K: Sink>(&self, text: &mut Text, sink: &mut K) -> Result<(), Failed>
        requires empty { text.old.bytes ≡ [] }
        requires room { MAX_LINE ≤ text.old.room }
        ensures written { OnOk result (Appends (K.written sink.old) (K.written sink.new) (welcome_text self.now.model (desk_of self.now.pass))) }
        ensures quiet { OnOk result (K.faults sink.new ≡ K.faults sink.old) }
        ensures prefix { OnErr result (AppendsPrefix (K.written sink.old) (K.written sink.new) (welcome_text self.now.model (desk_of self.now.pass))) }
        ensures failed { OnErr result (HasRisen (K.faults sink.old) (K.faults sink.new)) }
        ensures emptied { text.new.bytes ≡ [] }
        ensures room { text.new.room ≡ text.old.room }
    {
        let welcome = Reply::Welcome {
            classes: self.model.class_count(),
            desk: self.pass.desk(),
        };
        write_line(&welcome, &self.model, text, sink)
    }
}

/// The end of the job line, if jobs are sent.
fn lent_if(jobs: &JobEnd, sends_jobs: bool) -> Option<&JobEnd>
    ensures { ForSome result (λ end. end.now ≡ jobs.now) }
{
    if sends_jobs { Some(jobs) } else { None }
}

/// The end where the welcome couldn't be written.
fn cut_welcome() -> CountedEnd
    ensures { result ≡ record { end = SessionEnd.WriteFault; replies = 0 } }
{
    CountedEnd {
        end: SessionEnd::WriteFault,
        replies: 0,
    }
}

/// Runs a session by the pass.
fn talk<'a, R: Wait + Sync, S: Source, K: Sink, G: Gate>(
    rt: &'a R,
    alloc: Global,
    survey: &'a Survey,
    pass: &'a mut Pass,
    jobs: Option<&'a JobEnd>,
    number: u32,
    model: &Model,
    lines: &mut Lines,
    text: &mut Text,
    source: &mut S,
    sink: &mut K,
    gate: &'a G,
) -> CountedEnd
    requires pass { IsPassOf survey.now pass.old }
    requires desk { IsDesk (desk_of pass.old) }
    requires jobs { ForSome jobs (λ end. (1 ≤ number) × (number ≤ end.now.surveys)) }
    requires model { model.now ≡ (survey_listed survey.now).criteria }
    requires longest { lines.old.longest ≡ MAX_LINE }
    requires empty { text.old.bytes ≡ [] }
    requires room { MAX_LINE ≤ text.old.room }
    ensures session { IsCountedSession (survey_listed survey.now) (desk_of pass.old)
        (session_view (pass_seen pass.old) (ahead lines.old (S.left source.old)) (K.written sink.old))
        (session_view (pass_seen pass.new) (ahead lines.new (S.left source.new)) (K.written sink.new)) MAX_MESSAGES result }
    ensures pass { StaysPass survey.now pass.old pass.new }
    ensures owned { OwnsSeenPlaces (pass_seen pass.old) → OwnsSeenPlaces (pass_seen pass.new) }
    ensures at_end { result.end ≡ SessionEnd.EndOfInput → IsAtEnd (ahead lines.new (S.left source.new)) }
    ensures too_long { result.end ≡ SessionEnd.LineTooLong → IsOverlong lines.new.kept }
    ensures read_faults { CountsFaults (result.end ≡ SessionEnd.ReadFault) (S.faults source.old) (S.faults source.new) }
    ensures write_faults { CountsFaults (result.end ≡ SessionEnd.WriteFault) (K.faults sink.old) (K.faults sink.new) }
{
    let mut desk = Desk::lend(rt, survey, pass, jobs, number, gate);
    session_counted(alloc, &mut desk, model, lines, text, source, sink)
}
