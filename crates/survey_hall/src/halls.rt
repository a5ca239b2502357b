//! Halls: the desks of a definition's surveys.
ghost use Rattle.std.specs.Prelude.{◌≡◌, ◌≤◌, ◌+◌, ◌*◌, ◌-◌, [], All, length, IfOk, OnOk, vec_len, vec_capacity};
ghost use Rattle.std.specs.Arc.{arc_value};
ghost use Rattle.std.specs.Sync.Mutex.{mutex_guard_value};
ghost use Rattle.edges.specs.Faults.{CountsFaults};
ghost use Rattle.edges.specs.Lines.{ahead};
ghost use Rattle.edges.specs.Told.{IsAtEnd};
ghost use Rattle.json_forms.specs.DefinitionViews.{model_of};
ghost use Rattle.json_forms.specs.declared.definition_faults.TheConstants.{MAX_RESPONDENTS};
ghost use Rattle.session_protocol.specs.Sessions.{IsOverlong};
ghost use Rattle.shared_survey.specs.Passes.{IsPassOf, desk_of, pass_weight, survey_listed};
ghost use Rattle.survey_core.specs.Legal.{IsDesk};
ghost use Rattle.survey_hall.specs.ConnectionViews.{connection_view};
ghost use Rattle.survey_hall.specs.Visits.{IsVisit};

use crate::desk_seats::{DeskSeat, Visit};
use crate::eliminator_seats::EliminatorSeat;
use criteria_model::Model;
use decider::Tools;
use edges::{Gate, Lines, Sink, Source, Text};
use eliminators::{JobEnd, job_line};
use json_forms::{Definition, NoMemory};
use result_file::MAX_LINE;
use session_protocol::SessionEnd;
use shared_survey::{Pass, Survey};
use std::alloc::Global;
use std::sync::atomic::{AtomicU64, Ordering};
use std::sync::{Arc, Mutex, MutexGuard, Wait};
use survey_core::{MAX_DESKS, MAX_WORKERS};
use survey_script::Admitted;

/// A survey for each respondent of a definition. Each of its desks is for one connection at a time.
#[derive(Drop)]
pub struct Hall {
    definition: Definition,
    // How many eliminators there are passes for.
    workers: u32,
    // Those of the last respondent, then those of the one before, and so on.
    desks: Vec<Mutex<DeskSeat>>,
    // One for each worker. There is none behind a lock while a call has it at work.
    eliminators: Vec<Mutex<Option<EliminatorSeat>>>,
    // The end of the job line by which eliminators are told to stop.
    stops: JobEnd,
    // How many eliminators take jobs.
    takers: AtomicU64,
}

impl std::marker::Model for Hall {
    ghost use Rattle.std.specs.Prelude.{◌≡◌, ◌*◌, length, vec_len};
    ghost use Rattle.survey_core.specs.declared.limits.TheConstants.{MAX_DESKS};
    ghost use Rattle.survey_hall.specs.HallViews.{HallView};

    ghost Value = { HallView };

    ghost view = { λ hall. record { definition = hall.definition; workers = hall.workers } };

    ghost invariant = { λ hall. (vec_len hall.desks ≡ MAX_DESKS * length hall.definition.respondents) × (vec_len hall.eliminators ≡ hall.workers) };
}

impl Hall {
    /// A hall in which nothing was asked, with room for `workers` eliminators.
    ///
    /// # Errors
    ///
    /// Out of memory.
    pub fn build(alloc: Global, definition: Definition, workers: u32) -> Result<Hall, NoMemory>
        requires { workers ≤ MAX_WORKERS }
        ensures { IfOk result (λ hall. hall ≡ record { definition = definition; workers = workers }) }
    {
        let model = definition.model();
        let respondents = definition.respondents();
        let line = job_line(alloc, respondents)?;
        let mut seats = new_eliminators(alloc, &model, workers, respondents, &line)?;
        let desks = all_desks(alloc, &model, respondents, &line, &mut seats)?;
        let eliminators = behind_locks(alloc, seats)?;
        Ok(Hall {
            definition,
            workers,
            desks,
            eliminators,
            stops: line,
            takers: AtomicU64::new(0),
        })
    }

    /// The definition.
    pub fn definition(&self) -> &Definition
        ensures { result.now ≡ self.now.definition }
    {
        &self.definition
    }

    /// Waits for a desk, and runs a connection there from the welcome on.
    pub(crate) fn run_at<R: Wait + Sync, S: Source, K: Sink, G: Gate>(
        &self,
        rt: &R,
        alloc: Global,
        admitted: Admitted,
        lines: &mut Lines,
        text: &mut Text,
        source: &mut S,
        sink: &mut K,
        gate: &G,
    ) -> Visit
        requires respondent { (1 ≤ admitted.respondent) × (admitted.respondent ≤ length self.now.definition.respondents) }
        requires desk { IsDesk admitted.desk }
        requires longest { lines.old.longest ≡ MAX_LINE }
        requires empty { text.old.bytes ≡ [] }
        requires room { MAX_LINE ≤ text.old.room }
        ensures run { IsVisit (model_of self.now.definition) admitted.desk
            (connection_view (ahead lines.old (S.left source.old)) (K.written sink.old))
            (connection_view (ahead lines.new (S.left source.new)) (K.written sink.new)) result.began result.front result.counted }
        ensures at_end { result.counted.end ≡ SessionEnd.EndOfInput → IsAtEnd (ahead lines.new (S.left source.new)) }
        ensures too_long { result.counted.end ≡ SessionEnd.LineTooLong → IsOverlong lines.new.kept }
        ensures read_faults { CountsFaults (result.counted.end ≡ SessionEnd.ReadFault) (S.faults source.old) (S.faults source.new) }
        ensures write_faults { CountsFaults (result.counted.end ≡ SessionEnd.WriteFault) (K.faults sink.old) (K.faults sink.new) }
    {
        let mut seat = self.wait_for(rt, admitted);
        let sends_jobs = self.takers.load(Ordering::SeqCst) > 0;
        seat.serve(rt, alloc, sends_jobs, lines, text, source, sink, gate)
    }

    /// Waits for a desk.
    fn wait_for<R: Wait>(&self, rt: &R, admitted: Admitted) -> MutexGuard<'_, DeskSeat>
        requires respondent { (1 ≤ admitted.respondent) × (admitted.respondent ≤ length self.now.definition.respondents) }
        requires desk { IsDesk admitted.desk }
        ensures desk { desk_of (mutex_guard_value result).pass ≡ admitted.desk }
        ensures model { (mutex_guard_value result).model ≡ model_of self.now.definition }
    {
        let lock = self.desk(admitted.respondent, admitted.desk);
        let model = self.definition.model();
        for _ in rt.forever() {
            let seat = lock.lock(rt);
            // What rests behind a lock is known by its type alone. Each lock has its own desk, so this holds at the first try.
            if seat.is_at(admitted.respondent, admitted.desk, &model) {
                return seat;
            }
        }
        unreachable!()
    }

    /// The lock of a desk of a respondent's survey.
    fn desk(&self, respondent: u32, desk: u8) -> &Mutex<DeskSeat>
        requires respondent { (1 ≤ respondent) × (respondent ≤ length self.now.definition.respondents) }
        requires desk { IsDesk desk }
    {
        let before = (self.definition.respondents() - respondent) as usize * usize::from(MAX_DESKS);
        &self.desks[before + usize::from(desk) - 1]
    }

    /// Takes the eliminator at a place to work; none where it is at work.
    pub(crate) fn take_eliminator<R: Wait>(&self, rt: &R, place: usize) -> Option<EliminatorSeat> {
        match self.eliminators.get(place) {
            Some(lock) => lock.lock(rt).take(),
            None => None,
        }
    }

    /// Puts the eliminator at a place to rest.
    pub(crate) fn put_eliminator<R: Wait>(&self, rt: &R, place: usize, seat: EliminatorSeat) {
        if let Some(lock) = self.eliminators.get(place) {
            *lock.lock(rt) = Some(seat);
        }
    }

    /// `count` more eliminators take jobs.
    pub(crate) fn begin_jobs(&self, count: u64) {
        self.takers.fetch_add(count, Ordering::SeqCst);
    }

    /// `count` eliminators take no more jobs, and are told to stop.
    pub(crate) fn end_jobs<R: Wait>(&self, rt: &R, count: u64) {
        self.takers.fetch_sub(count, Ordering::SeqCst);
        for _ in 0..count {
            self.stops.stop(rt);
        }
    }
}

/// The eliminators, with no pass yet.
///
/// # Errors
///
/// Out of memory.
fn new_eliminators(
    alloc: Global,
    model: &Model,
    workers: u32,
    respondents: u32,
    line: &JobEnd,
) -> Result<Vec<EliminatorSeat>, NoMemory>
    requires workers { workers ≤ MAX_WORKERS }
    requires line { line.now.surveys ≡ respondents }
    ensures many { IfOk result (λ seats. vec_len seats ≡ workers) }
    ensures models { IfOk result (λ seats. All (λ seat. seat.model ≡ model.now) seats.items) }
{
    let mut seats = Vec::with_capacity(alloc, workers as usize)?;
    for place in 0..workers {
        let tools = Tools::reserve(alloc, model)?;
        let jobs = line.another(alloc)?;
        let number = place as u8 + 1;
        seats.push_reserved(EliminatorSeat::new(alloc, number, *model, tools, jobs, respondents));
    }
    Ok(seats)
}

/// The eliminators at rest, each behind a lock.
///
/// # Errors
///
/// Out of memory.
fn behind_locks(
    alloc: Global,
    seats: Vec<EliminatorSeat>,
) -> Result<Vec<Mutex<Option<EliminatorSeat>>>, NoMemory>
    ensures { IfOk result (λ locks. vec_len locks ≡ vec_len seats) }
{
    let mut locks = Vec::new(alloc);
    for seat in seats {
        locks.push(Mutex::new(Some(seat)))?;
    }
    Ok(locks)
}

/// The desks of a survey for each respondent, from the last respondent on. Each eliminator gets a pass of each survey.
///
/// # Errors
///
/// Out of memory.
fn all_desks(
    alloc: Global,
    model: &Model,
    respondents: u32,
    line: &JobEnd,
    seats: &mut Vec<EliminatorSeat>,
) -> Result<Vec<Mutex<DeskSeat>>, NoMemory>
    requires few { respondents ≤ MAX_RESPONDENTS }
    requires line { line.now.surveys ≡ respondents }
    requires workers { vec_len seats.old ≤ MAX_WORKERS }
    requires models { All (λ seat. seat.model ≡ model.now) seats.old.items }
    ensures desks { IfOk result (λ desks. vec_len desks ≡ MAX_DESKS * respondents) }
    ensures workers { OnOk result (vec_len seats.new ≡ vec_len seats.old) }
{
    let count = usize::from(MAX_DESKS) * respondents as usize;
    let mut desks = Vec::with_capacity(alloc, count)?;
    for place in 0..respondents {
        let number = respondents - place;
        add_survey(alloc, model, number, line, &mut desks, seats)?;
    }
    Ok(desks)
}

/// Adds the desks of a new survey of the respondent with this number, and a pass of it to each eliminator.
///
/// # Errors
///
/// Out of memory.
fn add_survey(
    alloc: Global,
    model: &Model,
    number: u32,
    line: &JobEnd,
    desks: &mut Vec<Mutex<DeskSeat>>,
    seats: &mut Vec<EliminatorSeat>,
) -> Result<(), NoMemory>
    requires number { (1 ≤ number) × (number ≤ line.now.surveys) }
    requires room { vec_len desks.old + MAX_DESKS ≤ vec_capacity desks.old }
    requires workers { vec_len seats.old ≤ MAX_WORKERS }
    requires models { All (λ seat. seat.model ≡ model.now) seats.old.items }
    ensures added { OnOk result (vec_len desks.new ≡ vec_len desks.old + MAX_DESKS) }
    ensures room { vec_capacity desks.new ≡ vec_capacity desks.old }
    ensures workers { OnOk result (vec_len seats.new ≡ vec_len seats.old) }
    ensures models { OnOk result (All (λ seat. seat.model ≡ model.now) seats.new.items) }
{
    let passes = u32::from(MAX_DESKS) + 1 + seats.len() as u32;
    let (survey, mut whole) = Survey::build(alloc, model, passes)?;
    let survey = Arc::new(alloc, survey)?;
    add_desks(alloc, &survey, &mut whole, model, number, line, desks)?;
    add_passes(&survey, &mut whole, model, seats)
}

/// Adds the desks of a survey.
///
/// # Errors
///
/// Out of memory.
fn add_desks(
    alloc: Global,
    survey: &Arc<Survey>,
    whole: &mut Pass,
    model: &Model,
    number: u32,
    line: &JobEnd,
    desks: &mut Vec<Mutex<DeskSeat>>,
) -> Result<(), NoMemory>
    requires pass { IsPassOf (arc_value survey.now) whole.old × (MAX_DESKS + 1 ≤ pass_weight whole.old) }
    requires model { (survey_listed (arc_value survey.now)).criteria ≡ model.now }
    requires number { (1 ≤ number) × (number ≤ line.now.surveys) }
    requires room { vec_len desks.old + MAX_DESKS ≤ vec_capacity desks.old }
    ensures pass { OnOk result (IsPassOf (arc_value survey.now) whole.new × (pass_weight whole.new + MAX_DESKS ≡ pass_weight whole.old)) }
    ensures added { OnOk result (vec_len desks.new ≡ vec_len desks.old + MAX_DESKS) }
    ensures room { vec_capacity desks.new ≡ vec_capacity desks.old }
{
    for place in 0..MAX_DESKS {
        let seat = new_seat(alloc, survey, whole, place + 1, model, number, line)?;
        desks.push_reserved(Mutex::new(seat));
    }
    Ok(())
}

/// Adds a pass of a survey to each eliminator.
///
/// # Errors
///
/// Out of memory.
fn add_passes(
    survey: &Arc<Survey>,
    whole: &mut Pass,
    model: &Model,
    seats: &mut Vec<EliminatorSeat>,
) -> Result<(), NoMemory>
    requires pass { IsPassOf (arc_value survey.now) whole.old × (vec_len seats.old + 1 ≤ pass_weight whole.old) }
    requires model { (survey_listed (arc_value survey.now)).criteria ≡ model.now }
    requires models { All (λ seat. seat.model ≡ model.now) seats.old.items }
    ensures len { OnOk result (vec_len seats.new ≡ vec_len seats.old) }
    ensures models { OnOk result (All (λ seat. seat.model ≡ model.now) seats.new.items) }
{
    for place in 0..seats.len() {
        let pass = survey.worker_pass(whole);
        let of = Arc::try_clone(survey)?;
        seats[place].add(of, pass)?;
    }
    Ok(())
}

/// A desk, with a pass that is split off.
///
/// # Errors
///
/// Out of memory.
fn new_seat(
    alloc: Global,
    survey: &Arc<Survey>,
    whole: &mut Pass,
    desk: u8,
    model: &Model,
    number: u32,
    line: &JobEnd,
) -> Result<DeskSeat, NoMemory>
    requires pass { IsPassOf (arc_value survey.now) whole.old × (2 ≤ pass_weight whole.old) }
    requires desk { IsDesk desk }
    requires model { (survey_listed (arc_value survey.now)).criteria ≡ model.now }
    requires number { (1 ≤ number) × (number ≤ line.now.surveys) }
    ensures pass { OnOk result (IsPassOf (arc_value survey.now) whole.new × (pass_weight whole.new + 1 ≡ pass_weight whole.old)) }
{
    let pass = survey.pass(alloc, whole, desk)?;
    let survey = Arc::try_clone(survey)?;
    let jobs = line.another(alloc)?;
    Ok(DeskSeat::new(survey, pass, *model, jobs, number))
}
