//! What is left of surveys when all desks have spoken and all eliminators have worked.
ghost use Rattle.std.specs.Prelude.{◌≡◌, ℕ, ◌+◌, ◌≤◌, List, [], ◌∷◌, ◌++◌, length, vec_len, vec_capacity, IfOk};
ghost use mathlib.Core.List.{IsPrefix};
ghost use Rattle.criteria_model.specs.Criteria.{Criteria};
ghost use Rattle.survey_replies.specs.Calls.{unseen};
ghost use Rattle.survey_replies.specs.JournalLaws.{WorkerRun};
ghost use Rattle.shared_survey.specs.declared.pass.Pass.{Pass as PassSeen};
ghost use Rattle.shared_survey.specs.Passes.{IsPassOf, pass_seen, pass_weight, survey_listed};
ghost use Rattle.survey_script.specs.ScriptViews.{ScriptSessionView};
ghost use Rattle.survey_run.specs.Each.{EachFrom, EachZipFrom, StackFrom};
ghost use Rattle.survey_run.specs.Ends.{AreNumbered, DeskPart, EndAt, Gathers};
ghost use Rattle.survey_run.specs.Joins.{SpeechAt, SpokenAt, WorkedAt};
ghost use Rattle.survey_run.specs.Tops.{HasTop, LosesTop};

use crate::desks::Spoken;
use crate::plans::DeskTold;
use crate::runs::SurveySpoken;
use json_forms::NoMemory;
use shared_survey::{Pass, Survey};
use survey_state::State;

/// What is left of a survey: its state, and what each desk told.
#[derive(Drop)]
pub(crate) struct SurveyEnd {
    pub(crate) state: State,
    pub(crate) told: Vec<DeskTold>,
}

/// Joins what the desks brought back.
///
/// # Errors
///
/// Out of memory: some desk was.
fn join_desks(
    survey: &Survey,
    whole: &mut Pass,
    spoken: Vec<Spoken>,
    mut told: Vec<DeskTold>,
) -> Result<Vec<DeskTold>, NoMemory>
    requires pass { IsPassOf survey.now whole.old × (pass_seen whole.old ≡ unseen) }
    requires spoken { (respondent : ℕ) × (sessions : List ScriptSessionView) × EachFrom (SpeechAt survey.now respondent sessions) 0 spoken.items }
    requires room { (told.items ≡ []) × (vec_len spoken ≤ vec_capacity told) }
    ensures pass { IfOk result (λ _. IsPassOf survey.now whole.new × (pass_weight whole.new ≡ pass_weight whole.old + vec_len spoken)) }
    ensures told { IfOk result (λ told. (respondent : ℕ) (sessions : List ScriptSessionView) → EachFrom (SpeechAt survey.now respondent sessions) 0 spoken.items
        → (parts : List DeskPart) × (length parts ≡ vec_len spoken) × Gathers (survey_listed survey.now) respondent sessions (pass_seen whole.new) parts [] told.items) }
{
    for one in spoken {
        let Spoken {
            pass,
            told: sessions,
        } = one;
        let sessions = sessions?;
        survey.join(whole, pass);
        told.push_reserved(DeskTold { sessions });
    }
    Ok(told)
}

/// Joins the pass that each eliminator has of the survey, the top of its passes.
pub(crate) fn join_workers(survey: &Survey, whole: &mut Pass, worked: &mut Vec<Vec<Pass>>)
    requires pass { IsPassOf survey.now whole.old }
    requires tops { EachFrom (HasTop survey.now) 0 worked.old.items }
    ensures pass { IsPassOf survey.now whole.new × (pass_weight whole.new ≡ pass_weight whole.old + vec_len worked.old) }
    ensures lost { EachZipFrom LosesTop 0 worked.old.items worked.new.items }
    ensures runs { (respondent : ℕ) (sessions : List ScriptSessionView) (parts : List DeskPart) (told : List DeskTold)
        → Gathers (survey_listed survey.now) respondent sessions (pass_seen whole.old) parts [] told
        → (runs : List WorkerRun) × AreNumbered (vec_len worked.old) runs × Gathers (survey_listed survey.now) respondent sessions (pass_seen whole.new) parts runs told }
{
    for passes in worked.iter_mut() {
        join_top(survey, whole, passes);
    }
}

/// Joins the top of an eliminator's passes.
fn join_top(survey: &Survey, whole: &mut Pass, passes: &mut Vec<Pass>)
    requires pass { IsPassOf survey.now whole.old }
    requires top { (n : ℕ) × HasTop survey.now n passes.old }
    ensures top { (top : PassSeen) × (passes.old.items ≡ passes.new.items ++ top ∷ []) × IsPassOf survey.now whole.new
        × (pass_weight whole.new ≡ pass_weight whole.old + pass_weight top)
        × IsPrefix (pass_seen whole.old).journal (pass_seen whole.new).journal × IsPrefix (pass_seen top).journal (pass_seen whole.new).journal
        × ((pass_seen whole.new).own ≡ (pass_seen whole.old).own ++ (pass_seen top).own) }
{
    if let Some(pass) = passes.pop() {
        survey.join(whole, pass);
    }
}

/// Joins all passes of a survey, and ends it.
///
/// # Errors
///
/// Out of memory: some desk was.
fn close_survey(
    survey: Survey,
    spoken: SurveySpoken,
    worked: &mut Vec<Vec<Pass>>,
) -> Result<SurveyEnd, NoMemory>
    requires spoken { (criteria : Criteria) × (n : ℕ) × (sessions : List ScriptSessionView) × SpokenAt criteria (vec_len worked.old) sessions n survey spoken }
    requires tops { EachFrom (HasTop survey) 0 worked.old.items }
    ensures lost { IfOk result (λ _. EachZipFrom LosesTop 0 worked.old.items worked.new.items) }
    ensures end { IfOk result (λ end. (criteria : Criteria) (n : ℕ) (sessions : List ScriptSessionView) → SpokenAt criteria (vec_len worked.old) sessions n survey spoken
        → (parts : List DeskPart) × EndAt criteria (vec_len worked.old) sessions n parts end) }
{
    let SurveySpoken {
        mut whole,
        spoken,
        told,
    } = spoken;
    let told = join_desks(&survey, &mut whole, spoken, told)?;
    join_workers(&survey, &mut whole, worked);
    let state = survey.close(whole);
    // For its clauses: the journal is a legal history of the survey.
    state.length();
    Ok(SurveyEnd { state, told })
}

/// Ends all surveys.
///
/// # Errors
///
/// Out of memory: some desk was.
pub(crate) fn close_surveys(
    surveys: Vec<Survey>,
    mut spoken: Vec<SurveySpoken>,
    mut worked: Vec<Vec<Pass>>,
    mut ends: Vec<SurveyEnd>,
) -> Result<Vec<SurveyEnd>, NoMemory>
    requires spoken { (criteria : Criteria) × (sessions : List ScriptSessionView) × StackFrom (SpokenAt criteria (vec_len worked) sessions) 0 surveys.items spoken.items }
    requires worked { EachFrom (WorkedAt surveys.items) 0 worked.items }
    requires room { (ends.items ≡ []) × (vec_len surveys ≤ vec_capacity ends) }
    ensures { IfOk result (λ ends. (criteria : Criteria) (sessions : List ScriptSessionView) → StackFrom (SpokenAt criteria (vec_len worked) sessions) 0 surveys.items spoken.items
        → (parts : List (List DeskPart)) × (length parts ≡ vec_len surveys) × EachZipFrom (EndAt criteria (vec_len worked) sessions) 0 parts ends.items) }
{
    for survey in surveys {
        let Some(one) = spoken.pop() else {
            unreachable!()
        };
        ends.push_reserved(close_survey(survey, one, &mut worked)?);
    }
    Ok(ends)
}
