//! Definitions: the criteria with their levels, the degree limit, and the respondents with their codes.
ghost use Rattle.std.specs.Prelude.{◌≡◌, ◌≤◌, ◌<◌, ◌↔◌, ◌+◌, ◌-◌, ◌^◌, Some, None, Ok, length, map, min, option_map, option_and_then, IfOk, IsTrue, MatchResult};
ghost use Rattle.row_laws.specs.Items.{item_at};
ghost use Rattle.criteria_model.specs.Faults.{model_fault};
ghost use Rattle.json_forms.specs.DefinitionViews.{level_counts, model_of};
ghost use Rattle.json_forms.specs.EntryViews.{criterion_view};
ghost use Rattle.json_forms.specs.declared.definition_faults.DefinitionFault.TheVariants.{Model as ModelOf};
ghost use Rattle.json_forms.specs.Definitions.{IsStop, definition_of, name_fault, number_of, tested};

use crate::by_name::{criteria_by_name, respondents_by_name};
use crate::definition_faults::{DefinitionFault, DefinitionStop, MAX_RESPONDENTS};
use crate::definition_form::{DefinitionForm, read_form};
use crate::names::has_names;
use criteria_model::Model;
use edges::NoMemory;
use indexmap::{IndexMap, IndexSet};
use std::alloc::Global;

/// A survey's criteria with their levels, its degree limit, and its respondents with their codes.
#[derive(Drop)]
pub struct Definition {
    model: Model,
    criteria: IndexMap<String, IndexSet<String>>,
    respondents: IndexMap<String, String>,
}

impl std::marker::Model for Definition {
    ghost use Rattle.std.specs.Prelude.{◌≡◌, ◌≤◌, length, map};
    ghost use Rattle.criteria_model.specs.declared.limits.TheConstants.{MAX_INCREMENTS};
    ghost use Rattle.criteria_model.specs.Worth.{increments};
    ghost use Rattle.json_forms.specs.declared.definition_faults.TheConstants.{MAX_RESPONDENTS};
    ghost use Rattle.json_forms.specs.DefinitionViews.{DefinitionView, level_counts};
    ghost use Rattle.json_forms.specs.EntryViews.{kept_criterion, respondent_view};

    ghost Value = { DefinitionView };

    ghost view = { λ d. record {
      criteria = map kept_criterion d.criteria.entries;
      degree = d.model.degree;
      respondents = map respondent_view d.respondents.entries;
    } };

    // The bound on increments bounds each criterion's levels, so that their numbers fit.
    ghost invariant = { λ d. (d.model.levels ≡ level_counts (map kept_criterion d.criteria.entries))
        × (increments d.model.levels ≤ MAX_INCREMENTS)
        × (1 ≤ length d.respondents.entries) × (length d.respondents.entries ≤ MAX_RESPONDENTS) };
}

impl Definition {
    /// The model.
    pub fn model(&self) -> Model
        ensures { result ≡ model_of self.now }
    {
        self.model
    }

    /// How many respondents there are.
    pub fn respondents(&self) -> u32
        ensures value { result ≡ length self.now.respondents }
        ensures range { (1 ≤ result) × (result ≤ MAX_RESPONDENTS) }
    {
        self.respondents.len() as u32
    }

    /// The number of the respondent of this name.
    pub fn respondent(&self, name: &[u8]) -> Option<u32>
        ensures { result ≡ number_of name.now (map (λ r. r.name) self.now.respondents) }
    {
        let respondents = &self.respondents;
        let Ok(name) = simdutf8::compat::from_utf8(name) else {
            return None;
        };
        let place = respondents.get_index_of(name)?;
        Some(place as u32 + 1)
    }

    /// Whether this is the code of the respondent with this number.
    pub fn code_is(&self, respondent: u32, code: &[u8]) -> bool
        ensures { IsTrue result ↔ (option_map (λ r. r.code) (item_at self.now.respondents respondent) ≡ Some code.now) }
    {
        if respondent == 0 {
            return false;
        }
        match self.respondents.get_index(respondent as usize - 1) {
            Some((_, kept)) => kept.as_bytes() == code,
            None => false,
        }
    }

    /// The name of the criterion with this number.
    pub fn criterion_name(&self, criterion: u8) -> &[u8]
        requires { (1 ≤ criterion) × (criterion ≤ length self.now.criteria) }
        ensures { option_map (λ c. c.name) (item_at self.now.criteria criterion) ≡ Some result.now }
    {
        match self.criteria.get_index(usize::from(criterion) - 1) {
            Some((name, _)) => name.as_bytes(),
            None => unreachable!(),
        }
    }

    /// The level of this name on the criterion with this number; levels count from 1, the lowest.
    pub fn level_of(&self, criterion: u8, name: &[u8]) -> Option<u8>
        requires { (1 ≤ criterion) × (criterion ≤ length self.now.criteria) }
        ensures { result ≡ option_and_then (λ c. number_of name.now c.levels) (item_at self.now.criteria criterion) }
    {
        let (_, levels) = self.criteria.get_index(usize::from(criterion) - 1)?;
        let Ok(name) = simdutf8::compat::from_utf8(name) else {
            return None;
        };
        let place = levels.get_index_of(name)?;
        Some(place as u8 + 1)
    }
}

/// The definition that the line is, without its line end.
pub fn read_definition(alloc: Global, line: &[u8]) -> Result<Definition, DefinitionStop>
    ensures { MatchResult result
        (λ definition. definition_of line.now ≡ Ok definition)
        (IsStop (definition_of line.now)) }
{
    let Some(form) = read_form(alloc, line)? else {
        return Err(DefinitionStop::Refused(DefinitionFault::Form));
    };
    let model = model_from(alloc, &form)?;
    definition_from(alloc, model, form)
}

/// The model of the criteria and the degree.
fn model_from(alloc: Global, form: &DefinitionForm) -> Result<Model, DefinitionStop>
    ensures { MatchResult result
        (λ model. (model ≡ model_of form.now) × (model_fault (level_counts form.now.criteria) form.now.degree ≡ None))
        (IsStop (tested form.now (option_map ModelOf (model_fault (level_counts form.now.criteria) form.now.degree)))) }
{
    let counts = count_levels(alloc, form.criteria.as_slice())?;
    match Model::new(counts.as_slice(), capped_degree(form.degree)) {
        Ok(model) => Ok(model),
        Err(fault) => Err(DefinitionStop::Refused(DefinitionFault::Model(fault))),
    }
}

/// The degree, or the largest number that a model's degree can be asked for, which is too large for any model as well.
fn capped_degree(degree: u64) -> u32
    ensures { result ≡ min degree (2 ^ 32 - 1) }
{
    degree.min(u64::from(u32::MAX)) as u32
}

/// How many levels each criterion has. Memory can't hold more lists or names than a number counts.
fn count_levels(alloc: Global, criteria: &[(String, Vec<String>)]) -> Result<Vec<u32>, NoMemory>
    ensures count { IfOk result (λ counts. counts.items ≡ level_counts (map criterion_view criteria.now)) }
    ensures few { IfOk result (λ counts. length counts.items + 1 < 2 ^ 32) }
{
    if criteria.len() >= u32::MAX as usize {
        return Err(NoMemory);
    }
    let mut counts = Vec::new(alloc);
    for criterion in criteria {
        let count = u32::try_from(criterion.1.len()).map_err(|_| NoMemory)?;
        counts.push(count)?;
    }
    Ok(counts)
}

/// The definition that the form is.
fn definition_from(
    alloc: Global,
    model: Model,
    form: DefinitionForm,
) -> Result<Definition, DefinitionStop>
    requires model { model ≡ model_of form }
    requires within { model_fault (level_counts form.criteria) form.degree ≡ None }
    ensures { MatchResult result
        (λ definition. (definition ≡ form) × (name_fault form ≡ None))
        (IsStop (tested form (name_fault form))) }
{
    if form.respondents.is_empty() || form.respondents.len() > MAX_RESPONDENTS {
        return Err(DefinitionStop::Refused(DefinitionFault::Respondents));
    }
    if !has_names(&form) {
        return Err(DefinitionStop::Refused(DefinitionFault::Name));
    }
    let DefinitionForm {
        criteria,
        degree: _,
        respondents,
    } = form;
    let Some(criteria) = criteria_by_name(alloc, criteria)? else {
        return Err(DefinitionStop::Refused(DefinitionFault::Twice));
    };
    let Some(respondents) = respondents_by_name(alloc, respondents)? else {
        return Err(DefinitionStop::Refused(DefinitionFault::Twice));
    };
    Ok(Definition {
        model,
        criteria,
        respondents,
    })
}

#[cfg(test)]
mod tests;
