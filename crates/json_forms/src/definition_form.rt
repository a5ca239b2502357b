//! Reads the form of a definition line.
ghost use Rattle.std.specs.Prelude.{◌≡◌, map, option_map, string_bytes, IfOk};
ghost use Rattle.serde_json.specs.Find.{as_str};
ghost use Rattle.serde_json.specs.View.{view};
ghost use Rattle.json_forms.specs.DefinitionForm.{criterion_in, criteria_in, definition_in, form_of, respondent_in, respondents_in, texts_in};
ghost use Rattle.json_forms.specs.EntryViews.{criterion_view, respondent_view};

use crate::members::{member, read_json, text_member, whole_member};
use edges::NoMemory;
use serde_json::Value;
use std::alloc::Global;
use std::marker::Model;

/// What a definition line says, before it is tested: names with their levels, and names with their codes.
#[derive(Drop)]
pub(crate) struct DefinitionForm {
    pub(crate) criteria: Vec<(String, Vec<String>)>,
    pub(crate) degree: u64,
    pub(crate) respondents: Vec<(String, String)>,
}

impl Model for DefinitionForm {
    ghost use Rattle.std.specs.Prelude.{map};
    ghost use Rattle.json_forms.specs.DefinitionViews.{DefinitionView};
    ghost use Rattle.json_forms.specs.EntryViews.{criterion_view, respondent_view};

    ghost Value = { DefinitionView };

    ghost view = { λ form. record {
      criteria = map criterion_view form.criteria.items;
      degree = form.degree;
      respondents = map respondent_view form.respondents.items;
    } };
}

/// What the line says; `None` where it isn't of the form.
pub(crate) fn read_form(alloc: Global, line: &[u8]) -> Result<Option<DefinitionForm>, NoMemory>
    ensures { IfOk result (λ form. form ≡ form_of line.now) }
{
    match read_json(alloc, line)? {
        Some(value) => form_from(alloc, &value),
        None => Ok(None),
    }
}

/// What the value says.
fn form_from(alloc: Global, value: &Value) -> Result<Option<DefinitionForm>, NoMemory>
    ensures { IfOk result (λ form. form ≡ definition_in (view value.now)) }
{
    let Some(criteria) = member(value, 3, "criteria") else {
        return Ok(None);
    };
    let Some(criteria) = criteria_from(alloc, criteria)? else {
        return Ok(None);
    };
    let Some(degree) = whole_member(value, 3, "degree") else {
        return Ok(None);
    };
    let Some(respondents) = member(value, 3, "respondents") else {
        return Ok(None);
    };
    let Some(respondents) = respondents_from(alloc, respondents)? else {
        return Ok(None);
    };
    Ok(Some(DefinitionForm {
        criteria,
        degree,
        respondents,
    }))
}

/// The criteria of an array.
fn criteria_from(
    alloc: Global,
    value: &Value,
) -> Result<Option<Vec<(String, Vec<String>)>>, NoMemory>
    ensures { IfOk result (λ found. option_map (λ v. map criterion_view v.items) found ≡ criteria_in (view value.now)) }
{
    let Some(items) = value.as_array() else {
        return Ok(None);
    };
    let mut found = Vec::new(alloc);
    for item in items {
        let Some(criterion) = criterion_from(alloc, item)? else {
            return Ok(None);
        };
        found.push(criterion)?;
    }
    Ok(Some(found))
}

/// The criterion with these members.
fn criterion_from(alloc: Global, value: &Value) -> Result<Option<(String, Vec<String>)>, NoMemory>
    ensures { IfOk result (λ found. option_map criterion_view found ≡ criterion_in (view value.now)) }
{
    let Some(name) = text_member(value, 2, "name") else {
        return Ok(None);
    };
    let Some(levels) = member(value, 2, "levels") else {
        return Ok(None);
    };
    let Some(levels) = texts_from(alloc, levels)? else {
        return Ok(None);
    };
    Ok(Some((String::from_str(alloc, name)?, levels)))
}

/// The texts of an array.
fn texts_from(alloc: Global, value: &Value) -> Result<Option<Vec<String>>, NoMemory>
    ensures { IfOk result (λ found. option_map (λ v. map string_bytes v.items) found ≡ texts_in (view value.now)) }
{
    let Some(items) = value.as_array() else {
        return Ok(None);
    };
    let mut found = Vec::new(alloc);
    for item in items {
        let Some(text) = text_from(alloc, item)? else {
            return Ok(None);
        };
        found.push(text)?;
    }
    Ok(Some(found))
}

/// The text that the value is.
fn text_from(alloc: Global, value: &Value) -> Result<Option<String>, NoMemory>
    ensures { IfOk result (λ found. option_map string_bytes found ≡ as_str (view value.now)) }
{
    match value.as_str() {
        Some(text) => Ok(Some(String::from_str(alloc, text)?)),
        None => Ok(None),
    }
}

/// The respondents of an array.
fn respondents_from(alloc: Global, value: &Value) -> Result<Option<Vec<(String, String)>>, NoMemory>
    ensures { IfOk result (λ found. option_map (λ v. map respondent_view v.items) found ≡ respondents_in (view value.now)) }
{
    let Some(items) = value.as_array() else {
        return Ok(None);
    };
    let mut found = Vec::new(alloc);
    for item in items {
        let Some(respondent) = respondent_from(alloc, item)? else {
            return Ok(None);
        };
        found.push(respondent)?;
    }
    Ok(Some(found))
}

/// The respondent with these members.
fn respondent_from(alloc: Global, value: &Value) -> Result<Option<(String, String)>, NoMemory>
    ensures { IfOk result (λ found. option_map respondent_view found ≡ respondent_in (view value.now)) }
{
    let Some(name) = text_member(value, 2, "name") else {
        return Ok(None);
    };
    let Some(code) = text_member(value, 2, "code") else {
        return Ok(None);
    };
    Ok(Some((
        String::from_str(alloc, name)?,
        String::from_str(alloc, code)?,
    )))
}
