//! Which texts are names.
ghost use Rattle.std.specs.Prelude.{◌≡◌, not, string_bytes};
ghost use Rattle.std.specs.Char.{is_ascii_control};
ghost use Rattle.std.specs.List.{list_all};
ghost use Rattle.json_forms.specs.EntryViews.{criterion_view, respondent_view};
ghost use Rattle.json_forms.specs.Definitions.{has_criterion_names, has_names as has_names_of, has_respondent_names, is_name as is_name_of};

use crate::definition_faults::MAX_NAME;
use crate::definition_form::DefinitionForm;

/// Whether the names and codes of the form are names.
pub(crate) fn has_names(form: &DefinitionForm) -> bool
    ensures { result ≡ has_names_of form.now }
{
    criteria_have_names(form.criteria.as_slice())
        && respondents_have_names(form.respondents.as_slice())
}

fn criteria_have_names(criteria: &[(String, Vec<String>)]) -> bool
    ensures { result ≡ list_all (λ criterion. has_criterion_names (criterion_view criterion)) criteria.now }
{
    criteria
        .iter()
        .all(|criterion| criterion_has_names(criterion))
}

fn criterion_has_names(criterion: &(String, Vec<String>)) -> bool
    ensures { result ≡ has_criterion_names (criterion_view criterion.now) }
{
    is_name(&criterion.0) && are_names(criterion.1.as_slice())
}

fn respondents_have_names(respondents: &[(String, String)]) -> bool
    ensures { result ≡ list_all (λ respondent. has_respondent_names (respondent_view respondent)) respondents.now }
{
    respondents
        .iter()
        .all(|respondent| respondent_has_names(respondent))
}

fn respondent_has_names(respondent: &(String, String)) -> bool
    ensures { result ≡ has_respondent_names (respondent_view respondent.now) }
{
    is_name(&respondent.0) && is_name(&respondent.1)
}

fn are_names(texts: &[String]) -> bool
    ensures { result ≡ list_all (λ text. is_name_of (string_bytes text)) texts.now }
{
    texts.iter().all(|text| is_name(text))
}

/// Whether the text has a name's length and no control character.
fn is_name(text: &String) -> bool
    ensures { result ≡ is_name_of (string_bytes text.now) }
{
    is_name_text(text.as_bytes())
}

fn is_name_text(text: &[u8]) -> bool
    ensures { result ≡ is_name_of text.now }
{
    1 <= text.len() && text.len() <= MAX_NAME && has_no_control(text)
}

fn has_no_control(text: &[u8]) -> bool
    ensures { result ≡ list_all (λ byte. not (is_ascii_control byte)) text.now }
{
    text.iter().all(|byte| is_no_control(*byte))
}

fn is_no_control(byte: u8) -> bool
    ensures { result ≡ not (is_ascii_control byte) }
{
    !byte.is_ascii_control()
}
