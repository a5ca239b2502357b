//! The vector of a values line.
ghost use Rattle.std.specs.Prelude.{◌≡◌, ◌≤ℤ◌, pos, length, All, IfOk, IfSome, MatchOption, None, Some};
ghost use Rattle.serde_json.specs.View.{view, items_view};
ghost use Rattle.criteria_model.specs.Worth.{IsValueVector, increments};
ghost use Rattle.text_fields.specs.Spelling.{IsCertificate};
ghost use Rattle.json_forms.specs.Members.{each};
ghost use Rattle.json_forms.specs.Vectors.{positive_of, positive_in, positives_of, vector_in, values_vector};

use crate::members::read_json;
use criteria_model::{MAX_INCREMENTS, Model, Vector};
use edges::NoMemory;
use serde_json::Value;
use std::alloc::Global;
use text_fields::Fields;

/// The vector of a values line, which is given without its line end; `None` where the line has none for this model.
pub fn read_vector(alloc: Global, line: &[u8], model: &Model) -> Result<Option<Vector>, NoMemory>
    ensures exact { IfOk result (λ vector. vector ≡ values_vector model.now.levels line.now) }
    ensures positive { IfOk result (λ vector. IfSome vector (IsValueVector model.now.levels)) }
{
    match read_json(alloc, line)? {
        Some(value) => Ok(vector_from(&value, model)),
        None => Ok(None),
    }
}

/// The vector that the value has.
fn vector_from(value: &Value, model: &Model) -> Option<Vector>
    ensures exact { result ≡ vector_in model.now.levels (view value.now) }
    ensures positive { IfSome result (IsValueVector model.now.levels) }
{
    vector_of_items(
        value.get("values")?.get("vector")?.as_array()?.as_slice(),
        model,
    )
}

/// The vector with these items, where there is one for each increment.
fn vector_of_items(items: &[Value], model: &Model) -> Option<Vector>
    ensures exact { result ≡ positives_of (increments model.now.levels) (items_view items.now) }
    ensures positive { IfSome result (IsValueVector model.now.levels) }
{
    let count = usize::from(model.increments());
    if items.len() != count {
        return None;
    }
    let mut cells = [0; MAX_INCREMENTS];
    read_positives(items, &mut cells[..count])?;
    Some(Vector::of(&cells[..count]))
}

/// Reads the items as positive numbers.
fn read_positives(items: &[Value], cells: &mut [i128]) -> Option<()>
    requires { length cells.old ≡ length items.now }
    ensures exact { MatchOption result
        (each positive_in (items_view items.now) ≡ None)
        (λ _. each positive_in (items_view items.now) ≡ Some cells.new) }
    ensures positive { IfSome result (λ _. All (λ z. pos 1 ≤ℤ z) cells.new) }
    ensures within { IfSome result (λ _. All IsCertificate cells.new) }
    ensures len { length cells.new ≡ length cells.old }
{
    for (place, item) in items.iter().enumerate() {
        cells[place] = positive_from(item)?;
    }
    Some(())
}

/// The positive number of a string.
fn positive_from(value: &Value) -> Option<i128>
    ensures exact { result ≡ positive_in (view value.now) }
    ensures positive { IfSome result (λ z. pos 1 ≤ℤ z) }
    ensures within { IfSome result IsCertificate }
{
    positive_number(value.as_str()?.as_bytes())
}

/// The positive number that the text is.
fn positive_number(text: &[u8]) -> Option<i128>
    ensures exact { result ≡ positive_of text.now }
    ensures positive { IfSome result (λ z. pos 1 ≤ℤ z) }
    ensures within { IfSome result IsCertificate }
{
    let mut fields = Fields::of(text);
    let number = fields.certificate()?;
    if number < 1 || !fields.is_empty() {
        return None;
    }
    Some(number)
}

#[cfg(test)]
mod tests;
