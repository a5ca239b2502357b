//! Names that stand once, and what belongs to them.
ghost use Rattle.std.specs.Prelude.{◌≡◌, map, string_bytes, true, false, IfOk, MatchOption};
ghost use Rattle.json_forms.specs.EntryViews.{criterion_view, kept_criterion, name_of, respondent_view};
ghost use Rattle.json_forms.specs.Definitions.{repeats, repeats_criteria, repeats_respondents};

use edges::NoMemory;
use indexmap::{IndexMap, IndexSet};
use std::alloc::Global;

/// The criteria by their names; `None` where a name stands twice, or a level's name in one criterion.
pub(crate) fn criteria_by_name(
    alloc: Global,
    criteria: Vec<(String, Vec<String>)>,
) -> Result<Option<IndexMap<String, IndexSet<String>>>, NoMemory>
    ensures { IfOk result (λ found. MatchOption found
        (repeats_criteria (map criterion_view criteria.items) ≡ true)
        (λ m. (map kept_criterion m.entries ≡ map criterion_view criteria.items)
        × (repeats_criteria (map criterion_view criteria.items) ≡ false))) }
{
    let mut kept = Vec::new(alloc);
    for (name, levels) in criteria {
        let Some(levels) = once(alloc, levels)? else {
            return Ok(None);
        };
        kept.push((name, levels))?;
    }
    by_name(alloc, kept)
}

/// The respondents' codes by their names; `None` where a name stands twice.
pub(crate) fn respondents_by_name(
    alloc: Global,
    respondents: Vec<(String, String)>,
) -> Result<Option<IndexMap<String, String>>, NoMemory>
    ensures { IfOk result (λ found. MatchOption found
        (repeats_respondents (map respondent_view respondents.items) ≡ true)
        (λ m. (m.entries ≡ respondents.items) × (repeats_respondents (map respondent_view respondents.items) ≡ false))) }
{
    by_name(alloc, respondents)
}

/// What belongs to each name; `None` where a name stands twice.
fn by_name<V: Drop>(
    alloc: Global,
    entries: Vec<(String, V)>,
) -> Result<Option<IndexMap<String, V>>, NoMemory>
    ensures { IfOk result (λ found. MatchOption found
        (repeats (map name_of entries.items) ≡ true)
        (λ m. (m.entries ≡ entries.items) × (repeats (map name_of entries.items) ≡ false))) }
{
    let mut found = IndexMap::new(alloc);
    for (name, value) in entries {
        if found.insert(name, value)?.is_some() {
            return Ok(None);
        }
    }
    Ok(Some(found))
}

/// The names; `None` where one stands twice.
fn once(alloc: Global, names: Vec<String>) -> Result<Option<IndexSet<String>>, NoMemory>
    ensures { IfOk result (λ found. MatchOption found
        (repeats (map string_bytes names.items) ≡ true)
        (λ set. (set.keys ≡ names.items) × (repeats (map string_bytes names.items) ≡ false))) }
{
    let mut found = IndexSet::new(alloc);
    for name in names {
        if !found.insert(name)? {
            return Ok(None);
        }
    }
    Ok(Some(found))
}
