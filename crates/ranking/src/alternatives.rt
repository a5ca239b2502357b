//! The alternative that a record says.
ghost use Rattle.std.specs.Prelude.{◌≡◌, ◌≢◌, ◌↔◌, ◌+◌, ◌<◌, Some, Ok, Err, length, drop, slice_get, IfErr, MatchResult, IsTrue};
ghost use Rattle.csv.specs.Records.{fields_of};
ghost use Rattle.criteria_model.specs.Worth.{IsValueVector};
ghost use Rattle.ranking.specs.Names.{header_of};
ghost use Rattle.ranking.specs.Tables.{IsRefusal, alternative_in, levels_named};

use crate::names::LevelNames;
use crate::ranked::NamedWorth;
use crate::stops::RankStop;
use criteria_model::{MAX_INCREMENTS, Tuple, Vector};
use csv::ByteRecord;
use std::alloc::Global;

/// Whether the record is the header for these criteria.
pub(crate) fn is_header(names: &dyn LevelNames, row: &ByteRecord) -> bool
    ensures { IsTrue result ↔ (fields_of row.now ≡ header_of (criteria names.now)) }
{
    let count = usize::from(names.model().criteria());
    if row.len() != count + 1 {
        return false;
    }
    field(row, 0) == b"name".as_slice() && has_names(names, row, count)
}

/// Whether the fields after the first are the names of the criteria.
fn has_names(names: &dyn LevelNames, row: &ByteRecord, count: usize) -> bool
    requires fields { length (fields_of row.now) ≡ count + 1 }
    requires names { length (criteria names.now).names ≡ count }
    requires few { count < 256 }
    ensures { IsTrue result ↔ (drop 1 (fields_of row.now) ≡ (criteria names.now).names) }
{
    for place in 0..count {
        if !names.criterion_is(place as u8 + 1, field(row, place + 1)) {
            return false;
        }
    }
    true
}

/// The alternative of the record at this place.
pub(crate) fn read_alternative(
    alloc: Global,
    names: &dyn LevelNames,
    vector: &Vector,
    place: u32,
    row: &ByteRecord,
) -> Result<NamedWorth, RankStop>
    requires { IsValueVector (criteria names.now).model.levels vector.now }
    ensures read { MatchResult result
        (λ alternative. alternative_in (criteria names.now) vector.now place (fields_of row.now) ≡ Ok alternative)
        (IsRefusal (λ stop. alternative_in (criteria names.now) vector.now place (fields_of row.now) ≡ Err stop)) }
    ensures no_fault { result ≢ Err RankStop.ReadFault }
{
    let model = names.model();
    let count = usize::from(model.criteria());
    if row.len() != count + 1 {
        return Err(RankStop::Row { place });
    }
    let mut cells = [0; MAX_INCREMENTS];
    if let Err(before) = read_levels(names, row, &mut cells[..count]) {
        let column = before as u32 + 2;
        return Err(RankStop::Level { place, column });
    }
    let worth = model.value(vector, &Tuple::of(&cells[..count]));
    let name = Vec::from_slice(alloc, field(row, 0))?;
    Ok(NamedWorth::new(name, worth))
}

/// Reads a level for each criterion, or gives how many texts stand before the first that is none.
fn read_levels(names: &dyn LevelNames, row: &ByteRecord, cells: &mut [u8]) -> Result<(), usize>
    requires cells { length cells.old ≡ length (criteria names.now).levels }
    requires fields { length (fields_of row.now) ≡ length (criteria names.now).levels + 1 }
    requires few { length (criteria names.now).levels < 256 }
    ensures read { MatchResult result
        (λ _. levels_named (criteria names.now).levels (drop 1 (fields_of row.now)) ≡ Ok cells.new)
        (λ before. levels_named (criteria names.now).levels (drop 1 (fields_of row.now)) ≡ Err before) }
    ensures before { IfErr result (λ before. before < length cells.old) }
    ensures len { length cells.new ≡ length cells.old }
{
    for place in 0..cells.len() {
        match names.level(place as u8 + 1, field(row, place + 1)) {
            Some(level) => cells[place] = level,
            None => return Err(place),
        }
    }
    Ok(())
}

/// The field at this place of the record, from 0.
fn field(row: &ByteRecord, place: usize) -> &[u8]
    requires { place < length (fields_of row.now) }
    ensures { slice_get (fields_of row.now) place ≡ Some result.now }
{
    match row.get(place) {
        Some(field) => field,
        None => unreachable!(),
    }
}
