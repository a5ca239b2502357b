//! Tables of alternatives, ranked.
ghost use Rattle.std.specs.Prelude.{◌≡◌, ◌≢◌, ◌≤◌, [], ◌∷◌, ◌++◌, Ok, Err, length, map, IfOk, OnOk, MatchResult};
ghost use Rattle.csv.specs.Records.{fields_of};
ghost use Rattle.edges.specs.Faults.{CountsFaults};
ghost use Rattle.edges.specs.Told.{IsAtEnd};
ghost use Rattle.criteria_model.specs.Worth.{IsValueVector};
ghost use Rattle.ranking.specs.Tables.{IsRefusal, alternatives_in};
ghost use Rattle.ranking.specs.Rankings.{IsTableRanking, IsToldRanking};

use crate::NoMemory;
use crate::alternatives::{is_header, read_alternative};
use crate::names::LevelNames;
use crate::ranked::{NamedWorth, Ranked};
use crate::records::records_of;
use crate::stops::{MAX_TABLE, RankStop};
use crate::tables::read_table;
use criteria_model::Vector;
use csv::ByteRecord;
use edges::Source;
use std::alloc::Global;

/// Ranks the alternatives of the table that `source` holds by what they are worth under the vector.
pub fn rank<S: Source>(
    alloc: Global,
    names: &dyn LevelNames,
    vector: &Vector,
    source: &mut S,
) -> Result<Ranked, RankStop>
    requires { IsValueVector (criteria names.now).model.levels vector.now }
    ensures ranked { IsToldRanking (criteria names.now) vector.now (S.left source.old) result }
    ensures ended { OnOk result (IsAtEnd (S.left source.new)) }
    ensures faults { CountsFaults (result ≡ Err RankStop.ReadFault) (S.faults source.old) (S.faults source.new) }
    ensures loans { S.loans source.new ≡ S.loans source.old }
{
    let table = read_table(alloc, source, MAX_TABLE)?;
    rank_table(alloc, names, vector, table.as_slice())
}

/// Ranks the alternatives of the table.
fn rank_table(
    alloc: Global,
    names: &dyn LevelNames,
    vector: &Vector,
    table: &[u8],
) -> Result<Ranked, RankStop>
    requires vector { IsValueVector (criteria names.now).model.levels vector.now }
    requires within { length table.now ≤ MAX_TABLE }
    ensures ranked { IsTableRanking (criteria names.now) vector.now table.now result }
    ensures no_fault { result ≢ Err RankStop.ReadFault }
{
    let records = records_of(alloc, table)?;
    let Some((header, later)) = records.as_slice().split_first() else {
        return Err(RankStop::Header);
    };
    if !is_header(names, header) {
        return Err(RankStop::Header);
    }
    let alternatives = read_alternatives(alloc, names, vector, later)?;
    Ok(Ranked::of(alternatives)?)
}

/// The alternatives of the records after the header.
fn read_alternatives(
    alloc: Global,
    names: &dyn LevelNames,
    vector: &Vector,
    rows: &[ByteRecord],
) -> Result<Vec<NamedWorth>, RankStop>
    requires vector { IsValueVector (criteria names.now).model.levels vector.now }
    requires few { length rows.now ≤ MAX_TABLE }
    ensures read { MatchResult result
        (λ alternatives. alternatives_in (criteria names.now) vector.now 2 (map fields_of rows.now) ≡ Ok alternatives.items)
        (IsRefusal (λ stop. alternatives_in (criteria names.now) vector.now 2 (map fields_of rows.now) ≡ Err stop)) }
    ensures no_fault { result ≢ Err RankStop.ReadFault }
    ensures each { IfOk result (λ alternatives. length alternatives.items ≡ length rows.now) }
{
    let mut alternatives = Vec::new(alloc);
    let mut place = 2;
    for row in rows {
        match read_alternative(alloc, names, vector, place, row) {
            Ok(alternative) => {
                keep(&mut alternatives, alternative)?;
                place += 1;
            }
            Err(stop) => return Err(stop),
        }
    }
    Ok(alternatives)
}

/// Puts the alternative at the end.
fn keep(alternatives: &mut Vec<NamedWorth>, alternative: NamedWorth) -> Result<(), NoMemory>
    ensures { OnOk result (alternatives.new.items ≡ alternatives.old.items ++ alternative ∷ []) }
{
    alternatives.push(alternative)?;
    Ok(())
}
