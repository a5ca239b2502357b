//! The records of a table.
ghost use Rattle.std.specs.Prelude.{◌≡◌, ◌+◌, ◌≤◌, Some, length, map, IfOk};
ghost use Rattle.csv.specs.Reading.{Ready, default_config, reader_config, reader_state, reader_trim, source_of, strip_bom};
ghost use Rattle.csv.specs.Records.{fields_of};
ghost use Rattle.csv.specs.declared.parser.State.TheVariants as st;
ghost use Rattle.csv.specs.declared.reader.Trim.TheVariants as trim;
ghost use Rattle.ranking.specs.Tables.{table_records};

use crate::NoMemory;
use csv::{ByteRecord, Reader, ReaderBuilder};
use std::alloc::Global;

/// All records of the table. Records may differ in length, so a reader over memory fails only when out of memory.
pub(crate) fn records_of(alloc: Global, table: &[u8]) -> Result<Vec<ByteRecord>, NoMemory>
    ensures exact { IfOk result (λ rows. map fields_of rows.items ≡ table_records table.now) }
    ensures few { IfOk result (λ rows. length rows.items ≤ length table.now + 1) }
{
    let reader = table_reader(alloc, table);
    let mut rows = Vec::new(alloc);
    for row in reader.into_byte_records() {
        let Ok(row) = row else {
            return Err(NoMemory);
        };
        rows.push(row)?;
    }
    Ok(rows)
}

/// A reader of the table from its start, to which no record is a header and any length of record is right.
fn table_reader(alloc: Global, table: &[u8]) -> Reader<&[u8]>
    ensures config { reader_config result ≡ default_config }
    ensures trim { reader_trim result ≡ trim.None }
    ensures ready { Ready result }
    ensures state { reader_state result ≡ st.StartRecord }
    ensures source { source_of (λ s. Some s.now) result ≡ Some (strip_bom table.now) }
{
    ReaderBuilder::new()
        .has_headers(false)
        .flexible(true)
        .from_reader(alloc, table)
}
