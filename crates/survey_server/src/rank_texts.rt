//! The texts that answer what was to be ranked.
ghost use Rattle.std.specs.Prelude.{◌≡◌, ◌≤◌, [], ◌++◌, Some, length, map, IfOk, OnOk};
ghost use Rattle.row_laws.specs.Items.{item_at};
ghost use Rattle.csv.specs.Writing.{default_writer, row_text};
ghost use Rattle.ranking.specs.NamedWorths.{NamedWorthView};
ghost use Rattle.survey_server.specs.RankTexts.{IsReady, definition_fault_line, model_fault_line, ranked_row, ranked_text, refusal_line, stop_line, written};

use crate::rank_input::RankRefusal;
use criteria_model::ModelFault;
use csv::{Writer, WriterBuilder};
use edges::{NoMemory, Text};
use itoa::Buffer;
use json_forms::DefinitionFault;
use ranking::{RankStop, Ranked};
use std::alloc::Global;

/// The room for a line that answers words or a refusal.
pub(crate) const ROOM: u32 = 256;

/// The header and the record of each alternative.
pub(crate) fn ranking_text_of(alloc: Global, ranked: &Ranked) -> Result<Vec<u8>, NoMemory>
    ensures { IfOk result (λ text. text.items ≡ ranked_text ranked.now) }
{
    let mut writer = new_writer(alloc);
    write_row(
        &mut writer,
        &[b"rank".as_slice(), b"name".as_slice(), b"value".as_slice()],
    )?;
    for index in 0..ranked.count() {
        write_ranked(&mut writer, ranked, index + 1)?;
    }
    finish(writer)
}

/// A writer of records into memory.
fn new_writer(alloc: Global) -> Writer<Vec<u8>>
    ensures ready { IsReady result }
    ensures none { written result ≡ [] }
{
    WriterBuilder::new().from_writer(Vec::new(alloc))
}

/// Writes the record of the alternative at this place.
fn write_ranked(writer: &mut Writer<Vec<u8>>, ranked: &Ranked, place: u32) -> Result<(), NoMemory>
    requires ready { IsReady writer.old }
    requires place { (1 ≤ place) × (place ≤ length ranked.now) }
    ensures ready { OnOk result (IsReady writer.new) }
    ensures written { OnOk result ((one : NamedWorthView) → item_at ranked.now place ≡ Some one
        → written writer.new ≡ written writer.old ++ ranked_row ranked.now one) }
{
    let mut rank = Buffer::new();
    let mut value = Buffer::new();
    let fields = [
        rank.format(ranked.rank(place)).as_bytes(),
        ranked.name(place),
        value.format(ranked.value(place)).as_bytes(),
    ];
    write_row(writer, &fields)
}

/// Writes a record of these fields. Over memory and with records of one length, a writer fails only when out of memory.
fn write_row(writer: &mut Writer<Vec<u8>>, fields: &[&[u8]]) -> Result<(), NoMemory>
    requires { IsReady writer.old }
    ensures ready { OnOk result (IsReady writer.new) }
    ensures written { OnOk result (written writer.new ≡ written writer.old ++ row_text default_writer (map (λ field. field.now) fields.now)) }
{
    match writer.write_fields(fields) {
        Ok(()) => Ok(()),
        Err(_) => Err(NoMemory),
    }
}

/// The text that was written.
fn finish(writer: Writer<Vec<u8>>) -> Result<Vec<u8>, NoMemory>
    ensures { IfOk result (λ text. text.items ≡ written writer) }
{
    match writer.into_inner() {
        Ok(text) => Ok(text),
        Err(_) => Err(NoMemory),
    }
}

/// Adds the line of a refusal to an empty text.
pub(crate) fn add_refusal(text: &mut Text, refusal: RankRefusal)
    requires empty { text.old.bytes ≡ [] }
    requires room { text.old.room ≡ ROOM }
    ensures { text.new.bytes ≡ refusal_line refusal }
{
    match refusal {
        RankRefusal::Definition(fault) => add_fault(text, fault),
        RankRefusal::Values => text.add(b"rank values\n"),
        RankRefusal::Stopped(stop) => add_stop(text, stop),
    }
}

/// Adds the line of a first line that is no definition.
pub(crate) fn add_fault(text: &mut Text, fault: DefinitionFault)
    requires empty { text.old.bytes ≡ [] }
    requires room { text.old.room ≡ ROOM }
    ensures { text.new.bytes ≡ definition_fault_line fault }
{
    match fault {
        DefinitionFault::Long => text.add(b"definition long\n"),
        DefinitionFault::Form => text.add(b"definition form\n"),
        DefinitionFault::Model(fault) => add_model_fault(text, fault),
        DefinitionFault::Respondents => text.add(b"definition respondents\n"),
        DefinitionFault::Name => text.add(b"definition name\n"),
        DefinitionFault::Twice => text.add(b"definition twice\n"),
    }
}

/// Adds the line of criteria that make no model.
pub(crate) fn add_model_fault(text: &mut Text, fault: ModelFault)
    requires empty { text.old.bytes ≡ [] }
    requires room { text.old.room ≡ ROOM }
    ensures { text.new.bytes ≡ model_fault_line fault }
{
    match fault {
        ModelFault::NoCriteria => text.add(b"definition criteria\n"),
        ModelFault::Levels { criterion } => {
            text.add(b"definition levels ");
            text.add(Buffer::new().format(criterion).as_bytes());
            text.add(b"\n");
        }
        ModelFault::Increments { count } => {
            text.add(b"definition increments ");
            text.add(Buffer::new().format(count).as_bytes());
            text.add(b"\n");
        }
        ModelFault::Degree => text.add(b"definition degree\n"),
        ModelFault::Classes { count } => {
            text.add(b"definition classes ");
            text.add(Buffer::new().format(count).as_bytes());
            text.add(b"\n");
        }
    }
}

/// Adds the line of a table that is refused.
fn add_stop(text: &mut Text, stop: RankStop)
    requires empty { text.old.bytes ≡ [] }
    requires room { text.old.room ≡ ROOM }
    ensures { text.new.bytes ≡ stop_line stop }
{
    match stop {
        RankStop::TableLong => text.add(b"rank long\n"),
        RankStop::Header => text.add(b"rank header\n"),
        RankStop::Row { place } => {
            text.add(b"rank row ");
            text.add(Buffer::new().format(place).as_bytes());
            text.add(b"\n");
        }
        RankStop::Level { place, column } => {
            text.add(b"rank level ");
            text.add(Buffer::new().format(place).as_bytes());
            text.add(b" ");
            text.add(Buffer::new().format(column).as_bytes());
            text.add(b"\n");
        }
        RankStop::ReadFault | RankStop::NoMemory => {}
    }
}
