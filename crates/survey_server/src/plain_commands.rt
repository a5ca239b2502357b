//! The commands that wait for nobody.
ghost use Rattle.std.specs.Prelude.{◌≡◌, ◌≢◌, ◌↔◌, ◌⊎◌, ℕ, []};
ghost use Rattle.edges.specs.Faults.{CountsFaults, HasRisen};
ghost use Rattle.survey_words.specs.Shapes.{IsShape};
ghost use Rattle.survey_words.specs.declared.shapes.Shape.{Shape};
ghost use Rattle.survey_server.specs.Command.{IsCheck, IsMigrate, IsRank, IsSampleCommand, IsNoCommand, IsModelShape, verdict_line, Writes, Answers, AnswersRefusal, ChecksFile, MigratesFile, RanksTable, RefusesModel, SamplesModel, SamplesShape, WritesSummary, IsWorthAnswer, IsValidFile, IsValidResult, IsRankable, ShowsUsage};

use crate::rank_input::{RankRefusal, rank_input};
use crate::rank_texts::{ROOM, add_model_fault, add_refusal, ranking_text_of};
use crate::sample_texts::sample_line_of;
use crate::statuses::{DONE, NO_MEMORY, READ_FAULT, REFUSED, USAGE_SHOWN, WRITE_FAULT};
use criteria_model::{Model, ModelFault};
use edges::{Sink, Source, Text, put_bytes};
use itoa::Buffer;
use ranking::RankStop;
use result_file::{Checked, check_result, migrate_result};
use sample_survey::{Summary, solo_sample};
use std::alloc::Global;
use survey_words::{Command, Shape, read_words};

/// The line that words of no command get.
const USAGE: &[u8] =
    b"usage: paprika check | migrate | rank | sample SEED SHAPE | run [--eliminators N] [--sample SEED --shape SHAPE] | serve PORT [--eliminators N] [--connections K]\n";

/// Does what the words say, where it waits for nobody, and returns the status.
pub fn plain_command<S: Source, K: Sink>(
    alloc: Global,
    words: &[String],
    source: &mut S,
    sink: &mut K,
) -> u8
    ensures check { IsCheck words.now → ChecksFile (S.left source.old) (S.left source.new) (K.written sink.old) (K.written sink.new) result }
    ensures migrate { IsMigrate words.now → MigratesFile (S.left source.old) (K.written sink.old) (K.written sink.new) result }
    ensures rank { IsRank words.now → RanksTable (S.left source.old) (S.left source.new) (K.written sink.old) (K.written sink.new) result }
    ensures sample { (seed : ℕ) (shape : Shape) → IsSampleCommand words.now seed shape
        → SamplesShape seed shape (K.written sink.old) (K.written sink.new) result }
    ensures usage { IsNoCommand words.now → ShowsUsage (K.written sink.old) (K.written sink.new) result }
    ensures unread { IsNoCommand words.now → source.new ≡ source.old }
    ensures sample_unread { (seed : ℕ) (shape : Shape) → IsSampleCommand words.now seed shape → source.new ≡ source.old }
    ensures read_fault { CountsFaults (result ≡ 3) (S.faults source.old) (S.faults source.new) }
    ensures no_door_fault { result ≢ 6 }
    ensures write_fault { CountsFaults (result ≡ 4) (K.faults sink.old) (K.faults sink.new) }
    ensures worth { IsCheck words.now → IsWorthAnswer (S.left source.old) (K.written sink.old) (K.written sink.new) result }

    // A valid file ends with status 0 where no fault came, or with 5 where there was no memory.
    ensures done { IsCheck words.now → IsValidFile (S.left source.old)
        → (¬ HasRisen (S.faults source.old) (S.faults source.new)) → (¬ HasRisen (K.faults sink.old) (K.faults sink.new))
        → (result ≡ 0) ⊎ (result ≡ 5) }
    ensures migrated { IsMigrate words.now → IsValidResult (S.left source.old)
        → (¬ HasRisen (S.faults source.old) (S.faults source.new)) → (¬ HasRisen (K.faults sink.old) (K.faults sink.new))
        → (result ≡ 0) ⊎ (result ≡ 5) }
    ensures ranked { IsRank words.now → IsRankable (S.left source.old)
        → (¬ HasRisen (S.faults source.old) (S.faults source.new)) → (¬ HasRisen (K.faults sink.old) (K.faults sink.new))
        → (result ≡ 0) ⊎ (result ≡ 5) }
    ensures sampled { (seed : ℕ) (shape : Shape) → IsSampleCommand words.now seed shape → IsModelShape shape
        → (¬ HasRisen (K.faults sink.old) (K.faults sink.new)) → (result ≡ 0) ⊎ (result ≡ 5) }
{
    match read_words(alloc, words) {
        Err(_) => NO_MEMORY,
        Ok(Some(Command::Check)) => check(alloc, source, sink),
        Ok(Some(Command::Migrate)) => migrate(alloc, source, sink),
        Ok(Some(Command::Rank)) => rank_table(alloc, source, sink),
        Ok(Some(Command::Sample { seed, shape })) => sample(alloc, seed, &shape, sink),
        Ok(_) => show_usage(alloc, sink),
    }
}

/// Writes the usage line.
fn show_usage<K: Sink>(alloc: Global, sink: &mut K) -> u8
    ensures usage { ShowsUsage (K.written sink.old) (K.written sink.new) result }
    ensures no_read_fault { result ≢ 3 }
    ensures no_door_fault { result ≢ 6 }
    ensures write_fault { CountsFaults (result ≡ 4) (K.faults sink.old) (K.faults sink.new) }
{
    let mut text = match Text::reserve(alloc, ROOM) {
        Ok(text) => text,
        Err(_) => return NO_MEMORY,
    };
    text.add(USAGE);
    write(text.bytes(), USAGE_SHOWN, sink)
}

/// Checks the file of the source.
fn check<S: Source, K: Sink>(alloc: Global, source: &mut S, sink: &mut K) -> u8
    ensures checked { ChecksFile (S.left source.old) (S.left source.new) (K.written sink.old) (K.written sink.new) result }
    ensures read_fault { CountsFaults (result ≡ 3) (S.faults source.old) (S.faults source.new) }
    ensures no_door_fault { result ≢ 6 }
    ensures write_fault { CountsFaults (result ≡ 4) (K.faults sink.old) (K.faults sink.new) }
{
    let text = match Text::reserve(alloc, ROOM) {
        Ok(text) => text,
        Err(_) => return NO_MEMORY,
    };
    let verdict = check_result(alloc, source);
    answer(text, verdict, sink)
}

/// Copies the result of the source into the second format.
fn migrate<S: Source, K: Sink>(alloc: Global, source: &mut S, sink: &mut K) -> u8
    ensures migrated { MigratesFile (S.left source.old) (K.written sink.old) (K.written sink.new) result }
    ensures read_fault { CountsFaults (result ≡ 3) (S.faults source.old) (S.faults source.new) }
    ensures no_door_fault { result ≢ 6 }
    ensures write_fault { CountsFaults (result ≡ 4) (K.faults sink.old) (K.faults sink.new) }
{
    let text = match Text::reserve(alloc, ROOM) {
        Ok(text) => text,
        Err(_) => return NO_MEMORY,
    };
    match migrate_result(alloc, source) {
        Ok(copy) => write(copy.as_slice(), DONE, sink),
        Err(verdict) => answer(text, verdict, sink),
    }
}

/// Ranks the alternatives of the table of the source.
fn rank_table<S: Source, K: Sink>(alloc: Global, source: &mut S, sink: &mut K) -> u8
    ensures ranked { RanksTable (S.left source.old) (S.left source.new) (K.written sink.old) (K.written sink.new) result }
    ensures read_fault { CountsFaults (result ≡ 3) (S.faults source.old) (S.faults source.new) }
    ensures no_door_fault { result ≢ 6 }
    ensures write_fault { CountsFaults (result ≡ 4) (K.faults sink.old) (K.faults sink.new) }
{
    let text = match Text::reserve(alloc, ROOM) {
        Ok(text) => text,
        Err(_) => return NO_MEMORY,
    };
    match rank_input(alloc, source) {
        Ok(ranked) => match ranking_text_of(alloc, &ranked) {
            Ok(records) => write(records.as_slice(), DONE, sink),
            Err(_) => NO_MEMORY,
        },
        Err(refusal) => refuse(text, refusal, sink),
    }
}

/// Runs the sample survey of a seed and a shape.
fn sample<K: Sink>(alloc: Global, seed: u32, shape: &Shape, sink: &mut K) -> u8
    requires { IsShape shape.now }
    ensures sampled { SamplesShape seed shape.now (K.written sink.old) (K.written sink.new) result }
    ensures no_read_fault { result ≢ 3 }
    ensures no_door_fault { result ≢ 6 }
    ensures write_fault { CountsFaults (result ≡ 4) (K.faults sink.old) (K.faults sink.new) }
{
    match Model::new(shape.counts.as_slice(), shape.degree) {
        Ok(model) => sample_model(alloc, seed, shape, &model, sink),
        Err(fault) => refuse_shape(alloc, fault, sink),
    }
}

/// Runs the sample survey of a seed and the model of a shape.
fn sample_model<K: Sink>(alloc: Global, seed: u32, shape: &Shape, model: &Model, sink: &mut K) -> u8
    ensures sampled { SamplesModel seed shape.now model.now (K.written sink.old) (K.written sink.new) result }
    ensures no_read_fault { result ≢ 3 }
    ensures no_door_fault { result ≢ 6 }
    ensures write_fault { CountsFaults (result ≡ 4) (K.faults sink.old) (K.faults sink.new) }
{
    match solo_sample(alloc, seed, model) {
        Ok(summary) => write_summary(alloc, seed, shape, &summary, sink),
        Err(_) => NO_MEMORY,
    }
}

/// Writes the line of the sample survey of a seed and a shape.
pub(crate) fn write_summary<K: Sink>(
    alloc: Global,
    seed: u32,
    shape: &Shape,
    summary: &Summary,
    sink: &mut K,
) -> u8
    ensures written { WritesSummary seed shape.now summary.now (K.written sink.old) (K.written sink.new) result }
    ensures no_read_fault { result ≢ 3 }
    ensures no_door_fault { result ≢ 6 }
    ensures write_fault { CountsFaults (result ≡ 4) (K.faults sink.old) (K.faults sink.new) }
{
    match sample_line_of(alloc, seed, shape, summary) {
        Ok(line) => write(line.as_slice(), DONE, sink),
        Err(_) => NO_MEMORY,
    }
}

/// Answers a shape that makes no model.
pub(crate) fn refuse_shape<K: Sink>(alloc: Global, fault: ModelFault, sink: &mut K) -> u8
    ensures refused { RefusesModel fault (K.written sink.old) (K.written sink.new) result }
    ensures no_read_fault { result ≢ 3 }
    ensures no_door_fault { result ≢ 6 }
    ensures write_fault { CountsFaults (result ≡ 4) (K.faults sink.old) (K.faults sink.new) }
{
    let mut text = match Text::reserve(alloc, ROOM) {
        Ok(text) => text,
        Err(_) => return NO_MEMORY,
    };
    add_model_fault(&mut text, fault);
    write(text.bytes(), REFUSED, sink)
}

/// Answers a refusal by its line, in an empty text, and by its status.
fn refuse<K: Sink>(mut text: Text, refusal: RankRefusal, sink: &mut K) -> u8
    requires empty { text.bytes ≡ [] }
    requires room { text.room ≡ ROOM }
    ensures answered { AnswersRefusal refusal (K.written sink.old) (K.written sink.new) result }
    ensures read_fault { (result ≡ 3) ↔ (refusal ≡ RankRefusal.Stopped RankStop.ReadFault) }
    ensures no_door_fault { result ≢ 6 }
    ensures write_fault { CountsFaults (result ≡ 4) (K.faults sink.old) (K.faults sink.new) }
{
    add_refusal(&mut text, refusal);
    match refusal {
        RankRefusal::Stopped(RankStop::ReadFault) => READ_FAULT,
        RankRefusal::Stopped(RankStop::NoMemory) => NO_MEMORY,
        RankRefusal::Stopped(_) | RankRefusal::Definition(_) | RankRefusal::Values => {
            write(text.bytes(), REFUSED, sink)
        }
    }
}

/// Answers a verdict by its line, in an empty text, and by its status.
fn answer<K: Sink>(mut text: Text, verdict: Checked, sink: &mut K) -> u8
    requires empty { text.bytes ≡ [] }
    requires room { text.room ≡ ROOM }
    ensures answered { Answers verdict (K.written sink.old) (K.written sink.new) result }
    ensures read_fault { (result ≡ 3) ↔ (verdict ≡ Checked.ReadFault) }
    ensures no_door_fault { result ≢ 6 }
    ensures write_fault { CountsFaults (result ≡ 4) (K.faults sink.old) (K.faults sink.new) }
{
    add_line(&mut text, verdict);
    match verdict {
        Checked::Valid | Checked::ValidComplete => write(text.bytes(), DONE, sink),
        Checked::Invalid { .. } | Checked::Unfinished { .. } => write(text.bytes(), REFUSED, sink),
        Checked::ReadFault => READ_FAULT,
        Checked::NoMemory => NO_MEMORY,
    }
}

/// Adds the line of a verdict to an empty text.
fn add_line(text: &mut Text, verdict: Checked)
    requires empty { text.old.bytes ≡ [] }
    requires room { text.old.room ≡ ROOM }
    ensures { text.new.bytes ≡ verdict_line verdict }
{
    match verdict {
        Checked::Valid => text.add(b"valid\n"),
        Checked::ValidComplete => text.add(b"valid complete\n"),
        Checked::Invalid { line, part } => {
            text.add(b"invalid ");
            text.add(Buffer::new().format(line).as_bytes());
            text.add(b" ");
            text.add(part.text());
            text.add(b"\n");
        }
        Checked::Unfinished { line } => {
            text.add(b"unfinished ");
            text.add(Buffer::new().format(line).as_bytes());
            text.add(b"\n");
        }
        Checked::ReadFault | Checked::NoMemory => {}
    }
}

/// Writes the text, and returns the status or that of a sink that failed.
pub(crate) fn write<K: Sink>(text: &[u8], status: u8, sink: &mut K) -> u8
    requires status { status ≢ 4 }
    ensures written { Writes text.now status (K.written sink.old) (K.written sink.new) result }
    ensures either { (result ≡ status) ⊎ (result ≡ 4) }
    ensures write_fault { CountsFaults (result ≡ 4) (K.faults sink.old) (K.faults sink.new) }
{
    match put_bytes(text, sink) {
        Ok(()) => status,
        Err(_) => WRITE_FAULT,
    }
}
