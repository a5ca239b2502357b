//! Results read from the front of a text, with the survey that they record.
ghost use Rattle.std.specs.Prelude.{◌≡◌, ℕ, ◌+◌, ◌≤◌, List, [], ◌∷◌, ◌++◌, Option};
ghost use Rattle.std.specs.Io.KnownBytes.{prepend_known};
ghost use Rattle.edges.specs.Faults.{CountsFaults};
ghost use Rattle.edges.specs.Line.{line_end};
ghost use Rattle.edges.specs.Lines.{ahead};
ghost use Rattle.edges.specs.Told.{Takes};
ghost use Rattle.result_file.specs.declared.kinds.Kind.TheVariants.{Result as ResultKind};
ghost use Rattle.result_file.specs.Kept.{KeptSurvey};
ghost use Rattle.result_file.specs.Loaded.{EndsLoading, IsLoaded, counted_after};
ghost use Rattle.result_file.specs.Migrated.{IsAccepted};
ghost use Rattle.result_file.specs.Progress.{IsAtLine, IsSurveyOf};
ghost use Rattle.result_file.specs.Texts.{heading};

use crate::checking::next_progress;
use crate::entries::Format;
use crate::kinds::Kind;
use crate::limits::{MAX_LINE, MAX_LINES};
use crate::migration::read_heading;
use crate::progress::Progress;
use crate::results::ResultFile;
use crate::verdicts::Checked;
use edges::{Lines, Source};
use std::alloc::Global;

/// What came of reading a result.
#[derive(Drop)]
pub enum Loaded {
    /// A right result.
    File(ResultFile),
    /// Why it isn't one.
    Refused(Checked),
}

/// Reads one result to its end line; `before` lines of the input came before it. What follows the end line is still ahead.
pub fn load_result<S: Source>(
    alloc: Global,
    lines: &mut Lines,
    before: u32,
    source: &mut S,
) -> Loaded
    requires longest { lines.old.longest ≡ MAX_LINE }
    requires before { before ≤ MAX_LINES }
    ensures loaded { IsLoaded (ahead lines.old (S.left source.old)) (ahead lines.new (S.left source.new)) before 0 result }
    ensures faults { CountsFaults (result ≡ Loaded.Refused Checked.ReadFault) (S.faults source.old) (S.faults source.new) }
    ensures longest { lines.new.longest ≡ lines.old.longest }
{
    match read_heading(lines, source) {
        Ok(format) => load_lines(alloc, lines, before, 0, source, format),
        Err(verdict) => Loaded::Refused(counted_after(before, 0, 1, verdict)),
    }
}

/// Reads one result of this format to its end line, from its second line on; the first is among the `before` lines of the input that
/// came before.
pub fn load_result_after_head<S: Source>(
    alloc: Global,
    lines: &mut Lines,
    before: u32,
    source: &mut S,
    format: Format,
) -> Loaded
    requires longest { lines.old.longest ≡ MAX_LINE }
    requires before { before ≤ MAX_LINES }
    ensures loaded { IsLoaded (prepend_known (heading (ResultKind format) ++ line_end ∷ []) (ahead lines.old (S.left source.old)))
        (ahead lines.new (S.left source.new)) before 1 result }
    ensures faults { CountsFaults (result ≡ Loaded.Refused Checked.ReadFault) (S.faults source.old) (S.faults source.new) }
    ensures longest { lines.new.longest ≡ lines.old.longest }
{
    load_lines(alloc, lines, before, 1, source, format)
}

/// Reads what follows the first line of a result, to its end line.
fn load_lines<S: Source>(
    alloc: Global,
    lines: &mut Lines,
    before: u32,
    skipped: u32,
    source: &mut S,
    format: Format,
) -> Loaded
    requires longest { lines.old.longest ≡ MAX_LINE }
    requires before { before ≤ MAX_LINES }
    requires skipped { skipped ≤ 1 }
    ensures loaded { (text : Option (List ℕ)) → Takes text (ahead lines.old (S.left source.old)) (heading (ResultKind format) ++ line_end ∷ [])
        → IsLoaded text (ahead lines.new (S.left source.new)) before skipped result }
    ensures faults { CountsFaults (result ≡ Loaded.Refused Checked.ReadFault) (S.faults source.old) (S.faults source.new) }
    ensures longest { lines.new.longest ≡ lines.old.longest }
{
    let mut progress = Progress::Headed(Kind::Result(format));
    let mut number = 2;
    loop {
        match next_progress(alloc, lines, source, &mut progress, number) {
            Ok(()) => {
                if progress.has_ended() {
                    return Loaded::File(file_of(progress, number - skipped));
                }
            }
            Err(verdict) => return ended(progress, before, skipped, number, verdict),
        }
        number += 1;
    }
}

/// What was read, where the check ends at this progress with this verdict, on the line of this number.
fn ended(progress: Progress, before: u32, skipped: u32, number: u32, verdict: Checked) -> Loaded
    requires before { before ≤ MAX_LINES }
    requires number { number ≤ MAX_LINES + 1 }
    requires skipped { skipped ≤ number }
    requires line { IsAtLine number verdict }
    requires whole { IsAccepted verdict → (kept : KeptSurvey) × IsSurveyOf progress kept }
    ensures { EndsLoading progress before skipped number verdict result }
{
    match verdict {
        Checked::Valid | Checked::ValidComplete => Loaded::File(file_of(
            progress,
            number - skipped,
        )),
        _ => Loaded::Refused(counted_after(before, skipped, number, verdict)),
    }
}

/// The result whose survey the progress holds.
fn file_of(progress: Progress, lines: u32) -> ResultFile
    requires { (kept : KeptSurvey) × IsSurveyOf progress kept }
    ensures survey { (kept : KeptSurvey) → IsSurveyOf progress kept → result.survey ≡ kept.survey }
    ensures lines { result.lines ≡ lines }
{
    match progress.into_survey() {
        Some(survey) => ResultFile::of(survey, lines),
        None => unreachable!(),
    }
}

/// The verdict on the line of this number, with its line counted after the lines before.
fn counted_after(before: u32, skipped: u32, number: u32, verdict: Checked) -> Checked
    requires before { before ≤ MAX_LINES }
    requires number { number ≤ MAX_LINES + 1 }
    requires skipped { skipped ≤ number }
    requires line { IsAtLine number verdict }
    ensures { result ≡ counted_after before skipped verdict }
{
    match verdict {
        Checked::Invalid { line, part } => Checked::Invalid {
            line: before + line - skipped,
            part,
        },
        Checked::Unfinished { line } => Checked::Unfinished {
            line: before + line - skipped,
        },
        _ => verdict,
    }
}
