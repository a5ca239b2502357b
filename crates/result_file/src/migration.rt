//! Results copied into the second format.
ghost use Rattle.std.specs.Prelude.{◌≡◌, ◌⊎◌, ℕ, ◌+◌, List, [], ◌∷◌, ◌++◌, Option, OnOk, IfOk, IfErr, IfSome};
ghost use Rattle.edges.specs.Faults.{CountsFaults};
ghost use Rattle.edges.specs.Line.{line_end};
ghost use Rattle.edges.specs.Lines.{ahead};
ghost use Rattle.edges.specs.Told.{Takes, IsAtEnd};
ghost use Rattle.result_file.specs.declared.kinds.Kind.TheVariants.{Result as ResultKind};
ghost use Rattle.result_file.specs.Loaded.{IsNoResult};
ghost use Rattle.result_file.specs.Migrated.{IsAccepted, IsMigrated, ended_piece};
ghost use Rattle.result_file.specs.Progress.{IsAtLine};
ghost use Rattle.result_file.specs.Texts.{heading};

use crate::checking::next_progress;
use crate::entries::Format;
use crate::kinds::{FORMAT_TWO, Kind, format_of};
use crate::limits::MAX_LINE;
use crate::progress::Progress;
use crate::verdicts::{Checked, Part};
use edges::{LineGot, Lines, NoMemory, Source};
use std::alloc::Global;

/// What is said of a file whose first line isn't that of a result.
const NO_RESULT: Checked = Checked::Invalid {
    line: 1,
    part: Part::Form,
};

/// Copies the result that `source` holds, of either format: the same lines, under the heading of the second format.
///
/// # Errors
///
/// What the check says of a file that isn't valid; of a file of claims, that its first line is of no form.
pub fn migrate_result<S: Source>(alloc: Global, source: &mut S) -> Result<Vec<u8>, Checked>
    ensures migrated { IsMigrated (S.left source.old) result }
    ensures ended { OnOk result (IsAtEnd (S.left source.new)) }
    ensures quiet { OnOk result (S.faults source.new ≡ S.faults source.old) }
    ensures faults { IfErr result (λ verdict. CountsFaults (verdict ≡ Checked.ReadFault) (S.faults source.old) (S.faults source.new)) }
{
    match Lines::reserve(alloc, MAX_LINE) {
        Ok(lines) => migrate_lines(alloc, lines, source),
        Err(_) => Err(Checked::NoMemory),
    }
}

/// Copies the result that comes line by line.
fn migrate_lines<S: Source>(alloc: Global, lines: Lines, source: &mut S) -> Result<Vec<u8>, Checked>
    requires longest { lines.longest ≡ MAX_LINE }
    requires none_kept { lines.kept ≡ [] }
    ensures migrated { IsMigrated (S.left source.old) result }
    ensures ended { OnOk result (IsAtEnd (S.left source.new)) }
    ensures quiet { OnOk result (S.faults source.new ≡ S.faults source.old) }
    ensures faults { IfErr result (λ verdict. CountsFaults (verdict ≡ Checked.ReadFault) (S.faults source.old) (S.faults source.new)) }
{
    let mut lines = lines;
    match read_heading(&mut lines, source) {
        Ok(format) => copy_lines(alloc, &mut lines, source, format),
        Err(verdict) => Err(verdict),
    }
}

/// Reads the first line of a result.
pub(crate) fn read_heading<S: Source>(lines: &mut Lines, source: &mut S) -> Result<Format, Checked>
    requires { lines.old.longest ≡ MAX_LINE }
    ensures read { IfOk result (λ format. Takes (ahead lines.old (S.left source.old)) (ahead lines.new (S.left source.new)) (heading (ResultKind format) ++ line_end ∷ [])) }
    ensures refused { IfErr result (λ verdict. IfSome (ahead lines.old (S.left source.old)) (λ text. IsNoResult text verdict)) }
    ensures line { IfErr result (λ verdict. IsAtLine 1 verdict) }
    ensures failed { IfErr result (λ verdict. ¬ IsAccepted verdict) }
    ensures quiet { OnOk result (S.faults source.new ≡ S.faults source.old) }
    ensures faults { IfErr result (λ verdict. CountsFaults (verdict ≡ Checked.ReadFault) (S.faults source.old) (S.faults source.new)) }
    ensures longest { lines.new.longest ≡ lines.old.longest }
{
    match lines.next_line(source) {
        LineGot::Line => match format_of(lines.line()) {
            Some(format) => Ok(format),
            None => Err(NO_RESULT),
        },
        LineGot::TooLong => Err(NO_RESULT),
        LineGot::Piece | LineGot::End => Err(Checked::Unfinished { line: 1 }),
        LineGot::ReadFault => Err(Checked::ReadFault),
    }
}

/// Copies what follows the first line of a result.
fn copy_lines<S: Source>(
    alloc: Global,
    lines: &mut Lines,
    source: &mut S,
    format: Format,
) -> Result<Vec<u8>, Checked>
    requires { lines.old.longest ≡ MAX_LINE }
    ensures migrated { (text : Option (List ℕ)) → Takes text (ahead lines.old (S.left source.old)) (heading (ResultKind format) ++ line_end ∷ [])
        → IsMigrated text result }
    ensures ended { OnOk result (IsAtEnd (S.left source.new)) }
    ensures quiet { OnOk result (S.faults source.new ≡ S.faults source.old) }
    ensures faults { IfErr result (λ verdict. CountsFaults (verdict ≡ Checked.ReadFault) (S.faults source.old) (S.faults source.new)) }
{
    let mut copy = match copied_heading(alloc) {
        Ok(copy) => copy,
        Err(_) => return Err(Checked::NoMemory),
    };
    let mut progress = Progress::Headed(Kind::Result(format));
    let mut number = 2;
    loop {
        match next_progress(alloc, lines, source, &mut progress, number) {
            Ok(()) => {}
            Err(verdict) => return end_copy(copy, lines.line(), verdict),
        }
        match copy_line(&mut copy, lines.line()) {
            Ok(()) => {}
            Err(_) => return Err(Checked::NoMemory),
        }
        number += 1;
    }
}

/// The first line of a result in the second format.
fn copied_heading(alloc: Global) -> Result<Vec<u8>, NoMemory>
    ensures { IfOk result (λ copy. copy.items ≡ heading (ResultKind Format.Two) ++ line_end ∷ []) }
{
    let mut copy = Vec::new(alloc);
    copy_line(&mut copy, FORMAT_TWO)?;
    Ok(copy)
}

/// Appends a line and its line end.
fn copy_line(copy: &mut Vec<u8>, line: &[u8]) -> Result<(), NoMemory>
    ensures { OnOk result (copy.new.items ≡ copy.old.items ++ (line.now ++ line_end ∷ [])) }
{
    copy.extend_from_slice(line)?;
    copy.push(b'\n')?;
    Ok(())
}

/// The copy of a whole file with this verdict, after its last piece of a line.
fn end_copy(copy: Vec<u8>, piece: &[u8], verdict: Checked) -> Result<Vec<u8>, Checked>
    ensures copied { IfOk result (λ done. IsAccepted verdict × (done.items ≡ copy.items ++ ended_piece piece.now)) }
    ensures refused { IfErr result (λ failed. ((failed ≡ Checked.NoMemory) × IsAccepted verdict) ⊎ ((failed ≡ verdict) × (¬ IsAccepted verdict))) }
{
    match verdict {
        Checked::Valid | Checked::ValidComplete => match copy_piece(copy, piece) {
            Ok(done) => Ok(done),
            Err(_) => Err(Checked::NoMemory),
        },
        _ => Err(verdict),
    }
}

/// Appends a piece of a line, if there is one, and a line end.
fn copy_piece(copy: Vec<u8>, piece: &[u8]) -> Result<Vec<u8>, NoMemory>
    ensures { IfOk result (λ done. done.items ≡ copy.items ++ ended_piece piece.now) }
{
    let mut copy = copy;
    if !piece.is_empty() {
        copy_line(&mut copy, piece)?;
    }
    Ok(copy)
}
