ghost use Rattle.std.specs.Prelude.{◌≡◌, ℕ, ◌+◌, ◌<◌, List, [], Option, IfErr, OnOk};
ghost use Rattle.edges.specs.Faults.{CountsFaults};
ghost use Rattle.edges.specs.Lines.{GivesLine, ahead};
ghost use Rattle.result_file.specs.Checked.{IsToldChecked};
ghost use Rattle.result_file.specs.Migrated.{IsAccepted};
ghost use Rattle.result_file.specs.Progress.{HasCome, ComesFurther, StopsThere, EndsWithPiece};
ghost use Rattle.result_file.specs.Verdicts.{EndsInput};

use crate::limits::MAX_LINE;
use crate::progress::Progress;
use crate::stops::Stop;
use crate::verdicts::{Checked, Part};
use edges::{LineGot, Lines, Source};
use std::alloc::Global;

/// Checks the file that `source` holds.
pub fn check_result<S: Source>(alloc: Global, source: &mut S) -> Checked
    ensures checked { IsToldChecked (S.left source.old) result }
    ensures faults { CountsFaults (result ≡ Checked.ReadFault) (S.faults source.old) (S.faults source.new) }
    ensures ended { EndsInput result (S.left source.new) }
{
    match Lines::reserve(alloc, MAX_LINE) {
        Ok(lines) => check_lines(alloc, lines, source),
        Err(_) => Checked::NoMemory,
    }
}

/// Checks the file that comes line by line.
fn check_lines<S: Source>(alloc: Global, lines: Lines, source: &mut S) -> Checked
    requires longest { lines.longest ≡ MAX_LINE }
    requires none_kept { lines.kept ≡ [] }
    ensures checked { IsToldChecked (S.left source.old) result }
    ensures faults { CountsFaults (result ≡ Checked.ReadFault) (S.faults source.old) (S.faults source.new) }
    ensures ended { EndsInput result (S.left source.new) }
{
    let mut lines = lines;
    let mut progress = Progress::Blank;
    let mut number = 1;
    loop {
        match next_progress(alloc, &mut lines, source, &mut progress, number) {
            Ok(()) => {}
            Err(verdict) => return verdict,
        }
        number += 1;
    }
}

/// Goes on by one line, of that number, or gives the verdict on the file.
pub(crate) fn next_progress<S: Source>(
    alloc: Global,
    lines: &mut Lines,
    source: &mut S,
    progress: &mut Progress,
    number: u32,
) -> Result<(), Checked>
    requires { lines.old.longest ≡ MAX_LINE }
    ensures next { OnOk result ((text : Option (List ℕ)) (come : HasCome text (ahead lines.old (S.left source.old)) number progress.old) →
        ComesFurther come.lines lines.new.line text (ahead lines.new (S.left source.new)) (number + 1) progress.new) }
    ensures verdict { IfErr result (λ verdict. (text : Option (List ℕ)) →
        HasCome text (ahead lines.old (S.left source.old)) number progress.old → StopsThere progress.old number text verdict) }
    ensures line { OnOk result (GivesLine lines.new (ahead lines.old (S.left source.old)) (ahead lines.new (S.left source.new))) }
    ensures piece { IfErr result (λ verdict. IsAccepted verdict →
        EndsWithPiece progress.old progress.new verdict lines.new.line (ahead lines.old (S.left source.old)) (ahead lines.new (S.left source.new)) (S.left source.new)) }
    ensures quiet { OnOk result (S.faults source.new ≡ S.faults source.old) }
    ensures faults { IfErr result (λ verdict. CountsFaults (verdict ≡ Checked.ReadFault) (S.faults source.old) (S.faults source.new)) }
    ensures ended { IfErr result (λ verdict. EndsInput verdict (S.left source.new)) }
    ensures longest { lines.new.longest ≡ lines.old.longest }
{
    match lines.next_line(source) {
        LineGot::Line => match progress.next(alloc, lines.line()) {
            Ok(()) => Ok(()),
            Err(Stop::Wrong(part)) => Err(Checked::Invalid { line: number, part }),
            Err(Stop::NoMemory) => Err(Checked::NoMemory),
        },
        LineGot::Piece | LineGot::End => Err(progress.ends(lines.line(), number)),
        LineGot::TooLong => Err(Checked::Invalid {
            line: number,
            part: Part::Form,
        }),
        LineGot::ReadFault => Err(Checked::ReadFault),
    }
}
