//! Reads scripts.
ghost use Rattle.std.specs.Prelude.{◌≡◌, ◌≢◌, ◌⊎◌, ◌+◌, ◌≤◌, length, IfOk, IfErr, IfSome, IsFalse, IsOk, IsTrue, OnOk, MatchResult};
ghost use Rattle.edges.specs.Faults.{CountsFaults, HasRisen};
ghost use Rattle.edges.specs.Lines.{ahead};
ghost use Rattle.edges.specs.Told.{IsAtEnd};
ghost use Rattle.survey_script.specs.ScriptViews.{IsWholeScript, script_view};
ghost use Rattle.survey_script.specs.Scripts.{IsCutAfter, IsScript, IsStopOf, NoneFailsBeforeCut, first_definition, lines_in, no_sessions, script_by, script_of, sessions_after};
ghost use Rattle.survey_script.specs.Steps.{AreWithin, EndsWith, GoesOnBy, HasPiece, IsDefinedBy, LeavesRest, NoneFailsUnder};

use crate::limits::MAX_SCRIPT_LINES;
use crate::scripts::{Script, ScriptSession};
use crate::sessions_so_far::SessionsSoFar;
use crate::stops::{ScriptPart, ScriptStop};
use edges::{LineGot, Lines, Source};
use json_forms::{Definition, DefinitionFault, DefinitionStop, MAX_DEFINITION, read_definition};
use result_file::MAX_LINE;
use std::alloc::Global;

/// Reads the script that the source holds, to its end.
///
/// # Errors
///
/// The fault of the definition line, or the first line after it that fails; the source failed; out of memory.
pub fn read_script<S: Source>(alloc: Global, source: &mut S) -> Result<Script, ScriptStop>
    ensures read { IfSome (S.left source.old) (λ text.
        MatchResult result (λ script. script_of text ≡ Ok script) (IsStopOf (script_of text))) }
    ensures whole { IfOk result IsWholeScript }
    ensures ended { OnOk result (IsAtEnd (S.left source.new)) }
    ensures faults { CountsFaults (result ≡ Err ScriptStop.ReadFault) (S.faults source.old) (S.faults source.new) }

    // A script is read where no fault came, or there was no memory.
    ensures done { IsScript (S.left source.old) → (¬ HasRisen (S.faults source.old) (S.faults source.new))
        → IsOk result ⊎ (result ≡ Err ScriptStop.NoMemory) }

    // A line that fails is reported before a fault of the source after it.
    ensures first { result ≡ Err ScriptStop.ReadFault → NoneFailsBeforeCut (S.left source.old) (S.left source.new) }
{
    let mut lines = Lines::reserve(alloc, MAX_DEFINITION)?;
    read_lines(alloc, &mut lines, source)
}

/// Reads the script that lies ahead.
fn read_lines<S: Source>(
    alloc: Global,
    lines: &mut Lines,
    source: &mut S,
) -> Result<Script, ScriptStop>
    requires longest { lines.old.longest ≡ MAX_DEFINITION }
    requires reserved { MAX_LINE ≤ lines.old.reserved }
    ensures read { IfSome (ahead lines.old (S.left source.old)) (λ text.
        MatchResult result (λ script. script_of text ≡ Ok script) (IsStopOf (script_of text))) }
    ensures whole { IfOk result IsWholeScript }
    ensures ended { OnOk result (IsAtEnd (S.left source.new)) }
    ensures faults { CountsFaults (result ≡ Err ScriptStop.ReadFault) (S.faults source.old) (S.faults source.new) }
    ensures first { result ≡ Err ScriptStop.ReadFault → NoneFailsBeforeCut (ahead lines.old (S.left source.old)) (S.left source.new) }
{
    match read_first(alloc, lines, source) {
        Ok(definition) => {
            lines.limit(MAX_LINE);
            read_under(alloc, definition, lines, source)
        }
        Err(stop) => Err(stop),
    }
}

/// Reads what follows the line of this definition.
fn read_under<S: Source>(
    alloc: Global,
    definition: Definition,
    lines: &mut Lines,
    source: &mut S,
) -> Result<Script, ScriptStop>
    requires longest { lines.old.longest ≡ MAX_LINE }
    ensures read { IfSome (ahead lines.old (S.left source.old)) (λ text.
        MatchResult result (λ script. script_by (Ok definition) (lines_in text) ≡ Ok script) (IsStopOf (script_by (Ok definition) (lines_in text)))) }
    ensures whole { IfOk result IsWholeScript }
    ensures ended { OnOk result (IsAtEnd (S.left source.new)) }
    ensures faults { CountsFaults (result ≡ Err ScriptStop.ReadFault) (S.faults source.old) (S.faults source.new) }
    ensures first { result ≡ Err ScriptStop.ReadFault → LeavesRest (ahead lines.old (S.left source.old)) (S.left source.new) (IsCutAfter (NoneFailsUnder definition)) }
{
    match read_sessions(alloc, &definition, lines, source) {
        Ok(sessions) => Ok(Script::of(definition, sessions)),
        Err(stop) => Err(stop),
    }
}

/// Reads the definition line.
fn read_first<S: Source>(
    alloc: Global,
    lines: &mut Lines,
    source: &mut S,
) -> Result<Definition, ScriptStop>
    requires longest { lines.old.longest ≡ MAX_DEFINITION }
    ensures read { IfOk result (λ definition. LeavesRest (ahead lines.old (S.left source.old)) (ahead lines.new (S.left source.new))
        (λ text rest. script_of text ≡ script_by (Ok definition) (lines_in rest))) }
    ensures line { IfOk result (λ definition. LeavesRest (ahead lines.old (S.left source.old)) (ahead lines.new (S.left source.new)) (IsDefinedBy definition)) }
    ensures refused { IfErr result (λ stop. IfSome (ahead lines.old (S.left source.old)) (λ text. IsStopOf (script_of text) stop)) }
    ensures faults { CountsFaults (result ≡ Err ScriptStop.ReadFault) (S.faults source.old) (S.faults source.new) }
    ensures first { IfErr result (λ stop. stop ≡ ScriptStop.ReadFault → LeavesRest (ahead lines.old (S.left source.old)) (S.left source.new) HasPiece) }
    ensures limits { lines.new.reserved ≡ lines.old.reserved }
{
    match lines.next_line(source) {
        LineGot::Line => define(alloc, lines.line()),
        LineGot::Piece => define(alloc, lines.line()),
        LineGot::End => define(alloc, lines.line()),
        LineGot::TooLong => Err(ScriptStop::Definition(DefinitionFault::Long)),
        LineGot::ReadFault => Err(ScriptStop::ReadFault),
    }
}

/// The definition that the line is.
fn define(alloc: Global, line: &[u8]) -> Result<Definition, ScriptStop>
    requires { length line.now ≤ MAX_DEFINITION }
    ensures read { MatchResult result (λ definition. first_definition line.now ≡ Ok definition) (IsStopOf (first_definition line.now)) }
    ensures quiet { IfErr result (λ stop. stop ≢ ScriptStop.ReadFault) }
{
    match read_definition(alloc, line) {
        Ok(definition) => Ok(definition),
        Err(DefinitionStop::Refused(fault)) => Err(ScriptStop::Definition(fault)),
        Err(DefinitionStop::NoMemory) => Err(ScriptStop::NoMemory),
    }
}

/// Goes on by the next line, which has this number. Reports whether there may be more.
///
/// # Errors
///
/// The line fails, or no script may end here; the source failed; out of memory.
fn read_next<S: Source>(
    alloc: Global,
    definition: &Definition,
    lines: &mut Lines,
    source: &mut S,
    sessions: &mut SessionsSoFar,
    number: u32,
) -> Result<bool, ScriptStop>
    requires longest { lines.old.longest ≡ MAX_LINE }
    requires number { number ≤ MAX_SCRIPT_LINES + 2 }
    ensures more { IfOk result (λ more. IsTrue more →
        GoesOnBy definition.now number sessions.old sessions.new (ahead lines.old (S.left source.old)) (ahead lines.new (S.left source.new))) }
    ensures end { IfOk result (λ more. IsFalse more →
        EndsWith definition.now number sessions.old sessions.new (ahead lines.old (S.left source.old))) }
    ensures ended { IfOk result (λ more. IsFalse more → IsAtEnd (S.left source.new)) }
    ensures whole { IfOk result (λ more. IsFalse more → AreWithin (length definition.now.respondents) number sessions.old
        → IsWholeScript (script_view definition.now sessions.new.ended)) }
    ensures within { IfOk result (λ more. IsTrue more → AreWithin (length definition.now.respondents) number sessions.old
        → AreWithin (length definition.now.respondents) (number + 1) sessions.new) }
    ensures few { IfOk result (λ more. IsTrue more → number ≤ MAX_SCRIPT_LINES + 1) }
    ensures failed { IfErr result (λ stop. IfSome (ahead lines.old (S.left source.old)) (λ text.
        IsStopOf (sessions_after definition.now number sessions.old (lines_in text)) stop)) }
    ensures quiet { OnOk result (S.faults source.new ≡ S.faults source.old) }
    ensures faults { IfErr result (λ stop. CountsFaults (stop ≡ ScriptStop.ReadFault) (S.faults source.old) (S.faults source.new)) }
    ensures first { IfErr result (λ stop. stop ≡ ScriptStop.ReadFault → LeavesRest (ahead lines.old (S.left source.old)) (S.left source.new) HasPiece) }
    ensures longest { lines.new.longest ≡ lines.old.longest }
{
    match lines.next_line(source) {
        LineGot::Line => match sessions.add_line(alloc, definition, number, lines.line()) {
            Ok(()) => Ok(true),
            Err(stop) => Err(stop),
        },
        LineGot::Piece => match sessions.add_last(alloc, definition, number, lines.line()) {
            Ok(()) => Ok(false),
            Err(stop) => Err(stop),
        },
        LineGot::End => match sessions.end(number) {
            Ok(()) => Ok(false),
            Err(stop) => Err(stop),
        },
        LineGot::TooLong => Err(ScriptStop::Script {
            line: number,
            part: ScriptPart::Long,
        }),
        LineGot::ReadFault => Err(ScriptStop::ReadFault),
    }
}

/// Reads the sessions after the definition line, to the end.
fn read_sessions<S: Source>(
    alloc: Global,
    definition: &Definition,
    lines: &mut Lines,
    source: &mut S,
) -> Result<Vec<ScriptSession>, ScriptStop>
    requires longest { lines.old.longest ≡ MAX_LINE }
    ensures read { IfSome (ahead lines.old (S.left source.old)) (λ text.
        MatchResult result
        (λ sessions. sessions_after definition.now 2 no_sessions (lines_in text) ≡ Ok sessions.items)
        (IsStopOf (sessions_after definition.now 2 no_sessions (lines_in text)))) }
    ensures whole { IfOk result (λ sessions. IsWholeScript (script_view definition.now sessions.items)) }
    ensures ended { OnOk result (IsAtEnd (S.left source.new)) }
    ensures faults { CountsFaults (result ≡ Err ScriptStop.ReadFault) (S.faults source.old) (S.faults source.new) }
    ensures first { IfErr result (λ stop. stop ≡ ScriptStop.ReadFault → LeavesRest (ahead lines.old (S.left source.old)) (S.left source.new) (IsCutAfter (NoneFailsUnder definition.now))) }
{
    let mut sessions = SessionsSoFar::new(alloc);
    let mut number = 2;
    loop {
        if !read_next(alloc, definition, lines, source, &mut sessions, number)? {
            return Ok(sessions.into_ended());
        }
        number += 1;
    }
}

#[cfg(test)]
mod tests;
