//! The lines at the front of what is read.
ghost use Rattle.std.specs.Prelude.{◌≡◌, IfErr, IfOk, IfSome, IsErr};
ghost use Rattle.edges.specs.Faults.{CountsFaults};
ghost use Rattle.edges.specs.Lines.{KeepsLimits, ahead};
ghost use Rattle.survey_server.specs.RankInput.{IsFirstLineStop, LineIs, ReadsDefinition};

use edges::{Failed, LineGot, Lines, Source};
use json_forms::{Definition, DefinitionFault, DefinitionStop, MAX_DEFINITION, read_definition};
use std::alloc::Global;

/// Why the first line gives no definition.
#[derive(Clone, Copy, Debug)]
pub(crate) enum FirstLineStop {
    /// It is none.
    Refused(DefinitionFault),
    /// The source failed.
    ReadFault,
    /// Out of memory.
    NoMemory,
}

/// The definition of the first line.
pub(crate) fn read_first_line<S: Source>(
    alloc: Global,
    lines: &mut Lines,
    source: &mut S,
) -> Result<Definition, FirstLineStop>
    requires { lines.old.longest ≡ MAX_DEFINITION }
    ensures read { IfOk result (λ definition. IfSome (ahead lines.old (S.left source.old))
        (λ text. ReadsDefinition text definition (ahead lines.new (S.left source.new)))) }
    ensures refused { IfErr result (λ stop. IfSome (ahead lines.old (S.left source.old)) (λ text. IsFirstLineStop text stop)) }
    ensures faults { CountsFaults (result ≡ Err FirstLineStop.ReadFault) (S.faults source.old) (S.faults source.new) }
    ensures limits { KeepsLimits lines.old lines.new }
{
    match read_line(lines, source) {
        Err(Failed) => Err(FirstLineStop::ReadFault),
        Ok(false) => Err(FirstLineStop::Refused(DefinitionFault::Long)),
        Ok(true) => match read_definition(alloc, lines.line()) {
            Ok(definition) => Ok(definition),
            Err(DefinitionStop::Refused(fault)) => Err(FirstLineStop::Refused(fault)),
            Err(DefinitionStop::NoMemory) => Err(FirstLineStop::NoMemory),
        },
    }
}

/// Goes on to the next line, and reports whether it isn't too long. A last line may lack its line end.
///
/// # Errors
///
/// The source failed.
pub(crate) fn read_line<S: Source>(lines: &mut Lines, source: &mut S) -> Result<bool, Failed>
    ensures line { IfOk result (λ within. IfSome (ahead lines.old (S.left source.old))
        (λ text. LineIs within text lines.new.line lines.new.longest (ahead lines.new (S.left source.new)))) }
    ensures faults { CountsFaults (IsErr result) (S.faults source.old) (S.faults source.new) }
    ensures limits { KeepsLimits lines.old lines.new }
{
    match lines.next_line(source) {
        LineGot::Line => Ok(true),
        LineGot::Piece => Ok(true),
        LineGot::End => Ok(true),
        LineGot::TooLong => Ok(false),
        LineGot::ReadFault => Err(Failed),
    }
}
