ghost use Rattle.std.specs.Prelude.{◌≡◌, ◌≢◌, MatchOption};
ghost use Rattle.result_file.specs.declared.entries.Format.{Format as FormatOfResult};
ghost use Rattle.result_file.specs.declared.kinds.Kind.{Kind as FileKind};
ghost use Rattle.result_file.specs.declared.kinds.Kind.TheVariants.{Result as ResultKind};
ghost use Rattle.result_file.specs.Texts.{heading};

use crate::entries::Format;

/// The first line of a file of claims.
const CLAIMS: &[u8] = b"paprika claims 1";

/// The first lines of a result, in each format.
const FORMAT_ONE: &[u8] = b"paprika result 1";

pub(crate) const FORMAT_TWO: &[u8] = b"paprika result 2";

/// What a checked file contains.
#[derive(Clone, Copy)]
pub(crate) enum Kind {
    /// Answers, and verdicts on pairs.
    Claims,
    /// The events of a survey.
    Result(Format),
}

/// The kind of file that a first line begins.
pub(crate) fn kind_of(line: &[u8]) -> Option<Kind>
    ensures { MatchOption result
        ((kind : FileKind) → line.now ≢ heading kind)
        (λ kind. line.now ≡ heading kind) }
{
    if line == CLAIMS {
        return Some(Kind::Claims);
    }
    if line == FORMAT_ONE {
        return Some(Kind::Result(Format::One));
    }
    if line == FORMAT_TWO {
        return Some(Kind::Result(Format::Two));
    }
    None
}

/// The format of the result that a first line begins.
pub(crate) fn format_of(line: &[u8]) -> Option<Format>
    ensures { MatchOption result
        ((format : FormatOfResult) → line.now ≢ heading (ResultKind format))
        (λ format. line.now ≡ heading (ResultKind format)) }
{
    match kind_of(line) {
        Some(Kind::Result(format)) => Some(format),
        Some(Kind::Claims) => None,
        None => None,
    }
}
