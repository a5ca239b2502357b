//! Laws of scripts. Each function does nothing; its contract is the law.
ghost use Rattle.survey_script.specs.Laws.{EarlierLinesPass, LinesAreSplit, ScriptsAreLines};

/// The lines of a text are those that it is split into, and then what is left where something is.
pub fn lines_are_split()
    ensures { LinesAreSplit }
{}

/// A text is a script exactly where its lines are a definition line, and then the lines of sessions, each from hello to bye.
pub fn scripts_are_lines()
    ensures { ScriptsAreLines }
{}

/// The lines before the one at which a text fails don't fail, whatever follows them.
pub fn earlier_lines_pass()
    ensures { EarlierLinesPass }
{}
