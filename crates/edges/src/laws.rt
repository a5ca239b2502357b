//! Laws of lines. Each function does nothing; its contract is the law.
ghost use Rattle.edges.specs.Line.{EachTextSplits, OneSplit};

/// A text is some lines, each with its line end, and a rest that has none.
pub fn each_text_splits()
    ensures { EachTextSplits }
{}

/// A text is such lines and such a rest in one way only.
pub fn one_split()
    ensures { OneSplit }
{}
