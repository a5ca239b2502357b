//! Laws of checked files. Each function does nothing; its contract is the law.
ghost use Rattle.result_file.specs.Laws.{CheckedIsWorth, EachHasVerdict, OneContent, OneVerdict};
ghost use Rattle.result_file.specs.LoadLaws.{LoadsAsChecked, OneLoading};

/// A text is the file of one content at most.
pub fn one_content()
    ensures { OneContent }
{}

/// A text deserves one verdict at most, apart from a read fault and from being out of memory.
pub fn one_verdict()
    ensures { OneVerdict }
{}

/// Each text deserves such a verdict: with the law above, exactly one.
pub fn each_has_verdict()
    ensures { EachHasVerdict }
{}

/// What a verdict promises of the text that deserves it: of a valid one, that each pair that it eliminates is ranked so;
/// of a valid and complete one, that its answers rank every pair that needs a question.
pub fn checked_is_worth()
    ensures { CheckedIsWorth }
{}

/// A text has one result at its front at most, and isn't refused where it has one.
pub fn one_loading()
    ensures { OneLoading }
{}

/// What is read of a result is what its check says: a valid one is read whole, and a text that isn't read gets the check's verdict.
pub fn loads_as_checked()
    ensures { LoadsAsChecked }
{}
