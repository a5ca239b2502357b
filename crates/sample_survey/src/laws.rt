//! Laws of sample surveys. Each function does nothing; its contract is the law.
ghost use Rattle.sample_survey.specs.Laws.{AloneIsSample, OneSample};

/// A model and a seed have one sample at most.
pub fn one_sample()
    ensures { OneSample }
{}

/// A respondent that answers by hidden values, and is alone on its journal, eliminations apart, comes to the sample.
pub fn alone_is_sample()
    ensures { AloneIsSample }
{}
