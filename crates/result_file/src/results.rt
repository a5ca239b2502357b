ghost use Rattle.std.specs.Prelude.{◌≡◌};
ghost use Rattle.criteria_model.specs.Answers.{MeetsAll};
ghost use Rattle.survey_core.specs.Histories.{committed};
ghost use Rattle.survey_core.specs.Laws.{last_point};

use crate::survey::Survey;
use criteria_model::Vector;
use survey_core::Core;

/// A result that was read.
#[derive(Drop)]
pub struct ResultFile {
    survey: Survey,
    lines: u32,
}

// Clauses see the survey, and how many lines were read.
impl std::marker::Model for ResultFile {
    ghost use Rattle.result_file.specs.LoadedResults.{LoadedResult};

    ghost Value = { LoadedResult };

    ghost view = { λ file. record { survey = file.survey.survey; lines = file.lines } };
}

impl ResultFile {
    /// The result of this survey, after this number of lines.
    pub(crate) fn of(survey: Survey, lines: u32) -> ResultFile
        ensures survey { result.survey ≡ survey.survey }
        ensures lines { result.lines ≡ lines }
    {
        ResultFile { survey, lines }
    }

    /// What the events of the result come to.
    pub fn core(&self) -> &Core
        ensures { result.now ≡ self.now.survey }
    {
        self.survey.core()
    }

    /// The point of the last answer that stands, or all ones where none does.
    pub fn point(&self) -> Vector
        ensures value { result ≡ last_point self.now.survey.listed.criteria.levels self.now.survey.history }
        ensures meets { MeetsAll self.now.survey.listed.criteria.levels (committed self.now.survey.listed.classes self.now.survey.history) result }
    {
        self.survey.point()
    }

    /// How many lines were read, the end line among them.
    pub fn lines(&self) -> u32
        ensures { result ≡ self.now.lines }
    {
        self.lines
    }

    /// What the events come to, and the point.
    pub fn into_parts(self) -> (Core, Vector)
        ensures core { result.0 ≡ self.survey }
        ensures point { result.1 ≡ last_point self.survey.listed.criteria.levels self.survey.history }
        ensures meets { MeetsAll self.survey.listed.criteria.levels (committed self.survey.listed.classes self.survey.history) result.1 }
    {
        let point = self.survey.point();
        (self.survey.into_core(), point)
    }
}
