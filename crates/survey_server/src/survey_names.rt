//! What a definition calls criteria and levels.
ghost use Rattle.std.specs.Prelude.{◌≡◌, ◌↔◌, ◌≤◌, Some, length, option_and_then, IsTrue};
ghost use Rattle.row_laws.specs.Items.{item_at};
ghost use Rattle.ranking.specs.Names.{IsEachNamed, level_named};
ghost use Rattle.survey_server.specs.RankInput.{named_criteria};

use criteria_model::Model;
use json_forms::Definition;
use ranking::LevelNames;

/// The names of a definition.
#[derive(Drop)]
pub(crate) struct SurveyNames {
    pub(crate) definition: Definition,
}

impl LevelNames for SurveyNames {
    ghost criteria = { λ names. named_criteria names.definition };

    fn model(&self) -> Model
        ensures value { result ≡ (named_criteria self.now.definition).model }
        ensures named { IsEachNamed (named_criteria self.now.definition) }
    {
        self.definition.model()
    }

    fn criterion_is(&self, criterion: u8, name: &[u8]) -> bool
        requires { (1 ≤ criterion) × (criterion ≤ length (named_criteria self.now.definition).names) }
        ensures { IsTrue result ↔ (item_at (named_criteria self.now.definition).names criterion ≡ Some name.now) }
    {
        self.definition.criterion_name(criterion) == name
    }

    fn level(&self, criterion: u8, name: &[u8]) -> Option<u8>
        requires { (1 ≤ criterion) × (criterion ≤ length (named_criteria self.now.definition).levels) }
        ensures { result ≡ option_and_then (λ names. level_named names name.now) (item_at (named_criteria self.now.definition).levels criterion) }
    {
        self.definition.level_of(criterion, name)
    }
}
