//! What criteria and levels are called.
ghost use Rattle.std.specs.Prelude.{◌≡◌, ◌↔◌, ◌≤◌, Some, length, option_and_then, IsTrue};
ghost use Rattle.row_laws.specs.Items.{item_at};
ghost use Rattle.ranking.specs.Names.{IsEachNamed, level_named};

use criteria_model::Model;

/// A model with the names of its criteria and of their levels. Criteria and levels count from 1.
pub trait LevelNames {
    ghost use Rattle.ranking.specs.Names.{NamedCriteria};

    // The model and the names.
    ghost criteria: { Self → NamedCriteria };

    /// The model.
    fn model(&self) -> Model
        ensures value { result ≡ (criteria self.now).model }
        ensures named { IsEachNamed (criteria self.now) };

    /// Whether this is the name of the criterion with this number.
    fn criterion_is(&self, criterion: u8, name: &[u8]) -> bool
        requires { (1 ≤ criterion) × (criterion ≤ length (criteria self.now).names) }
        ensures { IsTrue result ↔ (item_at (criteria self.now).names criterion ≡ Some name.now) };

    /// The level of this name on the criterion with this number.
    fn level(&self, criterion: u8, name: &[u8]) -> Option<u8>
        requires { (1 ≤ criterion) × (criterion ≤ length (criteria self.now).levels) }
        ensures { result ≡ option_and_then (λ names. level_named names name.now) (item_at (criteria self.now).levels criterion) };
}
