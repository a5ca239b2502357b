//! Why a line is no definition.
ghost use Rattle.std.specs.Prelude.{◌≡◌};
ghost use Rattle.json_forms.specs.declared.definition_faults.DefinitionStop.TheVariants.{NoMemory as NoMemoryStop};

use criteria_model::ModelFault;
use edges::NoMemory;

/// The most bytes of a definition line; a reader of lines finds longer ones.
pub const MAX_DEFINITION: u32 = 65_536;

/// The most respondents of a definition.
pub const MAX_RESPONDENTS: usize = 16;

/// The most bytes of a name or a code.
pub const MAX_NAME: usize = 64;

/// Why a line is no definition.
#[derive(Clone, Copy, PartialEq, Eq, Debug)]
pub enum DefinitionFault {
    /// More than [`MAX_DEFINITION`] bytes; only a reader of lines reports it.
    Long,
    /// It isn't of the form.
    Form,
    /// Its criteria and its degree make no model.
    Model(ModelFault),
    /// No respondent, or more than [`MAX_RESPONDENTS`].
    Respondents,
    /// A name or a code is empty, has more than [`MAX_NAME`] bytes, or has a control character.
    Name,
    /// Two criteria, two levels of a criterion or two respondents have the same name.
    Twice,
}

/// Why no definition was read.
#[derive(Clone, Copy, PartialEq, Eq, Debug)]
pub enum DefinitionStop {
    Refused(DefinitionFault),
    NoMemory,
}

impl From<NoMemory> for DefinitionStop {
    ghost from_gives = { λ _ stop. stop ≡ NoMemoryStop };

    fn from(_: NoMemory) -> DefinitionStop {
        DefinitionStop::NoMemory
    }
}
