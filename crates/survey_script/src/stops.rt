ghost use Rattle.std.specs.Prelude.{◌≡◌};
ghost use Rattle.survey_script.specs.declared.stops.ScriptStop.TheVariants.{NoMemory as NoMemoryStop};

use edges::NoMemory;
use json_forms::DefinitionFault;

/// What is wrong with a line of a script. A line fails for the first that is.
#[derive(Clone, Copy, PartialEq, Eq, Debug)]
pub enum ScriptPart {
    /// It is longer than a message.
    Long,
    /// More lines came before it than a script has.
    Lines,
    /// No session is running, and it is no hello.
    Hello,
    /// As many sessions came before its hello as a script has.
    Sessions,
    /// Its hello has the name of no respondent.
    Name,
    /// Its hello has another code than that of the respondent.
    Code,
    /// Its hello has the number of no desk.
    Desk,
    /// A session is running, and it is a hello, or input ends before it.
    Bye,
}

/// Why no script was read.
#[derive(Clone, Copy, PartialEq, Eq, Debug)]
pub enum ScriptStop {
    /// The first line is no definition.
    Definition(DefinitionFault),
    /// The first line that fails; the definition line is line 1.
    Script { line: u32, part: ScriptPart },
    /// The source failed.
    ReadFault,
    /// Out of memory.
    NoMemory,
}

impl From<NoMemory> for ScriptStop {
    ghost from_gives = { λ _ stop. stop ≡ NoMemoryStop };

    fn from(_: NoMemory) -> ScriptStop {
        ScriptStop::NoMemory
    }
}
