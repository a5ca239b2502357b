use farkas_check::Flaw;
use survey_core::Broken;

/// What the check of a file says of it.
#[derive(Clone, Copy, PartialEq, Eq, Debug)]
pub enum Checked {
    /// Every line is right, and the file is whole.
    Valid,
    /// The same of a survey, and an event that stands ranks each class.
    ValidComplete,
    /// The first line that is wrong, and its first wrong part.
    Invalid { line: u32, part: Part },
    /// Each whole line is right, and the file ended before its end line came; `line` would be the next.
    Unfinished { line: u32 },
    /// The source failed.
    ReadFault,
    /// There was no memory.
    NoMemory,
}

/// What is wrong with a line. The parts of a line are tested in this order.
#[derive(Clone, Copy, PartialEq, Eq, Debug)]
pub enum Part {
    /// It isn't of a form that may stand at its place.
    Form,
    /// Its numbers make no model.
    Model,
    /// It is one event more than a file may have.
    Limit,
    /// Its pair is no class of the model.
    Class,
    /// Its pair was ranked before.
    Ranked,
    /// Its pair is asked already.
    Asked,
    /// Too many questions are open.
    Full,
    /// A class that comes earlier is neither ranked by an event nor issued.
    Earlier,
    /// Its two vectors don't open the pair.
    Vectors,
    /// Its question is none that is open.
    Question,
    /// Its point doesn't meet the answers.
    Point,
    /// The pair of its question isn't eliminated.
    Unranked,
    /// Its answer isn't the last one.
    Nothing,
    /// With one more withdrawal the survey may grow too long.
    Spent,
    /// The scale of its combination is below 1.
    Scale,
    /// A weight on an increment is negative.
    Increment,
    /// A cited answer isn't there.
    Cite,
    /// A weight on an answer that isn't equal is negative.
    Weight,
    /// The sums differ on an increment.
    Sum,
    /// No strict answer or increment has weight, or the verdict is another.
    Strict,
}

impl From<Broken> for Part {
    ghost use Rattle.std.specs.Prelude.{◌≡◌};
    ghost use Rattle.result_file.specs.Parts.{part_of};

    ghost from_gives = { λ broken part. part ≡ part_of broken };

    fn from(broken: Broken) -> Part {
        match broken {
            Broken::Class => Part::Class,
            Broken::Ranked => Part::Ranked,
            Broken::Flaw(Flaw::Scale) => Part::Scale,
            Broken::Flaw(Flaw::Increment) => Part::Increment,
            Broken::Flaw(Flaw::Cite) => Part::Cite,
            Broken::Flaw(Flaw::Weight) => Part::Weight,
            Broken::Flaw(Flaw::Sum) => Part::Sum,
            Broken::Flaw(Flaw::Strict) => Part::Strict,
            Broken::Asked => Part::Asked,
            Broken::Full => Part::Full,
            Broken::Earlier => Part::Earlier,
            Broken::Vectors => Part::Vectors,
            Broken::Question => Part::Question,
            Broken::Point => Part::Point,
            Broken::Unranked => Part::Unranked,
            Broken::Nothing => Part::Nothing,
            Broken::Spent => Part::Spent,
        }
    }
}

impl Part {
    ghost use Rattle.std.specs.Prelude.{◌≡◌};
    ghost use Rattle.result_file.specs.Words.{part_text};

    /// The word that stands for the part.
    pub fn text(self) -> &'static [u8]
        ensures { result.now ≡ part_text self }
    {
        match self {
            Part::Form => b"form",
            Part::Model => b"model",
            Part::Limit => b"limit",
            Part::Class => b"class",
            Part::Ranked => b"ranked",
            Part::Asked => b"asked",
            Part::Full => b"full",
            Part::Earlier => b"earlier",
            Part::Vectors => b"vectors",
            Part::Question => b"question",
            Part::Point => b"point",
            Part::Unranked => b"unranked",
            Part::Nothing => b"nothing",
            Part::Spent => b"spent",
            Part::Scale => b"scale",
            Part::Increment => b"increment",
            Part::Cite => b"cite",
            Part::Weight => b"weight",
            Part::Sum => b"sum",
            Part::Strict => b"strict",
        }
    }
}
