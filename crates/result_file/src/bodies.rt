//! What stands between the model line and the end of a file.
ghost use Rattle.std.specs.Prelude.{◌≡◌, ◌≢◌, OnOk, IfOk, IfErr};
ghost use Rattle.result_file.specs.Bodies.{Keeps, Starts, Adds, IsOfWhole};
ghost use Rattle.result_file.specs.Checked.{begun};
ghost use Rattle.result_file.specs.Contents.{Content};
ghost use Rattle.result_file.specs.Stops.{StopsAt};
ghost use Rattle.result_file.specs.Texts.{end_line};

use crate::claims::Claims;
use crate::kinds::Kind;
use crate::stops::Stop;
use crate::survey::Survey;
use crate::verdicts::Checked;
use criteria_model::Model;
use std::alloc::Global;

/// What is kept of the lines of a file after its model line.
#[derive(Drop)]
pub(crate) enum Body {
    Claims(Claims),
    Survey(Survey),
}

impl Body {
    /// No line yet, in a file of this kind.
    pub(crate) fn of(alloc: Global, kind: Kind, model: Model) -> Result<Body, Stop>
        ensures none { IfOk result (λ body. Starts body kind model) }
        ensures failed { IfErr result (λ stop. stop ≡ Stop.NoMemory) }
    {
        match kind {
            Kind::Claims => Ok(Body::Claims(Claims::of(alloc, model)?)),
            Kind::Result(format) => Ok(Body::Survey(Survey::of(alloc, format, model)?)),
        }
    }

    /// Adds a line, or says what stops the check there.
    pub(crate) fn add(&mut self, line: &[u8]) -> Result<(), Stop>
        ensures added { OnOk result ((content : Content) → Keeps self.old content → Adds self.new line.now content) }
        ensures failed { IfErr result (λ stop. (content : Content) →
            line.now ≢ end_line → Keeps self.old content → StopsAt (begun content) line.now stop) }
    {
        match self {
            Body::Claims(claims) => claims.add(line),
            Body::Survey(survey) => survey.add(line),
        }
    }

    /// What the file is where it ends here.
    pub(crate) fn verdict(&self) -> Checked
        ensures verdict { (content : Content) → Keeps self.now content → IsOfWhole content result }
        ensures on_text { result ≢ Checked.ReadFault }
    {
        match self {
            Body::Claims(_) => Checked::Valid,
            Body::Survey(survey) => {
                if survey.is_complete() {
                    Checked::ValidComplete
                } else {
                    Checked::Valid
                }
            }
        }
    }
}
