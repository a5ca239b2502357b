//! How far the lines of a file have come.
ghost use Rattle.std.specs.Prelude.{◌≡◌, ◌≢◌, ◌↔◌, ℕ, ◌≤◌, List, length, IsTrue, MatchOption, OnOk, IfOk, IfErr};
ghost use Rattle.result_file.specs.declared.kinds.Kind.{Kind as FileKind};
ghost use Rattle.result_file.specs.Texts.{model_line, end_line};
ghost use Rattle.result_file.specs.Checked.{Stage, headed, Says, Fails};
ghost use Rattle.result_file.specs.Progress.{IsAtStage, GoesOn, EndsAs, HasEndLine, IsSurveyOf};
ghost use Rattle.result_file.specs.Kept.{KeptSurvey};
ghost use Rattle.result_file.specs.Stops.{StopsAt};

use crate::bodies::Body;
use crate::kinds::{Kind, kind_of};
use crate::limits::MAX_LINE;
use crate::line_fields::model_of;
use crate::stops::Stop;
use crate::survey::Survey;
use crate::verdicts::{Checked, Part};
use criteria_model::Model;
use std::alloc::Global;

/// The last line.
const END_LINE: &[u8] = b"end";

/// How far the right lines of a file have come.
#[derive(Drop)]
pub(crate) enum Progress {
    /// No line yet.
    Blank,
    /// The heading.
    Headed(Kind),
    /// A model, and claims or events.
    Begun(Body),
    /// The whole file.
    Ended(Body),
}

impl Progress {
    /// Goes on by one more line, or says what stops the check there.
    pub(crate) fn next(&mut self, alloc: Global, line: &[u8]) -> Result<(), Stop>
        requires { length line.now ≤ MAX_LINE }
        ensures next { OnOk result ((lines : List (List ℕ)) (stage : Stage) →
            Says lines stage → IsAtStage self.old stage → GoesOn lines line.now self.new) }
        ensures failed { IfErr result (λ stop. (stage : Stage) → IsAtStage self.old stage → StopsAt stage line.now stop) }
    {
        match self {
            Progress::Begun(body) => {
                if !is_end(line) {
                    return body.add(line);
                }
            }
            _ => {}
        }
        let progress = std::mem::replace(self, Progress::Blank);
        *self = progress.turned(alloc, line)?;
        Ok(())
    }

    /// The progress after the heading, the model line or the end line.
    fn turned(self, alloc: Global, line: &[u8]) -> Result<Progress, Stop>
        requires fits { length line.now ≤ MAX_LINE }
        requires ends { (body : Body) → self ≡ Progress.Begun body → line.now ≡ end_line }
        ensures next { IfOk result (λ progress. (lines : List (List ℕ)) (stage : Stage) →
            Says lines stage → IsAtStage self stage → GoesOn lines line.now progress) }
        ensures failed { IfErr result (λ stop. (stage : Stage) → IsAtStage self stage → StopsAt stage line.now stop) }
    {
        match self {
            Progress::Blank => match kind_of(line) {
                Some(kind) => Ok(Progress::Headed(kind)),
                None => Err(Stop::Wrong(Part::Form)),
            },
            Progress::Headed(kind) => match begin(line) {
                Ok(model) => Ok(Progress::Begun(Body::of(alloc, kind, model)?)),
                Err(part) => Err(Stop::Wrong(part)),
            },
            Progress::Begun(body) => Ok(Progress::Ended(body)),
            Progress::Ended(_) => Err(Stop::Wrong(Part::Form)),
        }
    }

    /// What the file is where it ends after this piece of a line, of that number.
    pub(crate) fn ends(&self, piece: &[u8], number: u32) -> Checked
        ensures verdict { (stage : Stage) → IsAtStage self.now stage → EndsAs stage piece.now number result }
        ensures on_text { result ≢ Checked.ReadFault }
    {
        match self {
            Progress::Begun(body) => {
                if is_end(piece) {
                    body.verdict()
                } else {
                    Checked::Unfinished { line: number }
                }
            }
            Progress::Ended(body) => {
                if piece.is_empty() {
                    body.verdict()
                } else {
                    Checked::Invalid {
                        line: number,
                        part: Part::Form,
                    }
                }
            }
            Progress::Blank | Progress::Headed(_) => Checked::Unfinished { line: number },
        }
    }

    /// Whether the end line has come.
    pub(crate) fn has_ended(&self) -> bool
        ensures { IsTrue result ↔ HasEndLine self.now }
    {
        match self {
            Progress::Ended(_) => true,
            _ => false,
        }
    }

    /// What is kept of a result, once its model line has come.
    pub(crate) fn into_survey(self) -> Option<Survey>
        ensures { MatchOption result ((survey : KeptSurvey) → ¬ IsSurveyOf self survey) (λ survey. IsSurveyOf self survey) }
    {
        match self {
            Progress::Begun(Body::Survey(survey)) => Some(survey),
            Progress::Ended(Body::Survey(survey)) => Some(survey),
            _ => None,
        }
    }
}

/// Whether the line is the last of a file.
fn is_end(line: &[u8]) -> bool
    ensures { IsTrue result ↔ (line.now ≡ end_line) }
{
    line == END_LINE
}

/// The model of the second line.
fn begin(line: &[u8]) -> Result<Model, Part>
    requires { length line.now ≤ MAX_LINE }
    ensures spelled { IfOk result (λ model. line.now ≡ model_line model) }
    ensures failed { IfErr result (λ part. (kind : FileKind) → Fails (headed kind) line.now part) }
{
    let mut cells = [0; 2048];
    let Some((count, degree)) = model_of(line, &mut cells) else {
        return Err(Part::Form);
    };
    match Model::new(&cells[..count], degree) {
        Ok(model) => Ok(model),
        Err(_) => Err(Part::Model),
    }
}
