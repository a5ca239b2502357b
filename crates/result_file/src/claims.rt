//! The claims of a file, one after the other.
ghost use Rattle.std.specs.Prelude.{◌≡◌, ◌≢◌, ◌<◌, ◌≤◌, List, [], length, OnOk, IfOk, IfErr, All, unsigned_abs};
ghost use Rattle.criteria_model.specs.Criteria.{Criteria, IsModel};
ghost use Rattle.criteria_model.specs.Classes.{IsClass};
ghost use Rattle.criteria_model.specs.Worth.{increments as increments_of};
ghost use Rattle.result_file.specs.Texts.{end_line};
ghost use Rattle.result_file.specs.Claims.{Claim, answered, eliminated, pair_of};
ghost use Rattle.result_file.specs.Checked.{begun};
ghost use Rattle.result_file.specs.Contents.{of_claims};
ghost use Rattle.result_file.specs.RightClaims.{FailsAs};
ghost use Rattle.result_file.specs.Kept.{KeepsClaims, AddsClaim, AcceptsClaim};
ghost use Rattle.result_file.specs.Stops.{StopsAt, Refuses};

use crate::eliminations::{Elimination, elimination_of};
use crate::line_fields::answer_of;
use crate::stops::Stop;
use crate::verdicts::Part;
use answer_rows::{Answer, Answers};
use criteria_model::{CERTIFICATE_BOUND, Model, Pair};
use farkas_check::flaw;
use std::alloc::Global;
use survey_core::{Broken, MAX_EVENTS};

/// A model, how many claims came, and the answers among them.
#[derive(Drop)]
pub(crate) struct Claims {
    model: Model,
    criteria: usize,
    increments: usize,
    count: u32,
    answers: Answers,
}

impl std::marker::Model for Claims {
    ghost use Rattle.std.specs.Prelude.{◌≡◌, ◌≤◌, length, All};
    ghost use Rattle.criteria_model.specs.Criteria.{IsModel};
    ghost use Rattle.criteria_model.specs.Worth.{increments as increments_of};
    ghost use Rattle.criteria_model.specs.Pairs.{IsFit};
    ghost use Rattle.survey_core.specs.declared.limits.TheConstants.{MAX_EVENTS};
    ghost use Rattle.result_file.specs.Kept.{KeptClaims};

    ghost Value = { KeptClaims };

    ghost view = { λ c. record { model = c.model; count = c.count; answers = c.answers.answers } };

    ghost invariant = { λ c. record {
      model : IsModel c.model;
      criteria : c.criteria ≡ length c.model.levels;
      increments : c.increments ≡ increments_of c.model.levels;
      answers : length c.answers.answers ≤ c.count;
      few : c.count ≤ MAX_EVENTS;
      fit : All (λ answer. IsFit c.model.levels answer.pair) c.answers.answers;
    } };
}

impl Claims {
    /// No claim yet.
    pub(crate) fn of(alloc: Global, model: Model) -> Result<Claims, Stop>
        ensures none { IfOk result (λ claims. KeepsClaims claims model []) }
        ensures model { IsModel model }
        ensures failed { IfErr result (λ stop. stop ≡ Stop.NoMemory) }
    {
        let criteria = usize::from(model.criteria());
        let increments = usize::from(model.increments());
        let answers = Answers::reserve(alloc, 0)?;
        Ok(Claims {
            model,
            criteria,
            increments,
            count: 0,
            answers,
        })
    }

    /// Adds the claim of a line, or says what stops the check there.
    pub(crate) fn add(&mut self, line: &[u8]) -> Result<(), Stop>
        ensures added { OnOk result ((criteria : Criteria) (claims : List Claim) →
            KeepsClaims self.old criteria claims → AddsClaim self.new line.now criteria claims) }
        ensures failed { IfErr result (λ stop. (criteria : Criteria) (claims : List Claim) →
            line.now ≢ end_line → KeepsClaims self.old criteria claims → StopsAt (begun (of_claims criteria claims)) line.now stop) }
    {
        if let Some(answer) = answer_of(line, self.criteria) {
            return self.add_answer(answer);
        }
        let Some(elimination) = elimination_of(line, self.criteria, self.increments) else {
            return Err(Stop::Wrong(Part::Form));
        };
        self.add_elimination(&elimination)
    }

    /// Adds an answer, or says what stops the check at it.
    fn add_answer(&mut self, answer: Answer) -> Result<(), Stop>
        ensures added { OnOk result ((criteria : Criteria) (claims : List Claim) →
            KeepsClaims self.old criteria claims → AcceptsClaim self.new criteria claims (answered answer)) }
        ensures failed { IfErr result (λ stop. (criteria : Criteria) (claims : List Claim) →
            KeepsClaims self.old criteria claims → Refuses criteria claims (answered answer) stop) }
    {
        if let Err(part) = self.judge(&answer.pair) {
            return Err(Stop::Wrong(part));
        }
        self.answers.grow(1)?;
        self.answers.push(answer);
        self.count += 1;
        Ok(())
    }

    /// Adds an elimination, or says what stops the check at it.
    fn add_elimination(&mut self, elimination: &Elimination) -> Result<(), Stop>
        requires len { length elimination.now.combination.increments ≡ increments_of self.old.model.levels }
        requires scale { unsigned_abs elimination.now.combination.scale < CERTIFICATE_BOUND }
        ensures added { OnOk result ((criteria : Criteria) (claims : List Claim) →
            KeepsClaims self.old criteria claims → AcceptsClaim self.new criteria claims (eliminated elimination.now)) }
        ensures failed { IfErr result (λ stop. (criteria : Criteria) (claims : List Claim) →
            KeepsClaims self.old criteria claims → Refuses criteria claims (eliminated elimination.now) stop) }
    {
        let Elimination {
            pair,
            verdict,
            combination,
            ..
        } = elimination;
        if let Err(part) = self.judge(pair) {
            return Err(Stop::Wrong(part));
        }
        if let Some(flaw) = flaw(&self.model, &self.answers, combination, pair, *verdict) {
            return Err(Stop::Wrong(Part::from(Broken::Flaw(flaw))));
        }
        self.count += 1;
        Ok(())
    }

    /// Whether there is room for a claim on the pair, and the pair is a class.
    fn judge(&self, pair: &Pair) -> Result<(), Part>
        ensures room { OnOk result (self.now.count < MAX_EVENTS) }
        ensures class { OnOk result (IsClass self.now.model pair.now) }
        ensures failed { IfErr result (λ part. (claims : List Claim) (claim : Claim) →
            self.now.count ≡ length claims → pair_of claim ≡ pair.now → FailsAs self.now.model claims claim part) }
    {
        if self.count >= MAX_EVENTS {
            return Err(Part::Limit);
        }
        if !self.model.is_class(pair) {
            return Err(Part::Class);
        }
        Ok(())
    }
}
