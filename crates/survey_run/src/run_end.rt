//! What a run of a script leaves.
ghost use Rattle.std.specs.Prelude.{◌≡◌, ◌≤◌, Some, length};
ghost use Rattle.row_laws.specs.Items.{item_at};

use json_forms::{MAX_RESPONDENTS, Reply};
use std::marker::Model;
use survey_script::MAX_SCRIPT_LINES;
use survey_state::State;

/// The final state of each respondent's survey, and the reply to each line after the definition.
#[derive(Drop)]
pub struct RunEnd {
    states: Vec<State>,
    replies: Vec<Reply>,
}

impl Model for RunEnd {
    ghost use Rattle.std.specs.Prelude.{◌≤◌, length};
    ghost use Rattle.json_forms.specs.declared.definition_faults.TheConstants.{MAX_RESPONDENTS};
    ghost use Rattle.survey_script.specs.declared.limits.TheConstants.{MAX_SCRIPT_LINES};
    ghost use Rattle.survey_run.specs.RunViews.{RunView};

    ghost Value = { RunView };

    ghost view = { λ e. record { states = e.states.items; replies = e.replies.items } };

    ghost invariant = { λ e. (length e.states.items ≤ MAX_RESPONDENTS) × (length e.replies.items ≤ MAX_SCRIPT_LINES) };
}

impl RunEnd {
    /// What is left of these.
    pub(crate) fn of(states: Vec<State>, replies: Vec<Reply>) -> RunEnd
        requires states { length states.items ≤ MAX_RESPONDENTS }
        requires replies { length replies.items ≤ MAX_SCRIPT_LINES }
        ensures { (result.states ≡ states.items) × (result.replies ≡ replies.items) }
    {
        RunEnd { states, replies }
    }

    /// How many surveys there are: one for each respondent.
    pub fn surveys(&self) -> u32
        ensures { result ≡ length self.now.states }
    {
        self.states.len() as u32
    }

    /// The final state of a respondent's survey.
    pub fn state(&self, respondent: u32) -> &State
        requires { (1 ≤ respondent) × (respondent ≤ length self.now.states) }
        ensures { item_at self.now.states respondent ≡ Some result.now }
    {
        &self.states[respondent as usize - 1]
    }

    /// How many lines came after the definition.
    pub fn replies(&self) -> u32
        ensures { result ≡ length self.now.replies }
    {
        self.replies.len() as u32
    }

    /// The replies to all lines after the definition, in input order.
    pub fn reply_list(&self) -> &[Reply]
        ensures { result.now ≡ self.now.replies }
    {
        self.replies.as_slice()
    }

    /// The reply to the line of this number after the definition.
    pub fn reply(&self, number: u32) -> &Reply
        requires { (1 ≤ number) × (number ≤ length self.now.replies) }
        ensures { item_at self.now.replies number ≡ Some result.now }
    {
        &self.replies[number as usize - 1]
    }
}
