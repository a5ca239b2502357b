//! A script: a definition, and sessions of its respondents.
ghost use Rattle.std.specs.Prelude.{◌≡◌, OnOk};
ghost use Rattle.survey_script.specs.ScriptViews.{IsWholeScript, begun_session, script_view, with_message};

use edges::NoMemory;
use json_forms::{Definition, Message};
use std::alloc::Global;
use std::marker::Model;

/// A session of a script: who is at which desk, and what is asked.
#[derive(Drop)]
pub struct ScriptSession {
    respondent: u32,
    desk: u8,
    messages: Vec<Option<Message>>,
}

impl Model for ScriptSession {
    ghost use Rattle.survey_script.specs.ScriptViews.{ScriptSessionView};

    ghost Value = { ScriptSessionView };

    ghost view = { λ s. record {
      respondent = s.respondent;
      desk = s.desk;
      messages = s.messages.items;
    } };
}

impl ScriptSession {
    /// The number of the respondent, counted from 1.
    pub fn respondent(&self) -> u32
        ensures { result ≡ self.now.respondent }
    {
        self.respondent
    }

    /// The number of the desk.
    pub fn desk(&self) -> u8
        ensures { result ≡ self.now.desk }
    {
        self.desk
    }

    /// The message that each line after the hello is; `None` for a line that is none.
    pub fn messages(&self) -> &[Option<Message>]
        ensures { result.now ≡ self.now.messages }
    {
        self.messages.as_slice()
    }

    /// A session of which only the hello has come.
    pub(crate) fn begun(alloc: Global, respondent: u32, desk: u8) -> ScriptSession
        ensures { result ≡ begun_session respondent desk }
    {
        ScriptSession {
            respondent,
            desk,
            messages: Vec::new(alloc),
        }
    }

    /// Adds a line's message.
    pub(crate) fn push(&mut self, message: Option<Message>) -> Result<(), NoMemory>
        ensures { OnOk result (self.new ≡ with_message self.old message) }
    {
        self.messages.push(message)?;
        Ok(())
    }
}

/// A definition, and the sessions that its respondents hold, in the order in which they came.
#[derive(Drop)]
pub struct Script {
    definition: Definition,
    sessions: Vec<ScriptSession>,
}

impl Model for Script {
    ghost use Rattle.survey_script.specs.ScriptViews.{IsWholeScript, ScriptView, script_view};

    ghost Value = { ScriptView };

    ghost view = { λ s. script_view s.definition s.sessions.items };

    ghost invariant = { λ s. IsWholeScript (script_view s.definition s.sessions.items) };
}

impl Script {
    /// The script of these sessions.
    pub(crate) fn of(definition: Definition, sessions: Vec<ScriptSession>) -> Script
        requires { IsWholeScript (script_view definition sessions.items) }
        ensures { result ≡ script_view definition sessions.items }
    {
        Script {
            definition,
            sessions,
        }
    }

    /// The criteria, and the respondents.
    pub fn definition(&self) -> &Definition
        ensures { result.now ≡ self.now.definition }
    {
        &self.definition
    }

    /// The sessions, in the order in which they came.
    pub fn sessions(&self) -> &[ScriptSession]
        ensures value { result.now ≡ self.now.sessions }
        ensures whole { IsWholeScript self.now }
    {
        self.sessions.as_slice()
    }
}
