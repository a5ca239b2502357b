//! The sessions that the lines of a script have come to.
ghost use Rattle.std.specs.Prelude.{◌≡◌, ◌≢◌, ◌+◌, ◌≤◌, [], ◌∷◌, ◌++◌, length, IfErr, OnOk, MatchResult};
ghost use Rattle.survey_script.specs.ScriptViews.{IsWholeScript, is_bye, is_hello, script_view};
ghost use Rattle.survey_script.specs.Scripts.{IsStopOf, after_hello, after_line, after_message, after_request, ended_at, no_sessions, hello_part, sessions_after, sessions_view};
ghost use Rattle.survey_script.specs.Steps.{AreWithin, IsLineStop, IsStopAt};
ghost use Rattle.survey_script.specs.declared.sessions_so_far.LineStop.TheVariants.{NoMemory as NoMemoryStop};

use crate::hellos::{HelloFault, admit};
use crate::limits::{MAX_SCRIPT_LINES, MAX_SESSIONS};
use crate::scripts::ScriptSession;
use crate::stops::{ScriptPart, ScriptStop};
use edges::NoMemory;
use json_forms::{Definition, Message, read_message};
use result_file::MAX_LINE;
use std::alloc::Global;
use std::marker::Model;

/// Why reading stops at a line.
#[derive(Clone, Copy)]
pub(crate) enum LineStop {
    /// This part of it is wrong.
    Wrong(ScriptPart),
    /// There is no memory for it.
    NoMemory,
}

impl From<NoMemory> for LineStop {
    ghost from_gives = { λ _ stop. stop ≡ NoMemoryStop };

    fn from(_: NoMemory) -> LineStop {
        LineStop::NoMemory
    }
}

/// The sessions that have ended, and the one that is running.
#[derive(Drop)]
pub(crate) struct SessionsSoFar {
    ended: Vec<ScriptSession>,
    running: Option<ScriptSession>,
}

impl Model for SessionsSoFar {
    ghost use Rattle.survey_script.specs.Scripts.{SessionsView, sessions_view};

    ghost Value = { SessionsView };

    ghost view = { λ s. sessions_view s.ended.items s.running };
}

impl SessionsSoFar {
    /// No line has come.
    pub(crate) fn new(alloc: Global) -> SessionsSoFar
        ensures { result ≡ no_sessions }
    {
        SessionsSoFar {
            ended: Vec::new(alloc),
            running: None,
        }
    }

    /// Goes on by the line of this number.
    ///
    /// # Errors
    ///
    /// The line fails, or out of memory.
    pub(crate) fn add_line(
        &mut self,
        alloc: Global,
        definition: &Definition,
        number: u32,
        line: &[u8],
    ) -> Result<(), ScriptStop>
        requires { length line.now ≤ MAX_LINE }
        ensures added { OnOk result (after_line definition.now number self.old line.now ≡ Ok self.new) }
        ensures failed { IfErr result (IsStopAt number (after_line definition.now number self.old line.now)) }
        ensures few { OnOk result (number ≤ MAX_SCRIPT_LINES + 1) }
        ensures quiet { IfErr result (λ stop. stop ≢ ScriptStop.ReadFault) }
    {
        if number > MAX_SCRIPT_LINES + 1 {
            return Err(ScriptStop::Script {
                line: number,
                part: ScriptPart::Lines,
            });
        }
        let message = read_message(alloc, line)?;
        match self.add(alloc, definition, message) {
            Ok(()) => Ok(()),
            Err(LineStop::Wrong(part)) => Err(ScriptStop::Script { line: number, part }),
            Err(LineStop::NoMemory) => Err(ScriptStop::NoMemory),
        }
    }

    /// Goes on by the line of this number, after which input ends.
    ///
    /// # Errors
    ///
    /// The line fails, a session is running after it, or out of memory.
    pub(crate) fn add_last(
        &mut self,
        alloc: Global,
        definition: &Definition,
        number: u32,
        line: &[u8],
    ) -> Result<(), ScriptStop>
        requires { length line.now ≤ MAX_LINE }
        ensures added { OnOk result (sessions_after definition.now number self.old (line.now ∷ []) ≡ Ok self.new.ended) }
        ensures failed { IfErr result (IsStopOf (sessions_after definition.now number self.old (line.now ∷ []))) }
        ensures whole { OnOk result (AreWithin (length definition.now.respondents) number self.old
            → IsWholeScript (script_view definition.now self.new.ended)) }
        ensures quiet { IfErr result (λ stop. stop ≢ ScriptStop.ReadFault) }
    {
        match self.add_line(alloc, definition, number, line) {
            Ok(()) => self.end(number + 1),
            Err(stop) => Err(stop),
        }
    }

    /// Goes on by a line with this message.
    fn add(
        &mut self,
        alloc: Global,
        definition: &Definition,
        message: Option<Message>,
    ) -> Result<(), LineStop>
        ensures { MatchResult result
            (λ _. after_message definition.now self.old.ended self.old.running message ≡ Ok self.new)
            (IsLineStop (after_message definition.now self.old.ended self.old.running message)) }
    {
        match self.running.take() {
            None => self.begin(alloc, definition, message),
            Some(session) => self.go_on(session, message),
        }
    }

    /// Begins a session by a hello.
    fn begin(
        &mut self,
        alloc: Global,
        definition: &Definition,
        message: Option<Message>,
    ) -> Result<(), LineStop>
        ensures { MatchResult result
            (λ _. after_hello definition.now self.old.ended message ≡ Ok self.new)
            (IsLineStop (after_hello definition.now self.old.ended message)) }
    {
        let Some(Message::Hello(hello)) = message else {
            return Err(LineStop::Wrong(ScriptPart::Hello));
        };
        if self.ended.len() >= MAX_SESSIONS {
            return Err(LineStop::Wrong(ScriptPart::Sessions));
        }
        match admit(definition, &hello) {
            Ok(admitted) => {
                self.running = Some(ScriptSession::begun(
                    alloc,
                    admitted.respondent,
                    admitted.desk,
                ));
                Ok(())
            }
            Err(fault) => Err(LineStop::Wrong(part(fault))),
        }
    }

    /// Goes on with the session that was running, which a bye ends.
    fn go_on(&mut self, session: ScriptSession, message: Option<Message>) -> Result<(), LineStop>
        requires { self.old.running ≡ None }
        ensures { MatchResult result
            (λ _. after_request self.old.ended session message ≡ Ok self.new)
            (IsLineStop (after_request self.old.ended session message)) }
    {
        if says_hello(&message) {
            return Err(LineStop::Wrong(ScriptPart::Bye));
        }
        let ends = says_bye(&message);
        let mut session = session;
        session.push(message)?;
        if ends {
            self.keep(session)?;
        } else {
            self.running = Some(session);
        }
        Ok(())
    }

    /// Keeps a session that has ended.
    fn keep(&mut self, session: ScriptSession) -> Result<(), NoMemory>
        requires { self.old.running ≡ None }
        ensures { OnOk result (self.new ≡ sessions_view (self.old.ended ++ session ∷ []) None) }
    {
        self.ended.push(session)?;
        Ok(())
    }

    /// Ends before the line of this number.
    ///
    /// # Errors
    ///
    /// A session is running.
    pub(crate) fn end(&self, number: u32) -> Result<(), ScriptStop>
        ensures ends { OnOk result (self.now.running ≡ None) }
        ensures failed { IfErr result (λ stop. ended_at number self.now.ended self.now.running ≡ Err stop) }
        ensures part { IfErr result (λ stop. stop ≡ ScriptStop.Script number ScriptPart.Bye) }
    {
        match self.running {
            None => Ok(()),
            Some(_) => Err(ScriptStop::Script {
                line: number,
                part: ScriptPart::Bye,
            }),
        }
    }

    /// The sessions that have ended.
    pub(crate) fn into_ended(self) -> Vec<ScriptSession>
        ensures { result.items ≡ self.ended }
    {
        self.ended
    }
}

/// The part of a fault of a hello.
fn part(fault: HelloFault) -> ScriptPart
    ensures { result ≡ hello_part fault }
{
    match fault {
        HelloFault::Name => ScriptPart::Name,
        HelloFault::Code => ScriptPart::Code,
        HelloFault::Desk => ScriptPart::Desk,
    }
}

/// Whether the line is a hello.
fn says_hello(message: &Option<Message>) -> bool
    ensures { result ≡ is_hello message.now }
{
    matches!(message, Some(Message::Hello(_)))
}

/// Whether the line is a bye.
fn says_bye(message: &Option<Message>) -> bool
    ensures { result ≡ is_bye message.now }
{
    matches!(message, Some(Message::Bye))
}
