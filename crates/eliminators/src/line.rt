//! The line by which jobs come to eliminators: each names a survey, or says to stop.
ghost use Rattle.std.specs.Prelude.{◌≡◌, ◌≤◌, IfOk, IfSome};

use crate::limits::MAX_JOBS;
use crate::waiting::WaitingMarks;
use crossbeam_channel::{Receiver, Sender, bounded};
use std::alloc::{AllocError as NoMemory, Global};
use std::sync::Wait;

/// What comes by the line.
#[derive(Drop)]
enum Notice {
    Survey(SurveyNumber),
    Stop,
}

/// The number of a survey, of as many as there are.
#[derive(Drop)]
struct SurveyNumber {
    number: u32,
    surveys: u32,
    ghost exists: { (1 ≤ number) × (number ≤ surveys) },
}

/// An end of the job line, which sends and takes.
#[derive(Drop)]
pub struct JobEnd {
    sender: Sender<Notice>,
    receiver: Receiver<Notice>,
    waiting: WaitingMarks,
    surveys: u32,
}

/// A job line for this number of surveys, in which [`MAX_JOBS`] jobs may wait, one of each survey.
///
/// # Errors
///
/// Out of memory.
pub fn job_line(alloc: Global, surveys: u32) -> Result<JobEnd, NoMemory>
    ensures { IfOk result (λ end. end.surveys ≡ surveys) }
{
    let (sender, receiver) = bounded(alloc, MAX_JOBS)?;
    Ok(JobEnd {
        sender,
        receiver,
        waiting: WaitingMarks::new(alloc, surveys)?,
        surveys,
    })
}

impl JobEnd {
    /// One more end of this line.
    ///
    /// # Errors
    ///
    /// Out of memory.
    pub fn another(&self, _alloc: Global) -> Result<JobEnd, NoMemory>
        ensures { IfOk result (λ end. end.surveys ≡ self.now.surveys) }
    {
        Ok(JobEnd {
            sender: self.sender.clone()?,
            receiver: self.receiver.clone()?,
            waiting: self.waiting.another()?,
            surveys: self.surveys,
        })
    }

    /// Sends a job for a survey, unless one of it waits already. Waits where the line is full. A job that the line hands back is
    /// dropped.
    pub fn send<R: Wait>(&self, rt: &R, survey: u32)
        requires low { 1 ≤ survey }
        requires high { survey ≤ self.now.surveys }
    {
        if self.waiting.raise(survey) {
            let number = SurveyNumber {
                number: survey,
                surveys: self.surveys,
            };
            let _ = self.sender.send(rt, Notice::Survey(number));
        }
    }

    /// Tells one eliminator to stop. Waits where the line is full.
    pub fn stop<R: Wait>(&self, rt: &R) {
        let _ = self.sender.send(rt, Notice::Stop);
    }

    /// The survey of the next job; none at a stop, or where the other ends are gone. Waits for one of these.
    pub(crate) fn next<R: Wait>(&mut self, rt: &R) -> Option<u32>
        ensures exists { IfSome result (λ survey. (1 ≤ survey) × (survey ≤ self.old.surveys)) }
        ensures same { self.new.surveys ≡ self.old.surveys }
    {
        match self.receiver.recv(rt) {
            // All ends of a line have one number of surveys, so this holds of each job.
            Ok(Notice::Survey(survey)) if survey.surveys == self.surveys => {
                // Before the work, so that an answer that comes meanwhile sends a job of its own.
                self.waiting.lower(survey.number);
                Some(survey.number)
            }
            _ => None,
        }
    }
}
