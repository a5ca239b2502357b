//! Where lines are written.
ghost use Rattle.std.specs.Prelude.{◌≡◌, ◌≤◌, []};
ghost use Rattle.result_file.specs.declared.limits.TheConstants.{MAX_LINE};
ghost use Rattle.json_forms.specs.declared.replies.TheConstants.{MAX_REPLY};
ghost use Rattle.json_forms.specs.Replies.{IsWritable};
ghost use Rattle.survey_bench.specs.Desks.{IsOf};

use crate::requests::Request;
use criteria_model::Model;
use edges::{Failed, NoMemory, StdSink, Text};
use json_forms::{Reply, write_reply};
use result_file::{MAX_LINE, write_result};
use std::alloc::Global;
use std::io;
use survey_replies::Events;

/// Standard output with a buffer for a line.
#[derive(Drop)]
pub struct Output {
    text: Text,
    sink: StdSink,
    shows_replies: bool,
    ghost empty: { text.bytes ≡ [] },
    ghost replies_fit: { MAX_REPLY ≤ text.room },
    ghost lines_fit: { MAX_LINE ≤ text.room },
}

impl Output {
    /// With `shows_replies` requests and replies are written, else only what is asked for at the end.
    ///
    /// # Errors
    ///
    /// Out of memory.
    pub fn new(alloc: Global, sink: StdSink, shows_replies: bool) -> Result<Output, NoMemory> {
        Ok(Output {
            text: Text::reserve(alloc, MAX_LINE)?,
            sink,
            shows_replies,
        })
    }

    /// Writes a request and its reply, where replies are shown.
    pub fn put_lines(
        &mut self,
        rt: &impl Print,
        request: Request,
        reply: &Reply,
        model: &Model,
    ) -> io::Result<()>
        requires { IsWritable model.now.levels reply.now }
    {
        if !self.shows_replies {
            return Ok(());
        }
        println!(rt; "{request}")?;
        write_reply(reply, model, &mut self.text);
        self.text.put_all(&mut self.sink).map_err(fault)
    }

    /// Writes a journal as a result file.
    pub fn put_journal<E: Events>(&mut self, journal: &mut E, model: &Model) -> io::Result<()>
        requires waits { E.can_wait }
        requires model { IsOf model.now (E.listed (E.about journal.old)) }
    {
        let count = journal.length();
        write_result(journal, count, model, &mut self.text, &mut self.sink).map_err(fault)
    }
}

/// A fault of standard output.
fn fault(_: Failed) -> io::Error {
    io::Error::from(io::ErrorKind::WriteZero)
}
