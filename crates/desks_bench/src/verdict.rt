//! What the checker says of a journal.
ghost use Rattle.std.specs.Prelude.{◌≡◌};
ghost use Rattle.desks_bench.specs.Runs.{IsOf};

use criteria_model::Model;
use edges::{NoMemory, QuietSink, QuietSource, Text};
use result_file::{Checked, MAX_LINE, check_result, write_result};
use std::alloc::Global;
use survey_state::State;

/// The longest file that is written, in bytes.
const MAX_FILE: usize = 1 << 24;

/// Writes the journal as a result file, and checks that. The verdict is out of memory where the file would be too long.
pub fn verdict_of(alloc: Global, state: &mut State, model: &Model) -> Checked
    requires { IsOf model.now state.old.listed }
{
    match file_of(alloc, state, model) {
        Ok(mut source) => check_result(alloc, &mut source),
        Err(_) => Checked::NoMemory,
    }
}

/// The journal as a result file.
fn file_of(alloc: Global, state: &mut State, model: &Model) -> Result<QuietSource, NoMemory>
    requires { IsOf model.now state.old.listed }
{
    let mut text = Text::reserve(alloc, MAX_LINE)?;
    let mut sink = QuietSink::new(alloc, MAX_FILE)?;
    let count = state.length();
    let written = write_result(state, count, model, &mut text, &mut sink);
    if written.is_err() || sink.dropped() > 0 {
        return Err(NoMemory);
    }
    QuietSource::new(alloc, sink.bytes())
}
