//! Requests and their replies.
ghost use Rattle.std.specs.Prelude.{◌≡◌, IfOk};
ghost use Rattle.pair_enumeration.specs.Listed.{IsListed};
ghost use Rattle.survey_bench.specs.Desks.{IsOf};
ghost use Rattle.survey_bench.specs.Replies.{IsUsable};

use crate::output::Output;
use crate::requests::Request;
use criteria_model::Model;
use json_forms::{NoMemory, Reply};
use std::io;
use survey_replies::Respondent;

/// Makes a request at a desk, and gives the reply. The lines of both are written.
pub fn exchange<R: Respondent, P: Print>(
    rt: &P,
    desk: &mut R,
    model: &Model,
    request: Request,
    output: &mut Output,
) -> io::Result<Reply>
    requires waits { R.can_wait }
    requires desk { IsOf model.now (R.listed (R.about desk.old)) }
    ensures usable { IfOk result (λ reply. IsUsable model.now.levels reply) }
    ensures desk { IsOf model.now (R.listed (R.about desk.new)) }
{
    let reply = reply_of(desk, request)?;
    output.put_lines(rt, request, &reply, model)?;
    Ok(reply)
}

fn reply_of<R: Respondent>(desk: &mut R, request: Request) -> Result<Reply, NoMemory>
    requires waits { R.can_wait }
    requires listed { IsListed (R.listed (R.about desk.old)) }
    ensures usable { IfOk result (λ reply. IsUsable (R.listed (R.about desk.old)).criteria.levels reply) }
    ensures same { R.about desk.new ≡ R.about desk.old }
{
    match request {
        Request::Next => Ok(Reply::Next(desk.next())),
        Request::Answer { question, side } => Ok(Reply::Answer(desk.answer(question, side))),
        Request::Values => Ok(Reply::Values(desk.values())),
        Request::Withdraw => Ok(Reply::Withdraw(desk.withdraw()?)),
    }
}
