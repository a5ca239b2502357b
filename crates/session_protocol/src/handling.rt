//! What is replied to one line, or to its message.
ghost use Rattle.std.specs.Prelude.{◌≡◌, ◌≢◌, Some, IfOk, OnErr};
ghost use Rattle.json_forms.specs.Messages.{message_of};
ghost use Rattle.json_forms.specs.declared.messages.Message.TheVariants.{Withdraw as TheWithdraw};
ghost use Rattle.json_forms.specs.declared.replies.Reply.TheVariants.{Refused as TheRefused};
ghost use Rattle.survey_replies.specs.Calls.{Watches};
ghost use Rattle.session_protocol.specs.Exchanges.{IsAnswered};

use json_forms::{Message, NoMemory, Reply, Word, read_message};
use std::alloc::Global;
use survey_replies::Respondent;

/// Answers a line after the hello, without its line end.
///
/// # Errors
///
/// Out of memory: nothing was recorded.
pub fn handle<R: Respondent>(
    alloc: Global,
    respondent: &mut R,
    line: &[u8],
) -> Result<Reply, NoMemory>
    requires waits { R.can_wait }
    ensures answered { IfOk result (λ reply. IsAnswered (R.listed (R.about respondent.old)) (R.desk (R.about respondent.old))
        (R.seen respondent.old) (R.seen respondent.new) (message_of line.now) reply) }
    ensures refused { IfOk result (λ reply. (word : Word) → reply ≡ TheRefused word → respondent.new ≡ respondent.old) }
    ensures quiet { OnErr result (Watches (R.seen respondent.old) (R.seen respondent.new)) }
    ensures unread { OnErr result (message_of line.now ≢ Some TheWithdraw → respondent.new ≡ respondent.old) }
    ensures same { R.about respondent.new ≡ R.about respondent.old }
{
    let message = read_message(alloc, line)?;
    handle_message(respondent, &message)
}

/// Answers the message of a line after the hello; `None` where the line is no message.
///
/// # Errors
///
/// Out of memory: nothing was recorded.
pub fn handle_message<R: Respondent>(
    respondent: &mut R,
    message: &Option<Message>,
) -> Result<Reply, NoMemory>
    requires waits { R.can_wait }
    ensures answered { IfOk result (λ reply. IsAnswered (R.listed (R.about respondent.old)) (R.desk (R.about respondent.old))
        (R.seen respondent.old) (R.seen respondent.new) message.now reply) }
    ensures refused { IfOk result (λ reply. (word : Word) → reply ≡ TheRefused word → respondent.new ≡ respondent.old) }
    ensures quiet { OnErr result (Watches (R.seen respondent.old) (R.seen respondent.new)) }
    ensures unread { OnErr result (message.now ≡ Some TheWithdraw) }
    ensures same { R.about respondent.new ≡ R.about respondent.old }
{
    match message {
        Some(message) => reply_to(respondent, message),
        None => Ok(Reply::Refused(Word::Message)),
    }
}

/// Answers a message.
fn reply_to<R: Respondent>(respondent: &mut R, message: &Message) -> Result<Reply, NoMemory>
    requires waits { R.can_wait }
    ensures answered { IfOk result (λ reply. IsAnswered (R.listed (R.about respondent.old)) (R.desk (R.about respondent.old))
        (R.seen respondent.old) (R.seen respondent.new) (Some message.now) reply) }
    ensures refused { IfOk result (λ reply. (word : Word) → reply ≡ TheRefused word → respondent.new ≡ respondent.old) }
    ensures quiet { OnErr result (Watches (R.seen respondent.old) (R.seen respondent.new)) }
    ensures unread { OnErr result (message.now ≡ TheWithdraw) }
    ensures same { R.about respondent.new ≡ R.about respondent.old }
{
    match message {
        Message::Hello(_) => Ok(Reply::Refused(Word::Message)),
        Message::Next => Ok(Reply::Next(respondent.next())),
        Message::Answer { question, side } => Ok(Reply::Answer(respondent.answer(
            *question, *side,
        ))),
        Message::Values => Ok(Reply::Values(respondent.values())),
        Message::Withdraw => Ok(Reply::Withdraw(respondent.withdraw()?)),
        Message::Result => Ok(Reply::Result {
            length: respondent.length(),
        }),
        Message::Bye => Ok(Reply::Bye),
    }
}

#[cfg(test)]
mod tests;
