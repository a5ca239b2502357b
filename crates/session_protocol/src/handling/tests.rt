//! The replies to the lines of a session.
use super::*;
use criteria_model::{Model, Pair, Tuple};
use std::process::Abort;
use std::test::Fail;
use survey_replies::{AnswerReply, NextReply, WithdrawReply};
use survey_state::Solo;

/// A line that is no message and a second hello change nothing; each other line has the reply of its message.
#[test]
fn lines_and_their_replies(rt: HostRuntime) -> Result<(), Fail> {
    let model = Model::new(&[2, 2, 2], 3).ok().ok_or("model")?;
    let mut solo = Solo::new(rt.alloc(), &model)?;
    let table: [(&[u8], Reply); 10] = [
        (b"hi", Reply::Refused(Word::Message)),
        (
            b"{\"hello\":{\"code\":\"k1\",\"desk\":1,\"name\":\"ana\"}}",
            Reply::Refused(Word::Message),
        ),
        (
            b"{\"ask\":\"withdraw\"}",
            Reply::Withdraw(WithdrawReply::Nothing { at: 0 }),
        ),
        (
            b"{\"answer\":{\"question\":7,\"side\":\"left\"}}",
            Reply::Answer(AnswerReply::Unknown { at: 0, question: 7 }),
        ),
        (
            b"{\"ask\":\"next\"}",
            Reply::Next(NextReply::Question {
                at: 0,
                number: 1,
                place: 1,
                pair: Pair {
                    left: Tuple::of(&[2, 1, 0]),
                    right: Tuple::of(&[1, 2, 0]),
                },
            }),
        ),
        (b"{\"ask\":\"result\"}", Reply::Result { length: 1 }),
        (
            b"{\"answer\":{\"question\":1,\"side\":\"left\"}}",
            Reply::Answer(AnswerReply::Accepted { at: 1, question: 1 }),
        ),
        (
            b"{\"ask\":\"withdraw\"}",
            Reply::Withdraw(WithdrawReply::Withdrawn {
                at: 2,
                answer: 1,
                question: 1,
            }),
        ),
        (b"{\"ask\":\"result\"}", Reply::Result { length: 3 }),
        (b"{\"ask\":\"bye\"}", Reply::Bye),
    ];
    for (line, reply) in table {
        assert!(rt; handle(rt.alloc(), &mut solo, line)? == reply);
    }
    Ok(())
}
