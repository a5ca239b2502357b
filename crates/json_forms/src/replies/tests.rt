//! The line of each reply.
ghost use Rattle.json_forms.specs.Replies.{IsWritable};

use super::*;
use criteria_model::Tuple;
use edges::NoMemory;
use farkas_check::{Cite, Cites};
use std::alloc::Global;
use std::process::Abort;
use std::test::Fail;

/// Compares the text of a reply.
fn expect(
    rt: &impl Abort,
    alloc: Global,
    reply: &Reply,
    model: &Model,
    line: &[u8],
) -> Result<(), NoMemory>
    requires { IsWritable model.now.levels reply.now }
{
    let mut text = Text::reserve(alloc, MAX_REPLY)?;
    write_reply(reply, model, &mut text);
    assert!(rt; text.bytes() == line);
    Ok(())
}

fn pair() -> Pair {
    Pair {
        left: Tuple::of(&[2, 1, 0]),
        right: Tuple::of(&[1, 2, 0]),
    }
}

#[test]
fn questions_and_withdrawals(rt: HostRuntime) -> Result<(), Fail> {
    let model = Model::new(&[2, 2, 2], 3)?;
    let vector = Vector::of(&[1, 1, 1]);
    let table: [(NextReply, &[u8]); 4] = [
        (
            NextReply::Question {
                at: 0,
                number: 1,
                place: 1,
                pair: pair(),
            },
            b"{\"question\":{\"left\":[2,1,0],\"number\":1,\"right\":[1,2,0]}}\n",
        ),
        (NextReply::Full { at: 4 }, b"{\"full\":true}\n"),
        (
            NextReply::Waiting {
                at: 1,
                place: 1,
                plus: vector,
                minus: vector,
            },
            b"{\"waiting\":true}\n",
        ),
        (NextReply::Complete { at: 9 }, b"{\"complete\":true}\n"),
    ];
    for (reply, line) in table {
        expect(&rt, rt.alloc(), &Reply::Next(reply), &model, line)?;
    }
    let withdrawn = WithdrawReply::Withdrawn {
        at: 6,
        answer: 2,
        question: 3,
    };
    let table: [(WithdrawReply, &[u8]); 3] = [
        (
            withdrawn,
            b"{\"withdrawn\":{\"answer\":2,\"question\":3}}\n",
        ),
        (WithdrawReply::Nothing { at: 0 }, b"{\"nothing\":true}\n"),
        (WithdrawReply::Spent { at: 0 }, b"{\"spent\":true}\n"),
    ];
    for (reply, line) in table {
        expect(&rt, rt.alloc(), &Reply::Withdraw(reply), &model, line)?;
    }
    Ok(())
}

#[test]
fn answers_and_refusals(rt: HostRuntime) -> Result<(), Fail> {
    let model = Model::new(&[2, 2, 2], 3)?;
    let cites = [
        Cite {
            answer: 1,
            weight: 1,
        },
        Cite {
            answer: 2,
            weight: -1,
        },
    ];
    let implied = AnswerReply::Implied {
        at: 5,
        question: 2,
        verdict: Side::Left,
        combination: Combination {
            scale: 1,
            increments: Vector::of(&[0, 0, 0]),
            answers: Cites::of(&cites).ok_or("no cites")?,
        },
    };
    let table: [(AnswerReply, &[u8]); 4] = [
        (
            AnswerReply::Accepted { at: 1, question: 1 },
            b"{\"accepted\":1}\n",
        ),
        (
            AnswerReply::Unknown {
                at: 1,
                question: 4_294_967_295,
            },
            b"{\"unknown\":4294967295}\n",
        ),
        (
            AnswerReply::Closed { at: 1, question: 1 },
            b"{\"closed\":1}\n",
        ),
        (
            implied,
            b"{\"implied\":{\"combination\":{\"answers\":[[1,\"1\"],[2,\"-1\"]],\"increments\":[\"0\",\"0\",\"0\"],\"scale\":\"1\"},\"question\":2,\"verdict\":\"left\"}}\n",
        ),
    ];
    for (reply, line) in table {
        expect(&rt, rt.alloc(), &Reply::Answer(reply), &model, line)?;
    }
    let table: [(Word, &[u8]); 7] = [
        (Word::Message, b"{\"refused\":\"message\"}\n"),
        (Word::Hello, b"{\"refused\":\"hello\"}\n"),
        (Word::Name, b"{\"refused\":\"name\"}\n"),
        (Word::Code, b"{\"refused\":\"code\"}\n"),
        (Word::Desk, b"{\"refused\":\"desk\"}\n"),
        (Word::Line, b"{\"refused\":\"line\"}\n"),
        (Word::Messages, b"{\"refused\":\"messages\"}\n"),
    ];
    for (word, line) in table {
        expect(&rt, rt.alloc(), &Reply::Refused(word), &model, line)?;
    }
    Ok(())
}

#[test]
fn values_of_equal_increments(rt: HostRuntime) -> Result<(), Fail> {
    let model = Model::new(&[2, 2, 2], 3)?;
    let values = Reply::Values(ValuesReply::Values {
        at: 8,
        vector: Vector::of(&[1, 1, 1]),
    });
    let line =
        b"{\"values\":{\"levels\":[[\"0\",\"1\"],[\"0\",\"1\"],[\"0\",\"1\"]],\"vector\":[\"1\",\"1\",\"1\"],\"weights\":[3334,3333,3333]}}\n";
    expect(&rt, rt.alloc(), &values, &model, line)?;
    Ok(())
}

#[test]
fn replies_of_a_session(rt: HostRuntime) -> Result<(), Fail> {
    let model = Model::new(&[2, 2, 2], 3)?;
    let vector = Vector::of(&[1, 1, 1]);
    let incomplete = Reply::Values(ValuesReply::Incomplete {
        at: 0,
        place: 1,
        pair: pair(),
        plus: vector,
        minus: vector,
    });
    let welcome = Reply::Welcome {
        classes: 6,
        desk: 1,
    };
    expect(
        &rt,
        rt.alloc(),
        &welcome,
        &model,
        b"{\"welcome\":{\"classes\":6,\"desk\":1}}\n",
    )?;
    expect(
        &rt,
        rt.alloc(),
        &incomplete,
        &model,
        b"{\"incomplete\":{\"left\":[2,1,0],\"right\":[1,2,0]}}\n",
    )?;
    expect(&rt, rt.alloc(), &Reply::Result { length: 3 }, &model, b"")?;
    expect(&rt, rt.alloc(), &Reply::Bye, &model, b"{\"bye\":true}\n")?;
    Ok(())
}
