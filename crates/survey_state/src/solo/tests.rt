ghost use Rattle.std.specs.Prelude.{◌≤◌, length};

use super::*;
use criteria_model::Vector;
use farkas_check::{Cite, Cites, Combination};
use std::process::Abort;
use std::test::Fail;

/// What is asked.
#[derive(Clone, Copy)]
enum Ask {
    Next,
    Answer(u32, Side),
    Values,
    Withdraw,
}

/// What a reply says: its certificates and its place in the journal left out.
#[derive(Clone, Copy, PartialEq, Eq, Debug)]
enum Said {
    Asks { number: u32, place: u32 },
    Full,
    Waiting(u32),
    Complete,
    Accepted(u32),
    Unknown(u32),
    Closed(u32),
    Implied(u32, Side),
    Values,
    Incomplete(u32),
    Withdrawn { answer: u32, question: u32 },
    Nothing,
    Spent,
}

/// The reply of a respondent who waits for nobody.
fn say<R: Respondent>(respondent: &mut R, ask: Ask) -> Result<Said, Fail>
    requires { R.can_wait }
{
    Ok(match ask {
        Ask::Next => next_said(&respondent.next()),
        Ask::Answer(question, side) => answer_said(&respondent.answer(question, side)),
        Ask::Values => values_said(&respondent.values()),
        Ask::Withdraw => withdraw_said(&respondent.withdraw()?),
    })
}

fn next_said(reply: &NextReply) -> Said {
    match reply {
        NextReply::Question { number, place, .. } => Said::Asks {
            number: *number,
            place: *place,
        },
        NextReply::Full { .. } => Said::Full,
        NextReply::Waiting { place, .. } => Said::Waiting(*place),
        NextReply::Complete { .. } => Said::Complete,
    }
}

fn answer_said(reply: &AnswerReply) -> Said {
    match reply {
        AnswerReply::Accepted { question, .. } => Said::Accepted(*question),
        AnswerReply::Unknown { question, .. } => Said::Unknown(*question),
        AnswerReply::Closed { question, .. } => Said::Closed(*question),
        AnswerReply::Implied {
            question,
            verdict,
            ..
        } => Said::Implied(*question, *verdict),
    }
}

fn values_said(reply: &ValuesReply) -> Said {
    match reply {
        ValuesReply::Values { .. } => Said::Values,
        ValuesReply::Incomplete { place, .. } => Said::Incomplete(*place),
    }
}

fn withdraw_said(reply: &WithdrawReply) -> Said {
    match reply {
        WithdrawReply::Withdrawn {
            answer,
            question,
            ..
        } => Said::Withdrawn {
            answer: *answer,
            question: *question,
        },
        WithdrawReply::Nothing { .. } => Said::Nothing,
        WithdrawReply::Spent { .. } => Said::Spent,
    }
}

/// A wish for a question, which is asked.
fn asks(number: u32, place: u32) -> (Ask, Said) {
    (Ask::Next, Said::Asks { number, place })
}

/// An answer, which is accepted.
fn given(question: u32, side: Side) -> (Ask, Said) {
    (Ask::Answer(question, side), Said::Accepted(question))
}

/// An answer taken back.
fn withdrawn(answer: u32, question: u32) -> (Ask, Said) {
    (Ask::Withdraw, Said::Withdrawn { answer, question })
}

/// The survey's replies to a talk, where one isn't as said: its number and what was said instead.
fn first_other(solo: &mut Solo, talk: &[(Ask, Said)]) -> Result<Option<(usize, Said)>, Fail> {
    for (number, (ask, said)) in talk.iter().enumerate() {
        let reply = say(solo, *ask)?;
        if reply != *said {
            return Ok(Some((number, reply)));
        }
    }
    Ok(None)
}

/// A survey with nothing asked.
fn survey(alloc: Global, levels: &[u32], degree: u32) -> Result<Solo, Fail>
    requires { length levels.now ≤ 24 }
{
    let model = Model::new(levels, degree).ok().ok_or("model")?;
    Ok(Solo::new(alloc, &model)?)
}

const LEFT: Side = Side::Left;

const RIGHT: Side = Side::Right;

const EQUAL: Side = Side::Equal;

const COMPLETE: (Ask, Said) = (Ask::Next, Said::Complete);

/// A survey of this model replies to the talk as said.
fn goes_so(
    rt: &HostRuntime,
    levels: &[u32],
    degree: u32,
    talk: &[(Ask, Said)],
) -> Result<bool, Fail>
    requires { length levels.now ≤ 24 }
{
    let mut solo = survey(rt.alloc(), levels, degree)?;
    Ok(first_other(&mut solo, talk)?.is_none())
}

/// One criterion leaves no class to rank.
#[test]
fn one_criterion(rt: HostRuntime) -> Result<(), Fail> {
    let talk = [COMPLETE, (Ask::Values, Said::Values)];
    assert!(rt; goes_so(&rt, &[25], 1, &talk)?);
    Ok(())
}

/// Two criteria of two levels have one class, and its question is open until it is answered.
#[test]
fn two_by_two(rt: HostRuntime) -> Result<(), Fail> {
    let talk = [
        asks(1, 1),
        (Ask::Next, Said::Waiting(1)),
        given(1, LEFT),
        COMPLETE,
    ];
    assert!(rt; goes_so(&rt, &[2, 2], 2, &talk)?);
    Ok(())
}

/// Who always answers left is asked four questions of three criteria, and has values after the last alone.
#[test]
fn always_left(rt: HostRuntime) -> Result<(), Fail> {
    let talk = [
        (Ask::Values, Said::Incomplete(1)),
        asks(1, 1),
        given(1, LEFT),
        asks(2, 2),
        given(2, LEFT),
        asks(3, 3),
        given(3, LEFT),
        asks(4, 4),
        given(4, LEFT),
        COMPLETE,
    ];
    assert!(rt; goes_so(&rt, &[2, 2, 2], 3, &talk)?);
    Ok(())
}

/// An open question may be implied by other answers, and is open again where one of them is taken back.
#[test]
fn implied_answer(rt: HostRuntime) -> Result<(), Fail> {
    let talk = [
        asks(1, 1),
        asks(2, 2),
        asks(3, 3),
        given(1, LEFT),
        given(3, LEFT),
        (Ask::Answer(2, LEFT), Said::Implied(2, LEFT)),
        (Ask::Answer(99, LEFT), Said::Unknown(99)),
        (Ask::Answer(1, LEFT), Said::Closed(1)),
        (Ask::Answer(2, LEFT), Said::Closed(2)),
        withdrawn(2, 3),
        given(2, LEFT),
    ];
    assert!(rt; goes_so(&rt, &[2, 2, 2], 3, &talk)?);
    Ok(())
}

/// An equal answer and one on the left rank all classes of three criteria.
#[test]
fn equal_then_left(rt: HostRuntime) -> Result<(), Fail> {
    let talk = [
        asks(1, 1),
        given(1, EQUAL),
        asks(2, 2),
        given(2, LEFT),
        COMPLETE,
    ];
    assert!(rt; goes_so(&rt, &[2, 2, 2], 3, &talk)?);
    Ok(())
}

/// No fifth question is asked while four are open.
#[test]
fn four_open_questions(rt: HostRuntime) -> Result<(), Fail> {
    let talk = [
        asks(1, 1),
        asks(2, 2),
        asks(3, 3),
        asks(4, 4),
        (Ask::Next, Said::Full),
    ];
    assert!(rt; goes_so(&rt, &[2, 2, 2], 3, &talk)?);
    Ok(())
}

/// There is nothing to take back before the first answer.
#[test]
fn nothing_to_withdraw(rt: HostRuntime) -> Result<(), Fail> {
    assert!(rt; goes_so(&rt, &[2, 2, 2], 3, &[(Ask::Withdraw, Said::Nothing)])?);
    Ok(())
}

/// A question whose answer was taken back may be answered otherwise.
#[test]
fn withdraw_then_answer(rt: HostRuntime) -> Result<(), Fail> {
    let talk = [asks(1, 1), given(1, LEFT), withdrawn(1, 1), given(1, RIGHT)];
    assert!(rt; goes_so(&rt, &[2, 2, 2], 3, &talk)?);
    Ok(())
}

/// A class that follows from an answer and an increment is never asked.
#[test]
fn implied_by_increment(rt: HostRuntime) -> Result<(), Fail> {
    let talk = [asks(1, 1), given(1, LEFT), asks(2, 3)];
    assert!(rt; goes_so(&rt, &[3, 2], 2, &talk)?);
    Ok(())
}

/// The combination by which two answers imply a third is the only one in lowest terms.
#[test]
fn combination_of_implied_answer(rt: HostRuntime) -> Result<(), Fail> {
    let talk = [
        asks(1, 1),
        asks(2, 2),
        asks(3, 3),
        given(1, LEFT),
        given(3, LEFT),
    ];
    let mut solo = survey(rt.alloc(), &[2, 2, 2], 3)?;
    assert!(rt; first_other(&mut solo, &talk)?.is_none());
    let cites = [
        Cite {
            answer: 1,
            weight: 1,
        },
        Cite {
            answer: 2,
            weight: 1,
        },
    ];
    let combination = Combination {
        scale: 1,
        increments: Vector::of(&[0, 0, 0]),
        answers: Cites::of(&cites).ok_or("cites")?,
    };
    let implied = AnswerReply::Implied {
        at: 5,
        question: 2,
        verdict: LEFT,
        combination,
    };
    assert!(rt; solo.answer(2, LEFT) == implied);
    Ok(())
}

/// Two equal answers rank each class; all ones are their values.
#[test]
fn all_equal_values(rt: HostRuntime) -> Result<(), Fail> {
    let talk = [
        asks(1, 1),
        given(1, EQUAL),
        asks(2, 2),
        given(2, EQUAL),
        COMPLETE,
    ];
    let mut solo = survey(rt.alloc(), &[2, 2, 2], 3)?;
    assert!(rt; first_other(&mut solo, &talk)?.is_none());
    let values = ValuesReply::Values {
        at: 8,
        vector: Vector::of(&[1, 1, 1]),
    };
    assert!(rt; solo.values() == values);
    Ok(())
}

/// How often the answer to question 1 is given and taken back before no further withdrawal is allowed.
fn withdrawals_until_spent(solo: &mut Solo) -> Result<Option<u32>, Fail> {
    for taken_back in 0..20_000u32 {
        let _given = say(solo, Ask::Answer(1, LEFT))?;
        if say(solo, Ask::Withdraw)? == Said::Spent {
            return Ok(Some(taken_back));
        }
    }
    Ok(None)
}

/// An answer may be taken back as often as the limit of events allows, and no more.
#[test]
fn withdrawals_to_the_bound(rt: HostRuntime) -> Result<(), Fail> {
    let mut solo = survey(rt.alloc(), &[2, 2, 2], 3)?;
    let _asked = say(&mut solo, Ask::Next)?;
    assert_eq!(rt; withdrawals_until_spent(&mut solo)?, Some(10_081));
    Ok(())
}
