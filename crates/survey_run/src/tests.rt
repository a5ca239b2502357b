//! Scripts with threads: the replies line by line, and gates that hold desks and eliminators.
ghost use Rattle.std.specs.Prelude.{◌≤◌};

use crate::{RunEnd, run_sample, run_sessions};
use criteria_model::Model;
use edges::{Gate, GatePoint, Hold, MemSource, NoMemory, OpenGate, ScriptGate, Text};
use json_forms::{MAX_REPLY, Reply, write_reply};
use sample_survey::Summary;
use std::alloc::Global;
use std::process::Abort;
use std::sync::Wait;
use std::test::Fail;
use std::thread::Threads;
use survey_core::{Event, MAX_WORKERS};
use survey_script::read_script;

/// Three criteria of two levels, with two respondents.
const M3: &[u8] =
    b"{\"criteria\":[{\"levels\":[\"high\",\"low\"],\"name\":\"price\"},{\"levels\":[\"slow\",\"fast\"],\"name\":\"speed\"},{\"levels\":[\"loud\",\"quiet\"],\"name\":\"noise\"}],\"degree\":3,\"respondents\":[{\"code\":\"k1\",\"name\":\"ana\"},{\"code\":\"k2\",\"name\":\"ben\"}]}\n";

/// A criterion of three levels and one of two.
const M32: &[u8] =
    b"{\"criteria\":[{\"levels\":[\"poor\",\"fair\",\"good\"],\"name\":\"care\"},{\"levels\":[\"far\",\"near\"],\"name\":\"place\"}],\"degree\":2,\"respondents\":[{\"code\":\"k1\",\"name\":\"ana\"}]}\n";

const HELLO: &[u8] = b"{\"hello\":{\"code\":\"k1\",\"desk\":1,\"name\":\"ana\"}}\n";

const HELLO_2: &[u8] = b"{\"hello\":{\"code\":\"k1\",\"desk\":2,\"name\":\"ana\"}}\n";

const HELLO_BEN: &[u8] = b"{\"hello\":{\"code\":\"k2\",\"desk\":3,\"name\":\"ben\"}}\n";

const NEXT: &[u8] = b"{\"ask\":\"next\"}\n";

const BYE: &[u8] = b"{\"ask\":\"bye\"}\n";

const LEFT_1: &[u8] = b"{\"answer\":{\"question\":1,\"side\":\"left\"}}\n";

const LEFT_2: &[u8] = b"{\"answer\":{\"question\":2,\"side\":\"left\"}}\n";

const LEFT_3: &[u8] = b"{\"answer\":{\"question\":3,\"side\":\"left\"}}\n";

const LEFT_4: &[u8] = b"{\"answer\":{\"question\":4,\"side\":\"left\"}}\n";

const WELCOME_6: &[u8] = b"{\"welcome\":{\"classes\":6,\"desk\":1}}\n";

const QUESTION_1: &[u8] = b"{\"question\":{\"left\":[2,1,0],\"number\":1,\"right\":[1,2,0]}}\n";

const QUESTION_2: &[u8] = b"{\"question\":{\"left\":[2,0,1],\"number\":2,\"right\":[1,0,2]}}\n";

const QUESTION_3: &[u8] = b"{\"question\":{\"left\":[0,2,1],\"number\":3,\"right\":[0,1,2]}}\n";

const QUESTION_4: &[u8] = b"{\"question\":{\"left\":[2,1,1],\"number\":4,\"right\":[1,2,2]}}\n";

const WELCOME_3: &[u8] = b"{\"welcome\":{\"classes\":3,\"desk\":1}}\n";

const FIRST_OF_3: &[u8] = b"{\"question\":{\"left\":[2,1],\"number\":1,\"right\":[1,2]}}\n";

const THIRD_OF_3: &[u8] = b"{\"question\":{\"left\":[3,1],\"number\":2,\"right\":[2,2]}}\n";

const ACCEPTED_1: &[u8] = b"{\"accepted\":1}\n";

const ACCEPTED_2: &[u8] = b"{\"accepted\":2}\n";

const ACCEPTED_3: &[u8] = b"{\"accepted\":3}\n";

const ACCEPTED_4: &[u8] = b"{\"accepted\":4}\n";

const NO_MESSAGE: &[u8] = b"{\"refused\":\"message\"}\n";

const SAID_BYE: &[u8] = b"{\"bye\":true}\n";

/// Scripts of one desk's sessions, line by line, with their replies.
const ONE_DESK: [(&[&[u8]], &[&[u8]]); 4] = [
    // Always left: the first four classes are asked.
    (
        &[
            M3, HELLO, NEXT, LEFT_1, NEXT, LEFT_2, NEXT, LEFT_3, NEXT, LEFT_4, NEXT, BYE,
        ],
        &[
            WELCOME_6,
            QUESTION_1,
            ACCEPTED_1,
            QUESTION_2,
            ACCEPTED_2,
            QUESTION_3,
            ACCEPTED_3,
            QUESTION_4,
            ACCEPTED_4,
            b"{\"complete\":true}\n",
            SAID_BYE,
        ],
    ),
    // Four open questions, one that other answers rank, a closed one, one that nobody asked, and the last answer taken back.
    (
        &[
            M3,
            HELLO,
            NEXT,
            NEXT,
            NEXT,
            NEXT,
            NEXT,
            LEFT_1,
            LEFT_3,
            LEFT_2,
            LEFT_1,
            b"{\"answer\":{\"question\":99,\"side\":\"left\"}}\n",
            b"{\"ask\":\"withdraw\"}\n",
            LEFT_2,
            BYE,
        ],
        &[
            WELCOME_6,
            QUESTION_1,
            QUESTION_2,
            QUESTION_3,
            QUESTION_4,
            b"{\"full\":true}\n",
            ACCEPTED_1,
            ACCEPTED_3,
            b"{\"implied\":{\"combination\":{\"answers\":[[1,\"1\"],[2,\"1\"]],\"increments\":[\"0\",\"0\",\"0\"],\"scale\":\"1\"},\"question\":2,\"verdict\":\"left\"}}\n",
            b"{\"closed\":1}\n",
            b"{\"unknown\":99}\n",
            b"{\"withdrawn\":{\"answer\":2,\"question\":3}}\n",
            ACCEPTED_2,
            SAID_BYE,
        ],
    ),
    // The answer ranks the second class.
    (
        &[M32, HELLO, NEXT, LEFT_1, NEXT, BYE],
        &[WELCOME_3, FIRST_OF_3, ACCEPTED_1, THIRD_OF_3, SAID_BYE],
    ),
    // Lines that are no messages.
    (
        &[M3, HELLO, b"hi\n", b"{}\n", NEXT, BYE],
        &[WELCOME_6, NO_MESSAGE, NO_MESSAGE, QUESTION_1, SAID_BYE],
    ),
];

/// What the script of these lines leaves, beside this number of eliminators.
fn run_lines<R: Threads + Wait + Sync, G: Gate + Sync>(
    rt: &R,
    alloc: Global,
    lines: &[&[u8]],
    workers: u32,
    gate: &G,
) -> Result<(RunEnd, Model), Fail>
    requires { workers ≤ MAX_WORKERS }
{
    let mut text = Vec::new(alloc);
    for line in lines {
        text.extend_from_slice(line)?;
    }
    let mut source = MemSource::new(alloc, text.as_slice(), 64, &[])?;
    let script = read_script(alloc, &mut source).ok().ok_or("script")?;
    let model = script.definition().model();
    Ok((run_sessions(rt, alloc, &script, workers, gate)?, model))
}

/// The line of a reply; none for values and results.
fn line_of(alloc: Global, reply: &Reply, model: &Model) -> Result<Text, NoMemory> {
    let mut text = Text::reserve(alloc, MAX_REPLY)?;
    match reply {
        Reply::Welcome { classes, desk } => {
            let welcome = Reply::Welcome {
                classes: *classes,
                desk: *desk,
            };
            write_reply(&welcome, model, &mut text);
        }
        Reply::Next(next) => write_reply(&Reply::Next(*next), model, &mut text),
        Reply::Answer(answer) => write_reply(&Reply::Answer(*answer), model, &mut text),
        Reply::Withdraw(withdraw) => write_reply(&Reply::Withdraw(*withdraw), model, &mut text),
        Reply::Bye => write_reply(&Reply::Bye, model, &mut text),
        Reply::Refused(word) => write_reply(&Reply::Refused(*word), model, &mut text),
        Reply::Values(_) | Reply::Result { .. } => {}
    }
    Ok(text)
}

/// Whether the lines of the replies, in their order, are these.
fn says(alloc: Global, end: &RunEnd, model: &Model, lines: &[&[u8]]) -> Result<bool, NoMemory> {
    let mut said = Vec::new(alloc);
    for reply in end.reply_list() {
        let line = line_of(alloc, reply, model)?;
        said.extend_from_slice(line.bytes())?;
    }
    let mut wanted = Vec::new(alloc);
    for line in lines {
        wanted.extend_from_slice(line)?;
    }
    Ok(said.as_slice() == wanted.as_slice())
}

/// Whether the script of these lines leaves these replies, beside 0 to 4 eliminators.
fn are_replies<R: Threads + Wait + Sync>(
    rt: &R,
    alloc: Global,
    lines: &[&[u8]],
    replies: &[&[u8]],
) -> Result<bool, Fail> {
    for workers in 0..5u32 {
        let (end, model) = run_lines(rt, alloc, lines, workers, &OpenGate)?;
        if !says(alloc, &end, &model, replies)? {
            return Ok(false);
        }
    }
    Ok(true)
}

/// Sessions at one desk: questions in order, and each reply to an answer, a withdrawal and a line that is no message.
#[test]
fn session_of_one_desk(rt: HostRuntime) -> Result<(), Fail> {
    for (lines, replies) in &ONE_DESK {
        assert!(rt; are_replies(&rt, rt.alloc(), *lines, *replies)?);
    }
    Ok(())
}

/// No session, and three of two respondents: each has a survey of its own, and goes on where it was.
#[test]
fn sessions_of_two_respondents(rt: HostRuntime) -> Result<(), Fail> {
    let rows: [(&[&[u8]], &[&[u8]]); 2] = [
        (&[M3], &[]),
        (
            &[
                M3, HELLO, NEXT, BYE, HELLO_BEN, NEXT, LEFT_1, NEXT, BYE, HELLO, LEFT_1, LEFT_1,
                BYE,
            ],
            &[
                WELCOME_6,
                QUESTION_1,
                SAID_BYE,
                b"{\"welcome\":{\"classes\":6,\"desk\":3}}\n",
                QUESTION_1,
                ACCEPTED_1,
                QUESTION_2,
                SAID_BYE,
                WELCOME_6,
                ACCEPTED_1,
                b"{\"closed\":1}\n",
                SAID_BYE,
            ],
        ),
    ];
    for (lines, replies) in &rows {
        assert!(rt; are_replies(&rt, rt.alloc(), *lines, *replies)?);
    }
    Ok(())
}

/// Whoever comes by `at` waits for `until`.
fn hold(at: GatePoint, until: GatePoint) -> Hold {
    Hold { at, until }
}

/// Holds desk 1's second question until eliminator 1 handed in that class 2 is ranked.
fn until_hand_in() -> [Hold; 2] {
    let begins = GatePoint::NextBegins { desk: 1 };
    let handed_in = GatePoint::HandedIn {
        worker: 1,
        place: 2,
        eliminated: true,
    };
    [hold(begins, begins), hold(begins, handed_in)]
}

/// Each of two desks asks only once the other is about to: they are served at once, and get the first two questions.
#[test]
fn desks_at_once(rt: HostRuntime) -> Result<(), Fail> {
    let first = GatePoint::NextBegins { desk: 1 };
    let second = GatePoint::NextBegins { desk: 2 };
    let holds = [hold(first, second), hold(second, first)];
    let gate = ScriptGate::new(rt.alloc(), &holds)?;
    let lines = [M3, HELLO, NEXT, BYE, HELLO_2, NEXT, BYE];
    let (end, model) = run_lines(&rt, rt.alloc(), &lines, 0, &gate)?;
    assert!(rt; !gate.missed());
    let welcome = b"{\"welcome\":{\"classes\":6,\"desk\":2}}\n";
    let orders = [
        [
            WELCOME_6, QUESTION_1, SAID_BYE, welcome, QUESTION_2, SAID_BYE,
        ],
        [
            WELCOME_6, QUESTION_2, SAID_BYE, welcome, QUESTION_1, SAID_BYE,
        ],
    ];
    let mut fits = false;
    for replies in &orders {
        if says(rt.alloc(), &end, &model, replies)? {
            fits = true;
        }
    }
    assert!(rt; fits);
    Ok(())
}

/// Who eliminated a class by the third event of the first survey.
fn third_worker(end: &RunEnd) -> Option<u8> {
    if end.surveys() < 1 {
        return None;
    }
    let state = end.state(1);
    if state.length() < 3 {
        return None;
    }
    match state.event(3) {
        Event::Eliminate { worker, .. } => Some(worker),
        _ => None,
    }
}

/// The second question waits until an eliminator handed in the class that the answer ranks.
#[test]
fn session_waits_for_hand_in(rt: HostRuntime) -> Result<(), Fail> {
    let gate = ScriptGate::new(rt.alloc(), &until_hand_in())?;
    let lines = [M32, HELLO, NEXT, LEFT_1, NEXT, BYE];
    let (end, _model) = run_lines(&rt, rt.alloc(), &lines, 1, &gate)?;
    assert!(rt; !gate.missed());
    assert!(rt; third_worker(&end) == Some(1));
    Ok(())
}

/// A desk gets its question while an eliminator is about to solve: no turn is held.
#[test]
fn solve_outside_turn(rt: HostRuntime) -> Result<(), Fail> {
    let taken = GatePoint::JobTaken {
        worker: 1,
        place: 2,
    };
    let holds = [
        hold(GatePoint::NextBegins { desk: 2 }, taken),
        hold(taken, GatePoint::NextAnswered { desk: 2 }),
    ];
    let gate = ScriptGate::new(rt.alloc(), &holds)?;
    let lines = [M32, HELLO, NEXT, LEFT_1, BYE, HELLO_2, NEXT, BYE];
    let (end, model) = run_lines(&rt, rt.alloc(), &lines, 1, &gate)?;
    assert!(rt; !gate.missed());
    let replies = [
        WELCOME_3,
        FIRST_OF_3,
        ACCEPTED_1,
        SAID_BYE,
        b"{\"welcome\":{\"classes\":3,\"desk\":2}}\n",
        THIRD_OF_3,
        SAID_BYE,
    ];
    assert!(rt; says(rt.alloc(), &end, &model, &replies)?);
    Ok(())
}

/// Whether the sample of seed 1 is this, beside 0 to 4 eliminators.
fn is_sample<R: Threads + Wait + Sync>(
    rt: &R,
    alloc: Global,
    model: &Model,
    summary: Summary,
) -> Result<bool, NoMemory> {
    for workers in 0..5u32 {
        if run_sample(rt, alloc, workers, 1, model, &OpenGate)? != summary {
            return Ok(false);
        }
    }
    Ok(true)
}

/// Eliminators change no sample.
#[test]
fn samples_beside_eliminators(rt: HostRuntime) -> Result<(), Fail> {
    let six = Model::new(&[2, 2, 2], 3).ok().ok_or("model")?;
    let of_six = Summary {
        classes: 6,
        questions: 4,
        left: 3,
        right: 1,
        equal: 0,
        eliminated: 2,
        trace: 95431,
    };
    assert!(rt; is_sample(&rt, rt.alloc(), &six, of_six)?);
    let three = Model::new(&[3, 2], 2).ok().ok_or("model")?;
    let of_three = Summary {
        classes: 3,
        questions: 2,
        left: 2,
        right: 0,
        equal: 0,
        eliminated: 1,
        trace: 102,
    };
    assert!(rt; is_sample(&rt, rt.alloc(), &three, of_three)?);
    Ok(())
}

/// A sample's second question waits until an eliminator handed in the class that the answer ranks: eliminators work.
#[test]
fn sample_waits_for_hand_in(rt: HostRuntime) -> Result<(), Fail> {
    let gate = ScriptGate::new(rt.alloc(), &until_hand_in())?;
    let model = Model::new(&[3, 2], 2).ok().ok_or("model")?;
    let summary = run_sample(&rt, rt.alloc(), 1, 1, &model, &gate)?;
    assert!(rt; !gate.missed());
    assert!(rt; summary.eliminated == 1);
    Ok(())
}
