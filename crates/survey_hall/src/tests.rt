//! Connections over memory.
ghost use Rattle.std.specs.Prelude.{◌≡◌, ◌≤◌, None};

use crate::{Hall, ServeStop, Served, serve, serve_connection};
use edges::{
    Door, DoorEnds, Failed, Gate, GatePoint, Hold, MemDoor, MemSink, MemSource, OpenGate,
    ScriptGate, Sink,
};
use json_forms::{Word, read_definition};
use session_protocol::SessionEnd;
use std::alloc::Global;
use std::collections::VecDeque;
use std::sync::{Mutex, Wait};
use std::test::Fail;
use std::thread::Threads;

/// Three criteria of two levels, and one respondent.
const DEFINITION: &[u8] =
    b"{\"criteria\":[{\"levels\":[\"high\",\"low\"],\"name\":\"price\"},{\"levels\":[\"slow\",\"fast\"],\"name\":\"speed\"},\
    {\"levels\":[\"loud\",\"quiet\"],\"name\":\"noise\"}],\"degree\":3,\"respondents\":[{\"code\":\"k1\",\"name\":\"ana\"}]}";

/// The same criteria, and two respondents.
const TWO_RESPONDENTS: &[u8] =
    b"{\"criteria\":[{\"levels\":[\"high\",\"low\"],\"name\":\"price\"},{\"levels\":[\"slow\",\"fast\"],\"name\":\"speed\"},\
    {\"levels\":[\"loud\",\"quiet\"],\"name\":\"noise\"}],\"degree\":3,\"respondents\":[{\"code\":\"k1\",\"name\":\"ana\"},\
    {\"code\":\"k2\",\"name\":\"ben\"}]}";

/// A criterion of three levels and one of two, and one respondent.
const THREE_LEVELS: &[u8] =
    b"{\"criteria\":[{\"levels\":[\"poor\",\"fair\",\"good\"],\"name\":\"care\"},{\"levels\":[\"far\",\"near\"],\"name\":\"place\"}],\
    \"degree\":2,\"respondents\":[{\"code\":\"k1\",\"name\":\"ana\"}]}";

/// The same criteria, and two respondents.
const THREE_LEVELS_FOR_TWO: &[u8] =
    b"{\"criteria\":[{\"levels\":[\"poor\",\"fair\",\"good\"],\"name\":\"care\"},{\"levels\":[\"far\",\"near\"],\"name\":\"place\"}],\
    \"degree\":2,\"respondents\":[{\"code\":\"k1\",\"name\":\"ana\"},{\"code\":\"k2\",\"name\":\"ben\"}]}";

const HELLO: &[u8] = b"{\"hello\":{\"code\":\"k1\",\"desk\":1,\"name\":\"ana\"}}\n";

const HELLO_2: &[u8] = b"{\"hello\":{\"code\":\"k1\",\"desk\":2,\"name\":\"ana\"}}\n";

const HELLO_3: &[u8] = b"{\"hello\":{\"code\":\"k1\",\"desk\":3,\"name\":\"ana\"}}\n";

const HELLO_4: &[u8] = b"{\"hello\":{\"code\":\"k1\",\"desk\":4,\"name\":\"ana\"}}\n";

const HELLO_BEN: &[u8] = b"{\"hello\":{\"code\":\"k2\",\"desk\":1,\"name\":\"ben\"}}\n";

const NEXT: &[u8] = b"{\"ask\":\"next\"}\n";

const ANSWER: &[u8] = b"{\"answer\":{\"question\":1,\"side\":\"left\"}}\n";

const VALUES: &[u8] = b"{\"ask\":\"values\"}\n";

const RESULT: &[u8] = b"{\"ask\":\"result\"}\n";

const WITHDRAW: &[u8] = b"{\"ask\":\"withdraw\"}\n";

const BYE: &[u8] = b"{\"ask\":\"bye\"}\n";

const WELCOME: &[u8] = b"{\"welcome\":{\"classes\":6,\"desk\":1}}\n";

const WELCOME_2: &[u8] = b"{\"welcome\":{\"classes\":6,\"desk\":2}}\n";

const WELCOME_3: &[u8] = b"{\"welcome\":{\"classes\":6,\"desk\":3}}\n";

const WELCOME_4: &[u8] = b"{\"welcome\":{\"classes\":6,\"desk\":4}}\n";

const QUESTION: &[u8] = b"{\"question\":{\"left\":[2,1,0],\"number\":1,\"right\":[1,2,0]}}\n";

const ACCEPTED: &[u8] = b"{\"accepted\":1}\n";

const WITHDRAWN: &[u8] = b"{\"withdrawn\":{\"answer\":1,\"question\":1}}\n";

const CLOSED: &[u8] = b"{\"closed\":1}\n";

const BYE_REPLY: &[u8] = b"{\"bye\":true}\n";

const REFUSED_LINE: &[u8] = b"{\"refused\":\"line\"}\n";

/// What a connection was served, with the length of the front.
#[derive(Clone, Copy, PartialEq, Eq, Debug)]
enum Outcome {
    Refused(Word),
    Early(SessionEnd),
    Ran {
        began: u32,
        length: u32,
        replies: u32,
        end: SessionEnd,
    },
}

fn hall_of(alloc: Global, definition: &[u8]) -> Result<Hall, Fail> {
    let definition = read_definition(alloc, definition).ok().ok_or("definition")?;
    Ok(Hall::build(alloc, definition, 0)?)
}

fn outcome_of(served: &Served) -> Outcome {
    match served {
        Served::Refused(word) => Outcome::Refused(*word),
        Served::Early(end) => Outcome::Early(*end),
        Served::Ran {
            began,
            front,
            replies,
            end,
        } => Outcome::Ran {
            began: *began,
            length: front.length,
            replies: *replies,
            end: *end,
        },
    }
}

/// The texts, one after another.
fn text_of(alloc: Global, said: &[&[u8]]) -> Result<Vec<u8>, Fail> {
    let mut text = Vec::new(alloc);
    for part in said {
        text.extend_from_slice(part)?;
    }
    Ok(text)
}

/// Serves a connection that says these texts, in pieces; the calls of its source and sink with these numbers fail.
fn served<R: Wait + Sync>(
    rt: &R,
    alloc: Global,
    hall: &Hall,
    said: &[&[u8]],
    fails: (u32, u32),
) -> Result<(Outcome, MemSink), Fail> {
    let text = text_of(alloc, said)?;
    let mut source = MemSource::new(alloc, text.as_slice(), 1_000, &[fails.0])?;
    let mut sink = MemSink::new(alloc, 1_000, &[fails.1])?;
    let served = serve_connection(rt, alloc, hall, &mut source, &mut sink, &OpenGate);
    Ok((outcome_of(&served), sink))
}

/// Whether these bytes are the texts, one after another.
fn are(bytes: &[u8], texts: &[&[u8]]) -> bool {
    let mut rest = bytes;
    for text in texts {
        match rest.strip_prefix(*text) {
            Some(more) => rest = more,
            None => return false,
        }
    }
    rest.is_empty()
}

/// A session at a desk up to its bye.
fn to_bye(began: u32, length: u32, replies: u32) -> Outcome {
    Outcome::Ran {
        began,
        length,
        replies,
        end: SessionEnd::Bye,
    }
}

/// A first session at a desk in which there was no memory to read a message.
fn cut_short(length: u32, replies: u32) -> Outcome {
    Outcome::Ran {
        began: 0,
        length,
        replies,
        end: SessionEnd::NoMemory,
    }
}

/// Connections one after another: a question at one desk is answered at another, and is then closed at the first. Nothing of it is seen at a
/// desk of another respondent, whose survey begins.
#[test]
fn connections_share_survey(rt: HostRuntime) -> Result<(), Fail> {
    let hall = hall_of(rt.alloc(), TWO_RESPONDENTS)?;
    let table: [([&[u8]; 3], Outcome, &[&[u8]]); 4] = [
        (
            [HELLO, NEXT, BYE],
            to_bye(0, 1, 2),
            &[WELCOME, QUESTION, BYE_REPLY],
        ),
        (
            [HELLO_2, ANSWER, BYE],
            to_bye(0, 2, 2),
            &[WELCOME_2, ACCEPTED, BYE_REPLY],
        ),
        (
            [HELLO, ANSWER, BYE],
            to_bye(1, 2, 2),
            &[WELCOME, CLOSED, BYE_REPLY],
        ),
        (
            [HELLO_BEN, NEXT, BYE],
            to_bye(0, 1, 2),
            &[WELCOME, QUESTION, BYE_REPLY],
        ),
    ];
    for (said, want, replied) in table {
        let (outcome, sink) = served(&rt, rt.alloc(), &hall, &said, (0, 0))?;
        assert!(rt; outcome == want, "{outcome:?}, not {want:?}");
        assert!(rt; are(sink.bytes(), replied));
    }
    Ok(())
}

/// The reply to a request for the result is the record of what the desk has seen, up to its last turn: nothing at a desk that has taken
/// none, and the question and its answer, of other desks, after a turn.
#[test]
fn result_has_what_the_desk_saw(rt: HostRuntime) -> Result<(), Fail> {
    let hall = hall_of(rt.alloc(), DEFINITION)?;
    let incomplete: &[u8] = b"{\"incomplete\":{\"left\":[2,0,1],\"right\":[1,0,2]}}\n";
    let model: &[u8] = b"paprika result 2\nmodel 2,2,2 degree 3\n";
    let issue: &[u8] = b"issue 1 2,1,0/1,2,0 2,1,1 1,2,1\n";
    let commit: &[u8] = b"commit 2 1 left 2,1,1 1,2,1 2,1,1\n";
    let table: [(&[&[u8]], Outcome, &[&[u8]]); 4] = [
        (
            &[HELLO, NEXT, BYE],
            to_bye(0, 1, 2),
            &[WELCOME, QUESTION, BYE_REPLY],
        ),
        (
            &[HELLO_2, ANSWER, BYE],
            to_bye(0, 2, 2),
            &[WELCOME_2, ACCEPTED, BYE_REPLY],
        ),
        (
            &[HELLO_3, RESULT, BYE],
            to_bye(0, 0, 2),
            &[WELCOME_3, model, b"end\n", BYE_REPLY],
        ),
        (
            &[HELLO_4, VALUES, RESULT, BYE],
            to_bye(0, 2, 3),
            &[
                WELCOME_4, incomplete, model, issue, commit, b"end\n", BYE_REPLY,
            ],
        ),
    ];
    for (said, want, replied) in table {
        let (outcome, sink) = served(&rt, rt.alloc(), &hall, said, (0, 0))?;
        assert!(rt; outcome == want, "{outcome:?}, not {want:?}");
        assert!(rt; are(sink.bytes(), replied));
    }
    Ok(())
}

/// How many events were recorded by a first connection that asks, answers, withdraws and says bye, with this outcome and this written. None
/// where it can't have ended so when an allocation was refused in it.
fn recorded(outcome: Outcome, written: &[u8]) -> Option<u32> {
    let rows: [(Outcome, u32, &[&[u8]]); 6] = [
        (Outcome::Early(SessionEnd::NoMemory), 0, &[]),
        (cut_short(0, 0), 0, &[WELCOME]),
        (cut_short(1, 1), 1, &[WELCOME, QUESTION]),
        (cut_short(2, 2), 2, &[WELCOME, QUESTION, ACCEPTED]),
        (
            cut_short(3, 3),
            3,
            &[WELCOME, QUESTION, ACCEPTED, WITHDRAWN],
        ),
        (
            to_bye(0, 3, 4),
            3,
            &[WELCOME, QUESTION, ACCEPTED, WITHDRAWN, BYE_REPLY],
        ),
    ];
    for (want, length, replied) in rows {
        if outcome == want && are(written, replied) {
            return Some(length);
        }
    }
    None
}

/// A connection that ran out of memory did so before its desk was got, with nothing written or recorded, or else after whole
/// replies. The next one gets the desk, and sees what was recorded.
///
/// No allocator can be handed in that refuses, so a plain run shows the last row alone. `rt try --test --fail-alloc N -- refused_memory`
/// refuses the allocation of that number; where it is one of the first connection, one of the rows must come.
#[test]
fn refused_memory(rt: HostRuntime) -> Result<(), Fail> {
    let hall = hall_of(rt.alloc(), DEFINITION)?;
    let said: &[&[u8]] = &[HELLO, NEXT, ANSWER, WITHDRAW, BYE];
    let (outcome, sink) = served(&rt, rt.alloc(), &hall, said, (0, 0))?;
    let Some(length) = recorded(outcome, sink.bytes()) else {
        assert!(rt; false, "{outcome:?}");
        return Ok(());
    };
    let (next, sink) = served(&rt, rt.alloc(), &hall, &[HELLO, BYE], (0, 0))?;
    let want = to_bye(length, length, 1);
    assert!(rt; next == want, "{next:?}, not {want:?}");
    assert!(rt; are(sink.bytes(), &[WELCOME, BYE_REPLY]));
    Ok(())
}

/// The sink fails at each call in turn: what was replied before is out, and what was answered is kept.
#[test]
fn sink_fails_third(rt: HostRuntime) -> Result<(), Fail> {
    let table: [(u32, u32, u32, &[&[u8]]); 4] = [
        (1, 0, 0, &[]),
        (2, 1, 1, &[WELCOME]),
        (3, 2, 2, &[WELCOME, QUESTION]),
        (4, 2, 3, &[WELCOME, QUESTION, ACCEPTED]),
    ];
    for (call, length, replies, replied) in table {
        let hall = hall_of(rt.alloc(), DEFINITION)?;
        let (outcome, sink) = served(
            &rt,
            rt.alloc(),
            &hall,
            &[HELLO, NEXT, ANSWER, BYE],
            (0, call),
        )?;
        let want = Outcome::Ran {
            began: 0,
            length,
            replies,
            end: SessionEnd::WriteFault,
        };
        assert!(rt; outcome == want, "{outcome:?}, not {want:?}");
        assert!(rt; are(sink.bytes(), replied));
    }
    Ok(())
}

/// The source fails after a whole hello: what came before has its replies, and they are out.
#[test]
fn source_fails_after_hello(rt: HostRuntime) -> Result<(), Fail> {
    let table: [([&[u8]; 3], u32, u32, &[&[u8]]); 2] = [
        ([HELLO, b"", b""], 0, 0, &[WELCOME]),
        ([HELLO, NEXT, ANSWER], 2, 2, &[WELCOME, QUESTION, ACCEPTED]),
    ];
    for (said, length, replies, replied) in table {
        let hall = hall_of(rt.alloc(), DEFINITION)?;
        let (outcome, sink) = served(&rt, rt.alloc(), &hall, &said, (2, 0))?;
        let want = Outcome::Ran {
            began: 0,
            length,
            replies,
            end: SessionEnd::ReadFault,
        };
        assert!(rt; outcome == want, "{outcome:?}, not {want:?}");
        assert!(rt; are(sink.bytes(), replied));
    }
    Ok(())
}

/// First lines that fail a test, each at the first one that it fails.
#[test]
fn refused_hello(rt: HostRuntime) -> Result<(), Fail> {
    let hall = hall_of(rt.alloc(), DEFINITION)?;
    let table: [(&[u8], Word, &[u8]); 6] = [
        (NEXT, Word::Hello, b"{\"refused\":\"hello\"}\n"),
        (b"\n", Word::Hello, b"{\"refused\":\"hello\"}\n"),
        (
            b"{\"hello\":{\"code\":\"zz\",\"desk\":5,\"name\":\"bob\"}}\n",
            Word::Name,
            b"{\"refused\":\"name\"}\n",
        ),
        (
            b"{\"hello\":{\"code\":\"zz\",\"desk\":5,\"name\":\"ana\"}}\n",
            Word::Code,
            b"{\"refused\":\"code\"}\n",
        ),
        (
            b"{\"hello\":{\"code\":\"k1\",\"desk\":5,\"name\":\"ana\"}}\n",
            Word::Desk,
            b"{\"refused\":\"desk\"}\n",
        ),
        (
            b"{\"hello\":{\"code\":\"k1\",\"desk\":0,\"name\":\"ana\"}}\n",
            Word::Desk,
            b"{\"refused\":\"desk\"}\n",
        ),
    ];
    for (hello, word, replied) in table {
        let (outcome, sink) = served(&rt, rt.alloc(), &hall, &[hello, BYE], (0, 0))?;
        assert!(rt;
            outcome == Outcome::Refused(word),
            "{outcome:?}, not {word:?}"
        );
        assert!(rt; are(sink.bytes(), &[replied]));
    }
    Ok(())
}

/// A line that is no message is refused in a session. One that input ends within is dropped.
#[test]
fn cut_message(rt: HostRuntime) -> Result<(), Fail> {
    let hall = hall_of(rt.alloc(), DEFINITION)?;
    let ended = Outcome::Ran {
        began: 0,
        length: 0,
        replies: 0,
        end: SessionEnd::EndOfInput,
    };
    let table: [([&[u8]; 3], Outcome, &[&[u8]]); 2] = [
        ([HELLO, b"{\"ask\":\"next\"", b""], ended, &[WELCOME]),
        (
            [HELLO, b"hi\n", BYE],
            to_bye(0, 0, 2),
            &[WELCOME, b"{\"refused\":\"message\"}\n", BYE_REPLY],
        ),
    ];
    for (said, want, replied) in table {
        let (outcome, sink) = served(&rt, rt.alloc(), &hall, &said, (0, 0))?;
        assert!(rt; outcome == want, "{outcome:?}, not {want:?}");
        assert!(rt; are(sink.bytes(), replied));
    }
    Ok(())
}

/// Connections that end before a whole first line came, or by a fault at it.
#[test]
fn early_ends(rt: HostRuntime) -> Result<(), Fail> {
    let hall = hall_of(rt.alloc(), DEFINITION)?;
    let long = vec![in rt.alloc(); b' '; 4_097]?;
    let half: &[u8] = b"{\"hello\":{\"code\":\"k1\",\"desk\":1,\"name\":\"ana\"}}";
    let table: [(&[u8], (u32, u32), SessionEnd, &[&[u8]]); 7] = [
        (b"", (0, 0), SessionEnd::EndOfInput, &[]),
        (half, (0, 0), SessionEnd::EndOfInput, &[]),
        (
            long.as_slice(),
            (0, 0),
            SessionEnd::LineTooLong,
            &[REFUSED_LINE],
        ),
        (long.as_slice(), (0, 1), SessionEnd::WriteFault, &[]),
        (NEXT, (0, 1), SessionEnd::WriteFault, &[]),
        (HELLO, (1, 0), SessionEnd::ReadFault, &[]),
        (half, (2, 0), SessionEnd::ReadFault, &[]),
    ];
    for (said, fails, end, replied) in table {
        let (outcome, sink) = served(&rt, rt.alloc(), &hall, &[said], fails)?;
        assert!(rt; outcome == Outcome::Early(end), "{outcome:?}, not {end:?}");
        assert!(rt; are(sink.bytes(), replied));
    }
    Ok(())
}

/// A message of 4,096 bytes is answered, one of 4,097 bytes ends the session.
#[test]
fn longest_line(rt: HostRuntime) -> Result<(), Fail> {
    let table: [(usize, SessionEnd, &[u8]); 2] = [
        (4_082, SessionEnd::EndOfInput, QUESTION),
        (4_083, SessionEnd::LineTooLong, REFUSED_LINE),
    ];
    for (blanks, end, replied) in table {
        let hall = hall_of(rt.alloc(), DEFINITION)?;
        let blank = vec![in rt.alloc(); b' '; blanks]?;
        let (outcome, sink) = served(
            &rt,
            rt.alloc(),
            &hall,
            &[HELLO, blank.as_slice(), NEXT],
            (0, 0),
        )?;
        assert!(rt;
            matches!(outcome, Outcome::Ran { end: ended, .. } if ended == end),
            "{outcome:?}, not {end:?}"
        );
        assert!(rt; are(sink.bytes(), &[WELCOME, replied]));
    }
    Ok(())
}

/// What a connection at a door says, and the call of its sink that fails.
type Caller<'a> = (&'a [&'a [u8]], u32);

/// A door with these connections.
fn door_of(alloc: Global, callers: &[Caller<'_>]) -> Result<MemDoor, Fail> {
    let mut ends = DoorEnds::new(alloc);
    for (said, fails) in callers {
        let text = text_of(alloc, *said)?;
        let source = MemSource::new(alloc, text.as_slice(), 1_000, &[])?;
        let sink = MemSink::new(alloc, 1_000, &[*fails])?;
        ends.push(source, sink)?;
    }
    Ok(MemDoor::new(ends))
}

/// What the first `count` connections at a door were served, or why serving stopped.
fn at_door<R: Threads + Wait + Sync, G: Gate + Sync>(
    rt: &R,
    alloc: Global,
    definition: &[u8],
    callers: &[Caller<'_>],
    count: u32,
    workers: u32,
    gate: &G,
) -> Result<Result<Vec<Outcome>, ServeStop>, Fail> {
    let definition = read_definition(alloc, definition).ok().ok_or("definition")?;
    let workers = workers.min(2);
    let hall = Hall::build(alloc, definition, workers)?;
    at_hall(rt, alloc, &hall, callers, count, workers, gate)
}

/// The same of a door of this hall.
fn at_hall<R: Threads + Wait + Sync, G: Gate + Sync>(
    rt: &R,
    alloc: Global,
    hall: &Hall,
    callers: &[Caller<'_>],
    count: u32,
    workers: u32,
    gate: &G,
) -> Result<Result<Vec<Outcome>, ServeStop>, Fail>
    requires { workers ≤ hall.now.workers }
{
    let mut door = door_of(alloc, callers)?;
    let count = count.max(1).min(9);
    let end = match serve(rt, alloc, hall, &mut door, count, workers, gate) {
        Ok(end) => end,
        Err(stop) => return Ok(Err(stop)),
    };
    let mut list = Vec::new(alloc);
    for number in 0..end.count() {
        list.push(outcome_of(end.served(number + 1)))?;
    }
    Ok(Ok(list))
}

/// A door fails after the connections that it has. A sink that fails at its first call ends its own connection alone.
#[test]
fn door_fault(rt: HostRuntime) -> Result<(), Fail> {
    let said: &[&[u8]] = &[HELLO, BYE];
    let cut = Outcome::Ran {
        began: 0,
        length: 0,
        replies: 0,
        end: SessionEnd::WriteFault,
    };
    let bye = to_bye(0, 0, 1);
    let table: [(&[Caller<'_>], u32, u32, Option<[Outcome; 2]>); 4] = [
        (&[(said, 0), (said, 0)], 2, 0, Some([bye, bye])),
        (&[(said, 0), (said, 0)], 2, 2, Some([bye, bye])),
        (&[(said, 1), (said, 0)], 2, 1, Some([cut, bye])),
        (&[(said, 0), (said, 0)], 3, 1, None),
    ];
    for (callers, count, workers, want) in table {
        let outcome = at_door(
            &rt,
            rt.alloc(),
            DEFINITION,
            callers,
            count,
            workers,
            &OpenGate,
        )?;
        match (outcome, want) {
            (Ok(outcome), Some(want)) => assert!(rt; outcome.as_slice() == want.as_slice()),
            (Err(stop), None) => assert!(rt; stop == ServeStop::DoorFault),
            _ => assert!(rt; false, "another answer"),
        }
    }
    Ok(())
}

/// Whoever comes by `at` waits for `until`.
fn hold(at: GatePoint, until: GatePoint) -> Hold {
    Hold { at, until }
}

/// A door fails after two connections: both get their question all the same.
#[test]
fn door_fault_after_two(rt: HostRuntime) -> Result<(), Fail> {
    let first = GatePoint::NextAnswered { desk: 1 };
    let second = GatePoint::NextAnswered { desk: 2 };
    let gate = ScriptGate::new(rt.alloc(), &[hold(first, first), hold(second, second)])?;
    let one: &[&[u8]] = &[HELLO, NEXT, BYE];
    let other: &[&[u8]] = &[HELLO_2, NEXT, BYE];
    let callers = [(one, 0), (other, 0)];
    let outcome = at_door(&rt, rt.alloc(), DEFINITION, &callers, 3, 0, &gate)?;
    assert!(rt; matches!(outcome, Err(ServeStop::DoorFault)));
    assert!(rt; !gate.missed());
    Ok(())
}

/// Whether these connections were served as one of the rows says, and no hold of the gate was missed.
fn meets_holds<R: Threads + Wait + Sync>(
    rt: &R,
    alloc: Global,
    definition: &[u8],
    holds: &[Hold],
    callers: &[Caller<'_>],
    count: u32,
    workers: u32,
    rows: &[&[Outcome]],
) -> Result<bool, Fail> {
    let gate = ScriptGate::new(alloc, holds)?;
    let outcome = at_door(rt, alloc, definition, callers, count, workers, &gate)?;
    let list = outcome.ok().ok_or("stop")?;
    for row in rows {
        if list.as_slice() == *row {
            return Ok(!gate.missed());
        }
    }
    Ok(false)
}

/// The second question waits until an eliminator handed in the class that the answer ranks: eliminators work.
#[test]
fn connection_waits_for_hand_in(rt: HostRuntime) -> Result<(), Fail> {
    let begins = GatePoint::NextBegins { desk: 1 };
    let handed_in = GatePoint::HandedIn {
        worker: 1,
        place: 2,
        eliminated: true,
    };
    let holds = [hold(begins, begins), hold(begins, handed_in)];
    let said: &[&[u8]] = &[HELLO, NEXT, ANSWER, NEXT, BYE];
    let callers = [(said, 0)];
    let rows: [&[Outcome]; 1] = [&[to_bye(0, 4, 4)]];
    assert!(rt; meets_holds(&rt, rt.alloc(), THREE_LEVELS, &holds, &callers, 1, 1, &rows)?);
    Ok(())
}

/// A desk gets its question while an eliminator is about to solve: no turn is held.
#[test]
fn solve_outside_turn(rt: HostRuntime) -> Result<(), Fail> {
    let taken = GatePoint::JobTaken {
        worker: 1,
        place: 2,
    };
    let holds = [
        hold(GatePoint::NextBegins { desk: 2 }, taken),
        hold(taken, GatePoint::NextAnswered { desk: 2 }),
    ];
    let first: &[&[u8]] = &[HELLO, NEXT, ANSWER, BYE];
    let second: &[&[u8]] = &[HELLO_2, NEXT, BYE];
    let callers = [(first, 0), (second, 0)];
    let rows: [&[Outcome]; 1] = [&[to_bye(0, 2, 3), to_bye(0, 4, 2)]];
    assert!(rt; meets_holds(&rt, rt.alloc(), THREE_LEVELS, &holds, &callers, 2, 1, &rows)?);
    Ok(())
}

/// A hall is served for one respondent, and then for another: the eliminator works both times, so it was put to rest, and told to stop once.
#[test]
fn hall_served_twice(rt: HostRuntime) -> Result<(), Fail> {
    let definition = read_definition(rt.alloc(), THREE_LEVELS_FOR_TWO)
        .ok()
        .ok_or("definition")?;
    let hall = Hall::build(rt.alloc(), definition, 1)?;
    let begins = GatePoint::NextBegins { desk: 1 };
    let handed_in = GatePoint::HandedIn {
        worker: 1,
        place: 2,
        eliminated: true,
    };
    let holds = [hold(begins, begins), hold(begins, handed_in)];
    let want = [to_bye(0, 4, 4)];
    for hello in [HELLO, HELLO_BEN] {
        let said: &[&[u8]] = &[hello, NEXT, ANSWER, NEXT, BYE];
        let gate = ScriptGate::new(rt.alloc(), &holds)?;
        let outcome = at_hall(&rt, rt.alloc(), &hall, &[(said, 0)], 1, 1, &gate)?;
        let list = outcome.ok().ok_or("stop")?;
        assert!(rt; list.as_slice() == want.as_slice());
        assert!(rt; !gate.missed());
    }
    Ok(())
}

/// Each of two connections asks only once the other is about to: they are served at once, and get the first two questions.
#[test]
fn connections_at_once(rt: HostRuntime) -> Result<(), Fail> {
    let first = GatePoint::NextBegins { desk: 1 };
    let second = GatePoint::NextBegins { desk: 2 };
    let holds = [hold(first, second), hold(second, first)];
    let one: &[&[u8]] = &[HELLO, NEXT, BYE];
    let other: &[&[u8]] = &[HELLO_2, NEXT, BYE];
    let callers = [(one, 0), (other, 0)];
    let (early, late) = (to_bye(0, 1, 2), to_bye(0, 2, 2));
    let rows: [&[Outcome]; 2] = [&[early, late], &[late, early]];
    assert!(rt; meets_holds(&rt, rt.alloc(), DEFINITION, &holds, &callers, 2, 0, &rows)?);
    Ok(())
}

/// A sink whose bytes can be read by others. No clause knows them.
#[derive(Drop)]
struct SharedSink<'a, R: Wait> {
    rt: &'a R,
    bytes: &'a Mutex<Vec<u8>>,
    faults: u64,
}

impl<'a, R: Wait> Sink for SharedSink<'a, R> {
    ghost written = { λ _. None };

    ghost faults = { λ sink. sink.faults };

    fn put(&mut self, buf: &[u8]) -> Result<usize, Failed> {
        let appended = self.bytes.lock(self.rt).extend_from_slice(buf);
        if appended.is_err() {
            self.faults = self.faults.saturating_add(1);
            return Err(Failed);
        }
        Ok(buf.len())
    }
}

/// A door whose connections write to these places, in order. It fails where no source or place is left.
#[derive(Drop)]
struct SharedDoor<'a, R: Wait> {
    rt: &'a R,
    sources: VecDeque<MemSource>,
    places: &'a [Mutex<Vec<u8>>],
    given: usize,
    faults: u64,
}

impl<'a, R: Wait> Door for SharedDoor<'a, R> {
    type In = MemSource;

    type Out = SharedSink<'a, R>;

    ghost ends = { λ _. None };

    ghost faults = { λ door. door.faults };

    fn listen(&mut self, _port: u16) -> Result<(), Failed> {
        Ok(())
    }

    fn accept(&mut self) -> Result<(MemSource, SharedSink<'a, R>), Failed> {
        match (self.sources.pop_front(), self.places.get(self.given)) {
            (Some(source), Some(bytes)) => {
                self.given = self.given.saturating_add(1);
                let sink = SharedSink {
                    rt: self.rt,
                    bytes,
                    faults: 0,
                };
                Ok((source, sink))
            }
            _ => {
                self.faults = self.faults.saturating_add(1);
                Err(Failed)
            }
        }
    }
}

/// Why a hall stopped serving connections that say these texts, if it did. What is written goes to the places.
fn stop_with<R: Threads + Wait + Sync>(
    rt: &R,
    alloc: Global,
    callers: &[&[&[u8]]],
    places: &[Mutex<Vec<u8>>],
    count: u32,
) -> Result<Option<ServeStop>, Fail> {
    let definition = read_definition(alloc, TWO_RESPONDENTS)
        .ok()
        .ok_or("definition")?;
    let hall = Hall::build(alloc, definition, 0)?;
    let mut sources = VecDeque::new(alloc);
    for said in callers {
        let text = text_of(alloc, *said)?;
        sources.push_back(MemSource::new(alloc, text.as_slice(), 1_000, &[])?)?;
    }
    let mut door = SharedDoor {
        rt,
        sources,
        places,
        given: 0,
        faults: 0,
    };
    let count = count.max(1).min(9);
    match serve(rt, alloc, &hall, &mut door, count, 0, &OpenGate) {
        Ok(_) => Ok(None),
        Err(stop) => Ok(Some(stop)),
    }
}

/// Replies go to the connections that were accepted, all of them, whether the door gives enough or fails after them.
#[test]
fn replies_go_to_accepted_ends(rt: HostRuntime) -> Result<(), Fail> {
    let table: [(u32, Option<ServeStop>); 2] = [(2, None), (3, Some(ServeStop::DoorFault))];
    for (count, want) in table {
        let ana: &[&[u8]] = &[HELLO, NEXT, BYE];
        let ben: &[&[u8]] = &[HELLO_BEN, NEXT, ANSWER, BYE];
        let places = [
            Mutex::new(Vec::new(rt.alloc())),
            Mutex::new(Vec::new(rt.alloc())),
        ];
        let stop = stop_with(&rt, rt.alloc(), &[ana, ben], &places, count)?;
        assert!(rt; stop == want);
        assert!(rt;
            are(
                places[0].lock(&rt).as_slice(),
                &[WELCOME, QUESTION, BYE_REPLY]
            )
        );
        assert!(rt;
            are(
                places[1].lock(&rt).as_slice(),
                &[WELCOME, QUESTION, ACCEPTED, BYE_REPLY]
            )
        );
    }
    Ok(())
}
