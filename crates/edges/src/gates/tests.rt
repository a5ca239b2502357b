//! Which holds are missed. A hold that is over holds nobody, so one thread shows it.
use super::*;
use std::test::Fail;

const FIRST: GatePoint = GatePoint::NextBegins { desk: 1 };

const SECOND: GatePoint = GatePoint::NextBegins { desk: 2 };

const TAKEN: GatePoint = GatePoint::JobTaken {
    worker: 1,
    place: 2,
};

#[test]
fn holds_that_are_missed(rt: HostRuntime) -> Result<(), Fail> {
    let hold = Hold {
        at: FIRST,
        until: SECOND,
    };
    let itself = Hold {
        at: TAKEN,
        until: TAKEN,
    };
    let table: [(&[Hold], &[GatePoint], bool); 8] = [
        (&[], &[FIRST, SECOND], false),
        (&[hold], &[], true),
        (&[hold], &[SECOND], true),
        (&[hold], &[SECOND, FIRST], false),
        (&[hold], &[FIRST, SECOND], true),
        (&[hold, hold], &[SECOND, FIRST], true),
        (&[hold, hold], &[SECOND, FIRST, FIRST], false),
        (&[itself], &[TAKEN], false),
    ];
    for (holds, points, missed) in table {
        let gate = ScriptGate::new(rt.alloc(), holds)?;
        for point in points {
            gate.pass(*point);
        }
        assert!(rt; gate.missed() == missed, "{points:?}");
    }
    OpenGate.pass(FIRST);
    Ok(())
}
