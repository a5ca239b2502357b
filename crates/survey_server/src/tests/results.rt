//! Results: each table changes lines of a base file, one at a time.
mod forms;
mod migrated;

use super::expect_check;
use forms::FORMS;
use std::alloc::{AllocError, Global};
use std::process::Abort;
use std::test::Fail;

/// The lines of a complete result of three criteria of two levels: an answer `equal`, an answer `left`, and what they imply.
const COMPLETE: [&[u8]; 11] = [
    b"paprika result 1\n",
    b"model 2,2,2 degree 3\n",
    b"issue 1 2,1,0/1,2,0 2,1,1 1,2,1\n",
    b"commit 1 1 equal 2,1,1 1,2,1 1,1,1\n",
    b"issue 1 2,0,1/1,0,2 2,2,1 1,1,2\n",
    b"commit 1 2 left 2,2,1 1,1,2 2,2,1\n",
    b"eliminate 0 0,2,1/0,1,2 left 1 0,0,0 1:-1,2:1\n",
    b"eliminate 0 2,1,1/1,2,2 right 1 0,0,1 1:-1\n",
    b"eliminate 0 2,1,2/1,2,1 left 1 0,0,1 1:1\n",
    b"eliminate 0 2,2,1/1,1,2 left 1 0,1,0 2:1\n",
    b"end\n",
];

/// The lines of a result in which an answer is withdrawn. With it go the elimination of class 2, which cites it, and the
/// close of question 2; so question 2 is open again, and is answered.
const WITHDRAWN: [&[u8]; 12] = [
    b"paprika result 2\n",
    b"model 2,2,2 degree 3\n",
    b"issue 1 2,1,0/1,2,0 2,1,1 1,2,1\n",
    b"issue 1 2,0,1/1,0,2 2,1,1 1,1,2\n",
    b"issue 1 0,2,1/0,1,2 1,2,1 1,1,2\n",
    b"commit 1 1 left 2,1,1 1,2,1 2,1,1\n",
    b"commit 1 3 left 3,2,1 3,1,2 3,2,1\n",
    b"eliminate 0 2,0,1/1,0,2 left 1 0,0,0 1:1,2:1\n",
    b"close 1 2\n",
    b"withdraw 1 2\n",
    b"commit 1 2 left 2,1,1 2,1,3 2,1,1\n",
    b"end\n",
];

/// The lines of a result in which two classes lose their eliminations with a withdrawn answer, and are then issued.
const ASKED_AGAIN: [&[u8]; 15] = [
    b"paprika result 2\n",
    b"model 2,2,2 degree 3\n",
    b"issue 1 2,1,0/1,2,0 2,1,1 1,2,1\n",
    b"commit 1 1 left 2,1,1 1,2,1 2,1,1\n",
    b"issue 2 2,0,1/1,0,2 2,1,1 2,1,3\n",
    b"commit 2 2 right 2,1,1 2,1,3 2,1,3\n",
    b"eliminate 3 0,2,1/0,1,2 right 1 0,0,0 1:1,2:1\n",
    b"eliminate 3 2,1,1/1,2,2 right 1 0,1,0 2:1\n",
    b"eliminate 3 2,1,2/1,2,1 left 1 0,0,1 1:1\n",
    b"withdraw 4 2\n",
    b"issue 1 0,2,1/0,1,2 3,2,1 2,1,3\n",
    b"issue 1 2,1,1/1,2,2 4,1,1 2,1,3\n",
    b"issue 1 2,2,1/1,1,2 3,2,1 2,1,4\n",
    b"commit 4 2 left 2,1,1 2,1,3 3,2,1\n",
    b"end\n",
];

/// Changes of `COMPLETE`: a line, what stands in its place, and what `check` writes then.
const COMPLETE_CHANGED: [(usize, &[u8], &[u8]); 6] = [
    // Unchanged.
    (
        10,
        b"eliminate 0 2,2,1/1,1,2 left 1 0,1,0 2:1\n",
        b"valid complete\n",
    ),
    // Class 6 is left open.
    (10, b"", b"valid\n"),
    // Ranked by the line before.
    (
        10,
        b"eliminate 0 2,2,1/1,1,2 left 1 0,1,0 2:1\neliminate 0 2,2,1/1,1,2 left 1 0,1,0 2:1\n",
        b"invalid 11 ranked\n",
    ),
    // Class 1 was never asked.
    (
        3,
        b"issue 1 2,0,1/1,0,2 2,2,1 1,1,2\n",
        b"invalid 3 earlier\n",
    ),
    // The same events in format 2.
    (1, b"paprika result 2\n", b"valid complete\n"),
    // The end line may lack its line end.
    (11, b"end", b"valid complete\n"),
];

/// Forged files, each one change of `COMPLETE`.
const COMPLETE_FORGED: [(usize, &[u8], &[u8]); 12] = [
    // No such desk.
    (3, b"issue 5 2,1,0/1,2,0 2,1,1 1,2,1\n", b"invalid 3 form\n"),
    // Exchanged.
    (
        3,
        b"issue 1 2,1,0/1,2,0 1,2,1 2,1,1\n",
        b"invalid 3 vectors\n",
    ),
    (
        3,
        b"issue 1 2,1,0/1,2,0 2,1,1 1,2,1\nissue 1 2,1,0/1,2,0 2,1,1 1,2,1\n",
        b"invalid 4 asked\n",
    ),
    // Never issued.
    (
        4,
        b"commit 1 2 equal 2,1,1 1,2,1 1,1,1\n",
        b"invalid 4 question\n",
    ),
    // 2 against 1 isn't equal.
    (
        4,
        b"commit 1 1 equal 2,1,1 1,2,1 2,1,1\n",
        b"invalid 4 point\n",
    ),
    // Open, and not eliminated.
    (
        4,
        b"close 1 1\ncommit 1 1 equal 2,1,1 1,2,1 1,1,1\n",
        b"invalid 4 unranked\n",
    ),
    // Committed.
    (
        4,
        b"commit 1 1 equal 2,1,1 1,2,1 1,1,1\nclose 1 1\n",
        b"invalid 5 question\n",
    ),
    // Answer 2 comes later; line 7 is then there twice, which nothing reads.
    (
        6,
        b"eliminate 0 0,2,1/0,1,2 left 1 0,0,0 1:-1,2:1\ncommit 1 2 left 2,2,1 1,1,2 2,2,1\n",
        b"invalid 6 cite\n",
    ),
    // 2^96.
    (
        7,
        b"eliminate 0 0,2,1/0,1,2 left 79228162514264337593543950336 0,0,0 1:-1,2:1\n",
        b"invalid 7 form\n",
    ),
    // Not ascending.
    (
        7,
        b"eliminate 0 0,2,1/0,1,2 left 1 0,0,0 2:1,1:-1\n",
        b"invalid 7 form\n",
    ),
    // 2 against 1 on increment 3.
    (
        9,
        b"eliminate 0 2,1,2/1,2,1 left 1 0,0,2 1:1\n",
        b"invalid 9 sum\n",
    ),
    (11, b"end\nx", b"invalid 12 form\n"),
];

/// Cut files, each one change of `COMPLETE`'s end line or of the line before it.
const UNFINISHED: [(usize, &[u8], &[u8]); 4] = [
    // No end line.
    (11, b"", b"unfinished 11\n"),
    // A cut end line.
    (11, b"en", b"unfinished 11\n"),
    // A cut line that isn't the end line.
    (11, b"end ", b"unfinished 11\n"),
    // A cut line isn't judged.
    (11, b"issue 1 2,1,0/1,2,0 2,1,1 1,2,1", b"unfinished 11\n"),
];

/// Lines with a wrong part, each in the place of a line of `COMPLETE`.
const PARTS: [(usize, &[u8], &[u8]); 42] = [
    // Degree above the number of criteria.
    (2, b"model 2,2,2 degree 4\n", b"invalid 2 model\n"),
    // One level.
    (2, b"model 2,1,2 degree 3\n", b"invalid 2 model\n"),
    // 25 increments.
    (2, b"model 26 degree 1\n", b"invalid 2 model\n"),
    // 80,730 classes.
    (
        2,
        b"model 2,2,2,2,2,2,2,2,2,2,2,2,2,2,2,2,2,2,2,2,2,2,2,2 degree 4\n",
        b"invalid 2 model\n",
    ),
    // Line 8 is the first with a pair of degree 3.
    (2, b"model 2,2,2 degree 2\n", b"invalid 8 class\n"),
    // Turned.
    (
        3,
        b"issue 1 1,2,0/2,1,0 2,1,1 1,2,1\n",
        b"invalid 3 class\n",
    ),
    // Dominated.
    (
        3,
        b"issue 1 2,2,0/1,1,0 2,1,1 1,2,1\n",
        b"invalid 3 class\n",
    ),
    // The third place agrees and isn't 0.
    (
        3,
        b"issue 1 2,1,1/1,2,1 2,1,1 1,2,1\n",
        b"invalid 3 class\n",
    ),
    // No third level.
    (
        3,
        b"issue 1 3,1,0/1,2,0 2,1,1 1,2,1\n",
        b"invalid 3 class\n",
    ),
    // Degree 0.
    (
        3,
        b"issue 1 0,0,0/0,0,0 2,1,1 1,2,1\n",
        b"invalid 3 class\n",
    ),
    // Turned, before its scale is judged.
    (
        7,
        b"eliminate 0 0,1,2/0,2,1 right 0 0,0,0 -\n",
        b"invalid 7 class\n",
    ),
    // Class 1 is committed, before the scale is judged.
    (
        7,
        b"eliminate 0 2,1,0/1,2,0 equal 0 0,0,0 -\n",
        b"invalid 7 ranked\n",
    ),
    // Class 1 is committed, before it counts as asked.
    (
        5,
        b"issue 1 2,1,0/1,2,0 2,1,1 1,2,1\n",
        b"invalid 5 ranked\n",
    ),
    // Class 3 is eliminated.
    (
        8,
        b"issue 1 0,2,1/0,1,2 1,2,1 1,1,2\n",
        b"invalid 8 ranked\n",
    ),
    // Class 3, of a lower degree, is neither ranked nor issued.
    (
        7,
        b"issue 1 2,1,1/1,2,2 3,1,1 1,1,1\n",
        b"invalid 7 earlier\n",
    ),
    // Class 4, of the same degree.
    (
        8,
        b"issue 1 2,1,2/1,2,1 2,1,1 1,2,1\n",
        b"invalid 8 earlier\n",
    ),
    // The first ranks it equal.
    (
        3,
        b"issue 1 2,1,0/1,2,0 1,1,1 1,2,1\n",
        b"invalid 3 vectors\n",
    ),
    // The second ranks it equal.
    (
        3,
        b"issue 1 2,1,0/1,2,0 2,1,1 1,1,1\n",
        b"invalid 3 vectors\n",
    ),
    // The first doesn't meet answer 1.
    (
        5,
        b"issue 1 2,0,1/1,0,2 2,1,1 1,1,2\n",
        b"invalid 5 vectors\n",
    ),
    // The second doesn't meet answer 1.
    (
        5,
        b"issue 1 2,0,1/1,0,2 2,2,1 1,2,3\n",
        b"invalid 5 vectors\n",
    ),
    // Exchanged.
    (
        6,
        b"commit 1 2 left 1,1,2 2,2,1 2,2,1\n",
        b"invalid 6 vectors\n",
    ),
    // The second doesn't meet answer 1.
    (
        6,
        b"commit 1 2 left 2,2,1 1,2,2 2,2,1\n",
        b"invalid 6 vectors\n",
    ),
    // Never issued.
    (
        6,
        b"commit 1 3 left 2,2,1 1,1,2 2,2,1\n",
        b"invalid 6 question\n",
    ),
    // Committed.
    (
        6,
        b"commit 1 1 left 2,2,1 1,1,2 2,2,1\n",
        b"invalid 6 question\n",
    ),
    // Open, and its class is neither eliminated nor committed.
    (6, b"close 1 2\n", b"invalid 6 unranked\n"),
    // It meets the new answer, not answer 1.
    (
        6,
        b"commit 1 2 left 2,2,1 1,1,2 2,1,1\n",
        b"invalid 6 point\n",
    ),
    // It meets answer 1, not the new one.
    (
        6,
        b"commit 1 2 left 2,2,1 1,1,2 1,1,2\n",
        b"invalid 6 point\n",
    ),
    // Equal is not left.
    (
        6,
        b"commit 1 2 left 2,2,1 1,1,2 1,1,1\n",
        b"invalid 6 point\n",
    ),
    // The point is for left.
    (
        6,
        b"commit 1 2 right 2,2,1 1,1,2 2,2,1\n",
        b"invalid 6 point\n",
    ),
    // Before the other flaws.
    (
        7,
        b"eliminate 0 0,2,1/0,1,2 left 0 0,0,-1 3:-1\n",
        b"invalid 7 scale\n",
    ),
    (
        7,
        b"eliminate 0 0,2,1/0,1,2 left -1 0,0,0 1:1,2:-1\n",
        b"invalid 7 scale\n",
    ),
    // Before the cite.
    (
        7,
        b"eliminate 0 0,2,1/0,1,2 left 1 0,0,-1 3:-1\n",
        b"invalid 7 increment\n",
    ),
    // Before the weight; there are two answers.
    (
        7,
        b"eliminate 0 0,2,1/0,1,2 left 1 0,0,0 2:-1,3:1\n",
        b"invalid 7 cite\n",
    ),
    // Answer 2 is strict; before the sum.
    (
        7,
        b"eliminate 0 0,2,1/0,1,2 left 1 0,0,0 1:-1,2:-1\n",
        b"invalid 7 weight\n",
    ),
    // 2, -1, -1 against 0, 1, -1.
    (
        7,
        b"eliminate 0 0,2,1/0,1,2 left 1 0,0,0 1:1,2:1\n",
        b"invalid 7 sum\n",
    ),
    // Turned.
    (
        7,
        b"eliminate 0 0,2,1/0,1,2 right 1 0,0,0 1:-1,2:1\n",
        b"invalid 7 sum\n",
    ),
    // The scale counts.
    (
        7,
        b"eliminate 0 0,2,1/0,1,2 left 2 0,0,0 1:-1,2:1\n",
        b"invalid 7 sum\n",
    ),
    (
        7,
        b"eliminate 0 0,2,1/0,1,2 left 1 0,0,0 -\n",
        b"invalid 7 sum\n",
    ),
    // Equal, with a positive weight on a strict answer.
    (
        7,
        b"eliminate 0 0,2,1/0,1,2 equal 1 0,0,0 1:-1,2:1\n",
        b"invalid 7 strict\n",
    ),
    // Increment 3 is left.
    (
        8,
        b"eliminate 0 2,1,1/1,2,2 equal 1 0,0,0 1:1\n",
        b"invalid 8 sum\n",
    ),
    // Answer 2 is now equal, so nothing is strict on line 7.
    (
        6,
        b"commit 1 2 equal 2,2,1 1,1,2 1,1,1\n",
        b"invalid 7 strict\n",
    ),
    // Equal proves equal; the next line ranks the class again.
    (
        6,
        b"commit 1 2 equal 2,2,1 1,1,2 1,1,1\neliminate 0 0,2,1/0,1,2 equal 1 0,0,0 1:-1,2:1\n",
        b"invalid 8 ranked\n",
    ),
];

/// Changes of `WITHDRAWN`.
const WITHDRAWN_CHANGED: [(usize, &[u8], &[u8]); 27] = [
    // Unchanged.
    (10, b"withdraw 1 2\n", b"valid\n"),
    // Not the last answer.
    (10, b"withdraw 1 1\n", b"invalid 10 nothing\n"),
    // Question 2 is still closed.
    (10, b"", b"invalid 10 question\n"),
    // Format 2 only.
    (1, b"paprika result 1\n", b"invalid 10 form\n"),
    // Desk.
    (10, b"withdraw 5 2\n", b"invalid 10 form\n"),
    // Answers are counted from 1.
    (10, b"withdraw 1 0\n", b"invalid 10 form\n"),
    (10, b"withdraw 1 131073\n", b"invalid 10 form\n"),
    (10, b"withdraw 1\n", b"invalid 10 form\n"),
    // There are two answers.
    (10, b"withdraw 1 3\n", b"invalid 10 nothing\n"),
    // There is no answer.
    (3, b"withdraw 1 1\n", b"invalid 3 nothing\n"),
    // Open.
    (
        6,
        b"issue 1 2,0,1/1,0,2 2,1,1 1,1,2\n",
        b"invalid 6 asked\n",
    ),
    // Those of its issue, which don't meet answer 1.
    (
        7,
        b"commit 1 3 left 1,2,1 1,1,2 3,2,1\n",
        b"invalid 7 vectors\n",
    ),
    // An implied question: the second doesn't meet answer 2.
    (
        8,
        b"commit 1 2 left 3,2,1 3,1,2 3,2,1\n",
        b"invalid 8 vectors\n",
    ),
    // Implied, but no event says so.
    (8, b"close 1 2\n", b"invalid 8 unranked\n"),
    // Open, and its class is eliminated; before the vectors.
    (
        9,
        b"commit 1 2 left 2,1,1 2,1,3 2,1,1\n",
        b"invalid 9 ranked\n",
    ),
    // Closed.
    (10, b"close 1 2\n", b"invalid 10 question\n"),
    // Open again, and the elimination is gone.
    (11, b"close 1 2\n", b"invalid 11 unranked\n"),
    // Answer 2 is gone.
    (
        11,
        b"eliminate 0 2,0,1/1,0,2 left 1 0,0,0 1:1,2:1\n",
        b"invalid 11 cite\n",
    ),
    // A class is issued once, also where its elimination is gone.
    (
        11,
        b"issue 1 2,0,1/1,0,2 2,1,1 1,1,2\n",
        b"invalid 11 asked\n",
    ),
    // Also where its commit is gone.
    (
        11,
        b"issue 1 0,2,1/0,1,2 3,2,1 3,1,2\n",
        b"invalid 11 asked\n",
    ),
    // No answer is left.
    (11, b"withdraw 1 1\nwithdraw 1 1\n", b"invalid 12 nothing\n"),
    // Committed anew.
    (
        11,
        b"commit 1 2 left 2,1,1 2,1,3 2,1,1\ncommit 1 2 left 2,1,1 2,1,3 2,1,1\n",
        b"invalid 12 question\n",
    ),
    // Question 2 was closed before answer 3 came, so it stays closed.
    (
        10,
        b"issue 1 2,1,1/1,2,2 4,2,1 4,3,2\ncommit 1 4 left 4,2,1 4,3,2 4,2,1\nwithdraw 1 3\n",
        b"invalid 13 question\n",
    ),
    // Question 4 is open again.
    (
        10,
        b"issue 1 2,1,1/1,2,2 4,2,1 4,3,2\ncommit 1 4 left 4,2,1 4,3,2 4,2,1\nwithdraw 1 3\nclose 1 4\n",
        b"invalid 13 unranked\n",
    ),
    // An elimination that doesn't cite answer 3 stays.
    (
        10,
        b"issue 1 2,1,1/1,2,2 4,2,1 4,3,2\ncommit 1 4 left 4,2,1 4,3,2 4,2,1\nwithdraw 1 3\neliminate 0 2,0,1/1,0,2 left 1 0,0,0 1:1,2:1\n",
        b"invalid 13 ranked\n",
    ),
    // Each class is ranked by an event that stands.
    (
        12,
        b"commit 1 3 left 4,2,1 4,1,2 4,2,1\nissue 1 2,1,1/1,2,2 4,2,1 4,3,2\ncommit 1 4 right 4,2,1 4,3,2 4,3,2\neliminate 0 2,1,2/1,2,1 left 1 0,0,1 1:1\neliminate 0 2,2,1/1,1,2 left 1 0,1,0 2:1\nend\n",
        b"valid complete\n",
    ),
    // Class 4's commit is gone.
    (
        12,
        b"commit 1 3 left 4,2,1 4,1,2 4,2,1\nissue 1 2,1,1/1,2,2 4,2,1 4,3,2\ncommit 1 4 right 4,2,1 4,3,2 4,3,2\neliminate 0 2,1,2/1,2,1 left 1 0,0,1 1:1\neliminate 0 2,2,1/1,1,2 left 1 0,1,0 2:1\nwithdraw 1 4\nend\n",
        b"valid\n",
    ),
];

/// Changes of `ASKED_AGAIN`, in which two eliminations go with a withdrawn answer.
const ASKED_AGAIN_CHANGED: [(usize, &[u8], &[u8]); 8] = [
    // Unchanged.
    (10, b"withdraw 4 2\n", b"valid\n"),
    // Class 3's elimination is gone, and it was never issued.
    (11, b"", b"invalid 11 earlier\n"),
    // Answer 2 is gone.
    (
        11,
        b"eliminate 3 0,2,1/0,1,2 right 1 0,0,0 1:1,2:1\n",
        b"invalid 11 cite\n",
    ),
    // Question 2 is open again.
    (
        11,
        b"issue 2 2,0,1/1,0,2 2,1,1 2,1,3\n",
        b"invalid 11 asked\n",
    ),
    // Class 4's elimination is gone too.
    (12, b"", b"invalid 12 earlier\n"),
    // It doesn't cite answer 2, so it stands.
    (
        12,
        b"eliminate 3 2,1,2/1,2,1 left 1 0,0,1 1:1\n",
        b"invalid 12 ranked\n",
    ),
    // Nothing is gone.
    (10, b"", b"invalid 10 ranked\n"),
    // Committed, withdrawn and committed again; then it isn't open.
    (
        14,
        b"commit 4 3 left 3,2,1 2,1,3 3,2,1\nwithdraw 1 2\ncommit 4 3 left 3,2,1 2,1,3 3,2,1\ncommit 4 3 left 3,2,1 2,1,3 3,2,1\n",
        b"invalid 17 question\n",
    ),
];

/// Whole files, with what `check` writes of them.
const WHOLE_RESULTS: [(&[u8], &[u8]); 11] = [
    (b"paprika result 1\n", b"unfinished 2\n"),
    // No model.
    (b"paprika result 1\nend\n", b"invalid 2 form\n"),
    // No event ranks a class.
    (b"paprika result 1\nmodel 2,2,2 degree 3\nend\n", b"valid\n"),
    // There is no class.
    (
        b"paprika result 1\nmodel 25 degree 1\nend\n",
        b"valid complete\n",
    ),
    // Claims are never complete.
    (b"paprika claims 1\nmodel 25 degree 1\nend\n", b"valid\n"),
    // No withdrawal in claims.
    (
        b"paprika claims 1\nmodel 2,2,2 degree 3\nwithdraw 1 1\nend\n",
        b"invalid 3 form\n",
    ),
    // Four are open; before the vectors.
    (
        b"paprika result 1\nmodel 2,2,2 degree 3\nissue 1 2,1,0/1,2,0 2,1,1 1,2,1\nissue 1 2,0,1/1,0,2 2,1,1 1,1,2\nissue 1 0,2,1/0,1,2 1,2,1 1,1,2\nissue 1 2,1,1/1,2,2 3,1,1 1,1,1\nissue 1 2,1,2/1,2,1 1,1,1 1,3,1\n",
        b"invalid 7 full\n",
    ),
    // Before full.
    (
        b"paprika result 1\nmodel 2,2,2 degree 3\nissue 1 2,1,0/1,2,0 2,1,1 1,2,1\nissue 1 2,0,1/1,0,2 2,1,1 1,1,2\nissue 1 0,2,1/0,1,2 1,2,1 1,1,2\nissue 1 2,1,1/1,2,2 3,1,1 1,1,1\nissue 1 2,1,0/1,2,0 1,1,1 1,1,1\n",
        b"invalid 7 asked\n",
    ),
    // Three are open.
    (
        b"paprika result 1\nmodel 2,2,2 degree 3\nissue 1 2,1,0/1,2,0 2,1,1 1,2,1\nissue 1 2,0,1/1,0,2 2,1,1 1,1,2\nissue 1 0,2,1/0,1,2 1,2,1 1,1,2\nissue 1 2,1,1/1,2,2 3,1,1 1,1,1\ncommit 1 1 left 2,1,1 1,2,1 2,1,1\neliminate 0 2,1,2/1,2,1 left 1 0,0,1 1:1\nissue 1 2,2,1/1,1,2 2,1,1 2,1,4\nend\n",
        b"valid\n",
    ),
    // 15,201 classes: 106,409 events at most after the second withdrawal.
    (
        b"paprika result 2\nmodel 3,4,4,6 degree 4\nissue 1 2,1,0,0/1,2,0,0 2,1,1,1,1,1,1,1,1,1,1,1,1 1,1,2,1,1,1,1,1,1,1,1,1,1\ncommit 1 1 equal 2,1,1,1,1,1,1,1,1,1,1,1,1 1,1,2,1,1,1,1,1,1,1,1,1,1 1,1,1,1,1,1,1,1,1,1,1,1,1\nwithdraw 1 1\ncommit 1 1 equal 2,1,1,1,1,1,1,1,1,1,1,1,1 1,1,2,1,1,1,1,1,1,1,1,1,1 1,1,1,1,1,1,1,1,1,1,1,1,1\nwithdraw 1 1\nend\n",
        b"valid\n",
    ),
    // 136,812 after the third.
    (
        b"paprika result 2\nmodel 3,4,4,6 degree 4\nissue 1 2,1,0,0/1,2,0,0 2,1,1,1,1,1,1,1,1,1,1,1,1 1,1,2,1,1,1,1,1,1,1,1,1,1\ncommit 1 1 equal 2,1,1,1,1,1,1,1,1,1,1,1,1 1,1,2,1,1,1,1,1,1,1,1,1,1 1,1,1,1,1,1,1,1,1,1,1,1,1\nwithdraw 1 1\ncommit 1 1 equal 2,1,1,1,1,1,1,1,1,1,1,1,1 1,1,2,1,1,1,1,1,1,1,1,1,1 1,1,1,1,1,1,1,1,1,1,1,1,1\nwithdraw 1 1\ncommit 1 1 equal 2,1,1,1,1,1,1,1,1,1,1,1,1 1,1,2,1,1,1,1,1,1,1,1,1,1 1,1,1,1,1,1,1,1,1,1,1,1,1\nwithdraw 1 1\nend\n",
        b"invalid 9 spent\n",
    ),
];

/// A file in which a text stands in the place of one line, counted from 1.
fn with_line(
    alloc: Global,
    file: &[&[u8]],
    number: usize,
    text: &[u8],
) -> Result<Vec<u8>, AllocError> {
    let mut whole = Vec::new(alloc);
    for place in 0..file.len() {
        let line = if place + 1 == number {
            text
        } else {
            file[place]
        };
        whole.extend_from_slice(line)?;
    }
    Ok(whole)
}

/// Checks a base file with each of the changes.
fn expect_changes(
    rt: &impl Abort,
    alloc: Global,
    file: &[&[u8]],
    changes: &[(usize, &[u8], &[u8])],
) -> Result<(), Fail> {
    for change in changes {
        let text = with_line(alloc, file, change.0, change.1)?;
        for piece in [1, 7, 4_096] {
            expect_check(rt, alloc, text.as_slice(), piece, change.2)?;
        }
    }
    Ok(())
}

#[test]
fn complete_result(rt: HostRuntime) -> Result<(), Fail> {
    expect_changes(&rt, rt.alloc(), &COMPLETE, &COMPLETE_CHANGED)
}

#[test]
fn format_two_with_withdrawal(rt: HostRuntime) -> Result<(), Fail> {
    expect_changes(&rt, rt.alloc(), &WITHDRAWN, &WITHDRAWN_CHANGED)?;
    expect_changes(&rt, rt.alloc(), &ASKED_AGAIN, &ASKED_AGAIN_CHANGED)
}

#[test]
fn forged_results_are_refused(rt: HostRuntime) -> Result<(), Fail> {
    for changes in [
        &COMPLETE_FORGED[..],
        &UNFINISHED[..],
        &FORMS[..],
        &PARTS[..],
    ] {
        expect_changes(&rt, rt.alloc(), &COMPLETE, changes)?;
    }
    for (text, want) in WHOLE_RESULTS {
        expect_check(&rt, rt.alloc(), text, 4_096, want)?;
    }
    Ok(())
}

#[test]
fn event_line_is_too_long_from_byte_4097_on(rt: HostRuntime) -> Result<(), Fail> {
    let head = b"paprika result 1\nmodel 2,2,2 degree 3\n";
    for (length, want) in [
        (4_096, b"unfinished 3\n".as_slice()),
        (4_097, b"invalid 3 form\n"),
    ] {
        let mut text = Vec::from_slice(rt.alloc(), head)?;
        text.extend_from_slice(vec![in rt.alloc(); b'1'; length]?.as_slice())?;
        expect_check(&rt, rt.alloc(), text.as_slice(), 7, want)?;
    }
    Ok(())
}
