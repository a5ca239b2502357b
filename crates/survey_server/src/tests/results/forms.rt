//! Lines that a result can't have.

/// Lines of no form, each in the place of a line of `COMPLETE`.
pub(super) const FORMS: [(usize, &[u8], &[u8]); 45] = [
    (1, b"paprika result 3\n", b"invalid 1 form\n"),
    // A blank at the end.
    (1, b"paprika result 1 \n", b"invalid 1 form\n"),
    (1, b"paprika results 1\n", b"invalid 1 form\n"),
    // No issue in claims.
    (1, b"paprika claims 1\n", b"invalid 3 form\n"),
    (2, b"model 2,2,2, degree 3\n", b"invalid 2 form\n"),
    // Three levels for two criteria.
    (2, b"model 2,2 degree 2\n", b"invalid 3 form\n"),
    // No such word.
    (3, b"ask 1 2,1,0/1,2,0 2,1,1 1,2,1\n", b"invalid 3 form\n"),
    // Claims only.
    (3, b"answer 2,1,0/1,2,0 left\n", b"invalid 3 form\n"),
    (3, b"\n", b"invalid 3 form\n"),
    // Desks are 1 to 4.
    (3, b"issue 0 2,1,0/1,2,0 2,1,1 1,2,1\n", b"invalid 3 form\n"),
    // Too few levels.
    (3, b"issue 1 2,1/1,2 2,1,1 1,2,1\n", b"invalid 3 form\n"),
    // Levels are at most 25.
    (
        3,
        b"issue 1 26,1,0/1,2,0 2,1,1 1,2,1\n",
        b"invalid 3 form\n",
    ),
    // A vector is positive.
    (3, b"issue 1 2,1,0/1,2,0 2,0,1 1,2,1\n", b"invalid 3 form\n"),
    (
        3,
        b"issue 1 2,1,0/1,2,0 2,-1,1 1,2,1\n",
        b"invalid 3 form\n",
    ),
    // Too few numbers.
    (3, b"issue 1 2,1,0/1,2,0 2,1 1,2,1\n", b"invalid 3 form\n"),
    // Too many.
    (
        3,
        b"issue 1 2,1,0/1,2,0 2,1,1,1 1,2,1\n",
        b"invalid 3 form\n",
    ),
    // One vector.
    (3, b"issue 1 2,1,0/1,2,0 2,1,1\n", b"invalid 3 form\n"),
    // 2^96.
    (
        3,
        b"issue 1 2,1,0/1,2,0 79228162514264337593543950336,1,1 1,2,1\n",
        b"invalid 3 form\n",
    ),
    // 2^96 - 1 is a number.
    (
        3,
        b"issue 1 2,1,0/1,2,0 79228162514264337593543950335,1,1 1,2,1\n",
        b"valid complete\n",
    ),
    // Two blanks.
    (
        3,
        b"issue 1 2,1,0/1,2,0  2,1,1 1,2,1\n",
        b"invalid 3 form\n",
    ),
    (
        3,
        b"issue 1 2,1,0/1,2,0 2,1,1 1,2,1\r\n",
        b"invalid 3 form\n",
    ),
    // Desk.
    (
        4,
        b"commit 5 1 equal 2,1,1 1,2,1 1,1,1\n",
        b"invalid 4 form\n",
    ),
    // Questions are counted from 1.
    (
        4,
        b"commit 1 0 equal 2,1,1 1,2,1 1,1,1\n",
        b"invalid 4 form\n",
    ),
    // And are at most 131,072.
    (
        4,
        b"commit 1 131073 equal 2,1,1 1,2,1 1,1,1\n",
        b"invalid 4 form\n",
    ),
    // This one is a number of a question.
    (
        4,
        b"commit 1 131072 equal 2,1,1 1,2,1 1,1,1\n",
        b"invalid 4 question\n",
    ),
    (
        4,
        b"commit 1 1 Equal 2,1,1 1,2,1 1,1,1\n",
        b"invalid 4 form\n",
    ),
    // No point.
    (4, b"commit 1 1 equal 2,1,1 1,2,1\n", b"invalid 4 form\n"),
    // A point is positive.
    (
        4,
        b"commit 1 1 equal 2,1,1 1,2,1 1,1,0\n",
        b"invalid 4 form\n",
    ),
    // Desk.
    (4, b"close 0 1\n", b"invalid 4 form\n"),
    // A field too many.
    (4, b"close 1 1 1\n", b"invalid 4 form\n"),
    // Format 2 only.
    (5, b"withdraw 1 1\n", b"invalid 5 form\n"),
    // Workers are 0 to 16.
    (
        7,
        b"eliminate 17 0,2,1/0,1,2 left 1 0,0,0 1:-1,2:1\n",
        b"invalid 7 form\n",
    ),
    // This one is a worker.
    (
        7,
        b"eliminate 16 0,2,1/0,1,2 left 1 0,0,0 1:-1,2:1\n",
        b"valid complete\n",
    ),
    // Too few weights.
    (
        7,
        b"eliminate 0 0,2,1/0,1,2 left 1 0,0 1:-1,2:1\n",
        b"invalid 7 form\n",
    ),
    // -2^96.
    (
        7,
        b"eliminate 0 0,2,1/0,1,2 left 1 0,0,-79228162514264337593543950336 1:-1,2:1\n",
        b"invalid 7 form\n",
    ),
    // No cites are written -.
    (
        7,
        b"eliminate 0 0,2,1/0,1,2 left 1 0,0,0 \n",
        b"invalid 7 form\n",
    ),
    // One answer twice.
    (
        7,
        b"eliminate 0 0,2,1/0,1,2 left 1 0,0,0 1:-1,1:1\n",
        b"invalid 7 form\n",
    ),
    // A weight isn't 0.
    (
        7,
        b"eliminate 0 0,2,1/0,1,2 left 1 0,0,0 1:0,2:1\n",
        b"invalid 7 form\n",
    ),
    // Answers are counted from 1.
    (
        7,
        b"eliminate 0 0,2,1/0,1,2 left 1 0,0,0 0:1,2:1\n",
        b"invalid 7 form\n",
    ),
    // And are at most 131,072.
    (
        7,
        b"eliminate 0 0,2,1/0,1,2 left 1 0,0,0 2:1,131073:1\n",
        b"invalid 7 form\n",
    ),
    // 25 cites.
    (
        7,
        b"eliminate 0 0,2,1/0,1,2 left 1 0,0,0 1:1,2:1,3:1,4:1,5:1,6:1,7:1,8:1,9:1,10:1,11:1,12:1,13:1,14:1,15:1,16:1,17:1,18:1,19:1,20:1,21:1,22:1,23:1,24:1,25:1\n",
        b"invalid 7 form\n",
    ),
    // 24 cites, of which two are there.
    (
        7,
        b"eliminate 0 0,2,1/0,1,2 left 1 0,0,0 1:1,2:1,3:1,4:1,5:1,6:1,7:1,8:1,9:1,10:1,11:1,12:1,13:1,14:1,15:1,16:1,17:1,18:1,19:1,20:1,21:1,22:1,23:1,24:1\n",
        b"invalid 7 cite\n",
    ),
    // 2^96 - 1 everywhere.
    (
        7,
        b"eliminate 0 0,2,1/0,1,2 left 79228162514264337593543950335 0,0,0 1:-79228162514264337593543950335,2:79228162514264337593543950335\n",
        b"valid complete\n",
    ),
    (11, b"end 1\n", b"invalid 11 form\n"),
    // An empty line is a byte after the end line.
    (11, b"end\n\n", b"invalid 12 form\n"),
];
