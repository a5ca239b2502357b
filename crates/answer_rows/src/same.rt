//! Whether two answers are the same, and how many answers in front two lists share.
ghost use Rattle.std.specs.Prelude.{◌≡◌, ◌↔◌, IsTrue};
ghost use Rattle.answer_rows.specs.Room.{IsCommonFront};

use criteria_model::{Answer, Pair};

/// Whether the answers are the same.
pub fn is_same_answer(one: &Answer, other: &Answer) -> bool
    ensures { IsTrue result ↔ (one.now ≡ other.now) }
{
    is_same_pair(&one.pair, &other.pair) && one.side == other.side
}

/// Whether the pairs are the same.
fn is_same_pair(one: &Pair, other: &Pair) -> bool
    ensures { IsTrue result ↔ (one.now ≡ other.now) }
{
    one.left.as_slice() == other.left.as_slice() && one.right.as_slice() == other.right.as_slice()
}

/// How many answers in front both lists have.
pub fn common_front(one: &[Answer], other: &[Answer]) -> usize
    ensures { IsCommonFront one.now other.now result }
{
    let shorter = one.len().min(other.len());
    for place in 0..shorter {
        if !is_same_answer(&one[place], &other[place]) {
            return place;
        }
    }
    shorter
}
