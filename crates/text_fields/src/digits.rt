//! The digits at the front of a text.
ghost use Rattle.std.specs.Prelude.{◌≡◌, ◌+◌, ◌<◌, ◌≤◌, None, Some, length, drop, MatchOption};
ghost use Rattle.text_fields.specs.Reading.{read_number, begins_number as begins_number_by};

use crate::limits::CERTIFICATE_BOUND;

/// Whether digits stand at the front, the first of them no 0 unless it is the only one.
fn begins_number(text: &[u8]) -> bool
    ensures { result ≡ begins_number_by text.now }
{
    match text {
        [] => false,
        [b'0', second, ..] => !second.is_ascii_digit(),
        [first, ..] => first.is_ascii_digit(),
    }
}

/// The number at the front of the text, up to `most`, and how many digits it takes.
#[tactic(auto, unfolding(crate::specs::Reading::read_number))]
pub(crate) fn digits_at(text: &[u8], most: u128) -> Option<(u128, usize)>
    requires { most < CERTIFICATE_BOUND }
    ensures value { MatchOption result
        (read_number most text.now ≡ None)
        (λ found. read_number most text.now ≡ Some (found.0, drop found.1 text.now)) }
    ensures limit { MatchOption result (Unit {0}) (λ found. found.0 ≤ most) }
    ensures within { MatchOption result (Unit {0}) (λ found. found.1 ≤ length text.now) }
{
    if !begins_number(text) {
        return None;
    }
    let mut value = 0;
    let mut len = 0;
    while len < text.len() && text[len].is_ascii_digit() {
        value = value * 10 + u128::from(text[len] - b'0');
        if value > most {
            return None;
        }
        len += 1;
    }
    Some((value, len))
}
