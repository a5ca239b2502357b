//! Reads a number that is a whole word.
ghost use Rattle.std.specs.Prelude.{◌≡◌, ◌≤◌, IfSome};
ghost use Rattle.survey_words.specs.Numbers.{number_within};

use text_fields::Fields;

/// The number from `least` to `most` that the word is.
pub(crate) fn number(word: &str, least: u32, most: u32) -> Option<u32>
    ensures exact { result ≡ number_within least most word.now }
    ensures limits { IfSome result (λ n. (least ≤ n) × (n ≤ most)) }
{
    let mut fields = Fields::of(word.as_bytes());
    let value = fields.number(most)?;
    if !fields.is_empty() || value < least {
        return None;
    }
    Some(value)
}
