ghost use Rattle.std.specs.Prelude.{◌≡◌, ◌↔◌, ℕ, ◌-◌, ◌<◌, ◌≤◌, List, [], length, drop, Option, IsTrue, IfNone, IfSome, if◌then◌else◌};
ghost use Rattle.text_fields.specs.Spelling.{IsCertificate, is_next};
ghost use Rattle.text_fields.specs.Reading.{ReadsAs, ReadsListAs, read_word, read_number, read_certificate, read_list};

use crate::digits::digits_at;
use crate::limits::CERTIFICATE_BOUND;
use std::marker::Model;

/// Reads fields from the front of a text, one after the other.
///
/// A read that answers `None` found no such field at the front; what is left then is unspecified, unless
/// the call says more.
#[derive(Drop)]
pub struct Fields<'a> {
    rest: &'a [u8],
}

impl<'a> Model for Fields<'a> {
    ghost use Rattle.std.specs.Prelude.{ℕ, List};

    ghost Value = { List ℕ };

    ghost view = { λ f. f.rest.now };
}

impl<'a> Fields<'a> {
    /// All of the text is still to be read.
    pub fn of(text: &'a [u8]) -> Fields<'a>
        ensures { result ≡ text.now }
    {
        Fields { rest: text }
    }

    /// Whether the whole text was read.
    pub fn is_empty(&self) -> bool
        ensures { IsTrue result ↔ (self.now ≡ []) }
    {
        self.rest.is_empty()
    }

    /// Reads this word. Where another stands at the front, nothing is read.
    pub fn word(&mut self, word: &[u8]) -> Option<()>
        ensures exact { ReadsAs result self.new (read_word word.now self.old) }
        ensures kept { IfNone result (self.new ≡ self.old) }
    {
        self.rest = self.rest.strip_prefix(word)?;
        Some(())
    }

    /// Reads this byte where it comes next, and says whether it did.
    pub fn skip(&mut self, byte: u8) -> bool
        ensures next { result ≡ is_next byte self.old }
        ensures left { self.new ≡ drop (if result then 1 else 0) self.old }
    {
        match self.rest {
            [first, rest @ ..] if *first == byte => {
                self.rest = rest;
                true
            }
            _ => false,
        }
    }

    /// Reads a number up to `most`.
    fn size(&mut self, most: u128) -> Option<u128>
        requires { most < CERTIFICATE_BOUND }
        ensures exact { ReadsAs result self.new (read_number most self.old) }
        ensures limit { IfSome result (λ n. n ≤ most) }
    {
        let (value, len) = digits_at(self.rest, most)?;
        self.rest = &self.rest[len..];
        Some(value)
    }

    /// Reads a number up to `most`.
    pub fn number(&mut self, most: u32) -> Option<u32>
        ensures exact { ReadsAs result self.new (read_number most self.old) }
        ensures limit { IfSome result (λ n. n ≤ most) }
    {
        let value = self.size(u128::from(most))?;
        Some(value as u32)
    }

    /// Reads a certificate number: a whole number below 2^96 in size.
    #[tactic(auto, unfolding(crate::specs::Reading::read_certificate))]
    pub fn certificate(&mut self) -> Option<i128>
        ensures exact { ReadsAs result self.new (read_certificate self.old) }
        ensures limit { IfSome result IsCertificate }
    {
        if self.skip(b'-') {
            let size = self.size(CERTIFICATE_BOUND - 1)?;
            if size == 0 {
                return None;
            }
            return Some(-(size as i128));
        }
        let size = self.size(CERTIFICATE_BOUND - 1)?;
        Some(size as i128)
    }

    /// Reads numbers up to `most`, joined by commas, into the front of `cells`, and says how many: at least one,
    /// and as many as come next or there are cells.
    pub fn numbers(&mut self, most: u32, cells: &mut [u32]) -> Option<usize>
        requires { 0 < length cells.old }
        ensures exact { ReadsListAs result cells.new self.new (read_list (read_number most) (length cells.old) self.old) }
    {
        self.list(most, cells)
    }

    /// Reads a number up to `most`.
    pub fn small_number(&mut self, most: u8) -> Option<u8>
        ensures exact { ReadsAs result self.new (read_number most self.old) }
        ensures limit { IfSome result (λ n. n ≤ most) }
    {
        let value = self.size(u128::from(most))?;
        Some(value as u8)
    }

    /// Reads numbers up to `most` as [`Fields::numbers`] does, into cells of a byte.
    pub fn small_numbers(&mut self, most: u8, cells: &mut [u8]) -> Option<usize>
        requires { 0 < length cells.old }
        ensures exact { ReadsListAs result cells.new self.new (read_list (read_number most) (length cells.old) self.old) }
    {
        self.list(most, cells)
    }

    /// Reads certificate numbers as [`Fields::numbers`] does.
    pub fn certificates(&mut self, cells: &mut [i128]) -> Option<usize>
        requires { 0 < length cells.old }
        ensures exact { ReadsListAs result cells.new self.new (read_list read_certificate (length cells.old) self.old) }
    {
        self.list(0, cells)
    }

    /// Reads items joined by commas into the front of `cells`.
    fn list<T: Item>(&mut self, most: T, cells: &mut [T]) -> Option<usize>
        requires { 0 < length cells.old }
        ensures exact { ReadsListAs result cells.new self.new (read_list (T.reads most) (length cells.old) self.old) }
    {
        cells[0] = T::next(self, most)?;
        let mut count = 1;
        while count < cells.len() && self.skip(b',') {
            cells[count] = T::next(self, most)?;
            count += 1;
        }
        Some(count)
    }
}

/// What the items of a list are.
trait Item: Copy {
    // What reads an item, where it has a limit up to this one.
    ghost reads: { Self → List ℕ → Option (Self × List ℕ) };

    /// Reads an item from the front.
    fn next(fields: &mut Fields<'_>, most: Self) -> Option<Self>
        ensures { ReadsAs result fields.new (reads most fields.old) };
}

impl Item for u32 {
    ghost reads = { λ most. read_number most };

    fn next(fields: &mut Fields<'_>, most: u32) -> Option<u32> {
        fields.number(most)
    }
}

impl Item for u8 {
    ghost reads = { λ most. read_number most };

    fn next(fields: &mut Fields<'_>, most: u8) -> Option<u8> {
        fields.small_number(most)
    }
}

impl Item for i128 {
    ghost reads = { λ _. read_certificate };

    fn next(fields: &mut Fields<'_>, _most: i128) -> Option<i128> {
        fields.certificate()
    }
}
