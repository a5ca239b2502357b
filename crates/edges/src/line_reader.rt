//! Lines of a source, one at a time and without a copy.
ghost use Rattle.std.specs.Prelude.{◌≡◌, ◌≢◌, ℕ, List, Option, ◌+◌, ◌-◌, ◌<◌, ◌≤◌, [], ◌++◌, length, take, drop, slice_range, IfOk, OnOk, OnErr, Some, vec_len};
ghost use Rattle.edges.specs.Faults.{CountsFaults, HasRisen};
ghost use Rattle.edges.specs.Line.{HasLineEnd, HasNoLineEnd};
ghost use Rattle.edges.specs.Lines.{Gives, GivesLine, IsFirstLineEnd, IsLineEndWithin, KeepsLimits, ahead, limited, new_lines};
ghost use Rattle.edges.specs.Told.{IsAtEnd, Takes};

use crate::NoMemory;
use crate::ends::{Failed, Source};
use memchr::memchr;
use std::alloc::Global;
use std::marker::Model;

/// The byte that ends a line.
const LINE_END: u8 = b'\n';

/// How many bytes a reader has room for beyond its longest line and a line end.
const READ_AHEAD: usize = 65_536;

/// What `Lines::next_line` came upon.
#[derive(Clone, Copy, PartialEq, Eq, Debug)]
pub enum LineGot {
    /// A whole line.
    Line,
    /// Bytes at the end of input that no line end follows.
    Piece,
    /// The end of input.
    End,
    /// More bytes than the longest length without a line end.
    TooLong,
    /// The source failed.
    ReadFault,
}

/// A reader of lines. It may take bytes past a line from its source; it keeps them for the lines
/// that follow.
#[derive(Drop)]
pub struct Lines {
    buffer: Vec<u8>,
    line_start: usize,
    line_end: usize,
    kept_start: usize,
    kept_end: usize,
    longest: usize,
    reserved: usize,
}

impl Model for Lines {
    ghost use Rattle.std.specs.Prelude.{◌≤◌, ◌<◌, length, slice_range};
    ghost use Rattle.edges.specs.Lines.{LinesView};

    ghost Value = { LinesView };

    ghost view = { λ s. record {
      kept = slice_range s.buffer.items s.kept_start s.kept_end;
      line = slice_range s.buffer.items s.line_start s.line_end;
      longest = s.longest;
      reserved = s.reserved;
    } };

    // The line stands before the bytes kept, and there is room for a byte more than the longest line.
    ghost invariant = { λ s. (s.line_start ≤ s.line_end) × (s.line_end ≤ s.kept_start) × (s.kept_start ≤ s.kept_end)
        × (s.kept_end ≤ length s.buffer.items)
        × (s.longest ≤ s.reserved) × (s.reserved < length s.buffer.items) };
}

impl Lines {
    /// A reader of lines of at most `longest` bytes, line ends not counted.
    pub fn reserve(alloc: Global, longest: u32) -> Result<Lines, NoMemory>
        ensures { IfOk result (λ lines. lines ≡ new_lines longest) }
    {
        let reserved = longest as usize;
        Ok(Lines {
            buffer: vec![in alloc; 0; reserved + 1 + READ_AHEAD]?,
            line_start: 0,
            line_end: 0,
            kept_start: 0,
            kept_end: 0,
            longest: reserved,
            reserved,
        })
    }

    /// Sets the longest length of the lines that follow, up to the one that was reserved.
    pub fn limit(&mut self, longest: u32)
        requires { longest ≤ self.old.reserved }
        ensures { self.new ≡ limited longest self.old }
    {
        self.longest = longest as usize;
    }

    /// The line that the last call of `next_line` came upon, without its line end; empty after an
    /// answer other than `Line` and `Piece`.
    pub fn line(&self) -> &[u8]
        ensures { result.now ≡ self.now.line }
    {
        &self.buffer[self.line_start..self.line_end]
    }

    /// Goes on to the next line of the bytes kept and then of `source`.
    pub fn next_line<S: Source>(&mut self, source: &mut S) -> LineGot
        ensures got { Gives result self.new
            (ahead self.old (S.left source.old)) (ahead self.new (S.left source.new)) }
        ensures limits { KeepsLimits self.old self.new }
        ensures faults { CountsFaults (result ≡ LineGot.ReadFault) (S.faults source.old) (S.faults source.new) }

        // The source is not called where the bytes kept hold a line, or are too many without one.
        ensures line_kept { HasLineEnd (take (self.old.longest + 1) self.old.kept) → source.new ≡ source.old }
        ensures too_many_kept { self.old.longest < length self.old.kept → source.new ≡ source.old }
    {
        self.show(0, 0);
        match self.line_end_from(0) {
            Some(end) => {
                self.give_line(end);
                LineGot::Line
            }
            None => self.next_line_of(source),
        }
    }

    /// Gives the first bytes kept, as many as fit in `buf`, and returns how many.
    pub(crate) fn give_kept(&mut self, buf: &mut [u8]) -> usize
        ensures within { result ≤ length buf.old }
        ensures given { self.old.kept ≡ take result buf.new ++ self.new.kept }
        ensures ended { result ≡ 0 → 0 < length buf.old → self.old.kept ≡ [] }
        ensures limits { KeepsLimits self.old self.new }
    {
        let kept = &self.buffer[self.kept_start..self.kept_end];
        let n = buf.len().min(kept.len());
        buf[..n].copy_from_slice(&kept[..n]);
        self.kept_start += n;
        n
    }

    /// Goes on to the next line where the bytes kept hold none.
    fn next_line_of<S: Source>(&mut self, source: &mut S) -> LineGot
        requires unbroken { HasNoLineEnd (take (self.old.longest + 1) self.old.kept) }
        requires no_line { self.old.line ≡ [] }
        ensures got { Gives result self.new
            (ahead self.old (S.left source.old)) (ahead self.new (S.left source.new)) }
        ensures limits { KeepsLimits self.old self.new }
        ensures faults { CountsFaults (result ≡ LineGot.ReadFault) (S.faults source.old) (S.faults source.new) }
        ensures too_many_kept { self.old.longest < length self.old.kept → source.new ≡ source.old }
    {
        loop {
            let searched = self.kept_len();
            if searched > self.longest() {
                return LineGot::TooLong;
            }
            match self.refill(source) {
                Err(Failed) => return LineGot::ReadFault,
                Ok(0) => return self.give_rest(),
                Ok(_) => {}
            }
            if let Some(end) = self.line_end_from(searched) {
                self.give_line(end);
                return LineGot::Line;
            }
        }
    }

    fn kept_len(&self) -> usize
        ensures { result ≡ length self.now.kept }
    {
        self.kept_end - self.kept_start
    }

    fn longest(&self) -> usize
        ensures { result ≡ self.now.longest }
    {
        self.longest
    }

    /// Where the first line end stands among the bytes kept, if not after the longest length. The
    /// first `searched` bytes are known to hold none.
    fn line_end_from(&self, searched: usize) -> Option<usize>
        requires searched { HasNoLineEnd (take searched self.now.kept) }
        requires within { searched ≤ length self.now.kept }
        requires fits { searched ≤ self.now.longest }
        ensures { IsLineEndWithin self.now.kept self.now.longest result }
    {
        let kept = &self.buffer[self.kept_start..self.kept_end];
        line_end_within(kept, searched, self.longest)
    }

    /// Takes more bytes of the source after those kept, and returns how many. The line shown is
    /// empty then.
    fn refill<S: Source>(&mut self, source: &mut S) -> Result<usize, Failed>
        requires { length self.old.kept ≤ self.old.longest }
        ensures grown { IfOk result (λ n. length self.new.kept ≡ length self.old.kept + n) }
        ensures front { take (length self.old.kept) self.new.kept ≡ self.old.kept }
        ensures none_taken { OnErr result (length self.new.kept ≡ length self.old.kept) }
        ensures same { ahead self.new (S.left source.new) ≡ ahead self.old (S.left source.old) }
        ensures ended { IfOk result (λ n. n ≡ 0 → IsAtEnd (S.left source.new)) }
        ensures quiet { OnOk result (S.faults source.new ≡ S.faults source.old) }
        ensures failed { OnErr result (HasRisen (S.faults source.old) (S.faults source.new)) }
        ensures line { self.new.line ≡ [] }
        ensures limits { KeepsLimits self.old self.new }
    {
        let kept = self.kept_end - self.kept_start;
        move_to_front(&mut self.buffer, self.kept_start, self.kept_end);
        self.line_start = 0;
        self.line_end = 0;
        self.kept_start = 0;
        self.kept_end = kept;
        let taken = take_behind(self.buffer.as_mut_slice(), kept, source)?;
        self.kept_end = kept + taken;
        Ok(taken)
    }

    /// Gives the bytes kept before the first line end as the line.
    fn give_line(&mut self, end: usize)
        requires { IsFirstLineEnd self.old.kept self.old.longest end }
        ensures line { (left : Option (List ℕ)) → GivesLine self.new (ahead self.old left) (ahead self.new left) }
        ensures limits { KeepsLimits self.old self.new }
    {
        self.show(end, 1);
    }

    /// Gives all that is kept as a piece, at the end of input.
    fn give_rest(&mut self) -> LineGot
        requires unbroken { HasNoLineEnd self.old.kept }
        requires fits { length self.old.kept ≤ self.old.longest }
        ensures got { (left : Option (List ℕ)) → IsAtEnd left
            → Gives result self.new (ahead self.old left) (ahead self.new left) }
        ensures no_fault { result ≢ LineGot.ReadFault }
        ensures limits { KeepsLimits self.old self.new }
    {
        let rest = self.kept_len();
        self.show(rest, 0);
        if rest == 0 {
            LineGot::End
        } else {
            LineGot::Piece
        }
    }

    /// Shows the first `count` bytes that are kept as the line, and lets go of them and of the
    /// `skipped` bytes after them.
    fn show(&mut self, count: usize, skipped: usize)
        requires { count + skipped ≤ length self.old.kept }
        ensures line { self.new.line ≡ take count self.old.kept }
        ensures kept { self.new.kept ≡ drop (count + skipped) self.old.kept }
        ensures limits { KeepsLimits self.old self.new }
    {
        self.line_start = self.kept_start;
        self.line_end = self.kept_start + count;
        self.kept_start = self.line_end + skipped;
    }
}

/// Where the first line end stands in `kept`, if not after the longest length. Its first
/// `searched` bytes are known to hold none.
fn line_end_within(kept: &[u8], searched: usize, longest: usize) -> Option<usize>
    requires searched { HasNoLineEnd (take searched kept.now) }
    requires within { searched ≤ length kept.now }
    requires fits { searched ≤ longest }
    ensures { IsLineEndWithin kept.now longest result }
{
    let end = kept.len().min(longest.saturating_add(1));
    let found = memchr(LINE_END, &kept[searched..end])?;
    Some(searched + found)
}

/// Moves the bytes from `start` to `end` to the front of the buffer.
fn move_to_front(buffer: &mut Vec<u8>, start: usize, end: usize)
    requires order { start ≤ end }
    requires within { end ≤ vec_len buffer.old }
    ensures front { take (end - start) buffer.new.items ≡ slice_range buffer.old.items start end }
    ensures len { vec_len buffer.new ≡ vec_len buffer.old }
{
    if start > 0 {
        buffer.copy_within(start..end, 0);
    }
}

/// Takes bytes of the source into `buffer` after its first `kept` bytes, and returns how many.
pub fn take_behind<S: Source>(
    buffer: &mut [u8],
    kept: usize,
    source: &mut S,
) -> Result<usize, Failed>
    requires { kept < length buffer.old }
    ensures within { IfOk result (λ n. kept + n ≤ length buffer.old) }
    ensures front { take kept buffer.new ≡ take kept buffer.old }
    ensures taken { IfOk result (λ n.
        Takes (S.left source.old) (S.left source.new) (slice_range buffer.new kept (kept + n))) }
    ensures ended { IfOk result (λ n. n ≡ 0 → IsAtEnd (S.left source.new)) }
    ensures quiet { OnOk result (S.faults source.new ≡ S.faults source.old) }
    ensures failed { OnErr result (HasRisen (S.faults source.old) (S.faults source.new)) }
    ensures none_lost { OnErr result (S.left source.new ≡ S.left source.old) }
    ensures loans { S.loans source.new ≡ S.loans source.old }
    ensures len { length buffer.new ≡ length buffer.old }
{
    source.take(&mut buffer[kept..])
}
