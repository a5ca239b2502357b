ghost use Rattle.std.specs.Prelude.{◌≡◌, ◌∷◌};
ghost use Rattle.edges.specs.Lines.{ahead};

use crate::ends::{Failed, Source};
use crate::line_reader::Lines;

/// The bytes that a reader of lines kept and then those of its source, as one source. The faults are those of the source.
#[derive(Drop)]
pub struct Rest<'a, S: Source> {
    lines: &'a mut Lines,
    source: &'a mut S,
}

impl<'a, S: Source> Rest<'a, S> {
    /// What `lines` kept, and then `source`.
    pub fn of(lines: &'a mut Lines, source: &'a mut S) -> Rest<'a, S>
        ensures lent { (result.lines.now ≡ lines.old) × (result.source.now ≡ source.old) }
        ensures loans { (result.lines.ghost_name ≡ lines.entry.ghost_name)
            × (result.source.ghost_name ≡ source.entry.ghost_name) }
    {
        Rest { lines, source }
    }
}

impl<'a, S: Source> Source for Rest<'a, S> {
    ghost left = { λ rest. ahead rest.lines.now (S.left rest.source.now) };

    ghost faults = { λ rest. S.faults rest.source.now };

    ghost loans = { λ rest. rest.lines.ghost_name ∷ rest.source.ghost_name ∷ S.loans rest.source.now };

    fn take(&mut self, buf: &mut [u8]) -> Result<usize, Failed> {
        let given = self.lines.give_kept(buf);
        if given == 0 {
            self.source.take(buf)
        } else {
            Ok(given)
        }
    }
}
