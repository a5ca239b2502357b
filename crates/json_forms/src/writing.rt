//! Writes numbers, certificate numbers and arrays as compact JSON. Each call says how many bytes it writes at most.
ghost use Rattle.std.specs.Prelude.{◌≡◌, ℕ, ◌+◌, ◌*◌, ◌≤◌, ◌++◌, length};
ghost use Rattle.serde_json.specs.Data.{Data};
ghost use Rattle.serde_json.specs.Written.{compact_text, comma_if};
ghost use Rattle.json_forms.specs.Json.{array_of, whole, certificate, cite_json};

use edges::Text;
use farkas_check::Cite;
use itoa::Buffer;

/// What has a text as an item of an array.
pub(crate) trait Item: Copy {
    // The item as a JSON value, and the most bytes of its text.
    ghost json: { Self → Data };

    ghost longest: { ℕ };

    /// Writes the item.
    fn write(self, out: &mut Text)
        requires { length out.old.bytes + longest ≤ out.old.room }
        ensures bytes { out.new.bytes ≡ out.old.bytes ++ compact_text (json self) }
        ensures room { out.new.room ≡ out.old.room }
        ensures grown { length out.new.bytes ≤ length out.old.bytes + longest };
}

/// A level.
impl Item for u8 {
    ghost json = { whole };

    ghost longest = { 3 };

    fn write(self, out: &mut Text) {
        let mut buffer = Buffer::new();
        out.add(buffer.format(self).as_bytes());
    }
}

/// A number of a question or an answer, a number of classes, or a share.
impl Item for u32 {
    ghost json = { whole };

    ghost longest = { 10 };

    fn write(self, out: &mut Text) {
        let mut buffer = Buffer::new();
        out.add(buffer.format(self).as_bytes());
    }
}

/// A certificate number.
impl Item for i128 {
    ghost json = { certificate };

    ghost longest = { 42 };

    fn write(self, out: &mut Text) {
        let mut buffer = Buffer::new();
        out.add(b"\"");
        out.add(buffer.format(self).as_bytes());
        out.add(b"\"");
    }
}

/// A cited answer and its weight.
impl Item for Cite {
    ghost json = { cite_json };

    ghost longest = { 55 };

    fn write(self, out: &mut Text) {
        out.add(b"[");
        self.answer.write(out);
        out.add(b",");
        self.weight.write(out);
        out.add(b"]");
    }
}

/// Writes a comma where something stands before.
pub(crate) fn separate(later: bool, out: &mut Text)
    requires { length out.old.bytes + 1 ≤ out.old.room }
    ensures bytes { out.new.bytes ≡ out.old.bytes ++ comma_if later }
    ensures room { out.new.room ≡ out.old.room }
    ensures grown { length out.new.bytes ≤ length out.old.bytes + 1 }
{
    if later {
        out.add(b",");
    }
}

/// Writes an array of the items.
pub(crate) fn write_array<T: Item>(items: &[T], out: &mut Text)
    requires { length out.old.bytes + (T.longest + 1) * length items.now + 2 ≤ out.old.room }
    ensures bytes { out.new.bytes ≡ out.old.bytes ++ compact_text (array_of T.json items.now) }
    ensures room { out.new.room ≡ out.old.room }
    ensures grown { length out.new.bytes ≤ length out.old.bytes + (T.longest + 1) * length items.now + 2 }
{
    out.add(b"[");
    for (place, item) in items.iter().enumerate() {
        separate(place > 0, out);
        item.write(out);
    }
    out.add(b"]");
}
