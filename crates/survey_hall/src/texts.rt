//! Lines that are written beside those of a session.
ghost use Rattle.std.specs.Prelude.{◌≡◌, ◌≤◌, [], OnErr, OnOk};
ghost use Rattle.edges.specs.Faults.{HasRisen};
ghost use Rattle.edges.specs.Told.{Appends, AppendsPrefix};
ghost use Rattle.json_forms.specs.Replies.{IsWritable, reply_text};

use criteria_model::Model;
use edges::{Failed, Sink, Text};
use json_forms::{Reply, write_reply};
use result_file::MAX_LINE;

/// Writes the line of a reply that isn't to `result`.
///
/// # Errors
///
/// The sink failed; some first bytes of the line are out.
pub(crate) fn write_line<K: Sink>(
    reply: &Reply,
    model: &Model,
    text: &mut Text,
    sink: &mut K,
) -> Result<(), Failed>
    requires writable { IsWritable model.now.levels reply.now }
    requires empty { text.old.bytes ≡ [] }
    requires room { MAX_LINE ≤ text.old.room }
    ensures written { OnOk result (Appends (K.written sink.old) (K.written sink.new) (reply_text model.now.levels reply.now)) }
    ensures quiet { OnOk result (K.faults sink.new ≡ K.faults sink.old) }
    ensures prefix { OnErr result (AppendsPrefix (K.written sink.old) (K.written sink.new) (reply_text model.now.levels reply.now)) }
    ensures failed { OnErr result (HasRisen (K.faults sink.old) (K.faults sink.new)) }
    ensures emptied { text.new.bytes ≡ [] }
    ensures room { text.new.room ≡ text.old.room }
{
    write_reply(reply, model, text);
    text.put_all(sink)
}
