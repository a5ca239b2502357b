//! Each function does nothing; its contract is the law.
ghost use Rattle.reply_laws.specs.Laws.{EachIsDecided, EachHasReply, CompleteExactly, ValuesExactly};

/// Answers rank a pair, or leave it open.
pub fn each_is_decided()
    ensures { EachIsDecided }
{}

/// Each request has a reply on a legal history.
pub fn each_has_reply()
    ensures { EachHasReply }
{}

/// The reply to `next` is Complete exactly where the answers rank every undominated pair within the degree limit.
pub fn complete_exactly()
    ensures { CompleteExactly }
{}

/// The reply to `values` has values exactly there.
pub fn values_exactly()
    ensures { ValuesExactly }
{}
