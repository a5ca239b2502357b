//! A law of sessions. The function does nothing; its contract is the law.
ghost use Rattle.session_protocol.specs.Laws.{OneSession};

/// Where no fault came and memory sufficed, the text that lies ahead has one way to be read by a session: one list of
/// lines, and one end.
pub fn one_session()
    ensures { OneSession }
{}
