//! Laws of journals. Each function does nothing; its contract is the law.
ghost use Rattle.survey_state.specs.Laws.{ThreeAClassFollow};

/// At most three events a class follow a legal history up to the next withdrawal.
pub fn three_a_class_follow()
    ensures { ThreeAClassFollow }
{}
