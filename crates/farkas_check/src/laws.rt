//! Laws of the definitions. Each function does nothing; its contract is the law.
ghost use Rattle.farkas_check.specs.Laws.{ProvedIsRanked};

/// What a combination proves holds by every value vector that meets the answers.
pub fn proved_is_ranked()
    ensures { ProvedIsRanked }
{}
