//! Laws of the definitions. Each function does nothing; its contract is the law.
ghost use Rattle.criteria_model.specs.Laws.{UndominatedIsNotDominated, FilledIsWorthSame, ReplicasGainSame, ReplicasRankSame, TurnedRanksTurned, OpenedIsOpen, RankedOnce};

/// Two alternatives are undominated exactly where they differ and neither dominates the other.
pub fn undominated_is_not_dominated()
    ensures { UndominatedIsNotDominated }
{}

/// A written list of levels is worth what the list with level 1 at its cancelled places is.
pub fn filled_is_worth_same()
    ensures { FilledIsWorthSame }
{}

/// Replicas have one gain.
pub fn replicas_gain_same()
    ensures { ReplicasGainSame }
{}

/// Any values rank replicas alike.
pub fn replicas_rank_same()
    ensures { ReplicasRankSame }
{}

/// Exchanging the sides of a pair exchanges the sides of its ranking.
pub fn turned_ranks_turned()
    ensures { TurnedRanksTurned }
{}

/// A pair that two value vectors open is open.
pub fn opened_is_open()
    ensures { OpenedIsOpen }
{}

/// Satisfiable answers rank a pair in one way at most.
pub fn ranked_once()
    ensures { RankedOnce }
{}
