//! Laws of legal histories. Each function does nothing; its contract is the law.
ghost use Rattle.survey_core.specs.Laws.{IsShort, LastPointMeets, AnswersAreSatisfiable, IsWithinMost, EliminatedAreRanked, EliminatedPairsAreRanked, IssuedAreOpen, AnsweredAreOpen, RankedHasRanking, EachHasOneRanking, RankingsAreByAnswers, ClassRanksPairs, CompleteRanksEveryPair, OneFirstPart, AllowedLacksNone};

/// The point of the last standing commit, or all ones, meets the answers of a legal history.
pub fn last_point_meets()
    ensures { LastPointMeets }
{}

/// The answers of a legal history are satisfiable.
pub fn answers_are_satisfiable()
    ensures { AnswersAreSatisfiable }
{}

/// A legal history has at most `most_events` events, by its classes and its withdrawals.
pub fn legal_is_within_most()
    ensures { IsWithinMost }
{}

/// A legal history is at most 131,072 events long.
pub fn legal_is_short()
    ensures { IsShort }
{}

/// Each class that an event of a legal history eliminates is ranked so by the answers before that event.
pub fn eliminated_are_ranked()
    ensures { EliminatedAreRanked }
{}

/// So is every pair that the class stands for, replicas included, either way round.
pub fn eliminated_pairs_are_ranked()
    ensures { EliminatedPairsAreRanked }
{}

/// The vectors of each issue open its class by the answers before it, which leave the class open.
pub fn issued_are_open()
    ensures { IssuedAreOpen }
{}

/// The vectors of each commit open its question's class by the answers before it, which leave the class open.
pub fn answered_are_open()
    ensures { AnsweredAreOpen }
{}

/// A class has a ranking, by an event that stands, exactly where an event ranks it.
pub fn ranked_has_ranking()
    ensures { RankedHasRanking }
{}

/// A class of a legal history has only one ranking.
pub fn each_has_one_ranking()
    ensures { EachHasOneRanking }
{}

/// The ranking that an event gives a class of a legal history is the one by the history's answers.
pub fn rankings_are_by_answers()
    ensures { RankingsAreByAnswers }
{}

/// What ranks a class ranks every pair that it stands for, replicas included, either way round.
pub fn class_ranks_pairs()
    ensures { ClassRanksPairs }
{}

/// Where an event ranks each class, every undominated pair within the degree limit has its class's ranking by the answers.
pub fn complete_ranks_every_pair()
    ensures { CompleteRanksEveryPair }
{}

/// An event lacks one first part at most.
pub fn one_first_part()
    ensures { OneFirstPart }
{}

/// An event that may follow lacks none.
pub fn allowed_lacks_none()
    ensures { AllowedLacksNone }
{}
