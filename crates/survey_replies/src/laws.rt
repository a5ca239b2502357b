//! Laws of replies. Each function does nothing; its contract is the law.
ghost use Rattle.survey_replies.specs.Laws.{OneReply, OneReplyOnHistory, EliminationsChangeNoReply};
ghost use Rattle.survey_replies.specs.CallLaws.{ReplyStays, CallIsMade, EliminationPrepares, NothingPrepares, PreparationsJoin, ConversationsJoin, RepliesStand, NoPlaceFalls, PlacesFromStart, OwnAreOfReplies, OwnEliminatesAreDesks};
ghost use Rattle.survey_replies.specs.JournalLaws.{EachHasOneReply, EachEliminateHasItsWorker};
ghost use Rattle.survey_replies.specs.PlainLaws.{AloneIsPlain, AloneIsThePlain, OneDeskIsPlain};

/// Certificates apart, satisfiable answers give a request one reply at most.
pub fn one_reply()
    ensures { OneReply }
{}

/// Certificates apart, a request has one reply at most on a legal history.
pub fn one_reply_on_history()
    ensures { OneReplyOnHistory }
{}

/// An elimination changes no reply.
pub fn eliminations_change_no_reply()
    ensures { EliminationsChangeNoReply }
{}

/// A reply is the right one in every longer journal.
pub fn reply_stays()
    ensures { ReplyStays }
{}

/// Two conversations, one after the other, are one.
pub fn conversations_join()
    ensures { ConversationsJoin }
{}

/// Each reply of a conversation is the right one in every journal that begins with the one seen.
pub fn replies_stand()
    ensures { RepliesStand }
{}

/// No reply is made before the last turn of an earlier one.
pub fn no_place_falls()
    ensures { NoPlaceFalls }
{}

/// What a conversation made stands from its start on.
pub fn places_from_start()
    ensures { PlacesFromStart }
{}

/// An event that is no elimination is a conversation's own as often as a reply appended it.
pub fn own_are_of_replies()
    ensures { OwnAreOfReplies }
{}

/// An elimination that a conversation appended names worker 0.
pub fn own_eliminates_are_desks()
    ensures { OwnEliminatesAreDesks }
{}

/// Each event that is no elimination belongs to exactly one reply.
pub fn each_has_one_reply()
    ensures { EachHasOneReply }
{}

/// Each elimination is by a session or by one of the eliminators.
pub fn each_eliminate_has_its_worker()
    ensures { EachEliminateHasItsWorker }
{}

/// A conversation that is alone on its journal, eliminations apart, replies as the plain run does.
pub fn alone_is_plain()
    ensures { AloneIsPlain }
{}

/// Every plain run of the same requests has the same replies.
pub fn alone_is_the_plain()
    ensures { AloneIsThePlain }
{}

/// Eliminations and then the turn that replies make a call.
pub fn call_is_made()
    ensures { CallIsMade }
{}

/// A turn that appends an elimination for the request goes before the turn that replies.
pub fn elimination_prepares()
    ensures { EliminationPrepares }
{}

/// So does a turn that appends nothing.
pub fn nothing_prepares()
    ensures { NothingPrepares }
{}

/// Eliminations after eliminations are eliminations.
pub fn preparations_join()
    ensures { PreparationsJoin }
{}

/// A journal that one desk and eliminators made has the replies of the plain run.
pub fn one_desk_is_plain()
    ensures { OneDeskIsPlain }
{}
