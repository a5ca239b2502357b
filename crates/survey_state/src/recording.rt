//! Events that a turn puts at the journal's end.
ghost use Rattle.std.specs.Prelude.{◌≡◌, ◌++◌, IsFalse};
ghost use Rattle.survey_core.specs.declared.events.Event.TheVariants.{Eliminate};
ghost use Rattle.survey_core.specs.Kinds.{is_withdraw};
ghost use Rattle.survey_core.specs.Histories.{is_eliminated};
ghost use Rattle.survey_core.specs.Legal.{IsEvent, IsPlace, IsUnranked, MayFollow};
ghost use Rattle.survey_replies.specs.Records.{missing_elimination};
ghost use Rattle.survey_state.specs.States.{IsAppended};
ghost use Rattle.survey_state.specs.Findings.{IsCertifiedClass};

use crate::offer::Offer;
use crate::state::State;
use criteria_model::Side;
use farkas_check::Combination;
use survey_core::Event;

/// Puts an event that may follow at the end. It is tested once more.
pub(crate) fn record(state: &mut State, event: Event)
    requires event { IsEvent state.old.listed.criteria.levels event }
    requires allowed { MayFollow state.old.listed state.old.journal event }
    requires kind { IsFalse (is_withdraw event) }
    ensures { IsAppended state.old state.new event }
{
    match state.offer(event) {
        Offer::Done => {}
        Offer::Stale(_) => unreachable!(),
    }
}

/// Eliminates a class, in a session's name.
pub(crate) fn eliminate(state: &mut State, place: u32, verdict: Side, combination: &Combination)
    requires place { IsPlace state.old.listed place }
    requires unranked { IsUnranked state.old.journal place }
    requires certified { IsCertifiedClass state.old.listed state.old.journal place verdict combination.now }
    ensures { IsAppended state.old state.new (Eliminate 0 place verdict combination.now) }
{
    let combination = *combination;
    record(
        state,
        Event::Eliminate {
            worker: 0,
            place,
            verdict,
            combination,
        },
    );
}

/// Eliminates a class, in a session's name, unless it was eliminated.
pub(crate) fn eliminate_once(
    state: &mut State,
    place: u32,
    verdict: Side,
    combination: &Combination,
)
    requires place { IsPlace state.old.listed place }
    requires unranked { IsFalse (is_eliminated state.old.journal place) → IsUnranked state.old.journal place }
    requires certified { IsCertifiedClass state.old.listed state.old.journal place verdict combination.now }
    ensures listed { state.new.listed ≡ state.old.listed }
    ensures journal { state.new.journal ≡ state.old.journal ++ missing_elimination state.old.journal place verdict combination.now }
{
    if !state.core().is_eliminated(place) {
        eliminate(state, place, verdict, combination);
    }
}
