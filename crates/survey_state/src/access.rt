ghost use Rattle.std.specs.Prelude.{◌≡◌, List, Option, Some, None};
ghost use mathlib.Core.List.{IsPrefix};
ghost use Rattle.pair_enumeration.specs.Listed.{Listed};
ghost use Rattle.survey_core.specs.declared.events.Event.{Event};
ghost use Rattle.survey_replies.specs.Calls.{Seen, TakesTurn};

use crate::state::State;

/// A way to the state of a survey, in turns: `begin` gives the state out, `finish` takes it back.
pub trait Access {
    // What the state is one of: a model with its classes, and whatever else an implementation names. No call changes it.
    type About;

    ghost about: { Self → Self.About };

    ghost listed: { Self.About → Listed };

    // The journal seen, and the places of it that are one's own.
    ghost seen: { Self → Seen };

    // The journal with which the state was given out, while it is out.
    ghost out: { Self → Option (List Event) };

    // What a call needs of its surroundings where it may wait for others; `Unit` where nobody is waited for.
    ghost can_wait: { Type 0 };

    /// Gives the state out.
    fn begin(&mut self) -> State
        requires waits { can_wait }
        requires free { out self.old ≡ None }
        ensures listed { result.listed ≡ listed (about self.old) }
        ensures longer { IsPrefix (seen self.old).journal result.journal }
        ensures out { out self.new ≡ Some result.journal }
        ensures seen { seen self.new ≡ seen self.old }
        ensures same { about self.new ≡ about self.old };

    /// Takes the state back, with what was put at its journal's end.
    fn finish(&mut self, state: State)
        requires listed { state.listed ≡ listed (about self.old) }
        requires longer { (found : List Event) × (out self.old ≡ Some found) × IsPrefix found state.journal }
        ensures journal { (seen self.new).journal ≡ state.journal }
        ensures turn { (found : List Event) → out self.old ≡ Some found → TakesTurn (seen self.old) (seen self.new) found }
        ensures free { out self.new ≡ None }
        ensures same { about self.new ≡ about self.old };
}
