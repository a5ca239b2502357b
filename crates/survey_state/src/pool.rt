//! What is marked of a state's classes as its journal grows.
ghost use Rattle.std.specs.Prelude.{◌≡◌, ◌≤◌, length};
ghost use Rattle.question_queue.specs.Pools.{ChangesMark};
ghost use Rattle.survey_core.specs.Histories.{issued, is_ranked};
ghost use Rattle.survey_core.specs.Legal.{IsPlace};
ghost use Rattle.survey_core.specs.States.{Asks};
ghost use Rattle.survey_state.specs.States.{given_at, kept_after, IsLastEvent, KeepsPool, AreMarkedUpTo, as_said};

use question_queue::Pool;
use survey_core::{Core, Event, QuestionState};

/// Marks what the last event of the core's history changes. A withdrawal looks at each class.
pub(crate) fn mark(pool: &mut Pool, core: &Core, event: &Event)
    requires { IsLastEvent core.now event.now pool.old }
    ensures pool { KeepsPool core.now.listed core.now.history pool.new }
    ensures given { given_at pool.new ≡ given_at pool.old }
    ensures kept { pool.new.kept ≡ kept_after pool.old.kept event.now }
{
    match event {
        Event::Eliminate { place, .. } => pool.mark_ranked(*place),
        Event::Issue { place, .. } => pool.mark_asked(*place),
        Event::Commit { question, .. } => pool.mark_ranked(asked_place(core, *question)),
        Event::Close { .. } => {}
        Event::Withdraw { answer, .. } => {
            pool.cut_met(*answer - 1);
            mark_all(pool, core);
        }
    }
}

/// The place of the class that the question asks.
fn asked_place(core: &Core, question: u32) -> u32
    requires low { 1 ≤ question }
    requires high { question ≤ length (issued core.now.history) }
    ensures { Asks core.now.listed core.now.history question result }
{
    match core.question(question) {
        QuestionState::Live { place } | QuestionState::Gone { place } => place,
        QuestionState::Never => unreachable!(),
    }
}

/// Marks each class as the core says that it is ranked or not.
fn mark_all(pool: &mut Pool, core: &Core)
    requires { AreMarkedUpTo core.now 0 pool.old.marks }
    ensures marks { AreMarkedUpTo core.now (length core.now.listed.classes) pool.new.marks }
    ensures given { given_at pool.new ≡ given_at pool.old }
    ensures kept { pool.new.kept ≡ pool.old.kept }
{
    let classes = core.model().class_count();
    for index in 0..classes {
        mark_class(pool, core, index + 1);
    }
}

/// Marks the class as the core says that it is ranked or not.
fn mark_class(pool: &mut Pool, core: &Core, place: u32)
    requires place { IsPlace core.now.listed place }
    requires len { length pool.old.marks ≡ length core.now.listed.classes }
    ensures { ChangesMark (as_said (is_ranked core.now.history place)) pool.old pool.new place }
{
    if core.is_ranked(place) {
        pool.mark_ranked(place);
    } else {
        pool.unmark_ranked(place);
    }
}
