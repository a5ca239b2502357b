//! Laws of first places.
ghost use Rattle.question_queue.specs.Laws.{FirstPlacesAreFirst, JobsAreGivenOnce};

/// A first place is that of a mark that passes the test, where none before it does.
pub fn first_places_are_first()
    ensures { FirstPlacesAreFirst }
{}

/// A class that was given out is no job at that version any more.
pub fn jobs_are_given_once()
    ensures { JobsAreGivenOnce }
{}
