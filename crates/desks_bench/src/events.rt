//! Who eliminated the classes of a journal.
use survey_core::Event;
use survey_replies::Events;

/// Counts of eliminations.
#[derive(Clone, Copy)]
pub struct Eliminations {
    pub by_desks: u32,
    pub by_eliminators: u32,
}

impl Eliminations {
    /// Those of a journal.
    pub fn of<E: Events>(journal: &mut E) -> Eliminations
        requires { E.can_wait }
    {
        let mut counts = Eliminations {
            by_desks: 0,
            by_eliminators: 0,
        };
        for place in 0..journal.length() {
            counts.add(&journal.event(place + 1));
        }
        counts
    }

    /// Counts an event.
    fn add(&mut self, event: &Event) {
        match event {
            Event::Eliminate { worker: 0, .. } => self.by_desks = self.by_desks.saturating_add(1),
            Event::Eliminate { .. } => self.by_eliminators = self.by_eliminators.saturating_add(1),
            _ => {}
        }
    }
}
