//! How a survey's classes came to be ranked.
use survey_core::Event;
use survey_replies::Events;

/// Counts of events.
#[derive(Clone, Copy)]
pub struct Counts {
    /// Questions.
    pub asked: u32,
    /// Eliminations by one answer together with increments.
    pub by_one: u32,
    /// Eliminations by several answers.
    pub by_more: u32,
}

impl Counts {
    /// Those of a journal.
    pub fn of<E: Events>(journal: &mut E) -> Counts
        requires { E.can_wait }
    {
        let mut counts = Counts {
            asked: 0,
            by_one: 0,
            by_more: 0,
        };
        for place in 0..journal.length() {
            counts.add(&journal.event(place + 1));
        }
        counts
    }

    /// Counts an event.
    fn add(&mut self, event: &Event) {
        match event {
            Event::Issue { .. } => self.asked = self.asked.saturating_add(1),
            Event::Eliminate { combination, .. } => {
                if combination.answers.len() == 1 {
                    self.by_one = self.by_one.saturating_add(1);
                } else {
                    self.by_more = self.by_more.saturating_add(1);
                }
            }
            _ => {}
        }
    }
}
