ghost use Rattle.std.specs.Prelude.{◌↔◌, IsTrue};
ghost use Rattle.survey_core.specs.Legal.{IsSpent};

/// Events in the longest history.
pub const MAX_EVENTS: u32 = 131_072;

/// Desks of a survey.
pub const MAX_DESKS: u8 = 4;

/// Eliminators; they are numbered from 1.
pub const MAX_WORKERS: u8 = 16;

/// Open questions at which none more is issued. A withdrawal may open more.
pub const MAX_OPEN_QUESTIONS: u32 = 4;

/// Whether no further withdrawal is allowed in a survey with this number of classes, after this number of withdrawals.
pub fn spent(classes: u32, withdrawals: u32) -> bool
    ensures { IsTrue result ↔ IsSpent classes withdrawals }
{
    let classes = u128::from(classes);
    let rounds = u128::from(withdrawals) + 1;
    u128::from(MAX_EVENTS) < 3 * classes + 2 * classes * rounds + rounds
}

#[cfg(test)]
mod tests;
