// The limits of checked files; those of models and surveys are `criteria_model`'s and `survey_core`'s.

use survey_core::MAX_EVENTS;

/// The bytes of the longest line, its line end not counted.
pub const MAX_LINE: u32 = 4_096;

/// The lines of the longest file: a heading, a model line, an event or a claim each, and an end line.
pub const MAX_LINES: u32 = MAX_EVENTS + 3;

/// The greatest number of a model line.
pub(crate) const MAX_MODEL_NUMBER: u32 = 999;
