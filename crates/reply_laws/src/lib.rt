//! Laws of replies that rest on the least-index rule: without it nobody knows that answers rank a pair or leave it open, since the
//! logic has no excluded middle. They stand in a crate of their own so that `survey_core` and `survey_replies` need no solver.
#![tactic(auto)]

pub mod laws;
