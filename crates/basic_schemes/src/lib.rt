//! Schemes that lay out their table themselves, with no other scheme below them.

#![tactic(auto)]

pub mod flat;
pub mod halving;
