//! The kinds of elements that a day's events give: phase maps, extremes, halt summaries and chain maps.
//!
//! Each is a semigroup, so that the elements of a run of events have a product, and each says what that product means in
//! words of the events. Elements are made only from events and by combining, and any numbers in one stand for an element
//! by the kind's own rule.

#![tactic(auto)]

pub mod chain_map;
pub mod extreme;
pub mod halt_summary;
pub mod kind;
pub mod phase_map;
#[cfg(test)]
mod tests;
