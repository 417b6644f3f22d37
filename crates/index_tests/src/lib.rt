//! The index on examples: tables that are not as built, and each refusal at its limit.

#![tactic(auto)]

mod ends;
#[cfg(test)]
mod tests;
pub mod usage;
mod vast;
