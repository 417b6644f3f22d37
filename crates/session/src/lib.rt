//! The session file: bytes that are accepted exactly when they meet the rules of the format, and else refused by the
//! first rule that they break, with its place.
#![tactic(auto)]

pub mod fault;
pub mod file;
mod headed;
mod sections;
mod whole;
