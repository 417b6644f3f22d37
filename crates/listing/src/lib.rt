//! The lines that list a session file: one for its header, one for each event. Each part of a line is a type that is
//! displayed, and its text is a definition.
#![tactic(auto)]

pub mod line;
pub mod part;
