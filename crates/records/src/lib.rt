//! What a session file is made of: the header, codes and events, and a reader that hands out
//! records one after the other as parts of the file.
#![tactic(auto)]

mod array;
pub mod reader;
pub mod record;
