//! Lists with room for a fixed number of entries.
#![tactic(auto)]

pub mod table;
