//! Adjoining ranges over another list.
#![tactic(auto)]

pub mod ranges;
