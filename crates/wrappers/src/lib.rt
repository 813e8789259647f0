//! Wrappers: instructions made of any other instruction.
#![tactic(auto)]

pub mod charged;
pub mod fenced;
pub mod wrapped;
