//! The function builder: instructions, blocks, successors, parameters and labels, as they are given from the last to the first.
#![tactic(auto)]

pub mod block_ranges;
pub mod builder;
pub mod call;
pub mod code;
pub mod function_tables;
pub mod index;
pub mod labels;
pub mod succs;
