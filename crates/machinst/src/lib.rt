//! Operands, control, and the instruction interface.
#![tactic(auto)]

pub mod control;
pub mod inst;
pub mod layered;
pub mod operand;
