//! Registers: words, classes, sets of physical registers, and the registers that hold a value.
#![tactic(auto)]

pub mod preg_set;
pub mod reg;
pub mod value_regs;
