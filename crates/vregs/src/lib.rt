//! The register file: virtual registers, their aliases, and which words are known.
#![tactic(auto)]

pub mod check_inst;
pub mod vregs;
