//! The tables by name, the lengths asked for them, and the faults that a refused call reports.
#![tactic(auto)]

pub mod fault;
pub mod lengths;
pub mod table_id;
