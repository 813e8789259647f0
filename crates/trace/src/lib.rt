//! The trace script: its lines are read, and answered one after another.
#![tactic(auto)]

mod alone;
mod commands;
mod head;
mod number;
mod read;
mod reason;
mod request;
pub mod session;
mod show;
mod shows;
mod stage;
mod stop;
mod words;
