// A run script by the host's calls: the state of a run, each line's answer, and the log that the Rust writes of the same script.
#![tactic(auto)]

pub mod areas;
mod calls;
pub mod lines;
mod log;
pub mod run;
mod start;
mod turns;
