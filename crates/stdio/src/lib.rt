// Standard input by lines, and standard output from a buffer: what failed is told from what ended.
#![tactic(auto)]

mod input;
mod output;

pub use input::Input;
pub use output::Output;
