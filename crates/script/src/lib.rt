// A run script: numbers and byte strings parsed and written, the FNV-1a hash, and the lines that store and look through the memory windows.
#![tactic(auto)]

pub mod answers;
pub mod hash;
pub mod memory;
pub mod words;
