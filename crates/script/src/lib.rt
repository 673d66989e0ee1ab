// What the programs share: lines of standard input with their words, numbers and bytes, and lines of standard output.
#![tactic(auto)]

pub mod answers;
pub mod hex;
pub mod input;
pub mod numbers;
pub mod output;
pub mod words;
