// A script of calls on a set, read from standard input, and the answer to each of its lines: docs/REPLAY.md.
#![tactic(auto)]

mod calls;
mod memory;
mod report;
mod turns;

pub use turns::run;
