// The lines of a script of calls on a set: docs/REPLAY.md.
#![tactic(auto)]

pub mod command;
mod parse;

pub use command::{Call, Command};
pub use parse::command_of;
