// What the calls of a set answer: a result, or a refusal with its number, its declaration's place and a byte position.
#![tactic(auto)]

pub mod counts;
pub mod numbers;
pub mod refusal;

pub use counts::Counts;
pub use numbers::Numbers;
pub use refusal::{Fault, Refusal, Why};

// An answer: a result, or a refusal with its number, its place and its position.
pub type Answer<T> = Result<T, Refusal>;
