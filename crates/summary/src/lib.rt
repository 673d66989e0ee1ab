// Summaries in Avro's single-object encoding: which declaration of a set a summary is of, and where in it the data of its fields stand.
#![tactic(auto)]

mod calls;

pub use calls::{datum, find, summary};
