// What people are told of a source: where a place is.
#![tactic(auto)]

pub mod lines;
