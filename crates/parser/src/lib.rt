// From a source to a table that shows its tree.
#![tactic(auto)]

mod blocks;
mod expressions;
pub mod faults;
mod forms;
mod lists;
pub mod parse;
mod parser;
mod types;
