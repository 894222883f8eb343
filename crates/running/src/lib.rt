// Runs of the machine: instructions carried out one after the other over any shelf and any host.
#![tactic(auto)]

pub mod address;
pub mod advance;
pub mod bases;
mod calculating;
mod execute;
mod flow;
mod frames;
mod memory;
pub mod operands;
mod operators;
pub mod registers;
mod run;
mod storing;
mod talking;
