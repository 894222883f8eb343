// What is checked of a tree in its table, before its kinds and types: depth, and names.
#![tactic(auto)]

pub mod binder;
pub mod checking;
pub mod depth;
pub mod faults;
pub mod names;
pub mod scope;
