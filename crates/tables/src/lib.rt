// A list that grows over a lent slice.
#![tactic(auto)]

pub mod table;
